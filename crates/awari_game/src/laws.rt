//! The definitions of plays at one that was worked out by hand. A caller has a law by calling its function,
//! which does nothing.

ghost use Rattle.std.specs.Prelude.{◌≡◌, [], ◌∷◌, true, false, pos};
ghost use Rattle.awari_game.specs.Plays.{IsOutcome, after, start};

/// Worked plays: a capture of two that leaves a board with one stone and no legal move, and a quiet
/// move.
pub fn worked_examples()
    ensures capture { after (start (0 ∷ 0 ∷ 0 ∷ 0 ∷ 0 ∷ 1 ∷ 1 ∷ 0 ∷ 1 ∷ 0 ∷ 0 ∷ 0 ∷ [])) 5
        ≡ record { board = 0 ∷ 0 ∷ 1 ∷ 0 ∷ 0 ∷ 0 ∷ 0 ∷ 0 ∷ 0 ∷ 0 ∷ 0 ∷ 0 ∷ []; running = pos 2; first_moves = false; quiet = 0 } }
    ensures outcome { IsOutcome 0 (after (start (0 ∷ 0 ∷ 0 ∷ 0 ∷ 0 ∷ 1 ∷ 1 ∷ 0 ∷ 1 ∷ 0 ∷ 0 ∷ 0 ∷ [])) 5) (pos 1) }
    ensures quiet { after (start (1 ∷ 0 ∷ 0 ∷ 0 ∷ 0 ∷ 0 ∷ 0 ∷ 0 ∷ 1 ∷ 0 ∷ 0 ∷ 0 ∷ [])) 0
        ≡ record { board = 0 ∷ 0 ∷ 1 ∷ 0 ∷ 0 ∷ 0 ∷ 0 ∷ 1 ∷ 0 ∷ 0 ∷ 0 ∷ 0 ∷ []; running = pos 0; first_moves = false; quiet = 1 } }
{}
