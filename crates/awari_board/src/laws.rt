//! What follows from the rules for every position. Each law is proved, and a caller has it by
//! calling its function, which does nothing.

ghost use Rattle.std.specs.Prelude.{◌≡◌, ◌+◌, ◌↔◌, List, [], ◌∷◌, true, ℕ, sum, pos, neg_ℤ};
ghost use Rattle.awari_board.specs.BoardFault.{IsFaulty};
ghost use Rattle.awari_board.specs.MoveFault.{IsDue};
ghost use Rattle.awari_board.specs.Rules.{IsBoard, IsEnd, IsEnded, IsLegal, IsMove};
ghost use Rattle.awari_board.specs.Tests.{is_ended, is_legal};
ghost use Rattle.awari_board.specs.Text.{text_of};
ghost use Rattle.awari_board.specs.declared.moves.MoveFault.{MoveFault};
ghost use Rattle.awari_board.specs.declared.moves.MoveFault.TheVariants.{NoPit, Ended, EmptyPit, MustFeed};
ghost use Rattle.awari_board.specs.declared.text.BoardFault.{BoardFault};

/// A move leads from a board to a board, and no stone is lost: what it doesn't capture stays.
pub fn moves_keep_boards()
    ensures board { (board next : List ℕ) (x c : ℕ) → IsBoard board → IsMove board x c next → IsBoard next }
    ensures stones { (board next : List ℕ) (x c : ℕ) → IsBoard board → IsMove board x c next → sum next + c ≡ sum board }
{}

/// The tests of `specs/Tests.antt`, which compute, decide the rules.
pub fn tests_decide()
    ensures legal { (board : List ℕ) (x : ℕ) → (is_legal board x ≡ true) ↔ IsLegal board x }
    ensures ended { (board : List ℕ) → (is_ended board ≡ true) ↔ IsEnded board }
{}

/// At most one fault is due, and none if the move is legal.
pub fn one_fault_is_due()
    ensures one { (board : List ℕ) (x : ℕ) (fault other : MoveFault) → IsDue board x fault → IsDue board x other → fault ≡ other }
    ensures none { (board : List ℕ) (x : ℕ) (fault : MoveFault) → IsDue board x fault → IsLegal board x → ⊥ }
{}

/// At most one fault of a text is due, and none if it is the text of a board.
pub fn one_board_fault_is_due()
    ensures one { (text : List ℕ) (fault other : BoardFault) → IsFaulty text fault → IsFaulty text other → fault ≡ other }
    ensures none { (text board : List ℕ) (fault : BoardFault) → IsFaulty text fault → IsBoard board → text ≡ text_of board → ⊥ }
{}

/// The definitions at positions that were worked out by hand.
pub fn worked_examples()
    // A grand slam captures nothing, and here it leaves a board that is ended.
    ensures grand_slam { IsMove (0 ∷ 0 ∷ 0 ∷ 0 ∷ 0 ∷ 1 ∷ 1 ∷ 0 ∷ 0 ∷ 0 ∷ 0 ∷ 0 ∷ []) 5 0
        (2 ∷ 0 ∷ 0 ∷ 0 ∷ 0 ∷ 0 ∷ 0 ∷ 0 ∷ 0 ∷ 0 ∷ 0 ∷ 0 ∷ []) }
    ensures after_grand_slam { IsEnd (2 ∷ 0 ∷ 0 ∷ 0 ∷ 0 ∷ 0 ∷ 0 ∷ 0 ∷ 0 ∷ 0 ∷ 0 ∷ 0 ∷ []) (pos 2) }

    // The same sowing captures if the opponent has another stone.
    ensures capture { IsMove (0 ∷ 0 ∷ 0 ∷ 0 ∷ 0 ∷ 1 ∷ 1 ∷ 0 ∷ 1 ∷ 0 ∷ 0 ∷ 0 ∷ []) 5 2
        (0 ∷ 0 ∷ 1 ∷ 0 ∷ 0 ∷ 0 ∷ 0 ∷ 0 ∷ 0 ∷ 0 ∷ 0 ∷ 0 ∷ []) }

    // A run of captured pits stops at the side's edge.
    ensures run { IsMove (0 ∷ 0 ∷ 0 ∷ 0 ∷ 0 ∷ 2 ∷ 1 ∷ 2 ∷ 0 ∷ 1 ∷ 0 ∷ 0 ∷ []) 5 5
        (0 ∷ 0 ∷ 0 ∷ 1 ∷ 0 ∷ 0 ∷ 0 ∷ 0 ∷ 0 ∷ 0 ∷ 0 ∷ 0 ∷ []) }

    // The origin is left out on each lap, and a capture can come on the second.
    ensures lap { IsMove (12 ∷ 0 ∷ 0 ∷ 0 ∷ 0 ∷ 0 ∷ 0 ∷ 0 ∷ 0 ∷ 0 ∷ 0 ∷ 0 ∷ []) 0 0
        (1 ∷ 1 ∷ 1 ∷ 1 ∷ 1 ∷ 1 ∷ 0 ∷ 2 ∷ 1 ∷ 1 ∷ 1 ∷ 1 ∷ []) }
    ensures second_lap { IsMove (0 ∷ 0 ∷ 0 ∷ 0 ∷ 0 ∷ 12 ∷ 0 ∷ 0 ∷ 0 ∷ 0 ∷ 0 ∷ 0 ∷ []) 5 2
        (0 ∷ 1 ∷ 1 ∷ 1 ∷ 1 ∷ 1 ∷ 1 ∷ 1 ∷ 1 ∷ 1 ∷ 1 ∷ 0 ∷ []) }

    // Against a bare opponent pit 5 is legal, and pits 3, 0 and 6 are refused, each with its fault.
    ensures feeds { IsLegal (0 ∷ 0 ∷ 0 ∷ 1 ∷ 0 ∷ 1 ∷ 0 ∷ 0 ∷ 0 ∷ 0 ∷ 0 ∷ 0 ∷ []) 5 }
    ensures must_feed { IsDue (0 ∷ 0 ∷ 0 ∷ 1 ∷ 0 ∷ 1 ∷ 0 ∷ 0 ∷ 0 ∷ 0 ∷ 0 ∷ 0 ∷ []) 3 MustFeed }
    ensures empty_pit { IsDue (0 ∷ 0 ∷ 0 ∷ 1 ∷ 0 ∷ 1 ∷ 0 ∷ 0 ∷ 0 ∷ 0 ∷ 0 ∷ 0 ∷ []) 0 EmptyPit }
    ensures no_pit { IsDue (0 ∷ 0 ∷ 0 ∷ 1 ∷ 0 ∷ 1 ∷ 0 ∷ 0 ∷ 0 ∷ 0 ∷ 0 ∷ 0 ∷ []) 6 NoPit }

    // A mover whose stones can't reach the opponent ends the play and keeps them.
    ensures ended { IsDue (0 ∷ 1 ∷ 0 ∷ 0 ∷ 0 ∷ 0 ∷ 0 ∷ 0 ∷ 0 ∷ 0 ∷ 0 ∷ 0 ∷ []) 1 Ended }
    ensures end_with_own_stones { IsEnd (0 ∷ 1 ∷ 0 ∷ 0 ∷ 0 ∷ 0 ∷ 0 ∷ 0 ∷ 0 ∷ 0 ∷ 0 ∷ 0 ∷ []) (pos 1) }
    ensures end_with_none { IsEnd (0 ∷ 0 ∷ 0 ∷ 0 ∷ 0 ∷ 0 ∷ 0 ∷ 1 ∷ 0 ∷ 0 ∷ 0 ∷ 0 ∷ []) (neg_ℤ (pos 1)) }
{}
