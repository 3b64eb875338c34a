//! The definitions of notes, openings and blocks at rows that were worked out by hand. A caller has a law by
//! calling its function, which does nothing.

ghost use Rattle.std.specs.Prelude.{◌≡◌, pos, neg_ℤ};
ghost use Rattle.awari_block.specs.Shares.{first_rank};
ghost use Rattle.awari_block.specs.Steps.{after_note, after_opening};
ghost use Rattle.awari_block.specs.Tally.{Open, Settled, Ended, Nothing, ByCapture, ByNotes};
ghost use Rattle.awari_block.specs.declared.notes.Kind.TheVariants.{Won, Lost};

/// Worked rows. They show what notes of gain 3 make of a board, the last of them and those before it.
/// They show what the opening of gain 1 makes of boards with nothing left to hear. And they show the
/// blocks of four owners of level 2, and of sixteen owners of level 1.
pub fn worked_examples()
    ensures lost { after_note 3 (Open Nothing 0 0) Lost 2 3 4 ≡ Settled (pos 3) 5 4 }
    ensures as_near { after_note 2 (Settled (pos 3) 5 4) Lost 0 3 4 ≡ Settled (pos 3) 5 5 }
    ensures farther { after_note 2 (Settled (pos 3) 5 4) Lost 0 3 5 ≡ Settled (pos 3) 5 4 }
    ensures first_won { after_note 2 (Open Nothing 0 0) Won 0 3 4 ≡ Open (ByNotes (neg_ℤ (pos 3))) 1 4 }
    ensures last_won { after_note 0 (Open (ByNotes (neg_ℤ (pos 3))) 1 4) Won 1 3 6 ≡ Settled (neg_ℤ (pos 3)) 7 3 }
    ensures won_before { after_note 0 (Open (ByNotes (neg_ℤ (pos 5))) 1 4) Won 1 3 2 ≡ Settled (neg_ℤ (pos 3)) 5 2 }
    ensures capture_is_better { after_note 0 (Open (ByCapture (neg_ℤ (pos 2))) 8 4) Won 1 3 2 ≡ Open (ByCapture (neg_ℤ (pos 2))) 8 4 }
    ensures equal_capture { after_note 0 (Open (ByCapture (neg_ℤ (pos 3))) 8 4) Won 1 3 2 ≡ Settled (neg_ℤ (pos 3)) 5 10 }
    ensures captures_win { after_opening 2 (Open (ByCapture (pos 1)) 4 0) 5 1 ≡ Settled (pos 1) 1 4 }
    ensures captures_lose { after_opening 0 (Open (ByCapture (neg_ℤ (pos 1))) 8 4) 5 1 ≡ Settled (neg_ℤ (pos 1)) 5 8 }
    ensures not_heard_yet { after_opening 2 (Open (ByCapture (neg_ℤ (pos 1))) 8 4) 5 1 ≡ Open (ByCapture (neg_ℤ (pos 1))) 8 4 }
    ensures ended { after_opening 0 (Ended (pos 5)) 5 5 ≡ Settled (pos 5) 0 0 }
    ensures second_block { first_rank 78 4 1 ≡ 20 }
    ensures last_block { first_rank 78 4 3 ≡ 60 }
    ensures empty_block { first_rank 12 16 12 ≡ 12 }
{}
