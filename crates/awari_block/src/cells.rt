//! What is kept of each board of a block.

ghost use Rattle.std.specs.Prelude.{◌≡◌, ℕ, ◌⊎◌, ◌+◌, ◌<◌, ◌≤◌, IfSome, Some, None};
ghost use Rattle.awari_block.specs.Cells.{status_of, view_of, is_settled, status_with_gain, CanHearAt, Fits, FitsBy, IsBeyond, IsOpen, IsWithin, IsEither, MayOpen, StepsCell};
ghost use Rattle.awari_block.specs.Notes.{kind_of};
ghost use Rattle.awari_block.specs.Part.{settled_by};
ghost use Rattle.awari_block.specs.Pits.{has_pit};
ghost use Rattle.awari_block.specs.Steps.{after_note, cell_after_note, cell_after_opening};
ghost use Rattle.awari_block.specs.Tally as tally;
ghost use Rattle.awari_block.specs.declared.cells.Mark.TheVariants.{Capturing, Noted, Quiet, Settled};
ghost use Rattle.awari_block.specs.declared.notes.Kind.TheVariants.{Won, Lost};
ghost use Rattle.awari_block.specs.declared.stakes.Stake.{Stake as StakeView};

use crate::notes::Kind;
use crate::pits::Pits;
use crate::stakes::Stake;

/// What a cell knows of its board.
#[derive(Clone, Copy, PartialEq)]
pub enum Mark {
    /// No move is legal, and the gain of the end, which is the score, is not open yet.
    Ended,
    /// No move captures, no note was heard, and the board is not settled.
    Quiet,
    /// The best capture gains the score, no note says that a move gains more, and the board is not
    /// settled.
    Capturing,
    /// Notes say that moves gain the score, no capture gains as much, and the board is not settled.
    Noted,
    /// The score is the board's value.
    Settled,
}

/// The cell of a board, in eight bytes. Once it is settled it keeps mark, score and distance.
#[derive(Clone, Copy)]
pub struct Cell {
    /// The greatest distance of a Won note, or the distance of a settled board, in plies.
    pub dist: u32,
    /// Stones, for the mover.
    pub score: i8,
    /// The pits of the moves that are known to gain the score. Once the board is settled, they are
    /// those that serve as its plan.
    pub plans: Pits,
    /// The pits of the quiet moves of which no note was heard.
    pub left: Pits,
    /// What the score and the distance say.
    pub mark: Mark,
}

impl Cell {
    /// Whether the board is settled.
    #[inline(always)]
    pub fn is_settled(&self) -> bool
        ensures { result ≡ is_settled self.now.mark }
    {
        self.mark == Mark::Settled
    }

    /// The kind of the notes that the board gives, if it is settled.
    #[inline(always)]
    pub fn kind(&self) -> Kind
        ensures { result ≡ kind_of self.now.score }
    {
        if self.score > 0 {
            Kind::Won
        } else {
            Kind::Lost
        }
    }

    /// Value and distance of the board, if it is settled.
    pub fn settled(&self) -> Option<(i8, u32)>
        ensures known { result ≡ settled_by (status_of self.now) }
        ensures ranged { (stake : StakeView) → Fits stake self.now → IfSome result (λ s. IsWithin stake.level s.0 × IsBeyond stake.gain s.0) }
    {
        if self.mark == Mark::Settled {
            Some((self.score, self.dist))
        } else {
            None
        }
    }

    /// Whether the move from this pit is quiet, and no note of it was heard.
    pub fn has_left(&self, pit: u8) -> bool
        requires { pit < 6 }
        ensures { result ≡ has_pit self.now.left pit }
    {
        self.left.has(pit)
    }

    /// Hears the note of this pit and kind, of the open gain and wave. Conditions: the pit is below
    /// 6, a gain is open, and the open wave is not the greatest u32.
    ///
    /// A lost board gives the gain at once, and another that is as near serves as a plan as well. A
    /// won one leaves one quiet move less that might do better. The last of them settles the board,
    /// unless a capture does better.
    #[inline(always)]
    pub fn hear(&mut self, stake: Stake, pit: u8, kind: Kind)
        requires { CanHearAt stake pit self.old }
        ensures cell { view_of self.new ≡ cell_after_note (view_of self.old) kind pit stake.gain stake.wave }
        ensures steps { StepsCell stake self.old self.new }
    {
        self.left = self.left.without(pit);
        match kind {
            Kind::Lost => self.hear_lost(stake, pit),
            Kind::Won => self.hear_won(stake, pit),
        }
    }

    /// Hears that the move from this pit leads to a lost board.
    #[inline(always)]
    fn hear_lost(&mut self, stake: Stake, pit: u8)
        requires { CanHearAt stake pit self.old }
        ensures known { status_of self.new ≡ after_note self.old.left (status_of self.old) Lost pit stake.gain stake.wave }
        ensures left { self.new.left ≡ self.old.left }
        ensures steps { StepsCell stake self.old self.new }
    {
        let gain = stake.gain as i8;
        let dist = stake.wave + 1;
        match self.mark {
            Mark::Settled => {
                if self.score == gain && self.dist == dist {
                    self.plans = self.plans.with(pit);
                }
            }
            Mark::Ended => {}
            Mark::Quiet | Mark::Capturing | Mark::Noted => {
                self.plans = Pits::only(pit);
                self.settle(gain, dist);
            }
        }
    }

    /// Hears that the move from this pit leads to a won board.
    #[inline(always)]
    fn hear_won(&mut self, stake: Stake, pit: u8)
        requires { CanHearAt stake pit self.old }
        ensures known { status_of self.new ≡ after_note self.old.left (status_of self.old) Won pit stake.gain stake.wave }
        ensures left { self.new.left ≡ self.old.left }
        ensures steps { StepsCell stake self.old self.new }
    {
        if self.mark == Mark::Settled || self.mark == Mark::Ended {
            return;
        }
        let gain = -(stake.gain as i8);
        let far = stake.wave.max(self.dist);
        self.know(gain, pit);
        if self.left.is_empty() && self.score == gain {
            self.settle(gain, far + 1);
        } else {
            self.dist = far;
        }
    }

    /// Takes in that the move from this pit gains this, by a note. Condition: the board is neither
    /// ended nor settled.
    #[inline(always)]
    fn know(&mut self, gain: i8, pit: u8)
        requires pit { pit < 6 }
        requires open { IsOpen self.old.mark }
        ensures known { status_of self.new ≡ status_with_gain (status_of self.old) gain pit }
        ensures gains { (self.new.mark ≡ Noted) ⊎ (self.new.mark ≡ Capturing) }
        ensures either { ((self.new.score ≡ gain) × (self.new.mark ≡ Noted)) ⊎ ((self.new.score ≡ self.old.score) × (self.new.mark ≡ self.old.mark) × (self.old.mark ≡ Quiet → ⊥)) }
        ensures same { (self.new.dist ≡ self.old.dist) × (self.new.left ≡ self.old.left) }
    {
        if self.mark == Mark::Quiet || self.score < gain {
            self.mark = Mark::Noted;
            self.score = gain;
            self.plans = Pits::only(pit);
        } else if self.score == gain {
            self.plans = self.plans.with(pit);
        }
    }

    /// The gain whose opening may settle the board, in a level with this many stones: that of its end, or
    /// what its best capture gains or loses. None if the board is settled, or has neither.
    pub fn awaited_gain(&self, level: u8) -> Option<u8>
        requires low { level ≤ 24 }
        requires fits { FitsBy self.now.mark level (level + 1) self.now.score self.now.dist }
        ensures few { IfSome result (λ t. t ≤ 24) }
        ensures some { IfSome result (MayOpen self.now.mark self.now.score level) }
        ensures only { (t : ℕ) → MayOpen self.now.mark self.now.score level t → result ≡ Some t }
    {
        match self.mark {
            Mark::Settled | Mark::Quiet | Mark::Noted => None,
            Mark::Ended => Some(level),
            Mark::Capturing => {
                if self.score < 0 {
                    return Some((-self.score) as u8);
                }
                Some(self.score as u8)
            }
        }
    }

    /// The cell once the gain of the stake is opened. An end settles the board at the greatest gain.
    /// A capture does so at the gain that it wins, or at the gain that it loses if each quiet move
    /// has a Won note.
    pub fn with_gain(self, stake: Stake) -> Cell
        requires low { stake.level ≤ 24 }
        requires gain { stake.gain ≤ stake.level }
        requires opened { stake.wave ≡ 0 }
        requires fits { Fits stake self }
        ensures cell { view_of result ≡ cell_after_opening (view_of self) stake.level stake.gain }
        ensures steps { StepsCell stake self result }
    {
        match self.mark {
            Mark::Settled | Mark::Quiet | Mark::Noted => self,
            Mark::Ended => {
                if stake.gain == stake.level {
                    Cell {
                        mark: Mark::Settled,
                        plans: Pits::NONE,
                        dist: 0,
                        ..self
                    }
                } else {
                    self
                }
            }
            Mark::Capturing => {
                if self.score == stake.gain as i8 {
                    return Cell {
                        mark: Mark::Settled,
                        dist: 1,
                        ..self
                    };
                }
                if self.left.is_empty() && self.score == -(stake.gain as i8) {
                    return Cell {
                        mark: Mark::Settled,
                        dist: self.dist + 1,
                        ..self
                    };
                }
                self
            }
        }
    }

    /// The cell of a board that is ended, with what its end gains.
    pub fn of_end(gain: i8) -> Cell
        ensures cell { view_of result ≡ record { left = 0; status = tally.Ended gain } }
        ensures fits { (stake : StakeView) → IsEither stake.level gain → Fits stake result }
    {
        Cell {
            dist: 0,
            score: gain,
            plans: Pits::NONE,
            left: Pits::NONE,
            mark: Mark::Ended,
        }
    }

    /// The cell of a board that heard no note, with these quiet pits and no capture.
    pub fn of_quiet(quiet: Pits) -> Cell
        ensures cell { view_of result ≡ record { left = quiet; status = tally.Open tally.Nothing 0 0 } }
        ensures fits { (stake : StakeView) → Fits stake result }
    {
        Cell {
            dist: 0,
            score: 0,
            plans: Pits::NONE,
            left: quiet,
            mark: Mark::Quiet,
        }
    }

    /// The cell of a board that heard no note, with these quiet pits. Its best captures gain `best`,
    /// and `plans` are their pits.
    pub fn of_captures(quiet: Pits, best: i8, plans: Pits) -> Cell
        ensures cell { view_of result ≡ record { left = quiet; status = tally.Open (tally.ByCapture best) plans 0 } }
        ensures fits { (stake : StakeView) → IsWithin stake.level best → Fits stake result }
    {
        Cell {
            dist: 0,
            score: best,
            plans,
            left: quiet,
            mark: Mark::Capturing,
        }
    }

    /// Settles the board at this value and distance, with the plans that it has.
    #[inline(always)]
    fn settle(&mut self, score: i8, dist: u32)
        ensures { self.new ≡ record self.old { mark = Settled; score = score; dist = dist } }
    {
        self.mark = Mark::Settled;
        self.score = score;
        self.dist = dist;
    }
}

const _: () = prove!(size_of::<Cell>() == 8);
