//! What the definitions say of words that are written out. The law is proved, and a caller has it by
//! calling its function, which does nothing.

ghost use Rattle.std.specs.Prelude.{◌≡◌, [], ◌∷◌, Some, codes};
ghost use Rattle.awari_words.specs.Commands.{awari_commands};
ghost use Rattle.awari_words.specs.Named.{named};
ghost use Rattle.clap.specs.Faults.{fault_of};
ghost use Rattle.clap.specs.declared.error.kind.ErrorKind.TheVariants.{ValueValidation};

/// Worked rows: the command that some words name, and why other words are refused. `tests/rows` has more.
pub fn worked_words()
    // Any number of words of moves may stand behind the limit.
    ensures judge { named (codes "awari" ∷ codes "judge" ∷ codes "0/1" ∷ codes "9" ∷ codes "02" ∷ codes "1" ∷ codes "3" ∷ [])
        ≡ Some (codes "judge", (codes "BOARD", codes "0/1" ∷ []) ∷ (codes "LIMIT", codes "9" ∷ []) ∷ (codes "MOVES", codes "02" ∷ codes "1" ∷ codes "3" ∷ []) ∷ []) }

    // An option may stand before the words, and may have a short name. Each that isn't given has its default,
    // if it has one. A flag has the value that says whether it is given.
    ensures build { named (codes "awari" ∷ codes "build" ∷ codes "-j" ∷ codes "3" ∷ codes "12" ∷ codes "--progress" ∷ [])
        ≡ Some (
          codes "build",
          (codes "threads", codes "3" ∷ []) ∷ (codes "TOP", codes "12" ∷ []) ∷ (codes "progress", codes "true" ∷ []) ∷ (codes "estimate", codes "false" ∷ []) ∷ (codes "owners", codes "0" ∷ [])
              ∷ (codes "room", codes "64" ∷ []) ∷ (codes "sweeps", codes "1000" ∷ []) ∷ [],
        ) }

    // There is no level above the highest.
    ensures high { fault_of awari_commands (codes "awari" ∷ codes "build" ∷ codes "25" ∷ []) ≡ ValueValidation ∷ [] }
{}
