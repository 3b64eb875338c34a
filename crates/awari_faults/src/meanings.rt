//! The name and the sentence that belong to each number.

ghost use Rattle.std.specs.Prelude.{◌≡◌, ◌≤◌, ◌++◌, ◌∷◌, [], length};
ghost use Rattle.awari_faults.specs.Meanings.{Meant, meant_by, name_of, of_builds, of_files, of_tables, sentence, sentence_of_limit};
ghost use Rattle.awari_faults.specs.Means.{Means};

/// What a number means.
#[derive(Clone, Copy)]
struct Meaning {
    /// The name of its refusals.
    name: &'static str,
    /// A sentence for a person, with a zero byte behind it.
    sentence: &'static [u8],
}

/// The name of the refusals of a number, empty for a number of none.
#[tactic(auto, unfolding(crate::specs::Meanings::name_of))]
pub fn name_of(number: u8) -> &'static str
    ensures name { result.now ≡ name_of number }
    ensures short { length result.now ≤ 15 }
{
    meaning_of(number).name
}

/// The sentence of an answer. Every number has one.
pub fn sentence(answer: u8) -> &'static [u8]
    ensures { result.now ≡ sentence answer }
{
    let ended = ended_sentence(answer);
    &ended[..ended.len() - 1]
}

/// The sentence of an answer, with a zero byte behind it, as C ends a text.
#[tactic(auto, unfolding(crate::specs::Meanings::sentence))]
pub fn ended_sentence(answer: u8) -> &'static [u8]
    ensures { result.now ≡ sentence answer ++ 0 ∷ [] }
{
    meaning_of(answer).sentence
}

/// The sentence of 22 where the rule is V7, which a level's limit breaks.
pub fn sentence_of_limit() -> &'static str
    ensures { result.now ≡ sentence_of_limit }
{
    "The limit of the level is not its greatest distance"
}

fn row(name: &'static str, sentence: &'static [u8]) -> Meaning
    requires { length name.now ≤ 15 }
    ensures name { result.name.now ≡ name.entry.now }
    ensures sentence { result.sentence.now ≡ sentence.entry.now }
{
    Meaning { name, sentence }
}

fn meaning_of(number: u8) -> Meaning
    ensures { Means result (meant_by number) }
{
    if number < 30 {
        of_tables(number)
    } else if number < 60 {
        of_builds(number)
    } else {
        of_files(number)
    }
}

/// Of boards, moves, texts and levels.
fn of_tables(number: u8) -> Meaning
    ensures { Means result (of_tables number) }
{
    match number {
        0 => row("", b"Nothing is refused\0"),
        1 => row(
            "Shape",
            b"A board is six numbers, a slash and six numbers, parted by commas\0",
        ),
        2 => row(
            "Number",
            b"Each number of a board is from 0 to 99, in its shortest form\0",
        ),
        3 => row("TooMany", b"A board has at most 48 stones\0"),
        4 => row("NoPit", b"The mover has no such pit\0"),
        5 => row("EmptyPit", b"The pit is empty\0"),
        6 => row(
            "MustFeed",
            b"The opponent has no stones, and the pit would give none while another does\0",
        ),
        7 => row("Ended", b"The play has ended\0"),
        10 => row(
            "Line",
            b"The line does not have the form that is expected there\0",
        ),
        11 => row(
            "Order",
            b"The line is the header of another level than the next one\0",
        ),
        12 => row(
            "High",
            b"The line is the header of a level above 24, the highest\0",
        ),
        13 => row(
            "Short",
            b"The text ends inside a level, or its last line has no line feed\0",
        ),
        14 => row("Read", b"The input can't be read\0"),
        15 => row(
            "Memory",
            b"There is not enough memory for the input or for a level\0",
        ),
        20 => row("WrongLevel", b"The level is not the next one\0"),
        21 => row(
            "WrongSize",
            b"The level does not have one entry for each board\0",
        ),
        22 => row("Refused", b"The entry of a board breaks a rule\0"),
        23 => row("Memory", b"There is not enough memory to verify a level\0"),
        _ => row("", b"No answer has this number\0"),
    }
}

/// Of builds, and commands that ask a level.
fn of_builds(number: u8) -> Meaning
    ensures { Means result (of_builds number) }
{
    match number {
        30 => row(
            "Stranger",
            b"A part of the level was told a note that it does not hear now\0",
        ),
        31 => row("Doubled", b"A note of the same board and pit came before\0"),
        32 => row("Far", b"The distance is the greatest that can be stored\0"),
        33 => row(
            "Memory",
            b"There is not enough memory for a part of the level\0",
        ),
        34 => row("NotEnabled", b"The event is not one that may happen now\0"),
        35 => row("Owners", b"A model has 1 to 16 owners\0"),
        36 => row(
            "Room",
            b"A line of the model has room for 1 to 256 batches\0",
        ),
        37 => row("TooHigh", b"The model has all levels already\0"),
        38 => row("Memory", b"There is not enough memory for the model\0"),
        39 => row("NotQuiet", b"The model has work to do before that\0"),
        40 => row("NotStarted", b"A thread could not be started\0"),
        41 => row(
            "Memory",
            b"There is not enough memory for the owners of a level\0",
        ),
        42 => row("BadNote", b"An owner of a part of the level met a fault\0"),
        43 => row("Stopped", b"The level was not wanted any more\0"),
        50 => row("Owners", b"A level has 1 to 16 owners\0"),
        51 => row("TooHigh", b"No level is above 24\0"),
        52 => row(
            "Phase",
            b"The owners of a level could not work, or were stopped\0",
        ),
        53 => row("Memory", b"There is not enough memory to build the level\0"),
        55 => row(
            "Pace",
            b"A line has room for 1 to 256 batches, and a round has 1 to 1000 sweeps\0",
        ),
        56 => row("NotYet", b"The level of that many stones is not there\0"),
        57 => row("Memory", b"There is not enough memory for the moves\0"),
        59 => row("NotYet", b"The level of that many stones is not there\0"),
        _ => row("", b"No answer has this number\0"),
    }
}

/// Of files, folders, desks and services.
fn of_files(number: u8) -> Meaning
    ensures { Means result (of_files number) }
{
    match number {
        60 => row("Truncated", b"The file is cut off\0"),
        61 => row(
            "Magic",
            b"The file is not a level's file: it does not begin with AWDB\0",
        ),
        62 => row(
            "Version",
            b"The file has an unknown version; known are 1 and 2\0",
        ),
        63 => row(
            "LevelOutOfRange",
            b"The file names a level that its version does not have\0",
        ),
        64 => row(
            "Count",
            b"The file's count of boards is not that of its level\0",
        ),
        65 => row("EntryForm", b"The file has a plan that is no pit\0"),
        66 => row("Digest", b"The digest is wrong: the file is damaged\0"),
        67 => row("Trailing", b"The file is too long\0"),
        68 => row("Read", b"The file can't be read\0"),
        69 => row(
            "Memory",
            b"There is not enough memory for the entries of the file\0",
        ),
        70 => row(
            "Write",
            b"The file can't be written, or can't be brought to the disk\0",
        ),
        71 => row(
            "NotNext",
            b"The level that is published is not the next one\0",
        ),
        72 => row("Readers", b"There is no place for so many readers\0"),
        73 => row(
            "Memory",
            b"There is not enough memory for the levels and their readers\0",
        ),
        74 => row("NotYet", b"The level of that many stones is not there\0"),
        75 => row("Gone", b"Nobody publishes levels any more\0"),
        80 => row(
            "Below",
            b"The level was built over another file than the one below\0",
        ),
        81 => row("File", b"The file of a level is refused\0"),
        82 => row("Open", b"The folder or a file does not open\0"),
        83 => row("Verify", b"A level is not right\0"),
        84 => row("Memory", b"There is not enough memory\0"),
        85 => row(
            "Occupied",
            b"A file of this level is there already, and stays as it is\0",
        ),
        86 => row(
            "Old",
            b"The file is of version 1, whose distances need not be the least\0",
        ),
        90 => row("Read", b"The lines of the service can't be read\0"),
        91 => row(
            "TooLong",
            b"The lines for the service have more than 100,000,000 bytes in all\0",
        ),
        92 => row("Write", b"The answers of the service can't be written\0"),
        93 => row("NoRank", b"The level has fewer boards\0"),
        94 => row(
            "Overflow",
            b"There are 2^64 plays or more, which are not counted\0",
        ),
        95 => row(
            "Span",
            b"A span is A..B, A.., ..B or A, the lower end first, of numbers of at most 64 bits\0",
        ),
        96 => row("Column", b"Boards can't be sorted or counted by that\0"),
        _ => row("", b"No answer has this number\0"),
    }
}
