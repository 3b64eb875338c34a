//! How many ways there are to lay stones in the pits.

ghost use Rattle.std.specs.Prelude.{◌≡◌, ◌+◌, ◌-◌, ◌<◌, ◌≤◌};
ghost use Rattle.awari_rank.specs.Tuples.{fewer};
ghost use Rattle.awari_rank.specs.declared.counts.TheConstants.{MOST_STONES};

/// The most stones of a board that is numbered.
pub const MOST_STONES: u8 = 24;

/// A row of the table has a number for each count of stones from 0 to one more than a board has.
const COLUMNS: usize = MOST_STONES as usize + 2;

/// Row `pit` has, at `stones`, the number of ways to lay fewer than `stones` stones in the pits after
/// `pit`.
///
/// A rank is the number of smaller boards. Counting those that first differ at a pit takes one number
/// for each stone that is missing there. Larger boards are easier to count: those that first differ
/// at a pit have fewer stones after it, however these lie, which is one number a pit. So the larger
/// boards are counted, and the rank is the rest of the level.
static FEWER: [[u32; COLUMNS]; 11] = [
    [
        0, 1, 12, 78, 364, 1365, 4368, 12376, 31824, 75582, 167960, 352716, 705432, 1352078,
        2496144, 4457400, 7726160, 13037895, 21474180, 34597290, 54627300, 84672315, 129024480,
        193536720, 286097760, 417225900,
    ],
    [
        0, 1, 11, 66, 286, 1001, 3003, 8008, 19448, 43758, 92378, 184756, 352716, 646646, 1144066,
        1961256, 3268760, 5311735, 8436285, 13123110, 20030010, 30045015, 44352165, 64512240,
        92561040, 131128140,
    ],
    [
        0, 1, 10, 55, 220, 715, 2002, 5005, 11440, 24310, 48620, 92378, 167960, 293930, 497420,
        817190, 1307504, 2042975, 3124550, 4686825, 6906900, 10015005, 14307150, 20160075,
        28048800, 38567100,
    ],
    [
        0, 1, 9, 45, 165, 495, 1287, 3003, 6435, 12870, 24310, 43758, 75582, 125970, 203490,
        319770, 490314, 735471, 1081575, 1562275, 2220075, 3108105, 4292145, 5852925, 7888725,
        10518300,
    ],
    [
        0, 1, 8, 36, 120, 330, 792, 1716, 3432, 6435, 11440, 19448, 31824, 50388, 77520, 116280,
        170544, 245157, 346104, 480700, 657800, 888030, 1184040, 1560780, 2035800, 2629575,
    ],
    [
        0, 1, 7, 28, 84, 210, 462, 924, 1716, 3003, 5005, 8008, 12376, 18564, 27132, 38760, 54264,
        74613, 100947, 134596, 177100, 230230, 296010, 376740, 475020, 593775,
    ],
    [
        0, 1, 6, 21, 56, 126, 252, 462, 792, 1287, 2002, 3003, 4368, 6188, 8568, 11628, 15504,
        20349, 26334, 33649, 42504, 53130, 65780, 80730, 98280, 118755,
    ],
    [
        0, 1, 5, 15, 35, 70, 126, 210, 330, 495, 715, 1001, 1365, 1820, 2380, 3060, 3876, 4845,
        5985, 7315, 8855, 10626, 12650, 14950, 17550, 20475,
    ],
    [
        0, 1, 4, 10, 20, 35, 56, 84, 120, 165, 220, 286, 364, 455, 560, 680, 816, 969, 1140, 1330,
        1540, 1771, 2024, 2300, 2600, 2925,
    ],
    [
        0, 1, 3, 6, 10, 15, 21, 28, 36, 45, 55, 66, 78, 91, 105, 120, 136, 153, 171, 190, 210, 231,
        253, 276, 300, 325,
    ],
    [
        0, 1, 2, 3, 4, 5, 6, 7, 8, 9, 10, 11, 12, 13, 14, 15, 16, 17, 18, 19, 20, 21, 22, 23, 24,
        25,
    ],
];

/// The number of ways to lay fewer than `stones` stones in the pits after `pit`.
pub(crate) fn fewer_after(pit: u8, stones: u8) -> u32
    requires pit { pit < 11 }
    requires few { stones ≤ MOST_STONES + 1 }
    ensures { result ≡ fewer (11 - pit) stones }
{
    FEWER[pit as usize][stones as usize]
}
