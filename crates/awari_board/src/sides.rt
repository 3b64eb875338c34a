//! The two sides of a board: the mover's pits 0 to 5, and the opponent's 6 to 11.

ghost use Rattle.std.specs.Prelude.{◌≡◌, ◌≤◌, sum};
ghost use Rattle.awari_board.specs.Rules.{other_stones, own_stones, turned};

/// How many pits a player has: the mover's are 0 to 5, and the opponent's follow them.
pub const SIDE: u8 = 6;

/// The stones in the mover's pits.
pub fn own_stones(pits: &[u8; 12]) -> u8
    requires { sum pits.now ≤ 48 }
    ensures { result ≡ own_stones pits.now }
{
    stones_in(&pits[..SIDE as usize])
}

/// The stones in the opponent's pits.
pub fn other_stones(pits: &[u8; 12]) -> u8
    requires { sum pits.now ≤ 48 }
    ensures { result ≡ other_stones pits.now }
{
    stones_in(&pits[SIDE as usize..])
}

/// The stones in these pits together.
pub fn stones_in(pits: &[u8]) -> u8
    requires { sum pits.now ≤ 48 }
    ensures { result ≡ sum pits.now }
{
    pits.iter().sum()
}

/// The pits as the other player sees them.
pub fn turned(pits: &[u8; 12]) -> [u8; 12]
    ensures { result ≡ turned pits.now }
{
    let [a, b, c, d, e, f, u, v, w, x, y, z] = *pits;
    [u, v, w, x, y, z, a, b, c, d, e, f]
}
