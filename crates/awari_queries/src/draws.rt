//! Samples of what comes one by one.

ghost use Rattle.std.specs.Prelude.{◌≡◌, ◌≤◌, ℕ, List, length, min};
ghost use Rattle.awari_queries.specs.Draws.{draw_of, drawn, drawn_on, is_drawn, is_taken, next_number, sample};
ghost use Rattle.awari_queries.specs.declared.draws.Draw.{Draw as ADraw};

/// How a sample is drawn.
#[derive(Clone, Copy, Debug, PartialEq, Eq)]
pub struct Draw {
    /// The number by which the last one was drawn or passed over.
    pub seed: u64,
    /// How many are wanted still.
    pub wanted: u32,
    /// Of how many that are left.
    pub left: u32,
}

/// The number after this one.
fn next_number(number: u64) -> u64
    ensures { result ≡ next_number number }
{
    number
        .wrapping_mul(6364136223846793005)
        .wrapping_add(1442695040888963407)
}

/// How a sample of this many is drawn from this many that are left; 0 is no sample.
pub fn draw_of(wanted: u32, seed: u64, left: u32) -> Option<Draw>
    ensures { result ≡ draw_of wanted seed left }
{
    if wanted == 0 {
        return None;
    }
    Some(Draw { seed, wanted, left })
}

/// Whether the next one is drawn.
fn draw_next(draw: &mut Draw) -> bool
    ensures drawn { draw.new ≡ drawn draw.old }
    ensures is { result ≡ is_drawn draw.old }
{
    draw.seed = next_number(draw.seed);
    let is_drawn = (draw.seed >> 32) % u64::from(draw.left.max(1)) < u64::from(draw.wanted);
    if is_drawn {
        draw.wanted -= 1;
    }
    draw.left = draw.left.saturating_sub(1);
    is_drawn
}

/// Whether the next one is taken: each is if no sample is drawn.
pub fn is_taken(sample: &mut Option<Draw>) -> bool
    ensures after { sample.new ≡ drawn_on sample.old }
    ensures taken { result ≡ is_taken sample.old }
{
    match sample {
        None => true,
        Some(next) => draw_next(next),
    }
}

/// A sample of boards has as many as are wanted, or all if there are no more.
pub fn samples_are_as_large_as_wanted()
    ensures { (d : ADraw) (xs : List (List ℕ)) → d.left ≡ length xs → length (sample d xs) ≡ min d.wanted (length xs) }
{}
