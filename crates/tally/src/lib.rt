// The three counts of a list of marks. They are made in parts: those of 240 marks fit a byte, or two bytes, of which vector code adds many at a time.
#![tactic(auto)]

ghost use Rattle.std.specs.Prelude.{◌≡◌, map, ◌+◌, ◌*◌, ◌≤◌, min, eqb, length, drop};
ghost use Rattle.surface.specs.Lists.{one, count, total};
ghost use Rattle.surface.specs.Plot.{max_posts};
ghost use Rattle.surface.specs.Marks.{multiplicity};
ghost use Rattle.tally.specs.Tally.{Counted};

use surface::{PEAK, PIT};

// How many marks a part has.
pub const PART: usize = 240;

#[derive(Clone, Copy)]
pub struct Tally {
    pub peaks: u32,
    pub pits: u32,
    pub saddles: u32,
}

// The multiplicity of a saddle, 0 of any other mark.
fn multiplicity_of(m: u8) -> u16
    ensures { (result ≡ multiplicity m) × (result ≤ 255) }
{
    if m < 2 {
        return 0;
    }
    (m - 2) as u16
}

// How many of a part's marks, or other bytes, are this one.
pub fn count_part(part: &[u8], mark: u8) -> u8
    requires { length part.now ≤ 240 }
    ensures { (result ≡ count (λ m. eqb m mark) part.now) × (result ≤ length part.now) }
{
    part.iter().map(|m| (*m == mark) as u8).sum()
}

// Their multiplicities summed.
fn total_part(part: &[u8]) -> u16
    requires { length part.now ≤ 240 }
    ensures { (result ≡ total (map multiplicity part.now)) × (result ≤ 255 * length part.now) }
{
    part.iter().map(|m| multiplicity_of(*m)).sum()
}

// Counts the marks; the virtual pit is a pit.
pub fn count(marks: &[u8]) -> Tally
    requires { length marks.now ≤ max_posts }
    ensures { Counted marks.now result.peaks result.pits result.saddles }
{
    let mut peaks: u32 = 0;
    let mut pits: u32 = 1;
    let mut saddles: u32 = 0;
    for part in marks.chunks(PART) {
        peaks += count_part(part, PEAK) as u32;
        pits += count_part(part, PIT) as u32;
        saddles += total_part(part) as u32;
    }
    Tally {
        peaks,
        pits,
        saddles,
    }
}
