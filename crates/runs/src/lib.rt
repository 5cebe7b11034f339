// The runs of a saddle's ring, lower ones, or upper ones where `up`: where one starts, and its steepest member.
#![tactic(auto)]

mod slope;

ghost use Rattle.std.specs.Prelude.{◌≡◌, ◌++◌, ◌+◌, ◌≤◌, ◌<◌, length, get_or};
ghost use Rattle.surface.specs.Plot.{plot_of, below, directed};
ghost use Rattle.surface.specs.Spacings.{Spaced};
ghost use Rattle.surface.specs.Lines.{toward};
ghost use Rattle.rings.specs.Rings.{held};
ghost use Rattle.runs.specs.Runs.{Saddle, InRun, Sought, pick_from, Starts};

use order::is_lower;
use rings::ring::Ring;
use slope::first_of;
use surface::{Grid, Spacings};

// The member at place j of a ring; after the last comes the first once more.
fn member_at(ring: Ring, j: usize) -> usize
    requires { (ring.len ≤ 8) × (length ring.members ≡ 8) × (j < ring.len + ring.len) }
    ensures { result ≡ get_or (held ring ++ held ring) j 0 }
{
    let members = ring.members;
    let len = ring.len;
    if j < len {
        return members[j];
    }
    members[j - len]
}

// The ring place of the first member of run number `run` of p, if there is such a run.
fn run_at(heights: &[i32], grid: Grid, up: bool, p: usize, ring: Ring, run: u32) -> Option<usize>
    requires { Saddle (plot_of grid heights.now) p ring }
    ensures { Sought (λ q. directed up (below (plot_of grid heights.now)) q p) (held ring) run result }
{
    let mut before = is_lower(heights, grid, up, member_at(ring, ring.len - 1), p);
    let mut left = run;
    for i in 0..ring.len {
        let here = is_lower(heights, grid, up, member_at(ring, i), p);
        let starts = here & !before;
        if starts & (left == 0) {
            return Some(i);
        }
        left -= starts as u32;
        before = here;
    }
    None
}

// The steepest member of the run of p that starts at place i, the virtual pit where that is a member.
fn steepest_from(
    heights: &[i32],
    grid: Grid,
    spacings: Spacings,
    up: bool,
    p: usize,
    ring: Ring,
    i: usize,
) -> usize
    requires { InRun (plot_of grid heights.now) spacings up p ring i }
    ensures { result ≡ pick_from (toward (plot_of grid heights.now) spacings up) p (held ring) i }
{
    let mut best = member_at(ring, i);
    for j in i + 1..ring.len + ring.len {
        let q = member_at(ring, j);
        if !is_lower(heights, grid, up, q, p) {
            break;
        }
        best = first_of(heights, grid, spacings, up, p, best, q);
    }
    best
}

// Where the line of saddle p and run number `run` goes to from p, if there is such a run.
pub fn line_start(
    heights: &[i32],
    grid: Grid,
    spacings: Spacings,
    up: bool,
    p: usize,
    ring: Ring,
    run: u32,
) -> Option<usize>
    requires { Saddle (plot_of grid heights.now) p ring × Spaced spacings }
    ensures { Starts (toward (plot_of grid heights.now) spacings up) p run result }
{
    let place = run_at(heights, grid, up, p, ring, run)?;
    Some(steepest_from(heights, grid, spacings, up, p, ring, place))
}
