// The counts of the marks of a small plot, before and after a new height at one post. Its heights are only read: the marks are redrawn by a copy.
#![tactic(auto)]

ghost use Rattle.std.specs.Prelude.{◌≡◌, true, map, ◌≤◌, length};
ghost use Rattle.surface.specs.Plot.{plot_of, posts, reshot, is_height, PostOf};
ghost use Rattle.surface.specs.Marks.{redrawn};
ghost use Rattle.surface.specs.Patterns.{mark_in};
ghost use Rattle.tally.specs.Tally.{Counted};
ghost use Rattle.retally.specs.Room.{max_copy};

use marks::mark_all;
use surface::Grid;
use survey::redraw::redraw;
use tally::{Tally, count};

// The most heights that are copied: those of six rows of 120 columns.
const MAX_COPY: usize = 720;

// The counts before and after.
#[derive(Clone, Copy)]
pub struct BeforeAfter {
    pub before: Tally,
    pub after: Tally,
}

// Redraws the marks of a plot as a re-shoot does, on a copy of its heights.
fn redraw_copy(
    heights: &[i32],
    grid: Grid,
    post: usize,
    height: i32,
    room: &mut [i32],
    marks: &mut [u8],
)
    requires { PostOf (plot_of grid heights.now) post × (is_height height ≡ true) × (length room.old ≡ length heights.now) × (length marks.old ≡ posts (plot_of grid heights.now)) }
    ensures { marks.new ≡ redrawn (reshot (plot_of grid heights.now) post height) marks.old post }
{
    room.copy_from_slice(heights);
    room[post] = height;
    redraw(room, grid, post, marks);
}

// The counts of the marks that these patterns tell, before they are redrawn and after.
pub fn count_redrawn(
    heights: &[i32],
    grid: Grid,
    post: usize,
    height: i32,
    patterns: &mut [u8],
) -> BeforeAfter
    requires { PostOf (plot_of grid heights.now) post × (is_height height ≡ true) × (length patterns.old ≡ posts (plot_of grid heights.now)) × (length heights.now ≤ max_copy) }
    ensures counted { Counted (map mark_in patterns.old) result.before.peaks result.before.pits result.before.saddles }
    ensures counted_2 { Counted (redrawn (reshot (plot_of grid heights.now) post height) (map mark_in patterns.old) post) result.after.peaks result.after.pits result.after.saddles }
{
    let n = heights.len();
    let mut room = [0i32; MAX_COPY];
    mark_all(patterns);
    let before = count(patterns);
    redraw_copy(heights, grid, post, height, &mut room[..n], patterns);
    let after = count(patterns);
    BeforeAfter { before, after }
}
