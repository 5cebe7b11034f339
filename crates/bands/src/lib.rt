// The counts after a new height, by those before it: only marks of the post and of those that touch it can differ. These are worked out on a copy of the rows
// round the post, which is a plot of its own.
#![tactic(auto)]

ghost use Rattle.std.specs.Prelude.{◌≡◌, true, ◌+◌, ◌-◌, ◌≤◌, ◌<◌};
ghost use Rattle.surface.specs.Lists.{list_of};
ghost use Rattle.surface.specs.Plot.{plot_of, posts, reshot, is_height, PostOf};
ghost use Rattle.surface.specs.Marks.{marks_of};
ghost use Rattle.surface.specs.Patterns.{pattern_at};
ghost use Rattle.tally.specs.Tally.{Counted};
ghost use Rattle.bands.specs.Bands.{band_first};

use retally::count_redrawn;
use surface::Grid;
use tally::Tally;

// The first of the rows round a row, an even one.
fn first_row(row: usize) -> usize
    ensures { result ≡ band_first row }
{
    row.saturating_sub(2) / 2 * 2
}

// A count of the plot, by the one before and by those of some rows before and after.
fn moved(all: u32, before: u32, after: u32) -> u32
    requires { (before ≤ all) × (all - before + after < 65536) }
    ensures { result ≡ all - before + after }
{
    all - before + after
}

// The counts with the new height, where `patterns` has the patterns of the plot as it is and t its counts.
pub fn recount(
    heights: &[i32],
    grid: Grid,
    post: usize,
    height: i32,
    patterns: &mut [u8],
    t: Tally,
) -> Tally
    requires { PostOf (plot_of grid heights.now) post × (is_height height ≡ true) × (patterns.old ≡ list_of (pattern_at (plot_of grid heights.now)) (posts (plot_of grid heights.now))) × Counted (marks_of (plot_of grid heights.now)) t.peaks t.pits t.saddles }
    ensures { Counted (marks_of (reshot (plot_of grid heights.now) post height)) result.peaks result.pits result.saddles }
{
    let columns = grid.columns;
    let row = post / columns;
    let first = first_row(row);
    let end = (row + 3).min(grid.rows);
    let from = first * columns;
    let to = end * columns;
    let rows = Grid {
        rows: end - first,
        columns,
        highest: grid.highest,
    };
    let both = count_redrawn(
        &heights[from..to],
        rows,
        post - from,
        height,
        &mut patterns[from..to],
    );
    Tally {
        peaks: moved(t.peaks, both.before.peaks, both.after.peaks),
        pits: moved(t.pits, both.before.pits, both.after.pits),
        saddles: moved(t.saddles, both.before.saddles, both.after.saddles),
    }
}
