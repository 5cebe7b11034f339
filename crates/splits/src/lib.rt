// Splits of every post of a plot. Only saddles split: they are sorted, and taken from the highest on.
#![tactic(auto)]

ghost use Rattle.std.specs.Prelude.{◌≡◌, length};
ghost use Rattle.surface.specs.Lists.{list_of};
ghost use Rattle.surface.specs.Plot.{plot_of, posts, Valid};
ghost use Rattle.surface.specs.Patterns.{pattern_at};
ghost use Rattle.surface.specs.Bodies.{splits_of};

use changes::change_table;
use saddle_order::sort_saddles;
use starts::{fill_leads, start_table};
use surface::{Grid, MAX_POSTS};
use sweep::sweep;

// The splits of every post, by the patterns of the plot; the other lists are for the work. Ground without a saddle, as level ground is, is told at once.
fn sort_and_sweep(
    heights: &[i32],
    grid: Grid,
    patterns: &[u8],
    digits: &mut [u16],
    leads: &mut [u16],
    sorted: &mut [u16],
    splits: &mut [u8],
)
    requires valid { Valid (plot_of grid heights.now) × (patterns.now ≡ list_of (pattern_at (plot_of grid heights.now)) (posts (plot_of grid heights.now))) × (length splits.old ≡ posts (plot_of grid heights.now)) }
    requires digits_len { (length digits.old ≡ posts (plot_of grid heights.now)) × (length leads.old ≡ posts (plot_of grid heights.now)) × (length sorted.old ≡ posts (plot_of grid heights.now)) }
    ensures { splits.new ≡ splits_of (plot_of grid heights.now) }
{
    let m = sort_saddles(
        heights,
        grid,
        patterns,
        &change_table(),
        digits,
        leads,
        sorted,
    );
    splits.fill(0);
    if m == 0 {
        return;
    }
    let table = start_table();
    fill_leads(grid.columns, patterns, &table, leads);
    sweep(heights, grid, patterns, sorted, m, &table, leads, splits);
}

// The same with lists of its own.
pub fn fill_splits(heights: &[i32], grid: Grid, patterns: &[u8], splits: &mut [u8])
    requires { Valid (plot_of grid heights.now) × (patterns.now ≡ list_of (pattern_at (plot_of grid heights.now)) (posts (plot_of grid heights.now))) × (length splits.old ≡ posts (plot_of grid heights.now)) }
    ensures { splits.new ≡ splits_of (plot_of grid heights.now) }
{
    let n = heights.len();
    let mut digits = [0u16; MAX_POSTS];
    let mut leads = [0u16; MAX_POSTS];
    let mut sorted = [0u16; MAX_POSTS];
    sort_and_sweep(
        heights,
        grid,
        patterns,
        &mut digits[..n],
        &mut leads[..n],
        &mut sorted[..n],
        splits,
    );
}
