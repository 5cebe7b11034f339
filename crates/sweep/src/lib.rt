// The sweep over the saddles of a plot, from the highest on: each makes one body of those in which its upper runs start, and what these were more than one is its
// splits.
#![tactic(auto)]

ghost use Rattle.std.specs.Prelude.{◌≡◌};
ghost use Rattle.surface.specs.Plot.{plot_of};
ghost use Rattle.surface.specs.Bodies.{splits_of};
ghost use Rattle.sweep.specs.Swept.{ForSweep};

use merges::take_saddle;
use starts::step_list;
use surface::Grid;

// Takes the saddles from the highest on, and stores the splits of each. (The number m beside the list: Ascending, which `sort_saddles` promises, is of a list
// as long as the plot.)
pub fn sweep(
    heights: &[i32],
    grid: Grid,
    patterns: &[u8],
    sorted: &[u16],
    m: usize,
    table: &[u8],
    leads: &mut [u16],
    splits: &mut [u8],
)
    requires { ForSweep (plot_of grid heights.now) patterns.now sorted.now m table.now leads.old splits.old }
    ensures { splits.new ≡ splits_of (plot_of grid heights.now) }
{
    let steps = step_list(grid.columns);
    for i in (0..m).rev() {
        let p = sorted[i] as usize;
        splits[p] = take_saddle(heights, grid, table, &steps, patterns[p], p, leads);
    }
}
