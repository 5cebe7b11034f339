// Rows of flags: comparisons of the posts of a row with those of the one below it, and along that one.
#![tactic(auto)]

ghost use Rattle.surface.specs.Plot.{plot_of};
ghost use Rattle.flags.specs.Rows.{South, ForSouth};

use order::{SOUTH, east_row, later_row};
use surface::Grid;

// The flags from the row that starts at `base`, and is odd or not, to the one below it, and along that one; below the bottom row is the virtual pit.
pub fn south_rows(
    heights: &[i32],
    grid: Grid,
    base: usize,
    odd: bool,
    south: &mut [bool],
    fall: &mut [bool],
    rise: &mut [bool],
    under: &mut [bool],
)
    requires { ForSouth (plot_of grid heights.now) base odd south.old fall.old rise.old under.old }
    ensures { South (plot_of grid heights.now) base south.new fall.new rise.new under.new }
{
    let columns = grid.columns;
    let next = base + columns;
    if next < heights.len() {
        later_row(heights, grid, base, next, SOUTH, south, 1, columns);
        later_row(heights, grid, base, next + 1, SOUTH, fall, 1, columns - 1);
        later_row(heights, grid, base + 1, next, SOUTH, rise, 1, columns - 1);
        east_row(heights, grid, next, !odd, under);
        return;
    }
    south[1..columns + 1].fill(true);
    fall[1..columns].fill(true);
    rise[1..columns].fill(true);
    under[1..columns + 1].fill(false);
}
