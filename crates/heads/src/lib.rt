// Where the patterns of a plot stand at the head of its top row, from which they are worked out row by row.
#![tactic(auto)]

ghost use Rattle.surface.specs.Plot.{plot_of};
ghost use Rattle.heads.specs.Heads.{Head, ForTop};

use halves::upper_row;
use order::{SOUTH, east_row, is_below_by};
use surface::Grid;

// The flags and the upper halves at the top row, above which is the virtual pit; the first post of all has no member at W and carries the sign of S there.
// The flags come as they are above the plot, and go as they are at the head of a row; those left in `under` are then the row's own.
pub fn top_row(
    heights: &[i32],
    grid: Grid,
    side: &[bool],
    south: &mut [bool],
    fall: &mut [bool],
    rise: &mut [bool],
    under: &mut [bool],
    upper: &mut [u8],
    width: usize,
)
    requires { ForTop (plot_of grid heights.now) width side.now south.old fall.old rise.old under.old upper.old }
    ensures { Head (plot_of grid heights.now) 0 width
        under.new south.new fall.new rise.new under.new upper.new }
{
    let columns = grid.columns;
    south[columns + 1] = true;
    under[columns] = true;
    under[0] = !is_below_by(heights, grid, columns, 0, SOUTH);
    east_row(heights, grid, 0, false, under);
    upper_row(side, south, fall, rise, under, grid.highest, upper, width);
    under[0] = false;
    fall[columns] = true;
    rise[0] = true;
}
