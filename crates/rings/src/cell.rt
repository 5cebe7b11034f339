// The diagonal of a cell of four posts.
ghost use Rattle.std.specs.Prelude.{◌≡◌, true, false, ◌&&◌, ◌+◌, ◌-◌, ◌<◌};
ghost use Rattle.surface.specs.Plot.{plot_of, posts, below, directed, Valid};
ghost use Rattle.surface.specs.Edges.{right, through_lowest, falls_in};
ghost use Rattle.rings.specs.Corners.{Cell};

use order::{SOUTH, is_below_by, is_odd_row};
use surface::Grid;

// The diagonal of cell a falls: its lowest post is the north-western one, below which none of the others is, or the south-eastern one, which is below
// them all. Where cells are cut through their highest posts, `turned`, the same with above for below.
fn falls(heights: &[i32], grid: Grid, a: usize, turned: bool) -> bool
    requires { Valid (plot_of grid heights.now) × (a + grid.columns + 1 < posts (plot_of grid heights.now)) × (right grid.columns a ≡ false) }
    ensures { result ≡ through_lowest (directed turned (below (plot_of grid heights.now))) grid.columns a }
{
    let east = a + 1;
    let south = a + grid.columns;
    let across = south + 1;
    let odd = is_odd_row(grid, a);
    let e = is_below_by(heights, grid, east, a, odd) ^ turned;
    let s = is_below_by(heights, grid, south, a, SOUTH) ^ turned;
    let se = is_below_by(heights, grid, across, a, SOUTH) ^ turned;
    let east_s = is_below_by(heights, grid, across, east, SOUTH) ^ turned;
    let south_e = is_below_by(heights, grid, across, south, !odd) ^ turned;
    !e & !s & !se | se & east_s & south_e
}

// The cell d numbers before p is there, and its diagonal falls. A call for each rule, so that neither costs the other anything.
pub(crate) fn falls_back(heights: &[i32], grid: Grid, p: usize, d: usize, there: bool) -> bool
    requires { Valid (plot_of grid heights.now) × (there ≡ true → Cell grid.rows grid.columns p d) }
    ensures { result ≡ there && falls_in (plot_of grid heights.now) (p - d) }
{
    if !there {
        return false;
    }
    if grid.highest {
        return falls(heights, grid, p - d, true);
    }
    falls(heights, grid, p - d, false)
}
