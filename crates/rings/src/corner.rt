// Which corners round a post share an edge with it.
ghost use Rattle.std.specs.Prelude.{◌≡◌};
ghost use Rattle.surface.specs.Plot.{plot_of, PostOf};
ghost use Rattle.surface.specs.Edges.{falls_in};
ghost use Rattle.rings.specs.Corners.{borders_of, corners_of};

use crate::border::Borders;
use crate::cell::falls_back;
use surface::Grid;

#[derive(Clone, Copy)]
pub struct Corners {
    pub ne: bool,
    pub se: bool,
    pub sw: bool,
    pub nw: bool,
}

// Of p, which stands at these borders.
pub(crate) fn corners_of(heights: &[i32], grid: Grid, p: usize, at: Borders) -> Corners
    requires { PostOf (plot_of grid heights.now) p × (at ≡ borders_of grid.rows grid.columns p) }
    ensures { result ≡ corners_of grid.rows grid.columns (falls_in (plot_of grid heights.now)) p }
{
    let ne = !at.top & !at.right;
    let se = !at.right & !at.bottom;
    let sw = !at.bottom & !at.left;
    let nw = !at.left & !at.top;
    Corners {
        ne: ne & !falls_back(heights, grid, p, grid.columns, ne),
        se: falls_back(heights, grid, p, 0, se),
        sw: sw & !falls_back(heights, grid, p, 1, sw),
        nw: falls_back(heights, grid, p, grid.columns + 1, nw),
    }
}
