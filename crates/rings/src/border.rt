// On which borders a post stands.
ghost use Rattle.std.specs.Prelude.{◌≡◌, ◌*◌, ◌<◌};
ghost use Rattle.surface.specs.Plot.{Sides};
ghost use Rattle.surface.specs.Edges.{is_border};
ghost use Rattle.rings.specs.Corners.{borders_of};

use surface::Grid;

#[derive(Clone, Copy)]
pub struct Borders {
    pub top: bool,
    pub bottom: bool,
    pub left: bool,
    pub right: bool,
}

pub fn borders_of(grid: Grid, p: usize) -> Borders
    requires { Sides grid.rows grid.columns × (p < grid.rows * grid.columns) }
    ensures { result ≡ borders_of grid.rows grid.columns p }
{
    let row = p / grid.columns;
    let column = p % grid.columns;
    Borders {
        top: row == 0,
        bottom: row + 1 == grid.rows,
        left: column == 0,
        right: column + 1 == grid.columns,
    }
}

// The post stands on some border.
pub fn is_border(grid: Grid, p: usize) -> bool
    requires { Sides grid.rows grid.columns × (p < grid.rows * grid.columns) }
    ensures { result ≡ is_border grid.rows grid.columns p }
{
    let at = borders_of(grid, p);
    at.top | (at.right | (at.bottom | at.left))
}
