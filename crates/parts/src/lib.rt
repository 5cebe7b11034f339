// docs/SPECIFICATION.md, "Lines, dales and hills": the dales and hills of a plot. Both lists are filled with next posts, and the paths that these make
// are then shortened to their ends.
#![tactic(auto)]

ghost use Rattle.std.specs.Prelude.{◌≡◌};
ghost use Rattle.surface.specs.Spacings.{spacings};
ghost use Rattle.surface.specs.Refusals.{parts_verdict};
ghost use Rattle.surface.specs.Refused.{outcome, IsGridOf};
ghost use Rattle.surface.specs.Calls.{plot_by, parts_answer, parts_dales, parts_hills};

use limits::{check_heights, spaced_grid};
use nexts::fill_nexts;
use paths::shorten;
use surface::{DOWN, Grid, Refusal, Spacings, UP};

// Rows 13, 14, 1, 15, 2, 3 and 4 of the table: the grid of what passes.
fn parts_grid(
    sheet: &[u8],
    rows: u32,
    columns: u32,
    spacings: Spacings,
    heights: &[i32],
    dales: &[u16],
    hills: &[u16],
) -> Result<Grid, Refusal>
    ensures value { outcome result ≡ parts_verdict (plot_by sheet.now rows columns heights.now) spacings dales.now hills.now }
    ensures grid { IsGridOf (plot_by sheet.now rows columns heights.now) result }
{
    let grid = spaced_grid(sheet, rows, columns, spacings, heights)?;
    let posts = heights.len();
    if (dales.len() != posts) | (hills.len() != posts) {
        return Err(Refusal::BadListLength);
    }
    check_heights(heights)?;
    Ok(grid)
}

// Fills the lists with the names of every post's dale and hill. Refused: the lists stay as they were.
pub fn dales_and_hills(
    sheet: &[u8],
    rows: u32,
    columns: u32,
    east: u32,
    south: u32,
    heights: &[i32],
    dales: &mut [u16],
    hills: &mut [u16],
) -> Result<(), Refusal>
    ensures value { outcome result ≡ parts_answer (plot_by sheet.now rows columns heights.now) (spacings east south) dales.old hills.old }
    ensures dales_after { dales.new ≡ parts_dales (plot_by sheet.now rows columns heights.now) (spacings east south) dales.old hills.old }
    ensures hills_after { hills.new ≡ parts_hills (plot_by sheet.now rows columns heights.now) (spacings east south) dales.old hills.old }
{
    let spacings = Spacings { east, south };
    let grid = parts_grid(sheet, rows, columns, spacings, heights, dales, hills)?;
    fill_nexts(heights, grid, spacings, true, dales, hills);
    shorten(dales, grid, DOWN);
    shorten(hills, grid, UP);
    Ok(())
}
