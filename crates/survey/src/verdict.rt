// What a survey and a re-shoot are turned away for, and the grid of what is not.
ghost use Rattle.std.specs.Prelude.{◌≡◌};
ghost use Rattle.surface.specs.Refusals.{verdict, survey_verdict, reshoot_verdict};
ghost use Rattle.surface.specs.Refused.{outcome, IsGridOf};
ghost use Rattle.surface.specs.Calls.{plot_by};
ghost use Rattle.survey.specs.Leading.{leading_marked};

use limits::{check_heights, check_shot, plot_grid};
use surface::{Grid, Refusal};

// Rows 13, 14 and 1 to 3 of the table.
fn marked_grid(
    sheet: &[u8],
    rows: u32,
    columns: u32,
    heights: &[i32],
    marks: &[u8],
) -> Result<Grid, Refusal>
    ensures value { outcome result ≡ verdict (leading_marked (plot_by sheet.now rows columns heights.now) marks.now) }
    ensures grid { IsGridOf (plot_by sheet.now rows columns heights.now) result }
{
    let grid = plot_grid(sheet, rows, columns, heights)?;
    Refusal::BadListLength.unless(marks.len() == heights.len())?;
    Ok(grid)
}

// Rows 13, 14 and 1 to 4.
pub(crate) fn survey_grid(
    sheet: &[u8],
    rows: u32,
    columns: u32,
    heights: &[i32],
    marks: &[u8],
) -> Result<Grid, Refusal>
    ensures value { outcome result ≡ survey_verdict (plot_by sheet.now rows columns heights.now) marks.now }
    ensures grid { IsGridOf (plot_by sheet.now rows columns heights.now) result }
{
    let grid = marked_grid(sheet, rows, columns, heights, marks)?;
    check_heights(heights)?;
    Ok(grid)
}

// Rows 13, 14 and 1 to 6.
pub(crate) fn reshoot_grid(
    sheet: &[u8],
    rows: u32,
    columns: u32,
    heights: &[i32],
    marks: &[u8],
    post: u32,
    height: i32,
) -> Result<Grid, Refusal>
    ensures value { outcome result ≡ reshoot_verdict (plot_by sheet.now rows columns heights.now) marks.now post height }
    ensures grid { IsGridOf (plot_by sheet.now rows columns heights.now) result }
{
    let grid = marked_grid(sheet, rows, columns, heights, marks)?;
    check_shot(heights, post, height)?;
    Ok(grid)
}
