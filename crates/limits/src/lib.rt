// What a plot and a height may be, and the rows of the table of refusals that say so.
#![tactic(auto)]

ghost use Rattle.std.specs.Prelude.{◌≡◌, true, ◌&&◌, not, [], ◌∷◌, ◌≤◌, ltb, length, position};
ghost use Rattle.std.specs.List.{fold};
ghost use Rattle.surface.specs.Plot.{plot, max_posts, is_side, is_height};
ghost use Rattle.surface.specs.Spacings.{is_spacing};
ghost use Rattle.surface.specs.Refusals.{verdict, row_of, row1, row2, row4, row6, row15, leading, leading_spaced, next_verdict};
ghost use Rattle.surface.specs.Refused.{outcome, IsGridOf};
ghost use Rattle.surface.specs.Calls.{plot_by};

use settings::{grid_of, read_sheet};
use surface::{Grid, HIGHEST, LOWEST, MAX_SIDE, MAX_SPACING, MIN_SPACING, Refusal, Spacings};

// Whether a plot may have these sides.
pub fn is_plot(rows: u32, columns: u32) -> bool
    ensures { result ≡ (is_side rows && is_side columns) }
{
    ((2 <= rows) & (rows as usize <= MAX_SIDE)) & ((2 <= columns) & (columns as usize <= MAX_SIDE))
}

// Whether both spacings are in range.
pub fn is_spaced(spacings: Spacings) -> bool
    ensures { result ≡ (is_spacing spacings.east && is_spacing spacings.south) }
{
    let east = (MIN_SPACING <= spacings.east) & (spacings.east <= MAX_SPACING);
    let south = (MIN_SPACING <= spacings.south) & (spacings.south <= MAX_SPACING);
    east & south
}

// Whether a height is in range. (By two comparisons, which docs/PROVING.md and an edit change.)
pub fn is_height(h: i32) -> bool
    ensures { result ≡ is_height h }
{
    !(h < LOWEST) & !(HIGHEST < h)
}

// Whether every height is in range: a pass with no branch, so that the compiler makes vector code of it.
fn all_in(heights: &[i32]) -> bool
    ensures { result ≡ fold (λ ok h. ok && is_height h) true heights.now }
{
    heights.iter().fold(true, |ok, h| ok & is_height(*h))
}

// Row 1 of the table.
fn check_sides(rows: u32, columns: u32) -> Result<(), Refusal>
    ensures { outcome result ≡ verdict (row1 rows columns ∷ []) }
{
    Refusal::BadSides.unless(is_plot(rows, columns))
}

// Row 15.
fn check_spacings(spacings: Spacings) -> Result<(), Refusal>
    ensures { outcome result ≡ verdict (row15 spacings ∷ []) }
{
    Refusal::BadSpacing.unless(is_spaced(spacings))
}

// Row 2, of sides that pass.
fn check_length(rows: u32, columns: u32, heights: &[i32]) -> Result<(), Refusal>
    requires { is_side rows && is_side columns ≡ true }
    ensures { outcome result ≡ verdict (row2 (plot rows columns heights.now) ∷ []) }
{
    Refusal::BadHeightsLength.unless(heights.len() == (rows * columns) as usize)
}

// Rows 1 and 2.
fn check_plot(rows: u32, columns: u32, heights: &[i32]) -> Result<(), Refusal>
    ensures { outcome result ≡ verdict (row1 rows columns ∷ row2 (plot rows columns heights.now) ∷ []) }
{
    check_sides(rows, columns)?;
    check_length(rows, columns, heights)
}

// Rows 1, 15 and 2.
pub fn check_spaced(
    rows: u32,
    columns: u32,
    spacings: Spacings,
    heights: &[i32],
) -> Result<(), Refusal>
    ensures { outcome result ≡ verdict (row1 rows columns ∷ row15 spacings ∷ row2 (plot rows columns heights.now) ∷ []) }
{
    check_sides(rows, columns)?;
    check_spacings(spacings)?;
    check_length(rows, columns, heights)
}

// Rows 13, 14, 1 and 2, which lead every call with a settings sheet and no spacings: the grid of what passes.
pub fn plot_grid(sheet: &[u8], rows: u32, columns: u32, heights: &[i32]) -> Result<Grid, Refusal>
    ensures value { outcome result ≡ verdict (leading (plot_by sheet.now rows columns heights.now)) }
    ensures grid { IsGridOf (plot_by sheet.now rows columns heights.now) result }
{
    let sheet_says = read_sheet(sheet)?;
    check_plot(rows, columns, heights)?;
    Ok(grid_of(sheet_says.into(), rows, columns))
}

// Rows 13, 14, 1, 15 and 2, which lead every call with both.
pub fn spaced_grid(
    sheet: &[u8],
    rows: u32,
    columns: u32,
    spacings: Spacings,
    heights: &[i32],
) -> Result<Grid, Refusal>
    ensures value { outcome result ≡ verdict (leading_spaced (plot_by sheet.now rows columns heights.now) spacings) }
    ensures grid { IsGridOf (plot_by sheet.now rows columns heights.now) result }
{
    let said = read_sheet(sheet)?;
    check_spaced(rows, columns, spacings, heights)?;
    Ok(grid_of(said.into(), rows, columns))
}

// The first post whose height is out of range.
fn first_out(heights: &[i32]) -> Option<usize>
    ensures { result ≡ position (λ h. not (is_height h)) heights.now }
{
    heights.iter().position(|h| !is_height(*h))
}

// Row 4.
pub fn check_heights(heights: &[i32]) -> Result<(), Refusal>
    requires { length heights.now ≤ max_posts }
    ensures { outcome result ≡ verdict (row4 is_height heights.now ∷ []) }
{
    if all_in(heights) {
        return Ok(());
    }
    match first_out(heights) {
        Some(post) => Err(Refusal::HeightOutOfRange(post as u32)),
        None => Ok(()),
    }
}

// Rows 4 and 5, where there is a height for each post.
pub fn check_post(heights: &[i32], post: u32) -> Result<(), Refusal>
    requires { length heights.now ≤ max_posts }
    ensures { outcome result ≡ verdict (row4 is_height heights.now ∷ row_of 5 (not (ltb post (length heights.now))) ∷ []) }
{
    check_heights(heights)?;
    Refusal::NoSuchPost.unless((post as usize) < heights.len())
}

// Rows 4, 5 and 6, where there is a height for each post: a new height at a post.
pub fn check_shot(heights: &[i32], post: u32, height: i32) -> Result<(), Refusal>
    requires { length heights.now ≤ max_posts }
    ensures { outcome result ≡ verdict (row4 is_height heights.now ∷ row_of 5 (not (ltb post (length heights.now))) ∷ row6 height ∷ []) }
{
    check_post(heights, post)?;
    Refusal::BadNewHeight.unless(is_height(height))
}

// Rows 13, 14, 1, 15, 2, 4 and 5, which the calls with spacings that start from a post look at.
pub fn post_grid(
    sheet: &[u8],
    rows: u32,
    columns: u32,
    spacings: Spacings,
    heights: &[i32],
    post: u32,
) -> Result<Grid, Refusal>
    ensures value { outcome result ≡ next_verdict (plot_by sheet.now rows columns heights.now) spacings post }
    ensures grid { IsGridOf (plot_by sheet.now rows columns heights.now) result }
{
    let grid = spaced_grid(sheet, rows, columns, spacings, heights)?;
    check_post(heights, post)?;
    Ok(grid)
}
