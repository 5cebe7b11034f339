// The two calls that write marks: survey and re-shoot.
#![tactic(auto)]

pub mod redraw;
mod verdict;

ghost use Rattle.std.specs.Prelude.{◌≡◌};
ghost use Rattle.surface.specs.Refused.{outcome};
ghost use Rattle.surface.specs.Calls.{plot_by, survey_answer, survey_marks, reshoot_answer, reshoot_heights, reshoot_marks};
ghost use Rattle.survey.specs.Told.{counts_of};

use marks::mark_plot;
use redraw::redraw;
use surface::Refusal;
use tally::{Tally, count};
use verdict::{reshoot_grid, survey_grid};

// Fills the marks of a plot and counts its peaks, pits and saddles. Refused: the marks stay as they were.
pub fn survey(
    sheet: &[u8],
    rows: u32,
    columns: u32,
    heights: &[i32],
    marks: &mut [u8],
) -> Result<Tally, Refusal>
    ensures value { counts_of result ≡ survey_answer (plot_by sheet.now rows columns heights.now) marks.old }
    ensures marks_after { marks.new ≡ survey_marks (plot_by sheet.now rows columns heights.now) marks.old }
{
    let grid = survey_grid(sheet, rows, columns, heights, marks)?;
    mark_plot(heights, grid, marks);
    let counts = count(marks);
    Ok(counts)
}

// Puts a new height at one post, and works out afresh its mark and those of the posts that touch it. Refused: both lists stay as they were.
pub fn reshoot(
    sheet: &[u8],
    rows: u32,
    columns: u32,
    heights: &mut [i32],
    marks: &mut [u8],
    post: u32,
    height: i32,
) -> Result<(), Refusal>
    ensures value { outcome result ≡ reshoot_answer (plot_by sheet.now rows columns heights.old) marks.old post height }
    ensures heights_after { heights.new ≡ reshoot_heights (plot_by sheet.now rows columns heights.old) marks.old post height }
    ensures marks_after { marks.new ≡ reshoot_marks (plot_by sheet.now rows columns heights.old) marks.old post height }
{
    let grid = reshoot_grid(sheet, rows, columns, heights, marks, post, height)?;
    let p = post as usize;
    heights[p] = height;
    redraw(heights, grid, p, marks);
    Ok(())
}
