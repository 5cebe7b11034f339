// docs/SPECIFICATION.md, "Lines, dales and hills": next down and next up from a post, and the lines of a saddle.
#![tactic(auto)]

mod line;
mod walk;

ghost use Rattle.std.specs.Prelude.{◌≡◌};
ghost use Rattle.surface.specs.Lines.{toward};
ghost use Rattle.surface.specs.Spacings.{spacings};
ghost use Rattle.surface.specs.Calls.{plot_by, next_answer, next_down_answer, next_up_answer, thalweg_answer, thalweg_list, ridge_answer, ridge_list};
ghost use Rattle.lines.specs.Told.{next_told, line_told};

use limits::post_grid;
use line::draw_line;
use surface::{DOWN, Refusal, Spacings, UP};
use walk::Walk;

// Next down from a post, or next up where `up`: what the two calls of C share. (Inlined, so that the direction is a constant in each.)
#[inline(always)]
fn next_post(
    sheet: &[u8],
    rows: u32,
    columns: u32,
    spacings: Spacings,
    heights: &[i32],
    post: u32,
    up: bool,
) -> Result<u32, Refusal>
    ensures { next_told result ≡ next_answer (plot_by sheet.now rows columns heights.now) spacings (toward (plot_by sheet.now rows columns heights.now) spacings up) post }
{
    let grid = post_grid(sheet, rows, columns, spacings, heights, post)?;
    let from = Walk {
        post: post as usize,
        up,
    };
    Ok(from.next(heights, grid, spacings).post as u32)
}

// Next down from a post: the steepest way down, the post itself at a pit, 65535 for the virtual pit.
pub fn next_down(
    sheet: &[u8],
    rows: u32,
    columns: u32,
    east: u32,
    south: u32,
    heights: &[i32],
    post: u32,
) -> Result<u32, Refusal>
    ensures { next_told result ≡ next_down_answer (plot_by sheet.now rows columns heights.now) (spacings east south) post }
{
    let spacings = Spacings { east, south };
    next_post(sheet, rows, columns, spacings, heights, post, DOWN)
}

// Next up from a post: the steepest way up, the post itself at a peak.
pub fn next_up(
    sheet: &[u8],
    rows: u32,
    columns: u32,
    east: u32,
    south: u32,
    heights: &[i32],
    post: u32,
) -> Result<u32, Refusal>
    ensures { next_told result ≡ next_up_answer (plot_by sheet.now rows columns heights.now) (spacings east south) post }
{
    let spacings = Spacings { east, south };
    next_post(sheet, rows, columns, spacings, heights, post, UP)
}

// The water line of a saddle and one of its lower runs: how many entries it has. Refused: the list stays as it was.
pub fn thalweg(
    sheet: &[u8],
    rows: u32,
    columns: u32,
    east: u32,
    south: u32,
    heights: &[i32],
    post: u32,
    run: u32,
    line: &mut [u16],
) -> Result<u32, Refusal>
    ensures value { line_told result ≡ thalweg_answer (plot_by sheet.now rows columns heights.now) (spacings east south) post run line.old }
    ensures line_after { line.new ≡ thalweg_list (plot_by sheet.now rows columns heights.now) (spacings east south) post run line.old }
{
    let spacings = Spacings { east, south };
    draw_line(
        sheet, rows, columns, spacings, heights, post, run, DOWN, line,
    )
}

// The crest line of a saddle and one of its upper runs: how many entries it has. Refused: the list stays as it was.
pub fn ridge(
    sheet: &[u8],
    rows: u32,
    columns: u32,
    east: u32,
    south: u32,
    heights: &[i32],
    post: u32,
    run: u32,
    line: &mut [u16],
) -> Result<u32, Refusal>
    ensures value { line_told result ≡ ridge_answer (plot_by sheet.now rows columns heights.now) (spacings east south) post run line.old }
    ensures line_after { line.new ≡ ridge_list (plot_by sheet.now rows columns heights.now) (spacings east south) post run line.old }
{
    let spacings = Spacings { east, south };
    draw_line(sheet, rows, columns, spacings, heights, post, run, UP, line)
}
