// The line of a saddle and a run: walked to write its entries, and before that to count them where the list may be too short.
ghost use Rattle.std.specs.Prelude.{◌≡◌, ◌∷◌, ◌≤◌, ltb, length};
ghost use Rattle.std.proofs.lemmas.List.Edits.{sets};
ghost use Rattle.surface.specs.Plot.{plot_of, posts};
ghost use Rattle.surface.specs.Lines.{toward};
ghost use Rattle.surface.specs.Refusals.{next_verdict};
ghost use Rattle.surface.specs.Calls.{plot_by, line_answer, line_list};
ghost use Rattle.lines.specs.Told.{line_told};
ghost use Rattle.lines.specs.Walks.{WalkOf, HasRoom, path};

use crate::walk::{Walk, entries_of};
use limits::post_grid;
use post::mark::mark_at;
use rings::ring::ring_at;
use runs::line_start;
use surface::{Grid, Refusal, SADDLE, Spacings};

// Whether a list of length `room` takes a saddle and a walk's posts. A list longer than the heights takes every line, so that nothing is counted.
fn has_room(heights: &[i32], grid: Grid, spacings: Spacings, from: Walk, room: usize) -> bool
    requires { WalkOf (plot_of grid heights.now) spacings from × (length (path (plot_of grid heights.now) spacings from) ≤ posts (plot_of grid heights.now)) }
    ensures { result ≡ ltb (length (path (plot_of grid heights.now) spacings from)) room }
{
    if room <= heights.len() {
        return entries_of(heights, grid, spacings, from) < room;
    }
    true
}

// Writes p, and then the posts of a walk until its end; gives how many entries that is.
fn write_entries(
    heights: &[i32],
    grid: Grid,
    spacings: Spacings,
    p: usize,
    from: Walk,
    line: &mut [u16],
) -> usize
    requires { HasRoom (plot_of grid heights.now) spacings p from line.old }
    ensures value { result ≡ length (p ∷ path (plot_of grid heights.now) spacings from) }
    ensures line_after { line.new ≡ sets line.old 0 (p ∷ path (plot_of grid heights.now) spacings from) }
{
    line[0] = p as u16;
    let mut at = from;
    let mut i = 1;
    // (a walk until its end; docs/DECISIONS.md, "Forms by location", asks for this form)
    let end = loop {
        let here = at.post;
        let ahead = at.onward(heights, grid, spacings);
        if ahead.post == here {
            break here;
        }
        line[i] = here as u16;
        i += 1;
        at = ahead;
    };
    line[i] = end as u16;
    i + 1
}

// The line of a post that is accepted and a run, downward, or upward where `up`: how many entries it has.
fn draw_from(
    heights: &[i32],
    grid: Grid,
    spacings: Spacings,
    p: usize,
    run: u32,
    up: bool,
    line: &mut [u16],
) -> Result<u32, Refusal>
    requires { (next_verdict (plot_of grid heights.now) spacings p).code ≡ 0 }
    ensures value { line_told result ≡ line_answer (plot_of grid heights.now) spacings (toward (plot_of grid heights.now) spacings up) p run line.old }
    ensures line_after { line.new ≡ line_list (plot_of grid heights.now) spacings (toward (plot_of grid heights.now) spacings up) p run line.old }
{
    if mark_at(heights, grid, p) < SADDLE {
        return Err(Refusal::NotASaddle);
    }
    let ring = ring_at(heights, grid, p);
    let Some(post) = line_start(heights, grid, spacings, up, p, ring, run) else {
        return Err(Refusal::NoSuchRun);
    };
    let from = Walk { post, up };
    if !has_room(heights, grid, spacings, from, line.len()) {
        return Err(Refusal::LineTooLong);
    }
    let count = write_entries(heights, grid, spacings, p, from, line);
    Ok(count as u32)
}

// The line of a post and a run.
pub(crate) fn draw_line(
    sheet: &[u8],
    rows: u32,
    columns: u32,
    spacings: Spacings,
    heights: &[i32],
    post: u32,
    run: u32,
    up: bool,
    line: &mut [u16],
) -> Result<u32, Refusal>
    ensures value { line_told result ≡ line_answer (plot_by sheet.now rows columns heights.now) spacings (toward (plot_by sheet.now rows columns heights.now) spacings up) post run line.old }
    ensures line_after { line.new ≡ line_list (plot_by sheet.now rows columns heights.now) spacings (toward (plot_by sheet.now rows columns heights.now) spacings up) post run line.old }
{
    let grid = post_grid(sheet, rows, columns, spacings, heights, post)?;
    draw_from(heights, grid, spacings, post as usize, run, up, line)
}
