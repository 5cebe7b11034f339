// The call for the ring behind a mark.
#![tactic(auto)]

mod codes;

ghost use Rattle.std.specs.Prelude.{◌≡◌};
ghost use Rattle.surface.specs.Flags.{runs_for};
ghost use Rattle.surface.specs.Refusals.{ring_verdict};
ghost use Rattle.surface.specs.Refused.{outcome, IsGridOf};
ghost use Rattle.surface.specs.Calls.{plot_by, ring_answer, ring_list};
ghost use Rattle.ring.specs.Told.{ring_mark_of};

use codes::put_codes;
use limits::{check_post, plot_grid};
use post::mark::mark_at;
use surface::{Grid, PIT, RING_LENGTH, Refusal, SADDLE};

// How many lower runs a post has, and its mark.
#[derive(Clone, Copy)]
pub struct Ringed {
    pub k: u32,
    pub mark: u32,
}

// Rows 13, 14 and 1 to 5 of the table: the grid of what passes.
fn ring_grid(
    sheet: &[u8],
    rows: u32,
    columns: u32,
    heights: &[i32],
    post: u32,
    ring: &[u8],
) -> Result<Grid, Refusal>
    ensures value { outcome result ≡ ring_verdict (plot_by sheet.now rows columns heights.now) post ring.now }
    ensures grid { IsGridOf (plot_by sheet.now rows columns heights.now) result }
{
    let grid = plot_grid(sheet, rows, columns, heights)?;
    Refusal::BadListLength.unless(ring.len() == RING_LENGTH)?;
    check_post(heights, post)?;
    Ok(grid)
}

// The lower runs of a post that has this mark.
fn runs_for(mark: u8) -> u32
    ensures { result ≡ runs_for mark }
{
    if mark < SADDLE {
        return (mark != PIT) as u32;
    }
    mark as u32 - 1
}

// Gives k and the mark of a post, and writes how each member of its ring stands to it. Refused: the list stays as it was.
pub fn ring(
    sheet: &[u8],
    rows: u32,
    columns: u32,
    heights: &[i32],
    post: u32,
    ring: &mut [u8],
) -> Result<Ringed, Refusal>
    ensures value { ring_mark_of result ≡ ring_answer (plot_by sheet.now rows columns heights.now) post ring.old }
    ensures ring_after { ring.new ≡ ring_list (plot_by sheet.now rows columns heights.now) post ring.old }
{
    let grid = ring_grid(sheet, rows, columns, heights, post, ring)?;
    let p = post as usize;
    put_codes(heights, grid, p, ring);
    let mark = mark_at(heights, grid, p);
    Ok(Ringed {
        k: runs_for(mark),
        mark: mark as u32,
    })
}
