// The lister's lines of one saddle after the other, written into a lent list of bytes. Which posts are saddles is known from the list of marks, and where a
// line ends from those of dales and hills, so that no mark is worked out and no line is walked.
#![tactic(auto)]

ghost use Rattle.std.specs.Prelude.{◌≡◌, ◌+◌, ◌*◌, ◌≤◌, ◌<◌, length};
ghost use Rattle.surface.specs.Plot.{plot_of, Vertex};
ghost use Rattle.surface.specs.Lines.{toward};
ghost use Rattle.surface.specs.Lister.{lines_text, post_lines};
ghost use Rattle.text.specs.Wrote.{Wrote};
ghost use Rattle.saddle_lines.specs.Lines.{runs_room, post_room, end_from, SaddleWith, Known, Listed};

use rings::ring::{Ring, ring_at};
use runs::line_start;
use surface::{DOWN, Grid, SADDLE, Spacings, UP, VIRTUAL_PIT};
use text::put_line;

// The most bytes that the lines of one post take.
pub const POST_ROOM: usize = 960;

// The first post whose lines are not written, and how many bytes are. (No Option: the next call goes on from this post, and the number of posts ends it.)
#[derive(Clone, Copy)]
pub struct Put {
    pub post: usize,
    pub bytes: usize,
}

// The end from a vertex; the virtual pit, which the list of ends leaves out, is its own.
fn end_from(ends: &[u16], vertex: usize) -> u32
    requires { Vertex (length ends.now) vertex }
    ensures { result ≡ end_from ends.now vertex }
{
    if vertex == VIRTUAL_PIT {
        return VIRTUAL_PIT as u32;
    }
    ends[vertex] as u32
}

// The lines of a saddle by its lower runs, by its upper ones where `up`.
fn put_runs(
    heights: &[i32],
    grid: Grid,
    spacings: Spacings,
    up: bool,
    letter: u8,
    p: usize,
    ring: Ring,
    ends: &[u16],
    out: &mut [u8],
    at: usize,
) -> usize
    requires { SaddleWith (plot_of grid heights.now) spacings up p ring ends.now × (at + runs_room ≤ length out.old) }
    ensures { Wrote runs_room out.old out.new at (lines_text (plot_of grid heights.now) letter (toward (plot_of grid heights.now) spacings up) p) result }
{
    let mut next = at;
    let mut run = 0;
    while let Some(post) = line_start(heights, grid, spacings, up, p, ring, run) {
        let end = end_from(ends, post);
        next = put_line(out, next, letter, p as u32, run, end);
        run += 1;
    }
    next
}

// The lines of a post: none where it is no saddle, else its water lines and then its crest lines.
fn put_post(
    heights: &[i32],
    grid: Grid,
    spacings: Spacings,
    marks: &[u8],
    dales: &[u16],
    hills: &[u16],
    p: usize,
    out: &mut [u8],
    at: usize,
) -> usize
    requires { Known (plot_of grid heights.now) spacings marks.now dales.now hills.now × (p < grid.rows * grid.columns) × (at + post_room ≤ length out.old) }
    ensures { Wrote post_room out.old out.new at (post_lines (plot_of grid heights.now) spacings p) result }
{
    if marks[p] < SADDLE {
        return at;
    }
    let ring = ring_at(heights, grid, p);
    let end = put_runs(heights, grid, spacings, DOWN, b'T', p, ring, dales, out, at);
    put_runs(heights, grid, spacings, UP, b'R', p, ring, hills, out, end)
}

// The lines of as many posts from `from` on as there is room for.
pub fn put_posts(
    heights: &[i32],
    grid: Grid,
    spacings: Spacings,
    marks: &[u8],
    dales: &[u16],
    hills: &[u16],
    from: usize,
    out: &mut [u8],
) -> Put
    requires { Known (plot_of grid heights.now) spacings marks.now dales.now hills.now × (from ≤ grid.rows * grid.columns) × (post_room ≤ length out.old) }
    ensures { Listed (plot_of grid heights.now) spacings from out.old out.new result }
{
    let posts = grid.rows * grid.columns;
    let last = out.len() - POST_ROOM;
    let mut post = from;
    let mut bytes = 0;
    // It ends by either of two tests, and `post` is told after it: a `for` is no plainer.
    while (post < posts) & (bytes <= last) {
        bytes = put_post(
            heights, grid, spacings, marks, dales, hills, post, out, bytes,
        );
        post += 1;
    }
    Put { post, bytes }
}
