// How each member of a ring stands to its post.
ghost use Rattle.std.specs.Prelude.{◌≡◌, length, get_or};
ghost use Rattle.surface.specs.Plot.{plot_of, posts, Vertex, PostOf};
ghost use Rattle.surface.specs.Edges.{ring_of};
ghost use Rattle.surface.specs.Codes.{code_for, member_code, codes_of, ring_length, ring_bytes};
ghost use Rattle.rings.specs.Rings.{Holds};

use order::{is_below, is_tied};
use rings::ring::{Ring, ring_at};
use surface::{Grid, RING_LENGTH};

// A code: 1 above, 3 below, and one more where heights are equal.
fn code_by(below: bool, tied: bool) -> u8
    ensures { result ≡ code_for below tied }
{
    1 + 2 * below as u8 + tied as u8
}

// The code of vertex q as seen from p.
fn code_of(heights: &[i32], grid: Grid, p: usize, q: usize) -> u8
    requires { PostOf (plot_of grid heights.now) p × Vertex (posts (plot_of grid heights.now)) q }
    ensures { result ≡ member_code (plot_of grid heights.now) p q }
{
    let below = is_below(heights, grid, q, p);
    let tied = is_tied(heights, grid, p, q);
    code_by(below, tied)
}

// The code of member i of p's ring, 0 past its end.
fn code_at(heights: &[i32], grid: Grid, p: usize, ring: Ring, i: usize) -> u8
    requires { PostOf (plot_of grid heights.now) p × Holds ring (ring_of (plot_of grid heights.now) p) }
    ensures { result ≡ get_or (codes_of (plot_of grid heights.now) p) i 0 }
{
    let members = ring.members;
    if i < ring.len {
        return code_of(heights, grid, p, members[i]);
    }
    0
}

// Writes the codes of p's ring from the front, and zeros after them.
pub(crate) fn put_codes(heights: &[i32], grid: Grid, p: usize, list: &mut [u8])
    requires { PostOf (plot_of grid heights.now) p × (length list.old ≡ ring_length) }
    ensures { list.new ≡ ring_bytes (plot_of grid heights.now) p }
{
    let ring = ring_at(heights, grid, p);
    for i in 0..RING_LENGTH {
        list[i] = code_at(heights, grid, p, ring, i);
    }
}
