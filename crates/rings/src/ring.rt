// The ring of a post: its neighbours clockwise from north, the virtual pit among them where the post stands on a border.
ghost use Rattle.std.specs.Prelude.{◌≡◌, true, cond, ◌+◌, ◌-◌, ◌≤◌, ◌<◌};
ghost use Rattle.surface.specs.Plot.{plot_of, max_posts, virtual_pit, PostOf, Sides};
ghost use Rattle.surface.specs.Edges.{members, ring_of};
ghost use Rattle.rings.specs.Corners.{Neighbours};
ghost use Rattle.rings.specs.Rings.{Open, Grown, Holds, ring_places};

use crate::border::{Borders, borders_of};
use crate::corner::{Corners, corners_of};
use surface::{Grid, VIRTUAL_PIT};

// The first `len` of the members are the ring's. (An array, since this library has no heap.)
#[derive(Clone, Copy)]
pub struct Ring {
    pub members: [usize; 8],
    pub len: usize,
}

// A ring with one member more, where it is there.
fn with_member(ring: Ring, there: bool, member: usize) -> Ring
    requires { Open ring }
    ensures { Grown ring there member result }
{
    let at = ring.len;
    let mut grown = ring;
    grown.members[at] = member;
    grown.len = at + there as usize;
    grown
}

// A ring with the post `ahead` numbers after p and `back` before that, or with the virtual pit where that is no post.
fn with_post(ring: Ring, there: bool, filled: bool, p: usize, ahead: usize, back: usize) -> Ring
    requires { Open ring × (p < max_posts) × (ahead < max_posts) × (filled ≡ true → back ≤ p + ahead) }
    ensures { Grown ring there (cond filled (p + ahead - back) virtual_pit) result }
{
    if filled {
        return with_member(ring, there, p + ahead - back);
    }
    with_member(ring, there, VIRTUAL_PIT)
}

// The ring of p, which stands at these borders and is joined to these corners.
fn ring_of(grid: Grid, p: usize, at: Borders, joined: Corners) -> Ring
    requires { Sides grid.rows grid.columns × Neighbours grid.rows grid.columns p at joined }
    ensures { Holds result (members (ring_places grid.columns p at joined)) }
{
    let none = Ring {
        members: [VIRTUAL_PIT; 8],
        len: 0,
    };
    let columns = grid.columns;
    let e_there = !(at.right & at.top);
    let s_there = !(at.bottom & (at.top | at.right));
    let w_there = !(at.left & (at.top | (at.right | at.bottom)));
    let n = with_post(none, true, !at.top, p, 0, columns);
    let ne = with_post(n, joined.ne, joined.ne, p, 1, columns);
    let e = with_post(ne, e_there, !at.right, p, 1, 0);
    let se = with_post(e, joined.se, joined.se, p, columns + 1, 0);
    let s = with_post(se, s_there, !at.bottom, p, columns, 0);
    let sw = with_post(s, joined.sw, joined.sw, p, columns, 1);
    let w = with_post(sw, w_there, !at.left, p, 0, 1);
    with_post(w, joined.nw, joined.nw, p, 0, columns + 1)
}

// The ring of any post.
pub fn ring_at(heights: &[i32], grid: Grid, p: usize) -> Ring
    requires { PostOf (plot_of grid heights.now) p }
    ensures { Holds result (ring_of (plot_of grid heights.now) p) }
{
    let at = borders_of(grid, p);
    let joined = corners_of(heights, grid, p, at);
    ring_of(grid, p, at, joined)
}
