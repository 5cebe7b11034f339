// The slopes from a post, compared by squares in whole numbers: to which of two vertices its line goes.
ghost use Rattle.std.specs.Prelude.{◌≡◌, true, [], ◌<◌, ◌≤◌, pos, nat_abs, ◌-ℤ◌, length, get_or};
ghost use Rattle.surface.specs.Lists.{all};
ghost use Rattle.surface.specs.Plot.{plot_of, posts, is_height, Vertex, below, directed, PostOf};
ghost use Rattle.surface.specs.Edges.{lower_of};
ghost use Rattle.surface.specs.Spacings.{Spaced};
ghost use Rattle.surface.specs.Lines.{squared, squared_length, before};
ghost use Rattle.runs.specs.Slopes.{ahead};

use order::is_lower;
use surface::{Grid, Spacings, VIRTUAL_PIT};

// How far apart two heights are.
fn apart(a: i32, b: i32) -> u32
    requires { (is_height a ≡ true) × (is_height b ≡ true) }
    ensures { (result ≡ nat_abs (a -ℤ b)) × (result ≤ 2000000) }
{
    if a < b {
        return (b - a) as u32;
    }
    (a - b) as u32
}

// The squared drop, or rise, between two posts.
fn squared_drop(heights: &[i32], p: usize, q: usize) -> u64
    requires { (all is_height heights.now ≡ true) × (p < length heights.now) × (q < length heights.now) }
    ensures { (result ≡ squared (nat_abs (get_or heights.now p (pos 0) -ℤ get_or heights.now q (pos 0)))) × (result ≤ 4000000000000) }
{
    let drop = apart(heights[p], heights[q]) as u64;
    drop * drop
}

// The squared length of the edge between two posts: along a row, along a column, or of a diagonal.
fn squared_length(grid: Grid, spacings: Spacings, p: usize, q: usize) -> u64
    requires { Spaced spacings × (2 ≤ grid.columns) }
    ensures { (result ≡ squared_length (plot_of grid []) spacings p q) × (result ≤ 2000000) }
{
    let east = spacings.east as u64 * spacings.east as u64;
    let south = spacings.south as u64 * spacings.south as u64;
    if p / grid.columns == q / grid.columns {
        return east;
    }
    if p % grid.columns == q % grid.columns {
        return south;
    }
    east + south
}

// From post p, post q goes before post r: its slope is greater, or as great and q is lower, or higher where `up`. A slope is a drop over a length; each is
// squared, and multiplied by the other's squared length.
fn goes_before(
    heights: &[i32],
    grid: Grid,
    spacings: Spacings,
    up: bool,
    p: usize,
    q: usize,
    r: usize,
) -> bool
    requires { PostOf (plot_of grid heights.now) p × (q < posts (plot_of grid heights.now)) × (r < posts (plot_of grid heights.now)) × Spaced spacings }
    ensures { result ≡ before (plot_of grid heights.now) spacings (directed up (below (plot_of grid heights.now))) p q r }
{
    let to_q = squared_drop(heights, p, q) * squared_length(grid, spacings, p, r);
    let to_r = squared_drop(heights, p, r) * squared_length(grid, spacings, p, q);
    if to_q != to_r {
        return to_r < to_q;
    }
    is_lower(heights, grid, up, q, r)
}

// The same of vertices: the virtual pit goes before every post.
fn goes_first(
    heights: &[i32],
    grid: Grid,
    spacings: Spacings,
    up: bool,
    p: usize,
    q: usize,
    r: usize,
) -> bool
    requires { PostOf (plot_of grid heights.now) p × Vertex (posts (plot_of grid heights.now)) q × Vertex (posts (plot_of grid heights.now)) r × Spaced spacings }
    ensures { result ≡ ahead (plot_of grid heights.now) spacings (directed up (below (plot_of grid heights.now))) p q r }
{
    if r == VIRTUAL_PIT {
        return false;
    }
    if q == VIRTUAL_PIT {
        return true;
    }
    goes_before(heights, grid, spacings, up, p, q, r)
}

// Of two vertices, the one that a line from p goes to.
pub(crate) fn first_of(
    heights: &[i32],
    grid: Grid,
    spacings: Spacings,
    up: bool,
    p: usize,
    q: usize,
    r: usize,
) -> usize
    requires { PostOf (plot_of grid heights.now) p × Vertex (posts (plot_of grid heights.now)) q × Vertex (posts (plot_of grid heights.now)) r × Spaced spacings }
    ensures { result ≡ lower_of (ahead (plot_of grid heights.now) spacings (directed up (below (plot_of grid heights.now))) p) q r }
{
    if goes_first(heights, grid, spacings, up, p, r, q) {
        return r;
    }
    q
}
