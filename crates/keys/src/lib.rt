// The posts round a post as keys: a post's height and its place among the nine, in one number, so that one comparison settles a tie too.
#![tactic(auto)]

ghost use Rattle.std.specs.Prelude.{◌≡◌, true, false, cond, ◌+◌, ◌-◌, ◌*◌, ◌≤◌, ◌<◌};
ghost use Rattle.surface.specs.Plot.{plot_of, max_side, max_posts, row, is_odd, PostOf};
ghost use Rattle.surface.specs.Edges.{is_border};
ghost use Rattle.rings.specs.Corners.{borders_of};
ghost use Rattle.keys.specs.Keys.{key_of, is_key, number_in, There, inside, block_of};

use order::{post_at, tie_place};
use rings::border::Borders;
use surface::Grid;

// A place is below this, so that heights count first.
const PLACES: i32 = 2048;

// The lowest key, that of the lowest height and place 0, without its sign.
const LOWEST_KEY: i64 = 2048000000;

// The keys of a post and of the eight round it. Where there is no neighbour it is the post's own, which is never chosen before another.
#[derive(Clone, Copy)]
pub struct Block {
    pub post: i32,
    pub n: i32,
    pub ne: i32,
    pub e: i32,
    pub se: i32,
    pub s: i32,
    pub sw: i32,
    pub w: i32,
    pub nw: i32,
}

// The key of the post that stands `down` rows and `along` columns after the first of the nine round p, which stands in an odd row or not.
fn key_at(heights: &[i32], grid: Grid, p: usize, odd: bool, down: usize, along: usize) -> i32
    requires { PostOf (plot_of grid heights.now) p × (odd ≡ is_odd (row grid.columns p)) × There (plot_of grid heights.now) p down along }
    ensures { result ≡ key_of (plot_of grid heights.now) p (p + (down * grid.columns + along) - (grid.columns + 1)) }
{
    let q = p + (down * grid.columns + along) - (grid.columns + 1);
    heights[q] * PLACES + tie_place(grid, odd, down, along) as i32
}

// The same where it is there, or else p's own key.
fn key_round(
    heights: &[i32],
    grid: Grid,
    p: usize,
    odd: bool,
    own: i32,
    down: usize,
    along: usize,
    there: bool,
) -> i32
    requires { PostOf (plot_of grid heights.now) p × (odd ≡ is_odd (row grid.columns p)) × (own ≡ key_of (plot_of grid heights.now) p p) × (there ≡ true → There (plot_of grid heights.now) p down along) }
    ensures { result ≡ key_of (plot_of grid heights.now) p (cond there (p + (down * grid.columns + along) - (grid.columns + 1)) p) }
{
    if there {
        return key_at(heights, grid, p, odd, down, along);
    }
    own
}

// The keys round p, which stands at these borders.
pub fn block_at(heights: &[i32], grid: Grid, p: usize, at: Borders, odd: bool) -> Block
    requires { PostOf (plot_of grid heights.now) p × (at ≡ borders_of grid.rows grid.columns p) × (odd ≡ is_odd (row grid.columns p)) }
    ensures { result ≡ block_of (key_of (plot_of grid heights.now) p) grid.columns p at }
{
    let own = key_at(heights, grid, p, odd, 1, 1);
    Block {
        post: own,
        n: key_round(heights, grid, p, odd, own, 0, 1, !at.top),
        ne: key_round(heights, grid, p, odd, own, 0, 2, !at.top & !at.right),
        e: key_round(heights, grid, p, odd, own, 1, 2, !at.right),
        se: key_round(heights, grid, p, odd, own, 2, 2, !at.right & !at.bottom),
        s: key_round(heights, grid, p, odd, own, 2, 1, !at.bottom),
        sw: key_round(heights, grid, p, odd, own, 2, 0, !at.bottom & !at.left),
        w: key_round(heights, grid, p, odd, own, 1, 0, !at.left),
        nw: key_round(heights, grid, p, odd, own, 0, 0, !at.left & !at.top),
    }
}

// The keys round p, which stands on no border: nothing to choose, so that a walk, which waits for each key, is the quicker. (As a call of `block_at` with
// constant borders it is not inlined into the step.)
pub fn block_inside(heights: &[i32], grid: Grid, p: usize, odd: bool) -> Block
    requires { PostOf (plot_of grid heights.now) p × (is_border grid.rows grid.columns p ≡ false) × (odd ≡ is_odd (row grid.columns p)) }
    ensures { result ≡ block_of (key_of (plot_of grid heights.now) p) grid.columns p inside }
{
    Block {
        post: key_at(heights, grid, p, odd, 1, 1),
        n: key_at(heights, grid, p, odd, 0, 1),
        ne: key_at(heights, grid, p, odd, 0, 2),
        e: key_at(heights, grid, p, odd, 1, 2),
        se: key_at(heights, grid, p, odd, 2, 2),
        s: key_at(heights, grid, p, odd, 2, 1),
        sw: key_at(heights, grid, p, odd, 2, 0),
        w: key_at(heights, grid, p, odd, 1, 0),
        nw: key_at(heights, grid, p, odd, 0, 0),
    }
}

// The post that has key k among those round p. A key counted from the lowest is not negative, and has the same last eight binary digits.
pub fn post_of(grid: Grid, p: usize, k: i32) -> usize
    requires { (grid.columns ≤ max_side) × (p < max_posts) × (is_key k ≡ true) × (grid.columns + 1 ≤ p + number_in k) }
    ensures { result ≡ p + number_in k - (grid.columns + 1) }
{
    post_at(grid, p, (k as i64 + LOWEST_KEY) as u32 % 256)
}
