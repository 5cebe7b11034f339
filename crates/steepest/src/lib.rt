// The steepest key of a block, which is that of the next post. Among posts that are as far away it is the lowest or the highest key, and three are left to
// compare by slopes: along the row, along the column and at a corner.
#![tactic(auto)]

ghost use Rattle.std.specs.Prelude.{◌≡◌, true, false, cond, [], ◌∷◌, ◌⊎◌, ◌+◌, ◌<◌, leb};
ghost use Rattle.surface.specs.Plot.{plot_of, row, is_odd, PostOf};
ghost use Rattle.surface.specs.Edges.{is_border};
ghost use Rattle.surface.specs.Lines.{squared};
ghost use Rattle.surface.specs.Spacings.{Spaced};
ghost use Rattle.rings.specs.Corners.{borders_of};
ghost use Rattle.keys.specs.Keys.{key_of, inside, block_of, height_in};
ghost use Rattle.steepest.specs.Slopes.{farther, farther_of, farthest, corners_kept, drop_in, overtakes, steepest_in, reduced, steepest_of};

use keys::{Block, block_at, block_inside};
use rings::border::Borders;
use surface::{DOWN, Grid, Spacings, UP};

// Half of what 64 bits hold.
const HALF: u64 = 9223372036854775808;

// x where b holds, else y. A function, so that each of several choices in a row is one equation in the proof, not two branches.
fn choose(b: bool, x: i32, y: i32) -> i32
    ensures { result ≡ cond b x y }
{
    if b { x } else { y }
}

// x is lower than y, or where `up` higher.
fn is_farther(up: bool, x: i32, y: i32) -> bool
    ensures { result ≡ farther up x y }
{
    if up { y < x } else { x < y }
}

// The block with those corners only that have both sides of their cell below the post, or where `up` above it.
fn keep_corners(up: bool, b: Block) -> Block
    ensures { result ≡ corners_kept up b }
{
    let n = is_farther(up, b.n, b.post);
    let e = is_farther(up, b.e, b.post);
    let s = is_farther(up, b.s, b.post);
    let w = is_farther(up, b.w, b.post);
    Block {
        post: b.post,
        n: b.n,
        ne: choose(n & e, b.ne, b.post),
        e: b.e,
        se: choose(e & s, b.se, b.post),
        s: b.s,
        sw: choose(s & w, b.sw, b.post),
        w: b.w,
        nw: choose(w & n, b.nw, b.post),
    }
}

// Of two keys the lower, or where `up` the higher.
fn farther_of(up: bool, x: i32, y: i32) -> i32
    ensures { result ≡ farther_of up x y }
{
    if is_farther(up, y, x) { y } else { x }
}

// The lowest key, or where `up` the highest, of a post and of two others.
fn farthest_beside(up: bool, own: i32, x: i32, y: i32) -> i32
    ensures { result ≡ farthest up own (x ∷ y ∷ []) }
{
    farther_of(up, farther_of(up, own, x), y)
}

// The lowest key, or where `up` the highest, of a block's post and its corners.
fn farthest_corner(up: bool, b: Block) -> i32
    ensures { result ≡ farthest up b.post (b.ne ∷ b.se ∷ b.sw ∷ b.nw ∷ []) }
{
    let north = farthest_beside(up, b.post, b.ne, b.se);
    farthest_beside(up, north, b.sw, b.nw)
}

// The height that a key tells.
fn height_of(k: i32) -> i32
    ensures { result ≡ height_in k }
{
    k >> 11
}

// How far key k falls from that of the post, or where `up` how far it rises.
fn drop_to(up: bool, own: i32, k: i32) -> u32
    requires { farther up own k ≡ false }
    ensures { (result ≡ drop_in own k) × (result < 2097152) }
{
    let from = height_of(own);
    let to = height_of(k);
    if up {
        return (to - from) as u32;
    }
    (from - to) as u32
}

// x is not less than y. By its sign: two numbers of 64 bits are dear to compare in vector code.
fn at_least(x: u64, y: u64) -> bool
    requires { (x < 9223372036854775808) × (y < 9223372036854775808) }
    ensures { result ≡ leb y x }
{
    HALF <= x + HALF - y
}

fn square(x: u32) -> u64
    ensures { result ≡ squared x }
{
    x as u64 * x as u64
}

// The key along the column goes before the one along the row: it is steeper, or as steep and farther. Lengths along sides are whole numbers, so that the
// slopes need not be squared.
fn takes_column(up: bool, spacings: Spacings, own: i32, row: i32, column: i32) -> bool
    requires { Spaced spacings × (farther up own row ≡ false) × (farther up own column ≡ false) }
    ensures { result ≡ overtakes up own row (squared spacings.east) column (squared spacings.south) }
{
    let along = drop_to(up, own, row) * spacings.south;
    let across = drop_to(up, own, column) * spacings.east;
    along < across + is_farther(up, column, row) as u32
}

// The key at a corner goes before the one at a side, which has this length: it is not less steep, and farther. Where it is steeper its drop is the greater,
// its edge being the longer, so that it is farther too.
fn takes_corner(up: bool, spacings: Spacings, own: i32, side: i32, length: u32, corner: i32) -> bool
    requires { Spaced spacings × (farther up own side ≡ false) × (farther up own corner ≡ false) × ((length ≡ spacings.east) ⊎ (length ≡ spacings.south)) }
    ensures { result ≡ overtakes up own side (squared length) corner (squared spacings.east + squared spacings.south) }
{
    let across = spacings.east * spacings.east + spacings.south * spacings.south;
    let cut = square(drop_to(up, own, corner) * length);
    let drop = square(drop_to(up, own, side)) * across as u64;
    at_least(cut, drop) & is_farther(up, corner, side)
}

// How far away the next post is, along the column where `turns`, else along the row. (`choose` is of keys.)
fn side_length(turns: bool, spacings: Spacings) -> u32
    ensures { result ≡ cond turns spacings.south spacings.east }
{
    if turns {
        return spacings.south;
    }
    spacings.east
}

// The steepest key of a block, down or where `up` up. Among posts that are as far away it is the lowest, or the highest: so one along the row, one along
// the column and one at a corner are compared.
fn steepest_in(up: bool, spacings: Spacings, b: Block) -> i32
    requires { Spaced spacings }
    ensures { result ≡ steepest_in up spacings b }
{
    let own = b.post;
    let row = farthest_beside(up, own, b.e, b.w);
    let column = farthest_beside(up, own, b.n, b.s);
    let turns = takes_column(up, spacings, own, row, column);
    let side = choose(turns, column, row);
    let length = side_length(turns, spacings);
    let corner = farthest_corner(up, b);
    choose(
        takes_corner(up, spacings, own, side, length, corner),
        corner,
        side,
    )
}

// The same; where `even` the spacings are equal, and as good as 1 and 1.
fn steepest_by(up: bool, even: bool, spacings: Spacings, b: Block) -> i32
    requires { Spaced spacings }
    ensures { result ≡ steepest_in up (reduced even spacings) b }
{
    if even {
        let unit = Spacings { east: 1, south: 1 };
        return steepest_in(up, unit, b);
    }
    steepest_in(up, spacings, b)
}

// The steepest key round p, which stands on no border. Four cases, so that the compiler knows the direction in each.
pub fn steepest_inside(
    heights: &[i32],
    grid: Grid,
    spacings: Spacings,
    p: usize,
    odd: bool,
    even: bool,
    highest: bool,
    up: bool,
) -> i32
    requires { PostOf (plot_of grid heights.now) p × (is_border grid.rows grid.columns p ≡ false) × (odd ≡ is_odd (row grid.columns p)) × Spaced spacings }
    ensures { result ≡ steepest_of up highest (reduced even spacings) (block_of (key_of (plot_of grid heights.now) p) grid.columns p inside) }
{
    let b = block_inside(heights, grid, p, odd);
    if up {
        if highest {
            return steepest_by(UP, even, spacings, b);
        }
        return steepest_by(UP, even, spacings, keep_corners(UP, b));
    }
    if highest {
        return steepest_by(DOWN, even, spacings, keep_corners(DOWN, b));
    }
    steepest_by(DOWN, even, spacings, b)
}

// The same upward for any post, which stands at these borders.
pub fn steepest_up(
    heights: &[i32],
    grid: Grid,
    spacings: Spacings,
    p: usize,
    at: Borders,
    odd: bool,
) -> i32
    requires { PostOf (plot_of grid heights.now) p × (at ≡ borders_of grid.rows grid.columns p) × (odd ≡ is_odd (row grid.columns p)) × Spaced spacings }
    ensures { result ≡ steepest_of true grid.highest spacings (block_of (key_of (plot_of grid heights.now) p) grid.columns p at) }
{
    let b = block_at(heights, grid, p, at, odd);
    if grid.highest {
        return steepest_in(UP, spacings, b);
    }
    steepest_in(UP, spacings, keep_corners(UP, b))
}
