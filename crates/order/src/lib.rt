// The height order of a plot. Nothing else compares two heights to tell which post is below, but `next` by keys, which are made of a height and of
// `tie_place`.
#![tactic(auto)]

ghost use Rattle.std.specs.Prelude.{◌≡◌, true, false, cond, ◌+◌, ◌-◌, ◌<◌, ◌≤◌, pos, length, get_or};
ghost use Rattle.std.specs.Int.Signed.{lt_z};
ghost use Rattle.surface.specs.Lists.{list_of, stores};
ghost use Rattle.surface.specs.Plot.{plot_of, posts, max_side, max_posts, row, column, Vertex, is_odd, directed, driven_before, below, tied, Sides, Valid, PostOf};
ghost use Rattle.order.specs.Ties.{Drives, place_at};

use surface::{Grid, VIRTUAL_PIT};

// How many posts are compared at once.
const BLOCK: usize = 16;

// The tie of a post in a row to the north of another's, and of one to the south: where heights are equal, the first is below and the second is not.
pub const NORTH: bool = true;

pub const SOUTH: bool = false;

// The height of p is less than that of q.
fn is_less(heights: &[i32], p: usize, q: usize) -> bool
    requires { (p < length heights.now) × (q < length heights.now) }
    ensures { result ≡ lt_z (get_or heights.now p (pos 0)) (get_or heights.now q (pos 0)) }
{
    heights[p] < heights[q]
}

// The row of post p is odd, so that it is driven from its last column to its first. (Who has the row asks the row itself: this divides.)
pub fn is_odd_row(grid: Grid, p: usize) -> bool
    requires { 1 ≤ grid.columns }
    ensures { result ≡ is_odd (row grid.columns p) }
{
    p / grid.columns % 2 == 1
}

// Post p is driven past before post q.
fn is_driven_before(grid: Grid, p: usize, q: usize) -> bool
    requires { Sides grid.rows grid.columns }
    ensures { result ≡ driven_before grid.columns p q }
{
    let r = p / grid.columns;
    let s = q / grid.columns;
    if r != s {
        return r < s;
    }
    let turned = r % 2 == 1;
    if turned {
        return q < p;
    }
    p < q
}

// Post p is below q; `tie` tells whether it is where their heights are equal. (So written, one comparison: an `if` by `tie` would be two in vector code.)
pub fn is_below_by(heights: &[i32], grid: Grid, p: usize, q: usize, tie: bool) -> bool
    requires { Valid (plot_of grid heights.now) × (p < posts (plot_of grid heights.now)) × (q < posts (plot_of grid heights.now)) × (tie ≡ driven_before grid.columns p q) }
    ensures { result ≡ below (plot_of grid heights.now) p q }
{
    heights[p] < heights[q] + tie as i32
}

// Post p is below post q. Rows are looked at only where heights are equal: dividing takes longer than a branch.
fn is_below_post(heights: &[i32], grid: Grid, p: usize, q: usize) -> bool
    requires { PostOf (plot_of grid heights.now) p × PostOf (plot_of grid heights.now) q }
    ensures { result ≡ below (plot_of grid heights.now) p q }
{
    if is_less(heights, p, q) {
        return true;
    }
    if is_less(heights, q, p) {
        return false;
    }
    is_driven_before(grid, p, q)
}

// Vertex p, a post or the virtual pit, is below vertex q.
pub fn is_below(heights: &[i32], grid: Grid, p: usize, q: usize) -> bool
    requires { Valid (plot_of grid heights.now) × Vertex (posts (plot_of grid heights.now)) p × Vertex (posts (plot_of grid heights.now)) q }
    ensures { result ≡ below (plot_of grid heights.now) p q }
{
    if p == VIRTUAL_PIT {
        return q != VIRTUAL_PIT;
    }
    if q == VIRTUAL_PIT {
        return false;
    }
    is_below_post(heights, grid, p, q)
}

// Vertex q is a post, and of p's height.
pub fn is_tied(heights: &[i32], grid: Grid, p: usize, q: usize) -> bool
    requires { PostOf (plot_of grid heights.now) p × Vertex (posts (plot_of grid heights.now)) q }
    ensures { result ≡ tied (plot_of grid heights.now) p q }
{
    if q != VIRTUAL_PIT {
        return !(is_less(heights, p, q) | is_less(heights, q, p));
    }
    false
}

// p is below q, or above it where `up`.
pub fn is_lower(heights: &[i32], grid: Grid, up: bool, p: usize, q: usize) -> bool
    requires { Valid (plot_of grid heights.now) × Vertex (posts (plot_of grid heights.now)) p × Vertex (posts (plot_of grid heights.now)) q }
    ensures { result ≡ directed up (below (plot_of grid heights.now)) p q }
{
    if up {
        return is_below(heights, grid, q, p);
    }
    is_below(heights, grid, p, q)
}

// A block of flags: whether the posts from q on are below those from p on, `tie` telling whether they are where heights are equal. It is an array of
// its own: so the compiler knows that no store changes a height, and compares them all at once.
fn later_block(heights: &[i32], grid: Grid, p: usize, q: usize, tie: bool) -> [bool; BLOCK]
    requires { Valid (plot_of grid heights.now) × (p < q) × (q + 16 ≤ posts (plot_of grid heights.now)) × Drives grid.columns tie p q 16 }
    ensures { result ≡ list_of (λ k. below (plot_of grid heights.now) (q + k) (p + k)) 16 }
{
    let mut block = [false; BLOCK];
    for (k, flag) in block.iter_mut().enumerate() {
        *flag = is_below_by(heights, grid, q + k, p + k, tie);
    }
    block
}

// Stores a block in the flags `at` and on. (Not by `copy_from_slice`: the block then goes through memory, and a survey took 2.24 ns a post, not 1.95.)
fn put_block(block: [bool; BLOCK], flags: &mut [bool], at: usize)
    requires { at + 16 ≤ length flags.old }
    ensures { flags.new ≡ stores (λ k. get_or block (k - at) false) at 16 flags.old }
{
    for (k, flag) in block.iter().enumerate() {
        flags[at + k] = *flag;
    }
}

// `later_row` for a block. (Both calls of this one the compiler makes fast; of two functions called twice it does so once.)
fn later_flags(
    heights: &[i32],
    grid: Grid,
    p: usize,
    q: usize,
    tie: bool,
    flags: &mut [bool],
    at: usize,
)
    requires { Valid (plot_of grid heights.now) × (p < q) × (q + 16 ≤ posts (plot_of grid heights.now)) × Drives grid.columns tie p q 16 × (at + 16 ≤ length flags.old) }
    ensures { flags.new ≡ stores (λ k. below (plot_of grid heights.now) (q + (k - at)) (p + (k - at))) at 16 flags.old }
{
    put_block(later_block(heights, grid, p, q, tie), flags, at);
}

// `later_row` flag by flag, for rows shorter than a block.
fn later_each(
    heights: &[i32],
    grid: Grid,
    p: usize,
    q: usize,
    tie: bool,
    flags: &mut [bool],
    at: usize,
    n: usize,
)
    requires { Valid (plot_of grid heights.now) × (p < q) × (q + n ≤ posts (plot_of grid heights.now)) × Drives grid.columns tie p q n × (at + n ≤ length flags.old) }
    ensures { flags.new ≡ stores (λ k. below (plot_of grid heights.now) (q + (k - at)) (p + (k - at))) at n flags.old }
{
    for i in 0..n {
        flags[at + i] = is_below_by(heights, grid, q + i, p + i, tie);
    }
}

// Flags `at` and on, n of them: whether the posts from q on are below those from p on, which have lower numbers; `tie` tells whether they are where
// heights are equal.
pub fn later_row(
    heights: &[i32],
    grid: Grid,
    p: usize,
    q: usize,
    tie: bool,
    flags: &mut [bool],
    at: usize,
    n: usize,
)
    requires { Valid (plot_of grid heights.now) × (p < q) × (q + n ≤ posts (plot_of grid heights.now)) × Drives grid.columns tie p q n × (at + n ≤ length flags.old) }
    ensures { flags.new ≡ stores (λ k. below (plot_of grid heights.now) (q + (k - at)) (p + (k - at))) at n flags.old }
{
    if n < BLOCK {
        later_each(heights, grid, p, q, tie, flags, at, n);
        return;
    }
    // (by `while`: with `for i in (0..n - BLOCK).step_by(BLOCK)` the callers are no longer inlined, and a survey takes 5 % more instructions)
    let mut i = 0;
    while i + BLOCK < n {
        later_flags(heights, grid, p + i, q + i, tie, flags, at + i);
        i += BLOCK;
    }
    // the last block ends where the row does, and may store some flags again
    let last = n - BLOCK;
    later_flags(heights, grid, p + last, q + last, tie, flags, at + last);
}

// Flags 1 and on of the row that starts at `base` and is odd or not: whether a post is below the one before it in the row.
pub fn east_row(heights: &[i32], grid: Grid, base: usize, odd: bool, flags: &mut [bool])
    requires { Valid (plot_of grid heights.now) × (column grid.columns base ≡ 0) × (odd ≡ is_odd (row grid.columns base)) × (base + grid.columns ≤ posts (plot_of grid heights.now)) × (grid.columns ≤ length flags.old) }
    ensures { flags.new ≡ stores (λ k. below (plot_of grid heights.now) (base + 1 + (k - 1)) (base + (k - 1))) 1 (grid.columns - 1) flags.old }
{
    let n = grid.columns - 1;
    later_row(heights, grid, base, base + 1, odd, flags, 1, n);
}

// The turns that a place has for its column: in a row that is `turned`, driven from its last column, one for each of the three columns that follow.
fn turns_back(turned: bool, along: usize) -> usize
    requires { along ≤ 2 }
    ensures { (result ≡ cond turned (2 - along) 0) × (result ≤ 2) }
{
    if turned {
        return 2 - along;
    }
    0
}

// The place of the post that stands `down` rows and `along` columns after the first of the nine round a post, whose row is odd or not: of two level posts of
// the nine the one with the lower place is lower. A place is the post's number among the nine, and 256 for each turn: two for a row, and in a row that is
// driven from its last column one for each column that follows.
pub fn tie_place(grid: Grid, odd: bool, down: usize, along: usize) -> u32
    requires { (grid.columns ≤ max_side) × (down ≤ 2) × (along ≤ 2) }
    ensures { (result ≡ place_at grid.columns odd down along) × (result < 2048) }
{
    let number = down * grid.columns + along;
    let turns = 2 * down + turns_back(odd ^ (down != 1), along);
    (256 * turns + number) as u32
}

// The post that has this number among the nine round p.
pub fn post_at(grid: Grid, p: usize, number: u32) -> usize
    requires { (grid.columns ≤ max_side) × (p < max_posts) × (number < 256) × (grid.columns + 1 ≤ p + number) }
    ensures { result ≡ p + number - (grid.columns + 1) }
{
    (p as u32 + number - (grid.columns + 1) as u32) as usize
}
