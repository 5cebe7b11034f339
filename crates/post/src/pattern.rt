// The pattern of a post: the eight signs of its ring, from north round, as the digits of a number, 1 where the member is below the post. An absent place
// carries the sign of the last member before it. The diagonals need not be known: comparisons of the posts tell the sign at a corner.
ghost use Rattle.std.specs.Prelude.{◌≡◌, true, cond, ◌+◌, ◌-◌, ◌≤◌, ◌<◌};
ghost use Rattle.surface.specs.Lists.{one};
ghost use Rattle.surface.specs.Plot.{plot_of, posts, row, is_odd, driven_before, below, Valid, PostOf};
ghost use Rattle.surface.specs.Flags.{sign_by, pair_by, east_pair, south_pair, north_pair, west_sign, west_pair};
ghost use Rattle.surface.specs.Patterns.{pattern_at};
ghost use Rattle.rings.specs.Corners.{borders_of};

use order::{NORTH, SOUTH, is_below_by, is_odd_row};
use rings::border::{Borders, borders_of};
use surface::Grid;

// The sign at a corner, joined to the post or not, by that of the side before it, by whether the corner is below the post, and by whether it is below the
// side after it. As numbers, of which the compiler works on many at a time.
fn sign(side: bool, corner: bool, after: bool, highest: bool) -> u8
    ensures { (result ≡ one (sign_by highest side corner after)) × (result ≤ 1) }
{
    let x = side as u8;
    let z = corner as u8;
    let a = after as u8;
    if highest {
        return x & (z | a);
    }
    x | z & a
}

// A side and the corner after it, as two digits.
pub fn pair(side: bool, corner: bool, after: bool, highest: bool) -> u8
    ensures { (result ≡ pair_by highest side corner after) × (result ≤ 3) }
{
    side as u8 + 2 * sign(side, corner, after, highest)
}

// Of the posts `from` and from + d numbers before p, the earlier is below the later, `tie` telling whether it is where their heights are equal; true where
// the earlier is not there.
fn back(
    heights: &[i32],
    grid: Grid,
    p: usize,
    from: usize,
    d: usize,
    tie: bool,
    there: bool,
) -> bool
    requires { Valid (plot_of grid heights.now) × (there ≡ true → (p < posts (plot_of grid heights.now)) × (from + d ≤ p) × (tie ≡ driven_before grid.columns (p - from - d) (p - from))) }
    ensures { result ≡ cond there (below (plot_of grid heights.now) (p - from - d) (p - from)) true }
{
    if there {
        return is_below_by(heights, grid, p - from - d, p - from, tie);
    }
    true
}

// Post p is below the one d numbers before it, `tie` telling whether it is where their heights are equal; true where p is not there. (One function for this
// and `back` would need the direction as one argument more, and one test more.)
fn ahead(heights: &[i32], grid: Grid, p: usize, d: usize, tie: bool, there: bool) -> bool
    requires { Valid (plot_of grid heights.now) × (there ≡ true → (p < posts (plot_of grid heights.now)) × (d ≤ p) × (tie ≡ driven_before grid.columns p (p - d))) }
    ensures { result ≡ cond there (below (plot_of grid heights.now) p (p - d)) true }
{
    if there {
        return is_below_by(heights, grid, p, p - d, tie);
    }
    true
}

// The pair of E and SE of p, which stands at these borders, in an odd row or not. (A function for each pair: they read other posts by other borders, which
// one function for all would be given as arguments.)
fn east_pair(heights: &[i32], grid: Grid, p: usize, at: Borders, odd: bool) -> u8
    requires { PostOf (plot_of grid heights.now) p × (at ≡ borders_of grid.rows grid.columns p) × (odd ≡ is_odd (row grid.columns p)) }
    ensures { (result ≡ east_pair (plot_of grid heights.now) p) × (result ≤ 3) }
{
    let across = p + grid.columns + 1;
    let there = !at.right & !at.bottom;
    let e = ahead(heights, grid, p + 1, 1, odd, !at.right);
    let se = ahead(heights, grid, across, grid.columns + 1, SOUTH, there);
    let after = ahead(heights, grid, across, 1, !odd, there);
    pair(e, se, !at.bottom & after, grid.highest)
}

// The pair of S and SW.
fn south_pair(heights: &[i32], grid: Grid, p: usize, at: Borders) -> u8
    requires { PostOf (plot_of grid heights.now) p × (at ≡ borders_of grid.rows grid.columns p) }
    ensures { (result ≡ south_pair (plot_of grid heights.now) p) × (result ≤ 3) }
{
    let across = p + grid.columns - 1;
    let there = !at.bottom & !at.left;
    let south = p + grid.columns;
    let s = ahead(heights, grid, south, grid.columns, SOUTH, !at.bottom);
    let sw = ahead(heights, grid, across, grid.columns - 1, SOUTH, there);
    let after = ahead(heights, grid, across, grid.columns, SOUTH, there);
    pair(s, sw, !at.left & after, grid.highest)
}

// The pair of N and NE.
fn north_pair(heights: &[i32], grid: Grid, p: usize, at: Borders) -> u8
    requires { PostOf (plot_of grid heights.now) p × (at ≡ borders_of grid.rows grid.columns p) }
    ensures { (result ≡ north_pair (plot_of grid heights.now) p) × (result ≤ 3) }
{
    let there = !at.top & !at.right;
    let n = back(heights, grid, p, 0, grid.columns, NORTH, !at.top);
    let ne = back(heights, grid, p, 0, grid.columns - 1, NORTH, there);
    let after = back(heights, grid, p + 1, 0, grid.columns, NORTH, there);
    pair(n, ne, !at.right & after, grid.highest)
}

// The sign at W. The first post of all has no member there: the sign of S is carried.
fn west_sign(heights: &[i32], grid: Grid, p: usize, at: Borders, odd: bool) -> bool
    requires { PostOf (plot_of grid heights.now) p × (at ≡ borders_of grid.rows grid.columns p) × (odd ≡ is_odd (row grid.columns p)) }
    ensures { result ≡ west_sign (plot_of grid heights.now) p }
{
    if at.top & at.left {
        let south = p + grid.columns;
        return ahead(heights, grid, south, grid.columns, SOUTH, !at.bottom);
    }
    back(heights, grid, p, 0, 1, !odd, !at.left)
}

// The pair of W and NW.
fn west_pair(heights: &[i32], grid: Grid, p: usize, at: Borders, odd: bool) -> u8
    requires { PostOf (plot_of grid heights.now) p × (at ≡ borders_of grid.rows grid.columns p) × (odd ≡ is_odd (row grid.columns p)) }
    ensures { (result ≡ west_pair (plot_of grid heights.now) p) × (result ≤ 3) }
{
    let there = !at.left & !at.top;
    let w = west_sign(heights, grid, p, at, odd);
    let nw = back(heights, grid, p, 0, grid.columns + 1, NORTH, there);
    let after = back(heights, grid, p, grid.columns, 1, odd, there);
    pair(w, nw, !at.top & after, grid.highest)
}

// The pattern of any post.
pub fn pattern_at(heights: &[i32], grid: Grid, p: usize) -> u8
    requires { PostOf (plot_of grid heights.now) p }
    ensures { result ≡ pattern_at (plot_of grid heights.now) p }
{
    let at = borders_of(grid, p);
    let odd = is_odd_row(grid, p);
    let north = north_pair(heights, grid, p, at);
    let east = east_pair(heights, grid, p, at, odd);
    let south = south_pair(heights, grid, p, at);
    let west = west_pair(heights, grid, p, at, odd);
    north + 4 * (east + 4 * south) + 64 * west
}
