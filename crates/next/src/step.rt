// Next down and next up from a post: the steepest key round it.
//
// The diagonals need not be known. Where they go through the lowest posts of cells, downward every corner may be looked at: one that is not joined has a
// lower post beside it, which is joined, and nearer: so it is steeper, or on level ground as steep and lower. Upward a corner that is above the post is
// joined to it exactly where both sides of their cell are above the post too, since the diagonal goes through the lowest of the four. Where they go through
// the highest posts, up and down change places.
ghost use Rattle.std.specs.Prelude.{◌≡◌, true, false};
ghost use Rattle.surface.specs.Plot.{plot_of, row, is_odd, PostOf};
ghost use Rattle.surface.specs.Edges.{is_border};
ghost use Rattle.surface.specs.Spacings.{Spaced};
ghost use Rattle.surface.specs.Lines.{next, toward, up};

use keys::post_of;
use order::is_odd_row;
use rings::border::{borders_of, is_border};
use steepest::{steepest_inside, steepest_up};
use surface::{Grid, Spacings, VIRTUAL_PIT};

// Next down, or where `up` next up, from a post on no border, in an odd row or not. The rule is told beside the grid, and equal spacings by `even`, so that
// a caller for whom they are constants has a step of its own.
pub fn next_inside(
    heights: &[i32],
    grid: Grid,
    spacings: Spacings,
    p: usize,
    odd: bool,
    even: bool,
    highest: bool,
    up: bool,
) -> usize
    requires { PostOf (plot_of grid heights.now) p × (is_border grid.rows grid.columns p ≡ false) × (odd ≡ is_odd (row grid.columns p)) × Spaced spacings × (highest ≡ grid.highest) × (even ≡ true → spacings.east ≡ spacings.south) }
    ensures { result ≡ next (toward (plot_of grid heights.now) spacings up) p }
{
    let best = steepest_inside(heights, grid, spacings, p, odd, even, highest, up);
    post_of(grid, p, best)
}

// Next up from any post; used for those on a border.
pub fn next_up_anywhere(heights: &[i32], grid: Grid, spacings: Spacings, p: usize) -> usize
    requires { PostOf (plot_of grid heights.now) p × Spaced spacings }
    ensures { result ≡ next (up (plot_of grid heights.now) spacings) p }
{
    let at = borders_of(grid, p);
    let best = steepest_up(heights, grid, spacings, p, at, is_odd_row(grid, p));
    post_of(grid, p, best)
}

// Next down, or where `up` next up, from any post. From a post on a border next down is the virtual pit.
pub fn next_at(heights: &[i32], grid: Grid, spacings: Spacings, p: usize, up: bool) -> usize
    requires { PostOf (plot_of grid heights.now) p × Spaced spacings }
    ensures { result ≡ next (toward (plot_of grid heights.now) spacings up) p }
{
    // a call for each parity: so a walk need not wait for the division
    if !is_border(grid, p) {
        if is_odd_row(grid, p) {
            return next_inside(heights, grid, spacings, p, true, false, grid.highest, up);
        }
        return next_inside(heights, grid, spacings, p, false, false, grid.highest, up);
    }
    if up {
        return next_up_anywhere(heights, grid, spacings, p);
    }
    VIRTUAL_PIT
}
