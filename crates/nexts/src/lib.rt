// Next down of every post of a plot and, where `both`, next up: in two lists that are filled together, so that the keys round a post are worked out once. The
// compiler makes a loop of its own for each.
#![tactic(auto)]

ghost use Rattle.std.specs.Prelude.{◌≡◌, true, false, ℕ, ◌+◌, ◌*◌, ◌≤◌, ◌<◌};
ghost use Rattle.surface.specs.Plot.{plot_of, posts, row, is_odd};
ghost use Rattle.surface.specs.Edges.{is_border};
ghost use Rattle.nexts.specs.Filled.{ForNexts, NextsFilled, AllFilled};

use next::step::{next_inside, next_up_anywhere};
use surface::{DOWN, Grid, Spacings, UP, VIRTUAL_PIT};

// Of n posts from post `from` on, all of them on a border: they drain to the virtual pit.
fn fill_border(
    heights: &[i32],
    grid: Grid,
    spacings: Spacings,
    both: bool,
    from: usize,
    n: usize,
    downs: &mut [u16],
    ups: &mut [u16],
)
    requires for_nexts { ForNexts (plot_of grid heights.now) spacings both downs.old ups.old × (from + n ≤ posts (plot_of grid heights.now)) }
    requires by_index { (i : ℕ) → i < n → is_border grid.rows grid.columns (from + i) ≡ true }
    ensures { NextsFilled (plot_of grid heights.now) spacings both from n downs.old ups.old downs.new ups.new }
{
    for i in 0..n {
        let p = from + i;
        downs[p] = VIRTUAL_PIT as u16;
        if both {
            ups[p] = next_up_anywhere(heights, grid, spacings, p) as u16;
        }
    }
}

// Of n posts from post `from` on, of one row, odd or not, and none on a border. Both posts are worked out before either is stored, so that the compiler
// knows the heights to be the same.
fn fill_inside(
    heights: &[i32],
    grid: Grid,
    spacings: Spacings,
    both: bool,
    from: usize,
    n: usize,
    odd: bool,
    even: bool,
    highest: bool,
    downs: &mut [u16],
    ups: &mut [u16],
)
    requires for_nexts { ForNexts (plot_of grid heights.now) spacings both downs.old ups.old × (from + n ≤ posts (plot_of grid heights.now)) }
    requires highest_value { (highest ≡ grid.highest) × (even ≡ true → spacings.east ≡ spacings.south) }
    requires by_index { (i : ℕ) → i < n → (is_border grid.rows grid.columns (from + i) ≡ false) × (odd ≡ is_odd (row grid.columns (from + i))) }
    ensures { NextsFilled (plot_of grid heights.now) spacings both from n downs.old ups.old downs.new ups.new }
{
    for i in 0..n {
        let p = from + i;
        let down = next_inside(heights, grid, spacings, p, odd, even, highest, DOWN);
        if both {
            let up = next_inside(heights, grid, spacings, p, odd, even, highest, UP);
            ups[p] = up as u16;
        }
        downs[p] = down as u16;
    }
}

// The same. A call for each case, so that the compiler makes a loop of its own for each rule, and for equal spacings.
fn fill_inner(
    heights: &[i32],
    grid: Grid,
    spacings: Spacings,
    both: bool,
    from: usize,
    n: usize,
    odd: bool,
    downs: &mut [u16],
    ups: &mut [u16],
)
    requires for_nexts { ForNexts (plot_of grid heights.now) spacings both downs.old ups.old × (from + n ≤ posts (plot_of grid heights.now)) }
    requires by_index { (i : ℕ) → i < n → (is_border grid.rows grid.columns (from + i) ≡ false) × (odd ≡ is_odd (row grid.columns (from + i))) }
    ensures { NextsFilled (plot_of grid heights.now) spacings both from n downs.old ups.old downs.new ups.new }
{
    let even = spacings.east == spacings.south;
    if grid.highest {
        if even {
            fill_inside(
                heights, grid, spacings, both, from, n, odd, true, true, downs, ups,
            );
            return;
        }
        fill_inside(
            heights, grid, spacings, both, from, n, odd, false, true, downs, ups,
        );
        return;
    }
    if even {
        fill_inside(
            heights, grid, spacings, both, from, n, odd, true, false, downs, ups,
        );
        return;
    }
    fill_inside(
        heights, grid, spacings, both, from, n, odd, false, false, downs, ups,
    );
}

// Of row r, between the top and the bottom one: its two ends are on a border.
fn fill_row(
    heights: &[i32],
    grid: Grid,
    spacings: Spacings,
    both: bool,
    r: usize,
    downs: &mut [u16],
    ups: &mut [u16],
)
    requires { ForNexts (plot_of grid heights.now) spacings both downs.old ups.old × (0 < r) × (r + 1 < grid.rows) }
    ensures { NextsFilled (plot_of grid heights.now) spacings both (r * grid.columns) grid.columns downs.old ups.old downs.new ups.new }
{
    let first = r * grid.columns;
    let inner = grid.columns - 2;
    fill_border(heights, grid, spacings, both, first, 1, downs, ups);
    let odd = r % 2 == 1;
    fill_inner(
        heights,
        grid,
        spacings,
        both,
        first + 1,
        inner,
        odd,
        downs,
        ups,
    );
    fill_border(
        heights,
        grid,
        spacings,
        both,
        first + 1 + inner,
        1,
        downs,
        ups,
    );
}

// Of every post. The top and the bottom row, which are on a border, stand outside the loop, so that the compiler sees it read inside the lists alone.
pub fn fill_nexts(
    heights: &[i32],
    grid: Grid,
    spacings: Spacings,
    both: bool,
    downs: &mut [u16],
    ups: &mut [u16],
)
    requires { ForNexts (plot_of grid heights.now) spacings both downs.old ups.old }
    ensures { AllFilled (plot_of grid heights.now) spacings both downs.old ups.old downs.new ups.new }
{
    let columns = grid.columns;
    let last = grid.rows - 1;
    fill_border(heights, grid, spacings, both, 0, columns, downs, ups);
    for r in 1..last {
        fill_row(heights, grid, spacings, both, r, downs, ups);
    }
    fill_border(
        heights,
        grid,
        spacings,
        both,
        last * columns,
        columns,
        downs,
        ups,
    );
}
