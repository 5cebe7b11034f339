// The saddles of a plot as driven: rows in turn, odd ones from their last column.
#![tactic(auto)]

ghost use Rattle.std.specs.Prelude.{◌≡◌, ◌+◌, ◌*◌, ◌≤◌, ◌<◌, length};
ghost use Rattle.surface.specs.Lists.{one};
ghost use Rattle.surface.specs.Plot.{Sides};
ghost use Rattle.surface.specs.Patterns.{change_table};
ghost use Rattle.driven_saddles.specs.Collected.{saddle_in, Collected};

use surface::Grid;

// 1 where post p is a saddle, else 0.
fn saddle_at(patterns: &[u8], changes: &[u8], p: usize) -> usize
    requires { (changes.now ≡ change_table) × (p < length patterns.now) }
    ensures { (result ≡ one (saddle_in patterns.now p)) × (result ≤ 1) }
{
    (4 <= changes[patterns[p] as usize]) as usize
}

// The saddles of row r, as driven, put behind those that were found in the rows before it: how many there are then. Every post is stored, and counts where
// it is a saddle: there is no branch, since no processor would foresee it. (The list and how many were found: the next row stores behind them.)
fn collect_row(
    grid: Grid,
    r: usize,
    patterns: &[u8],
    changes: &[u8],
    list: &mut [u16],
    found: usize,
) -> usize
    requires sides { Sides grid.rows grid.columns × (r < grid.rows) × (changes.now ≡ change_table) }
    requires patterns_len { (length patterns.now ≡ grid.rows * grid.columns) × (length list.old ≡ grid.rows * grid.columns) }
    requires collected { Collected grid.columns (saddle_in patterns.now) (r * grid.columns) list.old found }
    ensures { Collected grid.columns (saddle_in patterns.now) (r * grid.columns + grid.columns) list.new result }
{
    let columns = grid.columns;
    let first = r * columns;
    let back = r % 2 == 1;
    let mut m = found;
    // (one loop for both ways: `0..columns` and its reverse are two types)
    for turn in 0..columns {
        let column = if back { columns - 1 - turn } else { turn };
        let p = first + column;
        list[m] = p as u16;
        m += saddle_at(patterns, changes, p);
    }
    m
}

// The saddles of all rows, as driven, at the front of the list: how many there are.
pub fn collect(grid: Grid, patterns: &[u8], changes: &[u8], list: &mut [u16]) -> usize
    requires sides { Sides grid.rows grid.columns × (changes.now ≡ change_table) }
    requires patterns_len { (length patterns.now ≡ grid.rows * grid.columns) × (length list.old ≡ grid.rows * grid.columns) }
    ensures { Collected grid.columns (saddle_in patterns.now) (grid.rows * grid.columns) list.new result }
{
    let mut m = 0;
    for r in 0..grid.rows {
        m = collect_row(grid, r, patterns, changes, list, m);
    }
    m
}
