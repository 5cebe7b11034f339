// The marks round a post, after its height changed: those of the post and of the posts that touch it by side or corner.
ghost use Rattle.std.specs.Prelude.{◌≡◌, ◌+◌, ◌-◌, ◌<◌, ◌≤◌, min, length};
ghost use Rattle.surface.specs.Lists.{stores};
ghost use Rattle.surface.specs.Plot.{plot_of, posts, Valid, PostOf};
ghost use Rattle.surface.specs.Marks.{mark_at, redrawn};
ghost use Rattle.surface.specs.Patterns.{change_table};

use changes::change_table;
use post::mark::mark_with;
use surface::Grid;

// The marks of n posts from post `from` on, each worked out by itself.
fn mark_each(heights: &[i32], grid: Grid, table: &[u8], from: usize, n: usize, marks: &mut [u8])
    requires { Valid (plot_of grid heights.now) × (table.now ≡ change_table) × (length marks.old ≡ posts (plot_of grid heights.now)) × (from + n ≤ posts (plot_of grid heights.now)) }
    ensures { marks.new ≡ stores (mark_at (plot_of grid heights.now)) from n marks.old }
{
    for i in 0..n {
        marks[from + i] = mark_with(heights, grid, table, from + i);
    }
}

// Works out afresh the marks of the at most nine posts round `post`.
pub fn redraw(heights: &[i32], grid: Grid, post: usize, marks: &mut [u8])
    requires { PostOf (plot_of grid heights.now) post × (length marks.old ≡ posts (plot_of grid heights.now)) }
    ensures { marks.new ≡ redrawn (plot_of grid heights.now) marks.old post }
{
    let table = change_table();
    let row = post / grid.columns;
    let column = post % grid.columns;
    let from = column.saturating_sub(1);
    let width = (column + 2).min(grid.columns) - from;
    let first = row.saturating_sub(1);
    let end = (row + 2).min(grid.rows);
    for r in first..end {
        mark_each(heights, grid, &table, r * grid.columns + from, width, marks);
    }
}
