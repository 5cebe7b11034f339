// The mark of a post, by its pattern.
ghost use Rattle.std.specs.Prelude.{◌≡◌};
ghost use Rattle.surface.specs.Plot.{plot_of, PostOf};
ghost use Rattle.surface.specs.Marks.{mark_at};
ghost use Rattle.surface.specs.Patterns.{change_table};

use crate::pattern::pattern_at;
use changes::{change_table, changes_of, mark_of};
use surface::Grid;

// The mark of any post, by a table of changes that is at hand.
pub fn mark_with(heights: &[i32], grid: Grid, table: &[u8], p: usize) -> u8
    requires { PostOf (plot_of grid heights.now) p × (table.now ≡ change_table) }
    ensures { result ≡ mark_at (plot_of grid heights.now) p }
{
    let pattern = pattern_at(heights, grid, p);
    mark_of(pattern, changes_of(table, pattern))
}

// The mark of any post.
pub fn mark_at(heights: &[i32], grid: Grid, p: usize) -> u8
    requires { PostOf (plot_of grid heights.now) p }
    ensures { result ≡ mark_at (plot_of grid heights.now) p }
{
    let table = change_table();
    mark_with(heights, grid, &table, p)
}
