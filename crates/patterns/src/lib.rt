// The patterns of a whole plot, a row at a time, by rows of comparisons of the posts that touch.
#![tactic(auto)]

ghost use Rattle.std.specs.Prelude.{◌≡◌, ◌+◌, ◌-◌, ◌≤◌, length, get_or};
ghost use Rattle.surface.specs.Lists.{list_of, stores};
ghost use Rattle.surface.specs.Plot.{plot_of, posts, Valid};
ghost use Rattle.surface.specs.Patterns.{pattern_at};

use flags::south_rows;
use halves::pattern_row;
use heads::top_row;
use surface::Grid;

// A row is worked on in whole blocks of 16 posts, the last one filled up, so that no post is left over from the vector code; two flags more than that.
const WIDTH: usize = 128;

const FLAGS: usize = 130;

// The patterns of a whole plot.
pub fn pattern_plot(heights: &[i32], grid: Grid, patterns: &mut [u8])
    requires { Valid (plot_of grid heights.now) × (length patterns.old ≡ posts (plot_of grid heights.now)) }
    ensures { patterns.new ≡ list_of (pattern_at (plot_of grid heights.now)) (posts (plot_of grid heights.now)) }
{
    let rows = grid.rows;
    let columns = grid.columns;
    let width = (columns + 15) / 16 * 16;
    let mut side = [true; FLAGS];
    let mut south = [false; FLAGS];
    let mut fall = [false; FLAGS];
    let mut rise = [false; FLAGS];
    let mut under = [false; FLAGS];
    let mut upper = [0u8; WIDTH];
    let mut pattern = [0u8; WIDTH];
    top_row(
        heights, grid, &side, &mut south, &mut fall, &mut rise, &mut under, &mut upper, width,
    );
    side = under;
    for r in 0..rows {
        let base = r * columns;
        south_rows(
            heights,
            grid,
            base,
            r % 2 == 1,
            &mut south,
            &mut fall,
            &mut rise,
            &mut under,
        );
        pattern_row(
            &mut upper,
            &side,
            &south,
            &fall,
            &rise,
            &under,
            grid.highest,
            &mut pattern,
            width,
        );
        patterns[base..base + columns].copy_from_slice(&pattern[..columns]);
        side = under;
    }
}
