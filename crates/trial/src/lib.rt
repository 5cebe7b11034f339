// docs/SPECIFICATION.md, "Trial of a re-shoot": the counts of a plot, and those that it would have with one new height. Nothing is written: the patterns stand in
// a list of the call's own.
#![tactic(auto)]

ghost use Rattle.std.specs.Prelude.{◌≡◌, true, length, Ok};
ghost use Rattle.surface.specs.Plot.{plot_of, posts, reshot, is_height, PostOf};
ghost use Rattle.surface.specs.Marks.{marks_of};
ghost use Rattle.surface.specs.Refusals.{accepted, trial_verdict};
ghost use Rattle.surface.specs.Refused.{outcome, IsGridOf};
ghost use Rattle.surface.specs.Calls.{plot_by, tried_by, trial_answer};
ghost use Rattle.trial.specs.Told.{tried_of};

use bands::recount;
use limits::{check_shot, plot_grid};
use pattern_tally::count_patterns;
use patterns::pattern_plot;
use retally::BeforeAfter;
use surface::{Grid, MAX_POSTS, Refusal};

// Rows 13, 14, 1, 2 and 4 to 6 of the table, a re-shoot's but for 3, since no marks are lent: the grid of what passes.
fn trial_grid(
    sheet: &[u8],
    rows: u32,
    columns: u32,
    heights: &[i32],
    post: u32,
    height: i32,
) -> Result<Grid, Refusal>
    ensures value { outcome result ≡ trial_verdict (plot_by sheet.now rows columns heights.now) post height }
    ensures grid { IsGridOf (plot_by sheet.now rows columns heights.now) result }
{
    let grid = plot_grid(sheet, rows, columns, heights)?;
    check_shot(heights, post, height)?;
    Ok(grid)
}

// The counts of the plot and of the plot with the new height. The list is for the patterns.
fn count_now_and_then(
    heights: &[i32],
    grid: Grid,
    post: usize,
    height: i32,
    patterns: &mut [u8],
) -> BeforeAfter
    requires { PostOf (plot_of grid heights.now) post × (is_height height ≡ true) × (length patterns.old ≡ posts (plot_of grid heights.now)) }
    ensures { tried_of (Ok result) ≡ tried_by accepted (marks_of (plot_of grid heights.now)) (marks_of (reshot (plot_of grid heights.now) post height)) }
{
    pattern_plot(heights, grid, patterns);
    let before = count_patterns(patterns);
    let after = recount(heights, grid, post, height, patterns, before);
    BeforeAfter { before, after }
}

// The counts that hold and those that would hold with a new height at one post.
pub fn trial(
    sheet: &[u8],
    rows: u32,
    columns: u32,
    heights: &[i32],
    post: u32,
    height: i32,
) -> Result<BeforeAfter, Refusal>
    ensures { tried_of result ≡ trial_answer (plot_by sheet.now rows columns heights.now) post height }
{
    let grid = trial_grid(sheet, rows, columns, heights, post, height)?;
    let n = heights.len();
    let mut patterns = [0u8; MAX_POSTS];
    Ok(count_now_and_then(heights, grid, post as usize, height, &mut patterns[..n]))
}
