// The marks of a whole plot, by its patterns: the table of changes is read for a part of the posts at a time, and their marks are told after that, so that
// only the reading goes post by post.
#![tactic(auto)]

ghost use Rattle.std.specs.Prelude.{◌≡◌, ◌+◌, ◌≤◌, ◌<◌, min, length, get_or};
ghost use Rattle.surface.specs.Lists.{stores};
ghost use Rattle.surface.specs.Plot.{plot_of, posts, max_posts, Valid};
ghost use Rattle.surface.specs.Marks.{marks_of};
ghost use Rattle.surface.specs.Patterns.{changes_in, change_table, mark_in};

use changes::{change_table, changes_of, mark_of};
use patterns::pattern_plot;
use surface::Grid;

// How many posts a part has. (As many as tally::PART, where a count must fit a byte; here the array of changes is to be small.)
const PART: usize = 240;

// The changes of a part's patterns.
fn look_up(table: &[u8], patterns: &[u8], changes: &mut [u8])
    requires { (table.now ≡ change_table) × (length patterns.now ≤ length changes.old) }
    ensures { changes.new ≡ stores (λ c. changes_in (get_or patterns.now c 0)) 0 (length patterns.now) changes.old }
{
    for (c, pattern) in patterns.iter().enumerate() {
        changes[c] = changes_of(table, *pattern);
    }
}

// The marks of a part's patterns, in their place, by these numbers of changes.
fn mark_part(changes: &[u8], marks: &mut [u8])
    requires { (length marks.old ≤ length changes.now) × ((c : _) → c < length marks.old → get_or changes.now c 0 ≡ changes_in (get_or marks.old c 0)) }
    ensures { marks.new ≡ stores (λ k. mark_in (get_or marks.old k 0)) 0 (length marks.old) marks.old }
{
    for (c, mark) in marks.iter_mut().enumerate() {
        *mark = mark_of(*mark, changes[c]);
    }
}

// The marks of all patterns, in their place.
pub fn mark_all(marks: &mut [u8])
    requires { length marks.old ≤ max_posts }
    ensures { marks.new ≡ stores (λ k. mark_in (get_or marks.old k 0)) 0 (length marks.old) marks.old }
{
    let table = change_table();
    let mut changes = [0u8; PART];
    let n = marks.len();
    // (not by `chunks_mut`, after which a proof knows only the length)
    for i in (0..n).step_by(PART) {
        let part = &mut marks[i..(i + PART).min(n)];
        look_up(&table, part, &mut changes);
        mark_part(&changes, part);
    }
}

// The marks of a whole plot.
pub fn mark_plot(heights: &[i32], grid: Grid, marks: &mut [u8])
    requires { Valid (plot_of grid heights.now) × (length marks.old ≡ posts (plot_of grid heights.now)) }
    ensures { marks.new ≡ marks_of (plot_of grid heights.now) }
{
    pattern_plot(heights, grid, marks);
    mark_all(marks);
}
