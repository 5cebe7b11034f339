// Bodies in a list of paths that rise: the end of a post's path names its body. At a saddle the bodies of the posts where its upper runs start become one.
#![tactic(auto)]

ghost use Rattle.std.specs.Prelude.{◌≡◌, ℕ, ◌≤◌, ◌<◌, length};
ghost use Rattle.surface.specs.Plot.{plot_of, posts};
ghost use Rattle.surface.specs.Patterns.{pattern_at, upper_starts, start_table};
ghost use Rattle.paths.specs.Paths.{path_end};
ghost use Rattle.starts.specs.Starts.{strides, start_posts};
ghost use Rattle.merges.specs.Merges.{Rising, SameEnds, End, Linked, MergedWith, Merged};

use order::is_below;
use paths::settle;
use starts::{first_start, post_at, start_of};
use surface::Grid;

// The end of the path from p; it becomes p's entry.
fn end_of(heights: &[i32], grid: Grid, list: &mut [u16], p: usize) -> usize
    requires { Rising (plot_of grid heights.now) list.old × (p < posts (plot_of grid heights.now)) }
    ensures { (result ≡ path_end list.old p) × End (plot_of grid heights.now) list.new result × SameEnds (plot_of grid heights.now) list.old list.new }
{
    settle(list, p);
    list[p] as usize
}

// Makes two bodies one, by their ends, which differ: the end of both is the higher one.
fn link(heights: &[i32], grid: Grid, list: &mut [u16], a: usize, b: usize) -> usize
    requires { Rising (plot_of grid heights.now) list.old × End (plot_of grid heights.now) list.old a × End (plot_of grid heights.now) list.old b × (a ≡ b → ⊥) }
    ensures { Linked (plot_of grid heights.now) list.old list.new a b result }
{
    if is_below(heights, grid, a, b) {
        list[a] = b as u16;
        return b;
    }
    list[b] = a as u16;
    a
}

// A body by its end, and how many more than one it was made of.
#[derive(Clone, Copy)]
pub struct Body {
    pub end: usize,
    pub splits: u8,
}

// Merges the body of post q with a body.
fn merge(heights: &[i32], grid: Grid, list: &mut [u16], body: Body, q: usize) -> Body
    requires { Rising (plot_of grid heights.now) list.old × End (plot_of grid heights.now) list.old body.end × (q < posts (plot_of grid heights.now)) × (body.splits ≤ 3) }
    ensures { MergedWith (plot_of grid heights.now) list.old list.new body.end q result.end body.splits result.splits }
{
    let other = end_of(heights, grid, list, q);
    if other == body.end {
        return body;
    }
    let end = link(heights, grid, list, body.end, other);
    Body {
        end,
        splits: body.splits + 1,
    }
}

// Makes one body of those of the posts where the upper runs of saddle p start: how many more than one there were.
pub fn take_saddle(
    heights: &[i32],
    grid: Grid,
    table: &[u8],
    steps: &[u16],
    pattern: u8,
    p: usize,
    list: &mut [u16],
) -> u8
    requires rising { Rising (plot_of grid heights.now) list.old × (p < posts (plot_of grid heights.now)) × (table.now ≡ start_table) × (steps.now ≡ strides grid.columns) }
    requires pattern_value { (pattern ≡ pattern_at (plot_of grid heights.now) p) × (1 ≤ length (upper_starts pattern)) }
    ensures { (end : ℕ) × Merged (plot_of grid heights.now) list.old list.new (start_posts (plot_of grid heights.now) p) end result }
{
    let first = post_at(steps, grid.columns, p, first_start(table, pattern));
    let end = end_of(heights, grid, list, first);
    let mut body = Body { end, splits: 0 };
    for j in 1..4 {
        let Some(place) = start_of(table, pattern, j) else {
            break;
        };
        let q = post_at(steps, grid.columns, p, place);
        body = merge(heights, grid, list, body, q);
    }
    body.splits
}
