// A walk from post to post, down to a pit or up to a peak.
ghost use Rattle.std.specs.Prelude.{◌≡◌, length};
ghost use Rattle.surface.specs.Plot.{plot_of, PostOf};
ghost use Rattle.surface.specs.Spacings.{Spaced};
ghost use Rattle.surface.specs.Lines.{next, toward};
ghost use Rattle.lines.specs.Walks.{WalkOf, path};

use next::step::next_at;
use surface::{Grid, Spacings, VIRTUAL_PIT};

// Where a walk stands, at a post or in the virtual pit, and whether it goes up.
#[derive(Clone, Copy)]
pub struct Walk {
    pub post: usize,
    pub up: bool,
}

impl Walk {
    // The walk a post on, from a post; at an end it stays. (No Option: an end is its own next, as C is told.)
    pub fn next(self, heights: &[i32], grid: Grid, spacings: Spacings) -> Walk
        requires { PostOf (plot_of grid heights.now) self.post × Spaced spacings }
        ensures { result ≡ record { post = next (toward (plot_of grid heights.now) spacings self.up) self.post; up = self.up } }
    {
        let up = self.up;
        Walk {
            post: next_at(heights, grid, spacings, self.post, up),
            up,
        }
    }

    // The same from any vertex: in the virtual pit it stays. It does not call `next`: the compiler puts a function into its one caller, and `next` would then be too
    // large for the loops that walk.
    pub fn onward(self, heights: &[i32], grid: Grid, spacings: Spacings) -> Walk
        requires { WalkOf (plot_of grid heights.now) spacings self }
        ensures { result ≡ record { post = next (toward (plot_of grid heights.now) spacings self.up) self.post; up = self.up } }
    {
        let post = self.post;
        let up = self.up;
        if post == VIRTUAL_PIT {
            return self;
        }
        Walk {
            post: next_at(heights, grid, spacings, post, up),
            up,
        }
    }
}

// How many posts a walk goes by until its end, the first and the end among them.
pub(crate) fn entries_of(heights: &[i32], grid: Grid, spacings: Spacings, from: Walk) -> usize
    requires { WalkOf (plot_of grid heights.now) spacings from }
    ensures { result ≡ length (path (plot_of grid heights.now) spacings from) }
{
    let mut at = from;
    let mut entries: usize = 1;
    // (a walk until its end, no count by an index; `write_entries` goes the same way, and what it does at a post is half of its loop)
    let count = loop {
        let here = at.post;
        let ahead = at.onward(heights, grid, spacings);
        if ahead.post == here {
            break entries;
        }
        at = ahead;
        entries += 1;
    };
    count
}
