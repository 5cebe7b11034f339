// The ends of the paths that a list of next posts makes, found in the list itself. What has no entry in the list, as the virtual pit, is an end, and
// so is what is its own entry. A path that was walked is made short, so that no later walk goes along it again: the whole takes time linear in the
// list. (Posts are named by numbers: C lends such lists, and there is no heap.)
#![tactic(auto)]

ghost use Rattle.std.specs.Prelude.{◌≡◌, ◌+◌, ◌*◌, ◌≤◌, ◌<◌, length};
ghost use Rattle.surface.specs.Lists.{list_of};
ghost use Rattle.surface.specs.Plot.{Sides};
ghost use Rattle.paths.specs.Paths.{follow, along, path_end, PathsEnd, Shorter, InRow, Settled};

use surface::Grid;

// The end of the path from p.
fn end_of(list: &[u16], p: usize) -> u16
    requires { PathsEnd list.now × (p < length list.now) }
    ensures { result ≡ path_end list.now p }
{
    let mut e = list[p];
    // (a walk until its end; docs/DECISIONS.md, "Forms by location", names this form)
    let end = loop {
        let Some(next) = list.get(e as usize) else {
            break e;
        };
        if *next == e {
            break e;
        }
        e = *next;
    };
    end
}

// Makes the end the entry of every post on the path from p.
fn shorten_path(list: &mut [u16], p: usize, end: u16)
    requires { PathsEnd list.old × (p < length list.old) × (end ≡ path_end list.old p) }
    ensures { Shorter list.old list.new × (follow list.new p ≡ end) }
{
    let stop = end as usize;
    let mut e = p;
    // (a walk until the end, no count)
    while e != stop {
        let next = list[e] as usize;
        list[e] = end;
        e = next;
    }
}

// The post that p's entry names, or p where it names none: its entry is what the path from p comes to in two steps.
fn ahead(list: &[u16], p: usize) -> usize
    requires { p < length list.now }
    ensures { (result < length list.now) × (follow list.now result ≡ along list.now 2 p) }
{
    let next = list[p] as usize;
    if next < list.len() { next } else { p }
}

// Makes the end of its path the entry of p. Mostly two steps lead there, and one test tells: the third does not move.
pub fn settle(list: &mut [u16], p: usize)
    requires { PathsEnd list.old × (p < length list.old) }
    ensures { Shorter list.old list.new × (follow list.new p ≡ path_end list.old p) }
{
    let q = ahead(list, p);
    let r = ahead(list, q);
    let e = list[q];
    if list[r] == e {
        list[p] = e;
        return;
    }
    let end = end_of(list, p);
    shorten_path(list, p, end);
}

// Makes the end of its path the entry of each of n posts from `first` on; where `back`, from the last of them on.
fn shorten_row(list: &mut [u16], first: usize, n: usize, back: bool)
    requires { PathsEnd list.old × (first + n ≤ length list.old) }
    ensures { Settled list.old list.new (InRow first n) }
{
    // (one loop for both ways: `0..n` and its reverse are two types)
    for turn in 0..n {
        let i = if back { n - 1 - turn } else { turn };
        settle(list, first + i);
    }
}

// Makes every post's entry the end of its path. Level ground is driven to and fro: next down goes to posts that are driven past before, and next up to later
// ones. Paths that go down are met in the order of the drive, those that go `up` against it, so that most are one step long when they are met.
pub fn shorten(list: &mut [u16], grid: Grid, up: bool)
    requires { PathsEnd list.old × Sides grid.rows grid.columns × (length list.old ≡ grid.rows * grid.columns) }
    ensures { list.new ≡ list_of (path_end list.old) (length list.old) }
{
    let rows = grid.rows;
    let columns = grid.columns;
    for turn in 0..rows {
        let r = if up { rows - 1 - turn } else { turn };
        shorten_row(list, r * columns, columns, (r % 2 == 1) ^ up);
    }
}
