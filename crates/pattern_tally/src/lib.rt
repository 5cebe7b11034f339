// The three counts of a plot by its patterns, with no marks made: a peak is the pattern of eight signs below, a pit that of none, and the changes of all posts,
// by the table, tell the saddles.
#![tactic(auto)]

ghost use Rattle.std.specs.Prelude.{◌≡◌, map, ◌+◌, ◌*◌, ◌≤◌, length, drop};
ghost use Rattle.surface.specs.Lists.{total};
ghost use Rattle.surface.specs.Plot.{max_posts};
ghost use Rattle.surface.specs.Patterns.{changes_in, change_table, mark_in};
ghost use Rattle.tally.specs.Tally.{Counted};

use changes::{change_table, changes_of};
use tally::{PART, Tally, count_part};

// The changes of a part's patterns, summed.
fn sum_part(table: &[u8], part: &[u8]) -> u32
    requires { (table.now ≡ change_table) × (length part.now ≤ 240) }
    ensures { (result ≡ total (map changes_in part.now)) × (result ≤ 8 * length part.now) }
{
    part.iter()
        .map(|pattern| changes_of(table, *pattern) as u32)
        .sum()
}

// Counts the marks that the patterns tell; the virtual pit is a pit. Half as many runs start as there are changes, and every post but peaks and pits has one
// run more than its multiplicity.
pub fn count_patterns(patterns: &[u8]) -> Tally
    requires { length patterns.now ≤ max_posts }
    ensures { Counted (map mark_in patterns.now) result.peaks result.pits result.saddles }
{
    let table = change_table();
    let mut peaks: u32 = 0;
    let mut pits: u32 = 0;
    let mut changes: u32 = 0;
    for part in patterns.chunks(PART) {
        peaks += count_part(part, 255) as u32;
        pits += count_part(part, 0) as u32;
        changes += sum_part(&table, part);
    }
    Tally {
        peaks,
        pits: pits + 1,
        saddles: changes / 2 + peaks + pits - patterns.len() as u32,
    }
}
