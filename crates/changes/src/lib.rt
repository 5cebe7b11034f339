// Changes of side: how many there are round the eight signs of a pattern, by a table, and the mark that a pattern and its changes tell.
#![tactic(auto)]

ghost use Rattle.std.specs.Prelude.{◌≡◌, ◌≤◌};
ghost use Rattle.surface.specs.Flags.{mark_by};
ghost use Rattle.surface.specs.Patterns.{changes_in, change_table, mark_in};

// For each pattern how many changes of side there are round its eight signs, taken as a circle: a byte each, in a row by the signs from S to NW, at a place
// by those from N to SE.
const CHANGES: [u8; 256] = *b"\
    \x00\x02\x02\x02\x02\x04\x02\x02\x02\x04\x04\x04\x02\x04\x02\x02\
    \x02\x04\x04\x04\x04\x06\x04\x04\x02\x04\x04\x04\x02\x04\x02\x02\
    \x02\x04\x04\x04\x04\x06\x04\x04\x04\x06\x06\x06\x04\x06\x04\x04\
    \x02\x04\x04\x04\x04\x06\x04\x04\x02\x04\x04\x04\x02\x04\x02\x02\
    \x02\x04\x04\x04\x04\x06\x04\x04\x04\x06\x06\x06\x04\x06\x04\x04\
    \x04\x06\x06\x06\x06\x08\x06\x06\x04\x06\x06\x06\x04\x06\x04\x04\
    \x02\x04\x04\x04\x04\x06\x04\x04\x04\x06\x06\x06\x04\x06\x04\x04\
    \x02\x04\x04\x04\x04\x06\x04\x04\x02\x04\x04\x04\x02\x04\x02\x02\
    \x02\x02\x04\x02\x04\x04\x04\x02\x04\x04\x06\x04\x04\x04\x04\x02\
    \x04\x04\x06\x04\x06\x06\x06\x04\x04\x04\x06\x04\x04\x04\x04\x02\
    \x04\x04\x06\x04\x06\x06\x06\x04\x06\x06\x08\x06\x06\x06\x06\x04\
    \x04\x04\x06\x04\x06\x06\x06\x04\x04\x04\x06\x04\x04\x04\x04\x02\
    \x02\x02\x04\x02\x04\x04\x04\x02\x04\x04\x06\x04\x04\x04\x04\x02\
    \x04\x04\x06\x04\x06\x06\x06\x04\x04\x04\x06\x04\x04\x04\x04\x02\
    \x02\x02\x04\x02\x04\x04\x04\x02\x04\x04\x06\x04\x04\x04\x04\x02\
    \x02\x02\x04\x02\x04\x04\x04\x02\x02\x02\x04\x02\x02\x02\x02\x00";

// The table, to be made once and lent to what looks changes up.
pub fn change_table() -> [u8; 256]
    ensures { result ≡ change_table }
{
    CHANGES
}

// The changes of a pattern, by the table.
pub fn changes_of(table: &[u8], pattern: u8) -> u8
    requires { table.now ≡ change_table }
    ensures { (result ≡ changes_in pattern) × (result ≤ 8) }
{
    table[pattern as usize]
}

// The mark by whether the first side is below and the number of lower runs that start: where none does, all members are of one sort. A sum of two terms
// of which at most one is not 0, and no branch, since a mark is a toss-up that no processor foresees.
fn mark_by(first: bool, runs: u8) -> u8
    requires { runs ≤ 8 }
    ensures { result ≡ mark_by first runs }
{
    let saddle = (1 < runs) as u8 * (runs + 1);
    let extreme = (runs == 0) as u8 * (2 - first as u8);
    saddle + extreme
}

// The mark that a pattern tells, by the number of its changes: half as many runs start.
pub fn mark_of(pattern: u8, changes: u8) -> u8
    requires { changes ≡ changes_in pattern }
    ensures { result ≡ mark_in pattern }
{
    mark_by(pattern % 2 == 1, changes / 2)
}
