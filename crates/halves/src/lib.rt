// The halves of the patterns of a row, by rows of flags: the lower halves of the row's own, and the upper halves of those of the row below it.
#![tactic(auto)]

ghost use Rattle.std.specs.Prelude.{◌≡◌};
ghost use Rattle.surface.specs.Lists.{stores};
ghost use Rattle.halves.specs.Halves.{upper_in, pattern_in, ForHalves, ForPatterns};

use post::pattern::pair;

// The upper half of a pattern whose signs are all true.
const UPPER: u8 = 195;

// The patterns of the first posts of a row: the upper halves, worked out with the row above, and to them the pairs of E and of S by the flags.
fn lower_row(
    upper: &[u8],
    side: &[bool],
    south: &[bool],
    fall: &[bool],
    rise: &[bool],
    under: &[bool],
    highest: bool,
    pattern: &mut [u8],
    width: usize,
)
    requires { ForPatterns width side.now south.now fall.now rise.now under.now upper.now pattern.old }
    ensures { pattern.new ≡ stores
        (pattern_in highest side.now south.now fall.now rise.now under.now upper.now)
        0 width pattern.old }
{
    for c in 0..width {
        let e = pair(side[c + 1], fall[c + 1], under[c + 1], highest);
        let s = pair(south[c + 1], rise[c], south[c], highest);
        pattern[c] = upper[c] + 4 * (e + 4 * s);
    }
}

// The upper halves of the patterns of the row below, the pairs of N and of W, of which the flags tell turned round. A pair of turned flags is the turned
// pair by the other rule: so no flag has to be turned by itself.
pub fn upper_row(
    side: &[bool],
    south: &[bool],
    fall: &[bool],
    rise: &[bool],
    under: &[bool],
    highest: bool,
    upper: &mut [u8],
    width: usize,
)
    requires { ForHalves width side.now south.now fall.now rise.now under.now upper.old }
    ensures { upper.new ≡ stores
        (upper_in highest side.now south.now fall.now rise.now under.now)
        0 width upper.old }
{
    for c in 0..width {
        let n = pair(south[c + 1], rise[c + 1], south[c + 2], !highest);
        let w = pair(under[c], fall[c], side[c], !highest);
        upper[c] = UPPER - (n + 64 * w);
    }
}

// Both, by a call for each rule, so that the compiler makes loops for each. They are two functions, since they read other flags in other pairs, and one loop
// that reads three neighbouring places of a row is no vector code.
pub fn pattern_row(
    upper: &mut [u8],
    side: &[bool],
    south: &[bool],
    fall: &[bool],
    rise: &[bool],
    under: &[bool],
    highest: bool,
    pattern: &mut [u8],
    width: usize,
)
    requires { ForPatterns width side.now south.now fall.now rise.now under.now upper.old pattern.old }
    ensures pattern_after { pattern.new ≡ stores
        (pattern_in highest side.now south.now fall.now rise.now under.now upper.old)
        0 width pattern.old }
    ensures upper_after { upper.new ≡ stores
        (upper_in highest side.now south.now fall.now rise.now under.now)
        0 width upper.old }
{
    if highest {
        lower_row(upper, side, south, fall, rise, under, true, pattern, width);
        upper_row(side, south, fall, rise, under, true, upper, width);
        return;
    }
    lower_row(upper, side, south, fall, rise, under, false, pattern, width);
    upper_row(side, south, fall, rise, under, false, upper, width);
}
