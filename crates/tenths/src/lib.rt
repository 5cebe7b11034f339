// Filed heights, in tenths of a millimetre: read, rounded to whole ones, and written.
#![tactic(auto)]

ghost use Rattle.std.specs.Prelude.{◌≡◌, true, MatchOption, ◌+◌, ◌*◌, ◌<◌, ◌≤◌, pos, ◌*ℤ◌, length};
ghost use Rattle.surface.specs.Lists.{first_not};
ghost use Rattle.surface.specs.Plot.{is_height};
ghost use Rattle.surface.specs.SurveyFile.{version_in, header_for, is_tenths, tenths_of, rounded};
ghost use Rattle.surface.specs.Words.{word_at, signed, unsigned};
ghost use Rattle.tenths.specs.Rounding.{step_from};

use words::{as_signed, as_unsigned, word_at};

// The lowest and the highest filed height.
const LOWEST_FILED: i32 = -10000000;

const HIGHEST_FILED: i32 = 10000000;

// Tenths to whole millimetres, a half going to the even one. `/` and `%` go toward zero, and a remainder has the sign of what is divided, so that both sides
// of zero are alike. With one more at an odd quotient, the remainder is beyond 5 exactly where the next millimetre away from zero is nearer, or as near and
// even.
pub fn round(t: i32) -> i32
    ensures { result ≡ rounded t }
{
    let whole = t / 10;
    whole + step(t % 10 + whole % 2)
}

// A step away from zero where the rest is beyond 5.
fn step(rest: i32) -> i32
    ensures { result ≡ step_from rest }
{
    let above = 5 < rest;
    if above {
        return 1;
    }
    let below = rest < -5;
    if below {
        return -1;
    }
    0
}

// Whether a filed height is in range. (As limits::is_height: each is one line by its own definition and range.)
fn is_tenths(t: i32) -> bool
    ensures { result ≡ is_tenths t }
{
    !(t < LOWEST_FILED) & !(HIGHEST_FILED < t)
}

// The filed height at a byte.
pub fn tenths_at(file: &[u8], at: usize) -> i32
    requires { at + 4 ≤ length file.now }
    ensures { result ≡ signed (word_at file.now at) }
{
    as_signed(word_at(file, at))
}

// The first of n posts whose filed height is out of range; `header` is how many bytes stand before the heights. (As
// limits::first_out of a list: each is one call of the library.)
pub fn first_out(file: &[u8], header: usize, n: usize) -> Option<usize>
    requires { (header ≡ header_for (version_in file.now)) × (header + 4 * n ≤ length file.now) }
    ensures { let first = first_not is_tenths (tenths_of file.now n) in MatchOption result (first ≡ n) (λ i. (first ≡ i) × (i < n)) }
{
    (0..n).position(|i| !is_tenths(tenths_at(file, header + 4 * i)))
}

// A height in range as it is filed: ten times as many tenths, as 32 bits.
pub fn filed(h: i32) -> u32
    requires { is_height h ≡ true }
    ensures { result ≡ unsigned (h *ℤ pos 10) }
{
    as_unsigned(h * 10)
}
