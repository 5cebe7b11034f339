// The entries of a settings sheet, which end where it does: at most two can be allowed, the rule and then the name.
ghost use Rattle.std.specs.Prelude.{◌≡◌, ◌<◌, ◌&&◌, true, length};
ghost use Rattle.std.specs.List.{fold};
ghost use Rattle.surface.specs.Settings.{is_printable, are_entries};
ghost use Rattle.surface.specs.Refused.{rule_number, sheet_of};
ghost use Rattle.settings.specs.Walk.{header_size, entries_from, Whole, said_in, said_with};

use crate::frame::{HEADER, byte_at};
use surface::{DEFAULT_RULE, NAME_LENGTH, Refusal, Rule, Settings};
use words::wide;

// The kinds of entries, as the bytes of a sheet have them.
const RULE: u8 = 1;

const NAME: u8 = 2;

// Whether a name may have this byte.
fn is_printable(byte: u8) -> bool
    ensures { result ≡ is_printable byte }
{
    (32 <= byte) & (byte <= 126)
}

// Whether a name may have all these bytes: a pass with no branch, so that the compiler makes vector code of it.
fn are_printable(bytes: &[u8]) -> bool
    ensures { result ≡ fold (λ ok byte. ok && is_printable byte) true bytes.now }
{
    bytes.iter().fold(true, |ok, byte| ok & is_printable(*byte))
}

// Whether the entries from `at` on are a name and no more, whose bytes then go to the end.
fn is_name(sheet: &[u8], at: usize) -> bool
    requires { Whole sheet.now at × (at < length sheet.now) }
    ensures { result ≡ are_entries 1 (entries_from sheet.now at) }
{
    let size = byte_at(sheet, at + 1) as usize;
    let sized = (1 <= size) & (size <= NAME_LENGTH);
    let last = at + 2 + size == sheet.len();
    (byte_at(sheet, at) == NAME) & sized & last & are_printable(&sheet[at + 2..])
}

// What a sheet says that has this rule and the entries from `at` on.
fn read_name(sheet: &[u8], at: usize, rule: Rule) -> Result<Settings, Refusal>
    requires { Whole sheet.now at }
    ensures { sheet_of result ≡ said_with (rule_number rule) (entries_from sheet.now at) }
{
    if sheet.len() <= at {
        return Ok(Settings { rule, named: 0 });
    }
    Refusal::BadEntry.unless(is_name(sheet, at))?;
    Ok(Settings {
        rule,
        named: wide(byte_at(sheet, at + 1)),
    })
}

// What all entries say: row 14 of the table, or the rule and the name. A rule can only be the first: byte 6 is then its length, byte 7 the rule.
pub(crate) fn read_entries(sheet: &[u8]) -> Result<Settings, Refusal>
    requires { Whole sheet.now header_size }
    ensures { sheet_of result ≡ said_in (entries_from sheet.now header_size) }
{
    if byte_at(sheet, HEADER) != RULE {
        return read_name(sheet, HEADER, DEFAULT_RULE);
    }
    Refusal::BadEntry.unless(byte_at(sheet, 6) == 1)?;
    let rule = Rule::try_from(byte_at(sheet, 7))?;
    read_name(sheet, 8, rule)
}
