// Settings sheets (docs/SPECIFICATION.md, "Settings sheet"): what a sheet says, the grid of a call with it, and the call that tells it.
#![tactic(auto)]

mod entries;
mod frame;

ghost use Rattle.std.specs.Prelude.{◌≡◌, ◌+◌, ◌-◌, ◌≤◌, length, get_or};
ghost use Rattle.surface.specs.Lists.{list_of, stores};
ghost use Rattle.surface.specs.Settings.{name_length};
ghost use Rattle.surface.specs.Calls.{sheet_says, grid_said, settings_answer, settings_name};
ghost use Rattle.surface.specs.Refused.{sheet_of};

use entries::read_entries;
use frame::is_bad;
use surface::{DEFAULT_RULE, Grid, NAME_LENGTH, Refusal, Rule, Settings, Sheet};

// What no sheet says.
const NO_SHEET: Settings = Settings {
    rule: DEFAULT_RULE,
    named: 0,
};

// What a settings sheet says; the empty list is no sheet. Most calls are lent none: this is small, and is inlined there.
pub fn read_sheet(sheet: &[u8]) -> Result<Settings, Refusal>
    ensures { sheet_of result ≡ sheet_says sheet.now }
{
    if sheet.is_empty() {
        return Ok(NO_SHEET);
    }
    read_bytes(sheet)
}

// The same by the bytes alone: rows 13 and 14 of the table, in that order. (`settings` calls this too: with one caller it would be inlined above.)
fn read_bytes(sheet: &[u8]) -> Result<Settings, Refusal>
    ensures { sheet_of result ≡ sheet_says sheet.now }
{
    Refusal::BadSheet.unless(!is_bad(sheet))?;
    read_entries(sheet)
}

// The grid of a call with this sheet and these sides, by the rule that the sheet says.
pub fn grid_of(said: Sheet, rows: u32, columns: u32) -> Grid
    ensures { result ≡ grid_said said rows columns }
{
    Grid {
        rows: rows as usize,
        columns: columns as usize,
        highest: said.rule == u32::from(Rule::Highest),
    }
}

// Copies n bytes of a sheet from `at` on to the front of a list. (By a loop: `copy_from_slice` needs memmove here, and the archive asks for memcpy and memset
// alone.)
fn copy_bytes(sheet: &[u8], at: usize, n: usize, list: &mut [u8])
    requires { (at + n ≤ length sheet.now) × (n ≤ length list.old) }
    ensures { list.new ≡ stores (λ i. get_or sheet.now (at + i) 0) 0 n list.old }
{
    for i in 0..n {
        list[i] = sheet[at + i];
    }
}

// Puts zeros from place n on. (By a loop: `fill` stores the last byte apart from the others, and a call for a sheet with no name takes 2 to 5 ns more.)
fn clear_from(list: &mut [u8], n: usize)
    requires { n ≤ length list.old }
    ensures { list.new ≡ stores (λ _. 0) n (length list.old - n) list.old }
{
    for i in n..list.len() {
        list[i] = 0;
    }
}

// Writes the bytes of a sheet from `at` on, as many as the list takes, and zeros after them. A name never has more; this need not know that.
fn put_name(sheet: &[u8], at: usize, name: &mut [u8])
    requires { (at ≤ length sheet.now) × (length name.old ≡ name_length) }
    ensures { name.new ≡ list_of (λ i. get_or sheet.now (at + i) 0) name_length }
{
    let n = (sheet.len() - at).min(NAME_LENGTH);
    copy_bytes(sheet, at, n, name);
    clear_from(name, n);
}

// The call: gives the rule and the name's length, and writes the name, with which a sheet ends. Refused: the list stays as it was.
pub fn settings(sheet: &[u8], name: &mut [u8]) -> Result<Settings, Refusal>
    ensures value { sheet_of result ≡ settings_answer sheet.now name.old }
    ensures name_after { name.new ≡ settings_name sheet.now name.old }
{
    let said = read_bytes(sheet)?;
    Refusal::BadListLength.unless(name.len() == NAME_LENGTH)?;
    put_name(sheet, sheet.len() - said.named as usize, name);
    Ok(said)
}
