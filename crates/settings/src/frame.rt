// The frame of a settings sheet: its bytes, and whether its entries end where it does.
ghost use Rattle.std.specs.Prelude.{◌≡◌, ◌-◌, ◌≤◌, eqb, length, get_or};
ghost use Rattle.surface.specs.Settings.{entries_of, extent, is_bad_sheet};
ghost use Rattle.settings.specs.Walk.{header_size};

use words::word_at;

// The first byte of a sheet, and how many bytes stand before its entries.
const VERSION: u8 = 1;

pub(crate) const HEADER: usize = 5;

// The byte at place i, 0 past the end.
pub(crate) fn byte_at(sheet: &[u8], i: usize) -> u8
    ensures { result ≡ get_or sheet.now i 0 }
{
    sheet.get(i).copied().unwrap_or(0)
}

// Whether the entries end exactly at the sheet's end.
fn is_whole(sheet: &[u8]) -> bool
    requires { header_size ≤ length sheet.now }
    ensures { result ≡ eqb (extent (entries_of sheet.now)) (length sheet.now - header_size) }
{
    let mut at = HEADER;
    // (each entry is as long as it says: no count by one)
    while at < sheet.len() {
        at = at + 2 + byte_at(sheet, at + 1) as usize;
    }
    at == sheet.len()
}

// Whether a sheet is bad as a whole; no sheet is not.
pub(crate) fn is_bad(sheet: &[u8]) -> bool
    ensures { result ≡ is_bad_sheet sheet.now }
{
    if sheet.len() < HEADER {
        return sheet.len() != 0;
    }
    if (sheet[0] != VERSION) | (word_at(sheet, 1) as usize != sheet.len() - HEADER) {
        return true;
    }
    !is_whole(sheet)
}
