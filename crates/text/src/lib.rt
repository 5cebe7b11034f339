// The lines of the lister, one at a time. Each function writes at a place of a lent list, and gives the place after what it wrote.
#![tactic(auto)]

ghost use Rattle.std.specs.Prelude.{[], ◌∷◌, ◌+◌, ◌*◌, ◌≤◌, ◌<◌, length, map};
ghost use Rattle.surface.specs.Lister.{digits, decimal, text_line, end_name, refused_text};
ghost use Rattle.text.specs.Wrote.{line_room, Wrote, begun_line};

use surface::VIRTUAL_PIT;

fn put_byte(buffer: &mut [u8], at: usize, byte: u8) -> usize
    requires { at < length buffer.old }
    ensures { Wrote 1 buffer.old buffer.new at (byte ∷ []) result }
{
    buffer[at] = byte;
    at + 1
}

// The last `more` digits of a number, without leading zeros. A call for each digit, so that the first is written first. By hand: the library's `write!` says
// what it wrote only where it returns Ok, and no contract says that it does.
fn put_digits(buffer: &mut [u8], at: usize, more: usize, n: u32) -> usize
    requires { at + more ≤ length buffer.old }
    ensures { Wrote more buffer.old buffer.new at (digits more n) result }
{
    if more == 0 {
        return at;
    }
    if n < 10 {
        return put_byte(buffer, at, (48 + n) as u8);
    }
    let last = put_digits(buffer, at, more - 1, n / 10);
    put_byte(buffer, last, (48 + n % 10) as u8)
}

// A number in decimal.
fn put_decimal(buffer: &mut [u8], at: usize, n: u32) -> usize
    requires { at + 10 ≤ length buffer.old }
    ensures { Wrote 10 buffer.old buffer.new at (decimal n) result }
{
    put_digits(buffer, at, 10, n)
}

// A number as a field of a line, after a space.
fn put_field(buffer: &mut [u8], at: usize, n: u32) -> usize
    requires { at + 11 ≤ length buffer.old }
    ensures { Wrote 11 buffer.old buffer.new at (32 ∷ decimal n) result }
{
    let number = put_byte(buffer, at, b' ');
    put_decimal(buffer, number, n)
}

// The end of a line of the plot as a field: the post's number, or V for the virtual pit.
fn put_end(buffer: &mut [u8], at: usize, end: u32) -> usize
    requires { at + 11 ≤ length buffer.old }
    ensures { Wrote 11 buffer.old buffer.new at (32 ∷ end_name end) result }
{
    let pit = end as usize == VIRTUAL_PIT;
    if pit {
        let letter = put_byte(buffer, at, b' ');
        return put_byte(buffer, letter, b'V');
    }
    put_field(buffer, at, end)
}

// A letter, and numbers as the fields after it.
fn put_fields(buffer: &mut [u8], at: usize, letter: u8, numbers: &[u32]) -> usize
    requires { (length numbers.now ≤ 5) × (at + line_room ≤ length buffer.old) }
    ensures { Wrote (1 + 11 * length numbers.now) buffer.old buffer.new at (begun_line letter numbers.now) result }
{
    let mut next = put_byte(buffer, at, letter);
    for number in numbers {
        next = put_field(buffer, next, *number);
    }
    next
}

// A line of a letter and numbers.
fn put_numbers(buffer: &mut [u8], at: usize, letter: u8, numbers: &[u32]) -> usize
    requires { (length numbers.now ≤ 5) × (at + line_room ≤ length buffer.old) }
    ensures { Wrote line_room buffer.old buffer.new at (text_line letter (map decimal numbers.now)) result }
{
    let last = put_fields(buffer, at, letter, numbers);
    put_byte(buffer, last, b'\n')
}

// N, rows, columns, peaks, pits, saddles.
pub fn put_head(
    buffer: &mut [u8],
    at: usize,
    rows: u32,
    columns: u32,
    peaks: u32,
    pits: u32,
    saddles: u32,
) -> usize
    requires { at + line_room ≤ length buffer.old }
    ensures { Wrote line_room buffer.old buffer.new at (text_line 78 (decimal rows ∷ decimal columns ∷ decimal peaks ∷ decimal pits ∷ decimal saddles ∷ [])) result }
{
    put_numbers(buffer, at, b'N', &[rows, columns, peaks, pits, saddles])
}

// A water line, letter T, or a crest line, letter R: its saddle, run and end.
pub fn put_line(buffer: &mut [u8], at: usize, letter: u8, saddle: u32, run: u32, end: u32) -> usize
    requires { at + line_room ≤ length buffer.old }
    ensures { Wrote line_room buffer.old buffer.new at (text_line letter (decimal saddle ∷ decimal run ∷ end_name end ∷ [])) result }
{
    let next = put_fields(buffer, at, letter, &[saddle, run]);
    let last = put_end(buffer, next, end);
    put_byte(buffer, last, b'\n')
}

// A refusal: E, number, place.
pub fn put_refused(buffer: &mut [u8], at: usize, code: u32, place: u32) -> usize
    requires { at + line_room ≤ length buffer.old }
    ensures { Wrote line_room buffer.old buffer.new at (refused_text code place) result }
{
    put_numbers(buffer, at, b'E', &[code, place])
}
