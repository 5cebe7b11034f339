// Writing a survey file: whether it is turned away, and what goes into it.
ghost use Rattle.std.specs.Prelude.{◌≡◌, true, ◌≤◌, length};
ghost use Rattle.std.proofs.lemmas.List.Edits.{sets};
ghost use Rattle.surface.specs.Lists.{all};
ghost use Rattle.surface.specs.Plot.{plot, is_height, Sides};
ghost use Rattle.surface.specs.SurveyFile.{header_for, filed_heights};
ghost use Rattle.surface.specs.Refusals.{write_verdict};
ghost use Rattle.surface.specs.Refused.{outcome};
ghost use Rattle.survey_file.specs.Layout.{written, header, height_at};

use crate::header::{SECOND, SECOND_HEADER};
use limits::{check_heights, check_spaced};
use surface::{Refusal, Spacings};
use tenths::filed;
use words::{put_half, put_word};

// What writing is turned away for: rows 1, 15, 2, 3 and 4 of the table, in that order.
pub(crate) fn check_write(
    rows: u32,
    columns: u32,
    spacings: Spacings,
    heights: &[i32],
    file: &[u8],
) -> Result<(), Refusal>
    ensures { outcome result ≡ write_verdict (plot rows columns heights.now) spacings file.now }
{
    check_spaced(rows, columns, spacings, heights)?;
    if file.len() != SECOND_HEADER + 4 * heights.len() {
        return Err(Refusal::BadListLength);
    }
    check_heights(heights)
}

// Writes the bytes before the heights.
pub(crate) fn write_header(rows: u32, columns: u32, spacings: Spacings, file: &mut [u8])
    requires sides { Sides rows columns }
    requires written_in_bounds { header_for written ≤ length file.old }
    ensures { file.new ≡ sets file.old 0 (header rows columns spacings) }
{
    file[0] = SECOND;
    put_word(file, 1, 6 + 4 * (rows * columns));
    file[5] = rows as u8;
    file[6] = columns as u8;
    put_half(file, 7, spacings.east);
    put_half(file, 9, spacings.south);
}

// Writes the heights after them.
pub(crate) fn write_heights(heights: &[i32], file: &mut [u8])
    requires heights_value { height_at written (length heights.now) ≡ length file.old }
    requires heights_value_2 { all is_height heights.now ≡ true }
    ensures { file.new ≡ sets file.old (header_for written) (filed_heights heights.now) }
{
    for (i, height) in heights.iter().enumerate() {
        put_word(file, SECOND_HEADER + 4 * i, filed(*height));
    }
}
