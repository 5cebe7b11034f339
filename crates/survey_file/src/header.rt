// The bytes of a file before its heights: how many they are, what they say, and whether a read is turned away for them.
ghost use Rattle.std.specs.Prelude.{◌≡◌, ◌≤◌, length};
ghost use Rattle.surface.specs.SurveyFile.{version_in, header_for, spacings_in};
ghost use Rattle.surface.specs.Refusals.{verdict};
ghost use Rattle.surface.specs.Refused.{outcome};
ghost use Rattle.survey_file.specs.Layout.{least_size, header_rows};

use crate::posts_in;
use limits::is_spaced;
use surface::{Refusal, Spacings};
use words::half_at;

// The versions, which are the first byte, and how many bytes each has before the heights. The first ones up to the columns are alike.
pub(crate) const FIRST: u8 = 1;

pub(crate) const SECOND: u8 = 2;

pub(crate) const FIRST_HEADER: usize = 7;

pub(crate) const SECOND_HEADER: usize = 11;

// The spacings of a file that says none.
const METRE: u32 = 100;

// How many bytes stand before the heights. (The version is a byte of the file, told by one test here and one below.)
pub(crate) fn header_size(file: &[u8]) -> usize
    requires { least_size ≤ length file.now }
    ensures { result ≡ header_for (version_in file.now) }
{
    if file[0] == FIRST {
        return FIRST_HEADER;
    }
    SECOND_HEADER
}

// The spacings of the file.
pub(crate) fn spacings_in(file: &[u8]) -> Spacings
    requires least_size_in_bounds { least_size ≤ length file.now }
    requires file_in_bounds { header_for (version_in file.now) ≤ length file.now }
    ensures { result ≡ spacings_in file.now }
{
    if file[0] == FIRST {
        return Spacings {
            east: METRE,
            south: METRE,
        };
    }
    Spacings {
        east: half_at(file, 7),
        south: half_at(file, 9),
    }
}

// Rows 10, 11, 10 again, 1 and 15 of the table: the version is looked at before the bytes that only some versions have. Row 1 holds exactly where the file's
// plot can have no posts.
pub(crate) fn check_header(file: &[u8]) -> Result<(), Refusal>
    ensures { outcome result ≡ verdict (header_rows file.now) }
{
    if file.len() < FIRST_HEADER {
        return Err(Refusal::FileTooShort);
    }
    if (file[0] != FIRST) & (file[0] != SECOND) {
        return Err(Refusal::BadVersion);
    }
    let header = header_size(file);
    if file.len() < header {
        return Err(Refusal::FileTooShort);
    }
    if posts_in(file) == 0 {
        return Err(Refusal::BadSides);
    }
    if !is_spaced(spacings_in(file)) {
        return Err(Refusal::BadSpacing);
    }
    Ok(())
}
