// Reading a survey file: whether it is turned away, and the heights that it holds.
ghost use Rattle.std.specs.Prelude.{◌≡◌, ◌≤◌, length};
ghost use Rattle.surface.specs.SurveyFile.{version_in, heights_in};
ghost use Rattle.surface.specs.Refusals.{read_verdict};
ghost use Rattle.surface.specs.Refused.{outcome};
ghost use Rattle.survey_file.specs.Layout.{least_size, height_at};

use crate::header::{check_header, header_size};
use crate::posts_in;
use surface::Refusal;
use tenths::{first_out, round, tenths_at};
use words::word_at;

// What a read is turned away for: the rows of the table about what stands before the heights, then rows 12, 3 and 4.
pub(crate) fn check_read(file: &[u8], heights: &[i32]) -> Result<(), Refusal>
    ensures { outcome result ≡ read_verdict file.now heights.now }
{
    check_header(file)?;
    let posts = posts_in(file);
    let before = header_size(file);
    let counted = before - 5 + 4 * posts;
    let stated = word_at(file, 1) as usize;
    if (stated != file.len() - 5) | (stated != counted) {
        return Err(Refusal::BadCount);
    }
    if heights.len() != posts {
        return Err(Refusal::BadListLength);
    }
    match first_out(file, before, posts) {
        Some(post) => Err(Refusal::HeightOutOfRange(post as u32)),
        None => Ok(()),
    }
}

// Fills the list with the heights that the file holds.
pub(crate) fn read_heights(file: &[u8], heights: &mut [i32])
    requires least_size_in_bounds { least_size ≤ length file.now }
    requires heights_in_bounds { height_at (version_in file.now) (length heights.old) ≤ length file.now }
    ensures { heights.new ≡ heights_in file.now (length heights.old) }
{
    let header = header_size(file);
    for (i, height) in heights.iter_mut().enumerate() {
        *height = round(tenths_at(file, header + 4 * i));
    }
}
