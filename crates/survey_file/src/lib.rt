// Survey files (docs/SPECIFICATION.md, "Survey file"): a file to heights in whole millimetres, and heights to a file.
#![tactic(auto)]

mod header;
mod reading;
mod writing;

ghost use Rattle.std.specs.Prelude.{◌≡◌, ◌≤◌};
ghost use Rattle.surface.specs.Plot.{plot, max_posts};
ghost use Rattle.surface.specs.Spacings.{spacings};
ghost use Rattle.surface.specs.Calls.{read_answer, read_heights, write_answer, write_file};
ghost use Rattle.surface.specs.Refused.{outcome};
ghost use Rattle.survey_file.specs.Told.{size_of};
ghost use Rattle.survey_file.specs.Layout.{plot_posts};

use header::{FIRST_HEADER, spacings_in};
use limits::is_plot;
use reading::{check_read, read_heights};
use surface::{Refusal, Spacings};
use words::wide;
use writing::{check_write, write_header, write_heights};

// How many posts the file's plot has, 0 where it can have none. (No Option: lists of this length are lent to read the file into.)
pub fn posts_in(file: &[u8]) -> usize
    ensures { (result ≡ plot_posts file.now) × (result ≤ max_posts) }
{
    if file.len() < FIRST_HEADER {
        return 0;
    }
    let rows = wide(file[5]);
    let columns = wide(file[6]);
    if is_plot(rows, columns) {
        return (rows * columns) as usize;
    }
    0
}

// The sides and the spacings of a plot that was read.
#[derive(Clone, Copy)]
pub struct Read {
    pub rows: u32,
    pub columns: u32,
    pub spacings: Spacings,
}

// Reads a file into the list. Refused: the list stays as it was.
pub fn read_survey(file: &[u8], heights: &mut [i32]) -> Result<Read, Refusal>
    ensures value { size_of result ≡ read_answer file.now heights.old }
    ensures heights_after { heights.new ≡ read_heights file.now heights.old }
{
    check_read(file, heights)?;
    read_heights(file, heights);
    Ok(Read {
        rows: wide(file[5]),
        columns: wide(file[6]),
        spacings: spacings_in(file),
    })
}

// Writes heights into a list of exactly the file's size, in version 2. Refused: the list stays as it was.
pub fn write_survey(
    rows: u32,
    columns: u32,
    east: u32,
    south: u32,
    heights: &[i32],
    file: &mut [u8],
) -> Result<(), Refusal>
    ensures value { outcome result ≡ write_answer (plot rows columns heights.now) (spacings east south) file.old }
    ensures file_after { file.new ≡ write_file (plot rows columns heights.now) (spacings east south) file.old }
{
    let spacings = Spacings { east, south };
    check_write(rows, columns, spacings, heights, file)?;
    write_header(rows, columns, spacings, file);
    write_heights(heights, file);
    Ok(())
}
