// docs/SPECIFICATION.md, "Lister": the text that it prints. Here is its start: the sheet and the file are read, the plot surveyed, its dales and hills found,
// and the first line written into a lent list of bytes. What is left then are the lines of `saddle_lines`.
#![tactic(auto)]

ghost use Rattle.std.specs.Prelude.{◌≡◌, ◌≤◌, length, MatchResult};
ghost use Rattle.surface.specs.Refused.{refused};
ghost use Rattle.surface.specs.Lister.{refused_text, listing};
ghost use Rattle.text.specs.Wrote.{line_room};
ghost use Rattle.listing.specs.First.{Lent, Refuses, Goes, Begins, first_line};

use parts::dales_and_hills;
use settings::{grid_of, read_sheet};
use surface::{Answer, Grid, Refusal, Spacings};
use survey::survey;
use survey_file::read_survey;
use tally::Tally;
use text::{put_head, put_refused};

// The plot that was read: its grid and its spacings.
#[derive(Clone, Copy)]
pub struct Read {
    pub grid: Grid,
    pub spacings: Spacings,
}

// How many bytes are written, and the plot, none where the sheet or the file was refused.
#[derive(Clone, Copy)]
pub struct Begun {
    pub bytes: usize,
    pub plot: Option<Read>,
}

// What the first line tells of a plot, and the plot.
#[derive(Clone, Copy)]
pub struct Surveyed {
    pub rows: u32,
    pub columns: u32,
    pub counts: Tally,
    pub plot: Read,
}

// Reads the sheet and the file, surveys the plot and finds its dales and hills.
fn survey_plot(
    sheet: &[u8],
    file: &[u8],
    heights: &mut [i32],
    marks: &mut [u8],
    dales: &mut [u16],
    hills: &mut [u16],
) -> Result<Surveyed, Refusal>
    requires { Lent file.now heights.old marks.old dales.old hills.old }
    ensures { MatchResult result
        (λ s. Goes (listing sheet.now file.now) heights.new marks.new dales.new hills.new (first_line s) s.plot)
        (λ why. refused_text (refused why).code (refused why).place ≡ listing sheet.now file.now) }
{
    let said = read_sheet(sheet)?;
    let read = read_survey(file, heights)?;
    let rows = read.rows;
    let columns = read.columns;
    let spacings = read.spacings;
    let east = spacings.east;
    let south = spacings.south;
    let counts = survey(sheet, rows, columns, heights, marks)?;
    dales_and_hills(sheet, rows, columns, east, south, heights, dales, hills)?;
    let plot = Read {
        grid: grid_of(said.into(), rows, columns),
        spacings,
    };
    Ok(Surveyed {
        rows,
        columns,
        counts,
        plot,
    })
}

// Writes the E line of a refusal.
fn put_refusal(why: Refusal, out: &mut [u8]) -> Begun
    requires { line_room ≤ length out.old }
    ensures { Refuses (refused_text (refused why).code (refused why).place) out.new result }
{
    let Answer { code, place } = why.into();
    Begun {
        bytes: put_refused(out, 0, code, place),
        plot: None,
    }
}

// Writes the N line, or the E line where the sheet or the file is refused. The lists are as long as the plot has posts.
pub fn put_first(
    sheet: &[u8],
    file: &[u8],
    heights: &mut [i32],
    marks: &mut [u8],
    dales: &mut [u16],
    hills: &mut [u16],
    out: &mut [u8],
) -> Begun
    requires { Lent file.now heights.old marks.old dales.old hills.old × (line_room ≤ length out.old) }
    ensures { Begins (listing sheet.now file.now) heights.new marks.new dales.new hills.new out.new result }
{
    match survey_plot(sheet, file, heights, marks, dales, hills) {
        Ok(
            Surveyed {
                rows,
                columns,
                counts,
                plot,
            },
        ) => Begun {
            bytes: put_head(
                out,
                0,
                rows,
                columns,
                counts.peaks,
                counts.pits,
                counts.saddles,
            ),
            plot: Some(plot),
        },
        Err(why) => put_refusal(why, out),
    }
}
