// Printing a listing.
ghost use Rattle.std.specs.Prelude.{◌≤◌, length};
ghost use Rattle.surface.specs.Plot.{plot_of};
ghost use Rattle.saddle_lines.specs.Lines.{post_room, Known};
ghost use Rattle.listing.specs.First.{Lent};

use listing::{Read, put_first};
use saddle_lines::put_posts;
use std::io;
use surface::{Grid, MAX_POSTS, Spacings};
use survey_file::posts_in;

// Room for the lines of many posts, so that few calls write them.
const OUTPUT_ROOM: usize = 65536;

// Prints the lines of all posts, a full buffer at a time.
fn print_posts(
    rt: &impl Print,
    heights: &[i32],
    grid: Grid,
    spacings: Spacings,
    marks: &[u8],
    dales: &[u16],
    hills: &[u16],
    buffer: &mut [u8],
) -> io::Result<()>
    requires { Known (plot_of grid heights.now) spacings marks.now dales.now hills.now × (post_room ≤ length buffer.old) }
{
    let posts = grid.rows * grid.columns;
    let mut post = 0;
    // (each buffer takes as many posts as it has room for: no count by one)
    while post < posts {
        let filled = put_posts(heights, grid, spacings, marks, dales, hills, post, buffer);
        let bytes = filled.bytes;
        rt.write_all(&buffer[..bytes])?;
        post = filled.post;
    }
    Ok(())
}

// Prints the listing of a sheet and a file, with lists lent for its plot.
fn print_listing(
    rt: &impl Print,
    sheet: &[u8],
    file: &[u8],
    heights: &mut [i32],
    marks: &mut [u8],
    dales: &mut [u16],
    hills: &mut [u16],
    buffer: &mut [u8],
) -> io::Result<()>
    requires { Lent file.now heights.old marks.old dales.old hills.old × (post_room ≤ length buffer.old) }
{
    let begun = put_first(sheet, file, heights, marks, dales, hills, buffer);
    let bytes = begun.bytes;
    rt.write_all(&buffer[..bytes])?;
    match begun.plot {
        Some(Read { grid, spacings }) => {
            print_posts(rt, heights, grid, spacings, marks, dales, hills, buffer)
        }
        None => Ok(()),
    }
}

// Prints the listing of a sheet and a file. Its plot may be as large as any.
pub(crate) fn print_file(rt: &impl Print, sheet: &[u8], file: &[u8]) -> io::Result<()> {
    let mut heights = [0i32; MAX_POSTS];
    let mut marks = [0u8; MAX_POSTS];
    let mut dales = [0u16; MAX_POSTS];
    let mut hills = [0u16; MAX_POSTS];
    let mut buffer = [0u8; OUTPUT_ROOM];
    let posts = posts_in(file);
    print_listing(
        rt,
        sheet,
        file,
        &mut heights[..posts],
        &mut marks[..posts],
        &mut dales[..posts],
        &mut hills[..posts],
        &mut buffer,
    )
}
