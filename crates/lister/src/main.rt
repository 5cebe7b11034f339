// docs/SPECIFICATION.md, "Lister": prints the surface network of the survey file on standard input, by the settings sheet plot.set.
#![tactic(auto)]

mod arguments;
mod failures;
mod input;
mod output;

use arguments::{answer_arguments, has_arguments};
use failures::{Failure, tell};
use input::{read_input, read_sheet};
use output::print_file;

// The longest settings sheet, and one byte more: a sheet that is longer shows.
const SHEET_ROOM: usize = 43;

// The longest survey file, and one byte more.
const INPUT_ROOM: usize = 57612;

// Lists the plot of standard input.
fn list_plot(rt: &HostRuntime) -> Result<(), Failure> {
    let mut sheet = [0u8; SHEET_ROOM];
    let sheet_bytes = read_sheet(rt, &mut sheet).map_err(|_| Failure::Sheet)?;
    let mut file = [0u8; INPUT_ROOM];
    let bytes = read_input(&mut rt.stdin(), &mut file).map_err(|_| Failure::Input)?;
    print_file(rt, &sheet[..sheet_bytes], &file[..bytes]).map_err(|_| Failure::Output)
}

fn main(rt: HostRuntime) {
    let done = if has_arguments(&rt) {
        answer_arguments(&rt)
    } else {
        list_plot(&rt)
    };
    if let Err(failure) = done {
        tell(&rt, failure);
    }
}
