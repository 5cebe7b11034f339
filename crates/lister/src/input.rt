// Reading standard input, and the settings sheet beside it.
ghost use Rattle.std.specs.Prelude.{◌≤◌, length, IfOk};

use std::io::{ErrorKind, Read};
use std::{fs, io};

// Reads to the end of what `from` reads, or until the list is full, and gives how many bytes were read.
pub(crate) fn read_input<R: Read>(from: &mut R, file: &mut [u8]) -> io::Result<usize>
    ensures { IfOk result (λ bytes. bytes ≤ length file.new) }
{
    let mut bytes = 0;
    // (a read gives any number of bytes: no count by one)
    while bytes < file.len() {
        match from.read(&mut file[bytes..])? {
            0 => break,
            got => bytes += got,
        }
    }
    Ok(bytes)
}

// Reads the settings sheet, plot.set in the folder that the program runs in. Only a file that is not there is no sheet: a plot that was drawn by another
// rule than the sheet's would be a wrong one.
pub(crate) fn read_sheet(rt: &HostRuntime, sheet: &mut [u8]) -> io::Result<usize>
    ensures { IfOk result (λ bytes. bytes ≤ length sheet.new) }
{
    match fs::open(rt, "plot.set") {
        Ok(mut from) => read_input(&mut from, sheet),
        Err(e) if e.kind() == ErrorKind::NotFound => Ok(0),
        Err(e) => Err(e),
    }
}
