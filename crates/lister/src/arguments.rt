// The program's arguments. It takes none, or one that asks for its version.
use crate::failures::Failure;
use std::env::{Env, FillError};
use std::io;
use surface::{VERSION_MAJOR, VERSION_MINOR, VERSION_PATCH};

// The bytes of --version, and one more: an argument that is longer shows.
const WORD_ROOM: usize = 10;

// Whether there is an argument of this number; 0 is the program's own name.
fn has_argument(rt: &HostRuntime, number: usize) -> bool {
    !matches!(rt.arg(number, &mut []), Err(FillError::NotPresent))
}

// Whether there are arguments beside the program's own name.
pub(crate) fn has_arguments(rt: &HostRuntime) -> bool {
    has_argument(rt, 1)
}

// Whether there is one argument, the program's own name aside, and it is --version.
fn asks_version(rt: &HostRuntime) -> bool {
    let mut word = [0u8; WORD_ROOM];
    match rt.arg(1, &mut word) {
        Ok(bytes) => matches!(&word[..bytes], b"--version") && !has_argument(rt, 2),
        Err(_) => false,
    }
}

// Prints the version.
fn print_version(rt: &HostRuntime) -> io::Result<()> {
    println!(rt; "{VERSION_MAJOR}.{VERSION_MINOR}.{VERSION_PATCH}")
}

// What is done where there are arguments: the version is printed, or it is told how the program is used.
pub(crate) fn answer_arguments(rt: &HostRuntime) -> Result<(), Failure> {
    if asks_version(rt) {
        return print_version(rt).map_err(|_| Failure::Output);
    }
    Err(Failure::Usage)
}
