// What a run can fail at, and what is told of it on standard error.

// Why nothing is printed, or not all.
#[derive(Clone, Copy)]
pub(crate) enum Failure {
    Usage,
    Sheet,
    Input,
    Output,
}

impl Failure {
    // The line that tells it.
    fn line(self) -> &'static [u8] {
        match self {
            Failure::Usage => b"usage: lister [--version] <plot.svy\n",
            Failure::Sheet => b"lister: plot.set cannot be read\n",
            Failure::Input => b"lister: standard input cannot be read\n",
            Failure::Output => b"lister: standard output cannot be written\n",
        }
    }
}

// Tells it on standard error. Where that fails there is nobody left to tell.
pub(crate) fn tell(rt: &HostRuntime, failure: Failure) {
    let _ = rt.stderr().write_all(failure.line());
}
