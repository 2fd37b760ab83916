//! The standard streams.
use std::fs::File;
use std::io;
use std::rt::Files;

/// What stands for a standard stream that is closed.
const NOTHING: &str = "/dev/null";

/// The standard streams, each of which is open: one that was closed when the program began is as `/dev/null`.
///
/// The system gives a file that is opened the lowest number that is free, and the streams have the lowest three. So
/// without this, the first file of a program whose output is closed would be taken for its output.
#[derive(Drop)]
pub(crate) struct StandardStreams {
    _first: File,
    _second: File,
    _third: File,
}

impl StandardStreams {
    /// Opens those that are closed. To be called before anything else is opened.
    pub(crate) fn occupy<R: Files<File = File>>(rt: &R) -> io::Result<StandardStreams> {
        let mut options = File::options();
        options.read(true).write(true);
        Ok(StandardStreams {
            _first: options.open(rt, NOTHING)?,
            _second: options.open(rt, NOTHING)?,
            _third: options.open(rt, NOTHING)?,
        })
    }
}
