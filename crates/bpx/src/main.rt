//! `bpx`: says what of behavioral programs is to be known beside their runs.
#![tactic(auto)]

use bp_loading::NO_MEMORY;
use bp_system::{Process, StreamSink, leave};
use bpx_cli::answer;
use std::io;
use std::process::ExitCode;

/// Answers what the words ask for, shows the note of the end, and ends with its status.
fn main(rt: HostRuntime) -> ExitCode {
    let mut process = match Process::begin(&rt) {
        Ok(process) => process,
        Err(error) => return leave(&rt, error.status(), error.note()),
    };
    let mut out = StreamSink::new(io::writer(&rt));
    let end = answer(
        &rt,
        rt.alloc(),
        &process.words,
        &mut process.world,
        &mut out,
    );
    match end.note(rt.alloc()) {
        Ok(note) => leave(&rt, end.status(), note.as_str()),
        Err(_) => leave(&rt, NO_MEMORY, ""),
    }
}
