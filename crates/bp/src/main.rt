//! `bp`: runs behavioral programs.
#![tactic(auto)]

use bp_cli::command;
use bp_system::{Process, StreamSink, leave};
use std::io;
use std::process::ExitCode;

/// Runs the command that the words name, shows its note, and ends with its status.
fn main(rt: HostRuntime) -> ExitCode {
    let mut process = match Process::begin(&rt) {
        Ok(process) => process,
        Err(error) => return leave(&rt, error.status(), error.note()),
    };
    let mut out = StreamSink::new(io::writer(&rt));
    let status = command(
        &rt,
        rt.alloc(),
        &process.words,
        &mut process.world,
        &mut out,
    );
    leave(&rt, status.code, status.note.as_str())
}
