//! What a session came to.

use bp_log::{Records, Verdict};

/// How a session ended.
#[derive(Drop)]
pub enum Ending {
    /// The run came to its verdict.
    Verdict(Verdict),
    /// The source of this injector failed, counted from 0.
    Read(u32),
    /// The output failed.
    Write,
    /// The log failed.
    LogWrite,
    /// Out of memory.
    Memory,
}

/// What a session came to.
#[derive(Drop)]
pub struct Report {
    /// How it ended.
    pub end: Ending,
    /// The records of its run, in order, of which the clauses of `Session::run` say what was printed, logged
    /// and heard. There are none if memory ran out before the run began.
    pub records: Records,
}
