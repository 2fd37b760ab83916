//! A session of a script, and what it came to, told in one text.
use bp_base::{MemorySink, MemorySource, Sink, Source};
use bp_log::{Header, Line, Options, Parallelism, Strategy, line_of};
use bp_script::accept;
use bp_session::{Ending, Report, Session};
use std::alloc::Global;
use std::sync::Wait;
use std::test::Fail;
use std::thread::Threads;
use std::time::Clock;

/// As much as the outputs of the tests hold.
pub const ROOM: u64 = 1_000_000;

/// What a session came to: how it ended, how many records it has, how many inputs came back, and what was
/// printed and kept.
#[derive(Drop)]
pub struct Came {
    pub end: String,
    pub back: usize,
    pub printed: String,
    pub log: String,
}

/// The header of a run with this many injectors, which waits for them or does not.
pub fn header(alloc: Global, script: &str, injectors: u32, waits: bool) -> Result<Header, Fail> {
    let options = Options::new(Strategy::Simple, 0, 1_000_000, 100_000, injectors).ok_or(
        "no options",
    )?;
    let options = options.with_wait(waits);
    Ok(Header::new(options, script.as_bytes().to_vec(alloc)?).ok_or("a long script")?)
}

/// A source of this text, whose reads of these numbers fail, counted from 1.
pub fn source(alloc: Global, text: &str, fails: &[u64]) -> Result<MemorySource, Fail> {
    Ok(MemorySource::new(text.as_bytes().to_vec(alloc)?, fails.to_vec(alloc)?))
}

/// An output whose writes of these numbers fail, counted from 1.
pub fn sink(alloc: Global, fails: &[u64]) -> Result<MemorySink, Fail> {
    Ok(MemorySink::new(alloc, ROOM, fails.to_vec(alloc)?)?)
}

/// What was written.
pub fn written(sink: MemorySink) -> Result<String, Fail> {
    let (bytes, _faults) = sink.into_parts();
    Ok(String::from_utf8(bytes).ok().ok_or("no text")?)
}

/// How a session ended, in a word or two.
pub fn ending(alloc: Global, report: Report) -> Result<String, Fail> {
    let Report { end, records: _ } = report;
    let text = match end {
        Ending::Verdict(verdict) => line_of(alloc, &Line::Verdict(verdict))?
            .as_str()
            .to_string(alloc)?,
        Ending::Read(number) => format!(in alloc; "read {number}")?,
        Ending::Write => "write".to_string(alloc)?,
        Ending::LogWrite => "log write".to_string(alloc)?,
        Ending::Memory => "memory".to_string(alloc)?,
    };
    Ok(text)
}

/// A session of the script with these inputs, by this many workers and slices, over this output and this
/// log, which waits for its injectors.
pub fn ends_as<S: Source + Send + Drop, K: Sink, R: Threads + Wait + Sync + Clock>(
    rt: &R,
    alloc: Global,
    script: &str,
    parallelism: (u32, u64),
    inputs: Vec<S>,
    out: &mut K,
    log: &mut Option<MemorySink>,
) -> Result<(String, usize), Fail> {
    ends_waiting(rt, alloc, script, true, parallelism, inputs, out, log)
}

/// The same, where it waits for its injectors or does not.
pub fn ends_waiting<S: Source + Send + Drop, K: Sink, R: Threads + Wait + Sync + Clock>(
    rt: &R,
    alloc: Global,
    script: &str,
    waits: bool,
    parallelism: (u32, u64),
    inputs: Vec<S>,
    out: &mut K,
    log: &mut Option<MemorySink>,
) -> Result<(String, usize), Fail> {
    let program = accept(alloc, script.as_bytes())?;
    let header = header(alloc, script, inputs.len().min(16) as u32, waits)?;
    if header.options().injectors() as usize != inputs.len() {
        return Err(Fail::new("more inputs than injectors"));
    }
    let parallelism = Parallelism::new(parallelism.0, parallelism.1).ok_or("no numbers")?;
    let (report, back) = Session::run(rt, alloc, program, &header, parallelism, inputs, out, log);
    Ok((ending(alloc, report)?, back.len()))
}

/// The same over memory, of a run that waits for its injectors.
pub fn told<R: Threads + Wait + Sync + Clock>(
    rt: &R,
    alloc: Global,
    script: &str,
    parallelism: (u32, u64),
    inputs: Vec<MemorySource>,
    out_fails: &[u64],
    log_fails: &[u64],
) -> Result<Came, Fail> {
    told_waiting(
        rt,
        alloc,
        script,
        true,
        parallelism,
        inputs,
        out_fails,
        log_fails,
    )
}

/// The same, where it waits for its injectors or does not.
pub fn told_waiting<R: Threads + Wait + Sync + Clock>(
    rt: &R,
    alloc: Global,
    script: &str,
    waits: bool,
    parallelism: (u32, u64),
    inputs: Vec<MemorySource>,
    out_fails: &[u64],
    log_fails: &[u64],
) -> Result<Came, Fail> {
    let mut out = sink(alloc, out_fails)?;
    let mut log = Some(sink(alloc, log_fails)?);
    let (end, back) = ends_waiting(
        rt,
        alloc,
        script,
        waits,
        parallelism,
        inputs,
        &mut out,
        &mut log,
    )?;
    let log = match log {
        Some(log) => written(log)?,
        None => String::new(alloc),
    };
    Ok(Came {
        end,
        back,
        printed: written(out)?,
        log,
    })
}
