//! The run of the large program, which the command measures.
ghost use Rattle.std.specs.Prelude.{◌≡◌, ◌==◌, ◌≤◌, ◌++◌, Some, IfOk, IsSome, codes, count_by, decimal, string_bytes};
ghost use mathlib.Core.List.{IsPrefix};
ghost use Rattle.bp_code.specs.Code.{records_alone, text_alone};
ghost use Rattle.bp_log.specs.Options.{default_options};
ghost use Rattle.bp_args.specs.declared.command.Command.TheVariants as command;
ghost use Rattle.bp_cli.specs.inner.Outcomes.{ended_of};
ghost use Rattle.bp_cli.specs.Endings.{EndsIn};
ghost use Rattle.bp_cli.specs.Large.{is_selection as selects, large_line, IsOneRun};
ghost use Rattle.bp_cli.specs.inner.Measured.{IsPrintedWhole, printing};
ghost use Rattle.bp_cli.specs.Outside.{Outside};

use crate::conclusion::Conclusion;
use crate::ended::Ended;
use bp_base::{MemorySink, MemorySource, Sink, write_all};
use bp_large::large_program;
use bp_log::{Header, Memory, Options, Parallelism, Record};
use bp_session::{Ending, Report, Session};
use js_program::Program;
use std::alloc::Global;
use std::sync::Wait;
use std::thread::Threads;
use std::time::Clock;

/// Room for the text of the largest run, in bytes.
const ROOM: u64 = 400_000;

/// Whether an event was selected.
fn is_selection(entry: &Record) -> bool
    ensures { result ≡ selects entry.now }
{
    matches!(entry, Record::Sel(_))
}

/// How many events were selected.
fn selections(records: &[Record]) -> usize
    ensures { result ≡ count_by selects records.now }
{
    let mut count = 0;
    for entry in records {
        if is_selection(entry) {
            count += 1;
        }
    }
    count
}

/// How many lines the text has.
fn newlines(text: &[u8]) -> usize
    ensures { result ≡ count_by (λ byte. byte == 10) text.now }
{
    text.iter().filter(|byte| **byte == b'\n').count()
}

/// How many lines and how many bytes.
fn sizes_of(alloc: Global, lines: usize, bytes: usize) -> Result<String, Memory>
    ensures { IfOk result
        (λ s. string_bytes s ≡ decimal lines ++ (codes " bytes " ++ (decimal bytes ++ codes "\n"))) }
{
    format!(in alloc; "{lines} bytes {bytes}\n")
}

/// The line of a run of the program of this many b-threads.
#[tactic(auto, unfolding(crate::specs::Large::large_line))]
fn line_of(alloc: Global, count: u32, records: &[Record], text: &[u8]) -> Result<String, Memory>
    ensures { IfOk result (λ s. string_bytes s ≡ large_line count records.now text.now) }
{
    let events = selections(records);
    let sizes = sizes_of(alloc, newlines(text), text.len())?;
    let sizes = sizes.as_str();
    format!(in alloc; "large {count} events {events} lines {sizes}")
}

/// Runs the program under the default options, and keeps its text: what its run came to, and the
/// text. If there is no room for the text, the run ends as if its output had failed.
fn run_aside<R: Threads + Wait + Sync + Clock>(
    rt: &R,
    alloc: Global,
    program: Program,
) -> Result<(Report, MemorySink), Memory>
    ensures begins { IfOk result
        (λ p. IsPrefix p.0.records (records_alone program default_options)) }
    ensures one_run { IfOk result (λ p. IsOneRun program p.0.records (ended_of p.0.end)) }
    ensures story { IsSome (text_alone program default_options) }
    ensures text { IfOk result
        (λ p. IsPrintedWhole program p.1.written (ended_of p.0.end)) }
{
    let mut sink = MemorySink::new(alloc, ROOM, Vec::new(alloc))?;
    let Some(header) = Header::new(Options::defaults(), Vec::new(alloc)) else {
        unreachable!()
    };
    let inputs: Vec<MemorySource> = Vec::new(alloc);
    let mut log: Option<MemorySink> = None;
    let parallelism = Parallelism::defaults();
    let out = &mut sink;
    let (report, _) = Session::run(
        rt,
        alloc,
        program,
        &header,
        parallelism,
        inputs,
        out,
        &mut log,
    );
    Ok((report, sink))
}

/// Runs the program of this many b-threads, and prints one line on what its run comes to.
pub(crate) fn measure_large<R: Threads + Wait + Sync + Clock, K: Sink>(
    rt: &R,
    alloc: Global,
    count: u32,
    out: &mut K,
) -> Ended
    ensures ends { (o : Outside) → EndsIn (Some (command.Large count)) result.records
        (printing o (K.written out.old) (K.faults out.old))
        (printing o (K.written out.new) (K.faults out.new)) result.conclusion }
    ensures counts { K.faults out.old ≤ K.faults out.new }
{
    let Ok(program) = large_program(alloc, count) else {
        return Ended::without_run(alloc, Conclusion::NoMemory);
    };
    let Ok((report, text)) = run_aside(rt, alloc, program) else {
        return Ended::without_run(alloc, Conclusion::NoMemory);
    };
    let Report { end, records } = report;
    let Ending::Verdict(verdict) = end else {
        return Ended {
            conclusion: Conclusion::NoMemory,
            records,
        };
    };
    let Ok(line) = line_of(alloc, count, records.as_slice(), text.written()) else {
        return Ended {
            conclusion: Conclusion::NoMemory,
            records,
        };
    };
    let conclusion = match write_all(out, line.as_str().as_bytes()) {
        Ok(()) => Conclusion::Ran(verdict),
        Err(_) => Conclusion::NotWritten,
    };
    Ended {
        conclusion,
        records,
    }
}
