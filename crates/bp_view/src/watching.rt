//! Watching: the lines of what is seen are written as it comes.
ghost use Rattle.std.specs.Prelude.{◌≡◌, ◌≤◌, Some, true, false, IfOk, OnOk, IfErr, IsErrOf};
ghost use mathlib.Core.List.{IsPrefix};
ghost use Rattle.bp_base.specs.Counts.{Rose};
ghost use Rattle.bp_base.specs.Pieces.{Appends, AppendsFront};
ghost use Rattle.bp_view.specs.Ends.{seen};
ghost use Rattle.bp_view.specs.Growing.{last_of};
ghost use Rattle.bp_view.specs.Lines.{summary_line};
ghost use Rattle.bp_view.specs.Sinks.{written_to, KeepsSink, FailsSink};
ghost use Rattle.bp_view.specs.Watching.{EndsWatching};
ghost use Rattle.bp_view.specs.inner.Going.{WatchesOn, BreaksWatching, broken_by};

use crate::lines::summary_line;
use crate::summary::Summary;
use crate::watcher::Watcher;
use bp_base::{Failed, Sink, write_all};
use bp_lanes::Wake;
use std::alloc::{AllocError, Global};
use std::sync::Wait;
use std::thread::Threads;
use thiserror::Error;

/// How watching ended.
#[derive(Clone, Copy, PartialEq, Eq)]
pub enum Watched {
    /// The line of a summary that is over was written.
    All,
    /// The output failed.
    Write,
    /// Out of memory.
    Memory,
    /// It was halted.
    Halted,
}

/// Why a line was not written.
#[derive(Clone, Copy, Debug, PartialEq, Eq, Error)]
pub enum LineFault {
    /// The output failed.
    #[error("the output failed")]
    Write,
    /// No memory was left.
    #[error("no memory was left")]
    Memory,
}

impl From<AllocError> for LineFault {
    ghost use Rattle.std.specs.Prelude.{◌≡◌};
    ghost use Rattle.bp_view.specs.declared.watching.LineFault.TheVariants.{Memory};

    ghost from_gives = { λ _ e. e ≡ Memory };

    fn from(_: AllocError) -> LineFault {
        LineFault::Memory
    }
}

impl From<Failed> for LineFault {
    ghost use Rattle.std.specs.Prelude.{◌≡◌};
    ghost use Rattle.bp_view.specs.declared.watching.LineFault.TheVariants.{Write};

    ghost from_gives = { λ _ e. e ≡ Write };

    fn from(_: Failed) -> LineFault {
        LineFault::Write
    }
}

/// Writes the line of a summary.
pub fn write_line<V: Sink>(alloc: Global, summary: &Summary, sink: &mut V) -> Result<(), LineFault>
    ensures whole { OnOk result (Appends (written_to V.Sink sink.old) (summary_line summary.now)
        (written_to V.Sink sink.new)) }
    ensures front { IsErrOf result LineFault.Write → AppendsFront (written_to V.Sink sink.old)
        (summary_line summary.now) (written_to V.Sink sink.new) }
    ensures nothing { IsErrOf result LineFault.Memory →
        written_to V.Sink sink.new ≡ written_to V.Sink sink.old }
    ensures cause { IsErrOf result LineFault.Write → FailsSink V.Sink sink.old sink.new }
    ensures keeps { KeepsSink V.Sink sink.old sink.new }
{
    let line = summary_line(alloc, summary)?;
    write_all(sink, line.as_str().as_bytes())?;
    Ok(())
}

/// Looks, and writes the line of what is seen last if it has more records than what was seen before. True
/// if that is over.
fn write_next<V: Sink>(
    alloc: Global,
    watcher: &mut Watcher,
    sink: &mut V,
) -> Result<bool, LineFault>
    ensures longer { IsPrefix (seen watcher.old) (seen watcher.new) }
    ensures goes_on { IfOk result (λ over. WatchesOn (seen watcher.old) (written_to V.Sink sink.old)
        (seen watcher.new) (written_to V.Sink sink.new) over) }
    ensures breaks { IfErr result (λ f. BreaksWatching (seen watcher.old)
        (written_to V.Sink sink.old) (seen watcher.new) (written_to V.Sink sink.new) f) }
    ensures cause { IsErrOf result LineFault.Write → FailsSink V.Sink sink.old sink.new }
    ensures keeps { KeepsSink V.Sink sink.old sink.new }
{
    let last = watcher.last();
    let summary = watcher.look();
    if summary.records <= last.records {
        return Ok(false);
    }
    match write_line(alloc, &summary, sink) {
        Ok(()) => Ok(summary.over),
        Err(fault) => Err(fault),
    }
}

/// How watching ends where a line was not written.
fn broken_by(fault: LineFault) -> Watched
    ensures { result ≡ broken_by fault }
{
    match fault {
        LineFault::Write => Watched::Write,
        LineFault::Memory => Watched::Memory,
    }
}

/// Looks again and again, waiting between looks, and writes the line of what is seen last each time that
/// it has more records than what was seen before. It begins after the line of what was seen before, and ends
/// after the line of a summary that is over, or where it is halted.
pub fn watch<V: Sink, W: Wake, R: Threads + Wait + Sync>(
    rt: &R,
    alloc: Global,
    watcher: &mut Watcher,
    sink: &mut V,
    wake: &mut W,
) -> Watched
    ensures longer { IsPrefix (seen watcher.old) (seen watcher.new) }
    ensures ends { (first : Summary) → last_of (seen watcher.old) ≡ Some first →
        EndsWatching first (seen watcher.new) (written_to V.Sink sink.old)
        (written_to V.Sink sink.new) result }
    ensures cause_write { result ≡ Watched.Write → FailsSink V.Sink sink.old sink.new }
    ensures cause_halted { result ≡ Watched.Halted → Rose (W.halts wake.old) (W.halts wake.new) }
    ensures keeps { KeepsSink V.Sink sink.old sink.new }
    ensures halts { W.halts wake.old ≤ W.halts wake.new }
    ensures orders { W.orders wake.new ≡ W.orders wake.old }
{
    for _ in rt.forever() {
        match write_next(alloc, watcher, sink) {
            Ok(true) => return Watched::All,
            Ok(false) => {}
            Err(fault) => return broken_by(fault),
        }
        if wake.halted(rt) {
            return Watched::Halted;
        }
        wake.wait(rt);
    }
    unreachable!()
}
