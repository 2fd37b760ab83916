//! The end of a view.
ghost use Rattle.std.specs.Prelude.{◌≡◌, ◌⊎◌, Option, List, ℕ, OnOk, OnErr, IsErrOf};
ghost use mathlib.Core.List.{IsPrefix};
ghost use Rattle.bp_view.specs.declared.summary.Summary.{Summary};
ghost use Rattle.bp_view.specs.Ends.{seen};
ghost use Rattle.bp_view.specs.Sinks.{written_to, KeepsSink, FailsSink};
ghost use Rattle.bp_view.specs.Watching.{EndsWatching, IsPartWatched, IsViewed};

use crate::told::Told;
use crate::watcher::Watcher;
use crate::watching::{LineFault, Watched, write_line};
use bp_base::Sink;
use std::alloc::Global;

/// After watching: the watcher learns what its shower told, whatever came of watching. Unless the output has
/// failed, the line of the last summary is written where it is not there.
pub fn catch_up<V: Sink>(
    alloc: Global,
    watched: Watched,
    watcher: &mut Watcher,
    told: Told<'_>,
    sink: &mut V,
) -> Result<(), LineFault>
    ensures longer { IsPrefix (seen watcher.old) (seen watcher.new) }
    ensures learns { ¬ IsErrOf result LineFault.Memory → seen watcher.new ≡ told.entry }
    ensures whole { OnOk result ((first : Summary) (before : Option (List ℕ)) →
        EndsWatching first (seen watcher.old) before (written_to V.Sink sink.old) watched →
        IsViewed first (seen watcher.new) before (written_to V.Sink sink.new)) }
    ensures part { OnErr result ((first : Summary) (before : Option (List ℕ)) →
        EndsWatching first (seen watcher.old) before (written_to V.Sink sink.old) watched →
        IsPartWatched first (seen watcher.new) before (written_to V.Sink sink.new)) }
    ensures cause { IsErrOf result LineFault.Write →
        (watched ≡ Watched.Write) ⊎ FailsSink V.Sink sink.old sink.new }
    ensures keeps { KeepsSink V.Sink sink.old sink.new }
{
    let last = watcher.last();
    watcher.learn(told)?;
    let summary = watcher.last();
    match watched {
        Watched::Write => Err(LineFault::Write),
        Watched::Memory => write_line(alloc, &summary, sink),
        Watched::All | Watched::Halted => {
            if summary.records <= last.records {
                return Ok(());
            }
            write_line(alloc, &summary, sink)
        }
    }
}
