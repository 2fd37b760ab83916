//! What a session tells of its run.
ghost use Rattle.std.specs.Prelude.{◌≡◌, true, OnOk, IfErr};
ghost use Rattle.bp_told.specs.Told.{NothingWaits, WritesAll};
ghost use Rattle.bp_floor.specs.Floors.{is_idle};
ghost use Rattle.bp_session.specs.inner.Outlets.{given_to, told_fault, served_fault, WritesTo};
ghost use Rattle.bp_session.specs.inner.Serving.{IsReady, ServesOn, BreaksServing, TellsAll, StopsTurning, KeepsRun, NothingUntold};

use crate::outlets::Outlets;
use crate::stop::Stop;
use bp_base::Sink;
use bp_core::Core;
use bp_told::{RunFault, Telling};
use std::alloc::Global;

/// Tells what came of the run since the last telling: its records, and then its lines.
pub(crate) fn tell<K: Sink, L: Sink>(
    alloc: Global,
    core: &mut Core,
    telling: &mut Telling,
    outlets: &mut Outlets<'_, '_, K, L>,
) -> Result<(), RunFault>
    requires ready { IsReady L.written core.old (given_to K.Sink outlets.old) telling.old }
    ensures serves { OnOk result (ServesOn L.written core.old (given_to K.Sink outlets.old)
        telling.old core.new (given_to K.Sink outlets.new) telling.new) }
    ensures all { OnOk result (is_idle core.old.arbiter.phase ≡ true → TellsAll L.written core.old
        (given_to K.Sink outlets.old) telling.old core.new (given_to K.Sink outlets.new)
        telling.new) }
    ensures breaks { IfErr result (BreaksServing L.written core.old (given_to K.Sink outlets.old)
        telling.old core.new (given_to K.Sink outlets.new) telling.new) }
    ensures untold { OnOk result (NothingUntold core.new telling.new) }
    ensures run { KeepsRun core.old core.new }
    ensures writes { WritesTo K.Sink L.Sink outlets.old outlets.new (told_fault result) }
{
    // For the proof: what the arbiter keeps.
    core.arbiter().keeps();
    let lines = core.take_lines();
    telling.tell(
        alloc,
        core.arbiter().records(),
        lines.as_slice(),
        outlets.out,
        outlets.log,
    )
}

/// Writes all that waits: what is for the log, and then the lines. Then nothing waits.
pub(crate) fn write<K: Sink, L: Sink>(
    telling: &mut Telling,
    outlets: &mut Outlets<'_, '_, K, L>,
) -> Result<(), Stop>
    ensures all { OnOk result (WritesAll L.written (given_to K.Sink outlets.old) telling.old
        (given_to K.Sink outlets.new) telling.new) }
    ensures stops { IfErr result (StopsTurning L.written (given_to K.Sink outlets.old) telling.old
        (given_to K.Sink outlets.new) telling.new) }
    ensures nothing { OnOk result (NothingWaits telling.new) }
    ensures kept { telling.new.kept ≡ telling.old.kept }
    ensures writes { WritesTo K.Sink L.Sink outlets.old outlets.new (served_fault result) }
{
    match outlets.flush(telling) {
        Ok(()) => Ok(()),
        Err(fault) => Err(Stop::Unwritten(fault)),
    }
}
