//! The loop that serves a session.
ghost use Rattle.std.specs.Prelude.{◌≡◌, List, Some, false, IfOk, IfErr, IsTrue, OnOk, OnErr};
ghost use Rattle.std.specs.List.{list_any};
ghost use Rattle.js_meaning.specs.Bodies.{Origin};
ghost use Rattle.bp_log.specs.Records.{verdict_of};
ghost use Rattle.bp_log.specs.declared.trace.Line.{Line};
ghost use Rattle.bp_steps.specs.declared.step.CoreStep.TheVariants as step;
ghost use Rattle.bp_steps.specs.Steps.{Moment};
ghost use Rattle.bp_arbiter.specs.Arbiters.{coming};
ghost use Rattle.bp_arbiter.specs.Pick.{picked_of};
ghost use Rattle.bp_floor.specs.declared.phase.Phase.TheVariants as phase;
ghost use Rattle.bp_core.specs.Cores.{IsCoreAt, KeepsProgram, Makes};
ghost use Rattle.bp_told.specs.Told.{NothingWaits, WritesAll};
ghost use Rattle.bp_session.specs.inner.Readings.{Pairs, GoesOnAs};
ghost use Rattle.bp_session.specs.inner.Hearing.{AreAsHeard, AreHeardOut, HearOn, CanServe};
ghost use Rattle.bp_session.specs.inner.Turning.{turns_here, MakeTurns, IsWaiting};
ghost use Rattle.bp_session.specs.inner.Outlets.{given_to, told_fault, served_fault, WritesTo};
ghost use Rattle.bp_session.specs.inner.Serving.{IsReady, ServesOn, BreaksServing, IsToldStill, StopsServing, StopsTurning, TellsAll, WritesRun, LeadsOn, CutsAt, KeepsItems, NothingUntold, StaysThere};
ghost use Rattle.bp_turns.specs.Settled.{IsSomewhereHere, IsSettled};

use crate::calling::Calls;
use crate::hearing::hear_all;
use crate::outlets::Outlets;
use crate::reading::Reading;
use crate::showing::Shows;
use crate::stop::Stop;
use crate::telling::{tell, write};
use crate::turning::{some_turn_here, turn_all_here};
use crate::written::Written;
use bp_base::{Memory, Sink, Source};
use bp_core::{Core, Phase, Picked};
use bp_log::{Parallelism, Verdict};
use bp_told::{RunFault, Telling};
use bp_turns::{Carrier, Workers, settle_core};
use std::alloc::Global;
use std::sync::Wait;
use std::thread::Threads;

/// Writes what waits to be written, and then shows the run as it stands.
fn write_and_show<R: Threads + Wait + Sync, K: Sink, L: Sink, V: Shows>(
    rt: &R,
    alloc: Global,
    core: &Core,
    telling: &mut Telling,
    outlets: &mut Outlets<'_, '_, K, L>,
    shows: &mut V,
) -> Result<(), Stop>
    requires untold { NothingUntold core.now telling.old }
    ensures all { OnOk result (WritesAll L.written (given_to K.Sink outlets.old) telling.old
        (given_to K.Sink outlets.new) telling.new) }
    ensures stops { IfErr result (StopsTurning L.written (given_to K.Sink outlets.old) telling.old
        (given_to K.Sink outlets.new) telling.new) }
    ensures nothing { OnOk result (NothingWaits telling.new) }
    ensures untold { NothingUntold core.now telling.new }
    ensures writes { WritesTo K.Sink L.Sink outlets.old outlets.new (served_fault result) }
{
    write(telling, outlets)?;
    shows.show(rt, alloc, core, Written::of(core, telling))?;
    Ok(())
}

/// The run waits, and nothing more of any injector can enter: makes a turn of each injector that has no thread
/// and is not over. All of the run is written before, since a turn may wait for its source. True if there was
/// such an injector.
fn turn_here<S: Source, R: Threads + Wait + Sync, K: Sink, L: Sink, V: Shows>(
    rt: &R,
    alloc: Global,
    core: &Core,
    telling: &mut Telling,
    outlets: &mut Outlets<'_, '_, K, L>,
    readings: &mut Vec<Reading<S>>,
    shows: &mut V,
) -> Result<bool, Stop>
    requires waiting { IsWaiting core.now }
    requires heard { AreHeardOut core.now readings.old.items }
    requires untold { NothingUntold core.now telling.old }
    ensures told { IfOk result (λ some. IsToldStill L.written some (given_to K.Sink outlets.old)
        telling.old (given_to K.Sink outlets.new) telling.new) }
    ensures stops { IfErr result (StopsTurning L.written (given_to K.Sink outlets.old) telling.old
        (given_to K.Sink outlets.new) telling.new) }
    ensures some { IfOk result (λ some. some ≡ list_any turns_here readings.old.items) }
    ensures rested { IfOk result (λ some. some ≡ false →
        list_any turns_here readings.new.items ≡ false) }
    ensures turns { OnOk result (MakeTurns readings.old.items readings.new.items) }
    ensures goes_on { Pairs (GoesOnAs S.left S.faults) readings.old.items readings.new.items }
    ensures hearing { AreAsHeard readings.old.items readings.new.items }
    ensures untold { NothingUntold core.now telling.new }
    ensures writes { WritesTo K.Sink L.Sink outlets.old outlets.new (served_fault result) }
{
    if !some_turn_here(readings) {
        return Ok(false);
    }
    write_and_show(rt, alloc, core, telling, outlets, shows)?;
    turn_all_here(readings, Written::of(core, telling))?;
    Ok(true)
}

/// Waits until an injector rings, where there are any.
fn wait_at<S: Source, R: Threads + Wait + Sync>(
    rt: &R,
    calls: &mut Option<Calls<'_>>,
    written: Written<'_>,
    readings: &Vec<Reading<S>>,
)
    requires waiting { IsWaiting written.core.now }
    requires heard { AreHeardOut written.core.now readings.now.items }
    requires nobody { list_any turns_here readings.now.items ≡ false }
{
    if let Some(calls) = calls {
        calls.wait(rt, written, readings);
    }
}

/// The run waits: if the session is to wait for it, which it may where it has no turns of its own left, all
/// of the run is written, and then it waits until an injector rings.
fn wait_where<S: Source, R: Threads + Wait + Sync, K: Sink, L: Sink, V: Shows>(
    rt: &R,
    alloc: Global,
    waits: bool,
    core: &Core,
    telling: &mut Telling,
    outlets: &mut Outlets<'_, '_, K, L>,
    calls: &mut Option<Calls<'_>>,
    readings: &Vec<Reading<S>>,
    shows: &mut V,
) -> Result<(), Stop>
    requires waiting { IsWaiting core.now }
    requires untold { NothingUntold core.now telling.old }
    requires heard { AreHeardOut core.now readings.now.items }
    requires nobody { IsTrue waits → list_any turns_here readings.now.items ≡ false }
    ensures told { OnOk result (IsToldStill L.written waits (given_to K.Sink outlets.old)
        telling.old (given_to K.Sink outlets.new) telling.new) }
    ensures stops { IfErr result (StopsTurning L.written (given_to K.Sink outlets.old) telling.old
        (given_to K.Sink outlets.new) telling.new) }
    ensures writes { WritesTo K.Sink L.Sink outlets.old outlets.new (served_fault result) }
{
    if !waits {
        return Ok(());
    }
    write_and_show(rt, alloc, core, telling, outlets, shows)?;
    wait_at(rt, calls, Written::of(core, telling), readings);
    Ok(())
}

/// Writes what waits to be written, if it is due.
fn write_where<K: Sink, L: Sink>(
    due: bool,
    telling: &mut Telling,
    outlets: &mut Outlets<'_, '_, K, L>,
) -> Result<(), Stop>
    ensures told { OnOk result (IsToldStill L.written due (given_to K.Sink outlets.old)
        telling.old (given_to K.Sink outlets.new) telling.new) }
    ensures stops { IfErr result (StopsTurning L.written (given_to K.Sink outlets.old) telling.old
        (given_to K.Sink outlets.new) telling.new) }
    ensures kept { telling.new.kept ≡ telling.old.kept }
    ensures writes { WritesTo K.Sink L.Sink outlets.old outlets.new (served_fault result) }
{
    if !due {
        return Ok(());
    }
    write(telling, outlets)
}

/// An injector that ran out of memory has halted the bell: then the session ends out of memory too.
/// Without injectors nothing is asked.
fn ask_halt<R: Threads + Wait + Sync>(rt: &R, calls: &mut Option<Calls<'_>>) -> Result<(), Stop>
    ensures { IfErr result (λ s. s ≡ Stop.Broken RunFault.Memory) }
{
    let Some(calls) = calls else {
        return Ok(());
    };
    if calls.halted(rt) {
        return Err(Stop::Broken(RunFault::Memory));
    }
    Ok(())
}

/// This many items entered. Wakes the injectors if enough places became free for those that wait with an
/// item, or if own turns follow, which may wait.
fn ring_where<R: Threads + Wait + Sync>(
    rt: &R,
    entered: usize,
    turns: bool,
    calls: &mut Option<Calls<'_>>,
) {
    if let Some(calls) = calls {
        calls.entered(rt, entered, turns);
    }
}

/// Makes what comes next.
fn pick(core: &mut Core) -> Result<Picked, Memory>
    requires rest { core.old.arbiter.phase ≡ phase.Rest }
    ensures picked { IfOk result (λ k. (taken : List Line) (m : Moment Origin) →
        IsCoreAt core.old core.old.jobs.items taken m →
        k ≡ picked_of (coming core.old.arbiter m.told)) }
    ensures makes { OnOk result (Makes core.old core.new step.Pick) }
    ensures picks { OnOk result (LeadsOn core.old core.new) }
    ensures waits { IfOk result (λ k. IsSomewhereHere core.old → k ≡ Picked.Wait →
        IsWaiting core.new) }
    ensures stays { IfOk result (λ k. k ≡ Picked.Wait → StaysThere core.old core.new) }
    ensures cut { OnErr result (CutsAt core.old core.new) }
    ensures items { IsSomewhereHere core.old → KeepsItems core.old.arbiter.records
        core.new.arbiter.records }
    ensures kept { KeepsProgram core.old.arbiter core.new.arbiter }
    ensures inside { core.new.out ≡ core.old.out }
{
    core.pick()
}

/// Has what is there of the injectors enter, and then makes what comes next. Only if nothing entered and
/// the run waits, all of it is written, and own turns are made, or else the session waits for an injector.
/// Answers false only if nothing entered.
fn round<S: Source, R: Threads + Wait + Sync, K: Sink, L: Sink, V: Shows>(
    rt: &R,
    alloc: Global,
    core: &mut Core,
    telling: &mut Telling,
    outlets: &mut Outlets<'_, '_, K, L>,
    calls: &mut Option<Calls<'_>>,
    readings: &mut Vec<Reading<S>>,
    shows: &mut V,
) -> Result<bool, Stop>
    requires can { CanServe L.written core.old (given_to K.Sink outlets.old) telling.old
        readings.old.items }
    requires rest { core.old.arbiter.phase ≡ phase.Rest }
    requires untold { NothingUntold core.old telling.old }
    ensures serves { OnOk result (ServesOn L.written core.old (given_to K.Sink outlets.old)
        telling.old core.new (given_to K.Sink outlets.new) telling.new) }
    ensures inside { OnOk result (core.new.out ≡ core.old.out) }
    ensures stops { IfErr result (StopsServing L.written core.old (given_to K.Sink outlets.old)
        telling.old core.new (given_to K.Sink outlets.new) telling.new readings.new.items) }
    ensures hears { HearOn S.left S.faults core.new.arbiter.records readings.old.items
        readings.new.items }
    ensures unheard { IfOk result (λ heard. heard ≡ false →
        KeepsItems core.old.arbiter.records core.new.arbiter.records) }
    ensures writes { WritesTo K.Sink L.Sink outlets.old outlets.new (served_fault result) }
{
    ask_halt(rt, calls)?;
    let before = core.arbiter().records().len();
    let heard = hear_all(core, readings)?;
    let entered = core.arbiter().records().len().saturating_sub(before);
    ring_where(rt, entered, some_turn_here(readings), calls);
    let picked = pick(core)?;
    if heard || picked != Picked::Wait {
        return Ok(heard);
    }
    let turned = turn_here(rt, alloc, core, telling, outlets, readings, shows)?;
    wait_where(
        rt, alloc, !turned, core, telling, outlets, calls, readings, shows,
    )?;
    Ok(false)
}

/// The verdict that was recorded.
fn verdict_in(core: &Core) -> Result<Verdict, Memory>
    requires { core.now.arbiter.phase ≡ phase.Over }
    ensures { IfOk result (λ v. verdict_of core.now.arbiter.records ≡ Some v) }
{
    match core.arbiter().verdict() {
        Some(verdict) => Ok(verdict.copy()?),
        None => unreachable!(),
    }
}

/// Writes what waits to be written of the run, which is over, shows it, and answers its verdict.
fn verdict_shown<R: Threads + Wait + Sync, K: Sink, L: Sink, V: Shows>(
    rt: &R,
    alloc: Global,
    core: &Core,
    telling: &mut Telling,
    outlets: &mut Outlets<'_, '_, K, L>,
    shows: &mut V,
) -> Result<Verdict, Stop>
    requires over { core.now.arbiter.phase ≡ phase.Over }
    requires untold { NothingUntold core.now telling.old }
    ensures verdict { IfOk result (λ v. verdict_of core.now.arbiter.records ≡ Some v) }
    ensures all { OnOk result (WritesAll L.written (given_to K.Sink outlets.old) telling.old
        (given_to K.Sink outlets.new) telling.new) }
    ensures stops { IfErr result (StopsTurning L.written (given_to K.Sink outlets.old) telling.old
        (given_to K.Sink outlets.new) telling.new) }
    ensures writes { WritesTo K.Sink L.Sink outlets.old outlets.new (served_fault result) }
{
    let verdict = verdict_in(core)?;
    write_and_show(rt, alloc, core, telling, outlets, shows)?;
    Ok(verdict)
}

/// Carries jobs to their outcomes until nothing is to be run, and tells all that came of it.
fn settle_and_tell<C: Carrier, K: Sink, L: Sink>(
    alloc: Global,
    core: &mut Core,
    carrier: &C,
    telling: &mut Telling,
    outlets: &mut Outlets<'_, '_, K, L>,
) -> Result<(), RunFault>
    requires can_carry { C.can_carry carrier.now }
    requires ready { IsReady L.written core.old (given_to K.Sink outlets.old) telling.old }
    requires inside { core.old.out ≡ false }
    ensures serves { OnOk result (ServesOn L.written core.old (given_to K.Sink outlets.old)
        telling.old core.new (given_to K.Sink outlets.new) telling.new) }
    ensures tells { OnOk result (TellsAll L.written core.old (given_to K.Sink outlets.old)
        telling.old core.new (given_to K.Sink outlets.new) telling.new) }
    ensures settled { OnOk result (IsSettled core.new.arbiter.phase) }
    ensures untold { OnOk result (NothingUntold core.new telling.new) }
    ensures breaks { IfErr result (BreaksServing L.written core.old
        (given_to K.Sink outlets.old) telling.old core.new (given_to K.Sink outlets.new)
        telling.new) }
    ensures items { KeepsItems core.old.arbiter.records core.new.arbiter.records }
    ensures inside { OnOk result (core.new.out ≡ false) }
    ensures writes { WritesTo K.Sink L.Sink outlets.old outlets.new (told_fault result) }
{
    settle_core(alloc, core, carrier)?;
    tell(alloc, core, telling, outlets)
}

/// Serves the run to its verdict: has what is there of the injectors enter, makes what comes next, has
/// jobs carried to their outcomes, and tells all of it as it comes. What waits at the start, the head of the
/// log, is written before anything runs. What is told is written before the run waits for an injector or a
/// source, after a round in which something entered, at the end of a turn where it waited for a second, and
/// once the run is over. The run is shown before it waits so, and once it is over. Without injectors there is
/// nobody to wait for.
pub(crate) fn serve_on<S: Source, R: Threads + Wait + Sync, K: Sink, L: Sink, V: Shows>(
    rt: &R,
    alloc: Global,
    core: &mut Core,
    parallelism: Parallelism,
    telling: &mut Telling,
    outlets: &mut Outlets<'_, '_, K, L>,
    calls: &mut Option<Calls<'_>>,
    readings: &mut Vec<Reading<S>>,
    shows: &mut V,
) -> Result<Verdict, Stop>
    requires can { CanServe L.written core.old (given_to K.Sink outlets.old) telling.old
        readings.old.items }
    ensures verdict { IfOk result (λ v. verdict_of core.new.arbiter.records ≡ Some v) }
    ensures written { OnOk result (WritesRun L.written core.old (given_to K.Sink outlets.old)
        telling.old core.new (given_to K.Sink outlets.new)) }
    ensures stops { IfErr result (StopsServing L.written core.old (given_to K.Sink outlets.old)
        telling.old core.new (given_to K.Sink outlets.new) telling.new readings.new.items) }
    ensures hears { HearOn S.left S.faults core.new.arbiter.records readings.old.items
        readings.new.items }
    ensures writes { WritesTo K.Sink L.Sink outlets.old outlets.new (served_fault result) }
{
    write(telling, outlets)?;
    let workers = Workers { rt, parallelism };
    let mut heard = false;
    for _ in rt.forever() {
        settle_and_tell(alloc, core, &workers, telling, outlets)?;
        if core.arbiter().phase() == Phase::Over {
            return verdict_shown(rt, alloc, core, telling, outlets, shows);
        }
        write_where(shows.is_due(heard), telling, outlets)?;
        heard = round(rt, alloc, core, telling, outlets, calls, readings, shows)?;
    }
    unreachable!()
}
