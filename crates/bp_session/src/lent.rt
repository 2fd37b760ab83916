//! What a session owns and borrows while it is served.
ghost use Rattle.std.specs.Prelude.{◌≡◌, ◌<◌, ◌^◌, ℕ, List, [], All, length, Some, None, Err, false, IfSome};
ghost use Rattle.js_value.specs.Value.{PlainSet};
ghost use Rattle.js_meaning.specs.Bodies.{Origin};
ghost use Rattle.bp_log.specs.Options.{PlainOptions};
ghost use Rattle.bp_run.specs.Bodies.{Code};
ghost use Rattle.bp_floor.specs.declared.phase.Phase.TheVariants as phase;
ghost use Rattle.bp_told.specs.Told.{Given, given, WritesOut};
ghost use Rattle.bp_session.specs.inner.Readings.{Pairs, IsHeld, GoesOnAs, HasFailed, AreBack};
ghost use Rattle.bp_session.specs.inner.Hearing.{AreHeard, HearOn, CanServe};
ghost use Rattle.bp_session.specs.inner.Outlets.{given_to, served_fault, ended_fault, WritesOn, WritesTo, WritesRest};
ghost use Rattle.bp_session.specs.inner.Serving.{IsReady, IsServing, IsBrokenOff, IsServedTo, CanTellRest, IsEnded, EndsServing, MayLackMemory, MayStillWrite, ending_of, broke_at};

use crate::calling::Calls;
use crate::outlets::Outlets;
use crate::reading::Reading;
use crate::report::Ending;
use crate::scoped::Serves;
use crate::serving::serve_on;
use crate::showing::Shows;
use crate::stop::Stop;
use crate::telling::tell;
use bp_base::{Sink, Source};
use bp_core::Core;
use bp_lanes::Bell;
use bp_log::{Parallelism, Verdict};
use bp_told::{RunFault, Telling};
use std::alloc::Global;
use std::sync::Wait;
use std::thread::Threads;

/// The ending that a fault comes to.
fn ending_of(fault: RunFault) -> Ending
    ensures { result ≡ ending_of fault }
{
    match fault {
        RunFault::Write => Ending::Write,
        RunFault::LogWrite => Ending::LogWrite,
        RunFault::Memory => Ending::Memory,
    }
}

/// Serving broke off: what waits is written, unless the log had failed or writing fails.
fn write_front<K: Sink, L: Sink>(
    fault: RunFault,
    telling: &mut Telling,
    outlets: &mut Outlets<'_, '_, K, L>,
) -> Ending
    ensures ends { (c : Core) (l : Code Origin PlainSet) (o : PlainOptions) (head : List ℕ)
        (first : Given L) →
        IsBrokenOff L.written l o head first c (given_to K.Sink outlets.old) telling.old fault →
        IsEnded L.written l o head first c (given_to K.Sink outlets.new) result }
    ensures broke { broke_at result ≡ None }
    ensures memory { result ≡ Ending.Memory → fault ≡ RunFault.Memory }
    ensures whole { result ≡ Ending.Memory → WritesOut L.written (given_to K.Sink outlets.old)
        telling.old (given_to K.Sink outlets.new) }
    ensures rest { ¬ (fault ≡ RunFault.LogWrite) →
        WritesRest K.Sink L.Sink outlets.old telling.old outlets.new }
    ensures writes { (first : Outlets K L) →
        WritesTo K.Sink L.Sink first outlets.old (Some fault) →
        WritesTo K.Sink L.Sink first outlets.new (ended_fault result) }
{
    if fault == RunFault::LogWrite {
        return Ending::LogWrite;
    }
    match outlets.flush(telling) {
        Ok(()) => ending_of(fault),
        Err(other) => ending_of(other),
    }
}

/// An injector failed: the rest is told, and what waits is written.
fn write_read<K: Sink, L: Sink>(
    alloc: Global,
    number: u32,
    core: &mut Core,
    telling: &mut Telling,
    outlets: &mut Outlets<'_, '_, K, L>,
) -> Ending
    requires ready { IsReady L.written core.old (given_to K.Sink outlets.old) telling.old }
    requires rest { core.old.arbiter.phase ≡ phase.Rest }
    ensures ends { (l : Code Origin PlainSet) (o : PlainOptions) (head : List ℕ) (first : Given L) →
        IsServing L.written l o head first core.old (given_to K.Sink outlets.old) telling.old →
        IsEnded L.written l o head first core.new (given_to K.Sink outlets.new) result }
    ensures broke { IfSome (broke_at result) (λ j. j ≡ number) }
    ensures records { core.new.arbiter.records ≡ core.old.arbiter.records }
    ensures writes { WritesTo K.Sink L.Sink outlets.old outlets.new (ended_fault result) }
{
    // For the proof: what the arbiter keeps.
    core.arbiter().keeps();
    match tell(alloc, core, telling, outlets) {
        Err(fault) => write_front(fault, telling, outlets),
        Ok(()) => match outlets.flush(telling) {
            Ok(()) => Ending::Read(number),
            Err(fault) => ending_of(fault),
        },
    }
}

/// How serving ended. What was told is written, unless the output or the log failed; after a source failed the
/// rest of the run is told first.
fn ended<S: Source, K: Sink, L: Sink>(
    alloc: Global,
    served: Result<Verdict, Stop>,
    core: &mut Core,
    telling: &mut Telling,
    outlets: &mut Outlets<'_, '_, K, L>,
    readings: &Vec<Reading<S>>,
) -> Ending
    requires rest { CanTellRest L.written core.old (given_to K.Sink outlets.old) telling.old
        served }
    ensures ends { (l : Code Origin PlainSet) (o : PlainOptions) (head : List ℕ) (first : Given L) →
        IsServedTo L.written l o head first core.old (given_to K.Sink outlets.old) telling.old
        readings.now.items served →
        IsEnded L.written l o head first core.new (given_to K.Sink outlets.new) result }
    ensures broke { IfSome (broke_at result) (λ j. served ≡ Err (Stop.Read j)) }
    ensures memory { result ≡ Ending.Memory → MayLackMemory served }
    ensures rest { MayStillWrite served →
        WritesRest K.Sink L.Sink outlets.old telling.old outlets.new }
    ensures records { core.new.arbiter.records ≡ core.old.arbiter.records }
    ensures writes { (first : Outlets K L) →
        WritesTo K.Sink L.Sink first outlets.old (served_fault served) →
        WritesTo K.Sink L.Sink first outlets.new (ended_fault result) }
{
    match served {
        Ok(verdict) => Ending::Verdict(verdict),
        Err(Stop::Read(number)) => write_read(alloc, number, core, telling, outlets),
        Err(Stop::Broken(fault)) => write_front(fault, telling, outlets),
        Err(Stop::Unwritten(fault)) => ending_of(fault),
    }
}

/// All that a session owns.
pub(crate) struct Parts<S, V> {
    pub(crate) core: Core,
    pub(crate) telling: Telling,
    pub(crate) parallelism: Parallelism,
    pub(crate) shows: V,
    pub(crate) back: Vec<S>,
    pub(crate) end: Ending,
}

/// What a session borrows, and all that it owns.
pub(crate) struct Lent<'a, 'b, 'c, K, L, S, V> {
    pub(crate) out: &'a mut K,
    pub(crate) log: &'b mut Option<L>,
    pub(crate) parts: &'c mut Parts<S, V>,
}

/// Serves the run to its end, and writes what was told of it. Without injectors nobody
/// calls.
fn serve_parts<S: Source + Drop, R: Threads + Wait + Sync, K: Sink, L: Sink, V: Shows>(
    rt: &R,
    alloc: Global,
    mut calls: Option<Calls<'_>>,
    parts: &mut Parts<S, V>,
    outlets: &mut Outlets<'_, '_, K, L>,
    readings: &mut Vec<Reading<S>>,
)
    requires can { CanServe L.written parts.old.core (given_to K.Sink outlets.old)
        parts.old.telling readings.old.items }
    ensures ends { EndsServing L.written parts.old.core (given_to K.Sink outlets.old)
        parts.old.telling parts.new.core (given_to K.Sink outlets.new) parts.new.end }
    ensures broke { IfSome (broke_at parts.new.end) (HasFailed readings.new.items) }
    ensures hears { HearOn S.left S.faults parts.new.core.arbiter.records readings.old.items
        readings.new.items }
    ensures writes { WritesTo K.Sink L.Sink outlets.old outlets.new (ended_fault parts.new.end) }
{
    let parallelism = parts.parallelism;
    let core = &mut parts.core;
    let telling = &mut parts.telling;
    let shows = &mut parts.shows;
    let served = serve_on(
        rt,
        alloc,
        core,
        parallelism,
        telling,
        outlets,
        &mut calls,
        readings,
        shows,
    );
    parts.end = ended(alloc, served, core, telling, outlets, readings);
}

/// Serves the run to its end without injectors: no thread is made, no lock is taken and no bell is rung.
/// The inputs, of which there are none, come back.
pub(crate) fn serve_alone<S: Source + Drop, R: Threads + Wait + Sync, K: Sink, L: Sink, V: Shows>(
    rt: &R,
    alloc: Global,
    inputs: Vec<S>,
    parts: &mut Parts<S, V>,
    out: &mut K,
    log: &mut Option<L>,
)
    requires none { inputs.items ≡ [] }
    requires ready { IsReady L.written parts.old.core (given K.written out.old log.old)
        parts.old.telling }
    requires inside { parts.old.core.out ≡ false }
    ensures ends { EndsServing L.written parts.old.core (given K.written out.old log.old)
        parts.old.telling parts.new.core (given K.written out.new log.new) parts.new.end }
    ensures broke { broke_at parts.new.end ≡ None }
    ensures many { length parts.new.back.items ≡ length inputs.items }
    ensures back { AreBack S.left S.faults inputs.items parts.new.back.items
        parts.new.core.arbiter.records }
    ensures writes { WritesOn K.Sink L.Sink out.old out.new log.old log.new
        (ended_fault parts.new.end) }
{
    let mut readings = Vec::new(alloc);
    let mut outlets = Outlets { out, log };
    serve_parts(rt, alloc, None, parts, &mut outlets, &mut readings);
    let Outlets { out: _, log: _ } = outlets;
    parts.back = inputs;
}

impl<K: Sink, L: Sink, S: Source + Drop, R: Threads + Wait + Sync, V: Shows> Serves<S, R>
    for Lent<'_, '_, '_, K, L, S, V> {
    ghost use denote.Param.Send.{IsSync};
    ghost use Rattle.bp_session.specs.inner.Lending.{IsServed};

    ghost served = { λ o n. IsServed K.Sink L.Sink o n };

    ghost ready = { λ h. IsSync R.row × IsReady L.written h.parts.now.core
        (given K.written h.out.now h.log.now) h.parts.now.telling
        × (h.parts.now.core.out ≡ false) };

    ghost records = { λ h. h.parts.now.core.arbiter.records };

    ghost broke = { λ h. broke_at h.parts.now.end };

    ghost back = { λ h. h.parts.now.back.items };

    fn serve(&mut self, rt: &R, alloc: Global, bell: &Bell, readings: &mut Vec<Reading<S>>)
        requires ready { IsSync R.row × IsReady L.written self.old.parts.now.core
            (given K.written self.old.out.now self.old.log.now) self.old.parts.now.telling
            × (self.old.parts.now.core.out ≡ false) }
        requires fresh { self.old.parts.now.core.arbiter.records ≡ [] }
        requires few { length readings.old.items < 2 ^ 32 }
        requires heard { AreHeard (λ r. r.hearing) self.old.parts.now.core.arbiter.records
            readings.old.items }
        requires held { All IsHeld readings.old.items }
        ensures served { IsServed K.Sink L.Sink self.old self.new }
        ensures heard { AreHeard (λ r. r.hearing) self.new.parts.now.core.arbiter.records
            readings.new.items }
        ensures goes_on { Pairs (GoesOnAs S.left S.faults) readings.old.items readings.new.items }
        ensures broke { IfSome (broke_at self.new.parts.now.end) (HasFailed readings.new.items) }
    {
        let calls = Some(Calls::new(bell));
        let mut outlets = Outlets {
            out: &mut *self.out,
            log: &mut *self.log,
        };
        serve_parts(rt, alloc, calls, self.parts, &mut outlets, readings);
        let Outlets { out: _, log: _ } = outlets;
    }

    fn give_back(&mut self, sources: Vec<S>)
        ensures served { (first : Lent K L S V) →
            IsServed K.Sink L.Sink first self.old → IsServed K.Sink L.Sink first self.new }
        ensures records { self.new.parts.now.core.arbiter.records
            ≡ self.old.parts.now.core.arbiter.records }
        ensures broke { broke_at self.new.parts.now.end ≡ broke_at self.old.parts.now.end }
        ensures back { self.new.parts.now.back.items ≡ sources.items }
    {
        self.parts.back = sources;
    }
}
