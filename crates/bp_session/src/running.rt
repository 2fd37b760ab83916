//! Running a program while injectors bring events.
ghost use Rattle.std.specs.Prelude.{◌≡◌, ◌≤◌, ◌<◌, ◌^◌, [], false, length, Some, IsSome, IfOk, IfSome};
ghost use Rattle.bp_log.specs.Logs.{header_text};
ghost use Rattle.bp_log.specs.declared.version.Version.TheVariants.{Second};
ghost use Rattle.bp_log.specs.Options.{AreOptions};
ghost use Rattle.bp_steps.specs.Schedules.{schedule_of};
ghost use Rattle.bp_steps.specs.Steps.{made_by};
ghost use Rattle.bp_code.specs.Code.{code_of, text_of};
ghost use Rattle.bp_code.specs.Nodes.{nodes_of};
ghost use Rattle.bp_told.specs.Logging.{LogStays};
ghost use Rattle.bp_told.specs.Order.{PrintsBehind};
ghost use Rattle.bp_told.specs.Told.{given};
ghost use Rattle.bp_session.specs.Heard.{EachHeard};
ghost use Rattle.bp_session.specs.inner.Places.{HasRoom};
ghost use Rattle.bp_session.specs.inner.Readings.{AreBack, HasBroken};
ghost use Rattle.bp_session.specs.inner.Lending.{Begins};
ghost use Rattle.bp_session.specs.Reports.{ComeBack, EndsAs};
ghost use Rattle.bp_session.specs.inner.Outlets.{ended_fault, WritesOn};
ghost use Rattle.bp_session.specs.inner.Serving.{IsReady, EndsServing, broke_at};

use crate::lent::{Lent, Parts, serve_alone};
use crate::pacing::Pace;
use crate::places::Places;
use crate::report::{Ending, Report};
use crate::scoped::in_scope;
use crate::showing::{Shows, Silent};
use bp_base::{Memory, Sink, Source};
use bp_core::Core;
use bp_core::laws::stories_have_legal_schedules;
use bp_log::{Header, Parallelism, Records};
use bp_told::Telling;
use js_program::Program;
use std::alloc::Global;
use std::sync::Wait;
use std::thread::Threads;
use std::time::Clock;

/// All for which a session takes memory before it is served.
struct Opened<S: Source> {
    core: Core,
    telling: Telling,
    places: Places<S>,
}

/// Takes the memory for a session of as many injectors as the header says.
fn begin<S: Source + Drop, L: Sink>(
    alloc: Global,
    program: Program,
    header: &Header,
    log: &Option<L>,
) -> Result<Opened<S>, Memory>
    ensures within { AreOptions header.now.options }
    ensures serving { IfOk result (λ o. Begins L.written program header.now log.now o.core
        o.telling) }
    ensures fresh { IfOk result (λ o. o.core.arbiter.records ≡ []) }
    ensures inside { IfOk result (λ o. o.core.out ≡ false) }
    ensures room { IfOk result (λ o. HasRoom o.places header.now.options.injectors) }
{
    let options = header.options();
    let count = options.injectors();
    let telling = Telling::begin(alloc, header, log)?;
    let core = Core::open(alloc, program, options)?;
    let places = Places::new(alloc, count as usize)?;
    Ok(Opened {
        core,
        telling,
        places,
    })
}

/// Serves what is lent, in a scope in which each input, if there are any, has an injector.
fn served<S: Source + Send + Drop, R: Threads + Wait + Sync, K: Sink, L: Sink, V: Shows>(
    rt: &R,
    alloc: Global,
    places: Places<S>,
    inputs: Vec<S>,
    parts: &mut Parts<S, V>,
    out: &mut K,
    log: &mut Option<L>,
)
    requires ready { IsReady L.written parts.old.core (given K.written out.old log.old)
        parts.old.telling }
    requires inside { parts.old.core.out ≡ false }
    requires fresh { parts.old.core.arbiter.records ≡ [] }
    requires room { HasRoom places (length inputs.items) }
    requires few { length inputs.items < 2 ^ 32 }
    ensures ends { EndsServing L.written parts.old.core (given K.written out.old log.old)
        parts.old.telling parts.new.core (given K.written out.new log.new) parts.new.end }
    ensures many { length parts.new.back.items ≡ length inputs.items }
    ensures back { AreBack S.left S.faults inputs.items parts.new.back.items
        parts.new.core.arbiter.records }
    ensures broke { IfSome (broke_at parts.new.end)
        (HasBroken S.left S.faults inputs.items parts.new.back.items
        parts.new.core.arbiter.records) }
    ensures writes { WritesOn K.Sink L.Sink out.old out.new log.old log.new
        (ended_fault parts.new.end) }
{
    if inputs.is_empty() {
        serve_alone(rt, alloc, inputs, parts, out, log);
        return;
    }
    let mut lent = Lent { out, log, parts };
    in_scope::<_, S, R>(rt, alloc, places, inputs, &mut lent);
    let Lent {
        out: _,
        log: _,
        parts: _,
    } = lent;
}

/// A run with its injectors.
pub struct Session;

impl Session {
    /// Runs the program under the options of the header, prints the text of the run, writes its log if one
    /// is kept, and gives the inputs back, in order. The clauses speak of the records of the report, and hold
    /// with any workers and any slice: how much of their text was printed and of their log written at each
    /// ending, that no line is printed before its record stands in the log, and what was heard of each
    /// input.
    ///
    /// No clause speaks of threads or of waiting. Each input is read on a thread of its own, and what is
    /// there of it enters between two transitions; if no thread can be made the calling one reads, but only
    /// where the run waits. All of the run so far is written before it waits for an injector: that is proved
    /// inside, since the wait asks for evidence of it. If nothing can be selected, a run that waits for its
    /// injectors waits for one that is still read, and any other run ends. This returns once each injector
    /// has returned from its source.
    pub fn run<S: Source + Send + Drop, R: Threads + Wait + Sync + Clock, K: Sink, L: Sink>(
        rt: &R,
        alloc: Global,
        program: Program,
        header: &Header,
        parallelism: Parallelism,
        inputs: Vec<S>,
        out: &mut K,
        log: &mut Option<L>,
    ) -> (Report, Vec<S>)
        requires { length inputs.items ≡ header.now.options.injectors }
        ensures story { IsSome (text_of program header.now.options result.0.records) }
        ensures legal { let o = header.now.options in let l = code_of program o in
            made_by l o (nodes_of program o) (schedule_of l o result.0.records)
            ≡ Some result.0.records }
        ensures heard { EachHeard S.left inputs.items result.1.items result.0.records }
        ensures back { ComeBack S.left S.faults inputs.items result.1.items result.0.records }
        ensures ends { EndsAs L.written L.faults K.faults
            (code_of program header.now.options) header.now.options
            (header_text Second header.now) out.old out.new (given K.written out.old log.old)
            (given K.written out.new log.new) S.left S.faults inputs.items result.1.items
            result.0.records result.0.end }

        // However it ends, what was printed is of the text of records that are in the log.
        ensures behind { PrintsBehind L.written (text_of program header.now.options)
            (header_text Second header.now) result.0.records (K.written out.old) (K.written out.new)
            log.old log.new }

        ensures counts { K.faults out.old ≤ K.faults out.new }
        ensures stays { LogStays L.made_as L.faults log.old log.new }
    {
        // For the proof: a law.
        stories_have_legal_schedules();
        let Ok(opened) = begin(alloc, program, header, log) else {
            let report = Report {
                end: Ending::Memory,
                records: Records::new(Vec::new(alloc)),
            };
            return (report, inputs);
        };
        let Opened {
            core,
            telling,
            places,
        } = opened;
        let mut parts = Parts {
            core,
            telling,
            parallelism,
            shows: Silent {
                pace: Pace::new(rt),
            },
            back: Vec::new(alloc),
            end: Ending::Memory,
        };
        served(rt, alloc, places, inputs, &mut parts, out, log);
        let Parts {
            core,
            telling: _,
            parallelism: _,
            shows: _,
            back,
            end,
        } = parts;
        let report = Report {
            end,
            records: core.into_records(),
        };
        (report, back)
    }
}
