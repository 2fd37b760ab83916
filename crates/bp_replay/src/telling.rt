//! Following a log to its end.
ghost use Rattle.std.specs.Prelude.{◌≡◌, ◌<◌, ◌≤◌, ◌++◌, ◌∷◌, [], List, None, IfSome, IsErrOf, OnErr, OnOk, true};
ghost use Rattle.bp_base.specs.Counts.{Rose};
ghost use Rattle.bp_log.specs.Texts.{lines_text};
ghost use Rattle.bp_log.specs.declared.trace.Line.{Line as Told};
ghost use Rattle.bp_log.specs.declared.trace.Line.TheVariants as trace;
ghost use Rattle.bp_reading.specs.Reading.{BreaksOff, first_stage, next_at};
ghost use Rattle.bp_reader.specs.Fed.{Between};
ghost use Rattle.bp_reader.specs.declared.fault.LogFault.TheVariants as log_fault;
ghost use Rattle.bp_arbiter.specs.Arbiters.{options_in};
ghost use Rattle.bp_told.specs.Pages.{Shows, ShowsFront};
ghost use Rattle.bp_replay.specs.Courses.{Course};
ghost use Rattle.bp_replay.specs.Following.{Finishes, first_course, first_of, IsOnSomeWay, IsOnWay, IsSaid, IsThere, Shown, Tells, TellsTaken};

use crate::ReplayFault;
use crate::following::follow;
use bp_arbiter::Arbiter;
use bp_base::{Sink, Source};
use bp_log::{Line, Options, Parallelism, PrintError, Verdict};
use bp_reader::Reader;
use bp_told::Page;
use bp_turns::{Alone, settle};
use js_program::Program;
use std::alloc::Global;

/// The lines without the last.
fn but_last(lines: &[Line]) -> &[Line]
    ensures { (before : List Told) (last : Told) → lines.now ≡ before ++ last ∷ [] →
        result.now ≡ before }
{
    match lines.split_last() {
        None => lines,
        Some((_, front)) => front,
    }
}

/// The lines that the records of the log say: where the run has ended by itself, all but that of
/// its verdict.
fn said<'a>(arbiter: &Arbiter, lines: &'a [Line]) -> &'a [Line]
    ensures { IsSaid arbiter.now lines.now result.now }
{
    match arbiter.verdict() {
        None => lines,
        Some(_) => but_last(lines),
    }
}

/// Runs what is to be run, and prints the lines since the last printing; but not that of a verdict,
/// which the log has still to say.
fn show<K: Sink>(
    alloc: Global,
    arbiter: &mut Arbiter,
    page: &mut Page,
    out: &mut K,
) -> Result<(), PrintError>
    requires { IsOnSomeWay arbiter.old }
    ensures there { OnOk result ((c : Course) (taken : List Told) → IsOnWay c taken arbiter.old →
        IsThere c arbiter.new) }
    ensures shows { OnOk result ((c : Course) (taken : List Told) (w : IsOnWay c taken arbiter.old) →
        Shows (K.written out.old) (page.old ++ lines_text w.more) page.new (K.written out.new)) }
    ensures front { OnErr result ((c : Course) (taken : List Told) (w : IsOnWay c taken arbiter.old) →
        ShowsFront (K.written out.old) (page.old ++ lines_text w.more) page.new
        (K.written out.new)) }
    ensures cause { IsErrOf result PrintError.Write → Rose (K.faults out.old) (K.faults out.new) }
    ensures counts { K.faults out.old ≤ K.faults out.new }
    ensures named { K.made_as out.new ≡ K.made_as out.old }
{
    settle(alloc, arbiter, &Alone(Parallelism::defaults()))?;
    // For the proof: what the arbiter keeps.
    arbiter.keeps();
    let lines = arbiter.take_lines();
    page.print(alloc, said(arbiter, lines.as_slice()), out)
}

/// The verdict was said by the log: its line is printed, and nothing may stand after it.
fn finish<S: Source, K: Sink>(
    alloc: Global,
    reader: &mut Reader<S>,
    verdict: Verdict,
    page: &mut Page,
    out: &mut K,
) -> Result<Verdict, ReplayFault>
    requires fresh { reader.old.refusal ≡ None }
    requires ended { reader.old.stage.ended ≡ true }
    ensures finishes { IfSome reader.old.left
        (λ left. Finishes verdict (next_at reader.old.stage left) result) }
    ensures shown { Shown result (K.written out.old)
        (page.old ++ lines_text (trace.Verdict verdict ∷ [])) page.new (K.written out.new) }
    ensures failed { IsErrOf result (ReplayFault.Log log_fault.Read)
        → Between reader.old.left reader.new.left (BreaksOff reader.old.stage) }
    ensures empty { IsErrOf result (ReplayFault.Log log_fault.Read)
        → reader.new.left ≡ reader.new.source }
    ensures read { IsErrOf result (ReplayFault.Log log_fault.Read)
        → Rose reader.old.faults reader.new.faults }
    ensures write { IsErrOf result ReplayFault.Write
        → Rose (K.faults out.old) (K.faults out.new) }
    ensures read_counts { reader.old.faults ≤ reader.new.faults }
    ensures write_counts { K.faults out.old ≤ K.faults out.new }
    ensures named { K.made_as out.new ≡ K.made_as out.old }
{
    let line = [Line::Verdict(verdict.copy()?)];
    page.print(alloc, line.as_slice(), out)?;
    reader.next(alloc)?;
    Ok(verdict)
}

/// Follows the log record by record to its end.
fn tell<S: Source, K: Sink>(
    alloc: Global,
    reader: &mut Reader<S>,
    arbiter: &mut Arbiter,
    page: &mut Page,
    out: &mut K,
) -> Result<Verdict, ReplayFault>
    requires fresh { reader.old.refusal ≡ None }
    requires first { IsOnWay (first_of reader.old.stage.version arbiter.old) [] arbiter.old }
    requires stage { reader.old.stage
        ≡ first_stage reader.old.stage.version (options_in arbiter.old).injectors }
    requires empty { page.old ≡ [] }
    ensures tells { IfSome reader.old.left (λ rest. Tells
        (first_of reader.old.stage.version arbiter.old) rest
        (K.written out.old) page.new (K.written out.new) result) }
    ensures failed { IsErrOf result (ReplayFault.Log log_fault.Read)
        → Between reader.old.left reader.new.left (λ bytes rest. TellsTaken
        (first_of reader.old.stage.version arbiter.old) bytes rest (K.written out.old) page.new
        (K.written out.new)) }
    ensures empty { IsErrOf result (ReplayFault.Log log_fault.Read)
        → reader.new.left ≡ reader.new.source }
    ensures read { IsErrOf result (ReplayFault.Log log_fault.Read)
        → Rose reader.old.faults reader.new.faults }
    ensures write { IsErrOf result ReplayFault.Write
        → Rose (K.faults out.old) (K.faults out.new) }
    ensures read_counts { reader.old.faults ≤ reader.new.faults }
    ensures write_counts { K.faults out.old ≤ K.faults out.new }
    ensures named { K.made_as out.new ≡ K.made_as out.old }
{
    let mut number = 0;
    loop {
        show(alloc, arbiter, page, out)?;
        let Some(found) = reader.next(alloc)? else {
            unreachable!()
        };
        number += 1;
        follow(alloc, arbiter, number, found)?;
        if let Some(verdict) = arbiter.verdict() {
            let verdict = verdict.copy()?;
            return finish(alloc, reader, verdict, page, out);
        }
    }
}

/// Makes the run of the program again, as far as the records that are still to be read are its own,
/// and puts its text on the page. At `Write` and `Memory` a prefix of the text of such records was
/// written or waits. After a failed read what was taken was followed as a log that ends there.
pub fn replay_onto<S: Source, K: Sink>(
    alloc: Global,
    program: Program,
    options: Options,
    reader: &mut Reader<S>,
    page: &mut Page,
    out: &mut K,
) -> Result<Verdict, ReplayFault>
    requires fresh { reader.old.refusal ≡ None }
    requires stage { reader.old.stage
        ≡ first_stage reader.old.stage.version options.injectors }
    requires empty { page.old ≡ [] }
    ensures tells { IfSome reader.old.left (λ rest. Tells
        (first_course reader.old.stage.version program options) rest
        (K.written out.old) page.new (K.written out.new) result) }
    ensures failed { IsErrOf result (ReplayFault.Log log_fault.Read)
        → Between reader.old.left reader.new.left (λ bytes rest. TellsTaken
        (first_course reader.old.stage.version program options) bytes rest
        (K.written out.old) page.new (K.written out.new)) }
    ensures empty { IsErrOf result (ReplayFault.Log log_fault.Read)
        → reader.new.left ≡ reader.new.source }
    ensures read { IsErrOf result (ReplayFault.Log log_fault.Read)
        → Rose reader.old.faults reader.new.faults }
    ensures write { IsErrOf result ReplayFault.Write
        → Rose (K.faults out.old) (K.faults out.new) }
    ensures read_counts { reader.old.faults ≤ reader.new.faults }
    ensures write_counts { K.faults out.old ≤ K.faults out.new }
    ensures named { K.made_as out.new ≡ K.made_as out.old }
{
    let mut arbiter = Arbiter::open(alloc, program, options)?;
    tell(alloc, reader, &mut arbiter, page, out)
}
