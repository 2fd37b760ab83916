//! A log of which it is asked why.
ghost use Rattle.std.specs.Prelude.{◌≡◌, ◌≤◌, None, Some, length, IfOk, IfErr, IfSome, IsErrOf, string_bytes};
ghost use Rattle.bp_base.specs.Counts.{Rose};
ghost use Rattle.bp_reading.specs.Reading.{first_stage};
ghost use Rattle.bp_reading.specs.declared.limits.TheConstants.{MOST_RECORDS};
ghost use Rattle.bp_reader.specs.declared.fault.LogFault.TheVariants as log_fault;
ghost use Rattle.bp_answers.specs.inner.Led.{EndsLast};
ghost use Rattle.bp_answers.specs.inner.Reasons.{HasNothing};
ghost use Rattle.bp_answers.specs.Whys.{IsAsked, IsMissing, IsWhy, WhyBehind, said_of};

use crate::asking::program_of;
use crate::reading::read;
use crate::reasons::{asked_text, why_text};
use crate::{Answer, NoAnswer};
use bp_base::Source;
use bp_explain::Subject;
use bp_log::{Header, Options, Record};
use bp_reader::Reader;
use bp_replay::ReplayFault;
use js_program::Program;
use std::alloc::Global;

/// What is said of the subject after these records.
fn text_of(
    alloc: Global,
    program: Program,
    options: Options,
    records: &[Record],
    subject: &Subject,
) -> Result<String, NoAnswer>
    requires few { length records.now ≤ MOST_RECORDS }
    requires last { EndsLast records.now }
    ensures told { IfOk result (λ s.
        said_of program options subject.now records.now ≡ Some (string_bytes s)) }
    ensures nothing { IfErr result (λ f.
        HasNothing program options records.now (IsAsked subject.now records.now)
        (IsMissing subject.now records.now) f) }
{
    match subject {
        Subject::Selection(number) => why_text(alloc, program, options, records, *number),
        Subject::Event(event) => Ok(asked_text(alloc, program, options, records, event)?),
    }
}

/// What is said of the subject of a log whose header was read.
fn why_behind<S: Source>(
    alloc: Global,
    header: &Header,
    reader: &mut Reader<S>,
    subject: &Subject,
) -> Result<String, NoAnswer>
    requires fresh { reader.old.refusal ≡ None }
    requires stage { reader.old.stage
        ≡ first_stage reader.old.stage.version header.now.options.injectors }
    ensures answers { IfSome reader.old.left
        (λ rest. WhyBehind reader.old.stage.version header.now rest subject.now result) }
    ensures read { IsErrOf result (NoAnswer.Refused (ReplayFault.Log log_fault.Read))
        → Rose reader.old.faults reader.new.faults }
    ensures counts { reader.old.faults ≤ reader.new.faults }
{
    let records = read(alloc, reader, None)?;
    let program = program_of(alloc, header)?;
    text_of(
        alloc,
        program,
        header.options(),
        records.as_slice(),
        subject,
    )
}

/// Why the event of a selection of a log was selected: the requested events in order, who requests
/// and who blocks each; what the strategy left, and the word that was drawn, or what was overtaken in
/// the queue; the event, who went on and who was interrupted. Or who requests and who blocks an event
/// where the log ends, also where it is cut. The whole log is read: one that is spoiled after the
/// selection is refused too.
///
/// # Errors
///
/// `Log` exactly where the bytes are no log, or reading failed; else `Program` exactly where its program
/// is refused; else `Absent` exactly where the log has fewer selections, and `Differs` exactly at the
/// first record up to it that the run does not make, or, of an event, the first of all. And `Memory`.
pub fn why<S: Source>(alloc: Global, log: S, subject: &Subject) -> Answer<S>
    ensures answers { IfSome (S.left log) (λ bytes. IsWhy bytes subject.now result.text) }
    ensures read { IsErrOf result.text (NoAnswer.Refused (ReplayFault.Log log_fault.Read))
        → Rose (S.faults log) (S.faults result.log) }
    ensures counts { S.faults log ≤ S.faults result.log }
{
    match Reader::open(alloc, log) {
        Err(refused) => Answer {
            text: Err(NoAnswer::from(refused.fault)),
            log: refused.source,
        },
        Ok((mut reader, header)) => {
            let text = why_behind(alloc, &header, &mut reader, subject);
            Answer {
                text,
                log: reader.back(),
            }
        }
    }
}
