//! A log that is asked about.
ghost use Rattle.std.specs.Prelude.{◌≡◌, ◌≤◌, None, IfOk, IfErr, IfSome, IsErrOf};
ghost use Rattle.bp_base.specs.Counts.{Rose};
ghost use Rattle.bp_reading.specs.Reading.{first_stage};
ghost use Rattle.bp_reader.specs.declared.fault.LogFault.TheVariants as log_fault;
ghost use Rattle.bp_script.specs.Programs.{IsProgram};
ghost use Rattle.bp_answers.specs.Asking.{AnswersBehind, HasNoProgram, IsState};

use crate::reading::read;
use crate::saying::state_text;
use crate::{Answer, NoAnswer};
use bp_base::Source;
use bp_log::Header;
use bp_reader::Reader;
use bp_replay::ReplayFault;
use bp_script::{ScriptFault, accept};
use js_program::Program;
use std::alloc::Global;

/// The program of the header.
pub(crate) fn program_of(alloc: Global, header: &Header) -> Result<Program, ReplayFault>
    ensures program { IfOk result (IsProgram header.now.program) }
    ensures refused { IfErr result (HasNoProgram header.now) }
{
    match accept(alloc, header.program()) {
        Ok(program) => Ok(program),
        Err(ScriptFault::Refused(_)) => Err(ReplayFault::Program),
        Err(ScriptFault::Memory) => Err(ReplayFault::Memory),
    }
}

/// The state after records that stand after the header.
fn state_behind<S: Source>(
    alloc: Global,
    header: &Header,
    reader: &mut Reader<S>,
    number: Option<u32>,
) -> Result<String, NoAnswer>
    requires fresh { reader.old.refusal ≡ None }
    requires stage { reader.old.stage
        ≡ first_stage reader.old.stage.version header.now.options.injectors }
    ensures answers { IfSome reader.old.left
        (λ rest. AnswersBehind reader.old.stage.version header.now rest number result) }
    ensures read { IsErrOf result (NoAnswer.Refused (ReplayFault.Log log_fault.Read))
        → Rose reader.old.faults reader.new.faults }
    ensures counts { reader.old.faults ≤ reader.new.faults }
{
    let records = read(alloc, reader, number)?;
    let program = program_of(alloc, header)?;
    let text = state_text(alloc, program, header.options(), records.as_slice())?;
    Ok(text)
}

/// The state after the first this many records of a log, or after all of them, of a log that is cut
/// those that stand: where its b-threads stand, what waits, which injectors are read, why nothing
/// can be selected, where that is so, and the verdict, if there is one.
///
/// # Errors
///
/// `Log` exactly where the bytes are no log so far, or reading failed, and `Absent` exactly where the
/// log has fewer records; else `Program` exactly where its program is refused; and else `Differs`
/// exactly at the first record that the run does not make. And `Memory`.
pub fn state<S: Source>(alloc: Global, log: S, number: Option<u32>) -> Answer<S>
    ensures answers { IfSome (S.left log) (λ bytes. IsState bytes number result.text) }
    ensures read { IsErrOf result.text (NoAnswer.Refused (ReplayFault.Log log_fault.Read))
        → Rose (S.faults log) (S.faults result.log) }
    ensures counts { S.faults log ≤ S.faults result.log }
{
    match Reader::open(alloc, log) {
        Err(refused) => Answer {
            text: Err(NoAnswer::from(refused.fault)),
            log: refused.source,
        },
        Ok((mut reader, header)) => {
            let text = state_behind(alloc, &header, &mut reader, number);
            Answer {
                text,
                log: reader.back(),
            }
        }
    }
}
