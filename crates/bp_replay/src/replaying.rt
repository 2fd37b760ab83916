//! The replay of a log.
ghost use Rattle.std.specs.Prelude.{◌≡◌, ◌≤◌, None, IfSome, IsErrOf};
ghost use Rattle.bp_base.specs.Counts.{Rose};
ghost use Rattle.bp_reading.specs.Reading.{first_stage};
ghost use Rattle.bp_reader.specs.declared.fault.LogFault.TheVariants as log_fault;
ghost use Rattle.bp_reader.specs.Fed.{Between};
ghost use Rattle.bp_replay.specs.Replays.{IsReplay, ReplaysTaken};
ghost use Rattle.bp_replay.specs.inner.Behind.{EndsBehind, TakenBehind};

use crate::fault::ReplayFault;
use crate::telling::replay_onto;
use bp_base::{Sink, Source};
use bp_log::{Header, Verdict};
use bp_reader::Reader;
use bp_script::{ScriptFault, accept};
use bp_told::Page;
use std::alloc::Global;

/// What came of a replay.
#[derive(Drop)]
pub struct Replayed<S: Source> {
    /// The verdict with which the log and its run end, or why there is none.
    pub ended: Result<Verdict, ReplayFault>,
    /// The source, from which whole blocks were taken.
    pub log: S,
}

/// Replays what stands after the header.
fn replay_records<S: Source, K: Sink>(
    alloc: Global,
    header: &Header,
    reader: &mut Reader<S>,
    out: &mut K,
) -> Result<Verdict, ReplayFault>
    requires fresh { reader.old.refusal ≡ None }
    requires stage { reader.old.stage
        ≡ first_stage reader.old.stage.version header.now.options.injectors }
    ensures ends { IfSome reader.old.left (λ rest. EndsBehind reader.old.stage.version header.now
        rest (K.written out.old) (K.written out.new) result) }
    ensures failed { IsErrOf result (ReplayFault.Log log_fault.Read)
        → Between reader.old.left reader.new.left (λ bytes rest. TakenBehind
        reader.old.stage.version header.now bytes rest (K.written out.old) (K.written out.new)) }
    ensures empty { IsErrOf result (ReplayFault.Log log_fault.Read)
        → reader.new.left ≡ reader.new.source }
    ensures read { IsErrOf result (ReplayFault.Log log_fault.Read)
        → Rose reader.old.faults reader.new.faults }
    ensures write { IsErrOf result ReplayFault.Write
        → Rose (K.faults out.old) (K.faults out.new) }
    ensures read_counts { reader.old.faults ≤ reader.new.faults }
    ensures write_counts { K.faults out.old ≤ K.faults out.new }
    ensures named { K.made_as out.new ≡ K.made_as out.old }
{
    let program = match accept(alloc, header.program()) {
        Ok(program) => program,
        Err(ScriptFault::Refused(_)) => return Err(ReplayFault::Program),
        Err(ScriptFault::Memory) => return Err(ReplayFault::Memory),
    };
    let mut page = Page::new(alloc);
    let ended = replay_onto(alloc, program, header.options(), reader, &mut page, out);
    page.write(out)?;
    ended
}

/// Makes the run of a log again, record by record, and prints it, in pieces of 64 KiB or slightly
/// more.
///
/// # Errors
///
/// `Log` exactly if the bytes are not a log, with the place, `Program` exactly if its program is
/// refused, and `Differs` exactly at the first record that the run does not make. At `Log` and
/// `Differs` the text of the records before has been printed, also if the log could not be read
/// on; at `Write` and `Memory` a prefix of such a text.
pub fn replay<S: Source, K: Sink>(alloc: Global, log: S, out: &mut K) -> Replayed<S>
    // If the source tells its bytes, the answer and what was printed are those of these bytes.
    ensures ends { IfSome (S.left log)
        (λ bytes. IsReplay bytes (K.written out.old) (K.written out.new) result.ended) }

    // If reading failed, what was printed is what a log of the bytes that were taken says.
    ensures failed { IsErrOf result.ended (ReplayFault.Log log_fault.Read)
        → Between (S.left log) (S.left result.log) (λ bytes rest. ReplaysTaken bytes rest
        (K.written out.old) (K.written out.new)) }

    ensures read { IsErrOf result.ended (ReplayFault.Log log_fault.Read)
        → Rose (S.faults log) (S.faults result.log) }
    ensures write { IsErrOf result.ended ReplayFault.Write
        → Rose (K.faults out.old) (K.faults out.new) }
    ensures read_counts { S.faults log ≤ S.faults result.log }
    ensures write_counts { K.faults out.old ≤ K.faults out.new }
    ensures named { K.made_as out.new ≡ K.made_as out.old }
{
    match Reader::open(alloc, log) {
        Err(refused) => Replayed {
            ended: Err(ReplayFault::from(refused.fault)),
            log: refused.source,
        },
        Ok((mut reader, header)) => {
            let ended = replay_records(alloc, &header, &mut reader, out);
            Replayed {
                ended,
                log: reader.back(),
            }
        }
    }
}
