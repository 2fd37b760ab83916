//! Logs that are asked about.
ghost use Rattle.std.specs.Prelude.{◌≡◌, ◌≤◌, ◌⊎◌, Ok, IsErrOf, IsErrAnd, IfOk, IfErr};
ghost use Rattle.bp_base.specs.Counts.{Rose};
ghost use Rattle.bp_base.specs.Worlds.{Opens, Asks};
ghost use Rattle.bpx_cli.specs.inner.Ends.{ended_of_log};

use crate::ended::{Ended, Reply};
use bp_answers::NoAnswer;
use bp_base::{World, WorldError};
use js_data::Text;

/// The log of that name, or how a command ends that has none.
pub(crate) fn open_log<W: World>(world: &mut W, name: &Text) -> Result<W::Input, Ended>
    ensures opens { IfOk result
        (λ input. Opens (W.holds world.old) name.now (W.Input.left input)) }
    ensures fresh { IfOk result (λ input. W.Input.faults input ≡ 0) }
    ensures unread { IfErr result
        (λ end. (end ≡ Ended.NotRead) ⊎ (end ≡ Ended.NoMemory)) }
    ensures cause { IsErrOf result Ended.NotRead
        → Rose (W.read_faults world.old) (W.read_faults world.new) }
    ensures asks { (IsErrOf result Ended.NoMemory × (W.asked world.new ≡ W.asked world.old))
        ⊎ Asks (W.asked world.old) name.now (W.asked world.new) }
    ensures holds { W.holds world.new ≡ W.holds world.old }
    ensures counts { W.read_faults world.old ≤ W.read_faults world.new }
    ensures writes { W.write_faults world.new ≡ W.write_faults world.old }
{
    match world.open(name.as_str()) {
        Ok(input) => Ok(input),
        Err(WorldError::Failed) => Err(Ended::NotRead),
        Err(WorldError::Memory) => Err(Ended::NoMemory),
    }
}

/// What is said of a log, or how a command ends to which this was answered.
pub(crate) fn reply_of(says: Result<String, NoAnswer>) -> Result<Reply, Ended>
    ensures answers { IfOk result (λ a. (says ≡ Ok a.text) × (a.end ≡ Ended.Answered)) }
    ensures unanswered { IfErr result (λ end. IsErrAnd says (λ why. end ≡ ended_of_log why)) }
{
    match says {
        Ok(text) => Ok(Reply {
            text,
            end: Ended::Answered,
        }),
        Err(why) => Err(Ended::of_log(why)),
    }
}
