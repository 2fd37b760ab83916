//! The state of a run after records of its log.
ghost use Rattle.std.specs.Prelude.{◌≡◌, ◌⊎◌, ◌≤◌, IsErrOf, IfOk, IfErr, string_bytes};
ghost use Rattle.bp_base.specs.Counts.{Rose};
ghost use Rattle.bp_base.specs.Worlds.{Asks};
ghost use Rattle.bpx_cli.specs.States.{IsStateOf, IsUnstated};

use crate::asking::{open_log, reply_of};
use crate::ended::{Ended, Reply};
use crate::state::State;
use bp_answers::{Answer, state};
use bp_base::World;
use std::alloc::Global;

/// The state after records of the log of that name, or how a command ends that tells none.
pub(crate) fn state_reply<W: World>(
    alloc: Global,
    asked: &State,
    world: &mut W,
) -> Result<Reply, Ended>
    ensures answers { IfOk result (λ a.
        IsStateOf (W.holds world.old) asked.now (string_bytes a.text) × (a.end ≡ Ended.Answered)) }
    ensures unanswered { IfErr result (IsUnstated (W.holds world.old) asked.now) }
    ensures cause { IsErrOf result Ended.NotRead
        → Rose (W.read_faults world.old) (W.read_faults world.new) }
    ensures asks { (IsErrOf result Ended.NoMemory × (W.asked world.new ≡ W.asked world.old))
        ⊎ Asks (W.asked world.old) asked.now.log (W.asked world.new) }
    ensures holds { W.holds world.new ≡ W.holds world.old }
    ensures counts { W.read_faults world.old ≤ W.read_faults world.new }
    ensures writes { W.write_faults world.new ≡ W.write_faults world.old }
{
    let input = open_log(world, &asked.log)?;
    let Answer { text, log } = state(alloc, input, asked.number);
    world.close_input(log);
    reply_of(text)
}
