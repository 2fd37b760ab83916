//! How the runs of a program end under some seeds.
ghost use Rattle.std.specs.Prelude.{◌≡◌, ◌⊎◌, ◌≤◌, IsErrOf, IfOk, IfErr, string_bytes};
ghost use Rattle.bp_base.specs.Counts.{Rose};
ghost use Rattle.bp_base.specs.Worlds.{Asks};
ghost use Rattle.bp_seeds.specs.Sweeps.{IsSweep};
ghost use Rattle.bpx_cli.specs.Answers.{AreSeedsOf, IsUnloaded};

use crate::ended::{Ended, Reply};
use crate::seeds::Seeds;
use bp_base::World;
use bp_loading::load;
use bp_seeds::{Sweep, sweep_text};
use std::alloc::Global;
use std::thread::Threads;

/// The runs under the seeds that are asked for.
fn sweep_of(asked: &Seeds) -> Sweep
    ensures sweep { IsSweep result }
    ensures first { result.first ≡ (asked.now).first }
    ensures count { result.count ≡ (asked.now).count }
    ensures options { result.options ≡ (asked.now).options }
{
    Sweep {
        first: asked.first(),
        count: asked.count(),
        options: asked.options(),
        parallelism: asked.parallelism(),
    }
}

/// How the runs of the program end under each of the seeds that are asked for, or how a command
/// ends that tells none.
pub(crate) fn seeds_reply<R: Threads + Sync, W: World>(
    rt: &R,
    alloc: Global,
    asked: &Seeds,
    world: &mut W,
) -> Result<Reply, Ended>
    ensures answers { IfOk result (λ a.
        AreSeedsOf (W.holds world.old) asked.now (string_bytes a.text) × (a.end ≡ Ended.Answered)) }
    ensures unanswered { IfErr result (IsUnloaded (W.holds world.old) (asked.now).program) }
    ensures cause { IsErrOf result Ended.NotRead
        → Rose (W.read_faults world.old) (W.read_faults world.new) }
    ensures asks { (IsErrOf result Ended.NoMemory × (W.asked world.new ≡ W.asked world.old))
        ⊎ Asks (W.asked world.old) (asked.now).program (W.asked world.new) }
    ensures holds { W.holds world.new ≡ W.holds world.old }
    ensures counts { W.read_faults world.old ≤ W.read_faults world.new }
    ensures writes { W.write_faults world.new ≡ W.write_faults world.old }
{
    let loaded = load(alloc, world, asked.program().as_str())?;
    match sweep_text(rt, alloc, loaded.bytes.as_slice(), &sweep_of(asked)) {
        Ok(text) => Ok(Reply {
            text,
            end: Ended::Answered,
        }),
        Err(_) => Err(Ended::NoMemory),
    }
}
