//! Runs that words ask for.
ghost use Rattle.std.specs.Prelude.{◌≡◌, ◌≤◌, vec_len};
ghost use Rattle.bp_log.specs.declared.limits.TheConstants.{MOST_BYTES};
ghost use Rattle.bp_script.specs.Programs.{IsProgram};
ghost use Rattle.bp_args.specs.declared.command.Command.TheVariants as command;
ghost use Rattle.bp_cli.specs.Endings.{IsCaused};
ghost use Rattle.bp_cli.specs.inner.Opening.{IsCounted, AreOpened, IsLogMade};
ghost use Rattle.bp_cli.specs.Outside.{Outside, outside, IsAsBefore, NeverFalls};
ghost use Rattle.bp_cli.specs.Runs.{IsRunOf};

use crate::conclusion::Conclusion;
use crate::ended::Ended;
use crate::opening::{close_inputs, close_log};
use bp_args::Run;
use bp_base::{Sink, World};
use bp_loading::Loaded;
use bp_log::Header;
use bp_records::{header_keeps, records_keep};
use bp_session::{Report, Session};
use std::alloc::Global;
use std::sync::Wait;
use std::thread::Threads;
use std::time::Clock;

/// Runs the program with these inputs and this log, closes them, and says how the run ended.
pub(crate) fn run_opened<R: Threads + Wait + Sync + Clock, W: World, K: Sink>(
    rt: &R,
    alloc: Global,
    asked: &Run,
    loaded: Loaded,
    inputs: Vec<W::Input>,
    mut log: Option<W::Output>,
    world: &mut W,
    out: &mut K,
) -> Ended
    requires program { IsProgram loaded.bytes.items loaded.program }
    requires within { vec_len loaded.bytes ≤ MOST_BYTES }
    requires counted { IsCounted (command.Run asked.now) }
    requires opened { AreOpened W.Input.left W.Input.faults (W.holds world.old) asked.now.injectors
        inputs.items }
    requires made { IsLogMade W.Output.written W.Output.made_as W.Output.faults (W.holds world.old)
        asked.now.log log }
    ensures ran { let seen = outside W.holds W.asked W.read_faults W.write_faults
        K.written K.faults in (before : Outside) → IsAsBefore before (seen world.old out.old) →
        IsRunOf asked.now loaded.bytes.items result.records before (seen world.new out.new)
        result.conclusion }
    ensures caused { let seen = outside W.holds W.asked W.read_faults W.write_faults
        K.written K.faults in
        IsCaused (seen world.old out.old) (seen world.new out.new) result.conclusion }
    ensures asked { W.asked world.new ≡ W.asked world.old }
    ensures counts { let seen = outside W.holds W.asked W.read_faults W.write_faults
        K.written K.faults in NeverFalls (seen world.old out.old) (seen world.new out.new) }
{
    let Loaded { program, bytes } = loaded;
    let Some(header) = Header::new(asked.options, bytes) else {
        unreachable!()
    };
    // For the proof: what the header keeps.
    header_keeps(&header);
    let parallelism = asked.parallelism;
    let (report, back) = Session::run(
        rt,
        alloc,
        program,
        &header,
        parallelism,
        inputs,
        out,
        &mut log,
    );
    let Report { end, records } = report;
    // For the proof: what the records keep.
    records_keep(&records);
    close_inputs(world, back);
    close_log(world, &asked.log, log);
    Ended {
        conclusion: Conclusion::of(end),
        records,
    }
}
