//! Commands on a program that the world holds.
ghost use Rattle.std.specs.Prelude.{[], Some};
ghost use Rattle.bp_args.specs.declared.command.Command.TheVariants as command;
ghost use Rattle.bp_cli.specs.Asking.{AsksIn};
ghost use Rattle.bp_cli.specs.Endings.{EndsIn};
ghost use Rattle.bp_cli.specs.inner.Opening.{IsCounted};
ghost use Rattle.bp_cli.specs.Outside.{outside, NeverFalls};

use crate::conclusion::Conclusion;
use crate::ended::Ended;
use crate::opening::{close_inputs, create_log, open_inputs};
use crate::running::run_opened;
use bp_args::Run;
use bp_base::{Sink, World, write_all};
use bp_loading::load;
use js_data::Text;
use std::alloc::Global;
use std::sync::Wait;
use std::thread::Threads;
use std::time::Clock;

/// What is printed for an accepted program.
const ACCEPTED: &[u8] = b"accepted\n";

/// Runs the program of that name as the words ask, with its injectors, prints its run, and keeps
/// its log if they ask for one. The program is opened first, then the injectors, in order, and
/// then the log.
pub(crate) fn run_program<R: Threads + Wait + Sync + Clock, W: World, K: Sink>(
    rt: &R,
    alloc: Global,
    asked: &Run,
    world: &mut W,
    out: &mut K,
) -> Ended
    requires counted { IsCounted (command.Run asked.now) }
    ensures ends { let seen = outside W.holds W.asked W.read_faults W.write_faults
        K.written K.faults in EndsIn (Some (command.Run asked.now)) result.records
        (seen world.old out.old) (seen world.new out.new) result.conclusion }
    ensures asks { AsksIn (Some (command.Run asked.now))
        (W.asked world.old) (W.asked world.new) result.conclusion }
    ensures counts { let seen = outside W.holds W.asked W.read_faults W.write_faults
        K.written K.faults in NeverFalls (seen world.old out.old) (seen world.new out.new) }
{
    let loaded = match load(alloc, world, asked.program.as_str()) {
        Ok(loaded) => loaded,
        Err(why) => return Ended::without_run(alloc, Conclusion::from(why)),
    };
    let inputs = match open_inputs(alloc, world, asked.injectors.as_slice()) {
        Ok(inputs) => inputs,
        Err(error) => return Ended::without_run(alloc, Conclusion::unopened(error)),
    };
    let log = match create_log(world, &asked.log) {
        Ok(log) => log,
        Err(error) => {
            close_inputs(world, inputs);
            return Ended::without_run(alloc, Conclusion::unmade(error));
        }
    };
    run_opened(rt, alloc, asked, loaded, inputs, log, world, out)
}

/// Prints that the program of that name is accepted, or refuses it.
pub(crate) fn accept_program<W: World, K: Sink>(
    alloc: Global,
    name: &Text,
    world: &mut W,
    out: &mut K,
) -> Conclusion
    ensures ends { let seen = outside W.holds W.asked W.read_faults W.write_faults
        K.written K.faults in EndsIn (Some (command.Accept name.now)) []
        (seen world.old out.old) (seen world.new out.new) result }
    ensures asks { AsksIn (Some (command.Accept name.now))
        (W.asked world.old) (W.asked world.new) result }
    ensures counts { let seen = outside W.holds W.asked W.read_faults W.write_faults
        K.written K.faults in NeverFalls (seen world.old out.old) (seen world.new out.new) }
{
    let _loaded = match load(alloc, world, name.as_str()) {
        Ok(loaded) => loaded,
        Err(why) => return Conclusion::from(why),
    };
    match write_all(out, ACCEPTED) {
        Ok(()) => Conclusion::Accepted,
        Err(_) => Conclusion::NotWritten,
    }
}
