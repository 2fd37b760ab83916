//! Logs that are replayed.
ghost use Rattle.std.specs.Prelude.{[], Some};
ghost use Rattle.bp_args.specs.declared.command.Command.TheVariants as command;
ghost use Rattle.bp_cli.specs.Asking.{AsksIn};
ghost use Rattle.bp_cli.specs.Endings.{EndsIn};
ghost use Rattle.bp_cli.specs.Outside.{outside, NeverFalls};

use crate::conclusion::Conclusion;
use bp_base::{Sink, World};
use bp_replay::{Replayed, replay};
use js_data::Text;
use std::alloc::Global;

/// Replays the log of that name, and prints its run as far as the log is one.
pub(crate) fn replay_log<W: World, K: Sink>(
    alloc: Global,
    name: &Text,
    world: &mut W,
    out: &mut K,
) -> Conclusion
    ensures ends { let seen = outside W.holds W.asked W.read_faults W.write_faults
        K.written K.faults in EndsIn (Some (command.Replay name.now)) []
        (seen world.old out.old) (seen world.new out.new) result }
    ensures asks { AsksIn (Some (command.Replay name.now))
        (W.asked world.old) (W.asked world.new) result }
    ensures counts { let seen = outside W.holds W.asked W.read_faults W.write_faults
        K.written K.faults in NeverFalls (seen world.old out.old) (seen world.new out.new) }
{
    let input = match world.open(name.as_str()) {
        Ok(input) => input,
        Err(error) => return Conclusion::unopened(error),
    };
    let Replayed { ended, log } = replay(alloc, input, out);
    world.close_input(log);
    Conclusion::of_replay(ended)
}
