//! Logs that are migrated.
ghost use Rattle.std.specs.Prelude.{[], Some};
ghost use Rattle.bp_args.specs.declared.command.Command.TheVariants as command;
ghost use Rattle.bp_cli.specs.Asking.{AsksIn};
ghost use Rattle.bp_cli.specs.Endings.{EndsIn};
ghost use Rattle.bp_cli.specs.Outside.{outside, NeverFalls};

use crate::conclusion::Conclusion;
use bp_base::{Sink, World};
use bp_migrate::{Migrated, migrate};
use js_data::Text;
use std::alloc::Global;

/// Prints the log of that name in the second version, as far as it is a log.
pub(crate) fn migrate_log<W: World, K: Sink>(
    alloc: Global,
    name: &Text,
    world: &mut W,
    out: &mut K,
) -> Conclusion
    ensures ends { let seen = outside W.holds W.asked W.read_faults W.write_faults
        K.written K.faults in EndsIn (Some (command.Migrate name.now)) []
        (seen world.old out.old) (seen world.new out.new) result }
    ensures asks { AsksIn (Some (command.Migrate name.now))
        (W.asked world.old) (W.asked world.new) result }
    ensures counts { let seen = outside W.holds W.asked W.read_faults W.write_faults
        K.written K.faults in NeverFalls (seen world.old out.old) (seen world.new out.new) }
{
    let input = match world.open(name.as_str()) {
        Ok(input) => input,
        Err(error) => return Conclusion::unopened(error),
    };
    let Migrated { ended, log } = migrate(alloc, input, out);
    world.close_input(log);
    Conclusion::of_migration(ended)
}
