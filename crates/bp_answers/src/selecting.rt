//! Why what comes next at rest is selected, and who asks for an event there.
ghost use Rattle.std.specs.Prelude.{◌≡◌, false, Ok, OnOk, string_bytes};
ghost use Rattle.bp_run.specs.Selecting.{selectable};
ghost use Rattle.bp_floor.specs.Floors.{has_on, live_on};
ghost use Rattle.bp_floor.specs.declared.phase.Phase.TheVariants as phase;
ghost use Rattle.bp_select.specs.Answers.{enabled_of};
ghost use Rattle.bp_arbiter.specs.Arbiters.{stand_in};
ghost use Rattle.bp_answers.specs.inner.Reasons.{SaysAsked, SaysWhy};

use crate::resting::stops;
use bp_arbiter::Arbiter;
use bp_explain::{Draws, Scene, write_asked, write_selection};
use bp_log::Memory;
use bp_select::{Enabled, SelectFault};
use js_data::Event;
use std::alloc::{AllocError, Global};

/// Writes why what comes next is selected, where this can be.
fn write_next(
    alloc: Global,
    arbiter: &Arbiter,
    enabled: &Enabled,
    text: &mut String,
) -> Result<(), Memory>
    requires sound { arbiter.now.broken ≡ false }
    requires rest { arbiter.now.phase ≡ phase.Rest }
    requires enabled { selectable (has_on arbiter.now.floor) (live_on arbiter.now.floor)
        (stand_in arbiter.now).queue ≡ Ok (enabled_of enabled.now) }
    ensures { OnOk result (SaysWhy arbiter.now (string_bytes text.old) (string_bytes text.new)) }
{
    arbiter.keeps();
    let floor = arbiter.floor();
    let options = floor.options();
    let stops = stops(alloc, floor)?;
    let scene = Scene {
        ground: floor.ground(),
        budget: options.budget(),
        stops: stops.as_slice(),
    };
    let draws = Draws {
        strategy: options.strategy(),
        seed: options.seed(),
        drawn: arbiter.drawn(),
    };
    write_selection(alloc, &scene, floor.queue(), enabled, draws, text)
}

/// Writes why what comes next is selected, if that is an event.
pub fn write_why(alloc: Global, arbiter: &mut Arbiter, text: &mut String) -> Result<(), Memory>
    requires sound { arbiter.old.broken ≡ false }
    requires rest { arbiter.old.phase ≡ phase.Rest }
    ensures written { OnOk result (SaysWhy arbiter.old (string_bytes text.old)
        (string_bytes text.new)) }
    ensures same { arbiter.new ≡ arbiter.old }
{
    match arbiter.enabled(alloc) {
        Ok(enabled) => write_next(alloc, arbiter, &enabled, text),
        Err(SelectFault::Set(_, _)) => {
            // For the proof: what the floor shows.
            let _floor = arbiter.floor();
            Ok(())
        }
        Err(SelectFault::Memory) => Err(AllocError),
    }
}

/// Writes who requests an event, and who blocks it.
pub fn write_who_asks(
    alloc: Global,
    arbiter: &Arbiter,
    event: &Event,
    text: &mut String,
) -> Result<(), Memory>
    requires sound { arbiter.now.broken ≡ false }
    requires rest { arbiter.now.phase ≡ phase.Rest }
    ensures { OnOk result (SaysAsked arbiter.now event.now (string_bytes text.old)
        (string_bytes text.new)) }
{
    arbiter.keeps();
    let floor = arbiter.floor();
    let stops = stops(alloc, floor)?;
    let scene = Scene {
        ground: floor.ground(),
        budget: floor.options().budget(),
        stops: stops.as_slice(),
    };
    write_asked(alloc, &scene, event, text)
}
