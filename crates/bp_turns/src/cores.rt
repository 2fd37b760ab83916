//! Turns of a core: what is lent is carried to its outcome and merged, until nothing is to be run.
ghost use Rattle.std.specs.Prelude.{◌≡◌, ◌<◌, false, length, OnOk, OnErr};
ghost use Rattle.bp_floor.specs.declared.phase.Phase.TheVariants as phase;
ghost use Rattle.bp_arbiter.specs.Arbiters.{stand_in};
ghost use Rattle.bp_core.specs.Cores.{KeepsProgram};
ghost use Rattle.bp_turns.specs.Settled.{IsSomewhereHere, SettlesCore, CutsTurns, IsSettled};

use crate::carrier::Carrier;
use bp_core::{Core, Phase};
use bp_log::Memory;
use std::alloc::Global;

/// One turn: the lent jobs are carried to their outcomes, and what they did is merged in order.
fn turn_core<C: Carrier>(alloc: Global, core: &mut Core, carrier: &C) -> Result<(), Memory>
    requires can_carry { C.can_carry carrier.now }
    requires lent { core.old.arbiter.phase ≡ phase.Lent }
    requires inside { core.old.out ≡ false }
    requires somewhere { IsSomewhereHere core.old }
    ensures settles { OnOk result (SettlesCore core.old core.new) }
    ensures cut { OnErr result (CutsTurns core.old core.new) }
    ensures grows { OnOk result (core.new.arbiter.phase ≡ phase.Lent →
        length (stand_in core.old.arbiter).threads < length (stand_in core.new.arbiter).threads) }
    ensures kept { KeepsProgram core.old.arbiter core.new.arbiter }
    ensures inside { OnOk result (core.new.out ≡ false) }
{
    let budget = core.arbiter().floor().options().budget();
    let lent = core.hand_out();
    let done = carrier.carry_out(alloc, core.arbiter().ground(), budget, lent)?;
    core.hand_in(done);
    core.seal()
}

/// Turn after turn, until nothing is to be run. Wherever the core was, nothing of its lent jobs having
/// begun, it is then at a moment that rests or is over, after the same lines, with the same records or
/// with one of a verdict more.
pub fn settle_core<C: Carrier>(alloc: Global, core: &mut Core, carrier: &C) -> Result<(), Memory>
    requires can_carry { C.can_carry carrier.now }
    requires inside { core.old.out ≡ false }
    requires somewhere { IsSomewhereHere core.old }
    ensures settles { OnOk result (SettlesCore core.old core.new) }
    ensures settled { OnOk result (IsSettled core.new.arbiter.phase) }
    ensures cut { OnErr result (CutsTurns core.old core.new) }
    ensures kept { KeepsProgram core.old.arbiter core.new.arbiter }
    ensures inside { OnOk result (core.new.out ≡ false) }
{
    while core.arbiter().phase() == Phase::Lent {
        // Each turn but the first runs b-threads that the one before registered, and these are few.
        core.arbiter().keeps();
        turn_core(alloc, core, carrier)?;
    }
    Ok(())
}
