//! Turns: what is to be run is carried to its outcome and merged, until nobody is to be run.
ghost use Rattle.std.specs.Prelude.{◌≡◌, ◌<◌, ◌≤◌, false, length, IfOk, OnOk};
ghost use Rattle.bp_floor.specs.declared.phase.Phase.TheVariants as phase;
ghost use Rattle.bp_arbiter.specs.Arbiters.{stand_in, is_lent, StandsSomewhere};
ghost use Rattle.bp_turns.specs.Turning.{Settles};

use crate::carrier::Carrier;
use bp_arbiter::{Arbiter, Phase};
use bp_log::Memory;
use std::alloc::Global;

/// One turn: the jobs of what is to be run are carried to their outcomes, and what they did is
/// merged in order.
fn turn<C: Carrier>(alloc: Global, arbiter: &mut Arbiter, carrier: &C) -> Result<Phase, Memory>
    requires can_carry { C.can_carry carrier.now }
    requires ready { arbiter.old.phase ≡ phase.Ready }
    requires stands { StandsSomewhere arbiter.old }
    ensures settles { OnOk result (Settles arbiter.old arbiter.new) }
    ensures phase { IfOk result (λ f. f ≡ arbiter.new.phase) }
    ensures records { OnOk result (length arbiter.old.records ≤ length arbiter.new.records) }
    ensures grows { IfOk result (λ f. f ≡ phase.Ready
        → length (stand_in arbiter.old).threads < length (stand_in arbiter.new).threads) }
    ensures program { arbiter.new.floor.base.program ≡ arbiter.old.floor.base.program }
{
    let budget = arbiter.floor().options().budget();
    let lent = arbiter.lend(alloc)?;
    let done = carrier.carry_out(alloc, arbiter.ground(), budget, lent)?;
    arbiter.seal(alloc, done)
}

/// Turn after turn, until nobody is to be run.
pub fn settle<C: Carrier>(alloc: Global, arbiter: &mut Arbiter, carrier: &C) -> Result<(), Memory>
    requires can_carry { C.can_carry carrier.now }
    requires stands { StandsSomewhere arbiter.old }
    requires unlent { is_lent arbiter.old.phase ≡ false }
    ensures settles { OnOk result (Settles arbiter.old arbiter.new) }
    ensures records { OnOk result (length arbiter.old.records ≤ length arbiter.new.records) }
    ensures settled { OnOk result (¬ (arbiter.new.phase ≡ phase.Ready)) }
    ensures program { arbiter.new.floor.base.program ≡ arbiter.old.floor.base.program }
{
    while arbiter.phase() == Phase::Ready {
        // Each turn but the first runs b-threads that the one before registered, and these are few.
        arbiter.keeps();
        turn(alloc, arbiter, carrier)?;
    }
    Ok(())
}
