//! Where the b-threads of a run at rest stand.
ghost use Rattle.std.specs.Prelude.{◌≡◌, ◌≤◌, length, map, false, IfOk, OnOk, string_bytes};
ghost use Rattle.bp_log.specs.declared.limits.TheConstants.{MOST_THREADS};
ghost use Rattle.bp_run.specs.Selecting.{Asked, Enabled as Plain};
ghost use Rattle.bp_select.specs.Answers.{AnswersAs, enabled_of};
ghost use Rattle.bp_floor.specs.declared.phase.Phase.TheVariants as phase;
ghost use Rattle.bp_explain.specs.Blocking.{is_nothing};
ghost use Rattle.bp_answers.specs.inner.Resting.{plain_stop, stops_from, RestsAs};

use bp_arbiter::{Arbiter, Floor};
use bp_explain::{Rest, Stop, write_rest};
use bp_log::Memory;
use bp_select::{Enabled, SelectFault};
use std::alloc::{AllocError, Global};

/// Whether nothing can be selected. Where a set is at fault, that isn't so.
fn is_nothing(enabled: Result<Enabled, SelectFault>) -> Result<bool, Memory>
    ensures { (asked : Asked Plain) → AnswersAs enabled_of asked enabled →
        IfOk result (λ b. b ≡ is_nothing asked) }
{
    match enabled {
        Ok(enabled) => Ok(enabled.inner.is_empty() && enabled.outer.is_none()),
        Err(SelectFault::Set(_, _)) => Ok(false),
        Err(SelectFault::Memory) => Err(AllocError),
    }
}

/// The b-threads that stand at a `bp.sync`, in the order of registration.
pub(crate) fn stops(alloc: Global, floor: &Floor) -> Result<Vec<Stop<'_>>, Memory>
    requires sound { floor.now.broken ≡ false }
    requires rest { floor.now.phase ≡ phase.Rest }
    requires few { length floor.now.pair.stand.threads ≤ MOST_THREADS }
    ensures { IfOk result (λ l. map plain_stop l.items
        ≡ stops_from floor.now.base.program floor.now.options 0 floor.now.pair.stand.threads) }
{
    let mut stops = Vec::new(alloc);
    for number in 0..floor.count() as u32 {
        match floor.stopped(number) {
            None => {}
            Some((line, statement)) => stops.push(Stop {
                number,
                name: floor.name_of(number),
                line,
                statement,
            })?,
        }
    }
    Ok(stops)
}

/// Writes where a run rests.
pub fn write_at_rest(alloc: Global, arbiter: &mut Arbiter, text: &mut String) -> Result<(), Memory>
    requires sound { arbiter.old.broken ≡ false }
    requires rest { arbiter.old.phase ≡ phase.Rest }
    ensures written { OnOk result (RestsAs arbiter.old (string_bytes text.old)
        (string_bytes text.new)) }
    ensures same { arbiter.new ≡ arbiter.old }
{
    let nothing = is_nothing(arbiter.enabled(alloc))?;
    // For the proof: what the arbiter keeps.
    arbiter.keeps();
    let floor = arbiter.floor();
    let stops = stops(alloc, floor)?;
    let rest = Rest {
        ground: floor.ground(),
        budget: floor.options().budget(),
        stops: stops.as_slice(),
        queue: floor.queue(),
        reading: arbiter.reading(),
        nothing,
    };
    write_rest(alloc, &rest, text)
}
