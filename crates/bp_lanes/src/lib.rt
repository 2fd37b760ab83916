//! Lanes from the thread that reads an injector to the one that serves a run, and the bell that
//! wakes who waits.
#![tactic(auto)]

ghost use Rattle.std.specs.Prelude.{◌≡◌, [], false, IfOk};
ghost use Rattle.bp_lanes.specs.declared.TheConstants.{ROOM};
ghost use Rattle.bp_lanes.specs.Lanes.{offered, free_places, taken, known, is_closed, IsLane};

mod bell;
mod ends;

pub use bell::{Bell, Rope, Wake};
use bp_base::Memory;
pub use ends::{Ear, Mouth};
use rtrb::RingBuffer;
use std::alloc::Global;

/// How many items a lane has room for.
pub const ROOM: usize = 64;

/// The two ends of a fresh lane.
pub fn lane(alloc: Global) -> Result<(Mouth, Ear), Memory>
    ensures ends { IfOk result (λ r. IsLane r.0 r.1) }
    ensures mouth { IfOk result (λ r. (offered r.0 ≡ []) × (free_places r.0 ≡ ROOM)) }
    ensures ear { IfOk result (λ r. (taken r.1 ≡ []) × (known r.1 ≡ [])) }
    ensures open { IfOk result (λ r. is_closed r.1 ≡ false) }
{
    let (producer, consumer) = RingBuffer::new(alloc, ROOM)?;
    Ok((Mouth::new(producer), Ear::new(consumer)))
}

/// Takes only what may move to another thread.
fn is_send<T: Send>(_value: &T) {}

/// Takes only what threads may share.
fn is_sync<T: Sync>(_value: &T) {}

/// The ends of a lane may move to another thread, and threads may share a bell.
pub fn moves_between_threads(mouth: &Mouth, ear: &Ear, bell: &Bell) {
    is_send(mouth);
    is_send(ear);
    is_sync(bell);
}
