//! What an injector needs beside its source: all of its memory is taken before it starts.
ghost use Rattle.std.specs.Prelude.{◌≡◌, ◌<◌, length, false};
ghost use Rattle.rtrb.specs.Ring.{sent, received, known_free, IsPair};
ghost use Rattle.bp_lanes.specs.Lanes.{offered, taken, is_closed, IsLane};

use crate::running::NotOver;
use bp_base::{Memory, Source};
use bp_feeds::Feed;
use bp_lanes::{Ear, Mouth, lane};
use rtrb::{Consumer, Producer, RingBuffer};
use std::alloc::Global;

/// A lane for the items of one injector, of which nothing was offered, and a ring through which its
/// thread is to be handed its feed.
#[derive(Drop)]
pub struct Berth<S> {
    pub(crate) mouth: Mouth,
    pub(crate) ear: Ear,
    pub(crate) outlet: Producer<Feed<S>, Global, NotOver>,
    pub(crate) intake: Consumer<Feed<S>, Global, NotOver>,
    ghost lane: { IsLane mouth ear },
    ghost ring: { IsPair outlet intake },
    ghost unoffered: { length (offered mouth) ≡ 0 },
    ghost untaken: { length (taken ear) ≡ 0 },
    ghost open_lane: { is_closed ear ≡ false },
    ghost unsent: { length (sent outlet) ≡ 0 },
    ghost unreceived: { length (received intake) ≡ 0 },
    ghost place: { 0 < known_free outlet },
}

impl<S: Source + Drop> Berth<S> {
    /// A berth. Whoever has it can start an injector without taking memory.
    pub fn new(alloc: Global) -> Result<Berth<S>, Memory> {
        let (mouth, ear) = lane(alloc)?;
        let (outlet, intake) = RingBuffer::with_protocol::<Global, NotOver>(alloc, 1)?;
        Ok(Berth {
            mouth,
            ear,
            outlet,
            intake,
        })
    }
}
