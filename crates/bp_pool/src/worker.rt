//! Workers, each of which carries on the jobs that it pops from the shared queue.
ghost use Rattle.std.specs.Prelude.{◌≡◌, ◌<◌, [], length, IfOk, true, false};
ghost use Rattle.crossbeam_queue.specs.Passes.{view, IsPassOf, IsSamePass, ruled_capacity};
ghost use Rattle.js_frames.specs.Places.{plain_ground};
ghost use Rattle.bp_pool.specs.Seats.{Turned, IsOpen, IsOut};
ghost use Rattle.bp_pool.specs.Shared.{hand};
ghost use Rattle.bp_pool.specs.Workers.{IsWork};

use crate::carrying::hold;
use crate::gate::Gate;
use crate::pace::Pace;
use crate::rule::{Gives, Hand, Lending, Queue, Takes};
use crate::seat::Seat;
use crossbeam_queue::Pass;
use crossbeam_queue::protocol::Free;
use js_data::Memory;
use js_frames::Ground;
use std::alloc::Global;
use std::sync::Wait;

/// What a worker gives back: its pass, and the seats that stayed in its hand.
#[derive(Drop)]
pub struct Worked {
    /// The pass.
    pub pass: Pass<Seat, Hand>,
    /// The seats, each with its outcome or lost for lack of memory.
    pub seats: Vec<Seat>,
}

/// A hold of the seat's job: whether the job is to be carried on.
fn hold_seat<G: Gate>(ground: &Ground, seat: &mut Seat, slice: u64, gate: &G) -> bool
    requires some_slice { 0 < slice }
    requires can_turn { IsOpen (plain_ground ground.now) seat.old }
    ensures turned { Turned (plain_ground ground.now) seat.old seat.new }
    ensures open { result ≡ true → IsOpen (plain_ground ground.now) seat.new }
    ensures done { result ≡ false → IsOut seat.new }
{
    match hold(ground, &mut seat.job, slice, gate) {
        Ok(true) => false,
        Ok(false) => true,
        Err(_) => {
            seat.lost = true;
            false
        }
    }
}

/// Carries the seat's job to its outcome, unless memory runs out.
pub(crate) fn finish_seat<G: Gate, R: Wait>(
    rt: &R,
    ground: &Ground,
    mut seat: Seat,
    slice: u64,
    gate: &G,
) -> Seat
    requires some_slice { 0 < slice }
    requires open { IsOpen (plain_ground ground.now) seat }
    ensures turned { Turned (plain_ground ground.now) seat result }
    ensures out { IsOut result }
{
    for _holds in rt.forever() {
        if !hold_seat(ground, &mut seat, slice, gate) {
            return seat;
        }
    }
    unreachable!()
}

/// Holds of the seat's job, one after the other as long as at least as many seats wait as there are
/// workers: whether the job is to be carried on then. So a long job that is begun early is not put
/// after all others again and again, and the last few jobs are shared out evenly.
fn turn<L: Lending, G: Gate, R: Wait>(
    rt: &R,
    ground: &Ground,
    queue: &Queue<L>,
    pass: &mut Pass<Seat, Hand>,
    seat: &mut Seat,
    pace: Pace,
    gate: &G,
) -> bool
    requires pass { IsPassOf queue.now pass.old }
    requires some_slice { 0 < pace.slice }
    requires can_turn { IsOpen (plain_ground ground.now) seat.old }
    ensures pass { IsSamePass pass.old pass.new }
    ensures view { view pass.new ≡ view pass.old }
    ensures turned { Turned (plain_ground ground.now) seat.old seat.new }
    ensures open { result ≡ true → IsOpen (plain_ground ground.now) seat.new }
    ensures done { result ≡ false → IsOut seat.new }
{
    for _holds in rt.forever() {
        if !hold_seat(ground, seat, pace.slice, gate) {
            return false;
        }
        if queue.len_as::<Free, R>(rt, pass) < pace.workers as usize {
            return true;
        }
    }
    unreachable!()
}

/// Pops seats until none is there, and carries on the job of each. One that is to be carried on
/// further is pushed again, and each other one stays in hand. Its only error is out of memory for
/// the list of these.
pub(crate) fn work<L: Lending, G: Gate, R: Wait>(
    rt: &R,
    alloc: Global,
    ground: &Ground,
    queue: &Queue<L>,
    mut pass: Pass<Seat, Hand>,
    pace: Pace,
    gate: &G,
) -> Result<Worked, Memory>
    requires pass { IsPassOf queue.now pass }
    requires view { view pass ≡ hand L.lent [] 1 }
    requires room { ruled_capacity queue.now ≡ length L.lent }
    requires some_slice { 0 < pace.slice }
    requires base { plain_ground ground.now ≡ L.base }
    ensures { IfOk result (IsWork L.base queue.now L.lent) }
{
    let mut seats = Vec::new(alloc);
    for _pops in rt.forever() {
        seats.reserve(1)?;
        let Some(mut seat) = queue.pop_as::<Takes<L>, R>(rt, &mut pass) else {
            break;
        };
        if turn(rt, ground, queue, &mut pass, &mut seat, pace, gate) {
            match queue.push_as::<Gives, R>(rt, &mut pass, seat) {
                Ok(()) => {}
                Err(_) => unreachable!(),
            }
        } else {
            seats.push_reserved(seat);
        }
    }
    Ok(Worked { pass, seats })
}
