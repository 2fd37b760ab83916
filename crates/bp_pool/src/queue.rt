//! Seats that are carried to their outcomes by workers over one shared queue.
ghost use Rattle.std.specs.Prelude.{◌≡◌, ◌+◌, ◌-◌, ◌<◌, ◌≤◌, [], length, All, IfOk, vec_len};
ghost use Rattle.crossbeam_queue.specs.Passes.{view, IsPassOf, ruled_capacity};
ghost use Rattle.js_frames.specs.Places.{plain_ground};
ghost use Rattle.bp_log.specs.declared.limits.TheConstants.{MOST_WORKERS};
ghost use Rattle.bp_pool.specs.Seats.{IsOpen, HaveOwnPlaces};
ghost use Rattle.bp_pool.specs.Shared.{hand, owner, places_of, all_parts};
ghost use Rattle.bp_pool.specs.Workers.{Holds, IsWork, AreFinished};

use crate::gate::Gate;
use crate::pace::Pace;
use crate::rule::{Gives, Hand, Hands, Lending, Queue, Takes};
use crate::seat::Seat;
use crate::worker::{Worked, finish_seat, work};
use crossbeam_queue::Pass;
use js_data::Memory;
use js_frames::Ground;
use std::alloc::Global;
use std::marker::Brand;
use std::sync::Wait;
use std::thread;
use std::thread::Threads;

/// A pass with one part for each worker, beside the pass that is left.
fn split<L: Lending>(
    alloc: Global,
    queue: &Queue<L>,
    mut mine: Pass<Seat, Hand>,
    workers: u32,
) -> Result<(Pass<Seat, Hand>, Vec<Pass<Seat, Hand>>), Memory>
    requires pass { IsPassOf queue.now mine }
    requires view { view mine ≡ owner L.lent }
    requires few_workers { workers ≤ MOST_WORKERS }
    ensures mine { IfOk result (λ r. IsPassOf queue.now r.0) }
    ensures left { IfOk result (λ r.
        view r.0 ≡ hand L.lent (places_of L.lent) (all_parts - workers)) }
    ensures as_many { IfOk result (λ r. vec_len r.1 ≡ workers) }
    ensures passes { IfOk result (λ r.
        All (λ p. IsPassOf queue.now p × (view p ≡ hand L.lent [] 1)) r.1.items) }
{
    let mut passes = Vec::new(alloc);
    for _worker in 0..workers {
        passes.reserve(1)?;
        passes.push_reserved(queue.another::<Hands>(&mut mine));
    }
    Ok((mine, passes))
}

/// Pushes all seats.
fn fill<L: Lending, R: Wait>(
    rt: &R,
    queue: &Queue<L>,
    mut mine: Pass<Seat, Hand>,
    seats: Vec<Seat>,
) -> Pass<Seat, Hand>
    requires pass { IsPassOf queue.now mine }
    requires lent { (view mine).lent ≡ seats.items }
    requires held { (view mine).held ≡ places_of seats.items }
    requires some_part { 0 < (view mine).parts }
    requires room { ruled_capacity queue.now ≡ length seats.items }
    requires open { All (IsOpen L.base) seats.items }
    ensures pass { IsPassOf queue.now result }
    ensures view { view result ≡ hand (view mine).lent [] (view mine).parts }
{
    for seat in seats {
        match queue.push_as::<Gives, R>(rt, &mut mine, seat) {
            Ok(()) => {}
            Err(_) => unreachable!(),
        }
    }
    mine
}

/// Joins the workers' passes, and puts together the seats that stayed in their hands. Its only error
/// is out of memory, here or in one of the workers.
fn gather<L: Lending>(
    alloc: Global,
    queue: &Queue<L>,
    mut mine: Pass<Seat, Hand>,
    worked: Vec<Result<Worked, Memory>>,
) -> Result<(Pass<Seat, Hand>, Vec<Seat>), Memory>
    requires pass { IsPassOf queue.now mine }
    requires lent { (view mine).lent ≡ L.lent }
    requires idle { (view mine).held ≡ [] }
    requires some_part { 0 < (view mine).parts }
    requires parts { (view mine).parts + vec_len worked ≡ all_parts }
    requires work { All (λ r. IfOk r (IsWork L.base queue.now L.lent)) worked.items }
    ensures pass { IfOk result (λ r. IsPassOf queue.now r.0) }
    ensures lent { IfOk result (λ r. (view r.0).lent ≡ L.lent) }
    ensures parts { IfOk result (λ r. (view r.0).parts ≡ all_parts) }
    ensures holds { IfOk result (λ r. Holds L.base L.lent (view r.0) r.1.items) }
{
    let mut seats = Vec::new(alloc);
    for part in worked {
        let back = part?;
        let Worked {
            pass,
            seats: mut more,
        } = back;
        queue.absorb::<Hands>(&mut mine, pass);
        seats.append(&mut more)?;
    }
    Ok((mine, seats))
}

/// Takes what is left in the queue, and carries the job of each seat to its outcome. Its only error
/// is out of memory for the list.
fn drain<L: Lending, G: Gate, R: Wait>(
    rt: &R,
    ground: &Ground,
    queue: &Queue<L>,
    mut mine: Pass<Seat, Hand>,
    mut seats: Vec<Seat>,
    slice: u64,
    gate: &G,
) -> Result<Vec<Seat>, Memory>
    requires pass { IsPassOf queue.now mine }
    requires lent { (view mine).lent ≡ L.lent }
    requires parts { (view mine).parts ≡ all_parts }
    requires holds { Holds L.base L.lent (view mine) seats.items }
    requires some_slice { 0 < slice }
    requires base { plain_ground ground.now ≡ L.base }
    ensures { IfOk result (λ v. AreFinished L.base L.lent v.items) }
{
    for _pops in rt.forever() {
        seats.reserve(1)?;
        let Some(seat) = queue.pop_as::<Takes<L>, R>(rt, &mut mine) else {
            return Ok(seats);
        };
        let finished = finish_seat(rt, ground, seat, slice, gate);
        seats.push_reserved(finished);
    }
    unreachable!()
}

/// Carries the lent seats, at least one, to their outcomes. Queue and passes are made before any job
/// is moved.
fn lend<L: Lending + Send + Sync, G: Gate + Sync, R: Threads + Wait + Sync>(
    rt: &R,
    alloc: Global,
    ground: &Ground,
    seats: Vec<Seat>,
    pace: Pace,
    gate: &G,
) -> Result<Vec<Seat>, Memory>
    requires lent { seats.items ≡ L.lent }
    requires base { plain_ground ground.now ≡ L.base }
    requires own { HaveOwnPlaces L.lent }
    requires some { 0 < length seats.items }
    requires open { All (IsOpen (plain_ground ground.now)) seats.items }
    requires few_workers { pace.workers ≤ MOST_WORKERS }
    requires some_slice { 0 < pace.slice }
    ensures { IfOk result (λ v. AreFinished (plain_ground ground.now) seats.items v.items) }
{
    let (queue, mine) = Queue::<L>::ruled(alloc, seats.len())?;
    let queue = &queue;
    let (mine, passes) = split(alloc, queue, mine, pace.workers)?;
    let mine = fill(rt, queue, mine, seats);
    let worked = thread::map_vec(
        rt,
        passes,
        &|pass: Pass<Seat, Hand>| -> Result<Worked, Memory>
            requires pass { IsPassOf queue.now pass }
            requires view { view pass ≡ hand L.lent [] 1 }
            requires room { ruled_capacity queue.now ≡ length L.lent }
            requires some_slice { 0 < pace.slice }
            requires base { plain_ground ground.now ≡ L.base }
            ensures { IfOk result (IsWork L.base queue.entry.now L.lent) }
        { work(rt, alloc, ground, queue, pass, pace, gate) },
    )?;
    let (mine, done) = gather(alloc, queue, mine, worked)?;
    drain(rt, ground, queue, mine, done, pace.slice, gate)
}

/// Carries the seats to their outcomes, by workers over one shared queue: the same seats in some
/// order, each with its outcome or lost for lack of memory. Its only error is out of memory for the
/// queue and the lists.
pub(crate) fn by_queue<G: Gate + Sync, R: Threads + Wait + Sync>(
    rt: &R,
    alloc: Global,
    ground: &Ground,
    seats: Vec<Seat>,
    pace: Pace,
    gate: &G,
) -> Result<Vec<Seat>, Memory>
    requires own { HaveOwnPlaces seats.items }
    requires open { All (IsOpen (plain_ground ground.now)) seats.items }
    requires few_workers { pace.workers ≤ MOST_WORKERS }
    requires some_slice { 0 < pace.slice }
    ensures { IfOk result (λ v. AreFinished (plain_ground ground.now) seats.items v.items) }
{
    if seats.is_empty() {
        return Ok(seats);
    }
    lend::<Brand, G, R>(rt, alloc, ground, seats, pace, gate)
}
