//! Jobs that are taken out of their list while they are carried on, and put back at their places.
ghost use Rattle.std.specs.Prelude.{◌≡◌, ◌<◌, [], length, map, All, IfOk, OnOk, IsSome, Some, None};
ghost use Rattle.js_frames.specs.Places.{plain_ground};
ghost use Rattle.bp_pool.specs.Carrying.{AreOf};
ghost use Rattle.bp_pool.specs.Seats.{AreSeated, StaySeated, IsOpen, IsOut, HaveOwnPlaces};

use crate::carrying::has_outcome;
use crate::seat::Seat;
use bp_thread::Job;
use js_data::Memory;
use js_frames::Ground;
use std::alloc::{AllocError, Global};

/// Takes the jobs without outcome out of their list: what is left of it, and their seats.
pub(crate) fn take_out(
    alloc: Global,
    ground: &Ground,
    jobs: Vec<Job>,
) -> Result<(Vec<Option<Job>>, Vec<Seat>), Memory>
    requires program { AreOf (plain_ground ground.now) jobs.items }
    ensures seated { IfOk result (λ parts.
        AreSeated (plain_ground ground.now) jobs.items parts.0.items parts.1.items) }
    ensures open { IfOk result (λ parts. All (IsOpen (plain_ground ground.now)) parts.1.items) }
    ensures own { IfOk result (λ parts. HaveOwnPlaces parts.1.items) }
{
    let mut done = Vec::new(alloc);
    let mut seats = Vec::new(alloc);
    for job in jobs {
        if has_outcome(&job) {
            done.push(Some(job))?;
        } else {
            let place = done.len();
            done.push(None)?;
            seats.push(Seat::new(place, job))?;
        }
    }
    Ok((done, seats))
}

/// Puts the jobs, each of which has its outcome now, back at their places, in any order. Its only
/// error is out of memory in one of the jobs.
pub(crate) fn put_back(
    ground: &Ground,
    seats: Vec<Seat>,
    done: &mut Vec<Option<Job>>,
) -> Result<(), Memory>
    requires within { All (λ s. s.place < length done.old.items) seats.items }
    requires out { All IsOut seats.items }
    ensures { OnOk result
        (StaySeated (plain_ground ground.now) done.old.items seats.items done.new.items []) }
{
    for seat in seats {
        if seat.lost {
            return Err(AllocError);
        }
        let (place, job) = seat.into_parts();
        done[place] = Some(job);
    }
    Ok(())
}

/// The jobs, each of which is back at its place.
pub(crate) fn all_of(alloc: Global, done: Vec<Option<Job>>) -> Result<Vec<Job>, Memory>
    requires { All (λ o. IsSome o) done.items }
    ensures { IfOk result (λ jobs. map (λ j. Some j) jobs.items ≡ done.items) }
{
    let mut jobs = Vec::new(alloc);
    for place in done {
        match place {
            Some(job) => jobs.push(job)?,
            None => unreachable!(),
        }
    }
    Ok(jobs)
}
