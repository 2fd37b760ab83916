//! Jobs that are carried to their outcomes by several workers.
ghost use Rattle.std.specs.Prelude.{ℕ, ◌<◌, ◌≤◌, IfOk};
ghost use Rattle.js_frames.specs.Places.{plain_ground};
ghost use Rattle.bp_log.specs.declared.limits.TheConstants.{MOST_WORKERS};
ghost use Rattle.bp_thread.specs.Carried.{AreCarriedOut};
ghost use Rattle.bp_pool.specs.Carrying.{AreOf};

use crate::gate::Gate;
use crate::pace::Pace;
use crate::queue::by_queue;
use crate::seating::{all_of, put_back, take_out};
use bp_thread::Job;
use js_data::Memory;
use js_frames::Ground;
use std::alloc::Global;
use std::sync::Wait;
use std::thread::Threads;

/// Carries each job to its outcome, by workers over one shared queue.
pub(crate) fn by_workers<G: Gate + Sync, R: Threads + Wait + Sync>(
    rt: &R,
    alloc: Global,
    ground: &Ground,
    jobs: Vec<Job>,
    pace: Pace,
    gate: &G,
) -> Result<Vec<Job>, Memory>
    requires few_workers { pace.workers ≤ MOST_WORKERS }
    requires some_slice { 0 < pace.slice }
    requires program { AreOf (plain_ground ground.now) jobs.items }
    ensures { (budget : ℕ) → IfOk result (λ all.
        AreCarriedOut (plain_ground ground.now) budget jobs.items all.items) }
{
    let (mut done, seats) = take_out(alloc, ground, jobs)?;
    let finished = by_queue(rt, alloc, ground, seats, pace, gate)?;
    put_back(ground, finished, &mut done)?;
    all_of(alloc, done)
}
