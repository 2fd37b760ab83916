//! The super-step.
ghost use Rattle.std.specs.Prelude.{ℕ, ◌<◌, ◌≤◌, IfOk};
ghost use Rattle.js_frames.specs.Places.{plain_ground};
ghost use Rattle.bp_log.specs.declared.limits.TheConstants.{MOST_WORKERS};
ghost use Rattle.bp_thread.specs.Carried.{AreCarriedOut, HaveDistinctNumbers};
ghost use Rattle.bp_pool.specs.Carrying.{AreOf, AreOpen};

use crate::carrying::{finish_all, has_outcome, look};
use crate::gate::Gate;
use crate::pace::Pace;
use crate::workers::by_workers;
use bp_thread::Job;
use js_data::Memory;
use js_frames::Ground;
use std::alloc::Global;
use std::sync::Wait;
use std::thread::Threads;

/// Whether more than one of the jobs has no outcome yet.
fn are_several_open(jobs: &[Job]) -> bool {
    jobs.iter().filter(|job| !has_outcome(job)).nth(1).is_some()
}

/// Carries each job to its outcome, by slices of this many nodes and by this many workers at most, from
/// 1 to 64: the same jobs in the same order, whatever the workers, the slice and the order in which
/// threads come to run.
///
/// The calling thread takes a look first: it carries each job on by one slice. Where at most one
/// job is left without outcome, or one worker is allowed, it carries them on itself. Else those that
/// are left go into one shared queue, from which each worker takes a job, makes a slice of it or
/// several, and puts it back, until none is there. So a job may go on with another worker between
/// two slices. Where a thread can't be started, the calling thread does its work. When out of
/// memory, which is its only error, the jobs are dropped.
pub fn superstep<G: Gate + Sync, R: Threads + Wait + Sync>(
    rt: &R,
    alloc: Global,
    ground: &Ground,
    jobs: Vec<Job>,
    workers: u32,
    slice: u64,
    gate: &G,
) -> Result<Vec<Job>, Memory>
    requires some_workers { 0 < workers }
    requires few_workers { workers ≤ MOST_WORKERS }
    requires some_slice { 0 < slice }
    requires program { AreOf (plain_ground ground.now) jobs.items }
    requires open { AreOpen jobs.items }
    requires distinct { HaveDistinctNumbers jobs.items }
    ensures { (budget : ℕ) → IfOk result (λ done.
        AreCarriedOut (plain_ground ground.now) budget jobs.items done.items) }
{
    let mut jobs = jobs;
    look(ground, jobs.as_mut_slice(), slice)?;
    if workers > 1 && are_several_open(jobs.as_slice()) {
        return by_workers(rt, alloc, ground, jobs, Pace { workers, slice }, gate);
    }
    finish_all(rt, ground, jobs.as_mut_slice(), slice, gate)?;
    Ok(jobs)
}
