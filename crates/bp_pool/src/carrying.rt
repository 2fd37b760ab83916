//! Jobs that are carried on, slice by slice, in the thread that has them.
ghost use Rattle.std.specs.Prelude.{◌≡◌, ℕ, ◌<◌, ◌↔◌, IfOk, OnOk, IsSome, IsTrue, None, is_some};
ghost use Rattle.js_frames.specs.Places.{plain_ground};
ghost use Rattle.bp_thread.specs.Jobs.{plain_job, IsOf};
ghost use Rattle.bp_thread.specs.Carried.{CarriedOut, AreCarriedOut};
ghost use Rattle.bp_pool.specs.Carrying.{AreOf, AreOpen, IsCarriedOn, Each};

use crate::gate::Gate;
use bp_thread::Job;
use js_data::Memory;
use js_frames::Ground;
use std::sync::Wait;

/// Whether the job has its outcome.
pub(crate) fn has_outcome(job: &Job) -> bool
    ensures { result ≡ is_some (plain_job job.now).outcome }
{
    job.outcome().is_some()
}

/// Carries each job on by one slice.
pub(crate) fn look(ground: &Ground, jobs: &mut [Job], slice: u64) -> Result<(), Memory>
    requires program { AreOf (plain_ground ground.now) jobs.old }
    requires open { AreOpen jobs.old }
    ensures carried { OnOk result (Each (IsCarriedOn (plain_ground ground.now)) jobs.old jobs.new) }
{
    for job in jobs {
        job.slice(ground, slice)?;
    }
    Ok(())
}

/// One slice of the job, of which the gate is told.
fn gated_slice<G: Gate>(
    ground: &Ground,
    job: &mut Job,
    slice: u64,
    gate: &G,
) -> Result<bool, Memory>
    requires program { IsOf (plain_ground ground.now).program job.old }
    requires open { (plain_job job.old).outcome ≡ None }
    ensures program { IsOf (plain_ground ground.now).program job.new }
    ensures done { IfOk result (λ done. IsTrue done ↔ IsSome (plain_job job.new).outcome) }
    ensures carried { OnOk result (IsCarriedOn (plain_ground ground.now) job.old job.new) }
{
    let number = job.number();
    gate.before(number);
    let sliced = job.slice(ground, slice);
    gate.after(number, matches!(sliced, Ok(false)));
    sliced
}

/// The nodes of a hold, so that small slices don't pay for the queue at each node.
const HOLD: u64 = 1_000;

/// A hold of the job: one slice, or as many smaller ones as begin the nodes of a hold, or fewer to
/// its outcome. Whether it has its outcome.
pub(crate) fn hold<G: Gate>(
    ground: &Ground,
    job: &mut Job,
    slice: u64,
    gate: &G,
) -> Result<bool, Memory>
    requires some_slice { 0 < slice }
    requires program { IsOf (plain_ground ground.now).program job.old }
    requires open { (plain_job job.old).outcome ≡ None }
    ensures program { IsOf (plain_ground ground.now).program job.new }
    ensures done { IfOk result (λ done. IsTrue done ↔ IsSome (plain_job job.new).outcome) }
    ensures carried { OnOk result (IsCarriedOn (plain_ground ground.now) job.old job.new) }
{
    for _slices in 0..HOLD.div_ceil(slice) {
        if gated_slice(ground, job, slice, gate)? {
            return Ok(true);
        }
    }
    Ok(false)
}

/// Carries the job to its outcome, unless it has one.
fn finish<G: Gate, R: Wait>(
    rt: &R,
    ground: &Ground,
    job: &mut Job,
    slice: u64,
    gate: &G,
) -> Result<(), Memory>
    requires program { IsOf (plain_ground ground.now).program job.old }
    ensures { (budget : ℕ) →
        OnOk result (CarriedOut (plain_ground ground.now) budget job.old job.new) }
{
    if has_outcome(job) {
        return Ok(());
    }
    for _slices in rt.forever() {
        if gated_slice(ground, job, slice, gate)? {
            return Ok(());
        }
    }
    unreachable!()
}

/// Carries each job to its outcome, one after the other.
pub(crate) fn finish_all<G: Gate, R: Wait>(
    rt: &R,
    ground: &Ground,
    jobs: &mut [Job],
    slice: u64,
    gate: &G,
) -> Result<(), Memory>
    requires program { AreOf (plain_ground ground.now) jobs.old }
    ensures { (budget : ℕ) →
        OnOk result (AreCarriedOut (plain_ground ground.now) budget jobs.old jobs.new) }
{
    for job in jobs {
        finish(rt, ground, job, slice, gate)?;
    }
    Ok(())
}
