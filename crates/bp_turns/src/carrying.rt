//! Jobs that are carried on, slice by slice, to their outcomes.
ghost use Rattle.std.specs.Prelude.{◌≡◌, ◌<◌, All, None, OnOk};
ghost use Rattle.js_frames.specs.Places.{plain_ground};
ghost use Rattle.bp_thread.specs.Jobs.{plain_job, IsOf, IsWhole};
ghost use Rattle.bp_thread.specs.Carried.{CarriedOut, AreCarriedOut};
ghost use Rattle.bp_pool.specs.Carrying.{AreOf, AreOpen};

use bp_log::Memory;
use bp_thread::Job;
use js_frames::Ground;

/// Carries the job to its outcome.
fn carry(ground: &Ground, budget: u64, slice: u64, job: &mut Job) -> Result<(), Memory>
    requires some_budget { 0 < budget }
    requires some_slice { 0 < slice }
    requires program { IsOf (plain_ground ground.now).program job.old }
    requires open { (plain_job job.old).outcome ≡ None }
    requires whole { IsWhole (plain_ground ground.now) budget job.old }
    ensures { OnOk result (CarriedOut (plain_ground ground.now) budget job.old job.new) }
{
    // Each slice but the last begins a node of the budget, or more.
    for _slices in 0..budget {
        if job.slice(ground, slice)? {
            return Ok(());
        }
    }
    unreachable!()
}

/// Carries each of the jobs to its outcome, one after the other.
pub fn carry_all(
    ground: &Ground,
    budget: u64,
    slice: u64,
    jobs: &mut Vec<Job>,
) -> Result<(), Memory>
    requires some_budget { 0 < budget }
    requires some_slice { 0 < slice }
    requires program { AreOf (plain_ground ground.now) jobs.old.items }
    requires open { AreOpen jobs.old.items }
    requires whole { All (IsWhole (plain_ground ground.now) budget) jobs.old.items }
    ensures { OnOk result
        (AreCarriedOut (plain_ground ground.now) budget jobs.old.items jobs.new.items) }
{
    for job in jobs.iter_mut() {
        carry(ground, budget, slice, job)?;
    }
    Ok(())
}
