//! A job goes from thread to thread between two slices.
ghost use Rattle.std.specs.Prelude.{◌≡◌, IfOk, None, false};
ghost use Rattle.js_frames.specs.Places.{plain_ground};
ghost use Rattle.bp_thread.specs.Jobs.{plain_job, IsOf};

use crate::programs::{BUDGET, call, first_started};
use crate::several::push_job;
use bp_thread::Job;
use js_data::Memory;
use js_frames::Ground;
use std::test::Fail;
use std::thread::{Threads, join};

fn sliced(ground: &Ground, job: Job, nodes: u64) -> Result<(Job, bool), Memory>
    requires program { IsOf (plain_ground ground.now).program job }
    requires open { (plain_job job).outcome ≡ None }
    ensures program { IfOk result (λ j. IsOf (plain_ground ground.now).program j.0) }
    ensures open { IfOk result (λ j. j.1 ≡ false → (plain_job j.0).outcome ≡ None) }
{
    let mut moved = job;
    let done = moved.slice(ground, nodes)?;
    Ok((moved, done))
}

/// A slice of the job in another thread, if one can be made.
fn beside<R: Threads + Sync>(
    rt: &R,
    ground: &Ground,
    job: Job,
    nodes: u64,
) -> Result<(Job, bool), Memory>
    requires program { IsOf (plain_ground ground.now).program job }
    requires open { (plain_job job).outcome ≡ None }
    ensures program { IfOk result (λ j. IsOf (plain_ground ground.now).program j.0) }
    ensures open { IfOk result (λ j. j.1 ≡ false → (plain_job j.0).outcome ≡ None) }
{
    join(rt, || sliced(ground, job, nodes), || ()).0
}

/// The job with its outcome, after slices of two nodes, each in another thread.
fn carried_beside<R: Threads + Sync>(rt: &R, ground: &Ground, job: Job) -> Result<Job, Fail>
    requires program { IsOf (plain_ground ground.now).program job }
    requires open { (plain_job job).outcome ≡ None }
{
    let mut carried = job;
    for _ in 0..BUDGET {
        let (moved, done) = beside(rt, ground, carried, 2)?;
        if done {
            return Ok(moved);
        }
        carried = moved;
    }
    Err("no outcome")?
}

#[test]
fn jobs_move_between_threads(rt: HostRuntime) -> Result<(), Fail> {
    let script = "bp.registerBThread('t', () => { bp.log.info(1 + 2); bp.log.info('b') })";
    let (ground, function) = first_started(rt.alloc(), script)?;
    let job = call(rt.alloc(), &ground, function)?;
    let moved = carried_beside(&rt, &ground, job)?;
    let mut out = String::new(rt.alloc());
    push_job(&mut out, moved)?;
    assert!(&rt; out.as_str() == "0: 3 b ended; ");
    Ok(())
}
