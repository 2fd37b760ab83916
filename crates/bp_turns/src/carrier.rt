//! Who carries lent jobs to their outcomes: the calling thread alone, or several workers.
ghost use Rattle.std.specs.Prelude.{◌<◌, All, IfOk, ⊤};
ghost use Rattle.js_frames.specs.Places.{plain_ground};
ghost use Rattle.bp_thread.specs.Jobs.{IsWhole};
ghost use Rattle.bp_thread.specs.Carried.{AreCarriedOut, HaveDistinctNumbers};
ghost use Rattle.bp_pool.specs.Carrying.{AreOf, AreOpen};

use crate::carrying::carry_all;
use bp_log::{Memory, Parallelism};
use bp_pool::{Open, superstep};
use bp_thread::Job;
use js_frames::Ground;
use std::alloc::Global;
use std::sync::Wait;
use std::thread::Threads;

/// Carries lent jobs to their outcomes.
pub trait Carrier {
    /// What is asked of a carrier: of one over threads, that they may share the runtime.
    ghost can_carry: { Self → Type 0 } = { λ _. ⊤ };

    /// The same jobs in the same order, each carried to its outcome.
    fn carry_out(
        &self,
        alloc: Global,
        ground: &Ground,
        budget: u64,
        jobs: Vec<Job>,
    ) -> Result<Vec<Job>, Memory>
        requires can_carry { can_carry self.now }
        requires some_budget { 0 < budget }
        requires program { AreOf (plain_ground ground.now) jobs.items }
        requires open { AreOpen jobs.items }
        requires whole { All (IsWhole (plain_ground ground.now) budget) jobs.items }
        requires distinct { HaveDistinctNumbers jobs.items }
        ensures { IfOk result (λ done.
            AreCarriedOut (plain_ground ground.now) budget jobs.items done.items) };
}

/// The calling thread, which carries one job after the other.
#[derive(Drop)]
pub struct Alone(pub Parallelism);

impl Carrier for Alone {
    fn carry_out(
        &self,
        _alloc: Global,
        ground: &Ground,
        budget: u64,
        jobs: Vec<Job>,
    ) -> Result<Vec<Job>, Memory> {
        let mut jobs = jobs;
        let slice = self.0.slice();
        carry_all(ground, budget, slice, &mut jobs)?;
        Ok(jobs)
    }
}

/// Workers, which carry jobs at once.
#[derive(Drop)]
pub struct Workers<'a, R: Threads + Wait + Sync> {
    /// The runtime that starts them.
    pub rt: &'a R,
    /// How many they are, and how many nodes a slice begins.
    pub parallelism: Parallelism,
}

impl<R: Threads + Wait + Sync> Carrier for Workers<'_, R> {
    ghost use denote.Param.Send.{IsSync};

    ghost can_carry = { λ _. IsSync R.row };

    fn carry_out(
        &self,
        alloc: Global,
        ground: &Ground,
        _budget: u64,
        jobs: Vec<Job>,
    ) -> Result<Vec<Job>, Memory> {
        let workers = self.parallelism.workers();
        let slice = self.parallelism.slice();
        superstep(self.rt, alloc, ground, jobs, workers, slice, &Open)
    }
}
