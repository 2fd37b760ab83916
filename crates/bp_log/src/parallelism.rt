//! What is asked of the machine that runs, and shows in no output.
ghost use Rattle.std.specs.Prelude.{◌≡◌, SomeIff};
ghost use Rattle.bp_log.specs.Parallelism.{PlainParallelism, IsParallelism, default_parallelism};

use crate::limits::{MOST_SLICE, MOST_WORKERS};
use std::alloc::AllocError;
use std::marker::Model;

/// How many workers run the b-threads, and how many nodes a slice of work begins.
///
/// Its type keeps that there are 1 to 64 workers, and that a slice is 1 to 1,000,000,000 nodes.
pub struct Parallelism {
    workers: u32,
    slice: u64,
}

impl Model for Parallelism {
    ghost use Rattle.bp_log.specs.Parallelism.{PlainParallelism, IsParallelism};

    ghost Value = { PlainParallelism };

    ghost view = { λ b. record { workers = b.workers; slice = b.slice } };

    ghost invariant = { λ b. IsParallelism (record { workers = b.workers; slice = b.slice }) };

    ghost inverse = { λ p. record { workers = p.workers; slice = p.slice } };
}

impl Clone for Parallelism {
    ghost use Rattle.std.specs.Prelude.{◌≡◌, ⊤};

    ghost is_clone = { λ a b. b ≡ a };

    ghost is_infallible = { λ _. ⊤ };

    fn clone(&self) -> Result<Parallelism, AllocError> {
        Ok(*self)
    }
}

impl Copy for Parallelism {}

impl Parallelism {
    /// These numbers, or `None` exactly where one is out of its range.
    pub fn new(workers: u32, slice: u64) -> Option<Parallelism>
        ensures { let plain : PlainParallelism = record { workers = workers; slice = slice } in
            SomeIff result (IsParallelism plain) plain }
    {
        let workers_fit = 1 <= workers && workers <= MOST_WORKERS;
        let slice_fits = 1 <= slice && slice <= MOST_SLICE;
        if !workers_fit || !slice_fits {
            return None;
        }
        Some(Parallelism { workers, slice })
    }

    /// Four workers, and slices of 10,000 nodes.
    pub fn defaults() -> Parallelism
        ensures { result ≡ default_parallelism }
    {
        Parallelism {
            workers: 4,
            slice: 10_000,
        }
    }

    /// How many workers there are.
    pub fn workers(&self) -> u32
        ensures workers { result ≡ self.now.workers }
        ensures within { IsParallelism self.now }
    {
        self.workers
    }

    /// How many nodes a slice begins.
    pub fn slice(&self) -> u64
        ensures slice { result ≡ self.now.slice }
        ensures within { IsParallelism self.now }
    {
        self.slice
    }
}
