//! Sources of the tests' own. They tell nothing of their content.
ghost use Rattle.std.specs.Prelude.{None};

use bp_base::{Failed, MemorySource, Source};
use std::alloc::Global;
use std::sync::atomic::{AtomicU64, Ordering};
use std::test::Fail;
use std::thread::yield_now;

/// How often a source looks at most; it lets other threads run after each look.
const LOOKS: u64 = 20_000_000;

/// Gives at most this many bytes at each read.
#[derive(Drop)]
pub struct Drip {
    inner: MemorySource,
    step: usize,
}

impl Drip {
    /// These bytes by pieces, and the read of this number fails.
    pub fn new(alloc: Global, bytes: &[u8], step: usize, fails: u64) -> Result<Drip, Fail> {
        Ok(Drip {
            inner: MemorySource::new(bytes.to_vec(alloc)?, [fails].to_vec(alloc)?),
            step,
        })
    }
}

impl Source for Drip {
    ghost left = { λ _. None };

    ghost faults = { λ s. s.inner.faults };

    fn read(&mut self, into: &mut [u8]) -> Result<usize, Failed> {
        let count = into.len().min(self.step);
        self.inner.read(&mut into[..count])
    }
}

/// Gives its bytes once as many sources as are to meet have begun their first reads, and fails where the others do not come.
#[derive(Drop)]
pub struct Meeting<'a> {
    pub begun: &'a AtomicU64,
    pub meets: u64,
    pub inner: Drip,
    pub first: bool,
    pub faults: u64,
}

impl<'a> Source for Meeting<'a> {
    ghost left = { λ _. None };

    ghost faults = { λ s. s.faults };

    fn read(&mut self, into: &mut [u8]) -> Result<usize, Failed> {
        if self.first {
            self.first = false;
            self.begun.fetch_add(1, Ordering::SeqCst);
            if !all_came(self.begun, self.meets) {
                self.faults = self.faults.saturating_add(1);
                return Err(Failed);
            }
        }
        match self.inner.read(into) {
            Ok(count) => Ok(count),
            Err(failed) => {
                self.faults = self.faults.saturating_add(1);
                Err(failed)
            }
        }
    }
}

/// Waits until this many have begun: whether it came to that.
fn all_came(begun: &AtomicU64, meets: u64) -> bool {
    for _ in 0..LOOKS {
        if begun.load(Ordering::SeqCst) >= meets {
            return true;
        }
        yield_now();
    }
    false
}
