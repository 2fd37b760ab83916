//! A world of one injector, which looks at what was printed before it reads on.
ghost use Rattle.std.specs.Prelude.{None};

use bp_base::{Failed, MemorySink, MemorySource, Sink, Source, World, WorldError};
use std::alloc::Global;
use std::sync::atomic::{AtomicU64, Ordering};
use std::thread::yield_now;

/// How often a source looks at most; it lets other threads run after each look.
pub const LOOKS: u64 = 20_000_000;

/// As much as a log holds.
const ROOM: u64 = 100_000;

/// Gives its first bytes at the first read, and what is further there once this many lines were printed.
#[derive(Drop)]
pub struct Looking<'a> {
    printed: &'a AtomicU64,
    least: u64,
    looks: u64,
    first: MemorySource,
    further: MemorySource,
    has_begun: bool,
    faults: u64,
}

impl<'a> Looking<'a> {
    /// Looks until this many lines were printed: whether it came to that.
    fn is_printed(&self) -> bool {
        for _ in 0..self.looks {
            if self.printed.load(Ordering::SeqCst) >= self.least {
                return true;
            }
            yield_now();
        }
        false
    }
}

impl<'a> Source for Looking<'a> {
    ghost left = { λ _. None };

    ghost faults = { λ s. s.faults };

    fn read(&mut self, into: &mut [u8]) -> Result<usize, Failed> {
        let came = if !self.has_begun {
            self.has_begun = true;
            self.first.read(into)
        } else if self.is_printed() {
            self.further.read(into)
        } else {
            Err(Failed)
        };
        if came.is_err() {
            self.faults = self.faults.saturating_add(1);
        }
        came
    }
}

/// An output that counts its lines.
#[derive(Drop)]
pub struct Counting<'a> {
    pub inner: MemorySink,
    pub lines: &'a AtomicU64,
}

impl<'a> Sink for Counting<'a> {
    ghost written = { λ _. None };

    ghost made_as = { λ _. None };

    ghost faults = { λ s. s.inner.faults };

    fn write(&mut self, bytes: &[u8]) -> Result<usize, Failed> {
        let count = self.inner.write(bytes)?;
        let lines = bytes.iter().filter(|byte| **byte == b'\n').count();
        self.lines.fetch_add(lines as u64, Ordering::SeqCst);
        Ok(count)
    }
}

/// Holds a script as `p`, and under each other name an injector that looks for lines. What is written is the log.
#[derive(Drop)]
pub struct LookingWorld<'a> {
    pub alloc: Global,
    pub printed: &'a AtomicU64,
    pub script: &'a str,
    /// What the injector gives at its first read.
    pub first: &'a str,
    /// What it gives once this many lines were printed.
    pub further: &'a str,
    pub least: u64,
    /// How often it looks for these lines at most.
    pub looks: u64,
    /// The reads after the first that fail, counted from 1.
    pub failing: &'a [u64],
    pub log: Vec<u8>,
    pub read_faults: u64,
    pub write_faults: u64,
}

impl<'a> World for LookingWorld<'a> {
    type Input = Looking<'a>;

    type Output = MemorySink;

    ghost holds = { λ _. None };

    ghost asked = { λ _. None };

    ghost read_faults = { λ w. w.read_faults };

    ghost write_faults = { λ w. w.write_faults };

    fn open(&mut self, name: &str) -> Result<Looking<'a>, WorldError> {
        let alloc = self.alloc;
        let is_script = name == "p";
        let first = if is_script { self.script } else { self.first };
        let further = if is_script { "" } else { self.further };
        let failing = if is_script { &[] } else { self.failing };
        Ok(Looking {
            printed: self.printed,
            least: if is_script { 0 } else { self.least },
            looks: self.looks,
            first: MemorySource::new(first.as_bytes().to_vec(alloc)?, Vec::new(alloc)),
            further: MemorySource::new(further.as_bytes().to_vec(alloc)?, failing.to_vec(alloc)?),
            has_begun: false,
            faults: 0,
        })
    }

    fn create(&mut self, _name: &str) -> Result<MemorySink, WorldError> {
        Ok(MemorySink::new(self.alloc, ROOM, Vec::new(self.alloc))?)
    }

    fn close_input(&mut self, input: Looking<'a>) {
        if input.faults > 0 {
            self.read_faults = self.read_faults.saturating_add(1);
        }
    }

    fn close_output(&mut self, _name: &str, output: MemorySink) {
        let (log, faults) = output.into_parts();
        self.log = log;
        if faults > 0 {
            self.write_faults = self.write_faults.saturating_add(1);
        }
    }
}
