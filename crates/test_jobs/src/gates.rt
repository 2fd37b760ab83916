//! Gates that count what they are told, and hold jobs until others have come somewhere.
use bp_pool::Gate;
use std::alloc::{AllocError, Global};
use std::sync::atomic::{AtomicU64, Ordering};
use std::thread::yield_now;

/// How often a gate looks at most; it lets other threads run after each look.
const LOOKS: u64 = 20_000_000;

/// Waits until the count is what is wanted: whether it came to that.
fn comes_to(count: &AtomicU64, wanted: u64) -> bool {
    for _ in 0..LOOKS {
        if count.load(Ordering::SeqCst) >= wanted {
            return true;
        }
        yield_now();
    }
    false
}

/// What a gate was told of one job: the slices that began, those after which it was to be carried on, and the others.
#[derive(Drop)]
struct Told {
    begun: AtomicU64,
    paused: AtomicU64,
    last: AtomicU64,
}

impl Told {
    fn is_right(&self) -> bool {
        let begun = self.begun.load(Ordering::SeqCst);
        let paused = self.paused.load(Ordering::SeqCst);
        match self.last.load(Ordering::SeqCst) {
            0 => begun == 0 && paused == 0,
            1 => begun > 0 && paused == begun - 1,
            _ => false,
        }
    }
}

/// A gate that never holds, and counts what it is told of each job.
#[derive(Drop)]
pub struct Counting {
    jobs: Vec<Told>,
    late: AtomicU64,
}

impl Counting {
    /// A gate for this many jobs, numbered from 0, that was told nothing.
    pub fn new(alloc: Global, jobs: u32) -> Result<Counting, AllocError> {
        let mut counts = Vec::new(alloc);
        for _ in 0..jobs {
            counts.push(Told {
                begun: AtomicU64::new(0),
                paused: AtomicU64::new(0),
                last: AtomicU64::new(0),
            })?;
        }
        Ok(Counting {
            jobs: counts,
            late: AtomicU64::new(0),
        })
    }

    /// A slice of the job begins: how many began before it.
    fn begin(&self, number: u32) -> u64 {
        let Some(told) = self.jobs.get(number as usize) else {
            self.late.fetch_add(1, Ordering::SeqCst);
            return 0;
        };
        if told.last.load(Ordering::SeqCst) > 0 {
            self.late.fetch_add(1, Ordering::SeqCst);
        }
        told.begun.fetch_add(1, Ordering::SeqCst)
    }

    fn end(&self, number: u32, paused: bool) {
        let Some(told) = self.jobs.get(number as usize) else {
            self.late.fetch_add(1, Ordering::SeqCst);
            return;
        };
        let count = if paused { &told.paused } else { &told.last };
        count.fetch_add(1, Ordering::SeqCst);
    }

    /// Whether each slice that began was told to have ended, each job of which anything was told had one last slice, and
    /// nothing was told of a job after that or of no job.
    pub fn is_right(&self) -> bool {
        self.late.load(Ordering::SeqCst) == 0 && self.jobs.iter().all(|told| told.is_right())
    }

    /// How many slices of the job began.
    pub fn slices(&self, number: u32) -> u64 {
        match self.jobs.get(number as usize) {
            Some(told) => told.begun.load(Ordering::SeqCst),
            None => 0,
        }
    }
}

impl Gate for Counting {
    fn before(&self, number: u32) {
        self.begin(number);
    }

    fn after(&self, number: u32, paused: bool) {
        self.end(number, paused);
    }
}

/// Opens only when this many jobs are inside: the first slice of each that it is told of goes on once those of all have
/// begun.
#[derive(Drop)]
pub struct Meeting {
    counts: Counting,
    jobs: u32,
    here: AtomicU64,
    missed: AtomicU64,
}

impl Meeting {
    /// A gate that none of these jobs has come to.
    pub fn new(alloc: Global, jobs: u32) -> Result<Meeting, AllocError> {
        Ok(Meeting {
            counts: Counting::new(alloc, jobs)?,
            jobs,
            here: AtomicU64::new(0),
            missed: AtomicU64::new(0),
        })
    }

    /// Whether all jobs came, none waited in vain, and the gate was told rightly.
    pub fn was_met(&self) -> bool {
        let here = self.here.load(Ordering::SeqCst);
        let missed = self.missed.load(Ordering::SeqCst);
        here == self.jobs as u64 && missed == 0 && self.counts.is_right()
    }
}

impl Gate for Meeting {
    fn before(&self, number: u32) {
        if self.counts.begin(number) > 0 {
            return;
        }
        self.here.fetch_add(1, Ordering::SeqCst);
        if !comes_to(&self.here, self.jobs as u64) {
            self.missed.fetch_add(1, Ordering::SeqCst);
        }
    }

    fn after(&self, number: u32, paused: bool) {
        self.counts.end(number, paused);
    }
}

/// Holds one job before its second slice, which is the first that a gate is told of, until this many others have their
/// outcomes.
#[derive(Drop)]
pub struct Holding {
    counts: Counting,
    held: u32,
    others: u64,
    done: AtomicU64,
    missed: AtomicU64,
}

impl Holding {
    /// A gate for this many jobs that holds the job of this number until all others have their outcomes.
    pub fn new(alloc: Global, jobs: u32, held: u32) -> Result<Holding, AllocError> {
        Ok(Holding {
            counts: Counting::new(alloc, jobs)?,
            held,
            others: (jobs as u64).saturating_sub(1),
            done: AtomicU64::new(0),
            missed: AtomicU64::new(0),
        })
    }

    /// Whether the job never waited in vain, and the gate was told rightly.
    pub fn was_kept(&self) -> bool {
        self.missed.load(Ordering::SeqCst) == 0 && self.counts.is_right()
    }

    /// How many slices of the job began.
    pub fn slices(&self, number: u32) -> u64 {
        self.counts.slices(number)
    }
}

impl Gate for Holding {
    fn before(&self, number: u32) {
        let first = self.counts.begin(number) == 0;
        if first && number == self.held && !comes_to(&self.done, self.others) {
            self.missed.fetch_add(1, Ordering::SeqCst);
        }
    }

    fn after(&self, number: u32, paused: bool) {
        self.counts.end(number, paused);
        if number != self.held && !paused {
            self.done.fetch_add(1, Ordering::SeqCst);
        }
    }
}
