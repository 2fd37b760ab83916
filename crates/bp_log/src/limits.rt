//! The limits of a run.

/// The most events that wait in the queue.
pub const MOST_WAITING: u32 = 16_384;

/// The most b-threads that are registered in a run, ended ones among them.
pub const MOST_THREADS: u32 = 4_096;

/// The greatest weight of a run: the sum, over its transitions, of the weight of the event times one
/// plus the number of b-threads that receive it.
pub const MOST_WEIGHT: u64 = 16_777_216;

/// The most bytes of a program.
pub const MOST_BYTES: u32 = 1_048_576;

/// The most nodes that a b-thread may begin between two synchronisation points.
pub const MOST_BUDGET: u64 = 1_000_000_000;

/// The most transitions of a run.
pub const MOST_STEPS: u32 = 1_000_000;

/// The most injectors.
pub const MOST_INJECTORS: u32 = 16;

/// The most workers.
pub const MOST_WORKERS: u32 = 64;

/// The most nodes of a slice of work.
pub const MOST_SLICE: u64 = 1_000_000_000;
