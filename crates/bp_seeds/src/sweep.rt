//! Runs under many seeds, shared out among threads.
ghost use Rattle.std.specs.Prelude.{◌≡◌, ◌+◌, ◌-◌, ◌*◌, ◌<◌, ◌≤◌, ◌^◌, ℕ, IfOk, length, slice_index_or, string_bytes};
ghost use Rattle.js_program.specs.PlainProgram.{PlainProgram};
ghost use Rattle.bp_script.specs.Programs.{IsProgram};
ghost use Rattle.bp_explain.specs.Seeds.{seeds_of};
ghost use Rattle.bp_seeds.specs.Sweeps.{HasProgram, IsSweep};
ghost use Rattle.bp_seeds.specs.inner.Parts.{AreCounts, before, ArePart};

use crate::counts::{Counted, Counts};
use crate::running::kind_under;
use bp_log::{Memory, Options, Parallelism};
use std::alloc::Global;
use std::thread;
use std::thread::Threads;

/// The most threads among which the seeds are shared out.
const MOST_PARTS: usize = 64;

/// Runs of one program under many seeds.
#[derive(Drop)]
pub struct Sweep {
    /// The first seed.
    pub first: u64,
    /// How many seeds.
    pub count: u64,
    /// What is asked of each run, apart from its seed.
    pub options: Options,
    /// What is asked of the machine that runs, and shows in no output.
    pub parallelism: Parallelism,
}

/// Counts the ends of runs under this many seeds, after this many of the sweep.
fn counted(
    alloc: Global,
    bytes: &[u8],
    sweep: &Sweep,
    start: u64,
    many: u64,
) -> Result<Counts, Memory>
    requires program { HasProgram bytes.now }
    requires sweep { IsSweep sweep.now }
    requires within { start + many ≤ (sweep.now).count }
    ensures { IfOk result
        (AreCounts bytes.now (sweep.now).options many ((sweep.now).first + start)) }
{
    let mut counts = Counts::new(alloc);
    for step in 0..many {
        let seed = sweep.first + start + step;
        let kind = kind_under(alloc, bytes, sweep.options, sweep.parallelism, seed)?;
        counts.add(Counted::one(kind, seed))?;
    }
    Ok(counts)
}

/// Counts the ends of one part, of parts of this size.
fn part(
    alloc: Global,
    bytes: &[u8],
    sweep: &Sweep,
    size: u64,
    place: usize,
) -> Result<Counts, Memory>
    requires program { HasProgram bytes.now }
    requires sweep { IsSweep sweep.now }
    requires size { size ≤ 2 ^ 32 }
    requires place { place < MOST_PARTS }
    ensures { IfOk result (ArePart bytes.now sweep.now size place) }
{
    let start = sweep.count.min(place as u64 * size);
    let end = sweep.count.min((place as u64 + 1) * size);
    counted(alloc, bytes, sweep, start, end - start)
}

/// The counts of all parts, in order. Its only error is out of memory, here or in a part.
fn gather(
    alloc: Global,
    bytes: &[u8],
    sweep: &Sweep,
    size: u64,
    parts: Vec<Result<Counts, Memory>>,
) -> Result<Counts, Memory>
    requires program { HasProgram bytes.now }
    requires sweep { IsSweep sweep.now }
    requires parts { (i : ℕ) (d : _) → i < length parts.items →
        IfOk (slice_index_or parts.items i d) (ArePart bytes.now sweep.now size i) }
    ensures { IfOk result (AreCounts bytes.now (sweep.now).options
        (before (sweep.now).count size (length parts.items)) (sweep.now).first) }
{
    let mut counts = Counts::new(alloc);
    for part in parts {
        let later = part?;
        counts.merge(later)?;
    }
    Ok(counts)
}

/// Among how many threads the seeds are shared out.
fn parts_for<R: Threads>(rt: &R) -> usize
    ensures some { 0 < result }
    ensures few { result ≤ MOST_PARTS }
{
    match thread::available_parallelism(rt) {
        Ok(processors) => processors.get().min(MOST_PARTS),
        Err(_) => 1,
    }
}

/// Runs the program under each of the seeds, on all processors, and counts how they end.
fn sweep_counts<R: Threads + Sync>(
    rt: &R,
    alloc: Global,
    bytes: &[u8],
    sweep: &Sweep,
) -> Result<Counts, Memory>
    requires program { HasProgram bytes.now }
    requires sweep { IsSweep sweep.now }
    ensures { IfOk result
        (AreCounts bytes.now (sweep.now).options (sweep.now).count (sweep.now).first) }
{
    let many = parts_for(rt);
    let size = sweep.count / many as u64 + 1;
    let parts = thread::map_indices(
        rt,
        alloc,
        many,
        &|place: usize| -> Result<Counts, Memory>
            requires program { HasProgram bytes.now }
            requires sweep { IsSweep sweep.now }
            requires size { size ≤ 2 ^ 32 }
            requires place { place < MOST_PARTS }
            ensures { IfOk result (ArePart bytes.entry.now sweep.entry.now size place) }
        { part(alloc, bytes, sweep, size, place) },
    )?;
    gather(alloc, bytes, sweep, size, parts)
}

/// How the runs of the program that the bytes are end under each of the seeds, in words.
pub fn sweep_text<R: Threads + Sync>(
    rt: &R,
    alloc: Global,
    bytes: &[u8],
    sweep: &Sweep,
) -> Result<String, Memory>
    requires program { HasProgram bytes.now }
    requires sweep { IsSweep sweep.now }
    ensures { (program : PlainProgram) → IsProgram bytes.now program →
        IfOk result (λ s. string_bytes s
        ≡ seeds_of program (sweep.now).options (sweep.now).count (sweep.now).first) }
{
    sweep_counts(rt, alloc, bytes, sweep)?.text(alloc)
}
