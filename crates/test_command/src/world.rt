//! Commands over a world in memory, of which some calls fail.

use bp_base::{MemorySink, MemoryWorld};
use bp_cli::command;
use bpx_cli::answer;
use std::alloc::Global;
use std::sync::Wait;
use std::test::Fail;
use std::thread::Threads;
use std::time::Clock;

/// What a command did.
#[derive(Debug, Drop)]
pub struct Ran {
    pub status: u8,
    pub note: String,
    pub printed: Vec<u8>,
    /// What is held as `log` afterwards; of no bytes where nothing is.
    pub log: Vec<u8>,
}

impl Ran {
    /// Whether the command ended with this status and this note, and printed this.
    pub fn came_to(&self, status: u8, note: &str, printed: &[u8]) -> bool {
        self.status == status && self.note.as_str() == note && self.printed.as_slice() == printed
    }
}

/// A world that holds some files, and the calls that are to fail: of the world, of one name, and of the
/// output; of each the one with this number, and none where it is 0.
#[derive(Clone, Copy)]
pub struct Held<'a> {
    pub files: &'a [(&'a str, &'a str)],
    pub world: u64,
    pub name: &'a str,
    pub call: u64,
    pub output: u64,
}

/// A world that holds these files, and in which no call fails.
pub fn holding<'a>(files: &'a [(&'a str, &'a str)]) -> Held<'a> {
    Held {
        files,
        world: 0,
        name: "",
        call: 0,
        output: 0,
    }
}

/// The words that stand between the `|` of the line.
fn words_in(alloc: Global, line: &str) -> Result<Vec<String>, Fail> {
    let mut words = Vec::new(alloc);
    for word in line.split("|") {
        words.push(word.to_string(alloc)?)?;
    }
    Ok(words)
}

fn world_of(alloc: Global, held: Held<'_>) -> Result<MemoryWorld, Fail> {
    let mut world = MemoryWorld::new(alloc, 1_000_000, [held.world].to_vec(alloc)?);
    for file in held.files {
        let (name, text) = *file;
        world.hold(name.to_string(alloc)?, text.as_bytes().to_vec(alloc)?)?;
    }
    world.fail(held.name.to_string(alloc)?, [held.call].to_vec(alloc)?)?;
    Ok(world)
}

/// Runs `bp` with the words that stand between the `|` of the line.
pub fn ran_in<R: Threads + Wait + Sync + Clock>(
    rt: &R,
    alloc: Global,
    line: &str,
    held: Held<'_>,
) -> Result<Ran, Fail> {
    let words = words_in(alloc, line)?;
    let mut world = world_of(alloc, held)?;
    let mut out = MemorySink::new(alloc, 1_000_000, [held.output].to_vec(alloc)?)?;
    let status = command(rt, alloc, &words, &mut world, &mut out);
    Ok(Ran {
        status: status.code,
        note: status.note.as_str().to_string(alloc)?,
        printed: out.written().to_vec(alloc)?,
        log: world.held("log").unwrap_or(b"").to_vec(alloc)?,
    })
}

/// Runs `bpx` with the words that stand between the `|` of the line.
pub fn answered_in<R: Threads + Sync>(
    rt: &R,
    alloc: Global,
    line: &str,
    held: Held<'_>,
) -> Result<Ran, Fail> {
    let words = words_in(alloc, line)?;
    let mut world = world_of(alloc, held)?;
    let mut out = MemorySink::new(alloc, 1_000_000, [held.output].to_vec(alloc)?)?;
    let end = answer(rt, alloc, &words, &mut world, &mut out);
    Ok(Ran {
        status: end.status(),
        note: end.note(alloc)?.into_string(),
        printed: out.written().to_vec(alloc)?,
        log: Vec::new(alloc),
    })
}
