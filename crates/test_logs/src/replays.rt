//! Replays of logs from sources and to sinks that fail.
use crate::headers::front;
use bp_base::{MemorySink, MemorySource};
use bp_log::Verdict;
use bp_reader::LogFault;
use bp_replay::{ReplayFault, replay};
use std::alloc::Global;
use std::test::Fail;

/// Two b-threads end at once.
const TWO: &str = r#"bp.registerBThread("A", () => {}); bp.registerBThread("B", () => {});"#;

const PRINTED: &[u8] = b"done \"A\"\ndone \"B\"\nverdict quiet 0\n";

fn two(alloc: Global) -> Result<Vec<u8>, Fail> {
    let mut log = front(alloc, TWO, 10, 1)?;
    log.extend_from_slice(b"end quiet 0\n")?;
    Ok(log)
}

/// The second read would tell that the log is at its end.
#[test]
fn a_failed_read_is_told(rt: HostRuntime) -> Result<(), Fail> {
    let alloc = rt.alloc();
    let source = MemorySource::new(two(alloc)?, [2].to_vec(alloc)?);
    let mut sink = MemorySink::new(alloc, 1_000, Vec::new(alloc))?;
    let replayed = replay(alloc, source, &mut sink);
    let Err(ReplayFault::Log(fault)) = &replayed.ended else {
        return Err(Fail::from("read"));
    };
    assert!(rt; matches!(fault, LogFault::Read));
    assert!(rt; replayed.log.faults() == 1);
    assert!(rt; sink.written() == PRINTED);
    Ok(())
}

/// There is no room for the last line.
#[test]
fn a_failed_write_is_told(rt: HostRuntime) -> Result<(), Fail> {
    let alloc = rt.alloc();
    let source = MemorySource::new(two(alloc)?, Vec::new(alloc));
    let mut sink = MemorySink::new(alloc, 20, Vec::new(alloc))?;
    let replayed = replay(alloc, source, &mut sink);
    assert!(rt; matches!(&replayed.ended, Err(ReplayFault::Write)));
    assert!(rt; sink.faults() == 1);
    Ok(())
}

#[test]
fn the_verdict_is_answered(rt: HostRuntime) -> Result<(), Fail> {
    let alloc = rt.alloc();
    let source = MemorySource::new(two(alloc)?, Vec::new(alloc));
    let mut sink = MemorySink::new(alloc, 1_000, Vec::new(alloc))?;
    let replayed = replay(alloc, source, &mut sink);
    assert!(rt; matches!(&replayed.ended, Ok(Verdict::Quiet(0))));
    assert!(rt; replayed.log.faults() == 0);
    assert!(rt; sink.written() == PRINTED);
    Ok(())
}

/// It asks for one event for ever.
const FOR_EVER: &str =
    r#"bp.registerBThread("A", () => { while (true) bp.sync({request: bp.Event("t")}) })"#;

/// The first read gives 4,096 bytes, and the second fails: what the whole lines before say is printed.
#[test]
fn a_failed_read_comes_after_what_was_read(rt: HostRuntime) -> Result<(), Fail> {
    let alloc = rt.alloc();
    let mut log = front(alloc, FOR_EVER, 1_000, 1_000)?;
    // A line of a record has ten bytes.
    let lines = 4_096usize.saturating_sub(log.len()) / 10;
    let records = "sel [\"t\"]\n".repeat(alloc, 1_000)?;
    log.extend_from_slice(records.as_str().as_bytes())?;
    let source = MemorySource::new(log, [2].to_vec(alloc)?);
    let mut sink = MemorySink::new(alloc, 100_000, Vec::new(alloc))?;
    let replayed = replay(alloc, source, &mut sink);
    assert!(rt; matches!(&replayed.ended, Err(ReplayFault::Log(LogFault::Read))));
    assert!(rt; replayed.log.faults() == 1);
    let printed = "event [\"t\"]\n".repeat(alloc, lines)?;
    assert!(rt; lines > 300);
    assert!(rt; sink.written() == printed.as_str().as_bytes());
    Ok(())
}
