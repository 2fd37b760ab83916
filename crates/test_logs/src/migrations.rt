//! Logs that are migrated from sources and to sinks that fail.
use crate::headers::front;
use bp_base::{MemorySink, MemorySource};
use bp_migrate::{MigrateFault, migrate};
use bp_reader::LogFault;
use std::alloc::Global;
use std::test::Fail;

/// A long log of one line over and over.
fn long_log(alloc: Global, lines: usize) -> Result<Vec<u8>, Fail> {
    let mut log = front(alloc, "x", 1_000, 1_000)?;
    let records = "sel [\"t\"]\n".repeat(alloc, lines)?;
    log.extend_from_slice(records.as_str().as_bytes())?;
    Ok(log)
}

/// The first read gives 4,096 bytes, and the second fails: what the whole lines before say is written.
#[test]
fn a_failed_read_comes_behind_what_was_read(rt: HostRuntime) -> Result<(), Fail> {
    let alloc = rt.alloc();
    let log = long_log(alloc, 1_000)?;
    let source = MemorySource::new(log.to_vec(alloc)?, [2].to_vec(alloc)?);
    let mut sink = MemorySink::new(alloc, 100_000, Vec::new(alloc))?;
    let migrated = migrate(alloc, source, &mut sink);
    assert!(rt; matches!(&migrated.ended, Err(MigrateFault::Log(LogFault::Read))));
    assert!(rt; migrated.log.faults() == 1);
    let written = sink.written();
    assert!(rt; written.len() > 4_000 && written.len() <= 4_096);
    assert!(rt; log.starts_with(written) && written.ends_with(b"]\n"));
    Ok(())
}

/// Of a text that is longer than what waits at most, the second write fails: a front of it was written.
#[test]
fn a_failed_write_leaves_a_front(rt: HostRuntime) -> Result<(), Fail> {
    let alloc = rt.alloc();
    let log = long_log(alloc, 8_000)?;
    let source = MemorySource::new(log.to_vec(alloc)?, Vec::new(alloc));
    let mut sink = MemorySink::new(alloc, 100_000, [2].to_vec(alloc)?)?;
    let migrated = migrate(alloc, source, &mut sink);
    assert!(rt; matches!(&migrated.ended, Err(MigrateFault::Write)));
    assert!(rt; sink.faults() == 1);
    let written = sink.written();
    assert!(rt; written.len() > 65_000 && log.starts_with(written));
    Ok(())
}
