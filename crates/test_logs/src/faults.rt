//! Sources and sinks that fail.
use bp_base::{MemorySink, MemorySource};
use bp_log::{PrintError, Record, Verdict, write_record};
use bp_reader::{LogFault, Reader};
use std::test::Fail;

const LOG: &[u8] =
    b"bp-log 1\nstrategy simple\nseed 0\nbudget 1\nsteps 1\ninjectors 0\nprogram 0\n\nend quiet 0\n";

/// The first read would give the whole log.
#[test]
fn a_failed_read_is_told(rt: HostRuntime) -> Result<(), Fail> {
    let alloc = rt.alloc();
    let source = MemorySource::new(LOG.to_vec(alloc)?, [1].to_vec(alloc)?);
    let Err(refused) = Reader::open(alloc, source) else {
        return Err(Fail::from("opened"));
    };
    assert!(rt; matches!(&refused.fault, LogFault::Read));
    assert!(rt; refused.source.faults() == 1);
    Ok(())
}

/// The second read would tell that the log is at its end. What was refused is refused again, although the
/// source has come to its end by then.
#[test]
fn a_refusal_stays(rt: HostRuntime) -> Result<(), Fail> {
    let alloc = rt.alloc();
    let source = MemorySource::new(LOG.to_vec(alloc)?, [2].to_vec(alloc)?);
    let Ok((mut reader, _header)) = Reader::open(alloc, source) else {
        return Err(Fail::from("refused"));
    };
    assert!(rt; reader.next(alloc).is_ok());
    for _ in 0..3 {
        let Err(fault) = reader.next(alloc) else {
            return Err(Fail::from("read"));
        };
        assert!(rt; matches!(&fault, LogFault::Read));
    }
    assert!(rt; reader.back().faults() == 1);
    Ok(())
}

/// The second line finds no room.
#[test]
fn a_failed_write_leaves_what_was_written(rt: HostRuntime) -> Result<(), Fail> {
    let alloc = rt.alloc();
    let entry = Record::End(Verdict::Quiet(7));
    let mut sink = MemorySink::new(alloc, 20, Vec::new(alloc))?;
    assert!(rt; write_record(alloc, &entry, &mut sink).is_ok());
    assert!(rt; write_record(alloc, &entry, &mut sink) == Err(PrintError::Write));
    assert!(rt; sink.written() == b"end quiet 7\n".as_slice());
    Ok(())
}
