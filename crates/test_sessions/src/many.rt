//! Injectors with many lines, and the logs of their sessions, printed again.
use crate::bench::{Came, source, told};
use crate::rows::WATCHES;
use bp_base::{MemorySink, MemorySource};
use bp_replay::replay;
use std::alloc::{AllocError, Global};
use std::sync::Wait;
use std::test::Fail;
use std::thread::Threads;
use std::time::Clock;

/// How many lines each of two injectors has.
const LINES: u32 = 500;

/// More events than the queue holds.
const CROWD: u32 = 16_500;

/// What a session prints may be so long.
const ROOM: u64 = 100_000_000;

fn lines(alloc: Global, name: &str, many: u32) -> Result<String, AllocError> {
    let mut text = String::new(alloc);
    for number in 0..many {
        write!(text, "[\"{name}\",{number}]\n")?;
    }
    Ok(text)
}

/// What a replay of the log prints.
pub fn printed_again(alloc: Global, log: &str) -> Result<String, Fail> {
    let source = MemorySource::new(log.as_bytes().to_vec(alloc)?, Vec::new(alloc));
    let mut out = MemorySink::new(alloc, ROOM, Vec::new(alloc))?;
    let _ended = replay(alloc, source, &mut out);
    let (bytes, _faults) = out.into_parts();
    Ok(String::from_utf8(bytes).ok().ok_or("no text")?)
}

/// A session with two injectors of many lines.
fn two<R: Threads + Wait + Sync + Clock>(
    rt: &R,
    alloc: Global,
    parallelism: (u32, u64),
) -> Result<Came, Fail> {
    let mut inputs = Vec::new(alloc);
    inputs.push(source(alloc, lines(alloc, "a", LINES)?.as_str(), &[])?)?;
    inputs.push(source(alloc, lines(alloc, "b", LINES)?.as_str(), &[])?)?;
    told(rt, alloc, WATCHES, parallelism, inputs, &[], &[])
}

/// Whatever the workers, the slices and the merge, the log replays to what was printed.
#[test]
fn logs_of_many_events_replay(rt: HostRuntime) -> Result<(), Fail> {
    let alloc = rt.alloc();
    for parallelism in [(1, 1), (1, 7), (2, 10_000), (8, 10_000)] {
        let came = two(&rt, alloc, parallelism)?;
        assert_eq!(rt; came.end.as_str(), "verdict quiet 1000");
        assert!(rt; printed_again(alloc, came.log.as_str())?.as_str() == came.printed.as_str());
    }
    Ok(())
}

/// An injector that has more than the queue holds ends the run at that limit, where nothing of it may be
/// selected.
#[test]
fn a_full_queue_ends_a_run_that_selects_nothing(rt: HostRuntime) -> Result<(), Fail> {
    let alloc = rt.alloc();
    let script =
        r#"bp.registerBThread("B", () => { bp.sync({waitFor: bp.Event("go"), block: bp.Event("x")}) })"#;
    let mut text = String::new(alloc);
    for _line in 0..CROWD {
        write!(text, "[\"x\"]\n")?;
    }
    write!(text, "[\"go\"]\n")?;
    let mut inputs = Vec::new(alloc);
    inputs.push(source(alloc, text.as_str(), &[])?)?;
    let came = told(&rt, alloc, script, (1, 10_000), inputs, &[], &[])?;
    assert_eq!(rt; came.end.as_str(), "verdict limit queue 16384");
    assert_eq!(rt; came.printed.as_str(), "verdict limit queue 16384\n");
    Ok(())
}

/// An injector that has more than the queue holds waits while events are selected, and all of them come.
#[test]
fn all_events_of_a_crowd_come(rt: HostRuntime) -> Result<(), Fail> {
    let alloc = rt.alloc();
    let mut inputs = Vec::new(alloc);
    inputs.push(source(alloc, lines(alloc, "x", CROWD)?.as_str(), &[])?)?;
    let came = told(&rt, alloc, WATCHES, (1, 10_000), inputs, &[], &[])?;
    assert_eq!(rt; came.end.as_str(), "verdict quiet 16500");
    Ok(())
}
