//! Sources, outputs and logs that fail.
use crate::bench::{source, told};
use crate::rows::WATCHES;
use std::alloc::Global;
use std::sync::Wait;
use std::test::Fail;
use std::thread::Threads;
use std::time::Clock;

const WHOLE: &str = "external [\"a\"]\nexternal [\"b\"]\nverdict quiet 2\n";

/// A session whose injector, output and log fail at the reads and writes of these numbers.
fn failing<R: Threads + Wait + Sync + Clock>(
    rt: &R,
    alloc: Global,
    read: u64,
    out: u64,
    log: u64,
) -> Result<(String, bool), Fail> {
    let mut inputs = Vec::new(alloc);
    inputs.push(source(alloc, "[\"a\"]\n[\"b\"]\n", &[read])?)?;
    let came = told(rt, alloc, WATCHES, (1, 100), inputs, &[out], &[log])?;
    let is_front = WHOLE.starts_with(came.printed.as_str()) && came.back == 1;
    Ok((came.end, is_front))
}

/// A source that fails at its first or second read ends the session there, and nothing but a front of the
/// run's text was printed.
#[test]
fn a_source_fails(rt: HostRuntime) -> Result<(), Fail> {
    for read in 1..3u64 {
        let (end, is_front) = failing(&rt, rt.alloc(), read, 0, 0)?;
        assert_eq!(rt; end.as_str(), "read 0");
        assert!(rt; is_front);
    }
    Ok(())
}

/// An output that fails at its first write ends the session there.
#[test]
fn an_output_fails(rt: HostRuntime) -> Result<(), Fail> {
    let (end, is_front) = failing(&rt, rt.alloc(), 0, 1, 0)?;
    assert_eq!(rt; end.as_str(), "write");
    assert!(rt; is_front);
    Ok(())
}

/// A log that fails at its first write ends the session before anything was printed.
#[test]
fn a_log_fails(rt: HostRuntime) -> Result<(), Fail> {
    let (end, is_front) = failing(&rt, rt.alloc(), 0, 0, 1)?;
    assert_eq!(rt; end.as_str(), "log write");
    assert!(rt; is_front);
    Ok(())
}

/// Whatever write of the output or of the log fails, the session ends there, no more was printed than the
/// log tells, and what was printed is a front of the run's text.
#[test]
fn each_write_fails(rt: HostRuntime) -> Result<(), Fail> {
    for write in 1..8u64 {
        let (end, is_front) = failing(&rt, rt.alloc(), 0, write, 0)?;
        assert!(rt; end.as_str() == "write" || end.as_str() == "verdict quiet 2");
        assert!(rt; is_front);
        let (end, is_front) = failing(&rt, rt.alloc(), 0, 0, write)?;
        assert!(rt; end.as_str() == "log write" || end.as_str() == "verdict quiet 2");
        assert!(rt; is_front);
    }
    Ok(())
}

/// A source that fails at its first and at each later read ends the session once.
#[test]
fn a_source_that_always_fails(rt: HostRuntime) -> Result<(), Fail> {
    let alloc = rt.alloc();
    let mut inputs = Vec::new(alloc);
    inputs.push(source(alloc, "[\"a\"]\n", &[])?)?;
    inputs.push(source(alloc, "[\"b\"]\n", &[1, 2, 3, 4, 5, 6, 7, 8])?)?;
    let came = told(&rt, alloc, WATCHES, (1, 100), inputs, &[], &[])?;
    assert_eq!(rt; came.end.as_str(), "read 1");
    assert_eq!(rt; came.back, 2);
    assert!(rt; !came.printed.as_str().contains("verdict"));
    Ok(())
}
