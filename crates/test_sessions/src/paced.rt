//! When what a session tells is written.
use crate::bench::{header, sink, told, written};
use bp_log::write_header;
use std::alloc::Global;
use std::io;
use std::sync::Wait;
use std::sync::atomic::{AtomicU64, Ordering};
use std::test::Fail;
use std::thread::Threads;
use std::time::{Clock, Duration};

/// A b-thread that requests two events.
const TWO: &str =
    "bp.registerBThread(\"A\", () => { bp.sync({request: bp.Event(\"a\")}); bp.sync({request: bp.Event(\"b\")}) })";

/// A runtime whose clock goes on by so many milliseconds at each reading.
#[derive(Drop)]
struct Ticking<'a, R> {
    inner: &'a R,
    step: u64,
    at: AtomicU64,
}

impl<'a, R: Threads> Threads for Ticking<'a, R> {}

impl<'a, R: Wait> Wait for Ticking<'a, R> {}

impl<'a, R> Clock for Ticking<'a, R> {
    fn monotonic(&self) -> io::Result<Duration> {
        let now = self.at.fetch_add(self.step, Ordering::SeqCst);
        Ok(Duration::from_millis(now))
    }

    fn since_1970(&self) -> io::Result<Duration> {
        self.monotonic()
    }
}

/// What was printed, and how the session ended, where the clock goes on so at each reading and the write of
/// this number fails.
fn printed_by<R: Threads + Wait + Sync>(
    rt: &R,
    alloc: Global,
    step: u64,
    fails: u64,
) -> Result<(String, String), Fail> {
    let ticking = Ticking {
        inner: rt,
        step,
        at: AtomicU64::new(0),
    };
    let came = told(
        &ticking,
        alloc,
        TWO,
        (1, 10_000),
        Vec::new(alloc),
        &[fails],
        &[],
    )?;
    Ok((came.printed, came.end))
}

/// Where a second passes in each turn, what a turn told is written at its end, and the verdict by itself.
#[test]
fn each_turn_is_written_after_a_second(rt: HostRuntime) -> Result<(), Fail> {
    let alloc = rt.alloc();
    let texts = [
        "",
        "event [\"a\"]\n",
        "event [\"a\"]\nevent [\"b\"]\ndone \"A\"\n",
    ];
    for fails in 0..3 {
        let (printed, end) = printed_by(&rt, alloc, 1_000, fails as u64 + 1)?;
        assert!(rt; printed.as_str() == texts[fails] && end.as_str() == "write");
    }
    let (printed, end) = printed_by(&rt, alloc, 1_000, 4)?;
    assert!(rt; printed.as_str() == "event [\"a\"]\nevent [\"b\"]\ndone \"A\"\nverdict quiet 2\n");
    assert!(rt; end.as_str() == "verdict quiet 2");
    Ok(())
}

/// Where less than a second passes, all is written at once in the end.
#[test]
fn what_was_told_waits_for_a_second(rt: HostRuntime) -> Result<(), Fail> {
    let alloc = rt.alloc();
    for step in [0, 100] {
        let (printed, end) = printed_by(&rt, alloc, step, 2)?;
        assert!(rt;
            printed.as_str() == "event [\"a\"]\nevent [\"b\"]\ndone \"A\"\nverdict quiet 2\n"
        );
        assert!(rt; end.as_str() == "verdict quiet 2");
    }
    Ok(())
}

/// The first that the log gets is its head alone: where its second write fails, that is all of it.
#[test]
fn the_head_of_a_log_is_written_first(rt: HostRuntime) -> Result<(), Fail> {
    let alloc = rt.alloc();
    let came = told(&rt, alloc, TWO, (1, 10_000), Vec::new(alloc), &[], &[2])?;
    let mut head = sink(alloc, &[])?;
    assert!(rt; write_header(alloc, &header(alloc, TWO, 0, true)?, &mut head).is_ok());
    let head = written(head)?;
    assert!(rt; came.log.as_str() == head.as_str());
    assert!(rt; came.printed.as_str() == "" && came.end.as_str() == "log write");
    Ok(())
}
