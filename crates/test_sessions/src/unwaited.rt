//! Runs that do not wait for their injectors: these are asleep, have ended, fail, or bring something in time.
ghost use Rattle.std.specs.Prelude.{None};

use crate::bench::{Came, ends_waiting, sink, source, told_waiting, written};
use crate::many::printed_again;
use crate::rows::{BESIDES, ONCE, WATCHES};
use crate::watched::{Awaits, Counted, LOOKS, awaiting, is_there};
use bp_base::{Failed, MemorySink, MemorySource, Sink, Source};
use std::alloc::{AllocError, Global};
use std::sync::Wait;
use std::sync::atomic::{AtomicU64, Ordering};
use std::test::Fail;
use std::thread::Threads;
use std::time::Clock;

/// How often one looks that looks for what will not come.
const FEW_LOOKS: u64 = 200_000;

const REQUESTS: &str = r#"bp.registerBThread("A", () => { bp.sync({request: bp.Event("e")}) })"#;

// ---- asleep

/// A session of the script, this many injectors of which give an event only once this many lines are printed.
/// Each looks so often at most, and fails then.
fn asleep<R: Threads + Wait + Sync + Clock>(
    rt: &R,
    alloc: Global,
    script: &str,
    waits: bool,
    parallelism: (u32, u64),
    lines: u64,
    many: u32,
    looks: u64,
) -> Result<(String, String), Fail> {
    let seen = AtomicU64::new(0);
    let mut inputs = Vec::new(alloc);
    for _input in 0..many {
        let mut late: Awaits<'_> = awaiting(alloc, &seen, 0, (lines, 0), ("[\"x\"]\n", ""))?;
        late.looks = looks;
        inputs.push(late)?;
    }
    let mut out = Counted {
        inner: sink(alloc, &[])?,
        lines: &seen,
    };
    let mut log = None;
    let (end, back) = ends_waiting(
        rt,
        alloc,
        script,
        waits,
        parallelism,
        inputs,
        &mut out,
        &mut log,
    )?;
    if back != many as usize {
        return Err(Fail::new("not every input came back"));
    }
    let Counted { inner, lines: _ } = out;
    Ok((end, written(inner)?))
}

/// A run that does not wait ends while its injectors are asleep, by any workers and slices.
#[test]
fn injectors_that_sleep_are_not_waited_for(rt: HostRuntime) -> Result<(), Fail> {
    for parallelism in BESIDES {
        for many in [1u32, 2, 16] {
            let (end, text) = asleep(&rt, rt.alloc(), ONCE, false, parallelism, 1, many, LOOKS)?;
            assert_eq!(rt; end.as_str(), "verdict quiet 0");
            assert_eq!(rt; text.as_str(), "verdict quiet 0\n");
        }
    }
    Ok(())
}

/// What the script requests comes before.
#[test]
fn what_is_requested_comes_before_the_end(rt: HostRuntime) -> Result<(), Fail> {
    let (end, text) = asleep(&rt, rt.alloc(), REQUESTS, false, (2, 100), 3, 2, LOOKS)?;
    assert_eq!(rt; end.as_str(), "verdict quiet 1");
    assert_eq!(rt;
        text.as_str(),
        "event [\"e\"]\ndone \"A\"\nverdict quiet 1\n"
    );
    Ok(())
}

/// A run that waits for them prints nothing, so that one of their sources fails in the end.
#[test]
fn an_injector_that_sleeps_is_waited_for(rt: HostRuntime) -> Result<(), Fail> {
    let (end, text) = asleep(&rt, rt.alloc(), ONCE, true, (2, 100), 1, 1, FEW_LOOKS)?;
    assert_eq!(rt; end.as_str(), "read 0");
    assert_eq!(rt; text.as_str(), "");
    Ok(())
}

// ---- in time

/// A source that counts its reads.
#[derive(Drop)]
struct Read<'a> {
    inner: MemorySource,
    reads: &'a AtomicU64,
}

impl<'a> Source for Read<'a> {
    ghost left = { λ _. None };

    ghost faults = { λ s. s.inner.faults };

    fn read(&mut self, into: &mut [u8]) -> Result<usize, Failed> {
        self.reads.fetch_add(1, Ordering::SeqCst);
        self.inner.read(into)
    }
}

/// An output that takes nothing before a second read has begun.
#[derive(Drop)]
struct Patient<'a> {
    inner: MemorySink,
    reads: &'a AtomicU64,
    faults: u64,
}

impl<'a> Sink for Patient<'a> {
    ghost written = { λ _. None };

    ghost made_as = { λ _. None };

    ghost faults = { λ s. s.faults };

    fn write(&mut self, bytes: &[u8]) -> Result<usize, Failed> {
        let came = if bytes.is_empty() || is_there(self.reads, 2, LOOKS) {
            self.inner.write(bytes)
        } else {
            Err(Failed)
        };
        if came.is_err() {
            self.faults = self.faults.saturating_add(1);
        }
        came
    }
}

/// A script that prints more than is kept before it is written, and whose b-thread ends at the first event.
fn loud(alloc: Global) -> Result<String, AllocError> {
    let mut script = ONCE.to_string(alloc)?;
    write!(script, "; for (let i = 0; i < 70; i++) bp.log.info(\"")?;
    for _letter in 0..1_000u32 {
        write!(script, "x")?;
    }
    write!(script, "\")")?;
    Ok(script)
}

/// The end of what a run prints that does not wait, whose injector has offered its line before anything is
/// selected: the output waits until its source is read again.
fn in_time<R: Threads + Wait + Sync + Clock>(
    rt: &R,
    alloc: Global,
    parallelism: (u32, u64),
    line: &str,
) -> Result<(String, String), Fail> {
    let reads = AtomicU64::new(0);
    let mut inputs = Vec::new(alloc);
    inputs.push(Read {
        inner: source(alloc, line, &[])?,
        reads: &reads,
    })?;
    let mut out = Patient {
        inner: sink(alloc, &[])?,
        reads: &reads,
        faults: 0,
    };
    let mut log = None;
    let script = loud(alloc)?;
    let (end, _back) = ends_waiting(
        rt,
        alloc,
        script.as_str(),
        false,
        parallelism,
        inputs,
        &mut out,
        &mut log,
    )?;
    let Patient {
        inner,
        reads: _,
        faults: _,
    } = out;
    Ok((end, written(inner)?))
}

/// What is there in time is taken.
#[test]
fn what_is_there_in_time_is_taken(rt: HostRuntime) -> Result<(), Fail> {
    for parallelism in BESIDES {
        let (end, text) = in_time(&rt, rt.alloc(), parallelism, "[\"x\"]\n")?;
        assert_eq!(rt; end.as_str(), "verdict quiet 1");
        assert!(rt;
            text.as_str()
                .ends_with("\"\nexternal [\"x\"]\ndone \"A\"\nverdict quiet 1\n")
        );
    }
    Ok(())
}

// ---- ended, failing, and the logs

/// A run of this script that does not wait, over an injector of this text, whose reads of these numbers
/// fail, as do these writes of the output and of the log.
fn unwaited<R: Threads + Wait + Sync + Clock>(
    rt: &R,
    alloc: Global,
    text: &str,
    fails: &[u64],
    out_fails: &[u64],
    log_fails: &[u64],
) -> Result<Came, Fail> {
    let mut inputs = Vec::new(alloc);
    inputs.push(source(alloc, text, fails)?)?;
    told_waiting(
        rt,
        alloc,
        ONCE,
        false,
        (2, 100),
        inputs,
        out_fails,
        log_fails,
    )
}

/// An injector that has nothing to say has ended before, or not.
#[test]
fn an_injector_that_ends_is_not_waited_for(rt: HostRuntime) -> Result<(), Fail> {
    let came = unwaited(&rt, rt.alloc(), "", &[], &[], &[])?;
    assert_eq!(rt; came.end.as_str(), "verdict quiet 0");
    assert_eq!(rt; came.printed.as_str(), "verdict quiet 0\n");
    assert_eq!(rt; came.back, 1);
    Ok(())
}

/// An injector that fails ends the run as one that could not be read, or is not heard any more.
#[test]
fn an_injector_that_fails_is_not_waited_for(rt: HostRuntime) -> Result<(), Fail> {
    let came = unwaited(&rt, rt.alloc(), "[\"x\"]\n", &[1], &[], &[])?;
    let heard = came.end.as_str() == "read 0" && came.printed.as_str() == "";
    let unheard = came.end.as_str() == "verdict quiet 0"
        && came.printed.as_str() == "verdict quiet 0\n";
    assert!(rt; heard || unheard);
    assert_eq!(rt; came.back, 1);
    Ok(())
}

/// A bad line ends the run, or is not heard any more.
#[test]
fn a_bad_line_is_not_waited_for(rt: HostRuntime) -> Result<(), Fail> {
    let came = unwaited(&rt, rt.alloc(), "oops\n", &[], &[], &[])?;
    let heard = came.end.as_str() == "verdict bad 0 1"
        && came.printed.as_str() == "verdict bad 0 1\n";
    let unheard = came.end.as_str() == "verdict quiet 0"
        && came.printed.as_str() == "verdict quiet 0\n";
    assert!(rt; heard || unheard);
    assert_eq!(rt; came.back, 1);
    Ok(())
}

/// An output or a log that fails ends it as ever.
#[test]
fn a_write_fails(rt: HostRuntime) -> Result<(), Fail> {
    let came = unwaited(&rt, rt.alloc(), "", &[], &[1], &[])?;
    assert_eq!(rt; came.end.as_str(), "write");
    assert_eq!(rt; came.printed.as_str(), "");
    let came = unwaited(&rt, rt.alloc(), "", &[], &[], &[1])?;
    assert_eq!(rt; came.end.as_str(), "log write");
    assert_eq!(rt; came.printed.as_str(), "");
    assert_eq!(rt; came.log.as_str(), "");
    Ok(())
}

/// Whatever was heard in time, the log says that the run did not wait, and replays to what was printed.
#[test]
fn logs_of_runs_that_do_not_wait_replay(rt: HostRuntime) -> Result<(), Fail> {
    let alloc = rt.alloc();
    for parallelism in BESIDES {
        let mut inputs = Vec::new(alloc);
        inputs.push(source(alloc, "[\"a\",1]\n[\"a\",2]\n", &[])?)?;
        inputs.push(source(alloc, "[\"b\",1]\n", &[])?)?;
        let came = told_waiting(&rt, alloc, WATCHES, false, parallelism, inputs, &[], &[])?;
        let log = came.log.as_str();
        assert!(rt; came.end.as_str().starts_with("verdict quiet "));
        assert!(rt;
            log.starts_with("bp-log 2\n") && log.contains("\ninjectors 2\nwait no\nprogram ")
        );
        assert!(rt; printed_again(alloc, log)?.as_str() == came.printed.as_str());
    }
    Ok(())
}

/// Without injectors the two runs print the same, and their logs differ in nothing but what they say of
/// waiting.
#[test]
fn without_injectors_it_is_nothing(rt: HostRuntime) -> Result<(), Fail> {
    let alloc = rt.alloc();
    let waits = told_waiting(
        &rt,
        alloc,
        REQUESTS,
        true,
        (2, 100),
        Vec::new(alloc),
        &[],
        &[],
    )?;
    let ends = told_waiting(
        &rt,
        alloc,
        REQUESTS,
        false,
        (2, 100),
        Vec::new(alloc),
        &[],
        &[],
    )?;
    assert_eq!(rt; waits.end.as_str(), "verdict quiet 1");
    assert_eq!(rt; ends.end.as_str(), "verdict quiet 1");
    assert!(rt; waits.printed.as_str() == ends.printed.as_str());
    let (head, rest) = waits
        .log
        .as_str()
        .split_once("\nwait yes\n")
        .ok_or("it does not wait")?;
    let (same_head, same_rest) = ends
        .log
        .as_str()
        .split_once("\nwait no\n")
        .ok_or("it waits")?;
    assert!(rt; head == same_head && rest == same_rest);
    Ok(())
}
