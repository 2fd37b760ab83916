//! Sources that wait for one another, or for what was printed: each looks so often at most, and fails then.
ghost use Rattle.std.specs.Prelude.{None};

use crate::bench::{ends_as, sink, written};
use crate::rows::WATCHES;
use bp_base::{Failed, MemorySink, MemorySource, Sink, Source};
use std::alloc::Global;
use std::sync::Wait;
use std::sync::atomic::{AtomicU64, Ordering};
use std::test::Fail;
use std::thread::{Threads, yield_now};
use std::time::Clock;

/// How often a source looks at most; it lets other threads run after each look.
pub const LOOKS: u64 = 20_000_000;

/// Gives its bytes at the first read that may be made once a number has risen so far, by two pieces.
#[derive(Drop)]
pub struct Awaits<'a> {
    seen: &'a AtomicU64,
    adds: u64,
    first: u64,
    later: u64,
    pub looks: u64,
    piece: MemorySource,
    further: MemorySource,
    reads: u64,
    faults: u64,
}

/// Looks until the number is there.
pub fn is_there(seen: &AtomicU64, least: u64, looks: u64) -> bool {
    for _ in 0..looks {
        if seen.load(Ordering::SeqCst) >= least {
            return true;
        }
        yield_now();
    }
    false
}

impl<'a> Source for Awaits<'a> {
    ghost left = { λ _. None };

    ghost faults = { λ s. s.faults };

    fn read(&mut self, into: &mut [u8]) -> Result<usize, Failed> {
        let least = if self.reads == 0 {
            self.first
        } else {
            self.later
        };
        self.seen.fetch_add(self.adds, Ordering::SeqCst);
        self.adds = 0;
        if !is_there(self.seen, least, self.looks) {
            self.faults = self.faults.saturating_add(1);
            return Err(Failed);
        }
        let is_first = self.reads == 0;
        self.reads = self.reads.saturating_add(1);
        let came = if is_first {
            self.piece.read(into)
        } else {
            self.further.read(into)
        };
        match came {
            Ok(count) => Ok(count),
            Err(failed) => {
                self.faults = self.faults.saturating_add(1);
                Err(failed)
            }
        }
    }
}

/// An output that counts its lines.
#[derive(Drop)]
pub struct Counted<'a> {
    pub inner: MemorySink,
    pub lines: &'a AtomicU64,
}

impl<'a> Sink for Counted<'a> {
    ghost written = { λ _. None };

    ghost made_as = { λ _. None };

    ghost faults = { λ s. s.inner.faults };

    fn write(&mut self, bytes: &[u8]) -> Result<usize, Failed> {
        let count = self.inner.write(bytes)?;
        let mut lines: u64 = 0;
        for byte in bytes {
            if *byte == b'\n' {
                lines = lines.saturating_add(1);
            }
        }
        self.lines.fetch_add(lines, Ordering::SeqCst);
        Ok(count)
    }
}

/// A source that is read only once the number has risen so far, at its first read and at later ones. It
/// gives these two texts, and raises the number by so much as it is read first.
pub fn awaiting<'a>(
    alloc: Global,
    seen: &'a AtomicU64,
    adds: u64,
    least: (u64, u64),
    texts: (&str, &str),
) -> Result<Awaits<'a>, Fail> {
    let piece = MemorySource::new(texts.0.as_bytes().to_vec(alloc)?, Vec::new(alloc));
    let further = MemorySource::new(texts.1.as_bytes().to_vec(alloc)?, Vec::new(alloc));
    Ok(Awaits {
        seen,
        adds,
        first: least.0,
        later: least.1,
        looks: LOOKS,
        piece,
        further,
        reads: 0,
        faults: 0,
    })
}

/// This many injectors whose first reads wait for one another.
fn meeting<R: Threads + Wait + Sync + Clock>(
    rt: &R,
    alloc: Global,
    many: u32,
) -> Result<String, Fail> {
    let seen = AtomicU64::new(0);
    let mut inputs = Vec::new(alloc);
    for _input in 0..many {
        inputs.push(awaiting(alloc, &seen, 1, (many as u64, 0), ("[\"x\"]\n", ""))?)?;
    }
    let mut out = sink(alloc, &[])?;
    let mut log = None;
    let (end, _back) = ends_as(rt, alloc, WATCHES, (2, 100), inputs, &mut out, &mut log)?;
    Ok(end)
}

#[test]
fn two_injectors_are_read_at_once(rt: HostRuntime) -> Result<(), Fail> {
    assert_eq!(rt; meeting(&rt, rt.alloc(), 2)?.as_str(), "verdict quiet 2");
    Ok(())
}

#[test]
fn sixteen_injectors_are_read_at_once(rt: HostRuntime) -> Result<(), Fail> {
    assert_eq!(rt; meeting(&rt, rt.alloc(), 16)?.as_str(), "verdict quiet 16");
    Ok(())
}

/// A session whose injector gives a second piece once this many lines were printed.
fn printed_first<R: Threads + Wait + Sync + Clock>(
    rt: &R,
    alloc: Global,
    seen: &AtomicU64,
    script: &str,
    piece: &str,
    further: &str,
    lines: u64,
) -> Result<(String, String), Fail> {
    let mut inputs = Vec::new(alloc);
    inputs.push(awaiting(alloc, seen, 0, (0, lines), (piece, further))?)?;
    let mut out = Counted {
        inner: sink(alloc, &[])?,
        lines: seen,
    };
    let mut log = None;
    let (end, _back) = ends_as(rt, alloc, script, (2, 100), inputs, &mut out, &mut log)?;
    let Counted { inner, lines: _ } = out;
    Ok((end, written(inner)?))
}

/// What was printed is written before the session waits.
#[test]
fn a_second_line_comes_once_the_first_was_printed(rt: HostRuntime) -> Result<(), Fail> {
    let seen = AtomicU64::new(0);
    let (end, text) = printed_first(&rt, rt.alloc(), &seen, WATCHES, "[\"a\"]\n", "[\"b\"]\n", 1)?;
    assert_eq!(rt; end.as_str(), "verdict quiet 2");
    assert_eq!(rt;
        text.as_str(),
        "external [\"a\"]\nexternal [\"b\"]\nverdict quiet 2\n"
    );
    Ok(())
}

/// The verdict is written before the injectors are joined.
#[test]
fn the_verdict_is_printed_while_an_injector_reads(rt: HostRuntime) -> Result<(), Fail> {
    let script =
        r#"bp.registerBThread("A", () => { bp.sync({waitFor: bp.Event("x")}); bp.ASSERT(false, "end") })"#;
    let seen = AtomicU64::new(0);
    let (end, text) = printed_first(&rt, rt.alloc(), &seen, script, "[\"x\"]\n", "", 2)?;
    assert_eq!(rt;
        text.as_str(),
        "external [\"x\"]\nverdict violated \"A\" \"end\"\n"
    );
    assert_eq!(rt; end.as_str(), "verdict violated \"A\" \"end\"");
    Ok(())
}
