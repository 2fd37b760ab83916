//! Views that are shown by one thread and watched by another. Whoever waits looks so often at most, and is found
//! halted then.
ghost use Rattle.std.specs.Prelude.{None};

use crate::bench::{at, line_at, show, sink, written};
use bp_base::{Failed, MemorySink, Sink};
use bp_lanes::{Bell, Rope, Wake};
use bp_view::{Shower, Watched, catch_up, view, watch, write_line};
use std::alloc::Global;
use std::sync::Wait;
use std::sync::atomic::{AtomicU64, Ordering};
use std::test::Fail;
use std::thread::{Threads, join_mut, yield_now};

/// How many summaries are shown after the first.
const MANY: u32 = 12;

/// How often a thread looks at most; it lets other threads run after each look.
const LOOKS: u64 = 10_000_000;

/// What one thread rings, and another looks at.
#[derive(Drop)]
struct Signal {
    rings: AtomicU64,
    halts: AtomicU64,
}

impl Signal {
    fn new() -> Signal {
        Signal {
            rings: AtomicU64::new(0),
            halts: AtomicU64::new(0),
        }
    }
}

/// Looks until there were other rings than these, or a halt, and answers how many there were; none if that does
/// not come.
fn next_ring(signal: &Signal, seen: u64) -> Option<u64> {
    for _ in 0..LOOKS {
        let rings = signal.rings.load(Ordering::SeqCst);
        if rings != seen || signal.halts.load(Ordering::SeqCst) > 0 {
            return Some(rings);
        }
        yield_now();
    }
    None
}

/// One thread's hold of a signal. It is found halted if a ring did not come.
#[derive(Drop)]
struct Polls<'a> {
    signal: &'a Signal,
    seen: u64,
    late: bool,
    halts: u64,
    orders: u64,
}

impl<'a> Polls<'a> {
    fn new(signal: &'a Signal) -> Polls<'a> {
        Polls {
            signal,
            seen: 0,
            late: false,
            halts: 0,
            orders: 0,
        }
    }
}

impl<'a> Wake for Polls<'a> {
    ghost halts = { λ p. p.halts };

    ghost orders = { λ p. p.orders };

    fn ring<R: Threads + Wait + Sync>(&mut self, _rt: &R) {
        self.signal.rings.fetch_add(1, Ordering::SeqCst);
    }

    fn wait<R: Threads + Wait + Sync>(&mut self, _rt: &R) {
        match next_ring(self.signal, self.seen) {
            Some(rings) => self.seen = rings,
            None => self.late = true,
        }
    }

    fn halt<R: Threads + Wait + Sync>(&mut self, _rt: &R) {
        self.signal.halts.fetch_add(1, Ordering::SeqCst);
        self.orders = self.orders.saturating_add(1);
    }

    fn halted<R: Threads + Wait + Sync>(&mut self, _rt: &R) -> bool {
        let halted = self.halts > 0 || self.late || self.signal.halts.load(Ordering::SeqCst) > 0;
        if halted {
            self.halts = self.halts.saturating_add(1);
        }
        halted
    }
}

/// Shows up to the last and rings after each; halts at the end if it is to, or where one could not be shown.
/// Whether all were shown.
fn show_all<W: Wake, R: Threads + Wait + Sync>(
    rt: &R,
    shower: &mut Shower,
    wake: &mut W,
    shown: &AtomicU64,
    halts: bool,
) -> bool {
    let mut all = true;
    for index in 0..MANY {
        let records = index.saturating_add(1);
        all = all && show(rt, shower, at(records, records == MANY));
        shown.fetch_add(1, Ordering::SeqCst);
        wake.ring(rt);
    }
    if halts || !all {
        wake.halt(rt);
    }
    all
}

/// What came of a view: what was written, and how watching ended.
#[derive(Drop)]
struct Came {
    watched: Watched,
    all: bool,
    whole: bool,
}

/// Shows in one thread and watches in another, by these two, and ends the view.
fn beside<V: Sink + Send, W: Wake + Send, R: Threads + Wait + Sync>(
    rt: &R,
    alloc: Global,
    sink: &mut V,
    (wakes, watches): (&mut W, &mut W),
    shown: &AtomicU64,
    halts: bool,
) -> Result<Came, Fail> {
    if write_line(alloc, &at(0, false), sink).is_err() {
        return Err(Fail::new("the first line"));
    }
    let (mut shower, mut watcher) = view(rt, alloc, at(0, false))?;
    let (watched, all) = join_mut(
        rt,
        &mut || watch(rt, alloc, &mut watcher, sink, watches),
        &mut || show_all(rt, &mut shower, wakes, shown, halts),
    );
    let ended = catch_up(alloc, watched, &mut watcher, shower.tell(), sink);
    shower.end(rt);
    Ok(Came {
        watched,
        all,
        whole: ended.is_ok(),
    })
}

/// Whether the text is lines of summaries that never go back, from the first to the last.
fn is_view(alloc: Global, text: &str) -> Result<bool, Fail> {
    let mut rest = text;
    let mut last = false;
    for index in 0..MANY.saturating_add(1) {
        let line = line_at(alloc, index, index == MANY)?;
        last = rest.starts_with(line.as_str());
        if index == 0 && !last {
            return Ok(false);
        }
        if last {
            rest = &rest[line.len()..];
        }
    }
    Ok(last && rest.is_empty())
}

/// A view by signals: whether all was shown and written as it is to be.
fn by_signals<R: Threads + Wait + Sync>(rt: &R, alloc: Global, halts: bool) -> Result<bool, Fail> {
    let (signal, shown) = (Signal::new(), AtomicU64::new(0));
    let mut out = sink(alloc, &[])?;
    let (mut wakes, mut watches) = (Polls::new(&signal), Polls::new(&signal));
    let came = beside(
        rt,
        alloc,
        &mut out,
        (&mut wakes, &mut watches),
        &shown,
        halts,
    )?;
    let in_time = !watches.late && (halts || came.watched == Watched::All);
    Ok(came.all && came.whole && in_time && is_view(alloc, written(out)?.as_str())?)
}

#[test]
fn a_thousand_runs_are_viewed(rt: HostRuntime) -> Result<(), Fail> {
    for run in 0..1_000u32 {
        assert!(rt; by_signals(&rt, rt.alloc(), run % 2 == 0)?);
    }
    Ok(())
}

/// An output whose second line takes until all were shown, and that fails if they are not.
#[derive(Drop)]
struct Slow<'a> {
    inner: MemorySink,
    shown: &'a AtomicU64,
    lines: u64,
}

/// Looks until so many were shown.
fn are_shown(shown: &AtomicU64, many: u64) -> bool {
    for _ in 0..LOOKS {
        if shown.load(Ordering::SeqCst) >= many {
            return true;
        }
        yield_now();
    }
    false
}

impl<'a> Sink for Slow<'a> {
    ghost written = { λ _. None };

    ghost made_as = { λ _. None };

    ghost faults = { λ s. s.inner.faults };

    fn write(&mut self, bytes: &[u8]) -> Result<usize, Failed> {
        self.lines = self.lines.saturating_add(1);
        let many = if self.lines == 2 { u64::from(MANY) } else { 0 };
        let all = are_shown(self.shown, many);
        let count = self.inner.write(bytes)?;
        if !all {
            self.lines = u64::MAX;
        }
        Ok(count)
    }
}

/// While a watcher writes, nothing holds up the shower; of what was shown meanwhile only the last has a line.
#[test]
fn a_slow_watcher_holds_up_no_one(rt: HostRuntime) -> Result<(), Fail> {
    let alloc = rt.alloc();
    let (signal, shown) = (Signal::new(), AtomicU64::new(0));
    let mut out = Slow {
        inner: sink(alloc, &[])?,
        shown: &shown,
        lines: 0,
    };
    let (mut wakes, mut watches) = (Polls::new(&signal), Polls::new(&signal));
    let came = beside(
        &rt,
        alloc,
        &mut out,
        (&mut wakes, &mut watches),
        &shown,
        false,
    )?;
    let Slow {
        inner,
        shown: _,
        lines,
    } = out;
    assert!(rt; came.all && came.whole && came.watched == Watched::All);
    assert!(rt; lines == 2 || lines == 3);
    assert!(rt; is_view(alloc, written(inner)?.as_str())?);
    Ok(())
}

/// A watcher whose thread finds a halt before it has seen anything; the last line is there nevertheless.
#[test]
fn a_watcher_is_halted_at_its_thread(rt: HostRuntime) -> Result<(), Fail> {
    let alloc = rt.alloc();
    for _ in 0..100u32 {
        let (signal, shown) = (Signal::new(), AtomicU64::new(0));
        let mut out = sink(alloc, &[])?;
        let (mut wakes, mut watches) = (Polls::new(&signal), Polls::new(&signal));
        wakes.halt(&rt);
        let came = beside(
            &rt,
            alloc,
            &mut out,
            (&mut wakes, &mut watches),
            &shown,
            false,
        )?;
        assert!(rt; came.all && came.whole);
        assert!(rt; is_view(alloc, written(out)?.as_str())?);
    }
    Ok(())
}

/// The same by a bell, which was halted before: nobody waits for it.
#[test]
fn a_halted_bell_ends_watching(rt: HostRuntime) -> Result<(), Fail> {
    let alloc = rt.alloc();
    let (bell, shown) = (Bell::new(), AtomicU64::new(0));
    bell.halt(&rt);
    let mut out = sink(alloc, &[])?;
    let (mut wakes, mut watches) = (Rope::new(&bell), Rope::new(&bell));
    let came = beside(
        &rt,
        alloc,
        &mut out,
        (&mut wakes, &mut watches),
        &shown,
        true,
    )?;
    assert!(rt; came.all && came.whole);
    assert!(rt; is_view(alloc, written(out)?.as_str())?);
    Ok(())
}

/// A write that fails in the other thread: what is there is a front of a view.
#[test]
fn a_write_fails_in_the_other_thread(rt: HostRuntime) -> Result<(), Fail> {
    let alloc = rt.alloc();
    for _ in 0..100u32 {
        let (signal, shown) = (Signal::new(), AtomicU64::new(0));
        let mut out = sink(alloc, &[2])?;
        let (mut wakes, mut watches) = (Polls::new(&signal), Polls::new(&signal));
        let came = beside(
            &rt,
            alloc,
            &mut out,
            (&mut wakes, &mut watches),
            &shown,
            true,
        )?;
        assert!(rt; came.all && !came.whole);
        assert_eq!(rt; written(out)?.as_str(), line_at(alloc, 0, false)?.as_str());
    }
    Ok(())
}
