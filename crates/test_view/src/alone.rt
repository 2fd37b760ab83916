//! Views that are shown and watched by one thread.
ghost use Rattle.std.specs.Prelude.{None};

use crate::bench::{Shows, at, line_at, show, sink, written};
use bp_base::{Failed, MemorySink, Sink};
use bp_lanes::Wake;
use bp_view::{
    LineFault, Shower, Watched, Watcher, catch_up, moves_between_threads, view, watch, write_line,
};
use std::alloc::Global;
use std::sync::Wait;
use std::test::Fail;
use std::thread::Threads;

const WHOLE: &str =
    "view records 0 steps 0 live 3 queue 0\nview records 1 steps 0 live 3 queue 1\nview records 2 steps 1 live 3 queue 0\nview records 3 steps 1 live 3 queue 1 over\n";

const LINES: [&str; 4] = [
    "view records 0 steps 0 live 3 queue 0\n",
    "view records 1 steps 0 live 3 queue 1\n",
    "view records 2 steps 1 live 3 queue 0\n",
    "view records 3 steps 1 live 3 queue 1 over\n",
];

/// How watching ended, in a word.
fn word_of(watched: Watched) -> &'static str {
    match watched {
        Watched::All => "all",
        Watched::Write => "write",
        Watched::Memory => "memory",
        Watched::Halted => "halted",
    }
}

/// How the view ended, in a word.
fn end_of(ended: Result<(), LineFault>) -> &'static str {
    match ended {
        Ok(()) => "whole",
        Err(LineFault::Write) => "write",
        Err(LineFault::Memory) => "memory",
    }
}

/// The two ends, of which the first shows 1 to 3, and is found halted once it was asked so often.
fn ends<R: Wait>(rt: &R, alloc: Global, asked: u32) -> Result<(Shows, Watcher), Fail> {
    let (shower, watcher) = view(rt, alloc, at(0, false))?;
    let shows = Shows {
        shower,
        next: 1,
        last: 3,
        left: asked,
        halts: 0,
        orders: 0,
    };
    Ok((shows, watcher))
}

/// Watches what is shown at each wait, and ends the view: how both came out.
fn viewed<V: Sink, R: Threads + Wait + Sync>(
    rt: &R,
    alloc: Global,
    asked: u32,
    sink: &mut V,
) -> Result<(&'static str, &'static str), Fail> {
    if write_line(alloc, &at(0, false), sink).is_err() {
        return Ok(("", "write"));
    }
    let (mut shows, mut watcher) = ends(rt, alloc, asked)?;
    let watched = watch(rt, alloc, &mut watcher, sink, &mut shows);
    for _ in 0..3 {
        shows.wait(rt);
    }
    let ended = catch_up(alloc, watched, &mut watcher, shows.shower.tell(), sink);
    let Shows {
        shower,
        next: _,
        last: _,
        left: _,
        halts: _,
        orders: _,
    } = shows;
    shower.end(rt);
    Ok((word_of(watched), end_of(ended)))
}

#[test]
fn each_summary_has_a_line(rt: HostRuntime) -> Result<(), Fail> {
    let alloc = rt.alloc();
    let mut out = sink(alloc, &[])?;
    let came = viewed(&rt, alloc, 100, &mut out)?;
    assert_eq!(rt; came.0, "all");
    assert_eq!(rt; came.1, "whole");
    assert_eq!(rt; written(out)?.as_str(), WHOLE);
    Ok(())
}

/// Whatever write fails, what was written before stands, and nothing more is written.
#[test]
fn each_write_may_fail(rt: HostRuntime) -> Result<(), Fail> {
    let alloc = rt.alloc();
    let mut text = String::new(alloc);
    for fails in 0..4 {
        let mut out = sink(alloc, &[fails as u64 + 1])?;
        let came = viewed(&rt, alloc, 100, &mut out)?;
        assert_eq!(rt; came.1, "write");
        assert_eq!(rt; written(out)?.as_str(), text.as_str());
        text.push_str(LINES[fails])?;
    }
    Ok(())
}

/// A watcher that is halted has written what it saw before; the last line is still written.
#[test]
fn a_watcher_may_be_halted(rt: HostRuntime) -> Result<(), Fail> {
    let alloc = rt.alloc();
    let mut text = String::new(alloc);
    for asked in 0..3 {
        text.push_str(LINES[asked])?;
        let mut out = sink(alloc, &[])?;
        let came = viewed(&rt, alloc, asked as u32, &mut out)?;
        assert_eq!(rt; came.0, "halted");
        assert_eq!(rt; came.1, "whole");
        let wanted = format!(in alloc; "{}{}", text.as_str(), LINES[3])?;
        assert_eq!(rt; written(out)?.as_str(), wanted.as_str());
    }
    Ok(())
}

/// The line that is written last fails.
#[test]
fn the_last_line_may_fail(rt: HostRuntime) -> Result<(), Fail> {
    let alloc = rt.alloc();
    let mut out = sink(alloc, &[3])?;
    let came = viewed(&rt, alloc, 1, &mut out)?;
    assert_eq!(rt; came.0, "halted");
    assert_eq!(rt; came.1, "write");
    assert_eq!(rt;
        written(out)?.as_str(),
        format!(in alloc; "{}{}", LINES[0], LINES[1])?.as_str()
    );
    Ok(())
}

/// Takes at most seven bytes at each write.
#[derive(Drop)]
struct Narrow {
    inner: MemorySink,
}

impl Sink for Narrow {
    ghost written = { λ _. None };

    ghost made_as = { λ _. None };

    ghost faults = { λ s. s.inner.faults };

    fn write(&mut self, bytes: &[u8]) -> Result<usize, Failed> {
        let count = bytes.len().min(7);
        self.inner.write(&bytes[..count])
    }
}

/// An output that takes few bytes at a time gets whole lines, or a front of them where one of its writes fails.
#[test]
fn lines_go_into_a_narrow_output(rt: HostRuntime) -> Result<(), Fail> {
    let alloc = rt.alloc();
    for fails in 0..26u64 {
        let mut out = Narrow {
            inner: sink(alloc, &[fails])?,
        };
        let came = viewed(&rt, alloc, 100, &mut out)?;
        let Narrow { inner } = out;
        let text = written(inner)?;
        if fails == 0 {
            assert_eq!(rt; text.as_str(), WHOLE);
        } else {
            assert!(rt; came.1 == "write" && WHOLE.starts_with(text.as_str()));
            assert!(rt; text.len() < WHOLE.len());
        }
    }
    Ok(())
}

/// What a shower has shown a watcher sees, and learns.
fn seen_of<R: Wait>(rt: &R, shower: &mut Shower, watcher: &mut Watcher) -> (bool, bool) {
    let shown = show(rt, shower, at(2, false)) && show(rt, shower, at(5, true));
    let seen = watcher.look();
    let learnt = watcher.learn(shower.tell()).is_ok();
    (
        shown && seen == at(5, true) && shower.last() == at(5, true),
        learnt && watcher.last() == at(5, true),
    )
}

#[test]
fn a_watcher_learns_what_its_shower_tells(rt: HostRuntime) -> Result<(), Fail> {
    let alloc = rt.alloc();
    let (mut shower, mut watcher) = view(&rt, alloc, at(0, false))?;
    moves_between_threads(&watcher);
    let came = seen_of(&rt, &mut shower, &mut watcher);
    shower.end(&rt);
    assert!(rt; came.0 && came.1);
    assert!(rt; watcher.look() == at(5, true));
    Ok(())
}

/// Whether a watcher learns what the shower of another view tells.
fn learns_of_another<R: Wait>(rt: &R, alloc: Global) -> Result<bool, Fail> {
    let (shower, mut watcher) = view(rt, alloc, at(0, false))?;
    let Ok((other, _watcher)) = view(rt, alloc, at(1, false)) else {
        shower.end(rt);
        return Err(Fail::new("no memory"));
    };
    let learns = watcher.learn(other.tell()).is_ok();
    shower.end(rt);
    other.end(rt);
    Ok(learns)
}

#[test]
fn what_another_shower_told_is_not_learnt(rt: HostRuntime) -> Result<(), Fail> {
    assert!(rt; !learns_of_another(&rt, rt.alloc())?);
    Ok(())
}

/// What the tests of threads expect of a line.
#[test]
fn lines_of_the_tests_are_those_above(rt: HostRuntime) -> Result<(), Fail> {
    let alloc = rt.alloc();
    for records in 0..3 {
        assert_eq!(rt;
            line_at(alloc, records as u32, false)?.as_str(),
            LINES[records]
        );
    }
    Ok(())
}
