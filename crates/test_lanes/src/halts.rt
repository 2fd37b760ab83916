//! Bells that are halted, and injectors that find a halt.
use crate::sources::Drip;
use crate::told::{add_taken, told};
use bp_feeds::Feed;
use bp_inject::{Injected, inject};
use bp_lanes::{Bell, Rope, Wake, lane};
use std::alloc::Global;
use std::sync::Wait;
use std::test::Fail;
use std::thread::Threads;

const LINES: &[u8] = b"[\"a\",1]\n[\"a\",2]\n[\"a\",3]\n";

/// Is found halted once it was asked so often.
#[derive(Drop)]
struct Countdown {
    left: u32,
    halts: u64,
    orders: u64,
}

impl Wake for Countdown {
    ghost halts = { λ c. c.halts };

    ghost orders = { λ c. c.orders };

    fn ring<R: Threads + Wait + Sync>(&mut self, _rt: &R) {}

    fn wait<R: Threads + Wait + Sync>(&mut self, _rt: &R) {}

    fn halt<R: Threads + Wait + Sync>(&mut self, _rt: &R) {
        self.orders = self.orders.saturating_add(1);
    }

    fn halted<R: Threads + Wait + Sync>(&mut self, _rt: &R) -> bool {
        let halted = self.halts > 0 || self.left == 0;
        if halted {
            self.halts = self.halts.saturating_add(1);
        } else {
            self.left -= 1;
        }
        halted
    }
}

/// What is offered where a halt is found after so many turns, and behind a slash what the source then still gives. It gives one
/// line a read.
fn halted_after<R: Threads + Wait + Sync>(
    rt: &R,
    alloc: Global,
    turns: u32,
) -> Result<String, Fail> {
    let (mouth, mut ear) = lane(alloc)?;
    let mut feed = Feed::new(alloc, Drip::new(alloc, LINES, 8, 0)?, mouth);
    let mut wake = Countdown {
        left: turns,
        halts: 0,
        orders: 0,
    };
    let mut text = String::new(alloc);
    if inject(rt, &mut feed, &mut wake)? == Injected::Halted {
        text.push_str("halted")?;
    }
    add_taken(alloc, &mut ear, &mut text)?;
    let (source, _) = feed.back();
    text.push_str("/")?;
    text.push_str(told(alloc, source)?.as_str())?;
    Ok(text)
}

#[test]
fn a_halted_injector_reads_no_further_line(rt: HostRuntime) -> Result<(), Fail> {
    let alloc = rt.alloc();
    let rows = [
        "halted/|[\"a\",1]|[\"a\",2]|[\"a\",3]|end",
        "halted|[\"a\",1]/|[\"a\",2]|[\"a\",3]|end",
        "halted|[\"a\",1]|[\"a\",2]/|[\"a\",3]|end",
        "halted|[\"a\",1]|[\"a\",2]|[\"a\",3]/|end",
        "|[\"a\",1]|[\"a\",2]|[\"a\",3]|end/|end",
    ];
    let mut turns = 0u32;
    for wanted in rows {
        assert!(rt;
            halted_after(&rt, alloc, turns)?.as_str() == wanted,
            "{wanted}"
        );
        turns = turns.saturating_add(1);
    }
    Ok(())
}

#[test]
fn a_halted_bell_ends_an_injector(rt: HostRuntime) -> Result<(), Fail> {
    let alloc = rt.alloc();
    let (mouth, mut ear) = lane(alloc)?;
    let bell = Bell::new();
    bell.ring(&rt);
    assert!(rt; bell.wait(&rt, 0) == 1);
    assert!(rt; !bell.halted(&rt));
    bell.halt(&rt);
    assert!(rt; bell.wait(&rt, 1) == 1);
    let mut feed = Feed::new(alloc, Drip::new(alloc, LINES, 8, 0)?, mouth);
    let mut rope = Rope::new(&bell);
    let injected = inject(&rt, &mut feed, &mut rope)?;
    assert!(rt; injected == Injected::Halted);
    assert!(rt; ear.take().is_none());
    Ok(())
}

/// An injector that runs out of memory has halted the bell before it answers, and one that reads all
/// of its lines leaves it as it was.
#[test]
fn an_injector_that_wants_memory_halts_the_bell(rt: HostRuntime) -> Result<(), Fail> {
    let alloc = rt.alloc();
    let (mouth, _ear) = lane(alloc)?;
    let mut feed = Feed::new(alloc, Drip::new(alloc, LINES, 8, 0)?, mouth);
    let bell = Bell::new();
    let mut rope = Rope::new(&bell);
    match inject(&rt, &mut feed, &mut rope) {
        Ok(injected) => assert!(rt; injected == Injected::Over && !bell.halted(&rt)),
        Err(_) => assert!(rt; bell.halted(&rt) && !feed.is_over()),
    }
    Ok(())
}

/// What one rope does, the others and the bell find.
#[test]
fn ropes_of_one_bell(rt: HostRuntime) -> Result<(), Fail> {
    let bell = Bell::new();
    let (mut one, mut other) = (Rope::new(&bell), Rope::new(&bell));
    one.ring(&rt);
    other.wait(&rt);
    one.ring(&rt);
    assert!(rt; bell.wait(&rt, 1) == 2);
    other.wait(&rt);
    assert!(rt; !one.halted(&rt) && !other.halted(&rt));
    one.halt(&rt);
    assert!(rt; bell.halted(&rt) && other.halted(&rt) && one.halted(&rt) && one.halted(&rt));
    other.wait(&rt);
    Ok(())
}
