//! Summaries, their lines, and what shows them one by one.
use bp_base::MemorySink;
use bp_lanes::Wake;
use bp_view::{Shower, Summary};
use std::alloc::Global;
use std::sync::Wait;
use std::test::Fail;
use std::thread::Threads;

/// As much as the outputs of the tests hold.
pub const ROOM: u64 = 100_000;

/// A summary of this many records, of which each second was a selection.
pub fn at(records: u32, over: bool) -> Summary {
    Summary {
        records,
        steps: records / 2,
        live: 3,
        queue: records % 2,
        over,
    }
}

/// The line of that summary.
pub fn line_at(alloc: Global, records: u32, over: bool) -> Result<String, Fail> {
    let (steps, queue) = (records / 2, records % 2);
    let end = if over { " over" } else { "" };
    Ok(format!(in alloc; "view records {records} steps {steps} live 3 queue {queue}{end}\n")?)
}

/// An output whose writes of these numbers fail, counted from 1.
pub fn sink(alloc: Global, fails: &[u64]) -> Result<MemorySink, Fail> {
    Ok(MemorySink::new(alloc, ROOM, fails.to_vec(alloc)?)?)
}

/// What was written.
pub fn written(sink: MemorySink) -> Result<String, Fail> {
    let (bytes, _faults) = sink.into_parts();
    Ok(String::from_utf8(bytes).ok().ok_or("no text")?)
}

/// Shows this, if it may be shown.
pub fn show<R: Wait>(rt: &R, shower: &mut Shower, summary: Summary) -> bool {
    let last = shower.last();
    if last.over || summary.records <= last.records {
        return false;
    }
    shower.show(rt, summary).is_ok()
}

/// Shows the next summary at each wait, up to one that is over, and is found halted once it was asked so often.
pub struct Shows {
    pub shower: Shower,
    pub next: u32,
    pub last: u32,
    pub left: u32,
    pub halts: u64,
    pub orders: u64,
}

impl Wake for Shows {
    ghost halts = { λ s. s.halts };

    ghost orders = { λ s. s.orders };

    fn ring<R: Threads + Wait + Sync>(&mut self, _rt: &R) {}

    fn wait<R: Threads + Wait + Sync>(&mut self, rt: &R) {
        if self.next <= self.last {
            let summary = at(self.next, self.next == self.last);
            show(rt, &mut self.shower, summary);
            self.next = self.next.saturating_add(1);
        }
    }

    fn halt<R: Threads + Wait + Sync>(&mut self, _rt: &R) {
        self.orders = self.orders.saturating_add(1);
    }

    fn halted<R: Threads + Wait + Sync>(&mut self, _rt: &R) -> bool {
        let halted = self.halts > 0 || self.left == 0;
        if halted {
            self.halts = self.halts.saturating_add(1);
        } else {
            self.left -= 1;
        }
        halted
    }
}
