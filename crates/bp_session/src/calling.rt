//! How a session is woken by its injectors, and wakes them.
ghost use Rattle.std.specs.Prelude.{◌≡◌, false};
ghost use Rattle.std.specs.List.{list_any};
ghost use Rattle.bp_session.specs.inner.Hearing.{AreHeardOut};
ghost use Rattle.bp_session.specs.inner.Turning.{turns_here, IsWaiting};

use crate::reading::Reading;
use crate::written::Written;
use bp_base::Source;
use bp_lanes::{Bell, ROOM, Rope, Wake};
use std::sync::Wait;
use std::thread::Threads;

/// The rope by which a session and its injectors wake one another, and how many items entered since it was
/// last rung. A ring wakes all that wait for a place, and one that is woken for a single place soon waits
/// again: so it is not rung for each item.
#[derive(Drop)]
pub(crate) struct Calls<'a> {
    rope: Rope<'a>,
    unrung: usize,
}

impl<'a> Calls<'a> {
    /// Those by this bell. Nothing entered.
    pub(crate) fn new(bell: &'a Bell) -> Calls<'a> {
        Calls {
            rope: Rope::new(bell),
            unrung: 0,
        }
    }

    /// Whether the bell was halted.
    pub(crate) fn halted<R: Threads + Wait + Sync>(&mut self, rt: &R) -> bool {
        self.rope.halted(rt)
    }

    /// Waits until an injector rings, or the bell is halted. Asks that the run waits, that all of it is
    /// written, that each of these injectors was heard out, and that none has a turn left for the
    /// session to make. No clause says that it waits.
    pub(crate) fn wait<S: Source, R: Threads + Wait + Sync>(
        &mut self,
        rt: &R,
        written: Written<'_>,
        readings: &Vec<Reading<S>>,
    )
        requires waiting { IsWaiting written.core.now }
        requires heard { AreHeardOut written.core.now readings.now.items }
        requires nobody { list_any turns_here readings.now.items ≡ false }
    {
        let _ = written;
        let _ = readings;
        self.rope.wait(rt);
    }

    /// This many items entered, which left as many places free. Who waits for one is woken once as many
    /// entered as a lane holds, since an injector waits only if its lane is full; and at once if the
    /// session may wait for a source.
    pub(crate) fn entered<R: Threads + Wait + Sync>(
        &mut self,
        rt: &R,
        count: usize,
        at_once: bool,
    ) {
        self.unrung = self.unrung.saturating_add(count);
        let enough = if at_once { 1 } else { ROOM };
        if self.unrung >= enough {
            self.rope.ring(rt);
            self.unrung = 0;
        }
    }
}
