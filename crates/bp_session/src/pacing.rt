//! When what waits to be written is due by the clock.
ghost use Rattle.std.specs.Prelude.{◌≡◌, true};

use std::time::{Clock, Instant};

/// How many seconds what was told may wait at the end of a turn.
const MOST_SECONDS: u64 = 1;

/// A clock, and when what waits was last due by it, or the run began.
#[derive(Drop)]
pub(crate) struct Pace<'a, C> {
    clock: &'a C,
    since: Option<Instant>,
}

impl<'a, C: Clock> Pace<'a, C> {
    /// From now on.
    pub(crate) fn new(clock: &'a C) -> Pace<'a, C> {
        Pace {
            clock,
            since: Instant::now(clock).ok(),
        }
    }

    /// Whether what waits is due: something entered in the round before, or a second has passed since it was
    /// due by the clock. A clock that can't be read lets it wait. No clause speaks of the clock.
    pub(crate) fn is_due(&mut self, heard: bool) -> bool
        ensures { heard ≡ true → result ≡ true }
    {
        if heard {
            return true;
        }
        let Ok(now) = Instant::now(self.clock) else {
            return false;
        };
        if let Some(since) = self.since
            && now.duration_since(since).as_secs() < MOST_SECONDS
        {
            return false;
        }
        self.since = Some(now);
        true
    }
}
