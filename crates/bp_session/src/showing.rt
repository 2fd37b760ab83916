//! What a session shows of its run while it serves it.
use crate::pacing::Pace;
use crate::written::Written;
use bp_base::Memory;
use bp_core::Core;
use std::alloc::Global;
use std::sync::Wait;
use std::thread::Threads;
use std::time::Clock;

/// What is shown the run that a session serves: before it waits, and once it is over. It may wait itself, so
/// all of the run so far is written before. At the end of a turn it says whether what waits is due.
pub(crate) trait Shows {
    ghost use denote.Param.Send.{IsSync};
    ghost use Rattle.std.specs.Prelude.{◌≡◌, true};

    /// Whether what waits to be written is due, as it is if something entered in the round before.
    fn is_due(&mut self, heard: bool) -> bool
        ensures { heard ≡ true → result ≡ true };

    /// Shows the run as it stands.
    fn show<R: Threads + Wait + Sync>(
        &mut self,
        rt: &R,
        alloc: Global,
        core: &Core,
        written: Written<'_>,
    ) -> Result<(), Memory>
        requires { IsSync R.row };
}

/// Shows nothing. What waits is due by the clock.
#[derive(Drop)]
pub(crate) struct Silent<'a, C> {
    pub(crate) pace: Pace<'a, C>,
}

impl<'a, C: Clock> Shows for Silent<'a, C> {
    fn is_due(&mut self, heard: bool) -> bool {
        self.pace.is_due(heard)
    }

    fn show<R: Threads + Wait + Sync>(
        &mut self,
        _rt: &R,
        _alloc: Global,
        _core: &Core,
        _written: Written<'_>,
    ) -> Result<(), Memory> {
        Ok(())
    }
}
