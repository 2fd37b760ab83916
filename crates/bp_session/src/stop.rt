//! Why serving stopped.
ghost use Rattle.std.specs.Prelude.{◌≡◌};

use bp_told::RunFault;
use std::alloc::AllocError;
use thiserror::Error;

/// Why serving stopped. A verdict may be recorded all the same: telling or writing it can fail.
#[derive(Clone, Copy, Debug, Error)]
pub(crate) enum Stop {
    /// The source of this injector failed.
    #[error("the source of injector {0} failed")]
    Read(u32),
    /// The output or the log failed while the run was told, or memory ran out. What waits may still be
    /// written, unless the log failed.
    #[error("the run was not told to its end")]
    Broken(RunFault),
    /// The output or the log failed while what waits was written.
    #[error("what was told was not written")]
    Unwritten(RunFault),
}

impl From<AllocError> for Stop {
    ghost use Rattle.std.specs.Prelude.{◌≡◌};
    ghost use Rattle.bp_told.specs.declared.fault.RunFault.TheVariants.{Memory};
    ghost use Rattle.bp_session.specs.declared.stop.Stop.TheVariants.{Broken};

    ghost from_gives = { λ _ e. e ≡ Broken Memory };

    fn from(_: AllocError) -> Stop {
        Stop::Broken(RunFault::Memory)
    }
}

impl From<RunFault> for Stop {
    ghost use Rattle.std.specs.Prelude.{◌≡◌};
    ghost use Rattle.bp_session.specs.declared.stop.Stop.TheVariants.{Broken};

    ghost from_gives = { λ f e. e ≡ Broken f };

    fn from(fault: RunFault) -> Stop {
        Stop::Broken(fault)
    }
}
