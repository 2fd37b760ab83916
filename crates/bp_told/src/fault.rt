//! Why a run was not printed to its end.
ghost use Rattle.std.specs.Prelude.{◌≡◌};

use bp_base::Failed;
use std::alloc::AllocError;
use thiserror::Error;

/// Why a run was not printed to its end.
#[derive(Clone, Copy, Debug, PartialEq, Eq, Error)]
pub enum RunFault {
    /// The output failed.
    #[error("the output failed")]
    Write,
    /// The log failed.
    #[error("the log failed")]
    LogWrite,
    /// No memory was left.
    #[error("no memory was left")]
    Memory,
}

impl From<AllocError> for RunFault {
    ghost use Rattle.std.specs.Prelude.{◌≡◌};
    ghost use Rattle.bp_told.specs.declared.fault.RunFault.TheVariants.{Memory};

    ghost from_gives = { λ _ e. e ≡ Memory };

    fn from(_: AllocError) -> RunFault {
        RunFault::Memory
    }
}

impl From<Failed> for RunFault {
    ghost use Rattle.std.specs.Prelude.{◌≡◌};
    ghost use Rattle.bp_told.specs.declared.fault.RunFault.TheVariants.{Write};

    ghost from_gives = { λ _ e. e ≡ Write };

    fn from(_: Failed) -> RunFault {
        RunFault::Write
    }
}
