//! Why a log is refused.
ghost use Rattle.std.specs.Prelude.{◌≡◌};

use crate::input::Fault;
use std::alloc::{AllocError, AllocFailed};
use thiserror::Error;

/// Why a log is refused.
#[derive(Clone, Copy, Debug, Error)]
pub enum LogFault {
    /// The first line is not that of a version.
    #[error("version")]
    Version,
    /// A line of the header is wrong, or the byte after the program.
    #[error("header")]
    Header,
    /// The line of a record is wrong, by its number from 1; or there are bytes after the last.
    #[error("line {0}")]
    Line(u32),
    /// The log ended too early.
    #[error("cut")]
    Cut,
    /// The source failed.
    #[error("the source failed")]
    Read,
    /// Out of memory.
    #[error("no memory was left")]
    Memory,
}

impl From<AllocError> for LogFault {
    ghost use Rattle.std.specs.Prelude.{◌≡◌};
    ghost use Rattle.bp_reader.specs.declared.fault.LogFault.TheVariants.{Memory};

    ghost from_gives = { λ _ e. e ≡ Memory };

    fn from(_: AllocError) -> LogFault {
        LogFault::Memory
    }
}

impl<T: Drop> From<AllocFailed<T>> for LogFault {
    ghost use Rattle.std.specs.Prelude.{◌≡◌};
    ghost use Rattle.bp_reader.specs.declared.fault.LogFault.TheVariants.{Memory};

    ghost from_gives = { λ _ e. e ≡ Memory };

    fn from(_: AllocFailed<T>) -> LogFault {
        LogFault::Memory
    }
}

impl From<Fault> for LogFault {
    ghost use Rattle.std.specs.Prelude.{◌≡◌};
    ghost use Rattle.bp_reader.specs.declared.input.Fault.{Fault};
    ghost use Rattle.bp_reader.specs.inner.Faults.{fault_of};

    ghost from_gives = { λ f e. e ≡ fault_of f };

    fn from(fault: Fault) -> LogFault {
        match fault {
            Fault::Read => LogFault::Read,
            Fault::Memory => LogFault::Memory,
        }
    }
}
