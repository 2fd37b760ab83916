//! Why a log was not replayed to its end.
ghost use Rattle.std.specs.Prelude.{◌≡◌};

use bp_base::Failed;
use bp_log::{PrintError, Record};
use bp_reader::LogFault;
use std::alloc::AllocError;
use thiserror::Error;

/// Why a log was not replayed to its end.
#[derive(Debug, Error)]
pub enum ReplayFault {
    /// The bytes are not a log, or reading them failed.
    #[error("{0}")]
    Log(LogFault),
    /// The record of this number, counted from 1, is not what the run makes next: that is
    /// `expected`, or `None` if the run waits for an injector.
    #[error("record {number} differs")]
    Differs {
        number: u32,
        expected: Option<Record>,
        found: Record,
    },
    /// The program of the log is not accepted.
    #[error("program")]
    Program,
    /// The output failed.
    #[error("the output failed")]
    Write,
    /// Out of memory.
    #[error("no memory was left")]
    Memory,
}

impl Drop for ReplayFault {
    fn drop(self) {
        match self {
            ReplayFault::Log(_) => {}
            ReplayFault::Differs {
                number: _,
                expected: _,
                found: _,
            } => {}
            ReplayFault::Program => {}
            ReplayFault::Write => {}
            ReplayFault::Memory => {}
        }
    }
}

impl From<AllocError> for ReplayFault {
    ghost use Rattle.std.specs.Prelude.{◌≡◌};
    ghost use Rattle.bp_replay.specs.declared.fault.ReplayFault.TheVariants.{Memory};

    ghost from_gives = { λ _ e. e ≡ Memory };

    fn from(_: AllocError) -> ReplayFault {
        ReplayFault::Memory
    }
}

impl From<Failed> for ReplayFault {
    ghost use Rattle.std.specs.Prelude.{◌≡◌};
    ghost use Rattle.bp_replay.specs.declared.fault.ReplayFault.TheVariants.{Write};

    ghost from_gives = { λ _ e. e ≡ Write };

    fn from(_: Failed) -> ReplayFault {
        ReplayFault::Write
    }
}

impl From<PrintError> for ReplayFault {
    ghost use Rattle.std.specs.Prelude.{◌≡◌};
    ghost use Rattle.bp_replay.specs.Faults.{fault_of_print};

    ghost from_gives = { λ f e. e ≡ fault_of_print f };

    fn from(fault: PrintError) -> ReplayFault {
        match fault {
            PrintError::Write => ReplayFault::Write,
            PrintError::Memory => ReplayFault::Memory,
        }
    }
}

impl From<LogFault> for ReplayFault {
    ghost use Rattle.std.specs.Prelude.{◌≡◌};
    ghost use Rattle.bp_replay.specs.Faults.{fault_of_log};

    ghost from_gives = { λ f e. e ≡ fault_of_log f };

    fn from(fault: LogFault) -> ReplayFault {
        match fault {
            LogFault::Memory => ReplayFault::Memory,
            fault => ReplayFault::Log(fault),
        }
    }
}
