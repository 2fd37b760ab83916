//! Why a log was not migrated to its end.
ghost use Rattle.std.specs.Prelude.{◌≡◌};

use bp_base::Failed;
use bp_reader::LogFault;
use std::alloc::AllocError;
use thiserror::Error;

/// Why a log was not migrated to its end.
#[derive(Clone, Copy, Debug, Drop, Error)]
pub enum MigrateFault {
    /// The bytes are no log, or reading them failed.
    #[error("{0}")]
    Log(LogFault),
    /// The output failed.
    #[error("the output failed")]
    Write,
    /// No memory was left.
    #[error("no memory was left")]
    Memory,
}

impl From<AllocError> for MigrateFault {
    ghost use Rattle.std.specs.Prelude.{◌≡◌};
    ghost use Rattle.bp_migrate.specs.declared.fault.MigrateFault.TheVariants.{Memory};

    ghost from_gives = { λ _ e. e ≡ Memory };

    fn from(_: AllocError) -> MigrateFault {
        MigrateFault::Memory
    }
}

impl From<Failed> for MigrateFault {
    ghost use Rattle.std.specs.Prelude.{◌≡◌};
    ghost use Rattle.bp_migrate.specs.declared.fault.MigrateFault.TheVariants.{Write};

    ghost from_gives = { λ _ e. e ≡ Write };

    fn from(_: Failed) -> MigrateFault {
        MigrateFault::Write
    }
}

impl From<LogFault> for MigrateFault {
    ghost use Rattle.std.specs.Prelude.{◌≡◌};
    ghost use Rattle.bp_migrate.specs.inner.Faults.{fault_of_log};

    ghost from_gives = { λ f e. e ≡ fault_of_log f };

    fn from(fault: LogFault) -> MigrateFault {
        match fault {
            LogFault::Memory => MigrateFault::Memory,
            fault => MigrateFault::Log(fault),
        }
    }
}
