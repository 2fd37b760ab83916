//! What is answered about a log, and why there is not an answer.
use bp_base::Source;
use bp_reader::LogFault;
use bp_replay::ReplayFault;
use std::alloc::{AllocError, AllocFailed};
use thiserror::Error;

/// Why nothing is said of a log.
#[derive(Debug, Drop, Error)]
pub enum NoAnswer {
    /// It is refused: it is no log as far as it is read, its program is refused, or the run does not
    /// make a record that is asked for.
    #[error("{0}")]
    Refused(ReplayFault),
    /// It has no record, or no selection, of this number.
    #[error("no such record")]
    Absent,
}

impl From<AllocError> for NoAnswer {
    ghost use Rattle.std.specs.Prelude.{◌≡◌};
    ghost use Rattle.bp_answers.specs.Faults.{no_memory};

    ghost from_gives = { λ _ e. e ≡ no_memory };

    fn from(_: AllocError) -> NoAnswer {
        NoAnswer::Refused(ReplayFault::Memory)
    }
}

impl<T: Drop> From<AllocFailed<T>> for NoAnswer {
    ghost use Rattle.std.specs.Prelude.{◌≡◌};
    ghost use Rattle.bp_answers.specs.Faults.{no_memory};

    ghost from_gives = { λ _ e. e ≡ no_memory };

    fn from(_: AllocFailed<T>) -> NoAnswer {
        NoAnswer::Refused(ReplayFault::Memory)
    }
}

impl From<LogFault> for NoAnswer {
    ghost use Rattle.std.specs.Prelude.{◌≡◌};
    ghost use Rattle.bp_answers.specs.Faults.{refused_log};

    ghost from_gives = { λ f e. e ≡ refused_log f };

    fn from(fault: LogFault) -> NoAnswer {
        NoAnswer::Refused(ReplayFault::from(fault))
    }
}

impl From<ReplayFault> for NoAnswer {
    ghost use Rattle.std.specs.Prelude.{◌≡◌};
    ghost use Rattle.bp_answers.specs.declared.answer.NoAnswer.TheVariants.{Refused};

    ghost from_gives = { λ f e. e ≡ Refused f };

    fn from(fault: ReplayFault) -> NoAnswer {
        NoAnswer::Refused(fault)
    }
}

/// What is said of a log.
#[derive(Drop)]
pub struct Answer<S: Source> {
    /// The text, whose last line ends with LF, or why there is none.
    pub text: Result<String, NoAnswer>,
    /// The source, as far as its blocks were taken.
    pub log: S,
}
