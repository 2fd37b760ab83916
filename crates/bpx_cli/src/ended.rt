//! How a command ends.
ghost use Rattle.std.specs.Prelude.{◌≡◌, IfOk};
ghost use Rattle.bpx_cli.specs.Statuses.{note_of, status_of};
ghost use Rattle.bpx_cli.specs.inner.Ends.{ended_of_log};
ghost use Rattle.bpx_cli.specs.Logs.{trouble_of};

use crate::help::USAGE;
use bp_answers::NoAnswer;
use bp_loading::{NO_MEMORY, Unloaded};
use bp_log::Memory;
use bp_reader::LogFault;
use bp_replay::{ReplayFault, bad_log_note};
use bp_script::Refusal;
use js_data::Text;
use std::alloc::Global;

/// A text, and how the command ends that prints it.
#[derive(Drop)]
pub(crate) struct Reply {
    pub(crate) text: String,
    pub(crate) end: Ended,
}

/// How a command ends.
#[derive(Drop)]
pub enum Ended {
    /// What was asked for was printed.
    Answered,
    /// Findings were printed, of which there is at least one.
    Found,
    /// The words are no command.
    NoCommand,
    /// The program is refused.
    Refused(Refusal),
    /// The log has no record, or no selection, of this number.
    Absent,
    /// Reading failed.
    NotRead,
    /// Printing failed.
    NotWritten,
    /// No memory was left.
    NoMemory,
    /// The log is none, its program is refused, or it differs from its run.
    BadLog(ReplayFault),
}

impl From<Unloaded> for Ended {
    ghost use Rattle.std.specs.Prelude.{◌≡◌};
    ghost use Rattle.bpx_cli.specs.inner.Ends.{unloaded_of};

    ghost from_gives = { λ u e. e ≡ unloaded_of u };

    fn from(why: Unloaded) -> Ended {
        match why {
            Unloaded::Refused(refusal) => Ended::Refused(refusal),
            Unloaded::NotRead => Ended::NotRead,
            Unloaded::NoMemory => Ended::NoMemory,
        }
    }
}

/// How a command ends where reading a log failed or memory ran out.
fn trouble_of(fault: &ReplayFault) -> Option<Ended>
    ensures { result ≡ trouble_of fault.now }
{
    match fault {
        ReplayFault::Log(LogFault::Version) => None,
        ReplayFault::Log(LogFault::Header) => None,
        ReplayFault::Log(LogFault::Line(_)) => None,
        ReplayFault::Log(LogFault::Cut) => None,
        ReplayFault::Log(LogFault::Read) => Some(Ended::NotRead),
        ReplayFault::Log(LogFault::Memory) => Some(Ended::NoMemory),
        ReplayFault::Differs { .. } => None,
        ReplayFault::Program => None,
        ReplayFault::Write => None,
        ReplayFault::Memory => Some(Ended::NoMemory),
    }
}

impl Ended {
    /// What comes of a log of which nothing is said.
    pub(crate) fn of_log(fault: NoAnswer) -> Ended
        ensures { result ≡ ended_of_log fault }
    {
        match fault {
            NoAnswer::Absent => Ended::Absent,
            NoAnswer::Refused(fault) => match trouble_of(&fault) {
                Some(end) => end,
                None => Ended::BadLog(fault),
            },
        }
    }

    /// Its exit status: from 0 to 2, or from 8 to 13.
    pub fn status(&self) -> u8
        ensures { result ≡ status_of self.now }
    {
        match self {
            Ended::Answered => 0,
            Ended::Found => 1,
            Ended::Refused(_) => 2,
            Ended::Absent => 13,
            Ended::NotRead => 8,
            Ended::NotWritten => 9,
            Ended::NoMemory => NO_MEMORY,
            Ended::BadLog(_) => 11,
            Ended::NoCommand => 12,
        }
    }

    /// Its note for standard error, which may be empty.
    pub fn note(&self, alloc: Global) -> Result<Text, Memory>
        ensures { IfOk result (λ text. text ≡ note_of self.now) }
    {
        let words = match self {
            Ended::Refused(refusal) => return refusal.note(alloc),
            Ended::BadLog(fault) => return bad_log_note(alloc, fault),
            Ended::Absent => "no such record or selection",
            Ended::NoCommand => USAGE,
            Ended::NotRead => "read fault",
            Ended::NotWritten => "write fault",
            Ended::Answered | Ended::Found | Ended::NoMemory => "",
        };
        Ok(Text::new(words.to_string(alloc)?))
    }
}
