//! What a bench answers.
use bp_log::Memory;
use bp_sets::SetFault;
use js_data::Event;
use thiserror::Error;

/// Why a bench gives no answer.
#[derive(Debug, Clone, Copy, Error)]
pub enum SelectFault {
    /// The first set that can't tell whether it has an event, by the number of its b-thread.
    #[error("a set of b-thread {0} can't tell")]
    Set(u32, SetFault),
    /// Memory ran out.
    #[error("out of memory")]
    Memory,
}

impl From<Memory> for SelectFault {
    ghost use Rattle.std.specs.Prelude.{◌≡◌};
    ghost use Rattle.bp_select.specs.declared.answers.SelectFault.TheVariants as select_fault;

    ghost from_gives = { λ _ f. f ≡ select_fault.Memory };

    fn from(_error: Memory) -> SelectFault {
        SelectFault::Memory
    }
}

/// Which event comes next.
#[derive(Drop)]
pub enum Choice {
    /// An event that a b-thread requests.
    Internal(Event),
    /// The event at this place of the queue.
    External(u32),
    /// Nothing can be selected.
    Nothing,
}

/// What can be selected.
#[derive(Drop)]
pub struct Enabled {
    /// The requested events that nobody blocks, in order of first appearance.
    pub inner: Vec<Event>,
    /// Where there are none, the first place of the queue whose event nobody blocks.
    pub outer: Option<u32>,
}

/// Whom an event reaches, by number, in the order of registration.
#[derive(Drop)]
pub struct Reach {
    /// Those that go on.
    pub moved: Vec<u32>,
    /// Those that are interrupted.
    pub interrupted: Vec<u32>,
}
