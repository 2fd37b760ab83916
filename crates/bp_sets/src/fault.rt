//! Why a set can't tell whether it has an event.
use js_data::{Fault, Memory};
use thiserror::Error;

/// Why a set can't tell whether it has an event.
#[derive(Debug, Clone, Copy, Error)]
pub enum SetFault {
    /// A predicate of the set is at fault, on this line.
    #[error("a predicate is at fault")]
    Broken(Fault, u32),
    /// A predicate of the set spent its budget.
    #[error("a predicate spent its budget")]
    Spent,
    /// A predicate of the set answered no truth value; its function begins on this line.
    #[error("a predicate answers no truth value")]
    NotTruth(u32),
    /// Memory ran out.
    #[error("out of memory")]
    Memory,
}

impl From<Memory> for SetFault {
    ghost use Rattle.std.specs.Prelude.{◌≡◌};
    ghost use Rattle.bp_sets.specs.declared.fault.SetFault.TheVariants as set_fault;

    ghost from_gives = { λ _ f. f ≡ set_fault.Memory };

    fn from(_error: Memory) -> SetFault {
        SetFault::Memory
    }
}
