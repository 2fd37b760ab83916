//! Why there is no program.
use bp_script::{Refusal, ScriptFault};
use thiserror::Error;

/// The exit status of a command that ran out of memory.
pub const NO_MEMORY: u8 = 10;

/// Why no program of a name was loaded.
#[derive(Debug, Drop, Error)]
pub enum Unloaded {
    /// It is refused.
    #[error("the program is refused")]
    Refused(Refusal),
    /// It was not read.
    #[error("the program was not read")]
    NotRead,
    /// No memory was left.
    #[error("no memory was left")]
    NoMemory,
}

impl From<ScriptFault> for Unloaded {
    ghost use Rattle.std.specs.Prelude.{◌≡◌};
    ghost use Rattle.bp_loading.specs.inner.Unaccepted.{unaccepted_as};

    ghost from_gives = { λ f u. u ≡ unaccepted_as f };

    fn from(fault: ScriptFault) -> Unloaded {
        match fault {
            ScriptFault::Refused(refusal) => Unloaded::Refused(refusal),
            ScriptFault::Memory => Unloaded::NoMemory,
        }
    }
}
