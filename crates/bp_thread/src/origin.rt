//! The bodies that jobs run.
use js_program::Mode;
use js_value::{Items, Value};

/// The body that a job runs.
pub(crate) enum Origin {
    /// The top level of the program.
    Top,
    /// A call of a function in a mode.
    Call(Mode, Value, Items),
}

impl Drop for Origin {
    fn drop(self) {
        match self {
            Origin::Top => {}
            Origin::Call(_, _, _) => {}
        }
    }
}
