//! Where a body stands when it can't go on by itself.
use crate::statement::Statement;
use js_data::{Fault, Text};

/// Where a body stands when it can't go on by itself.
pub enum Outcome {
    /// At `bp.sync`, with this statement.
    Stopped(Statement),
    /// At its end.
    Ended,
    /// At a fault, on this line.
    Broken(Fault, u32),
    /// At an assertion that failed, with its text.
    Violated(Text),
    /// Its budget is spent, and another node must begin.
    Spent,
}

impl Drop for Outcome {
    fn drop(self) {
        match self {
            Outcome::Stopped(_) => {}
            Outcome::Ended => {}
            Outcome::Broken(_, _) => {}
            Outcome::Violated(_) => {}
            Outcome::Spent => {}
        }
    }
}
