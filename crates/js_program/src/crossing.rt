//! Programs go from thread to thread, and several threads may read one.

use crate::program::Program;

/// Takes only what may move to another thread and be read by several.
fn crosses<T: Send + Sync>(_shared: &T) {}

/// A program may move to another thread, and several threads may read it. Does nothing.
pub fn program_crosses(program: &Program) {
    crosses(program);
}
