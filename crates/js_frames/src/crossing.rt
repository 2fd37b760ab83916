//! Machines go from thread to thread, and several threads may read one ground.

use crate::ground::Ground;
use crate::machine::Machine;

/// Takes only what may move to another thread.
fn moves<T: Send>(_moved: &T) {}

/// Takes only what may move to another thread and be read by several.
fn crosses<T: Send + Sync>(_shared: &T) {}

/// A machine may move to another thread. Does nothing.
pub fn machine_moves(machine: &Machine) {
    moves(machine);
}

/// A ground may move to another thread, and several threads may read it. Does nothing.
pub fn ground_crosses(base: &Ground) {
    crosses(base);
}
