//! Values and sets go from thread to thread, and several threads may read one.

use crate::value::{EventSet, Value};

/// Takes only what may move to another thread and be read by several.
fn crosses<T: Send + Sync>(_shared: &T) {}

/// A value may move to another thread, and several threads may read it. Does nothing.
pub fn value_crosses(value: &Value) {
    crosses(value);
}

/// A set may move to another thread, and several threads may read it. Does nothing.
pub fn set_crosses(set: &EventSet) {
    crosses(set);
}

const _: () = prove!(size_of::<Value>() == 16);
