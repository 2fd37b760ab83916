//! Jobs go from thread to thread.

use crate::job::Job;

/// Takes only what may move to another thread and be dropped there.
fn moves<T: Send + Drop>(_moved: &T) {}

/// A job may move to another thread and be dropped there. Does nothing.
pub fn job_moves(job: &Job) {
    moves(job);
}
