//! The lines of an injector as items, and feeds, which offer them on a lane.
#![tactic(auto)]

mod block;
mod feed;
mod judging;
mod laws;
mod limits;
mod line_reader;
mod reached;

use bp_base::Source;
pub use feed::{Fed, Feed};
pub use laws::items_follow;
pub use limits::{MOST_LENGTH, MOST_LINES, MOST_READ};

/// Takes only what may move to another thread.
fn is_send<T: Send>(_value: &T) {}

/// A feed may move to another thread where its source may.
pub fn moves_between_threads<S: Source + Send>(feed: &Feed<S>) {
    is_send(feed);
}
