//! Which numbers are noted at which keys, for finding those that may care for a key without a look
//! at all others, and which numbers have changed since they were noted; counts by number; events as
//! keys.
#![tactic(auto)]

mod changes;
mod counts;
mod feeding;
mod key;
mod lists;
mod roll;

pub use changes::Changes;
pub use counts::{Counts, Spot};
pub use key::{Key, hash_of};
pub use roll::Roll;
