//! Why an item is not absorbed.
use bp_log::Item;

/// Why an item is not absorbed. The item comes back.
#[derive(Drop)]
pub enum Absorb {
    /// As many events wait as may.
    Full(Item),
    /// Memory ran out.
    Memory(Item),
}
