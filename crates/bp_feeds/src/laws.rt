//! A law of the items of lines, as the contract of a function that does nothing.
ghost use Rattle.bp_feeds.specs.Reading.{ItemsFollow};

/// The items of whole lines, of which none is bad, are those that the items of whatever follows the
/// lines follow.
pub fn items_follow()
    ensures { ItemsFollow }
{}
