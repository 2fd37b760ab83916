//! Events as keys of maps.
ghost use Rattle.std.specs.Prelude.{◌≡◌};
ghost use Rattle.js_data.specs.Event.{same_event};
ghost use Rattle.bp_roll.specs.Feeding.{event_key, event_writes};
ghost use Rattle.bp_roll.specs.Keys.{same_partial, same_equivalence, same_writes};

use crate::feeding::feed;
use js_data::Event;
use std::hash::{FoldHasher, Hash, Hasher};

/// An event as a key of a map. Two keys are equal exactly where their events are.
#[derive(Clone, Copy)]
pub struct Key<'a> {
    /// The event.
    pub event: &'a Event,
}

impl<'a> PartialEq for Key<'a> {
    ghost eq = { λ a b. same_event a.event.now b.event.now };

    ghost laws = { same_partial (λ a. a.event.now) };

    fn eq(&self, other: &Key<'a>) -> bool {
        self.event.same(other.event)
    }
}

impl<'a> Eq for Key<'a> {
    ghost laws = { same_equivalence (λ a. a.event.now) };
}

impl<'a> Hash for Key<'a> {
    ghost hash_input = { λ a. event_writes a.event.now };

    ghost respects_eq = { λ a b. same_writes a.event.now b.event.now };

    fn hash<H: Hasher>(&self, state: &mut H) {
        self.event.name().as_str().hash(state);
        if let Some(data) = self.event.data() {
            feed(data, state);
        }
    }
}

/// A hash of the event: of its name, and of all leaves of its data but null, at any depth. Equal
/// events have equal hashes; others may have, too.
pub fn hash_of(event: &Event) -> u64
    ensures { result ≡ event_key event.now }
{
    let mut state = FoldHasher::default();
    Key { event }.hash(&mut state);
    state.finish()
}
