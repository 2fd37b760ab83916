//! What is known of the front of the queue.
ghost use Rattle.std.specs.Prelude.{◌≡◌, ◌<◌, ◌∷◌, [], option_map, OnOk, true, List};
ghost use Rattle.js_value.specs.Value.{PlainSet};
ghost use Rattle.bp_floor.specs.inner.Desks.{nothing_known, IsRestated, HasGone, HasCome};

use bp_known::is_same;
use bp_log::Memory;
use js_value::EventSet;
use std::alloc::Global;
use std::collections::VecDeque;
use std::marker::Model;

/// How many events at the front of the queue are known to be blocked. They are so by the block sets
/// on the bench and by those that are away: of b-threads that left the bench since and have not come
/// back with equal ones. Contracts see both.
#[derive(Drop)]
pub(crate) struct Front {
    blocked: usize,
    away: VecDeque<EventSet>,
}

impl Model for Front {
    ghost use Rattle.std.specs.Coded.{codes};
    ghost use Rattle.js_value.specs.Codes.{set_code};
    ghost use Rattle.bp_floor.specs.inner.Desks.{PlainFront};

    ghost Value = { PlainFront };

    ghost coded = { Prim.hlevel (codes, set_code) };

    ghost view = { λ f. record { blocked = f.blocked; away = f.away.items } };
}

impl Front {
    /// Nothing is known.
    pub fn new(alloc: Global) -> Front
        ensures { result ≡ nothing_known }
    {
        Front {
            blocked: 0,
            away: VecDeque::new(alloc),
        }
    }

    /// How many events at the front are known to be blocked.
    pub fn blocked(&self) -> usize
        ensures { result ≡ self.now.blocked }
    {
        self.blocked
    }

    /// This many events at the front are known to be blocked.
    pub fn learn(&mut self, blocked: usize)
        ensures { self.new ≡ record self.old { blocked = blocked } }
    {
        self.blocked = blocked;
    }

    /// Nothing is known any more.
    pub fn forget(&mut self)
        ensures { self.new ≡ nothing_known }
    {
        self.blocked = 0;
        self.away.clear();
    }

    /// Nothing is known any more if a block set is away.
    pub fn settle(&mut self)
        ensures none { self.new.away ≡ [] }
        ensures same { 0 < self.new.blocked → self.new ≡ self.old }
    {
        if !self.away.is_empty() {
            self.forget();
        }
    }

    fn note(&mut self, set: &EventSet) -> Result<(), Memory>
        ensures { OnOk result (HasGone set.now self.old self.new) }
    {
        let set = set.copy()?;
        self.away.push_back(set)?;
        Ok(())
    }

    /// A block set leaves the bench.
    fn go(&mut self, set: &EventSet)
        ensures { 0 < self.new.blocked → HasGone set.now self.old self.new }
    {
        if self.note(set).is_err() {
            self.forget();
        }
    }

    /// Whether the first that is away is equal to this block set.
    fn is_first(&self, set: &EventSet) -> bool
        ensures { result ≡ true → (rest : List PlainSet) × (self.now.away ≡ set.now ∷ rest) }
    {
        match self.away.front() {
            None => false,
            Some(first) => is_same(Some(first), Some(set)),
        }
    }

    /// A block set comes to the bench: an event at the front may be blocked by it, or it may be at
    /// fault, unless it is the first that is away. B-threads come back in the order in which they
    /// left.
    fn come(&mut self, set: &EventSet)
        ensures { 0 < self.new.blocked → HasCome set.now self.old self.new }
    {
        if self.is_first(set) {
            let _first = self.away.pop_front();
        } else {
            self.forget();
        }
    }

    /// A b-thread that blocked the first blocks the second from now on.
    pub fn restate(&mut self, before: Option<&EventSet>, after: Option<&EventSet>)
        ensures { 0 < self.new.blocked → IsRestated (option_map (λ s. s.now) before.entry)
            (option_map (λ s. s.now) after.entry) self.old self.new }
    {
        if self.blocked == 0 {
            return;
        }
        if let Some(set) = before {
            self.go(set);
        }
        if let Some(set) = after {
            self.come(set);
        }
    }
}
