//! The injectors that have not ended.
ghost use Rattle.std.specs.Prelude.{◌≡◌, ◌==◌, ℕ, length, not, nat_eq, filter, IfOk};
ghost use Rattle.std.specs.List.{list_any};
ghost use Rattle.bp_run.specs.Configuration.{below};

use bp_log::Memory;
use std::alloc::Global;
use std::marker::Model;

/// Numbers in order. Contracts see the list.
#[derive(Drop)]
pub(crate) struct Numbers {
    items: Vec<u32>,
}

impl Model for Numbers {
    ghost use Rattle.std.specs.Prelude.{List, ℕ};
    ghost use Rattle.std.specs.Coded.{codes};

    ghost Value = { List ℕ };

    ghost coded = { Prim.hlevel codes };

    ghost view = { λ l. l.items.items };
}

impl Numbers {
    /// The numbers below this one.
    pub fn below(alloc: Global, count: u32) -> Result<Numbers, Memory>
        ensures { IfOk result (λ l. l ≡ below count) }
    {
        let mut items = Vec::new(alloc);
        for number in 0..count {
            items.push(number)?;
        }
        Ok(Numbers { items })
    }

    /// Whether the number is there.
    pub fn contains(&self, number: u32) -> bool
        ensures { result ≡ list_any (nat_eq number) self.now }
    {
        self.items.iter().any(|n| *n == number)
    }

    /// The numbers, in order.
    pub fn as_slice(&self) -> &[u32]
        ensures { result.now ≡ self.now }
    {
        self.items.as_slice()
    }

    /// Whether there is none.
    pub fn is_empty(&self) -> bool
        ensures { result ≡ (length self.now == 0) }
    {
        self.items.is_empty()
    }

    /// The number goes.
    pub fn take_away(&mut self, number: u32)
        ensures { self.new ≡ filter (λ k. not (nat_eq number k)) self.old }
    {
        self.items.retain(|n| number != *n);
    }
}
