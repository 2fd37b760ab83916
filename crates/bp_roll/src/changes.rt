//! The numbers of b-threads that may have changed.
ghost use Rattle.std.specs.Prelude.{◌≡◌, ℕ, [], true, OnOk, OnErr};
ghost use Rattle.bp_roll.specs.Rolls.{is_in};

use bp_log::Memory;
use std::alloc::Global;
use std::marker::Model;

/// The numbers that were noted. Contracts see the list.
///
/// Numbers that come a second time in the same order are not written again; at a third time they
/// are.
#[derive(Drop)]
pub struct Changes {
    numbers: Vec<u32>,
    /// The numbers before this place have come a second time. Only how long the list gets rests on
    /// it.
    next: usize,
}

impl Model for Changes {
    ghost use Rattle.std.specs.Prelude.{List, ℕ};
    ghost use Rattle.std.specs.Coded.{codes};

    ghost Value = { List ℕ };

    ghost coded = { Prim.hlevel codes };

    ghost view = { λ c. c.numbers.items };
}

impl Changes {
    /// No numbers.
    pub fn new(alloc: Global) -> Changes
        ensures { result ≡ [] }
    {
        Changes::noting(Vec::new(alloc))
    }

    /// These numbers.
    pub fn noting(numbers: Vec<u32>) -> Changes
        ensures { result ≡ numbers.items }
    {
        Changes { numbers, next: 0 }
    }

    /// The numbers that were noted.
    pub fn as_slice(&self) -> &[u32]
        ensures { result.now ≡ self.now }
    {
        self.numbers.as_slice()
    }

    /// Notes the number; what was noted stays noted. Its only error is out of memory, and then
    /// nothing changes.
    pub fn note(&mut self, number: u32) -> Result<(), Memory>
        ensures noted { OnOk result (is_in number self.new ≡ true) }
        ensures others { (n : ℕ) → is_in n self.old ≡ true → is_in n self.new ≡ true }
        ensures failed { OnErr result (self.new ≡ self.old) }
    {
        if self.is_next(number) {
            self.next = self.next.saturating_add(1);
            return Ok(());
        }
        self.numbers.push(number)?;
        Ok(())
    }

    /// Whether this is the number that comes a second time next.
    fn is_next(&self, number: u32) -> bool
        ensures { result ≡ true → is_in number self.now ≡ true }
    {
        match self.numbers.get(self.next) {
            None => false,
            Some(noted) => *noted == number,
        }
    }

    /// No number is noted any more.
    pub fn clear(&mut self)
        ensures { self.new ≡ [] }
    {
        self.numbers.clear();
        self.next = 0;
    }
}
