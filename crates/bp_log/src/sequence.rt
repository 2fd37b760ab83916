//! Values in order.
ghost use Rattle.std.specs.Prelude.{◌≡◌, ◌∷◌, ◌++◌, [], OnOk, OnErr};

use crate::Memory;
use std::marker::Model;
use std::mem;

/// Values in order. Contracts see the list.
#[derive(Drop)]
pub struct Sequence<T> {
    items: Vec<T>,
}

impl<T> Model for Sequence<T> {
    ghost use Rattle.std.specs.Prelude.{List};
    ghost use Rattle.std.specs.Coded.{coded_list};

    ghost Value = { List T };

    ghost coded = { coded_list T.code };

    ghost view = { λ s. s.items.items };
}

impl<T> Sequence<T> {
    /// These values.
    pub fn new(items: Vec<T>) -> Sequence<T>
        ensures { result ≡ items.items }
    {
        Sequence { items }
    }

    /// The values, in order.
    pub fn as_slice(&self) -> &[T]
        ensures { result.now ≡ self.now }
    {
        self.items.as_slice()
    }

    /// The values, given back.
    pub fn into_vec(self) -> Vec<T>
        ensures { result.items ≡ self }
    {
        let Sequence { items } = self;
        items
    }

    /// All values, and none are left.
    pub fn take(&mut self) -> Sequence<T>
        ensures taken { result ≡ self.old }
        ensures left { self.new ≡ [] }
    {
        let alloc = *self.items.allocator();
        Sequence {
            items: mem::replace(&mut self.items, Vec::new(alloc)),
        }
    }
}

impl<T: Drop> Sequence<T> {
    /// Puts a value at the end.
    pub fn push(&mut self, value: T) -> Result<(), Memory>
        ensures pushed { OnOk result (self.new ≡ self.old ++ value ∷ []) }
        ensures failed { OnErr result (self.new ≡ self.old) }
    {
        self.items.push(value)?;
        Ok(())
    }

    /// Puts the other's values at the end.
    pub fn append(&mut self, mut other: Sequence<T>) -> Result<(), Memory>
        ensures appended { OnOk result (self.new ≡ self.old ++ other) }
        ensures failed { OnErr result (self.new ≡ self.old) }
    {
        self.items.append(&mut other.items)?;
        Ok(())
    }
}
