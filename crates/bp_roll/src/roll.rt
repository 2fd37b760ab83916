//! A roll: which numbers are noted at which keys.
ghost use Rattle.std.specs.Prelude.{◌≡◌, ℕ, [], false, nat_eq, true, OnOk};
ghost use Rattle.bp_roll.specs.Lists.{AreListed, is_listed};
ghost use Rattle.bp_roll.specs.Rolls.{is_in, is_noted, numbers_at};

use crate::lists::{Lists, enter, leave};
use bp_log::Memory;
use indexmap::IndexMap;
use std::alloc::Global;
use std::marker::Model;

/// The keys that are kept of each number.
type Kept = IndexMap<u32, Vec<u64>>;

/// Which numbers are noted at which keys. Contracts see the numbers of each key.
///
/// Each number is noted at the keys that were stated of it last. It may also be noted at others:
/// only time and memory rest on that.
#[derive(Drop)]
pub struct Roll {
    lists: Lists,
    /// The keys of each number, at which it is noted no longer once it is noted anew. If one were missing
    /// here, only time and memory would be lost.
    kept: Kept,
}

impl Model for Roll {
    ghost use Rattle.bp_roll.specs.Lists.{AreListed, plain_lists};
    ghost use Rattle.bp_roll.specs.Rolls.{PlainRoll};

    ghost Value = { PlainRoll };

    ghost view = { λ r. plain_lists r.lists.entries };

    ghost invariant = { λ r. AreListed r.lists.entries r.kept.entries };
}

/// Whether the two lists are the same.
fn are_same(left: &[u64], right: &[u64]) -> bool
    ensures { result ≡ true → left.now ≡ right.now }
{
    left == right
}

/// The number is listed at these keys from now on.
fn enter_all(alloc: Global, lists: &mut Lists, keys: &[u64], number: u32) -> Result<(), Memory>
    ensures there { OnOk result ((k : ℕ) → is_in k keys.now ≡ true →
        is_listed lists.new.entries k number ≡ true) }
    ensures others { (k n : ℕ) → is_listed lists.old.entries k n ≡ true →
        is_listed lists.new.entries k n ≡ true }
{
    for key in keys {
        enter(alloc, lists, *key, number)?;
    }
    Ok(())
}

/// Takes the number out of the lists of these keys, as `leave` does. All other numbers stay listed.
fn leave_all(lists: &mut Lists, keys: &[u64], number: u32)
    ensures { (k n : ℕ) → nat_eq n number ≡ false → is_listed lists.old.entries k n ≡ true →
        is_listed lists.new.entries k n ≡ true }
{
    for key in keys {
        leave(lists, *key, number);
    }
}

/// Takes the number out of the lists of its keys of before, if it had any. All other numbers stay
/// listed.
fn leave_before(lists: &mut Lists, before: Option<Vec<u64>>, number: u32)
    ensures { (k n : ℕ) → nat_eq n number ≡ false → is_listed lists.old.entries k n ≡ true →
        is_listed lists.new.entries k n ≡ true }
{
    if let Some(keys) = before {
        leave_all(lists, keys.as_slice(), number);
    }
}

/// No keys are kept of the number any more, and it is taken out of the lists of those that were.
/// All other numbers stay listed.
fn give_up(lists: &mut Lists, kept: &mut Kept, number: u32)
    requires { AreListed lists.old.entries kept.old.entries }
    ensures listed { AreListed lists.new.entries kept.new.entries }
    ensures others { (k n : ℕ) → nat_eq n number ≡ false → is_listed lists.old.entries k n ≡ true →
        is_listed lists.new.entries k n ≡ true }
{
    let before = kept.swap_remove(&number);
    leave_before(lists, before, number);
}

/// The number is listed at these keys, and they are kept of it.
fn take_up(
    alloc: Global,
    lists: &mut Lists,
    kept: &mut Kept,
    number: u32,
    keys: Vec<u64>,
) -> Result<(), Memory>
    requires { AreListed lists.old.entries kept.old.entries }
    ensures listed { AreListed lists.new.entries kept.new.entries }
    ensures there { OnOk result ((k : ℕ) → is_in k keys.items ≡ true →
        is_listed lists.new.entries k number ≡ true) }
    ensures others { (k n : ℕ) → is_listed lists.old.entries k n ≡ true →
        is_listed lists.new.entries k n ≡ true }
{
    enter_all(alloc, lists, keys.as_slice(), number)?;
    kept.insert(number, keys)?;
    Ok(())
}

impl Roll {
    /// Nobody is noted.
    pub fn new(alloc: Global) -> Roll
        ensures { result ≡ [] }
    {
        Roll {
            lists: IndexMap::new(alloc),
            kept: IndexMap::new(alloc),
        }
    }

    /// Whether these are the keys that are kept of the number.
    fn keeps(&self, number: u32, keys: &[u64]) -> bool
        ensures { result ≡ true → (k : ℕ) → is_in k keys.now ≡ true →
            is_noted self.now k number ≡ true }
    {
        match self.kept.get(&number) {
            None => false,
            Some(before) => are_same(before.as_slice(), keys),
        }
    }

    /// The number is noted at these keys from now on, and all other numbers stay where they are
    /// noted. It is also taken away from its keys of before; only time and memory rest on that, so
    /// no clause says it.
    ///
    /// # Errors
    ///
    /// Out of memory alone, and then the number may be noted at some of the keys.
    pub fn restate(&mut self, alloc: Global, number: u32, keys: Vec<u64>) -> Result<(), Memory>
        ensures noted { OnOk result ((k : ℕ) → is_in k keys.items ≡ true →
            is_noted self.new k number ≡ true) }
        ensures others { (k n : ℕ) → nat_eq n number ≡ false → is_noted self.old k n ≡ true →
            is_noted self.new k n ≡ true }
    {
        if self.keeps(number, keys.as_slice()) {
            return Ok(());
        }
        give_up(&mut self.lists, &mut self.kept, number);
        take_up(alloc, &mut self.lists, &mut self.kept, number, keys)
    }

    /// The numbers that are noted at the key.
    pub fn at(&self, key: u64) -> &[u32]
        ensures { result.now ≡ numbers_at self.now key }
    {
        match self.lists.get(&key) {
            None => &[],
            Some(list) => list.as_slice(),
        }
    }
}
