//! Lists of numbers by keys.
ghost use Rattle.std.specs.Prelude.{◌≡◌, ◌≤◌, ℕ, [], Some, false, length, nat_eq, slice_get, true, OnOk};
ghost use Rattle.bp_roll.specs.Lists.{is_listed, items_at};
ghost use Rattle.bp_roll.specs.Rolls.{is_in};

use bp_log::Memory;
use indexmap::IndexMap;
use std::alloc::Global;

/// The numbers of each key, each list in order.
pub(crate) type Lists = IndexMap<u64, Vec<u32>>;

/// How many from the front on are smaller, by a search by halves. Only how fast a number is found
/// rests on the order.
fn place_of(list: &[u32], number: u32) -> usize
    ensures { result ≤ length list.now }
{
    list.partition_point(|other| *other < number)
}

/// Whether the number stands at this place.
fn is_at(list: &[u32], at: usize, number: u32) -> bool
    ensures { result ≡ true → slice_get list.now at ≡ Some number }
{
    match list.get(at) {
        None => false,
        Some(other) => *other == number,
    }
}

/// The number is in the list from now on.
fn put(list: &mut Vec<u32>, number: u32) -> Result<(), Memory>
    ensures there { OnOk result (is_in number list.new.items ≡ true) }
    ensures others { (n : ℕ) → is_in n list.old.items ≡ true → is_in n list.new.items ≡ true }
{
    let at = place_of(list.as_slice(), number);
    if is_at(list.as_slice(), at, number) {
        return Ok(());
    }
    list.insert(at, number)?;
    Ok(())
}

/// Takes the number out of the list, where the search finds it. All other numbers stay. Only time
/// and memory rest on its being gone.
fn take(list: &mut Vec<u32>, number: u32)
    ensures others { (n : ℕ) → nat_eq n number ≡ false → is_in n list.old.items ≡ true →
        is_in n list.new.items ≡ true }
{
    let at = place_of(list.as_slice(), number);
    if is_at(list.as_slice(), at, number) {
        list.remove(at);
    }
}

/// The number is listed at the key from now on.
pub(crate) fn enter(alloc: Global, lists: &mut Lists, key: u64, number: u32) -> Result<(), Memory>
    ensures there { OnOk result (is_listed lists.new.entries key number ≡ true) }
    ensures others { (k n : ℕ) → is_listed lists.old.entries k n ≡ true →
        is_listed lists.new.entries k n ≡ true }
{
    if let Some(list) = lists.get_mut(&key) {
        return put(list, number);
    }
    let mut list = Vec::new(alloc);
    list.push(number)?;
    lists.insert(key, list)?;
    Ok(())
}

/// Takes the number out of the list of the key, as `take` does. All other numbers stay listed.
fn take_at(lists: &mut Lists, key: u64, number: u32)
    ensures others { (k n : ℕ) → nat_eq n number ≡ false → is_listed lists.old.entries k n ≡ true →
        is_listed lists.new.entries k n ≡ true }
{
    if let Some(list) = lists.get_mut(&key) {
        take(list, number);
    }
}

/// Whether the key has a list, and nobody is in it.
fn is_spent(lists: &Lists, key: u64) -> bool
    ensures { result ≡ true → items_at lists.now.entries key ≡ [] }
{
    match lists.get(&key) {
        None => false,
        Some(list) => list.len() == 0,
    }
}

/// The key gives up its list, if nobody is in it. All numbers stay listed.
fn tidy(lists: &mut Lists, key: u64)
    ensures { (k n : ℕ) → is_listed lists.old.entries k n ≡ true →
        is_listed lists.new.entries k n ≡ true }
{
    if is_spent(lists, key) {
        lists.swap_remove(&key);
    }
}

/// Takes the number out of the list of the key, as `take` does, and the list itself away, if nobody
/// is left in it. All other numbers stay listed.
pub(crate) fn leave(lists: &mut Lists, key: u64, number: u32)
    ensures { (k n : ℕ) → nat_eq n number ≡ false → is_listed lists.old.entries k n ≡ true →
        is_listed lists.new.entries k n ≡ true }
{
    take_at(lists, key, number);
    tidy(lists, key);
}
