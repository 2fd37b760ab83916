//! Lists of numbers under names.
ghost use Rattle.std.specs.Prelude.{◌≡◌, ◌∷◌, IfOk, option_copied, string_bytes};
ghost use Rattle.bp_base.specs.Memory.{under};
ghost use Rattle.bp_base.specs.inner.Shelf.{entries_of};

use std::alloc::{AllocError, Global};
use std::mem;

/// Entries, the newest first.
#[derive(Drop)]
#[cycle(shelf)]
pub enum Shelf<T> {
    Empty,
    More(Box<Entry<T>>),
}

/// The list under a name.
#[derive(Drop)]
#[cycle(shelf)]
pub struct Entry<T> {
    pub name: String,
    pub list: Vec<T>,
    pub rest: Shelf<T>,
}

impl<T> Entry<T> {
    /// An entry that is linked to nothing.
    pub fn new(alloc: Global, name: String, list: Vec<T>) -> Result<Box<Entry<T>>, AllocError>
    where
        T: Drop,
        ensures { IfOk result
            (λ entry. (string_bytes entry.value.name ≡ string_bytes name)
            × (entry.value.list.items ≡ list.items)) }
    {
        let rest = Shelf::Empty;
        Ok(Box::new(alloc, Entry { name, list, rest })?)
    }
}

/// What was last put under the name, or `None` if nothing was.
pub fn find<'a, T>(shelf: &'a Shelf<T>, name: &str) -> Option<&'a [T]>
    ensures { option_copied result ≡ under (entries_of shelf.now) name.now }
{
    match shelf {
        Shelf::Empty => None,
        Shelf::More(entry) => {
            if entry.name.as_str() == name {
                Some(entry.list.as_slice())
            } else {
                find(&entry.rest, name)
            }
        }
    }
}

/// Puts the entry in front, and drops what was linked to it.
pub fn put<T: Drop>(shelf: &mut Shelf<T>, entry: Box<Entry<T>>)
    ensures { entries_of shelf.new
        ≡ (string_bytes entry.value.name, entry.value.list.items) ∷ entries_of shelf.old }
{
    let mut entry = entry;
    entry.rest = mem::replace(shelf, Shelf::Empty);
    *shelf = Shelf::More(entry);
}
