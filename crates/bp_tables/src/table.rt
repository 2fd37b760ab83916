//! A table of rows.

ghost use Rattle.std.specs.Prelude.{◌≡◌, ◌≤◌, IsTrue, None, Some, IfSome, MatchOption, length, take};
ghost use Rattle.bp_tables.specs.inner.Keys.{entries, are_within};
ghost use Rattle.bp_tables.specs.Found.{find_in, front_in};

use crate::Row;
use std::marker::Model;

/// A key with which bytes begin: how many bytes it has, and its value.
#[derive(Clone, Copy)]
pub struct Front<V> {
    pub size: usize,
    pub value: V,
}

/// N rows, which contracts see as the list of their keys and values.
#[derive(Drop)]
pub struct Table<V, const N: usize> {
    rows: [Row<V>; N],
}

impl<V, const N: usize> Model for Table<V, N> {
    ghost use Rattle.std.specs.Prelude.{List, ℕ, IsTrue};
    ghost use Rattle.bp_tables.specs.inner.Keys.{entries, are_within};

    ghost Value = { List (List ℕ × V) };

    ghost view = { λ t. entries t.rows };

    ghost invariant = { λ t. IsTrue (are_within t.rows) };
}

impl<V: Copy, const N: usize> Table<V, N> {
    /// The table of the rows, each of which has a key of at most 24 bytes.
    pub fn new(rows: [Row<V>; N]) -> Self
        requires { IsTrue (are_within rows) }
        ensures { result ≡ entries rows }
    {
        Table { rows }
    }

    /// The value of the first row with the key. It takes no memory.
    pub fn find(&self, key: &[u8]) -> Option<V>
        ensures { result ≡ find_in self.now key.now }
    {
        for row in &self.rows {
            if &row.key[..row.size as usize] == key {
                return Some(row.value);
            }
        }
        None
    }

    /// The first key with which the bytes begin, and its value. It takes no memory.
    pub fn find_front(&self, bytes: &[u8]) -> Option<Front<V>>
        ensures within { IfSome result (λ front. front.size ≤ length bytes.now) }
        ensures size { MatchOption result (front_in self.now bytes.now ≡ None)
            (λ front. front_in self.now bytes.now ≡ Some front.size) }
        ensures value { IfSome result
            (λ front. find_in self.now (take front.size bytes.now) ≡ Some front.value) }
    {
        for row in &self.rows {
            let size = row.size as usize;
            if bytes.starts_with(&row.key[..size]) {
                let value = row.value;
                return Some(Front { size, value });
            }
        }
        None
    }
}

/// The rows of a table, written as `key => value`.
#[macro_export]
macro_rules! rows {
    ($($key:expr => $value:expr),* $(,)?) => {
        [$($crate::make_row($key, $value)),*]
    };
}
