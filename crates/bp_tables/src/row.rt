//! A row of a table.

ghost use Rattle.std.specs.Prelude.{◌≡◌, ◌≤◌, length, IsTrue};
ghost use Rattle.bp_tables.specs.inner.Keys.{key_of, is_within};

/// A key of few bytes, and its value. The key is the first `size` bytes of `key`.
#[derive(Drop)]
pub struct Row<V> {
    pub key: [u8; 24],
    pub size: u8,
    pub value: V,
}

/// The row of a key of at most 24 bytes and a value.
pub fn make_row<V: Copy>(key: &[u8], value: V) -> Row<V>
    requires { length key.now ≤ 24 }
    ensures key { key_of result ≡ key.now }
    ensures value { result.value ≡ value }
    ensures room { IsTrue (is_within result) }
{
    let mut bytes = [0; 24];
    bytes[..key.len()].copy_from_slice(key);
    Row {
        key: bytes,
        size: key.len() as u8,
        value,
    }
}
