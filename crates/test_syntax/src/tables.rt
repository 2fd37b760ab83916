//! Constant tables.
use bp_tables::{Table, rows};
use std::test::Fail;

/// The size and the value of the key with which the bytes begin.
fn front<const N: usize>(table: &Table<u8, N>, bytes: &[u8]) -> Option<(usize, u8)> {
    let found = table.find_front(bytes)?;
    Some((found.size, found.value))
}

#[test]
fn the_first_row_is_found(rt: HostRuntime) -> Result<(), Fail> {
    let table = Table::new(rows![b"ab" => 7, b"a" => 8, b"ab" => 9]);
    assert_eq!(rt; table.find(b"ab"), Some(7));
    assert_eq!(rt; table.find(b"a"), Some(8));
    assert_eq!(rt; table.find(b"abc"), None);
    assert_eq!(rt; table.find(b""), None);
    assert_eq!(rt; front(&table, b"abc"), Some((2, 7)));
    assert_eq!(rt; front(&table, b"acb"), Some((1, 8)));
    assert_eq!(rt; front(&table, b"ba"), None);
    Ok(())
}
