//! What a line says, and where it ends.
ghost use Rattle.std.specs.Prelude.{◌≡◌, ℕ, ◌<◌, ◌≤◌, List, ◌∷◌, false, length, take, drop, IfOk};
ghost use Rattle.bp_feeds.specs.Items.{ends, item_of, is_blank as line_is_blank, has_break};

use crate::limits::{MOST_LENGTH, MOST_LINES};
use bp_base::Memory;
use bp_log::Item;
use js_json::{EventError, event_of};
use memchr::memchr;
use std::alloc::{AllocError, Global};

/// Whether the line has only spaces, tabs and CR.
fn is_blank(line: &[u8]) -> bool
    ensures { result ≡ line_is_blank line.now }
{
    line.iter().all(|b| matches!(*b, b' ' | b'\t' | b'\r'))
}

/// The item of the line of this number. None comes where the line is skipped.
pub(crate) fn judge(alloc: Global, number: u32, line: &[u8]) -> Result<Option<Item>, Memory>
    ensures { IfOk result (λ item. item ≡ item_of number line.now) }
{
    if number > MOST_LINES || line.len() > MOST_LENGTH {
        return Ok(Some(Item::Bad(number)));
    }
    if is_blank(line) {
        return Ok(None);
    }
    match event_of(alloc, line) {
        Ok(event) => Ok(Some(Item::Offered(event))),
        Err(EventError::NotEvent) => Ok(Some(Item::Bad(number))),
        Err(EventError::Memory) => Err(AllocError),
    }
}

/// Whether the item is the last one.
pub(crate) fn is_end(item: &Option<Item>) -> bool
    ensures { result ≡ ends item.now }
{
    match item {
        None | Some(Item::Offered(_)) => false,
        Some(Item::Bad(_) | Item::Failed | Item::End) => true,
    }
}

/// How many bytes stand before the first LF. Where there is none, that is all.
pub(crate) fn length_of_front(bytes: &[u8]) -> usize
    ensures within { result ≤ length bytes.now }
    ensures front { has_break (take result bytes.now) ≡ false }
    ensures stops { result < length bytes.now
        → (rest : List ℕ) × (drop result bytes.now ≡ 10 ∷ rest) }
{
    match memchr(b'\n', bytes) {
        Some(place) => place,
        None => bytes.len(),
    }
}
