//! The words of a line: numbers, texts and events.
ghost use Rattle.std.specs.Prelude.{◌≡◌, false, IfOk, option_map};
ghost use Rattle.bp_reading.specs.Words.{is_front_zero as front_zero, number_at, most_32, behind, around, number_behind as number_after, numbers_at, compact_event_at, text_at, quoted_front, to_quote};

use bp_log::Memory;
use js_data::{Event, Text};
use js_json::{EventError, event_of, event_text, quoted};
use serde_json::Value as Json;
use std::alloc::Global;
use std::str;

/// Whether the bytes begin with a 0 that isn't all of them.
fn is_front_zero(bytes: &[u8]) -> bool
    ensures { result ≡ front_zero bytes.now }
{
    match bytes {
        [] => false,
        [_] => false,
        [first, _, ..] => *first == b'0',
    }
}

/// The number, at most `most`, that the bytes are in decimal without a leading zero, or `None` if
/// they are not one.
pub fn number_of(bytes: &[u8], most: u64) -> Option<u64>
    ensures { result ≡ number_at most bytes.now }
{
    if bytes.is_empty() || is_front_zero(bytes) {
        return None;
    }
    if bytes[0] == b'+' {
        return None;
    }
    let Ok(text) = str::from_utf8(bytes) else {
        return None;
    };
    let Ok(number) = text.parse::<u64>() else {
        return None;
    };
    if number > most {
        return None;
    }
    Some(number)
}

/// The number of 32 bits that the bytes are, if they are one.
pub(crate) fn small_number_of(bytes: &[u8]) -> Option<u32>
    ensures { result ≡ number_at most_32 bytes.now }
{
    let number = number_of(bytes, u64::from(u32::MAX))?;
    Some(number as u32)
}

/// What comes after the word, or `None` if the bytes don't begin with it.
pub fn behind_word<'a>(word: &[u8], bytes: &'a [u8]) -> Option<&'a [u8]>
    ensures { option_map (λ rest. rest.now) result ≡ behind word.now bytes.now }
{
    for i in 0..word.len() {
        if i >= bytes.len() || bytes[i] != word[i] {
            return None;
        }
    }
    Some(&bytes[word.len()..])
}

/// What comes before the first such byte, and what comes after it.
pub(crate) fn around_byte(byte: u8, bytes: &[u8]) -> Option<(&[u8], &[u8])>
    ensures { option_map (λ p. (p.0.now, p.1.now)) result ≡ around byte bytes.now }
{
    for i in 0..bytes.len() {
        if bytes[i] == byte {
            return Some((&bytes[..i], &bytes[i + 1..]));
        }
    }
    None
}

/// The number of 32 bits after the word.
pub(crate) fn number_behind(word: &[u8], bytes: &[u8]) -> Option<u32>
    ensures { result ≡ number_after word.now most_32 bytes.now }
{
    small_number_of(behind_word(word, bytes)?)
}

/// Two numbers of 32 bits with one blank between them.
pub(crate) fn numbers_of(bytes: &[u8]) -> Option<(u32, u32)>
    ensures { result ≡ numbers_at bytes.now }
{
    let (first, second) = around_byte(b' ', bytes)?;
    let first = small_number_of(first)?;
    let second = small_number_of(second)?;
    Some((first, second))
}

/// The bytes up to the first quotation mark that no backslash escapes, and those after it.
fn up_to_quote(bytes: &[u8]) -> Option<(&[u8], &[u8])>
    ensures { option_map (λ p. (p.0.now, p.1.now)) result ≡ to_quote false bytes.now }
{
    let mut escaped = false;
    for i in 0..bytes.len() {
        let byte = bytes[i];
        let mark = !escaped & (byte == b'"');
        if mark {
            return Some((&bytes[..i + 1], &bytes[i + 1..]));
        }
        escaped = !escaped & (byte == b'\\');
    }
    None
}

/// The bytes from a quotation mark to the one that closes it, and those after it.
pub(crate) fn quoted_at_front(bytes: &[u8]) -> Option<(&[u8], &[u8])>
    ensures { option_map (λ p. (p.0.now, p.1.now)) result ≡ quoted_front bytes.now }
{
    let rest = behind_word(b"\"", bytes)?;
    let (front, behind) = up_to_quote(rest)?;
    Some((&bytes[..front.len() + 1], behind))
}

/// The event whose compact text the bytes are.
pub(crate) fn compact_event_of(alloc: Global, bytes: &[u8]) -> Result<Option<Event>, Memory>
    ensures { IfOk result (λ e. e ≡ compact_event_at bytes.now) }
{
    match event_of(alloc, bytes) {
        Err(EventError::NotEvent) => Ok(None),
        Err(EventError::Memory) => Err(Memory {}),
        Ok(event) => {
            let text = event_text(alloc, &event)?;
            if text.as_str().as_bytes() == bytes {
                Ok(Some(event))
            } else {
                Ok(None)
            }
        }
    }
}

/// The text whose quoted text the bytes are.
pub(crate) fn text_of(alloc: Global, bytes: &[u8]) -> Result<Option<Text>, Memory>
    ensures { IfOk result (λ t. t ≡ text_at bytes.now) }
{
    let json = match Json::from_slice(alloc, bytes) {
        Ok(json) => json,
        Err(error) => {
            return if error.is_memory() {
                Err(Memory {})
            } else {
                Ok(None)
            };
        }
    };
    let Some(name) = json.as_str() else {
        return Ok(None);
    };
    let text = Text::new(String::from_str(alloc, name)?);
    let again = quoted(alloc, &text)?;
    if again.as_str().as_bytes() == bytes {
        Ok(Some(text))
    } else {
        Ok(None)
    }
}
