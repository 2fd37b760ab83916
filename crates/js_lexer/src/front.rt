//! What stands in front of a text.
ghost use Rattle.std.specs.Prelude.{◌≡◌, ◌≤◌, ◌<◌, ◌+◌, ◌∷◌, IsTrue, IfOk, length, take, drop};
ghost use Rattle.std.specs.Str.{IsUtf8};
ghost use Rattle.js_lexer.specs.declared.limits.TheConstants.{MOST_BYTES};
ghost use Rattle.js_lexer.specs.Bytes.{is_quote};
ghost use Rattle.js_lexer.specs.inner.Found.{IsFound};
ghost use Rattle.js_lexer.specs.Front.{token, name_size, name_kind, block, mark, quoted, is_dot_digit, front, comment_or_mark, gap_or_mark};
ghost use Rattle.js_lexer.specs.Gaps.{size_to_close};
ghost use Rattle.js_lexer.specs.Literals.{literal};
ghost use Rattle.js_lexer.specs.Spellings.{all_keywords, all_marks};
ghost use Rattle.bp_tables.specs.Found.{front_in};

use crate::bytes::{begins_name, is_digit_byte, is_quote_byte, stands_in_name};
use crate::gaps::{blank_front, close_front, line_end_front, line_front};
use crate::literals::literal_front;
use crate::numbers::number_front;
use crate::sort::Sort;
use crate::spellings::{KeywordTable, MarkTable};
use crate::token::{Flaw, Found, Kind, Stop};
use bp_tables::Front;
use js_data::{Memory, Text};
use std::alloc::Global;

fn text_of(alloc: Global, bytes: &[u8]) -> Result<Text, Memory>
    requires { IsUtf8 bytes.now }
    ensures { IfOk result (λ text. text ≡ bytes.now) }
{
    match str::from_utf8(bytes) {
        Ok(text) => Ok(Text::new(String::from_str(alloc, text)?)),
        Err(_) => unreachable!(),
    }
}

fn name_extent(bytes: &[u8]) -> usize
    ensures size { result ≡ name_size bytes.now }
    ensures within { result ≤ length bytes.now }
{
    let mut size = 0;
    for b in bytes {
        if !stands_in_name(*b) {
            return size;
        }
        size += 1;
    }
    size
}

/// The word or name in front.
fn name_front(alloc: Global, keywords: &KeywordTable, bytes: &[u8]) -> Result<Found, Stop>
    requires { keywords.now ≡ all_keywords }
    ensures { IsFound (token (name_kind (take (name_size bytes.now) bytes.now))
        (name_size bytes.now)) result }
{
    let size = name_extent(bytes);
    let text = text_of(alloc, &bytes[..size])?;
    let (kind, sort) = match keywords.find(&bytes[..size]) {
        Some(sort) => (Kind::Keyword(text), sort),
        None => (Kind::Name(text), Sort::Name),
    };
    Ok(Found::Token(kind, sort, size))
}

/// The longest mark in front.
fn mark_front(alloc: Global, marks: &MarkTable, bytes: &[u8]) -> Result<Found, Stop>
    requires { marks.now ≡ all_marks }
    ensures { IsFound (mark bytes.now (front_in all_marks bytes.now)) result }
{
    match marks.find_front(bytes) {
        None => Err(Stop::Refused(Flaw::Character, 0)),
        Some(Front { size, value }) => {
            let text = text_of(alloc, &bytes[..size])?;
            Ok(Found::Token(Kind::Mark(text), value, size))
        }
    }
}

/// The comment whose first two bytes stand before these.
fn block_front(bytes: &[u8]) -> Result<Found, Stop>
    ensures { IsFound (block (size_to_close bytes.now)) result }
{
    match close_front(bytes) {
        None => Err(Stop::Refused(Flaw::OpenText, 0)),
        Some(size) => Ok(Found::Gap(2 + size)),
    }
}

fn comment_or_mark_front(alloc: Global, marks: &MarkTable, bytes: &[u8]) -> Result<Found, Stop>
    requires { marks.now ≡ all_marks }
    ensures { IsFound (comment_or_mark bytes.now) result }
{
    if bytes.starts_with(b"//") {
        return Ok(Found::Gap(line_front(bytes)));
    }
    if bytes.starts_with(b"/*") {
        return block_front(&bytes[2..]);
    }
    mark_front(alloc, marks, bytes)
}

#[tactic(auto, using(crate::proofs::Fronts::gap_or_some, crate::proofs::Fronts::gap_or_none))]
fn gap_or_mark_front(alloc: Global, marks: &MarkTable, bytes: &[u8]) -> Result<Found, Stop>
    requires { marks.now ≡ all_marks }
    ensures { IsFound (gap_or_mark bytes.now) result }
{
    let blank = blank_front(bytes);
    if blank > 0 {
        return Ok(Found::Gap(blank));
    }
    let line_end = line_end_front(bytes);
    if line_end > 0 {
        return Ok(Found::Gap(line_end));
    }
    comment_or_mark_front(alloc, marks, bytes)
}

fn is_dot_and_digit(b: u8, behind: &[u8]) -> bool
    ensures { result ≡ is_dot_digit b behind.now }
{
    match behind {
        [] => false,
        [digit, ..] => b == b'.' && is_digit_byte(*digit),
    }
}

#[tactic(auto, using(crate::proofs::Ascii::quote_boundary))]
fn quoted_front(
    alloc: Global,
    quote: u8,
    behind: &[u8],
    text: &str,
    place: usize,
) -> Result<Found, Stop>
    requires quote { IsTrue (is_quote quote) }
    requires size { length text.now ≤ MOST_BYTES }
    requires place { drop place text.now ≡ quote ∷ behind.now }
    ensures { IsFound (quoted (literal quote 0 behind.now)) result }
{
    literal_front(alloc, quote, text.split_at(place + 1).1)
}

/// The bytes of the text from the place on.
pub(crate) fn rest_of(text: &str, place: usize) -> &[u8]
    requires { place ≤ length text.now }
    ensures { result.now ≡ drop place text.now }
{
    &text.as_bytes()[place..]
}

/// What stands in front of the text from the place on.
pub(crate) fn front_at(
    alloc: Global,
    keywords: &KeywordTable,
    marks: &MarkTable,
    text: &str,
    place: usize,
) -> Result<Found, Stop>
    requires keywords { keywords.now ≡ all_keywords }
    requires marks { marks.now ≡ all_marks }
    requires size { length text.now ≤ MOST_BYTES }
    requires place { place < length text.now }
    ensures { IsFound (front (drop place text.now)) result }
{
    let bytes = rest_of(text, place);
    let Some((b, behind)) = bytes.split_first() else {
        unreachable!();
    };
    if begins_name(*b) {
        return name_front(alloc, keywords, bytes);
    }
    if is_digit_byte(*b) {
        return number_front(bytes);
    }
    if is_quote_byte(*b) {
        return quoted_front(alloc, *b, behind, text, place);
    }
    if *b == b'`' || is_dot_and_digit(*b, behind) {
        return Err(Stop::Refused(Flaw::Unsupported, 0));
    }
    gap_or_mark_front(alloc, marks, bytes)
}
