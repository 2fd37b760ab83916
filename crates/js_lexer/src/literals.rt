//! Text literals and their escapes.
ghost use Rattle.std.specs.Prelude.{◌≡◌, ◌≤◌, ◌<◌, ◌+◌, ◌*◌, ◌++◌, IsTrue, OnOk, nat_eq, false, List, ℕ, ◌∷◌, drop, length, IfSome, string_bytes};
ghost use Rattle.js_lexer.specs.declared.limits.TheConstants.{MOST_BYTES};
ghost use Rattle.js_lexer.specs.inner.Found.{IsFound, IsRead, stuck};
ghost use Rattle.js_lexer.specs.Bytes.{is_quote};
ghost use Rattle.js_lexer.specs.Front.{quoted, refused};
ghost use Rattle.js_lexer.specs.Literals.{is_break, two_digits, four_digits, is_high, is_low, character, byte_escape, second_half, unit_escape, braced_escape, unicode_escape, zero_escape, plain_escape, letter, escape, spelled, literal, plain_size};

use crate::bytes::is_digit_byte;
use crate::gaps::is_separator;
use crate::numbers::{digits_front, digits_number, is_digit_in, value_of};
use crate::sort::Sort;
use crate::token::{Flaw, Found, Kind, Stop};
use js_data::{Memory, Text};
use std::alloc::Global;

type Escape = (usize, Option<char>);

/// Whether the byte is LF or CR.
fn is_break_byte(b: u8) -> bool
    ensures { result ≡ is_break b }
{
    b == b'\n' || b == b'\r'
}

fn two_hex(bytes: &[u8]) -> Option<u32>
    ensures value { result ≡ two_digits bytes.now }
    ensures small { IfSome result (λ n. n < 256) }
{
    match bytes {
        [a, b, ..] => {
            if is_digit_in(16, *a) && is_digit_in(16, *b) {
                Some(16 * value_of(*a) as u32 + value_of(*b) as u32)
            } else {
                None
            }
        }
        _ => None,
    }
}

fn four_hex(bytes: &[u8]) -> Option<u32>
    ensures value { result ≡ four_digits bytes.now }
    ensures small { IfSome result (λ n. n < 65536) }
{
    let high = two_hex(bytes)?;
    let low = two_hex(&bytes[2..])?;
    Some(256 * high + low)
}

fn is_high_half(n: u32) -> bool
    ensures { result ≡ is_high n }
{
    0xD800 <= n && n < 0xDC00
}

fn is_low_half(n: u32) -> bool
    ensures { result ≡ is_low n }
{
    0xDC00 <= n && n < 0xE000
}

fn escaped(size: usize, n: u64) -> Option<Escape>
    ensures { result ≡ character size n }
{
    if n > 0x10_FFFF {
        return None;
    }
    let n = n as u32;
    if is_high_half(n) || is_low_half(n) {
        return None;
    }
    match char::from_u32(n) {
        Some(c) => Some((size, Some(c))),
        None => unreachable!(),
    }
}

fn byte_escaped(bytes: &[u8]) -> Option<Escape>
    ensures { result ≡ byte_escape (two_digits bytes.now) }
{
    match two_hex(bytes) {
        Some(n) => escaped(3, n as u64),
        None => None,
    }
}

fn low_escaped(high: u32, bytes: &[u8]) -> Option<Escape>
    requires { IsTrue (is_high high) }
    ensures { result ≡ second_half high bytes.now }
{
    if !bytes.starts_with(b"\\u") {
        return None;
    }
    match four_hex(&bytes[2..]) {
        Some(low) if is_low_half(low) => escaped(
            11,
            0x1_0000 + 0x400 * (high - 0xD800) as u64 + (low - 0xDC00) as u64,
        ),
        _ => None,
    }
}

fn unit_escaped(bytes: &[u8]) -> Option<Escape>
    ensures { result ≡ unit_escape bytes.now (four_digits bytes.now) }
{
    match four_hex(bytes) {
        Some(n) if is_high_half(n) => low_escaped(n, &bytes[4..]),
        Some(n) => escaped(5, n as u64),
        None => None,
    }
}

fn braced_escaped(bytes: &[u8]) -> Option<Escape>
    ensures { result ≡ braced_escape bytes.now }
{
    let size = digits_front(16, bytes);
    if size == 0 || !bytes[size..].starts_with(b"}") {
        return None;
    }
    match digits_number(16, bytes) {
        Some(n) => escaped(3 + size, n),
        None => None,
    }
}

fn unicode_escaped(bytes: &[u8]) -> Option<Escape>
    ensures { result ≡ unicode_escape bytes.now }
{
    if bytes.starts_with(b"{") {
        braced_escaped(&bytes[1..])
    } else {
        unit_escaped(bytes)
    }
}

fn zero_escaped(bytes: &[u8]) -> Option<Escape>
    ensures { result ≡ zero_escape bytes.now }
{
    match bytes {
        [] => Some((1, Some('\0'))),
        [b, ..] => {
            if is_digit_byte(*b) {
                None
            } else {
                Some((1, Some('\0')))
            }
        }
    }
}

fn plain_escaped(b: u8, bytes: &[u8]) -> Option<Escape>
    requires { (bs : List ℕ) × (bytes.now ≡ b ∷ bs) }
    ensures { result ≡ plain_escape b (drop 1 bytes.now) }
{
    if is_digit_byte(b) || is_break_byte(b) || is_separator(bytes) {
        None
    } else if b < 128 {
        Some((1, Some(b as char)))
    } else {
        Some((0, None))
    }
}

fn letter_of(b: u8) -> Option<char>
    ensures { result ≡ letter b }
{
    match b {
        b'n' => Some('\n'),
        b't' => Some('\t'),
        b'r' => Some('\r'),
        b'b' => Some('\x08'),
        b'f' => Some('\x0c'),
        b'v' => Some('\x0b'),
        _ => None,
    }
}

/// The escape after a backslash: how many bytes it has, and its character.
fn escape_front(bytes: &[u8]) -> Option<Escape>
    ensures { result ≡ escape bytes.now }
{
    let (b, behind) = bytes.split_first()?;
    if let Some(c) = letter_of(*b) {
        return Some((1, Some(c)));
    }
    match *b {
        b'0' => zero_escaped(behind),
        b'x' => byte_escaped(behind),
        b'u' => unicode_escaped(behind),
        _ => plain_escaped(*b, bytes),
    }
}

fn plain_front(quote: u8, bytes: &[u8]) -> usize
    ensures size { result ≡ plain_size quote bytes.now }
    ensures within { result ≤ length bytes.now }
{
    let mut size = 0;
    for b in bytes {
        if *b == quote || is_break_byte(*b) || *b == b'\\' {
            return size;
        }
        size += 1;
    }
    size
}

#[tactic(auto, using(crate::proofs::Runs::plain_boundary, crate::proofs::Runs::read_run))]
fn run_into(content: &mut String, quote: u8, rest: &str, size: usize) -> Result<usize, Stop>
    requires quote { quote < 128 }
    requires some { 0 < plain_size quote rest.now }
    ensures { IsRead quote rest.now (string_bytes content.old) (string_bytes content.new)
        size result }
{
    let n = plain_front(quote, rest.as_bytes());
    let (run, _) = rest.split_at(n);
    content.push_str(run)?;
    Ok(n)
}

fn spell_into(content: &mut String, character: Option<char>) -> Result<(), Memory>
    ensures { OnOk result (string_bytes content.new
        ≡ string_bytes content.old ++ spelled character) }
{
    match character {
        Some(c) => content.push(c),
        None => Ok(()),
    }
}

fn stop_at(bytes: &[u8], size: usize) -> (Flaw, usize)
    requires { size ≤ MOST_BYTES }
    ensures { refused result.0 result.1 ≡ stuck size bytes.now }
{
    match bytes {
        [] => (Flaw::OpenText, 0),
        _ => (Flaw::Escape, 1 + size),
    }
}

#[tactic(auto, using(crate::proofs::Runs::read_escape, crate::proofs::Runs::refused_escape))]
fn escape_into(content: &mut String, quote: u8, rest: &str, size: usize) -> Result<usize, Stop>
    requires quote { nat_eq 92 quote ≡ false }
    requires backslash { rest.now ≡ 92 ∷ drop 1 rest.now }
    requires size { size ≤ MOST_BYTES }
    ensures { IsRead quote rest.now (string_bytes content.old) (string_bytes content.new)
        size result }
{
    let behind = &rest.as_bytes()[1..];
    let Some((skipped, character)) = escape_front(behind) else {
        let (flaw, n) = stop_at(behind, size);
        return Err(Stop::Refused(flaw, n));
    };
    spell_into(content, character)?;
    Ok(1 + skipped)
}

/// The text literal from after its quote: its content, and how many bytes it has with both quotes.
pub(crate) fn literal_front(alloc: Global, quote: u8, text: &str) -> Result<Found, Stop>
    requires quote { IsTrue (is_quote quote) }
    requires size { length text.now ≤ MOST_BYTES }
    ensures { IsFound (quoted (literal quote 0 text.now)) result }
{
    let mut content = String::new(alloc);
    let mut rest = text;
    let mut size = 0;
    'more: loop {
        let Some(b) = rest.as_bytes().first() else {
            return Err(Stop::Refused(Flaw::OpenText, 0));
        };
        if *b == quote {
            let kind = Kind::Text(Text::new(content));
            return Ok(Found::Token(kind, Sort::Text, 1 + (size + 1)));
        }
        if is_break_byte(*b) {
            return Err(Stop::Refused(Flaw::OpenText, 0));
        }
        let step = if *b == b'\\' {
            escape_into(&mut content, quote, rest, size)?
        } else {
            run_into(&mut content, quote, rest, size)?
        };
        rest = rest.split_at(step).1;
        size += step;
    }
}
