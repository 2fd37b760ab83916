//! Numbers.
ghost use Rattle.std.specs.Prelude.{◌≡◌, ◌≤◌, ◌<◌, ◌+◌, ◌≢◌, IsTrue, length, pos, MatchOption};
ghost use Rattle.js_lexer.specs.Front.{number};
ghost use Rattle.js_lexer.specs.inner.Found.{IsFound};
ghost use Rattle.js_lexer.specs.Numbers.{digit_value, is_digit_of, digits_size, digits_value, has_base, base_of, number_size, number_value, is_unsupported_end};

use crate::bytes::{is_digit_byte, stands_in_name};
use crate::sort::Sort;
use crate::token::{Flaw, Found, Kind, Stop};
use js_data::Whole;

/// The greatest number.
pub(crate) const GREATEST: u64 = 9_007_199_254_740_991;

/// The value of a digit of a base up to 16, and 16 for any other byte.
pub(crate) fn value_of(b: u8) -> u8
    ensures value { result ≡ digit_value b }
    ensures within { result ≤ 16 }
{
    if is_digit_byte(b) {
        b - b'0'
    } else if b'a' <= b && b <= b'f' {
        b - b'a' + 10
    } else if b'A' <= b && b <= b'F' {
        b - b'A' + 10
    } else {
        16
    }
}

/// Whether the byte is a digit of the base.
pub(crate) fn is_digit_in(base: u8, b: u8) -> bool
    ensures { result ≡ is_digit_of base b }
{
    value_of(b) < base
}

/// How many digits of the base stand in front.
pub(crate) fn digits_front(base: u8, bytes: &[u8]) -> usize
    ensures size { result ≡ digits_size base bytes.now }
    ensures within { result ≤ length bytes.now }
{
    let mut size = 0;
    for b in bytes {
        if !is_digit_in(base, *b) {
            return size;
        }
        size += 1;
    }
    size
}

/// The number that the digits in front are, if it is not above the greatest.
#[tactic(auto, using(crate::proofs::Digits::digits_above))]
pub(crate) fn digits_number(base: u8, bytes: &[u8]) -> Option<u64>
    requires base { base ≤ 16 }
    requires some { 1 ≤ base }
    ensures { MatchOption result (GREATEST < digits_value base 0 bytes.now)
        (λ n. (n ≡ digits_value base 0 bytes.now) × (n ≤ GREATEST)) }
{
    let mut value: u64 = 0;
    for b in bytes {
        if !is_digit_in(base, *b) {
            return Some(value);
        }
        value = base as u64 * value + value_of(*b) as u64;
        if value > GREATEST {
            return None;
        }
    }
    Some(value)
}

fn says_base(bytes: &[u8], base: u8, small: u8, capital: u8) -> bool
    ensures room { IsTrue result → 3 ≤ length bytes.now }
    ensures test { result ≡ has_base base small capital bytes.now }
{
    match bytes {
        [zero, letter, digit, ..] => *zero == b'0'
            && (*letter == small || *letter == capital)
            && is_digit_in(base, *digit),
        _ => false,
    }
}

/// The base that the bytes in front say.
fn base_front(bytes: &[u8]) -> u8
    ensures room { result ≢ 10 → 2 ≤ length bytes.now }
    ensures within { result ≤ 16 }
    ensures some { 1 ≤ result }
    ensures base { result ≡ base_of bytes.now }
{
    if says_base(bytes, 16, b'x', b'X') {
        16
    } else if says_base(bytes, 8, b'o', b'O') {
        8
    } else if says_base(bytes, 2, b'b', b'B') {
        2
    } else {
        10
    }
}

fn number_extent(bytes: &[u8], base: u8) -> usize
    requires base { base ≡ base_of bytes.now }
    requires room { base ≢ 10 → 2 ≤ length bytes.now }
    ensures size { result ≡ number_size bytes.now }
    ensures within { result ≤ length bytes.now }
{
    if base != 10 {
        return 2 + digits_front(base, &bytes[2..]);
    }
    match bytes {
        [] => 0,
        [b'0', ..] => 1,
        _ => digits_front(10, bytes),
    }
}

fn number_amount(bytes: &[u8], base: u8) -> Option<u64>
    requires base { base ≡ base_of bytes.now }
    requires room { base ≢ 10 → 2 ≤ length bytes.now }
    requires within { base ≤ 16 }
    requires some { 1 ≤ base }
    ensures { MatchOption result (GREATEST < number_value bytes.now)
        (λ n. (n ≡ number_value bytes.now) × (n ≤ GREATEST)) }
{
    if base != 10 {
        return digits_number(base, &bytes[2..]);
    }
    match bytes {
        [] => Some(0),
        [b'0', ..] => Some(0),
        _ => digits_number(10, bytes),
    }
}

fn whole_of(value: u64) -> Whole
    requires { value ≤ GREATEST }
    ensures { result ≡ pos value }
{
    match Whole::new(value as i64) {
        Some(whole) => whole,
        None => unreachable!(),
    }
}

fn is_refused_behind(base: u8, b: u8) -> bool
    ensures { result ≡ is_unsupported_end base b }
{
    b == b'.'
        || b == b'_'
        || b == b'n'
        || base == 10 && (b == b'e' || b == b'E' || is_digit_byte(b))
}

/// The number in front, of text that begins with a digit.
pub(crate) fn number_front(bytes: &[u8]) -> Result<Found, Stop>
    ensures { IsFound (number bytes.now) result }
{
    let base = base_front(bytes);
    let size = number_extent(bytes, base);
    let Some(value) = number_amount(bytes, base) else {
        return Err(Stop::Refused(Flaw::NumberRange, 0));
    };
    if let Some(b) = bytes[size..].first() {
        if is_refused_behind(base, *b) {
            return Err(Stop::Refused(Flaw::Unsupported, 0));
        }
        if stands_in_name(*b) {
            return Err(Stop::Refused(Flaw::Character, size));
        }
    }
    let kind = Kind::Number(whole_of(value));
    Ok(Found::Token(kind, Sort::Number, size))
}
