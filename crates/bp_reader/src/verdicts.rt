//! The verdict that the end of a line says.
ghost use Rattle.std.specs.Prelude.{◌≡◌, IfOk, option_map};
ghost use Rattle.bp_reading.specs.Lines.{name_at, place_at, limit_at, limits_at, bad_end_at, numbered_at, said_at, violated_at, fault_at, kind_at, blamed_at, faulty_at, spent_by, spent_at, placed_at, verdict_at};

use crate::words::{
    around_byte, behind_word, number_behind, number_of, numbers_of, quoted_at_front,
    small_number_of, text_of,
};
use bp_log::limits::{MOST_THREADS, MOST_WAITING, MOST_WEIGHT};
use bp_log::{Memory, Place, Verdict};
use js_data::{Fault, Text};
use std::alloc::Global;

/// The text at the front, in its quotation marks, and what stands after it.
fn name_of(alloc: Global, bytes: &[u8]) -> Result<Option<(Text, &[u8])>, Memory>
    ensures { IfOk result (λ p. option_map (λ q. (q.0, q.1.now)) p ≡ name_at bytes.now) }
{
    let Some((front, rest)) = quoted_at_front(bytes) else {
        return Ok(None);
    };
    match text_of(alloc, front)? {
        None => Ok(None),
        Some(name) => Ok(Some((name, rest))),
    }
}

/// The place at the front, and what stands after it.
fn place_of(alloc: Global, bytes: &[u8]) -> Result<Option<(Place, &[u8])>, Memory>
    ensures { IfOk result (λ p. option_map (λ q. (q.0, q.1.now)) p ≡ place_at bytes.now) }
{
    if let Some(rest) = behind_word(b"top", bytes) {
        return Ok(Some((Place::Top, rest)));
    }
    match name_of(alloc, bytes)? {
        None => Ok(None),
        Some((name, rest)) => Ok(Some((Place::Thread(name), rest))),
    }
}

/// The verdict, where the line is the word of the limit and the limit.
fn limit_of(word: &[u8], limit: u64, verdict: Verdict, line: &[u8]) -> Option<Verdict>
    ensures { result ≡ limit_at word.now limit verdict line.now }
{
    let number = number_of(behind_word(word, line)?, limit)?;
    if number != limit {
        return None;
    }
    Some(verdict)
}

/// A limit that has one number.
fn limits_of(line: &[u8]) -> Option<Verdict>
    ensures { result ≡ limits_at line.now }
{
    if let Some(verdict) = limit_of(
        b"limit queue ",
        u64::from(MOST_WAITING),
        Verdict::Queue,
        line,
    ) {
        return Some(verdict);
    }
    if let Some(verdict) = limit_of(
        b"limit bthreads ",
        u64::from(MOST_THREADS),
        Verdict::Threads,
        line,
    ) {
        return Some(verdict);
    }
    limit_of(b"limit weight ", MOST_WEIGHT, Verdict::Weight, line)
}

/// The first bad line of an injector.
fn bad_of(line: &[u8]) -> Option<Verdict>
    ensures { result ≡ bad_end_at line.now }
{
    let (injector, number) = numbers_of(behind_word(b"bad ", line)?)?;
    Some(Verdict::Bad(injector, number))
}

/// A verdict of numbers alone.
fn numbered_of(line: &[u8]) -> Option<Verdict>
    ensures { result ≡ numbered_at line.now }
{
    if let Some(made) = number_behind(b"quiet ", line) {
        return Some(Verdict::Quiet(made));
    }
    if let Some(made) = number_behind(b"limit steps ", line) {
        return Some(Verdict::Steps(made));
    }
    if let Some(verdict) = limits_of(line) {
        return Some(verdict);
    }
    bad_of(line)
}

/// A violation at the place: a blank and a text.
fn said_of(alloc: Global, place: Place, bytes: &[u8]) -> Result<Option<Verdict>, Memory>
    ensures { IfOk result (λ v. v ≡ said_at (place, bytes.now)) }
{
    let Some(rest) = behind_word(b" ", bytes) else {
        return Ok(None);
    };
    match text_of(alloc, rest)? {
        None => Ok(None),
        Some(said) => Ok(Some(Verdict::Violated(place, said))),
    }
}

fn violated_of(alloc: Global, line: &[u8]) -> Result<Option<Verdict>, Memory>
    ensures { IfOk result (λ v. v ≡ violated_at line.now) }
{
    let Some(rest) = behind_word(b"violated ", line) else {
        return Ok(None);
    };
    match place_of(alloc, rest) {
        Err(error) => Err(error),
        Ok(None) => Ok(None),
        Ok(Some((place, behind))) => said_of(alloc, place, behind),
    }
}

/// The fault of a name, or `None` exactly where none has it.
fn fault_of(name: &[u8]) -> Option<Fault>
    ensures { result ≡ fault_at name.now }
{
    if name == b"whole".as_slice() {
        Some(Fault::Whole)
    } else if name == b"fraction".as_slice() {
        Some(Fault::Fraction)
    } else if name == b"zero".as_slice() {
        Some(Fault::Zero)
    } else if name == b"type".as_slice() {
        Some(Fault::Mistyped)
    } else if name == b"early".as_slice() {
        Some(Fault::Early)
    } else if name == b"index".as_slice() {
        Some(Fault::Index)
    } else if name == b"weight".as_slice() {
        Some(Fault::Weight)
    } else if name == b"nesting".as_slice() {
        Some(Fault::Nesting)
    } else if name == b"depth".as_slice() {
        Some(Fault::Depth)
    } else if name == b"mode".as_slice() {
        Some(Fault::Mode)
    } else if name == b"statement".as_slice() {
        Some(Fault::Statement)
    } else if name == b"truth".as_slice() {
        Some(Fault::Truth)
    } else {
        None
    }
}

/// A fault at the place: the number of its line, a blank, and its name.
fn kind_of(place: Place, bytes: &[u8]) -> Option<Verdict>
    ensures { result ≡ kind_at place bytes.now }
{
    let (digits, name) = around_byte(b' ', bytes)?;
    let line = small_number_of(digits)?;
    let fault = fault_of(name)?;
    Some(Verdict::Fault(place, line, fault))
}

/// A fault at the place, after a blank.
fn blamed_of(place: Place, bytes: &[u8]) -> Option<Verdict>
    ensures { result ≡ blamed_at (place, bytes.now) }
{
    kind_of(place, behind_word(b" ", bytes)?)
}

fn faulty_of(alloc: Global, line: &[u8]) -> Result<Option<Verdict>, Memory>
    ensures { IfOk result (λ v. v ≡ faulty_at line.now) }
{
    let Some(rest) = behind_word(b"fault ", line) else {
        return Ok(None);
    };
    match place_of(alloc, rest) {
        Err(error) => Err(error),
        Ok(None) => Ok(None),
        Ok(Some((place, behind))) => Ok(blamed_of(place, behind)),
    }
}

/// A spent budget of the place, after which nothing stands.
fn spent_of_place(place: Place, bytes: &[u8]) -> Option<Verdict>
    ensures { result ≡ spent_by place bytes.now }
{
    match bytes {
        [] => Some(Verdict::Spent(place)),
        [_, ..] => None,
    }
}

fn spent_of(alloc: Global, line: &[u8]) -> Result<Option<Verdict>, Memory>
    ensures { IfOk result (λ v. v ≡ spent_at line.now) }
{
    let Some(rest) = behind_word(b"spent ", line) else {
        return Ok(None);
    };
    match place_of(alloc, rest) {
        Err(error) => Err(error),
        Ok(None) => Ok(None),
        Ok(Some((place, behind))) => Ok(spent_of_place(place, behind)),
    }
}

/// A verdict with a place.
fn placed_of(alloc: Global, line: &[u8]) -> Result<Option<Verdict>, Memory>
    ensures { IfOk result (λ v. v ≡ placed_at line.now) }
{
    if let Some(verdict) = violated_of(alloc, line)? {
        return Ok(Some(verdict));
    }
    if let Some(verdict) = faulty_of(alloc, line)? {
        return Ok(Some(verdict));
    }
    spent_of(alloc, line)
}

/// The verdict that the bytes say.
pub(crate) fn verdict_of(alloc: Global, line: &[u8]) -> Result<Option<Verdict>, Memory>
    ensures { IfOk result (λ v. v ≡ verdict_at line.now) }
{
    if let Some(verdict) = numbered_of(line) {
        return Ok(Some(verdict));
    }
    placed_of(alloc, line)
}
