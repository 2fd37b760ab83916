//! The record that a line says.
ghost use Rattle.std.specs.Prelude.{◌≡◌, IfOk};
ghost use Rattle.bp_reading.specs.Lines.{handed_at, in_at, bad_at, eof_at, sel_at, end_at, record_at};

use crate::verdicts::verdict_of;
use crate::words::{
    around_byte, behind_word, compact_event_of, number_behind, numbers_of, small_number_of,
};
use bp_log::{Memory, Record};
use std::alloc::Global;

/// The number of an injector, a blank, and an event.
fn handed_of(alloc: Global, bytes: &[u8]) -> Result<Option<Record>, Memory>
    ensures { IfOk result (λ r. r ≡ handed_at bytes.now) }
{
    let Some((digits, rest)) = around_byte(b' ', bytes) else {
        return Ok(None);
    };
    let Some(injector) = small_number_of(digits) else {
        return Ok(None);
    };
    match compact_event_of(alloc, rest)? {
        None => Ok(None),
        Some(event) => Ok(Some(Record::In(injector, event))),
    }
}

fn in_of(alloc: Global, line: &[u8]) -> Result<Option<Record>, Memory>
    ensures { IfOk result (λ r. r ≡ in_at line.now) }
{
    match behind_word(b"in ", line) {
        None => Ok(None),
        Some(rest) => handed_of(alloc, rest),
    }
}

fn bad_of(line: &[u8]) -> Option<Record>
    ensures { result ≡ bad_at line.now }
{
    let (injector, number) = numbers_of(behind_word(b"bad ", line)?)?;
    Some(Record::Bad(injector, number))
}

fn eof_of(line: &[u8]) -> Option<Record>
    ensures { result ≡ eof_at line.now }
{
    let injector = number_behind(b"eof ", line)?;
    Some(Record::Eof(injector))
}

fn sel_of(alloc: Global, line: &[u8]) -> Result<Option<Record>, Memory>
    ensures { IfOk result (λ r. r ≡ sel_at line.now) }
{
    let Some(rest) = behind_word(b"sel ", line) else {
        return Ok(None);
    };
    match compact_event_of(alloc, rest)? {
        None => Ok(None),
        Some(event) => Ok(Some(Record::Sel(event))),
    }
}

fn end_of(alloc: Global, line: &[u8]) -> Result<Option<Record>, Memory>
    ensures { IfOk result (λ r. r ≡ end_at line.now) }
{
    let Some(rest) = behind_word(b"end ", line) else {
        return Ok(None);
    };
    match verdict_of(alloc, rest)? {
        None => Ok(None),
        Some(verdict) => Ok(Some(Record::End(verdict))),
    }
}

/// The record that a line, without its LF, says, or `None` if it says none.
#[tactic(auto, unfolding(bp_reading::specs::Lines::record_at))]
pub fn record_of(alloc: Global, line: &[u8]) -> Result<Option<Record>, Memory>
    ensures { IfOk result (λ r. r ≡ record_at line.now) }
{
    if let Some(entry) = in_of(alloc, line)? {
        return Ok(Some(entry));
    }
    if let Some(entry) = bad_of(line) {
        return Ok(Some(entry));
    }
    if let Some(entry) = eof_of(line) {
        return Ok(Some(entry));
    }
    if let Some(entry) = sel_of(alloc, line)? {
        return Ok(Some(entry));
    }
    end_of(alloc, line)
}
