//! Why an event of records was selected, and why another is not after them, in words.
ghost use Rattle.std.specs.Prelude.{◌≡◌, ◌≤◌, ◌<◌, ◌+◌, ◌^◌, length, None, Some, IfOk, IfErr, OnOk, string_bytes};
ghost use Rattle.bp_code.specs.Code.{code_of};
ghost use Rattle.bp_reading.specs.declared.limits.TheConstants.{MOST_RECORDS};
ghost use Rattle.bp_floor.specs.declared.phase.Phase.TheVariants as phase;
ghost use Rattle.bp_replay.specs.Courses.{Course};
ghost use Rattle.bp_replay.specs.Following.{IsSomewhere, IsThere};
ghost use Rattle.bp_explain.specs.Whys.{why, why_heading, why_not_of, why_of};
ghost use Rattle.bp_answers.specs.inner.Led.{EndsLast, PartsAs};
ghost use Rattle.bp_answers.specs.inner.Reasons.{DiffersWhere, HasNothing, IsPlaceOf, WritesAsked, WritesWhy};
ghost use Rattle.bp_answers.specs.Whys.{HasNoSelection, IsUpTo};

use crate::NoAnswer;
use crate::saying::{write_end, write_heading, write_within_turn};
use crate::selecting::{write_who_asks, write_why};
use crate::walking::walk;
use bp_arbiter::{Arbiter, Phase};
use bp_log::{Memory, Options, Record};
use bp_replay::{ReplayFault, follow};
use js_data::Event;
use js_program::Program;
use std::alloc::Global;

/// The place of the selection of this number, counted from 0.
fn place_of(records: &[Record], number: u32) -> Option<usize>
    ensures { IsPlaceOf number records.now result }
{
    let mut before = number;
    for (place, found) in records.iter().enumerate() {
        match found {
            Record::End(_) => return None,
            Record::Sel(_) => {
                if before == 0 {
                    return Some(place);
                }
                before -= 1;
            }
            Record::In(_, _) => {}
            Record::Bad(_, _) => {}
            Record::Eof(_) => {}
        }
    }
    None
}

/// Writes why what comes next is selected, unless the run has come to a verdict.
fn write_why_here(alloc: Global, arbiter: &mut Arbiter, text: &mut String) -> Result<(), Memory>
    requires { IsSomewhere arbiter.old }
    ensures written { OnOk result ((c : Course) → IsThere c arbiter.old →
        WritesWhy c (string_bytes text.old) (string_bytes text.new)) }
    ensures same { arbiter.new ≡ arbiter.old }
{
    if arbiter.phase() != Phase::Rest {
        return Ok(());
    }
    write_why(alloc, arbiter, text)
}

/// Which selection it is, by its number, counted from 0, and the place of its record.
fn heading(alloc: Global, number: u32, place: usize) -> Result<String, Memory>
    requires selection { number + 1 < 2 ^ 32 }
    requires record { place ≤ MOST_RECORDS }
    ensures { IfOk result (λ s. string_bytes s ≡ why_heading number place) }
{
    let count = number + 1;
    let record = place + 1;
    format!(in alloc; "selection {count}, record {record}\n")
}

/// Why the event of the record at this place was selected, which is the selection of this number,
/// counted from 0.
fn text_at(
    alloc: Global,
    program: Program,
    options: Options,
    records: &[Record],
    number: u32,
    place: usize,
) -> Result<String, ReplayFault>
    requires few { length records.now ≤ MOST_RECORDS }
    requires place { IsPlaceOf number records.now (Some place) }
    requires within { number + 1 < 2 ^ 32 }
    requires there { place < length records.now }
    ensures told { IfOk result (λ s.
        why (code_of program options) options number records.now ≡ Some (string_bytes s)) }
    ensures parts { IfErr result (λ f. PartsAs program options records.now f) }
    ensures number { IfErr result (λ f. DiffersWhere (λ m. m ≤ place + 1) f) }
{
    let mut text = heading(alloc, number, place)?;
    let mut arbiter = walk(alloc, program, options, &records[..place])?;
    write_why_here(alloc, &mut arbiter, &mut text)?;
    let found = records[place].copy()?;
    follow(alloc, &mut arbiter, place as u32 + 1, found)?;
    Ok(text)
}

/// Why the event of the selection of this number, counted from 1, was selected.
///
/// # Errors
///
/// `Absent` exactly where there are fewer, `Differs` exactly at the first record up to it that the run
/// does not make, and `Memory`.
pub fn why_text(
    alloc: Global,
    program: Program,
    options: Options,
    records: &[Record],
    number: u32,
) -> Result<String, NoAnswer>
    requires { length records.now ≤ MOST_RECORDS }
    ensures told { IfOk result (λ s.
        why_of program options number records.now ≡ Some (string_bytes s)) }
    ensures none { IfErr result (λ f. HasNothing program options records.now
        (IsUpTo number records.now) (HasNoSelection number records.now) f) }
{
    if number == 0 {
        return Err(NoAnswer::Absent);
    }
    match place_of(records, number - 1) {
        None => Err(NoAnswer::Absent),
        Some(place) => Ok(text_at(alloc, program, options, records, number - 1, place)?),
    }
}

/// Writes who requests an event, and who blocks it, or that the run ended within a turn.
fn write_asked_here(
    alloc: Global,
    arbiter: &Arbiter,
    event: &Event,
    text: &mut String,
) -> Result<(), Memory>
    requires { IsSomewhere arbiter.now }
    ensures written { OnOk result ((c : Course) → IsThere c arbiter.now →
        WritesAsked c event.now (string_bytes text.old) (string_bytes text.new)) }
    ensures quiet { OnOk result ((c : Course) → IsThere c arbiter.now →
        arbiter.now.phase ≡ phase.Rest → c.told.stand.verdict ≡ None) }
{
    if arbiter.phase() != Phase::Rest {
        let count = arbiter.records().len().saturating_sub(1);
        return write_within_turn(alloc, count, text);
    }
    write_who_asks(alloc, arbiter, event, text)
}

/// Who requests an event where the run of a program is after these records, and who blocks it.
///
/// # Errors
///
/// `Differs` exactly at the first record that the run does not make, and `Memory`.
pub fn asked_text(
    alloc: Global,
    program: Program,
    options: Options,
    records: &[Record],
    event: &Event,
) -> Result<String, ReplayFault>
    requires few { length records.now ≤ MOST_RECORDS }
    requires last { EndsLast records.now }
    ensures told { IfOk result (λ s.
        why_not_of program options event.now records.now ≡ Some (string_bytes s)) }
    ensures parts { IfErr result (λ f. PartsAs program options records.now f) }
{
    let mut text = String::new(alloc);
    write_heading(alloc, records, &mut text)?;
    let mut arbiter = walk(alloc, program, options, records)?;
    write_asked_here(alloc, &arbiter, event, &mut text)?;
    write_end(alloc, &mut arbiter, records, &mut text)?;
    Ok(text)
}
