//! The state of a run after records of its log, in words.
ghost use Rattle.std.specs.Prelude.{◌≡◌, ◌≤◌, ◌++◌, length, option_map, Some, None, IfOk, IfErr, OnOk, codes, decimal, string_bytes};
ghost use Rattle.js_program.specs.PlainProgram.{PlainProgram};
ghost use Rattle.bp_log.specs.Options.{PlainOptions};
ghost use Rattle.bp_reading.specs.declared.limits.TheConstants.{MOST_RECORDS};
ghost use Rattle.bp_floor.specs.declared.phase.Phase.TheVariants as phase;
ghost use Rattle.bp_replay.specs.Courses.{Course};
ghost use Rattle.bp_replay.specs.Following.{IsSomewhere, IsThere};
ghost use Rattle.bp_explain.specs.Explained.{before_end, heading, state_of, verdict_line, within_turn};
ghost use Rattle.bp_answers.specs.inner.Led.{EndsLast, IsEnded, LeadsTo, PartsAs, rest_in};

use crate::resting::write_at_rest;
use crate::walking::walk;
use bp_arbiter::{Arbiter, Phase};
use bp_log::{Line, Memory, Options, Record, Verdict, verdict_of, whole_line_of};
use bp_replay::{ReplayFault, follow, record_text_of};
use js_program::Program;
use std::alloc::Global;

/// Writes the last of the records, by its number.
pub(crate) fn write_heading(
    alloc: Global,
    records: &[Record],
    text: &mut String,
) -> Result<(), Memory>
    ensures { OnOk result (string_bytes text.new
        ≡ string_bytes text.old ++ heading records.now) }
{
    let number = records.len();
    match records.last() {
        None => text.push_str("before the first record\n"),
        Some(last) => {
            let last = record_text_of(alloc, last)?;
            let last = last.as_str();
            let words = format!(in alloc; "after record {number}: {last}\n")?;
            text.push_str(words.as_str())
        }
    }
}

/// Writes the line of a verdict, if there is one.
fn write_verdict(alloc: Global, verdict: Option<&Verdict>, text: &mut String) -> Result<(), Memory>
    ensures { OnOk result (string_bytes text.new ≡ string_bytes text.old
        ++ verdict_line (option_map (λ v. v.now) verdict.entry)) }
{
    let Some(verdict) = verdict else {
        return Ok(());
    };
    let line = whole_line_of(alloc, &Line::Verdict(verdict.copy()?))?;
    text.push_str(line.as_str())
}

/// Writes that the b-threads of a run that ended within a turn stood last after the record of this
/// number.
fn write_last_stand(alloc: Global, number: usize, text: &mut String) -> Result<(), Memory>
    ensures { OnOk result (string_bytes text.new ≡ string_bytes text.old
        ++ (codes "the run ended within a turn: its b-threads stood last after record "
        ++ (decimal number ++ codes "\n"))) }
{
    let words = format!(in alloc;
        "the run ended within a turn: its b-threads stood last after record {number}\n"
    )?;
    text.push_str(words.as_str())
}

/// Writes of a run that ended within a turn, after this many records, after which of them its
/// b-threads stood last.
pub(crate) fn write_within_turn(
    alloc: Global,
    count: usize,
    text: &mut String,
) -> Result<(), Memory>
    ensures { OnOk result (string_bytes text.new
        ≡ string_bytes text.old ++ within_turn count) }
{
    if count == 0 {
        return text.push_str("the run ended before its b-threads stood\n");
    }
    write_last_stand(alloc, count - 1, text)
}

/// Writes where a run rests, or that it ended within a turn.
fn write_if_at_rest(alloc: Global, arbiter: &mut Arbiter, text: &mut String) -> Result<(), Memory>
    requires { IsSomewhere arbiter.old }
    ensures written { OnOk result ((c : Course) → IsThere c arbiter.old →
        arbiter.old.floor.base.program ≡ c.program →
        string_bytes text.new ≡ string_bytes text.old ++ rest_in c) }
    ensures quiet { OnOk result ((c : Course) → IsThere c arbiter.old →
        arbiter.old.phase ≡ phase.Rest → c.told.stand.verdict ≡ None) }
    ensures same { arbiter.new ≡ arbiter.old }
{
    if arbiter.phase() != Phase::Rest {
        let count = arbiter.records().len().saturating_sub(1);
        return write_within_turn(alloc, count, text);
    }
    write_at_rest(alloc, arbiter, text)
}

/// Makes the end of the records, if they have one, and writes the verdict to which they lead.
pub(crate) fn write_end(
    alloc: Global,
    arbiter: &mut Arbiter,
    records: &[Record],
    text: &mut String,
) -> Result<(), ReplayFault>
    requires few { length records.now ≤ MOST_RECORDS }
    requires last { EndsLast records.now }
    requires there { IsSomewhere arbiter.old }
    requires quiet { (c : Course) → IsThere c arbiter.old → arbiter.old.phase ≡ phase.Rest →
        c.told.stand.verdict ≡ None }
    ensures ended { OnOk result ((program : PlainProgram) (options : PlainOptions) →
        LeadsTo program options (before_end records.now) arbiter.old →
        IsEnded program options records.now (string_bytes text.old) (string_bytes text.new)) }
    ensures parts { IfErr result (λ f. (program : PlainProgram) (options : PlainOptions) →
        LeadsTo program options (before_end records.now) arbiter.old →
        PartsAs program options records.now f) }
{
    let Some(verdict) = verdict_of(records) else {
        write_verdict(alloc, arbiter.verdict(), text)?;
        return Ok(());
    };
    follow(
        alloc,
        arbiter,
        records.len() as u32,
        Record::End(verdict.copy()?),
    )?;
    write_verdict(alloc, Some(verdict), text)?;
    Ok(())
}

/// The state of the run of a program after these records, the last of which alone may be an end.
///
/// # Errors
///
/// `Differs` exactly at the first record that the run does not make, and `Memory`.
pub fn state_text(
    alloc: Global,
    program: Program,
    options: Options,
    records: &[Record],
) -> Result<String, ReplayFault>
    requires few { length records.now ≤ MOST_RECORDS }
    requires last { EndsLast records.now }
    ensures told { IfOk result (λ s.
        state_of program options records.now ≡ Some (string_bytes s)) }
    ensures parts { IfErr result (λ f. PartsAs program options records.now f) }
{
    let mut text = String::new(alloc);
    write_heading(alloc, records, &mut text)?;
    let mut arbiter = walk(alloc, program, options, records)?;
    write_if_at_rest(alloc, &mut arbiter, &mut text)?;
    write_end(alloc, &mut arbiter, records, &mut text)?;
    Ok(text)
}
