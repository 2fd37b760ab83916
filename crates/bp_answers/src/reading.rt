//! The records of a log, read as far as they are asked for.
ghost use Rattle.std.specs.Prelude.{◌≡◌, ◌↔◌, ◌≤◌, false, length, IsTrue, IfSome, IsErrOf, None, Some, IfOk};
ghost use Rattle.bp_base.specs.Counts.{Rose};
ghost use Rattle.bp_reader.specs.declared.fault.LogFault.TheVariants as log_fault;
ghost use Rattle.bp_reading.specs.declared.limits.TheConstants.{MOST_RECORDS};
ghost use Rattle.bp_answers.specs.inner.Read.{EndsAs, ReadsAs};
ghost use Rattle.bp_answers.specs.inner.Led.{EndsLast};

use crate::NoAnswer;
use bp_base::Source;
use bp_log::Record;
use bp_reader::{LogFault, Reader};
use bp_replay::ReplayFault;
use std::alloc::Global;

/// Whether this many records are as many as are asked for.
fn is_enough(number: Option<u32>, count: usize) -> bool
    ensures { IsTrue result ↔ (number ≡ Some count) }
{
    match number {
        None => false,
        Some(number) => number as usize == count,
    }
}

/// The records, where the log ends after them.
fn at_end(number: Option<u32>, records: Vec<Record>) -> Result<Vec<Record>, NoAnswer>
    ensures { EndsAs number records.items result }
{
    match number {
        None => Ok(records),
        Some(_) => Err(NoAnswer::Absent),
    }
}

/// The records from here on: this many, or all. A log that is cut has those before.
pub fn read<S: Source>(
    alloc: Global,
    reader: &mut Reader<S>,
    number: Option<u32>,
) -> Result<Vec<Record>, NoAnswer>
    requires fresh { reader.old.refusal ≡ None }
    requires first { reader.old.stage.lines ≡ 0 }
    requires going { reader.old.stage.ended ≡ false }
    ensures reads { IfSome reader.old.left
        (λ bytes. ReadsAs reader.old.stage bytes number result) }
    ensures last { IfOk result (λ v. EndsLast v.items) }
    ensures few { IfOk result (λ v. length v.items ≤ MOST_RECORDS) }
    ensures read { IsErrOf result (NoAnswer.Refused (ReplayFault.Log log_fault.Read))
        → Rose reader.old.faults reader.new.faults }
    ensures counts { reader.old.faults ≤ reader.new.faults }
{
    let mut records = Vec::new(alloc);
    while !is_enough(number, records.len()) {
        match reader.next(alloc) {
            Ok(Some(found)) => records.push(found)?,
            Ok(None) => return at_end(number, records),
            Err(LogFault::Cut) => return at_end(number, records),
            Err(fault) => return Err(NoAnswer::from(fault)),
        }
    }
    Ok(records)
}
