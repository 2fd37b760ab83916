//! Records that are made again, without printing.
ghost use Rattle.std.specs.Prelude.{◌≡◌, ◌≤◌, List, length, IfOk, IfErr, OnOk};
ghost use Rattle.bp_log.specs.declared.trace.Line.{Line as Told};
ghost use Rattle.bp_reading.specs.declared.limits.TheConstants.{MOST_RECORDS};
ghost use Rattle.bp_replay.specs.Courses.{Course};
ghost use Rattle.bp_replay.specs.Following.{IsOnSomeWay, IsOnWay, IsThere};
ghost use Rattle.bp_explain.specs.Explained.{before_end};
ghost use Rattle.bp_answers.specs.inner.Led.{LeadsTo, PartsAs};

use bp_arbiter::Arbiter;
use bp_log::{Memory, Options, Parallelism, Record};
use bp_replay::{ReplayFault, follow};
use bp_turns::{Alone, settle};
use js_program::Program;
use std::alloc::Global;

/// Runs what is to be run, and lets the lines go.
pub(crate) fn come_to_rest(alloc: Global, arbiter: &mut Arbiter) -> Result<(), Memory>
    requires { IsOnSomeWay arbiter.old }
    ensures there { OnOk result ((c : Course) (taken : List Told) → IsOnWay c taken arbiter.old →
        IsThere c arbiter.new) }
    ensures program { arbiter.new.floor.base.program ≡ arbiter.old.floor.base.program }
{
    settle(alloc, arbiter, &Alone(Parallelism::defaults()))?;
    // For the proof: what the arbiter keeps.
    arbiter.keeps();
    let _lines = arbiter.take_lines();
    // For the proof: what the arbiter keeps.
    arbiter.keeps();
    Ok(())
}

/// Makes these records up to an end, which is not made.
///
/// # Errors
///
/// `Differs` exactly at the first of them that the run does not make, and `Memory`.
pub fn walk(
    alloc: Global,
    program: Program,
    options: Options,
    records: &[Record],
) -> Result<Arbiter, ReplayFault>
    requires { length records.now ≤ MOST_RECORDS }
    ensures leads { IfOk result (λ a. LeadsTo program options (before_end records.now) a) }
    ensures parts { IfErr result (λ f. PartsAs program options records.now f) }
{
    let mut arbiter = Arbiter::open(alloc, program, options)?;
    come_to_rest(alloc, &mut arbiter)?;
    for (place, found) in records.iter().enumerate() {
        if found.verdict().is_some() {
            return Ok(arbiter);
        }
        follow(alloc, &mut arbiter, place as u32 + 1, found.copy()?)?;
        come_to_rest(alloc, &mut arbiter)?;
    }
    Ok(arbiter)
}
