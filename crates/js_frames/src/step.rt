//! What a machine does next.
ghost use Rattle.std.specs.Prelude.{◌≡◌, IfOk};
ghost use Rattle.js_data.specs.declared.fault.Fault.TheVariants as fault;
ghost use Rattle.js_ops.specs.Answers.{AnswersAs};
ghost use Rattle.js_ops.specs.Made.{Answer};
ghost use Rattle.js_meaning.specs.State.{answered};
ghost use Rattle.js_frames.specs.inner.Leads.{Becomes, FailsAs};

use js_data::{Fault, Memory, Text};
use js_ops::OpFault;
use js_value::Value;
use std::alloc::AllocError;

/// How a node completes.
#[derive(Drop)]
pub(crate) enum Completion {
    Normal(Value),
    Broke,
    Continued,
    Returned(Value),
}

/// What comes next.
#[derive(Drop)]
pub(crate) enum Step {
    /// A node begins.
    Begin(u32),
    /// A completion goes to the last frame.
    Give(Completion),
    /// `bp.sync` asks, with its statement, its priority and its line.
    Ask(Value, Value, u32),
    /// A fault, and its line.
    Fail(Fault, u32),
    /// An assertion failed: its text.
    Violate(Text),
}

/// A value is given.
#[inline(always)]
pub(crate) fn give(value: Value) -> Step
    ensures { result ≡ Step.Give (Completion.Normal value) }
{
    Step::Give(Completion::Normal(value))
}

/// A statement completes.
#[inline(always)]
pub(crate) fn leave() -> Step
    ensures { result ≡ Step.Give (Completion.Normal Value.Undefined) }
{
    give(Value::Undefined)
}

/// A value of the wrong kind.
#[inline(never)]
pub(crate) fn mistyped(line: u32) -> Step
    ensures { result ≡ Step.Fail fault.Mistyped line }
{
    Step::Fail(Fault::Mistyped, line)
}

/// What an operator answers.
#[inline(always)]
pub(crate) fn answered(answer: Result<Value, OpFault>, line: u32) -> Result<Step, Memory>
    ensures { (a : Answer) → AnswersAs a answer → IfOk result (Becomes (λ g. answered line a)) }
{
    match answer {
        Ok(value) => Ok(give(value)),
        Err(fault) => failed(fault, line),
    }
}

/// What a fault of an operator becomes.
#[inline(never)]
pub(crate) fn failed(fault: OpFault, line: u32) -> Result<Step, Memory>
    ensures { FailsAs fault line result }
{
    match fault {
        OpFault::Fault(fault) => Ok(Step::Fail(fault, line)),
        OpFault::Memory => Err(AllocError),
    }
}
