//! What is left of a node that begins one of its parts or none, once it has the value that decides.
ghost use Rattle.std.specs.Prelude.{cond};
ghost use Rattle.js_value.specs.Value.{is_truthy};
ghost use Rattle.js_value.specs.Views.{plain_value};
ghost use Rattle.js_program.specs.PlainProgram.{PlainProgram};
ghost use Rattle.js_meaning.specs.State.{gives, leaves};
ghost use Rattle.js_meaning.specs.Meaning.{eval};
ghost use Rattle.js_frames.specs.Fits.{IsNode};
ghost use Rattle.js_frames.specs.inner.Leads.{Picks};

use crate::step::{Step, give, leave};
use js_value::{Value, truthy};

/// The right side, where the left one is not true.
#[inline(always)]
pub(crate) fn or(right: u32, left: Value) -> Step
    ensures { (program : PlainProgram) → IsNode program right →
        Picks program (λ g. cond (is_truthy (plain_value left))
        (gives (plain_value left)) (eval g right)) result }
{
    if truthy(&left) {
        give(left)
    } else {
        Step::Begin(right)
    }
}

/// The right side, where the left one is true.
#[inline(always)]
pub(crate) fn and(right: u32, left: Value) -> Step
    ensures { (program : PlainProgram) → IsNode program right →
        Picks program (λ g. cond (is_truthy (plain_value left))
        (eval g right) (gives (plain_value left))) result }
{
    if truthy(&left) {
        Step::Begin(right)
    } else {
        give(left)
    }
}

/// One of two.
#[inline(always)]
pub(crate) fn choose(yes: u32, no: u32, test: &Value) -> Step
    ensures { (program : PlainProgram) → IsNode program yes → IsNode program no →
        Picks program (λ g. cond (is_truthy (plain_value test.now)) (eval g yes) (eval g no))
        result }
{
    if truthy(test) {
        Step::Begin(yes)
    } else {
        Step::Begin(no)
    }
}

/// The body, where the test is true.
#[inline(always)]
pub(crate) fn when(body: u32, test: &Value) -> Step
    ensures { (program : PlainProgram) → IsNode program body →
        Picks program (λ g. cond (is_truthy (plain_value test.now)) (eval g body) leaves) result }
{
    if truthy(test) {
        Step::Begin(body)
    } else {
        leave()
    }
}
