//! The answers of predicates.
ghost use Rattle.std.specs.Prelude.{◌≡◌, true};
ghost use Rattle.js_data.specs.Event.{PlainEvent};
ghost use Rattle.js_value.specs.Value as of_value;
ghost use Rattle.js_value.specs.Views.{plain_value};
ghost use Rattle.js_meaning.specs.State.{State, normal, went};
ghost use Rattle.js_meaning.specs.Calls.{body_of};
ghost use Rattle.js_frames.specs.Places.{plain_ground};
ghost use Rattle.bp_meaning.specs.Membership.{truth_answered, asks_predicate};
ghost use Rattle.bp_sets.specs.Answers.{TellsAs};
ghost use Rattle.bp_sets.specs.Asked.{IsAbout};

use crate::asked::{Answer, Asked, known, value_of};
use crate::fault::SetFault;
use js_data::Event;
use js_frames::{Ground, Machine, Pause};
use js_program::{Mode, Program};
use js_value::{Items, Value, copy};
use std::alloc::Global;

/// The line on which a function begins; 0 where no function has this number.
fn line_of(program: &Program, code: u32) -> u32
    ensures { result ≡ (body_of program.now code).line }
{
    if code < program.functions() {
        program.line(code)
    } else {
        0
    }
}

fn truth_in(answer: &Value, line: u32) -> Result<bool, SetFault>
    ensures { (s : State) →
        TellsAs (truth_answered line (went (normal (plain_value answer.now)) s)) result }
{
    match answer {
        Value::Truth(truth) => Ok(*truth),
        _ => Err(SetFault::NotTruth(line)),
    }
}

/// What a predicate answers of an event: it is called with the event, and with the whole budget, by a
/// machine whose room is used again.
fn call(
    alloc: Global,
    ground: &Ground,
    code: u32,
    captured: &Items,
    event: &Value,
    budget: u64,
    room: &mut Option<Machine>,
) -> Result<bool, SetFault>
    ensures { (e : PlainEvent) → plain_value event.now ≡ of_value.event e → TellsAs
        (asks_predicate (plain_ground ground.now) budget code captured.now e) result }
{
    let line = line_of(ground.program(), code);
    let callee = Value::Function {
        code,
        captured: captured.copy()?,
    };
    let args = [copy(event)?];
    let machine = room.get_or_insert_with(|| Machine::idle(alloc));
    machine.restart(ground, &callee, &args, Mode::Predicate, budget)?;
    match machine.run(ground, budget)? {
        Pause::Ended => truth_in(machine.answer(), line),
        Pause::Broken(fault, at) => Err(SetFault::Broken(fault, at)),
        Pause::Spent => Err(SetFault::Spent),
        Pause::More | Pause::AtSync | Pause::Violated(_) => Err(SetFault::NotTruth(line)),
    }
}

/// What a predicate answers of the event, whose value is kept.
fn ask_anew(
    alloc: Global,
    ground: &Ground,
    code: u32,
    captured: &Items,
    event: &Event,
    budget: u64,
    asked: &mut Asked,
) -> Result<bool, SetFault>
    requires { IsAbout (plain_ground ground.now) budget event.now asked.old }
    ensures tells { TellsAs
        (asks_predicate (plain_ground ground.now) budget code captured.now event.now) result }
    ensures about { IsAbout (plain_ground ground.now) budget event.now asked.new }
{
    let event = value_of(alloc, &mut asked.value, event)?;
    call(
        alloc,
        ground,
        code,
        captured,
        &event,
        budget,
        &mut asked.machine,
    )
}

/// Whether nothing is captured.
fn is_empty(captured: &Items) -> bool
    ensures { result ≡ true → captured.now ≡ of_value.no_values }
{
    captured.as_slice().len() == 0
}

/// What a predicate that captured nothing answers of the event, whose answer is kept.
fn ask_plain(
    alloc: Global,
    ground: &Ground,
    code: u32,
    captured: &Items,
    event: &Event,
    budget: u64,
    asked: &mut Asked,
) -> Result<bool, SetFault>
    requires empty { captured.now ≡ of_value.no_values }
    requires about { IsAbout (plain_ground ground.now) budget event.now asked.old }
    ensures tells { TellsAs
        (asks_predicate (plain_ground ground.now) budget code captured.now event.now) result }
    ensures about { IsAbout (plain_ground ground.now) budget event.now asked.new }
{
    if let Some(yes) = known(asked.answer, code) {
        return Ok(yes);
    }
    let yes = ask_anew(alloc, ground, code, captured, event, budget, asked)?;
    asked.answer = Some(Answer { code, yes });
    Ok(yes)
}

/// What a predicate answers of the event, of which this is kept.
pub(crate) fn ask(
    alloc: Global,
    ground: &Ground,
    code: u32,
    captured: &Items,
    event: &Event,
    budget: u64,
    asked: &mut Asked,
) -> Result<bool, SetFault>
    requires { IsAbout (plain_ground ground.now) budget event.now asked.old }
    ensures tells { TellsAs
        (asks_predicate (plain_ground ground.now) budget code captured.now event.now) result }
    ensures about { IsAbout (plain_ground ground.now) budget event.now asked.new }
{
    if is_empty(captured) {
        return ask_plain(alloc, ground, code, captured, event, budget, asked);
    }
    ask_anew(alloc, ground, code, captured, event, budget, asked)
}
