//! Benches that are asked, by lines of text:
//!
//! `QUESTION | NUMBER: NAMES ; WAITS BLOCKS INTERRUPTS PRIORITY / .. | NAMES --> ANSWER`
//!
//! Names are those of events. A set is an event's name, `-` for none, `0` for one that is not stated,
//! `*` for all, or `!` for one whose predicate answers no truth value. `NUMBER: ended` takes away
//! what a b-thread states.
ghost use Rattle.std.specs.Prelude.{ℕ, ◌≤◌, length};
ghost use Rattle.js_meaning.specs.State.{Ground as Base};
ghost use Rattle.bp_select.specs.Benches.{Fits};

use crate::lines::event;
use bp_script::accept;
use bp_select::{Bench, Enabled, SelectFault};
use bp_sets::SetFault;
use bp_thread::{Events, Requests, Statement};
use js_data::{Event, Text, Whole};
use js_frames::Ground;
use js_value::{EventSet, Items, SetTree};
use std::alloc::Global;
use std::sync::Arc;
use std::test::Fail;

/// The program whose first function is the predicate of `!`.
const PROGRAM: &[u8] = b"const p = bp.EventSet(\"p\", e => 1)";

const BUDGET: u64 = 1_000;

/// The greatest number of events in a line.
const MOST_EVENTS: usize = 100;

fn events(alloc: Global, names: &str) -> Result<Events, Fail> {
    let mut made = Events::new(alloc);
    for name in names.split_whitespace() {
        made.push(event(alloc, name)?)?;
    }
    Ok(made)
}

fn no_truth(alloc: Global) -> Result<SetTree, Fail> {
    Ok(SetTree::Predicate {
        name: Arc::new(alloc, Text::new(String::from_str(alloc, "p")?))?,
        code: 0,
        captured: Items::new(alloc, Vec::new(alloc))?,
    })
}

fn set(alloc: Global, name: Option<&str>) -> Result<Option<EventSet>, Fail> {
    let tree = match name.ok_or("no set")? {
        "0" => return Ok(None),
        "-" => SetTree::Nothing,
        "*" => SetTree::All,
        "!" => no_truth(alloc)?,
        name => SetTree::Only(Arc::new(alloc, event(alloc, name)?)?),
    };
    Ok(Some(EventSet::new(alloc, tree)?))
}

fn statement(alloc: Global, line: &str) -> Result<Statement, Fail> {
    let (names, rest) = line.split_once(";").ok_or("no sets")?;
    let mut words = rest.split_whitespace();
    Ok(Statement {
        request: Requests::new(alloc, events(alloc, names)?)?,
        wait_for: set(alloc, words.next())?,
        block: set(alloc, words.next())?,
        interrupt: set(alloc, words.next())?,
        priority: priority(words.next())?,
    })
}

fn priority(word: Option<&str>) -> Result<Whole, Fail> {
    let number = word.ok_or("no priority")?.parse::<i64>()?;
    Ok(Whole::new(number).ok_or("no whole number")?)
}

fn place(alloc: Global, made: &mut Bench, line: &str) -> Result<(), Fail>
    ensures { (base : Base) (budget : ℕ) →
        Fits made.old base budget → Fits made.new base budget }
{
    let (number, rest) = line.split_once(":").ok_or("no number")?;
    let number = number.trim().parse::<u32>()?;
    let stated = match rest.trim() {
        "ended" => None,
        line => Some(statement(alloc, line)?),
    };
    made.place(number, stated)?;
    Ok(())
}

/// Each of the lines is placed.
fn place_all(alloc: Global, made: &mut Bench, lines: &str) -> Result<(), Fail>
    ensures { (base : Base) (budget : ℕ) →
        Fits made.old base budget → Fits made.new base budget }
{
    for line in lines.split("/") {
        place(alloc, made, line)?;
    }
    Ok(())
}

fn told(alloc: Global, fault: &SelectFault) -> Result<String, Fail> {
    match fault {
        SelectFault::Set(number, SetFault::NotTruth(line)) => {
            Ok(format!(in alloc; "no truth of {number} on line {line}")?)
        }
        _ => Err(Fail::new("another fault")),
    }
}

fn blocker_text(alloc: Global, blocker: &Result<Option<u32>, SelectFault>) -> Result<String, Fail> {
    match blocker {
        Ok(Some(number)) => Ok(number.to_string(alloc)?),
        Ok(None) => Ok(String::from_str(alloc, "none")?),
        Err(fault) => told(alloc, fault),
    }
}

fn enabled_text(alloc: Global, enabled: &Result<Enabled, SelectFault>) -> Result<String, Fail> {
    match enabled {
        Ok(enabled) => {
            let mut text = format!(in alloc; "outer {:?} inner", enabled.outer)?;
            for event in enabled.inner.as_slice() {
                text.push_str(" ")?;
                text.push_str(event.name().as_str())?;
            }
            Ok(text)
        }
        Err(fault) => told(alloc, fault),
    }
}

/// What the bench answers of the first of the events.
fn ask(alloc: Global, question: &str, made: &mut Bench, events: &[Event]) -> Result<String, Fail>
    requires { (base : Base) (budget : ℕ) → Fits made.old base budget }
{
    let ground = Ground::bare(alloc, accept(alloc, PROGRAM)?);
    let event = events.first().ok_or("no event")?;
    match question {
        "blocker" => blocker_text(alloc, &made.blocker(alloc, &ground, event, BUDGET)),
        "requested" => Ok(made.requested(event).to_string(alloc)?),
        _ => Err(Fail::new("no question")),
    }
}

/// What can be selected.
fn enabled(alloc: Global, made: &mut Bench, events: &[Event]) -> Result<String, Fail>
    requires fits { (base : Base) (budget : ℕ) → Fits made.old base budget }
    requires few { length events.now ≤ MOST_EVENTS }
{
    let ground = Ground::bare(alloc, accept(alloc, PROGRAM)?);
    enabled_text(alloc, &made.enabled(alloc, &ground, events, BUDGET))
}

fn answer(alloc: Global, question: &str, made: &mut Bench, events: &[Event]) -> Result<String, Fail>
    requires { (base : Base) (budget : ℕ) → Fits made.old base budget }
{
    if events.len() > MOST_EVENTS {
        return Err(Fail::new("too many events"));
    }
    match question {
        "enabled" => enabled(alloc, made, events),
        question => ask(alloc, question, made, events),
    }
}

fn answers(alloc: Global, made: &mut Bench, cell: &str, want: &str) -> Result<bool, Fail>
    requires { (base : Base) (budget : ℕ) → Fits made.old base budget }
{
    let (question, rest) = cell.split_once("|").ok_or("no statements")?;
    let (stated, names) = rest.split_once("|").ok_or("no events")?;
    place_all(alloc, made, stated)?;
    let events = events(alloc, names)?;
    let said = answer(alloc, question.trim(), made, events.as_slice())?;
    Ok(said.as_str() == want)
}

/// Whether a bench answers what is wanted. It stands in a function that ends in one place alone, since
/// at each end it is proved anew that the bench may be dropped.
pub fn bench_holds(alloc: Global, cell: &str, want: &str) -> Result<bool, Fail> {
    answers(alloc, &mut Bench::new(alloc), cell, want)
}
