//! Where a b-thread stands, in words.
ghost use Rattle.std.specs.Prelude.{◌≡◌, ◌++◌, OnOk, codes, string_bytes};
ghost use Rattle.js_data.specs.JsonText.{event_text as text_of_event};
ghost use Rattle.bp_thread.specs.Views.{plain_statement, stated_set};
ghost use Rattle.bp_explain.specs.Sets.{is_no_set, spelling_of};
ghost use Rattle.bp_explain.specs.Listed.{listed};
ghost use Rattle.bp_explain.specs.Standing.{request_text, priority_text, set_text, statement_text, standing_text};

use crate::sets::write_set;
use bp_thread::Statement;
use js_data::{Event, Memory, Text, Whole};
use js_json::{event_text, quoted};
use js_program::Program;
use js_value::{EventSet, SetTree};
use std::alloc::Global;

/// Writes what stands before the words of a key.
fn write_key(key: &str, text: &mut String) -> Result<(), Memory>
    ensures { OnOk result (string_bytes text.new
        ≡ string_bytes text.old ++ (codes "  " ++ (key.now ++ codes " "))) }
{
    text.push_str("  ")?;
    text.push_str(key)?;
    text.push_str(" ")
}

/// Writes events with commas between.
pub(crate) fn write_events(alloc: Global, events: &[Event], text: &mut String) -> Result<(), Memory>
    ensures { OnOk result (string_bytes text.new
        ≡ string_bytes text.old ++ listed text_of_event events.now) }
{
    let mut later = false;
    for event in events {
        if later {
            text.push_str(", ")?;
        }
        let words = event_text(alloc, event)?;
        text.push_str(words.as_str())?;
        later = true;
    }
    Ok(())
}

/// Writes the events that are requested, if there are any.
fn write_requests(alloc: Global, events: &[Event], text: &mut String) -> Result<(), Memory>
    ensures { OnOk result (string_bytes text.new
        ≡ string_bytes text.old ++ request_text events.now) }
{
    if events.is_empty() {
        return Ok(());
    }
    write_key("request", text)?;
    write_events(alloc, events, text)?;
    text.push_str("\n")
}

/// Writes a priority that is not 0.
fn write_priority(alloc: Global, priority: Whole, text: &mut String) -> Result<(), Memory>
    ensures { OnOk result (string_bytes text.new
        ≡ string_bytes text.old ++ priority_text priority) }
{
    let number = priority.get();
    if number == 0 {
        return Ok(());
    }
    write_key("priority", text)?;
    let words = format!(in alloc; "{number}")?;
    text.push_str(words.as_str())?;
    text.push_str("\n")
}

/// Whether this is the set of a key that is absent.
fn is_absent(set: &EventSet) -> bool
    ensures { result ≡ is_no_set set.now }
{
    match set.tree() {
        SetTree::Any(sets) => sets.as_slice().len() == 0,
        _ => false,
    }
}

/// Writes the set that stands under a key, unless it is absent.
fn write_stated(
    alloc: Global,
    program: &Program,
    key: &str,
    stated: &Option<EventSet>,
    text: &mut String,
) -> Result<(), Memory>
    ensures { OnOk result (string_bytes text.new ≡ string_bytes text.old
        ++ set_text (spelling_of program.now) key.now (stated_set stated.now)) }
{
    let Some(set) = stated else { return Ok(()) };
    if is_absent(set) {
        return Ok(());
    }
    write_key(key, text)?;
    write_set(alloc, program, set, text)?;
    text.push_str("\n")
}

/// Writes a statement, a line a key.
fn write_statement(
    alloc: Global,
    program: &Program,
    statement: &Statement,
    text: &mut String,
) -> Result<(), Memory>
    ensures { OnOk result (string_bytes text.new ≡ string_bytes text.old
        ++ statement_text (spelling_of program.now) (plain_statement statement.now)) }
{
    write_requests(alloc, statement.request.as_slice(), text)?;
    write_priority(alloc, statement.priority, text)?;
    write_stated(alloc, program, "waitFor", &statement.wait_for, text)?;
    write_stated(alloc, program, "block", &statement.block, text)?;
    write_stated(alloc, program, "interrupt", &statement.interrupt, text)
}

/// Writes where a b-thread stands after the text: its name, the line of its stop, and what it states
/// there.
#[tactic(auto, unfolding(crate::specs::Standing::standing_text))]
pub(crate) fn write_standing(
    alloc: Global,
    program: &Program,
    name: &Text,
    line: u32,
    statement: &Statement,
    text: &mut String,
) -> Result<(), Memory>
    ensures { OnOk result (string_bytes text.new ≡ string_bytes text.old
        ++ standing_text (spelling_of program.now)
        (record {
          name = name.now;
          line = line;
          statement = plain_statement statement.now;
        })) }
{
    let name = quoted(alloc, name)?;
    let name = name.as_str();
    let head = format!(in alloc; "b-thread {name} at line {line}\n")?;
    text.push_str(head.as_str())?;
    write_statement(alloc, program, statement, text)
}
