//! Sets of events in words.
ghost use Rattle.std.specs.Prelude.{◌≡◌, ◌++◌, false, OnOk, string_bytes};
ghost use Rattle.js_data.specs.JsonText.{event_text as text_of_event};
ghost use Rattle.js_value.specs.Views.{set_list_of};
ghost use Rattle.bp_explain.specs.Sets.{line_in, set_words, list_words, predicate_words, two_words};

use js_data::{Event, Memory, Text};
use js_json::{event_text, quoted};
use js_program::Program;
use js_value::{EventSet, SetTree};
use std::alloc::Global;

/// The line on which a function begins; 0 where no function has this number.
fn line_of(program: &Program, code: u32) -> u32
    ensures { result ≡ line_in program.now code }
{
    if code < program.functions() {
        program.line(code)
    } else {
        0
    }
}

/// Writes the name of a predicate, and the line of its function.
fn write_predicate(alloc: Global, name: &Text, line: u32, text: &mut String) -> Result<(), Memory>
    ensures { OnOk result (string_bytes text.new
        ≡ string_bytes text.old ++ predicate_words name.now line) }
{
    let name = quoted(alloc, name)?;
    let name = name.as_str();
    let words = format!(in alloc; "{name} of line {line}")?;
    text.push_str(words.as_str())
}

/// Writes the text of an event.
pub(crate) fn write_event(alloc: Global, event: &Event, text: &mut String) -> Result<(), Memory>
    ensures { OnOk result (string_bytes text.new
        ≡ string_bytes text.old ++ text_of_event event.now) }
{
    let words = event_text(alloc, event)?;
    text.push_str(words.as_str())
}

/// Writes two sets with a word between, in brackets.
#[cycle(words)]
fn write_two(
    alloc: Global,
    program: &Program,
    a: &EventSet,
    word: &str,
    b: &EventSet,
    text: &mut String,
) -> Result<(), Memory>
    ensures { let words = set_words (line_in program.now) in OnOk result (string_bytes text.new
        ≡ string_bytes text.old ++ two_words word.now (words a.now) (words b.now)) }
{
    text.push_str("(")?;
    write_set(alloc, program, a, text)?;
    text.push_str(word)?;
    write_set(alloc, program, b, text)?;
    text.push_str(")")
}

/// Writes a set in words after the text: an event as its text, a list in brackets, a predicate by
/// its name and the line of its function.
#[cycle(words)]
pub(crate) fn write_set(
    alloc: Global,
    program: &Program,
    set: &EventSet,
    text: &mut String,
) -> Result<(), Memory>
    ensures { OnOk result (string_bytes text.new
        ≡ string_bytes text.old ++ set_words (line_in program.now) set.now) }
{
    match set.tree() {
        SetTree::Only(event) => write_event(alloc, event, text),
        SetTree::Any(sets) => {
            text.push_str("[")?;
            write_sets(alloc, program, sets, text)
        }
        SetTree::All => text.push_str("all"),
        SetTree::Nothing => text.push_str("none"),
        SetTree::Or(a, b) => write_two(alloc, program, a, " or ", b, text),
        SetTree::And(a, b) => write_two(alloc, program, a, " and ", b, text),
        SetTree::Xor(a, b) => write_two(alloc, program, a, " xor ", b, text),
        SetTree::Negate(a) => {
            text.push_str("not ")?;
            write_set(alloc, program, a, text)
        }
        SetTree::Predicate { name, code, .. } => {
            write_predicate(alloc, name, line_of(program, *code), text)
        }
    }
}

/// Writes sets with commas between, and the closing bracket.
#[cycle(words)]
fn write_sets(
    alloc: Global,
    program: &Program,
    sets: &[EventSet],
    text: &mut String,
) -> Result<(), Memory>
    ensures { OnOk result (string_bytes text.new ≡ string_bytes text.old
        ++ list_words (line_in program.now) false (set_list_of sets.now)) }
{
    let mut later = false;
    for set in sets {
        if later {
            text.push_str(", ")?;
        }
        write_set(alloc, program, set, text)?;
        later = true;
    }
    text.push_str("]")
}
