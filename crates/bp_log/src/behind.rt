//! Quoted texts, events, places and verdicts, put after a text.
ghost use Rattle.std.specs.Prelude.{◌≡◌, ◌++◌, ◌∷◌, [], ◌↔◌, All, IsTrue, OnOk, decimal, codes, string_bytes};
ghost use Rattle.js_data.specs.JsonText.{quoted_text, event_text};
ghost use Rattle.bp_log.specs.Texts.{place_text, verdict_text};
ghost use Rattle.bp_log.specs.inner.Plain.{StandsAsItIs};

use crate::data::push_data;
use crate::limits::{MOST_THREADS, MOST_WAITING, MOST_WEIGHT};
use crate::{Memory, Place, Verdict};
use js_data::{Event, Text};
use js_json::quoted;
use std::alloc::Global;

/// Whether each byte stands in a JSON text as it is.
fn is_plain(text: &str) -> bool
    ensures { IsTrue result ↔ All StandsAsItIs text.now }
{
    text.as_bytes()
        .iter()
        .all(|b| *b >= 32 && *b != b'"' && *b != b'\\')
}

/// Appends the text as it is, in quotation marks.
fn push_between(text: &str, out: &mut String) -> Result<(), Memory>
    ensures { OnOk result (string_bytes out.new ≡ string_bytes out.old ++ 34 ∷ (text.now ++ 34 ∷ [])) }
{
    out.push_str("\"")?;
    out.push_str(text)?;
    out.push_str("\"")
}

/// Appends the text, in quotation marks and with its escapes.
pub(crate) fn push_quoted(alloc: Global, text: &Text, out: &mut String) -> Result<(), Memory>
    ensures { OnOk result (string_bytes out.new ≡ string_bytes out.old ++ quoted_text text.now) }
{
    let plain = text.as_str();
    if !is_plain(plain) {
        return out.push_str(quoted(alloc, text)?.as_str());
    }
    push_between(plain, out)
}

/// Appends the word and the quoted text.
pub(crate) fn push_named(
    alloc: Global,
    word: &str,
    name: &Text,
    out: &mut String,
) -> Result<(), Memory>
    ensures { OnOk result (string_bytes out.new
        ≡ string_bytes out.old ++ (word.now ++ quoted_text name.now)) }
{
    out.push_str(word)?;
    push_quoted(alloc, name, out)
}

/// Appends the event.
pub(crate) fn push_event(alloc: Global, event: &Event, out: &mut String) -> Result<(), Memory>
    ensures { OnOk result (string_bytes out.new ≡ string_bytes out.old ++ event_text event.now) }
{
    out.push_str("[")?;
    push_quoted(alloc, event.name(), out)?;
    if let Some(data) = event.data() {
        out.push_str(",")?;
        push_data(alloc, data, out)?;
    }
    out.push_str("]")
}

/// Appends the place.
pub(crate) fn push_place(alloc: Global, place: &Place, out: &mut String) -> Result<(), Memory>
    ensures { OnOk result (string_bytes out.new ≡ string_bytes out.old ++ place_text place.now) }
{
    match place {
        Place::Top => out.push_str("top"),
        Place::Thread(name) => push_quoted(alloc, name, out),
    }
}

/// Appends a place and a text.
pub(crate) fn push_said(
    alloc: Global,
    place: &Place,
    said: &Text,
    out: &mut String,
) -> Result<(), Memory>
    ensures { OnOk result (string_bytes out.new
        ≡ string_bytes out.old ++ (place_text place.now ++ (codes " " ++ quoted_text said.now))) }
{
    push_place(alloc, place, out)?;
    out.push_str(" ")?;
    push_quoted(alloc, said, out)
}

/// Appends a fault: its place, its line and its name.
fn push_fault(
    alloc: Global,
    place: &Place,
    line: u32,
    name: &str,
    out: &mut String,
) -> Result<(), Memory>
    ensures { OnOk result (string_bytes out.new
        ≡ string_bytes out.old
        ++ (place_text place.now ++ (codes " " ++ (decimal line ++ (codes " " ++ name.now))))) }
{
    push_place(alloc, place, out)?;
    write!(out, " {line} {name}")
}

/// Appends two numbers.
pub(crate) fn push_numbers(first: u32, second: u32, out: &mut String) -> Result<(), Memory>
    ensures { OnOk result (string_bytes out.new
        ≡ string_bytes out.old ++ (decimal first ++ (codes " " ++ decimal second))) }
{
    write!(out, "{first} {second}")
}

/// Appends the word and the number.
pub(crate) fn push_counted(word: &str, number: u64, out: &mut String) -> Result<(), Memory>
    ensures { OnOk result (string_bytes out.new
        ≡ string_bytes out.old ++ (word.now ++ decimal number)) }
{
    write!(out, "{word}{number}")
}

/// Appends the verdict.
pub(crate) fn push_verdict(alloc: Global, verdict: &Verdict, out: &mut String) -> Result<(), Memory>
    ensures { OnOk result (string_bytes out.new ≡ string_bytes out.old ++ verdict_text verdict.now) }
{
    match verdict {
        Verdict::Quiet(made) => push_counted("quiet ", u64::from(*made), out),
        Verdict::Violated(place, said) => {
            out.push_str("violated ")?;
            push_said(alloc, place, said, out)
        }
        Verdict::Fault(place, line, fault) => {
            out.push_str("fault ")?;
            push_fault(alloc, place, *line, fault.name(), out)
        }
        Verdict::Spent(place) => {
            out.push_str("spent ")?;
            push_place(alloc, place, out)
        }
        Verdict::Steps(made) => push_counted("limit steps ", u64::from(*made), out),
        Verdict::Queue => push_counted("limit queue ", u64::from(MOST_WAITING), out),
        Verdict::Threads => push_counted("limit bthreads ", u64::from(MOST_THREADS), out),
        Verdict::Weight => push_counted("limit weight ", MOST_WEIGHT, out),
        Verdict::Bad(injector, line) => {
            out.push_str("bad ")?;
            push_numbers(*injector, *line, out)
        }
    }
}
