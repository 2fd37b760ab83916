//! The texts of records and verdicts.
ghost use Rattle.std.specs.Prelude.{◌≡◌, IfOk, string_bytes};
ghost use Rattle.bp_log.specs.Logs.{record_text};
ghost use Rattle.bp_log.specs.Texts.{verdict_text};
ghost use Rattle.bp_replay.specs.Notes.{differing, expected_text};

use bp_log::{Line, Memory, Record, Verdict, line_of};
use js_data::Text;
use js_json::event_text;
use std::alloc::Global;

/// What stands before a verdict in the line that tells it.
const VERDICT: &str = "verdict ";

/// The text of a verdict, which is that of its line after the first word.
pub fn verdict_text_of(alloc: Global, verdict: &Verdict) -> Result<Text, Memory>
    ensures { IfOk result (λ t. t ≡ verdict_text verdict.now) }
{
    let line = line_of(alloc, &Line::Verdict(verdict.copy()?))?;
    match line.as_str().strip_prefix(VERDICT) {
        Some(said) => Ok(Text::new(said.to_string(alloc)?)),
        None => unreachable!(),
    }
}

/// The text of a record, without its line end.
#[tactic(auto, unfolding(bp_log::specs::Logs::record_text))]
pub fn record_text_of(alloc: Global, entry: &Record) -> Result<Text, Memory>
    ensures { IfOk result (λ t. t ≡ record_text entry.now) }
{
    let text = match entry {
        Record::In(injector, event) => {
            let event = event_text(alloc, event)?;
            let event = event.as_str();
            format!(in alloc; "in {injector} {event}")?
        }
        Record::Bad(injector, line) => format!(in alloc; "bad {injector} {line}")?,
        Record::Eof(injector) => format!(in alloc; "eof {injector}")?,
        Record::Sel(event) => {
            let event = event_text(alloc, event)?;
            let event = event.as_str();
            format!(in alloc; "sel {event}")?
        }
        Record::End(verdict) => {
            let verdict = verdict_text_of(alloc, verdict)?;
            let verdict = verdict.as_str();
            format!(in alloc; "end {verdict}")?
        }
    };
    Ok(Text::new(text))
}

/// The text of the record that the run makes, or that it waits.
fn expected_text_of(alloc: Global, expected: &Option<Record>) -> Result<Text, Memory>
    ensures { IfOk result (λ t. t ≡ expected_text expected.now) }
{
    match expected {
        Some(entry) => record_text_of(alloc, entry),
        None => Ok(Text::new("wait".to_string(alloc)?)),
    }
}

/// That the record of this number is not the one that is expected.
pub(crate) fn differing(
    alloc: Global,
    number: u32,
    expected: &Option<Record>,
    found: &Record,
) -> Result<String, Memory>
    ensures { IfOk result (λ s. string_bytes s ≡ differing number expected.now found.now) }
{
    let expected = expected_text_of(alloc, expected)?;
    let found = record_text_of(alloc, found)?;
    let (expected, found) = (expected.as_str(), found.as_str());
    format!(in alloc; "record {number} expected {expected} found {found}")
}
