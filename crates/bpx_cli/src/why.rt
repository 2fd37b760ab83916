//! Requests for why an event was selected, and for who asks for one.
ghost use Rattle.std.specs.Prelude.{◌≡◌, Some, None, map, string_bytes, IfOk, IsErrOf};
ghost use Rattle.bpx_cli.specs.WhyAsked.{selection_at, subject_at, why_asked};

use crate::state::{last_apart, log_of};
use bp_args::Usage;
use bp_explain::Subject;
use bp_reader::number_of;
use js_data::Text;
use js_json::{EventError, event_of};
use std::alloc::Global;

/// Why an event of a log was selected, or who requests and who blocks one where it ends.
#[derive(Drop)]
pub struct Why {
    /// The name of the log.
    pub log: Text,
    /// What is asked about.
    pub subject: Subject,
}

/// The selection of the number that the word is, counted from 1.
fn selection_of(word: &str) -> Option<Subject>
    ensures { result ≡ selection_at word.now }
{
    let number = number_of(word.as_bytes(), u64::from(u32::MAX))?;
    if number == 0 {
        return None;
    }
    Some(Subject::Selection(number as u32))
}

/// What the word asks about.
fn subject_of(alloc: Global, word: &str) -> Result<Subject, Usage>
    ensures subject { IfOk result (λ s. subject_at word.now ≡ Some s) }
    ensures wrong { IsErrOf result Usage.Wrong → subject_at word.now ≡ None }
{
    if let Some(selection) = selection_of(word) {
        return Ok(selection);
    }
    match event_of(alloc, word.as_bytes()) {
        Ok(event) => Ok(Subject::Event(event)),
        Err(EventError::NotEvent) => Err(Usage::Wrong),
        Err(EventError::Memory) => Err(Usage::Memory),
    }
}

/// The log and what is asked about it, as the words say it.
pub(crate) fn why_asked(alloc: Global, words: &[String]) -> Result<Why, Usage>
    ensures why { IfOk result (λ w. why_asked (map string_bytes words.now) ≡ Some w) }
    ensures wrong { IsErrOf result Usage.Wrong → why_asked (map string_bytes words.now) ≡ None }
{
    let Some((front, last)) = last_apart(words) else {
        return Err(Usage::Wrong);
    };
    let log = log_of(alloc, front)?;
    let subject = subject_of(alloc, last)?;
    Ok(Why { log, subject })
}
