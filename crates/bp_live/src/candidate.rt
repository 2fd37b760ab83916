//! Candidates for being chosen.
ghost use Rattle.std.specs.Prelude.{◌≡◌, ◌++◌, ◌∷◌, [], if◌then◌else◌, OnErr, OnOk};

use bp_log::Memory;
use js_data::Event;

/// A requested event, and the greatest priority with which it is requested.
#[derive(Clone, Copy)]
pub struct Candidate<'a> {
    /// The event.
    pub event: &'a Event,
    /// The priority.
    pub top: i64,
}

/// Keeps the candidate, behind those that are kept, if this holds. Its only error is out of memory,
/// and then nothing has changed.
pub fn keep_if<'a>(
    kept: &mut Vec<Candidate<'a>>,
    keeps: bool,
    candidate: &Candidate<'a>,
) -> Result<(), Memory>
    ensures kept { let more = kept.old.items ++ candidate.now ∷ [] in
        OnOk result (kept.new.items ≡ (if keeps then more else kept.old.items)) }
    ensures err { OnErr result (kept.new.items ≡ kept.old.items) }
{
    if keeps {
        kept.push(*candidate)?;
    }
    Ok(())
}
