//! How a run ends, in words.
ghost use Rattle.std.specs.Prelude.{◌≡◌, IfOk};
ghost use Rattle.bp_log.specs.Texts.{place_text};
ghost use Rattle.bp_explain.specs.Seeds.{kind_text};

use bp_log::{Memory, Place, Verdict};
use bp_replay::verdict_text_of;
use js_data::Text;
use js_json::quoted;
use std::alloc::Global;

/// How a run ends.
#[derive(Drop)]
pub(crate) struct End {
    /// Its verdict.
    pub(crate) verdict: Verdict,
    /// Whether some b-thread still stands.
    pub(crate) alive: bool,
}

/// The text of these words.
fn text_of(alloc: Global, words: &str) -> Result<Text, Memory>
    ensures { IfOk result (λ t. t ≡ words.now) }
{
    Ok(Text::new(words.to_string(alloc)?))
}

/// The text of a place.
fn place_text_of(alloc: Global, place: &Place) -> Result<Text, Memory>
    ensures { IfOk result (λ t. t ≡ place_text place.now) }
{
    match place {
        Place::Top => text_of(alloc, "top"),
        Place::Thread(name) => quoted(alloc, name),
    }
}

impl End {
    /// Its kind, in words.
    pub(crate) fn kind(&self, alloc: Global) -> Result<Text, Memory>
        ensures { IfOk result (λ t. t ≡ kind_text self.now.alive self.now.verdict) }
    {
        match &self.verdict {
            Verdict::Quiet(_) => {
                if self.alive {
                    text_of(alloc, "quiet, some stand")
                } else {
                    text_of(alloc, "quiet, all ended")
                }
            }
            Verdict::Violated(place, _) => {
                let place = place_text_of(alloc, place)?;
                let place = place.as_str();
                Ok(Text::new(format!(in alloc; "violated {place}")?))
            }
            Verdict::Steps(_) => text_of(alloc, "limit steps"),
            verdict => verdict_text_of(alloc, verdict),
        }
    }
}
