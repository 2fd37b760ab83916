//! What a job keeps of the effects of its body.
ghost use Rattle.std.specs.Prelude.{◌≡◌, ◌++◌, OnOk, fold, map, option_map};
ghost use Rattle.js_value.specs.Views.{plain_value};
ghost use Rattle.js_frames.specs.Places.{plain_effect, plain_effects};
ghost use Rattle.bp_meaning.specs.After.{handler_after};

use js_data::Memory;
use js_frames::{Effect, Effects};
use js_value::{Value, copy};

/// The handler becomes the one that was set last among these effects, if one was.
pub(crate) fn set_handler(handler: &mut Option<Value>, effects: &[Effect]) -> Result<(), Memory>
    ensures { OnOk result (option_map plain_value handler.new
        ≡ fold handler_after (option_map plain_value handler.old) (map plain_effect effects.now)) }
{
    for effect in effects {
        if let Effect::Handler(function) = effect {
            *handler = Some(copy(function)?);
        }
    }
    Ok(())
}

/// Moves effects after those that are there.
pub(crate) fn append(effects: &mut Effects, fresh: Effects) -> Result<(), Memory>
    ensures { OnOk result
        (plain_effects effects.new ≡ plain_effects effects.old ++ plain_effects fresh) }
{
    if effects.items.is_empty() {
        *effects = fresh;
        return Ok(());
    }
    for effect in fresh.items {
        effects.push(effect)?;
    }
    Ok(())
}
