//! What a list in the normal form says.
ghost use Rattle.std.specs.Prelude.{◌≡◌, IfOk, map, option_map, unwrap_or, [], string_bytes};
ghost use Rattle.clap.specs.Words.{found_of, first_value, matched_of, raw_values};
ghost use Rattle.bp_args.specs.Keys.{key_name};
ghost use Rattle.bp_args.specs.inner.NormalWords.{normal_words, IsNormal};

use crate::key::Key;
use crate::reading::{NAMES, matches_of};
use crate::values::{Values, Words, text_of};
use clap::ArgMatches;
use clap::error::ErrorKind;
use js_data::Text;
use std::alloc::{AllocError, Global};

/// The value of the option, where it is said.
fn value_of(alloc: Global, matches: &ArgMatches, key: Key) -> Result<Option<Text>, AllocError>
    ensures { IfOk result (λ o. o ≡ first_value (found_of matches.now) (key_name key)) }
{
    match matches.get_str(key.name()) {
        None => Ok(None),
        Some(value) => Ok(Some(text_of(alloc, value)?)),
    }
}

/// The words that are not options.
fn words_of(alloc: Global, matches: &ArgMatches) -> Result<Words, AllocError>
    ensures { IfOk result (λ w. w
        ≡ unwrap_or (option_map raw_values (matched_of (found_of matches.now) NAMES.now)) []) }
{
    let mut words = Vec::new(alloc);
    let Some(values) = matches.get_raw(NAMES) else {
        return Ok(Words::new(words));
    };
    for word in values {
        words.push(text_of(alloc, word)?)?;
    }
    Ok(Words::new(words))
}

/// The values that a list in the normal form was written from.
pub(crate) fn values_of(alloc: Global, words: &[String]) -> Result<Values, AllocError>
    requires { IsNormal (map string_bytes words.now) }
    ensures { (v : Values) → map string_bytes words.now ≡ normal_words v → IfOk result (λ w. w ≡ v) }
{
    let matches = match matches_of(alloc, words) {
        Ok(matches) => matches,
        Err(error) if error.kind() == ErrorKind::OutOfMemory => return Err(AllocError),
        Err(_) => unreachable!(),
    };
    Ok(Values {
        log: value_of(alloc, &matches, Key::Log)?,
        strategy: value_of(alloc, &matches, Key::Strategy)?,
        seed: value_of(alloc, &matches, Key::Seed)?,
        budget: value_of(alloc, &matches, Key::Budget)?,
        steps: value_of(alloc, &matches, Key::Steps)?,
        workers: value_of(alloc, &matches, Key::Workers)?,
        slice: value_of(alloc, &matches, Key::Slice)?,
        wait: value_of(alloc, &matches, Key::Wait)?,
        words: words_of(alloc, &matches)?,
    })
}
