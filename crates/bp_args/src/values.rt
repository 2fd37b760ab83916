//! The values that words say, and the words in the normal form.
ghost use Rattle.std.specs.Prelude.{◌≡◌, [], ◌∷◌, ◌++◌, IfOk, map, option_map, string_bytes};
ghost use Rattle.bp_args.specs.inner.NormalWords.{value_in, option_word, option_words, all_options, normal_words};
ghost use Rattle.bp_args.specs.Keys.{keys};

use crate::key::{DASHES, Key};
use js_data::Text;
use std::alloc::{AllocError, Global};
use std::marker::Model;

/// The text of a word.
pub(crate) fn text_of(alloc: Global, word: &str) -> Result<Text, AllocError>
    ensures { IfOk result (λ t. t ≡ word.now) }
{
    Ok(Text::new(String::from_str(alloc, word)?))
}

/// Words, in order. Contracts see them as the list of their texts.
#[derive(Drop)]
pub struct Words {
    items: Vec<Text>,
}

impl Model for Words {
    ghost use Rattle.std.specs.Prelude.{ℕ, List};

    ghost Value = { List (List ℕ) };

    ghost view = { λ w. w.items.items };
}

impl Words {
    /// These words.
    pub fn new(items: Vec<Text>) -> Words
        ensures { result ≡ items.items }
    {
        Words { items }
    }

    /// The words, in order.
    pub fn as_slice(&self) -> &[Text]
        ensures { result.now ≡ self.now }
    {
        self.items.as_slice()
    }

    /// The words, given back.
    pub fn into_vec(self) -> Vec<Text>
        ensures { result.items ≡ self }
    {
        self.items
    }

    /// One more word after them.
    pub fn push(&mut self, word: Text) -> Result<(), AllocError>
        ensures { IfOk result (λ _. self.new ≡ self.old ++ word ∷ []) }
    {
        self.items.push(word)?;
        Ok(())
    }
}

/// The value of each option, where it is said, and the words that are not options.
pub(crate) struct Values {
    /// The name of the log.
    pub(crate) log: Option<Text>,
    /// The strategy.
    pub(crate) strategy: Option<Text>,
    /// The seed.
    pub(crate) seed: Option<Text>,
    /// The budget.
    pub(crate) budget: Option<Text>,
    /// The limit of steps.
    pub(crate) steps: Option<Text>,
    /// The number of workers.
    pub(crate) workers: Option<Text>,
    /// The nodes of a slice.
    pub(crate) slice: Option<Text>,
    /// Whether the run waits for its injectors.
    pub(crate) wait: Option<Text>,
    /// The words that are not options, in order.
    pub(crate) words: Words,
}

impl Drop for Values {
    fn drop(self) {
        let Values {
            log: _,
            strategy: _,
            seed: _,
            budget: _,
            steps: _,
            workers: _,
            slice: _,
            wait: _,
            words: _,
        } = self;
    }
}

/// The word of an option with its value.
fn option_word(alloc: Global, key: Key, value: &Text) -> Result<String, AllocError>
    ensures { IfOk result (λ s. string_bytes s ≡ option_word key value.now) }
{
    format!(in alloc; "{DASHES}{}={}", key.name(), value.as_str())
}

impl Values {
    /// The value of this option, where it is said.
    pub(crate) fn value(&self, key: Key) -> Option<&Text>
        ensures { option_map (λ t. t.now) result ≡ value_in self.now key }
    {
        match key {
            Key::Log => self.log.as_ref(),
            Key::Strategy => self.strategy.as_ref(),
            Key::Seed => self.seed.as_ref(),
            Key::Budget => self.budget.as_ref(),
            Key::Steps => self.steps.as_ref(),
            Key::Workers => self.workers.as_ref(),
            Key::Slice => self.slice.as_ref(),
            Key::Wait => self.wait.as_ref(),
        }
    }

    /// The words that are not options.
    pub(crate) fn into_words(self) -> Words
        ensures { result ≡ self.words }
    {
        let Values {
            log: _,
            strategy: _,
            seed: _,
            budget: _,
            steps: _,
            workers: _,
            slice: _,
            wait: _,
            words,
        } = self;
        words
    }

    /// The word of each option that is said.
    fn option_words(&self, alloc: Global) -> Result<Vec<String>, AllocError>
        ensures { IfOk result (λ v. map string_bytes v.items ≡ all_options self.now keys) }
    {
        let mut words = Vec::new(alloc);
        for key in Key::all() {
            if let Some(value) = self.value(key) {
                words.push(option_word(alloc, key, value)?)?;
            }
        }
        Ok(words)
    }

    /// The words in the normal form: each option that is said as `--x=v`, then `--`, then the
    /// words that are not options.
    pub(crate) fn normal_words(&self, alloc: Global) -> Result<Vec<String>, AllocError>
        ensures { IfOk result (λ v. map string_bytes v.items ≡ normal_words self.now) }
    {
        let mut words = self.option_words(alloc)?;
        words.push(String::from_str(alloc, DASHES)?)?;
        for word in self.words.as_slice() {
            words.push(String::from_str(alloc, word.as_str())?)?;
        }
        Ok(words)
    }
}
