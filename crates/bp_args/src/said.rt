//! What the words of a command say, word by word.
ghost use Rattle.std.specs.Prelude.{◌≡◌, Some, None, IfOk, IsErrOf, OnErr, option_map};
ghost use Rattle.bp_args.specs.Verbs.{allows};
ghost use Rattle.bp_args.specs.Said.{is_name as word_is_name, number_word, key_of as key_named, once as said_once, some_text, set as with_value, name as with_name, option_in, parts_at, free_word as with_free, step, nothing_said, is_said as said_is, only, is_whole as whole};
ghost use Rattle.bp_reading.specs.Words.{most_32};

use crate::command::Usage;
use crate::key::{DASHES, Key};
use crate::values::{Words, text_of};
use crate::verb::Verb;
use bp_log::options::wait_of_word;
use bp_log::{Memory, Strategy};
use bp_reader::behind_word;
use js_data::Text;
use std::alloc::Global;

/// The most digits of a number.
pub(crate) const MOST_DIGITS: usize = 20;

/// What the next word may be.
#[derive(Clone, Copy)]
pub(crate) enum Waiting {
    /// A name, an option or `--`.
    Any,
    /// The value of this option.
    Value(Key),
    /// A name, whatever it begins with.
    Name,
}

/// What the words said so far.
pub(crate) struct Said {
    /// What the next word may be.
    pub(crate) waiting: Waiting,
    /// The names: words that are not options.
    pub(crate) names: Words,
    /// The name of the log.
    pub(crate) log: Option<Text>,
    /// The strategy.
    pub(crate) strategy: Option<Strategy>,
    /// The seed.
    pub(crate) seed: Option<u64>,
    /// The budget.
    pub(crate) budget: Option<u64>,
    /// The limit of steps.
    pub(crate) steps: Option<u32>,
    /// The number of workers.
    pub(crate) workers: Option<u32>,
    /// The nodes of a slice.
    pub(crate) slice: Option<u64>,
    /// Whether the run waits for its injectors.
    pub(crate) wait: Option<bool>,
}

impl Drop for Said {
    fn drop(self) {
        let Said {
            waiting: _,
            names: _,
            log: _,
            strategy: _,
            seed: _,
            budget: _,
            steps: _,
            workers: _,
            slice: _,
            wait: _,
        } = self;
    }
}

/// Whether it is `-` or doesn't begin with `-`.
fn is_name(word: &[u8]) -> bool
    ensures { result ≡ word_is_name word.now }
{
    match word {
        [] | [_] => true,
        [first, ..] => *first != b'-',
    }
}

/// The option that a word is, with its two hyphens and without a value.
fn key_of(word: &[u8]) -> Option<Key>
    ensures { result ≡ key_named word.now }
{
    Key::of_name(behind_word(DASHES.as_bytes(), word)?)
}

/// The number of 1 to `MOST_DIGITS` digits, at most `most`.
pub(crate) fn number_of(word: &str, most: u64) -> Option<u64>
    ensures { result ≡ number_word most word.now }
{
    let digits = word.as_bytes();
    if digits.is_empty() {
        return None;
    }
    if digits.len() > MOST_DIGITS {
        return None;
    }
    if digits[0] == b'+' {
        return None;
    }
    let Ok(number) = word.parse::<u64>() else {
        return None;
    };
    if number > most {
        return None;
    }
    Some(number)
}

/// The number of this many digits, of 32 bits.
fn small_number_of(word: &str) -> Option<u32>
    ensures { result ≡ number_word most_32 word.now }
{
    let number = number_of(word, u64::from(u32::MAX))?;
    Some(number as u32)
}

/// What stands before the first `=`, and after it.
fn parts_of(word: &str) -> Option<(&str, &str)>
    ensures { option_map (λ p. (p.0.now, p.1.now)) result ≡ parts_at 61 word.now }
{
    word.split_once('=')
}

/// The text of a word, where it isn't empty.
fn some_text_of(alloc: Global, word: &str) -> Result<Option<Text>, Memory>
    ensures { IfOk result (λ t. t ≡ some_text word.now) }
{
    if word.is_empty() {
        return Ok(None);
    }
    Ok(Some(text_of(alloc, word)?))
}

/// The value is said, and was not said before.
fn once<T: Drop>(said: &mut Option<T>, value: Option<T>) -> Result<(), Usage>
    ensures set { IfOk result (λ _. said_once said.old value ≡ Some said.new) }
    ensures wrong { OnErr result (said_once said.old value ≡ None) }
{
    if said.is_some() || value.is_none() {
        return Err(Usage::Wrong);
    }
    *said = value;
    Ok(())
}

impl Said {
    /// Nothing is said.
    pub(crate) fn new(alloc: Global) -> Said
        ensures { result ≡ nothing_said }
    {
        Said {
            waiting: Waiting::Any,
            names: Words::new(Vec::new(alloc)),
            log: None,
            strategy: None,
            seed: None,
            budget: None,
            steps: None,
            workers: None,
            slice: None,
            wait: None,
        }
    }

    /// Whether no option waits for its value.
    pub(crate) fn is_whole(&self) -> bool
        ensures { result ≡ whole self.now.waiting }
    {
        match self.waiting {
            Waiting::Value(_) => false,
            Waiting::Any | Waiting::Name => true,
        }
    }

    /// Whether the option is said.
    fn is_said(&self, key: Key) -> bool
        ensures { result ≡ said_is self.now key }
    {
        match key {
            Key::Log => self.log.is_some(),
            Key::Strategy => self.strategy.is_some(),
            Key::Seed => self.seed.is_some(),
            Key::Budget => self.budget.is_some(),
            Key::Steps => self.steps.is_some(),
            Key::Workers => self.workers.is_some(),
            Key::Slice => self.slice.is_some(),
            Key::Wait => self.wait.is_some(),
        }
    }

    /// Whether no option is said but those that the first word allows.
    pub(crate) fn only(&self, verb: Verb) -> bool
        ensures { result ≡ only (allows verb) self.now }
    {
        for key in Key::all() {
            if self.is_said(key) && !verb.allows(key) {
                return false;
            }
        }
        true
    }

    /// The names and the name of the log.
    pub(crate) fn into_names(self) -> (Words, Option<Text>)
        ensures { result ≡ (self.names, self.log) }
    {
        let Said {
            waiting: _,
            names,
            log,
            strategy: _,
            seed: _,
            budget: _,
            steps: _,
            workers: _,
            slice: _,
            wait: _,
        } = self;
        (names, log)
    }

    /// The same, with these names.
    pub(crate) fn with_names(mut self, names: Words) -> Said
        ensures { result ≡ record self { names = names } }
    {
        self.names = names;
        self
    }

    /// The word is a name after the others.
    fn name(&mut self, alloc: Global, word: &str) -> Result<(), Memory>
        ensures { IfOk result (λ _. self.new ≡ with_name self.old word.now) }
    {
        self.names.push(text_of(alloc, word)?)
    }

    /// The option gets the value.
    pub(crate) fn set(&mut self, alloc: Global, key: Key, value: &str) -> Result<(), Usage>
        ensures set { IfOk result (λ _. with_value self.old key value.now ≡ Some self.new) }
        ensures wrong { IsErrOf result Usage.Wrong → with_value self.old key value.now ≡ None }
    {
        match key {
            Key::Log => once(&mut self.log, some_text_of(alloc, value)?)?,
            Key::Strategy => once(&mut self.strategy, Strategy::of_name(value.as_bytes()))?,
            Key::Seed => once(&mut self.seed, number_of(value, u64::MAX))?,
            Key::Budget => once(&mut self.budget, number_of(value, u64::MAX))?,
            Key::Steps => once(&mut self.steps, small_number_of(value))?,
            Key::Workers => once(&mut self.workers, small_number_of(value))?,
            Key::Slice => once(&mut self.slice, number_of(value, u64::MAX))?,
            Key::Wait => once(&mut self.wait, wait_of_word(value.as_bytes()))?,
        }
        self.waiting = Waiting::Any;
        Ok(())
    }

    /// The word is an option, which waits for its value or has it after `=`.
    fn option(&mut self, alloc: Global, word: &str) -> Result<(), Usage>
        ensures said { IfOk result
            (λ _. option_in self.old word.now (parts_at 61 word.now) ≡ Some self.new) }
        ensures wrong { IsErrOf result Usage.Wrong
            → option_in self.old word.now (parts_at 61 word.now) ≡ None }
    {
        let Some((before, value)) = parts_of(word) else {
            let Some(key) = key_of(word.as_bytes()) else {
                return Err(Usage::Wrong);
            };
            self.waiting = Waiting::Value(key);
            return Ok(());
        };
        let Some(key) = key_of(before.as_bytes()) else {
            return Err(Usage::Wrong);
        };
        self.set(alloc, key, value)
    }

    /// A word before `--` that is not a value.
    fn free_word(&mut self, alloc: Global, word: &str) -> Result<(), Usage>
        ensures said { IfOk result (λ _. with_free self.old word.now ≡ Some self.new) }
        ensures wrong { IsErrOf result Usage.Wrong → with_free self.old word.now ≡ None }
    {
        if word == DASHES {
            self.waiting = Waiting::Name;
            return Ok(());
        }
        if is_name(word.as_bytes()) {
            self.name(alloc, word)?;
            return Ok(());
        }
        self.option(alloc, word)
    }

    /// What is said with one more word. After a refusal nothing is known of what is said.
    pub(crate) fn step(&mut self, alloc: Global, word: &str) -> Result<(), Usage>
        ensures said { IfOk result (λ _. step self.old word.now ≡ Some self.new) }
        ensures wrong { IsErrOf result Usage.Wrong → step self.old word.now ≡ None }
    {
        match self.waiting {
            Waiting::Any => self.free_word(alloc, word),
            Waiting::Value(key) => {
                if !is_name(word.as_bytes()) {
                    return Err(Usage::Wrong);
                }
                self.set(alloc, key, word)
            }
            Waiting::Name => {
                self.name(alloc, word)?;
                Ok(())
            }
        }
    }
}
