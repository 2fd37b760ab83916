//! What is asked of a run.
ghost use Rattle.std.specs.Prelude.{◌≡◌, Option, SomeIff, true};
ghost use Rattle.bp_log.specs.Logs.{strategy_name, strategy_at, wait_name, wait_at};
ghost use Rattle.bp_log.specs.Options.{PlainOptions, AreOptions, default_options};

use crate::limits::{MOST_BUDGET, MOST_INJECTORS, MOST_STEPS};
use std::alloc::AllocError;
use std::marker::Model;

/// How one of several selectable events is chosen.
#[derive(Clone, Copy)]
pub enum Strategy {
    /// Among all of them.
    Simple,
    /// Among the first such event of each b-thread.
    Ordered,
    /// Among those that are requested with the greatest priority.
    Priority,
}

impl Strategy {
    /// The name of the strategy.
    pub fn name(self) -> &'static str
        ensures { result.now ≡ strategy_name self }
    {
        match self {
            Strategy::Simple => "simple",
            Strategy::Ordered => "ordered",
            Strategy::Priority => "priority",
        }
    }

    /// The strategy of this name, or `None` exactly where none has it.
    pub fn of_name(name: &[u8]) -> Option<Strategy>
        ensures { result ≡ strategy_at name.now }
    {
        if name == b"simple".as_slice() {
            return Some(Strategy::Simple);
        }
        if name == b"ordered".as_slice() {
            return Some(Strategy::Ordered);
        }
        if name == b"priority".as_slice() {
            return Some(Strategy::Priority);
        }
        None
    }
}

/// The word that says whether a run waits.
pub fn wait_word(wait: bool) -> &'static str
    ensures { result.now ≡ wait_name wait }
{
    if wait { "yes" } else { "no" }
}

/// Whether a run waits, by its word, or `None` exactly where the word says neither.
pub fn wait_of_word(word: &[u8]) -> Option<bool>
    ensures { result ≡ wait_at word.now }
{
    if word == b"yes".as_slice() {
        return Some(true);
    }
    if word == b"no".as_slice() {
        return Some(false);
    }
    None
}

/// What is asked of a run. Contracts see it as the record of its six parts.
///
/// Its type keeps that the budget is 1 to 1,000,000,000, the steps are 1 to 1,000,000, and the
/// injectors are at most 16.
pub struct Options {
    strategy: Strategy,
    seed: u64,
    budget: u64,
    steps: u32,
    injectors: u32,
    wait: bool,
}

impl Model for Options {
    ghost use Rattle.bp_log.specs.Options.{PlainOptions, AreOptions};

    ghost Value = { PlainOptions };

    ghost view = { λ o. record {
      strategy = o.strategy;
      seed = o.seed;
      budget = o.budget;
      steps = o.steps;
      injectors = o.injectors;
      wait = o.wait;
    } };

    ghost invariant = { λ o. AreOptions (record {
      strategy = o.strategy;
      seed = o.seed;
      budget = o.budget;
      steps = o.steps;
      injectors = o.injectors;
      wait = o.wait;
    }) };

    ghost inverse = { λ p. record {
      strategy = p.strategy;
      seed = p.seed;
      budget = p.budget;
      steps = p.steps;
      injectors = p.injectors;
      wait = p.wait;
    } };
}

impl Clone for Options {
    ghost use Rattle.std.specs.Prelude.{◌≡◌, ⊤};

    ghost is_clone = { λ a b. b ≡ a };

    ghost is_infallible = { λ _. ⊤ };

    fn clone(&self) -> Result<Options, AllocError> {
        Ok(*self)
    }
}

impl Copy for Options {}

impl Options {
    /// These options, of a run that waits for its injectors, or `None` exactly where a number is out
    /// of its range.
    pub fn new(
        strategy: Strategy,
        seed: u64,
        budget: u64,
        steps: u32,
        injectors: u32,
    ) -> Option<Options>
        ensures { let plain : PlainOptions = record {
          strategy = strategy;
          seed = seed;
          budget = budget;
          steps = steps;
          injectors = injectors;
          wait = true;
        } in
            SomeIff result (AreOptions plain) plain }
    {
        let budget_fits = 1 <= budget && budget <= MOST_BUDGET;
        let steps_fit = 1 <= steps && steps <= MOST_STEPS;
        if !budget_fits || !steps_fit || injectors > MOST_INJECTORS {
            return None;
        }
        Some(Options {
            strategy,
            seed,
            budget,
            steps,
            injectors,
            wait: true,
        })
    }

    /// The strategy `simple`, seed 0, a budget of 1,000,000, 100,000 steps and no injector, and
    /// the run waits.
    pub fn defaults() -> Options
        ensures { result ≡ default_options }
    {
        Options {
            strategy: Strategy::Simple,
            seed: 0,
            budget: 1_000_000,
            steps: 100_000,
            injectors: 0,
            wait: true,
        }
    }

    /// How one of several selectable events is chosen.
    pub fn strategy(&self) -> Strategy
        ensures { result ≡ self.now.strategy }
    {
        self.strategy
    }

    /// The seed of the random choice.
    pub fn seed(&self) -> u64
        ensures { result ≡ self.now.seed }
    {
        self.seed
    }

    /// How many nodes a b-thread may begin between two synchronisation points.
    pub fn budget(&self) -> u64
        ensures budget { result ≡ self.now.budget }
        ensures within { AreOptions self.now }
    {
        self.budget
    }

    /// How many transitions the run may make.
    pub fn steps(&self) -> u32
        ensures steps { result ≡ self.now.steps }
        ensures within { AreOptions self.now }
    {
        self.steps
    }

    /// How many injectors there are.
    pub fn injectors(&self) -> u32
        ensures injectors { result ≡ self.now.injectors }
        ensures within { AreOptions self.now }
    {
        self.injectors
    }

    /// Whether the run waits for its injectors where nothing is selectable.
    pub fn wait(&self) -> bool
        ensures { result ≡ self.now.wait }
    {
        self.wait
    }

    /// The same options, of a run that waits for its injectors or does not.
    pub fn with_wait(self, wait: bool) -> Options
        ensures { result ≡ record self { wait = wait } }
    {
        Options { wait, ..self }
    }
}
