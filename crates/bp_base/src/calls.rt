//! Calls that are made to fail.
ghost use Rattle.std.specs.Prelude.{◌≡◌};
ghost use Rattle.bp_base.specs.inner.Calls.{planned, is_to_fail, called};

use std::marker::Model;

/// How many calls were made, and the numbers of those that will fail. Calls are numbered from 1.
#[derive(Drop)]
pub struct Calls {
    made: u64,
    fails: Vec<u64>,
}

impl Model for Calls {
    ghost use Rattle.bp_base.specs.inner.Calls.{Plan};

    ghost Value = { Plan };

    ghost view = { λ c. record { made = c.made; fails = c.fails.items } };
}

impl Calls {
    pub fn new(fails: Vec<u64>) -> Calls
        ensures { result ≡ planned fails.items }
    {
        Calls { made: 0, fails }
    }

    /// Counts one more call, and says whether it fails.
    pub fn count(&mut self) -> bool
        ensures counted { self.new ≡ called self.old }
        ensures failing { result ≡ is_to_fail self.old }
    {
        self.made = self.made.saturating_add(1);
        self.fails.contains(&self.made)
    }
}
