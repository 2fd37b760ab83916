//! Whole numbers.
ghost use Rattle.std.specs.Prelude.{◌≡◌, MatchOption, false};
ghost use Rattle.js_data.specs.Whole.{is_whole, IsWhole};

use std::alloc::AllocError;
use std::marker::Model;

const GREATEST: i64 = 9_007_199_254_740_991;

/// A whole number from -(2^53-1) to 2^53-1, which contracts see as an integer.
#[derive(Debug)]
pub struct Whole {
    n: i64,
}

impl Model for Whole {
    ghost use Rattle.std.specs.Prelude.{ℤ};
    ghost use Rattle.js_data.specs.Whole.{IsWhole};

    ghost Value = { ℤ };

    ghost view = { λ w. w.n };

    ghost invariant = { λ w. IsWhole w.n };

    ghost inverse = { λ z. record { n = z } };
}

impl Clone for Whole {
    ghost use Rattle.std.specs.Prelude.{◌≡◌, ⊤};

    ghost is_clone = { λ w v. v ≡ w };

    ghost is_infallible = { λ _. ⊤ };

    fn clone(&self) -> Result<Whole, AllocError> {
        Ok(*self)
    }
}

impl Copy for Whole {}

impl Whole {
    /// The whole number n; `None` exactly where n is outside the range.
    pub fn new(n: i64) -> Option<Whole>
        ensures { MatchOption result (is_whole n ≡ false) (λ w. IsWhole n × (w ≡ n)) }
    {
        if n < -GREATEST || n > GREATEST {
            return None;
        }
        Some(Whole { n })
    }

    /// The number.
    pub fn get(self) -> i64
        ensures number { result ≡ self }
        ensures within { IsWhole result }
    {
        self.n
    }
}
