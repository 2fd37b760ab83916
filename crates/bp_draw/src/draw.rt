//! The words of the random choice, one after another.
ghost use Rattle.std.specs.Prelude.{◌≡◌, ◌<◌, ◌+◌, ◌^◌};
ghost use Rattle.bp_draw.specs.Words.{draw_word};

use crate::word_of;
use std::marker::Model;

/// The words that are drawn for a seed. Contracts see the seed, and how many words were drawn.
#[derive(Drop)]
pub struct Draw {
    seed: u64,
    drawn: u64,
}

impl Model for Draw {
    ghost use Rattle.bp_draw.specs.Draws.{PlainDraw};

    ghost Value = { PlainDraw };

    ghost view = { λ d. record { seed = d.seed; drawn = d.drawn } };
}

impl Draw {
    /// The words of this seed; none is drawn yet.
    pub fn new(seed: u64) -> Draw
        ensures { result ≡ record { seed = seed; drawn = 0 } }
    {
        Draw { seed, drawn: 0 }
    }

    /// How many words were drawn.
    pub fn drawn(&self) -> u64
        ensures { result ≡ self.now.drawn }
    {
        self.drawn
    }

    /// The word that is drawn next. It stays the next until [`Draw::advance`] is called.
    pub fn word(&self) -> u32
        ensures { result ≡ draw_word self.now.seed self.now.drawn }
    {
        word_of(self.seed, self.drawn)
    }

    /// The next word is drawn: the one behind it is the next. At most 2^64 - 1 words are drawn.
    pub fn advance(&mut self)
        requires { self.old.drawn + 1 < 2 ^ 64 }
        ensures { self.new ≡ record { seed = self.old.seed; drawn = self.old.drawn + 1 } }
    {
        self.drawn += 1;
    }
}
