//! What stands on a floor.
ghost use Rattle.std.specs.Prelude.{◌≡◌, ◌<◌, length, option_map, OnOk};
ghost use Rattle.bp_thread.specs.Views.{plain_statement};
ghost use Rattle.bp_floor.specs.Returns.{IsStated};

use crate::{Desk, Seats, Wave};
use bp_log::{Lines, Memory, Verdict};
use bp_thread::Statement;

/// Where a run stands, and what is to be run there: all of a floor that a call changes. It lacks the
/// invariant of `Floor`, so that a method may break that on the way.
pub(crate) struct Board {
    /// The b-threads.
    pub seats: Seats,
    /// What they state, and the events that wait.
    pub desk: Desk,
    /// How many transitions were made.
    pub transitions: u32,
    /// The weight of the run so far.
    pub weight: u64,
    /// The lines that were not taken yet.
    pub lines: Lines,
    /// The verdict, if there is one.
    pub verdict: Option<Verdict>,
    /// What is to be run.
    pub wave: Wave,
}

impl Drop for Board {
    fn drop(self) {
        let Board {
            seats: _,
            desk: _,
            transitions: _,
            weight: _,
            lines: _,
            verdict: _,
            wave: _,
        } = self;
    }
}

impl Board {
    /// The b-thread of this number states this from now on; with nothing it is not live.
    pub fn restate(&mut self, number: u32, statement: Option<Statement>) -> Result<(), Memory>
        requires { number < length self.old.seats }
        ensures stated { OnOk result
            (IsStated number (option_map plain_statement statement) self.old self.new) }
        ensures seats { self.new.seats ≡ self.old.seats }
        ensures lines { self.new.lines ≡ self.old.lines }
        ensures verdict { self.new.verdict ≡ self.old.verdict }
    {
        let before = self.seats.block_of(number as usize);
        self.desk.place(number, before, statement)
    }
}
