//! What a machine stands on.
ghost use Rattle.std.specs.Prelude.{◌≡◌};
ghost use Rattle.js_program.specs.Sound.{IsSound};
ghost use Rattle.js_meaning.specs.Bodies.{bare};
ghost use Rattle.js_frames.specs.Places.{plain_ground};

use crate::slots::Constants;
use js_ops::Rules;
use js_program::Program;
use std::alloc::Global;

/// A program, the values of its constants, and the table of the rules of its operators.
pub struct Ground {
    program: Program,
    constants: Constants,
    rules: Rules,
}

impl Drop for Ground {
    fn drop(self) {
        let Ground {
            program: _,
            constants: _,
            rules: _,
        } = self;
    }
}

impl Ground {
    /// The program before its top level has run: without constants.
    pub fn bare(alloc: Global, program: Program) -> Ground
        ensures { plain_ground result ≡ bare program }
    {
        Ground {
            program,
            constants: Constants::new(alloc),
            rules: Rules::new(),
        }
    }

    /// The constants are these.
    pub fn fill(&mut self, constants: Constants)
        ensures { plain_ground self.new ≡ record (plain_ground self.old) { constants = constants } }
    {
        self.constants = constants;
    }

    /// The program.
    pub fn program(&self) -> &Program
        ensures { result.now ≡ self.now.program }
    {
        &self.program
    }

    /// What its program keeps, as a fact for its callers. Does nothing.
    pub(crate) fn keeps(&self)
        ensures { IsSound self.now.program }
    {
        // For the proof: what the program keeps.
        self.program.keeps();
    }

    /// The constants.
    pub(crate) fn constants(&self) -> &Constants
        ensures { result.now ≡ self.now.constants }
    {
        &self.constants
    }

    /// The table of the rules, which each operator is lent.
    pub(crate) fn rules(&self) -> &Rules
        ensures { result.now ≡ self.now.rules }
    {
        &self.rules
    }
}
