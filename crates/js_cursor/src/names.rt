//! The parameters of functions.
ghost use Rattle.js_grammar.specs.Reading.{params, header, opening, arrow_after as then_arrow};
ghost use Rattle.js_cursor.specs.Read.{IsGiven};

use crate::peek::begins_arrow;
use crate::{Cursor, Stop};
use js_lexer::Sort;
use js_tree::Name;

impl<'a> Cursor<'a> {
    /// Names separated by commas, and `)`.
    #[tactic(auto, using(crate::proofs::Loops::params_iteration, crate::proofs::Loops::next_param_none))]
    fn parameters(&mut self) -> Result<Vec<Name>, Stop>
        ensures { IsGiven (λ names. names.items) params self.old self.new result }
    {
        let mut names = Vec::new(self.alloc);
        'more: loop {
            if self.skips(Sort::RightParen) {
                return Ok(names);
            }
            names.push(self.name()?)?;
            if self.skips(Sort::RightParen) {
                return Ok(names);
            }
            self.pass(Sort::Comma)?;
        }
    }

    /// `=>` after the parameters.
    #[tactic(auto, using(crate::proofs::Loops::no_arrow))]
    fn arrow_after(&mut self, names: Vec<Name>) -> Result<Vec<Name>, Stop>
        ensures { IsGiven (λ xs. xs.items) (then_arrow names.items) self.old self.new result }
    {
        if !begins_arrow(self.rest) {
            return Err(self.no_tree());
        }
        self.pass(Sort::Arrow)?;
        Ok(names)
    }

    /// The parameters of an arrow function, and `=>`.
    #[tactic(auto, using(crate::proofs::Loops::header_paren, crate::proofs::Loops::header_name, crate::proofs::Loops::header_none))]
    pub fn arrow_header(&mut self) -> Result<Vec<Name>, Stop>
        ensures { IsGiven (λ names. names.items) header self.old self.new result }
    {
        if self.skips(Sort::LeftParen) {
            let names = self.parameters()?;
            return self.arrow_after(names);
        }
        let mut names = Vec::new(self.alloc);
        names.push(self.name()?)?;
        self.arrow_after(names)
    }

    /// The parameters of a function, and `{`.
    #[tactic(auto, using(crate::proofs::Using::after_none))]
    pub fn opening(&mut self) -> Result<Vec<Name>, Stop>
        ensures { IsGiven (λ names. names.items) opening self.old self.new result }
    {
        self.pass(Sort::LeftParen)?;
        let names = self.parameters()?;
        self.pass(Sort::LeftBrace)?;
        Ok(names)
    }
}
