//! A cursor over tokens.
ghost use Rattle.std.specs.Prelude.{◌≡◌, ◌∷◌, ◌≤◌, [], MatchOption, length};
ghost use Rattle.js_grammar.specs.Operators.{step, assign_op};
ghost use Rattle.js_grammar.specs.Tokens.{starts, line_of, lexical};
ghost use Rattle.js_grammar.specs.Sorts.{sort, is, named, numbered, quoted, member_word, key, spot as place};
ghost use Rattle.js_grammar.specs.Reading.{tail};
ghost use Rattle.js_cursor.specs.declared.stop.Stop.TheVariants.{NoTree};
ghost use Rattle.js_cursor.specs.Read.{left};
ghost use Rattle.js_cursor.specs.Passed.{Skips, IsPassed, IsBumped, IsTaken};

use crate::Stop;
use crate::peek::{assign_at, lexical_at, step_at};
use js_data::{Text, Whole};
use js_lexer::{Kind, Sort, Token};
use js_tree::{AssignOp, DeclareKind, Name, Spot, Step};
use std::alloc::Global;

/// The tokens that are left, and what trees are allocated from.
#[derive(Clone, Copy)]
pub struct Cursor<'a> {
    pub alloc: Global,
    pub rest: &'a [Token],
}

/// The first token and those after it.
pub fn next<'a>(tokens: &'a [Token]) -> Option<(&'a Token, &'a [Token])>
    ensures { MatchOption result (tokens.now ≡ []) (λ p. tokens.now ≡ p.0.now ∷ p.1.now) }
{
    match tokens.split_first() {
        Some((token, rest)) => Some((token, rest)),
        None => None,
    }
}

/// What a token is for the grammar.
#[tactic(auto, using(crate::proofs::Using::sort_is))]
pub fn sort_of(token: &Token) -> Sort
    ensures { result ≡ sort token.now }
{
    token.sort
}

/// Whether a token is of the sort.
pub fn is_sort(token: &Token, sort: Sort) -> bool
    ensures { result ≡ is sort token.now }
{
    sort == sort_of(token)
}

/// Whether the list begins with the mark or word.
pub fn begins(tokens: &[Token], sort: Sort) -> bool
    ensures { result ≡ starts sort tokens.now }
{
    match next(tokens) {
        Some((token, _)) => is_sort(token, sort),
        None => false,
    }
}

/// Where a token stands.
pub fn spot_of(token: &Token) -> Spot
    ensures { result ≡ place token.now }
{
    Spot {
        at: token.from,
        line: token.line,
    }
}

impl<'a> Cursor<'a> {
    /// No tree is spelled here.
    pub fn no_tree(&self) -> Stop
        ensures { result ≡ NoTree (length self.now.rest.now) }
    {
        Stop::NoTree(self.rest.len())
    }

    /// The line of the next token, or 0.
    pub fn line(&self) -> u32
        ensures { result ≡ line_of (left self.now) }
    {
        match next(self.rest) {
            Some((token, _)) => token.line,
            None => 0,
        }
    }

    /// Moves past the mark or word, if it stands here.
    pub fn skips(&mut self, sort: Sort) -> bool
        ensures { Skips sort self.old.rest.now self.new.rest.now result }
    {
        match next(self.rest) {
            Some((token, rest)) if is_sort(token, sort) => {
                self.rest = rest;
                true
            }
            _ => false,
        }
    }

    /// Moves past the mark or word.
    pub fn pass(&mut self, sort: Sort) -> Result<(), Stop>
        ensures { IsPassed sort self.old.rest.now self.new.rest.now result }
    {
        if self.skips(sort) {
            Ok(())
        } else {
            Err(self.no_tree())
        }
    }

    /// Moves past the next token, for its place.
    pub fn bump(&mut self) -> Result<Spot, Stop>
        ensures { IsBumped self.old.rest.now self.new.rest.now result }
    {
        let Some((token, rest)) = next(self.rest) else {
            return Err(self.no_tree());
        };
        self.rest = rest;
        Ok(spot_of(token))
    }

    /// Moves past the next token, if there is one.
    pub fn advance(&mut self)
        ensures tail { left self.new ≡ tail (left self.old) }
        ensures shorter { length self.new.rest.now ≤ length self.old.rest.now }
    {
        if let Some((_, rest)) = next(self.rest) {
            self.rest = rest;
        }
    }

    /// Moves past a name.
    #[tactic(auto, using(crate::proofs::Using::named_is))]
    pub fn name(&mut self) -> Result<Name, Stop>
        ensures { IsTaken named self.old.rest.now self.new.rest.now result }
    {
        let Some((token, rest)) = next(self.rest) else {
            return Err(self.no_tree());
        };
        match &token.kind {
            Kind::Name(text) => {
                self.rest = rest;
                Ok(Name {
                    text: text.copy()?,
                    spot: spot_of(token),
                })
            }
            _ => Err(self.no_tree()),
        }
    }

    /// Moves past a number.
    #[tactic(auto, using(crate::proofs::Using::numbered_is))]
    pub fn number(&mut self) -> Result<Whole, Stop>
        ensures { IsTaken numbered self.old.rest.now self.new.rest.now result }
    {
        let Some((token, rest)) = next(self.rest) else {
            return Err(self.no_tree());
        };
        match &token.kind {
            Kind::Number(number) => {
                self.rest = rest;
                Ok(*number)
            }
            _ => Err(self.no_tree()),
        }
    }

    /// Moves past a text literal, for its content.
    #[tactic(auto, using(crate::proofs::Using::quoted_is))]
    pub fn text(&mut self) -> Result<Text, Stop>
        ensures { IsTaken quoted self.old.rest.now self.new.rest.now result }
    {
        let Some((token, rest)) = next(self.rest) else {
            return Err(self.no_tree());
        };
        match &token.kind {
            Kind::Text(text) => {
                self.rest = rest;
                Ok(text.copy()?)
            }
            _ => Err(self.no_tree()),
        }
    }

    /// Moves past a word of any kind.
    #[tactic(auto, using(crate::proofs::Using::member_word_is))]
    pub fn member(&mut self) -> Result<Text, Stop>
        ensures { IsTaken member_word self.old.rest.now self.new.rest.now result }
    {
        let Some((token, rest)) = next(self.rest) else {
            return Err(self.no_tree());
        };
        match &token.kind {
            Kind::Name(text) | Kind::Keyword(text) => {
                self.rest = rest;
                Ok(text.copy()?)
            }
            _ => Err(self.no_tree()),
        }
    }

    /// Moves past the key of a field.
    #[tactic(auto, using(crate::proofs::Using::key_is))]
    pub fn key(&mut self) -> Result<Text, Stop>
        ensures { IsTaken key self.old.rest.now self.new.rest.now result }
    {
        let Some((token, rest)) = next(self.rest) else {
            return Err(self.no_tree());
        };
        match &token.kind {
            Kind::Name(text) | Kind::Keyword(text) | Kind::Text(text) => {
                self.rest = rest;
                Ok(text.copy()?)
            }
            _ => Err(self.no_tree()),
        }
    }

    /// Moves past `++` or `--`.
    pub fn step(&mut self) -> Result<Step, Stop>
        ensures { IsTaken step self.old.rest.now self.new.rest.now result }
    {
        let Some((token, rest)) = next(self.rest) else {
            return Err(self.no_tree());
        };
        let Some(step) = step_at(token) else {
            return Err(self.no_tree());
        };
        self.rest = rest;
        Ok(step)
    }

    /// Moves past the operator of an assignment.
    pub fn assign_op(&mut self) -> Result<AssignOp, Stop>
        ensures { IsTaken assign_op self.old.rest.now self.new.rest.now result }
    {
        let Some((token, rest)) = next(self.rest) else {
            return Err(self.no_tree());
        };
        let Some(operator) = assign_at(token) else {
            return Err(self.no_tree());
        };
        self.rest = rest;
        Ok(operator)
    }

    /// Moves past `const` or `let`.
    pub fn lexical(&mut self) -> Result<DeclareKind, Stop>
        ensures { IsTaken lexical self.old.rest.now self.new.rest.now result }
    {
        let Some((token, rest)) = next(self.rest) else {
            return Err(self.no_tree());
        };
        let Some(kind) = lexical_at(token) else {
            return Err(self.no_tree());
        };
        self.rest = rest;
        Ok(kind)
    }
}
