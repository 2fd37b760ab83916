//! Where a statement ends.
ghost use Rattle.std.specs.Prelude.{◌≡◌, ◌≤◌, length, IfOk};
ghost use Rattle.js_grammar.specs.Ends.{can_continue, ends_return};
ghost use Rattle.js_grammar.specs.Tokens.{end_before};
ghost use Rattle.js_cursor.specs.Passed.{IsOver};

use crate::cursor::{is_sort, next, sort_of};
use crate::{Cursor, Stop};
use js_lexer::{Sort, Token};
use js_tree::Ending;

/// The place after the last token before the rest.
pub fn end_of(tokens: &[Token], rest: &[Token]) -> u32
    ensures { result ≡ end_before tokens.now rest.now }
{
    let last = tokens.len().saturating_sub(rest.len()).saturating_sub(1);
    match tokens.get(last) {
        Some(token) => token.to,
        None => 0,
    }
}

/// Whether a token would go on with what ends so.
fn continues(ending: Ending, sort: Sort) -> bool
    ensures { result ≡ can_continue ending sort }
{
    match (ending, sort) {
        (Ending::Value, Sort::LeftParen) => true,
        (Ending::Value, Sort::LeftBracket) => true,
        (Ending::Value, Sort::Plus) => true,
        (Ending::Value, Sort::Minus) => true,
        (Ending::Update, Sort::Plus) => true,
        (Ending::Update, Sort::Minus) => true,
        _ => false,
    }
}

/// Whether a `return` ends here without a value.
pub fn is_return_end(tokens: &[Token]) -> bool
    ensures { result ≡ ends_return tokens.now }
{
    match next(tokens) {
        Some((token, _)) => token.new_line
            || is_sort(token, Sort::Semicolon)
            || is_sort(token, Sort::RightBrace),
        None => true,
    }
}

impl<'a> Cursor<'a> {
    /// Moves past the end of a statement that ends so.
    pub fn end(&mut self, ends: Ending) -> Result<(), Stop>
        ensures over { IsOver ends self.old.rest.now self.new.rest.now result }
        ensures shorter { IfOk result (λ _. length self.new.rest.now ≤ length self.old.rest.now) }
    {
        let Some((token, rest)) = next(self.rest) else {
            return Ok(());
        };
        if is_sort(token, Sort::Semicolon) {
            self.rest = rest;
            return Ok(());
        }
        if is_sort(token, Sort::RightBrace) || token.new_line && !continues(ends, sort_of(token)) {
            return Ok(());
        }
        Err(self.no_tree())
    }
}
