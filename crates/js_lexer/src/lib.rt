//! Tokens: a program's bytes cut into names, words, numbers, text literals and marks.
#![tactic(auto)]

mod bytes;
mod front;
mod gaps;
mod lexer;
mod limits;
mod literals;
mod numbers;
mod sort;
mod spellings;
mod token;

pub use gaps::line_at;
pub use lexer::{lex, one_cutting, tokens_in_order};
pub use limits::MOST_BYTES;
pub use sort::Sort;
pub use token::{Flaw, Kind, LexFault, Token};
