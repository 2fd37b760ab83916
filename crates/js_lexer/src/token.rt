//! Tokens and refusals.
ghost use Rattle.std.specs.Prelude.{◌≡◌};
ghost use Rattle.js_lexer.specs.Sorts.{kind_sort};

use crate::sort::Sort;
use js_data::{Text, Whole};
use std::alloc::{AllocError, AllocFailed};
use thiserror::Error;

/// What a token is.
pub enum Kind {
    /// A name that is no word.
    Name(Text),
    /// A word of the language, or one that it refuses.
    Keyword(Text),
    /// A number.
    Number(Whole),
    /// The content of a text literal.
    Text(Text),
    /// A mark, also one that the language refuses.
    Mark(Text),
}

// It is let go by one call, written out: so a function that lets a token go has one thing to show for it,
// and not one for each kind.
impl Drop for Kind {
    fn drop(self) {
        match self {
            Kind::Name(_) => {}
            Kind::Keyword(_) => {}
            Kind::Number(_) => {}
            Kind::Text(_) => {}
            Kind::Mark(_) => {}
        }
    }
}

/// A token, with the bytes from `from` to before `to`, at its line from 1.
#[derive(Drop)]
pub struct Token {
    /// What it is.
    pub kind: Kind,
    /// What it is for the grammar.
    pub sort: Sort,
    /// The place of its first byte.
    pub from: u32,
    /// The place after its last byte.
    pub to: u32,
    /// The line of its first byte, from 1.
    pub line: u32,
    /// Whether a line end stands between it and the token before it, or it is the first token.
    pub new_line: bool,
    ghost sorted: { sort ≡ kind_sort kind },
}

/// Why bytes are not cut into tokens, with a byte's place.
#[derive(Debug, Clone, Copy, Error)]
pub enum LexFault {
    /// A character that begins no token, or follows a number.
    #[error("a character that is no token, at byte {0}")]
    Character(u32),
    /// A text literal or a comment that is not closed; its first byte.
    #[error("an unclosed text or comment, at byte {0}")]
    OpenText(u32),
    /// A wrong escape; its backslash.
    #[error("a wrong escape, at byte {0}")]
    Escape(u32),
    /// A number above the greatest; its first byte.
    #[error("a number out of range, at byte {0}")]
    NumberRange(u32),
    /// A token that the language leaves out; its first byte.
    #[error("an unsupported token, at byte {0}")]
    Unsupported(u32),
    /// The bytes are not UTF-8; the first byte that is no part of it.
    #[error("no UTF-8, at byte {0}")]
    Utf8(u32),
    /// Out of memory.
    #[error("out of memory")]
    Memory,
}

/// Why no token stands in front, apart from its place.
#[derive(Clone, Copy)]
pub enum Flaw {
    /// A character that begins no token, or follows a number.
    Character,
    /// A text literal or a comment that is not closed.
    OpenText,
    /// A wrong escape.
    Escape,
    /// A number above the greatest.
    NumberRange,
    /// A token that the language leaves out.
    Unsupported,
}

/// What stands in front, before the text's end.
#[derive(Drop)]
pub(crate) enum Found {
    /// White space, a line end or a comment, of this many bytes.
    Gap(usize),
    /// A token with its sort, of this many bytes.
    Token(Kind, Sort, usize),
}

/// Why no token is answered: what is wrong and how many bytes on, or out of memory.
#[derive(Clone, Copy)]
pub(crate) enum Stop {
    /// A flaw this many bytes on.
    Refused(Flaw, usize),
    /// Out of memory.
    Memory,
}

impl From<AllocError> for Stop {
    ghost use Rattle.std.specs.Prelude.{◌≡◌};
    ghost use Rattle.js_lexer.specs.declared.token.Stop.TheVariants.{Memory};

    ghost from_gives = { λ _ e. e ≡ Memory };

    fn from(_refused: AllocError) -> Stop {
        Stop::Memory
    }
}

impl From<AllocError> for LexFault {
    ghost use Rattle.std.specs.Prelude.{◌≡◌};
    ghost use Rattle.js_lexer.specs.declared.token.LexFault.TheVariants.{Memory};

    ghost from_gives = { λ _ e. e ≡ Memory };

    fn from(_refused: AllocError) -> LexFault {
        LexFault::Memory
    }
}

impl<T: Drop> From<AllocFailed<T>> for LexFault {
    ghost use Rattle.std.specs.Prelude.{◌≡◌};
    ghost use Rattle.js_lexer.specs.declared.token.LexFault.TheVariants.{Memory};

    ghost from_gives = { λ _ e. e ≡ Memory };

    fn from(_refused: AllocFailed<T>) -> LexFault {
        LexFault::Memory
    }
}
