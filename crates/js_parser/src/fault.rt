//! Why tokens are refused.
use thiserror::Error;

/// Why no tree is made of tokens.
#[derive(Clone, Copy, Debug, Error)]
pub enum ParseFault {
    /// A token that the language refuses; the line of the first.
    #[error("an unsupported token, on line {0}")]
    Unsupported(u32),
    /// The tokens spell no tree of nesting at most `MOST_NESTING`; a line of the text.
    #[error("no tree, on line {0}")]
    NoTree(u32),
    /// Out of memory.
    #[error("out of memory")]
    Memory,
}
