//! Tokens that the language refuses.
ghost use Rattle.std.specs.Prelude.{◌≡◌, false};
ghost use Rattle.js_grammar.specs.Unsupported.{is_prototype, is_refused, first_unsupported};

use js_cursor::cursor::{begins, is_sort, next};
use js_data::Text;
use js_lexer::{Kind, Sort, Token};

fn is_prototype_key(text: &Text, colon: bool) -> bool
    ensures { result ≡ is_prototype text.now colon }
{
    colon && text.as_str() == "__proto__"
}

fn is_refused_kind(kind: &Kind, unsupported: bool, colon: bool) -> bool
    ensures { result ≡ is_refused kind.now unsupported colon }
{
    match kind {
        Kind::Name(text) => is_prototype_key(text, colon),
        Kind::Text(text) => is_prototype_key(text, colon),
        Kind::Keyword(_) => unsupported && !colon,
        Kind::Mark(_) => unsupported,
        Kind::Number(_) => false,
    }
}

/// The line of the first token that the language refuses.
pub(crate) fn unsupported_line(tokens: &[Token]) -> Option<u32>
    ensures { result ≡ first_unsupported false tokens.now }
{
    let mut rest = tokens;
    let mut dot = false;
    'more: while let Some((token, behind)) = next(rest) {
        let unsupported = is_sort(token, Sort::Unsupported);
        if !dot && is_refused_kind(&token.kind, unsupported, begins(behind, Sort::Colon)) {
            return Some(token.line);
        }
        dot = is_sort(token, Sort::Dot);
        rest = behind;
    }
    None
}
