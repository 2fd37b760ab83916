//! The keywords and marks of the language.
ghost use Rattle.std.specs.Prelude.{◌≡◌, ◌++◌, IsTrue};
ghost use Rattle.bp_tables.specs.Found.{have_distinct_keys};
ghost use Rattle.js_lexer.specs.Spellings.{keywords, unsupported_keywords, all_marks};

use crate::sort::Sort;
use bp_tables::{Table, rows};

/// The keywords, each with its sort.
pub(crate) type KeywordTable = Table<Sort, 39>;

/// The marks, each with its sort.
pub(crate) type MarkTable = Table<Sort, 57>;

/// The keywords of the language, and the keywords that it refuses.
pub(crate) fn keyword_table() -> KeywordTable
    ensures rows { result ≡ keywords ++ unsupported_keywords }
    ensures distinct { IsTrue (have_distinct_keys (keywords ++ unsupported_keywords)) }
{
    Table::new(rows![
        b"const" => Sort::Const,
        b"let" => Sort::Let,
        b"var" => Sort::Var,
        b"function" => Sort::Function,
        b"return" => Sort::Return,
        b"if" => Sort::If,
        b"else" => Sort::Else,
        b"while" => Sort::While,
        b"for" => Sort::For,
        b"break" => Sort::Break,
        b"continue" => Sort::Continue,
        b"true" => Sort::True,
        b"false" => Sort::False,
        b"null" => Sort::Null,
        b"switch" => Sort::Unsupported,
        b"case" => Sort::Unsupported,
        b"default" => Sort::Unsupported,
        b"do" => Sort::Unsupported,
        b"try" => Sort::Unsupported,
        b"catch" => Sort::Unsupported,
        b"finally" => Sort::Unsupported,
        b"throw" => Sort::Unsupported,
        b"new" => Sort::Unsupported,
        b"this" => Sort::Unsupported,
        b"class" => Sort::Unsupported,
        b"extends" => Sort::Unsupported,
        b"super" => Sort::Unsupported,
        b"yield" => Sort::Unsupported,
        b"await" => Sort::Unsupported,
        b"import" => Sort::Unsupported,
        b"export" => Sort::Unsupported,
        b"delete" => Sort::Unsupported,
        b"in" => Sort::Unsupported,
        b"instanceof" => Sort::Unsupported,
        b"typeof" => Sort::Unsupported,
        b"void" => Sort::Unsupported,
        b"with" => Sort::Unsupported,
        b"debugger" => Sort::Unsupported,
        b"enum" => Sort::Unsupported,
    ])
}

/// The marks of the language, and the marks that it refuses, the longest first.
pub(crate) fn mark_table() -> MarkTable
    ensures rows { result ≡ all_marks }
    ensures distinct { IsTrue (have_distinct_keys all_marks) }
{
    Table::new(rows![
        b">>>=" => Sort::Unsupported,
        b"===" => Sort::Same,
        b"!==" => Sort::NotSame,
        b">>>" => Sort::Unsupported,
        b"..." => Sort::Unsupported,
        b"<<=" => Sort::Unsupported,
        b">>=" => Sort::Unsupported,
        b"**=" => Sort::Unsupported,
        b"&&=" => Sort::Unsupported,
        b"||=" => Sort::Unsupported,
        b"??=" => Sort::Unsupported,
        b"=>" => Sort::Arrow,
        b"==" => Sort::Equal,
        b"!=" => Sort::NotEqual,
        b"<=" => Sort::LessOrEqual,
        b">=" => Sort::GreaterOrEqual,
        b"&&" => Sort::And,
        b"||" => Sort::Or,
        b"++" => Sort::Increment,
        b"--" => Sort::Decrement,
        b"+=" => Sort::AddSet,
        b"-=" => Sort::SubtractSet,
        b"*=" => Sort::MultiplySet,
        b"/=" => Sort::DivideSet,
        b"%=" => Sort::RemainderSet,
        b"<<" => Sort::Unsupported,
        b">>" => Sort::Unsupported,
        b"**" => Sort::Unsupported,
        b"??" => Sort::Unsupported,
        b"?." => Sort::Unsupported,
        b"&=" => Sort::Unsupported,
        b"|=" => Sort::Unsupported,
        b"^=" => Sort::Unsupported,
        b"{" => Sort::LeftBrace,
        b"}" => Sort::RightBrace,
        b"(" => Sort::LeftParen,
        b")" => Sort::RightParen,
        b"[" => Sort::LeftBracket,
        b"]" => Sort::RightBracket,
        b"." => Sort::Dot,
        b";" => Sort::Semicolon,
        b"," => Sort::Comma,
        b"<" => Sort::Less,
        b">" => Sort::Greater,
        b"+" => Sort::Plus,
        b"-" => Sort::Minus,
        b"*" => Sort::Star,
        b"/" => Sort::Slash,
        b"%" => Sort::Percent,
        b"!" => Sort::Not,
        b"?" => Sort::Question,
        b":" => Sort::Colon,
        b"=" => Sort::Set,
        b"&" => Sort::Unsupported,
        b"|" => Sort::Unsupported,
        b"^" => Sort::Unsupported,
        b"~" => Sort::Unsupported,
    ])
}
