//! A program's bytes cut into tokens.
ghost use Rattle.std.specs.Prelude.{◌≡◌, ◌≤◌, ◌<◌, ◌+◌, ◌^◌, IfOk, IfErr, ◌||◌, nat_lt, length};
ghost use Rattle.std.specs.Str.{IsUtf8};
ghost use Rattle.js_lexer.specs.declared.limits.TheConstants.{MOST_BYTES};
ghost use Rattle.js_lexer.specs.Cut.{Cut};
ghost use Rattle.js_lexer.specs.Spellings.{all_keywords, all_marks};
ghost use Rattle.js_lexer.specs.Lexed.{IsRefusal, fault_of};
ghost use Rattle.js_lexer.specs.inner.Steps.{IsStep, StopFits, fault_of_stop};
ghost use Rattle.js_lexer.specs.Laws.{OneCutting, OneRefusal, NeverBoth, CutOrRefused, TokensInOrder, LongestMark};

use crate::front::{front_at, rest_of};
use crate::gaps::line_ends_in;
use crate::spellings::{KeywordTable, MarkTable, keyword_table, mark_table};
use crate::token::{Flaw, Found, LexFault, Stop, Token};
use std::alloc::Global;

/// The refusal of a flaw at a byte's place.
fn fault_at(flaw: Flaw, place: usize) -> LexFault
    requires { place < 2 ^ 32 }
    ensures { result ≡ fault_of flaw place }
{
    let place = place as u32;
    match flaw {
        Flaw::Character => LexFault::Character(place),
        Flaw::OpenText => LexFault::OpenText(place),
        Flaw::Escape => LexFault::Escape(place),
        Flaw::NumberRange => LexFault::NumberRange(place),
        Flaw::Unsupported => LexFault::Unsupported(place),
    }
}

/// The tokens of a program's bytes.
///
/// # Errors
///
/// `Utf8` exactly where the bytes are not UTF-8. Each other refusal, apart from lack of memory, exactly
/// where the first place that is not a token is refused so.
pub fn lex(alloc: Global, bytes: &[u8]) -> Result<Vec<Token>, LexFault>
    requires { length bytes.now ≤ MOST_BYTES }
    ensures utf8 { IfOk result (λ _. IsUtf8 bytes.now) }
    ensures tokens { IfOk result (λ tokens. Cut bytes.now tokens.items) }
    ensures refused { IfErr result (IsRefusal bytes.now) }
{
    match str::from_utf8(bytes) {
        Ok(text) => lex_text(alloc, text),
        Err(error) => Err(LexFault::Utf8(error.valid_up_to() as u32)),
    }
}

/// The refusal that a stop at a place is.
fn stopped(stop: Stop, place: usize) -> LexFault
    requires { StopFits place stop }
    ensures { result ≡ fault_of_stop place stop }
{
    match stop {
        Stop::Refused(flaw, size) => fault_at(flaw, place + size),
        Stop::Memory => LexFault::Memory,
    }
}

fn step_at(
    alloc: Global,
    keywords: &KeywordTable,
    marks: &MarkTable,
    text: &str,
    place: usize,
) -> Result<Found, Stop>
    requires keywords { keywords.now ≡ all_keywords }
    requires marks { marks.now ≡ all_marks }
    requires size { length text.now ≤ MOST_BYTES }
    requires place { place < length text.now }
    ensures { IsStep text.now place result }
{
    front_at(alloc, keywords, marks, text, place)
}

fn is_broken(new_line: bool, ends: u32) -> bool
    ensures { result ≡ (new_line || nat_lt 0 ends) }
{
    new_line || ends > 0
}

#[tactic(auto, using(crate::proofs::Cutting::so_far_start, crate::proofs::Cutting::so_far_end))]
fn lex_text(alloc: Global, text: &str) -> Result<Vec<Token>, LexFault>
    requires { length text.now ≤ MOST_BYTES }
    ensures tokens { IfOk result (λ tokens. Cut text.now tokens.items) }
    ensures refused { IfErr result (IsRefusal text.now) }
{
    let keywords = keyword_table();
    let marks = mark_table();
    let mut tokens = Vec::new(alloc);
    let mut place: usize = 0;
    let mut line: u32 = 1;
    let mut new_line = true;
    'more: while place < text.len() {
        match step_at(alloc, &keywords, &marks, text, place) {
            Ok(Found::Gap(size)) => {
                let ends = line_ends_in(rest_of(text, place), size);
                new_line = is_broken(new_line, ends);
                line += ends;
                place += size;
            }
            Ok(Found::Token(kind, sort, size)) => {
                let ends = line_ends_in(rest_of(text, place), size);
                let (from, to) = (place as u32, (place + size) as u32);
                tokens.push(Token {
                    kind,
                    sort,
                    from,
                    to,
                    line,
                    new_line,
                })?;
                new_line = false;
                line += ends;
                place += size;
            }
            Err(stop) => return Err(stopped(stop, place)),
        }
    }
    Ok(tokens)
}

/// Laws of cutting: at most one list of tokens is a cutting of a text, a text is refused for at most one
/// flaw at one place, and each text is either cut or refused, never both.
pub fn one_cutting(bytes: &[u8])
    ensures tokens { OneCutting bytes.now }
    ensures refusal { OneRefusal bytes.now }
    ensures never_both { NeverBoth bytes.now }
    ensures cut_or_refused { CutOrRefused bytes.now }
{}

/// Laws of tokens: they stand in order, each at its line, and names, words and marks are their bytes; and
/// no mark with which a text begins is longer than the one that is read.
pub fn tokens_in_order(bytes: &[u8])
    ensures order { TokensInOrder bytes.now }
    ensures longest { LongestMark bytes.now }
{}
