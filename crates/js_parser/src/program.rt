//! Trees of programs.
ghost use Rattle.std.specs.Prelude.{◌≡◌, false, IfOk, IfErr, None};
ghost use Rattle.js_tree.specs.Views.{plain_item, plain_tree};
ghost use Rattle.js_grammar.specs.Trees.{IsTree, IsLineIn};
ghost use Rattle.js_grammar.specs.Unsupported.{first_unsupported};
ghost use Rattle.js_cursor.specs.Passed.{at_first};
ghost use Rattle.js_cursor.specs.Read.{IsGiven};
ghost use Rattle.js_parser.specs.Parse.{next_item, next_function, IsItems, IsParseFault, IsFault};

use crate::fault::ParseFault;
use crate::refused::unsupported_line;
use js_cursor::cursor::{is_sort, next, spot_of};
use js_cursor::{Cursor, Stop};
use js_descent::{closed, statement};
use js_lexer::{Sort, Token};
use js_tree::{Item, MOST_NESTING, Tree};
use std::alloc::Global;

/// A function declaration.
#[tactic(auto, using(js_cursor::proofs::Using::held_none))]
fn function(cursor: &mut Cursor<'_>) -> Result<Item, Stop>
    ensures { IsGiven plain_item (at_first next_function) cursor.old cursor.new result }
{
    let spot = cursor.bump()?;
    let name = cursor.name()?;
    let names = cursor.opening()?;
    let found = closed(cursor, MOST_NESTING - 1)?;
    Ok(Item::Function(spot, name, names, found.tree))
}

/// What the program lists next.
#[tactic(auto, using(crate::proofs::Programs::item_function, crate::proofs::Programs::item_statement))]
fn item(cursor: &mut Cursor<'_>) -> Result<Item, Stop>
    ensures { IsGiven plain_item next_item cursor.old cursor.new result }
{
    let Some((token, _)) = next(cursor.rest) else {
        return Err(cursor.no_tree());
    };
    if is_sort(token, Sort::Function) {
        return function(cursor);
    }
    let spot = spot_of(token);
    let found = statement(cursor, MOST_NESTING)?;
    Ok(Item::Statement(spot, found.tree))
}

/// All that the program lists.
#[tactic(auto, using(crate::proofs::Programs::items_iteration, crate::proofs::Programs::map_push_item))]
fn tree_of(alloc: Global, rest: &[Token]) -> Result<Tree, Stop>
    ensures { IsItems rest.now result }
{
    let mut cursor = Cursor { alloc, rest };
    let mut items = Vec::new(alloc);
    'more: while let Some(_) = next(cursor.rest) {
        items.push(item(&mut cursor)?)?;
    }
    Ok(Tree { items })
}

/// The line of the last token.
fn last_line(tokens: &[Token]) -> u32
    ensures { IsLineIn tokens.now result }
{
    match tokens.last() {
        Some(token) => token.line,
        None => 1,
    }
}

/// The line of the token where this many are left, or that of the last.
fn line_where(tokens: &[Token], left: usize) -> u32
    ensures { IsLineIn tokens.now result }
{
    match tokens.get(tokens.len().saturating_sub(left)) {
        Some(token) => token.line,
        None => last_line(tokens),
    }
}

fn fault_of(stop: Stop, tokens: &[Token]) -> ParseFault
    ensures { IsFault tokens.now stop result }
{
    match stop {
        Stop::NoTree(left) => ParseFault::NoTree(line_where(tokens, left)),
        Stop::Memory => ParseFault::Memory,
    }
}

/// The tree that tokens spell with nesting at most `MOST_NESTING`.
///
/// # Errors
///
/// `Unsupported` exactly where a token stands that the language refuses, with the line of the first.
/// `NoTree`, with a line of the text, exactly where none stands and the tokens spell no such tree.
#[tactic(auto, using(crate::proofs::Programs::tree_found, crate::proofs::Programs::tree_missed))]
pub fn parse(alloc: Global, tokens: &[Token]) -> Result<Tree, ParseFault>
    ensures supported { IfOk result (λ tree. first_unsupported false tokens.now ≡ None) }
    ensures tree { IfOk result (λ tree. IsTree MOST_NESTING tokens.now (plain_tree tree)) }
    ensures refused { IfErr result (IsParseFault tokens.now) }
{
    if let Some(line) = unsupported_line(tokens) {
        return Err(ParseFault::Unsupported(line));
    }
    match tree_of(alloc, tokens) {
        Ok(tree) => Ok(tree),
        Err(stop) => Err(fault_of(stop, tokens)),
    }
}
