//! What trees end in.
ghost use Rattle.std.specs.Prelude.{◌≡◌, map};
ghost use Rattle.js_tree.specs.Views.{plain_expr, plain_declarator};
ghost use Rattle.js_tree.specs.Endings.{ending, update_ending, declarators_ending};

use crate::ending::Ending;
use crate::tree::{Declarator, Expr, Fix, Form};

fn update_ends(fix: Fix) -> Ending
    ensures { result ≡ update_ending fix }
{
    match fix {
        Fix::Before => Ending::Value,
        Fix::After => Ending::Update,
    }
}

/// What an expression ends in.
pub fn ending_of(tree: &Expr) -> Ending
    ensures { result ≡ ending (plain_expr tree.now) }
{
    match &tree.form {
        Form::Unary(_, last) => ending_of(last),
        Form::Update(_, fix, _) => update_ends(*fix),
        Form::Binary(_, _, last) => ending_of(last),
        Form::Conditional(_, _, last) => ending_of(last),
        Form::Assign(_, _, last) => ending_of(last),
        Form::ArrowValue(_, _, last) => ending_of(last),
        Form::ArrowBlock(_, _, _) => Ending::Closed,
        _ => Ending::Value,
    }
}

/// What the last of the declarators ends in.
#[tactic(auto, using(crate::proofs::Rows::map_push_declarator, crate::proofs::Rows::ending_push))]
pub fn ending_of_last(trees: &[Declarator]) -> Ending
    ensures { result ≡ declarators_ending (map plain_declarator trees.now) }
{
    let Some((last, _)) = trees.split_last() else {
        return Ending::Closed;
    };
    match &last.value {
        Some(value) => ending_of(value),
        None => Ending::Closed,
    }
}
