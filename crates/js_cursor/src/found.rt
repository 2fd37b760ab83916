//! What a reader finds: a tree and its nesting.
ghost use Rattle.std.specs.Prelude.{◌≡◌, ◌<◌, ◌+◌, max, IfOk, IfErr};
ghost use Rattle.js_tree.specs.Plain as p;
ghost use Rattle.js_tree.specs.Plain.{at, on};
ghost use Rattle.js_tree.specs.Views.{plain_expr, plain_form, plain_stmt, plain_stmt_form};
ghost use Rattle.js_tree.specs.Nesting.{one_less_if, is_object_name, is_member};
ghost use Rattle.js_cursor.specs.declared.stop.Stop.TheVariants.{Memory};

use crate::Stop;
use js_tree::{Expr, Form, Operator, Stmt, StmtForm, is_member, is_object_name};
use std::alloc::Global;

/// A tree and its nesting.
#[derive(Drop)]
pub struct Found<T> {
    pub tree: T,
    pub depth: u32,
}

/// What a reader answers.
pub type Answer<T> = Result<Found<T>, Stop>;

/// An expression without parentheses.
pub fn expr_at(line: u32, form: Form, depth: u32) -> Found<Expr>
    ensures tree { plain_expr result.tree ≡ at 0 line (plain_form form) }
    ensures depth { result.depth ≡ depth }
{
    let parens = 0;
    let tree = Expr { parens, line, form };
    Found { tree, depth }
}

/// A statement.
pub fn stmt_at(line: u32, form: StmtForm, depth: u32) -> Found<Stmt>
    ensures tree { plain_stmt result.tree ≡ on line (plain_stmt_form form) }
    ensures depth { result.depth ≡ depth }
{
    let tree = Stmt { line, form };
    Found { tree, depth }
}

/// A binary operator and its operands.
pub fn binary(
    alloc: Global,
    line: u32,
    operator: Operator,
    left: Found<Expr>,
    right: Found<Expr>,
) -> Answer<Expr>
    requires left { left.depth < u32.MAX }
    requires right { right.depth < u32.MAX }
    ensures tree { IfOk result (λ found. plain_expr found.tree ≡
        at 0 line (p.binary operator (plain_expr left.tree) (plain_expr right.tree))) }
    ensures depth { IfOk result (λ found. found.depth ≡ max left.depth right.depth + 1) }
    ensures memory { IfErr result (λ e. e ≡ Memory) }
{
    let depth = left.depth.max(right.depth) + 1;
    let form = Form::Binary(
        operator,
        Box::new(alloc, left.tree)?,
        Box::new(alloc, right.tree)?,
    );
    Ok(expr_at(line, form, depth))
}

fn less(last: bool, depth: u32) -> u32
    ensures { result ≡ one_less_if last depth }
{
    if last { depth.saturating_sub(1) } else { depth }
}

/// How deep the parts of a member of this are.
pub fn object_depth(found: &Found<Expr>) -> u32
    ensures { result ≡ one_less_if (is_object_name (plain_expr found.now.tree)) found.now.depth }
{
    less(is_object_name(&found.tree), found.depth)
}

/// How deep this is where it is called.
pub fn callee_depth(found: &Found<Expr>) -> u32
    ensures { result ≡ one_less_if (is_member (plain_expr found.now.tree)) found.now.depth }
{
    less(is_member(&found.tree), found.depth)
}
