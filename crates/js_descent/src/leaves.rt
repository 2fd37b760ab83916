//! Readers of what has no parts to be read within a room.
ghost use Rattle.std.specs.Prelude.{◌≡◌, ◌<◌, ◌+◌};
ghost use Rattle.js_tree.specs.Views.{plain_expr};
ghost use Rattle.js_tree.specs.Nesting.{nesting};
ghost use Rattle.js_grammar.specs.Reading.{number_at, text_at, use_at, postfix_at, break_at, continue_at};
ghost use Rattle.js_grammar.specs.Expressions.{member_iteration};
ghost use Rattle.js_grammar.specs.Reader.{readers};
ghost use Rattle.js_cursor.specs.Passed.{at_first};
ghost use Rattle.js_cursor.specs.Read.{IsExpr, IsStmt, IsIteration};

use js_cursor::{Answer, Cursor, Found, expr_at, object_depth, stmt_at};
use js_tree::{Ending, Expr, Fix, Form, Stmt, StmtForm};

/// A number.
pub(crate) fn number(cursor: &mut Cursor<'_>) -> Answer<Expr>
    ensures { IsExpr (at_first number_at) 1 cursor.old cursor.new result }
{
    let line = cursor.line();
    let number = cursor.number()?;
    Ok(expr_at(line, Form::Number(number), 1))
}

/// The content of a text literal.
pub(crate) fn text(cursor: &mut Cursor<'_>) -> Answer<Expr>
    ensures { IsExpr (at_first text_at) 1 cursor.old cursor.new result }
{
    let line = cursor.line();
    let text = cursor.text()?;
    Ok(expr_at(line, Form::Text(text), 1))
}

/// A name that is used.
pub(crate) fn used(cursor: &mut Cursor<'_>) -> Answer<Expr>
    ensures { IsExpr (at_first use_at) 1 cursor.old cursor.new result }
{
    let line = cursor.line();
    let name = cursor.name()?;
    Ok(expr_at(line, Form::Use(name), 1))
}

/// `++` or `--` after a name.
#[tactic(auto, using(js_cursor::proofs::Using::held_none))]
pub(crate) fn postfix(cursor: &mut Cursor<'_>) -> Answer<Expr>
    ensures { IsExpr (at_first postfix_at) 1 cursor.old cursor.new result }
{
    let line = cursor.line();
    let name = cursor.name()?;
    let step = cursor.step()?;
    Ok(expr_at(line, Form::Update(step, Fix::After, name), 1))
}

/// A `break`.
pub(crate) fn break_of(cursor: &mut Cursor<'_>) -> Answer<Stmt>
    ensures { IsStmt (at_first break_at) 1 cursor.old cursor.new result }
{
    let spot = cursor.bump()?;
    cursor.end(Ending::Closed)?;
    Ok(stmt_at(spot.line, StmtForm::Break(spot), 1))
}

/// A `continue`.
pub(crate) fn continue_of(cursor: &mut Cursor<'_>) -> Answer<Stmt>
    ensures { IsStmt (at_first continue_at) 1 cursor.old cursor.new result }
{
    let spot = cursor.bump()?;
    cursor.end(Ending::Closed)?;
    Ok(stmt_at(spot.line, StmtForm::Continue(spot), 1))
}

/// A member, after its dot.
#[tactic(auto, using(js_cursor::proofs::Using::held_none))]
pub(crate) fn member(
    cursor: &mut Cursor<'_>,
    line: u32,
    object: Found<Expr>,
    inner: u32,
) -> Answer<Expr>
    requires room { inner < u32.MAX }
    requires measured { object.depth ≡ nesting (plain_expr object.tree) }
    ensures { IsIteration (member_iteration inner (readers inner) line (plain_expr object.tree))
        (inner + 1) cursor.old cursor.new result }
{
    let depth = object_depth(&object);
    if depth > inner {
        return Err(cursor.no_tree());
    }
    let word = cursor.member()?;
    let form = Form::Member(Box::new(cursor.alloc, object.tree)?, word);
    Ok(expr_at(line, form, depth + 1))
}
