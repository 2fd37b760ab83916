//! The readers of forms. `room` is the nesting that a form may have, `inner` that of its parts.
ghost use Rattle.std.specs.Prelude.{◌≡◌, ◌<◌, ◌≤◌, ◌+◌, map, option_map};
ghost use Rattle.js_tree.specs.Plain.{exprs_of, fields_of, declarators_of, stmts_of};
ghost use Rattle.js_tree.specs.Views.{plain_expr, plain_field, plain_declarator, plain_start, plain_stmt, perhaps as perhaps_tree};
ghost use Rattle.js_tree.specs.Nesting.{nesting, deepest, deepest_field, deepest_declarator, perhaps_nesting, start_nesting, deepest_stmt};
ghost use Rattle.js_grammar.specs.Grammar.{Assignment, Operators};
ghost use Rattle.js_grammar.specs.Reading.{run};
ghost use Rattle.js_grammar.specs.Expressions.{operated_step, round_at, function_at, assign_at as assign_read, primary as primary_read, elements as elements_read, field_at, fields as fields_read, declarator as declarator_read, declarators_of_kind, statements as statements_read, closed_statements, called as called_read, index_iteration, call_iteration, signed as signed_read, operators as operators_read, choice as choice_read, arrow as arrow_read};
ghost use Rattle.js_grammar.specs.Statements.{body_at, test as test_read, declaration_at, if_at, while_at, start as start_read, perhaps as perhaps_read, for_three_at, for_of_at, for_at, return_at, expression_at};
ghost use Rattle.js_grammar.specs.Reader.{readers};
ghost use Rattle.js_cursor.specs.Passed.{at_first};
ghost use Rattle.js_cursor.specs.Read.{IsRead, IsExpr, IsStmt, IsIteration};

use crate::leaves::{break_of, continue_of, member, number, postfix, text, used};
use js_cursor::cursor::{begins, is_sort, next, sort_of, spot_of};
use js_cursor::ends::{end_of, is_return_end};
use js_cursor::peek::{
    begins_assign, begins_end, begins_for_of, begins_function, begins_lexical, begins_update,
    declares_at, is_constant, operator_in, sign_at, step_at,
};
use js_cursor::{Answer, Cursor, Found, binary, callee_depth, expr_at, stmt_at};
use js_lexer::Sort;
use js_tree::{
    Declarator, DeclareKind, Ending, Expr, Field, Fix, Form, Start, Stmt, StmtForm, ending_of,
    ending_of_last,
};

/// An expression.
#[cycle(descent)]
#[tactic(auto, using(crate::proofs::Using::no_room, crate::proofs::Using::arrow_in, crate::proofs::Using::assign_in, crate::proofs::Using::choice_in))]
fn assignment(cursor: &mut Cursor<'_>, room: u32) -> Answer<Expr>
    ensures { IsExpr ((readers room).expr Assignment) room cursor.old cursor.new result }
{
    if room == 0 {
        return Err(cursor.no_tree());
    }
    if begins_function(cursor.rest) {
        arrow(cursor, room - 1)
    } else if begins_assign(cursor.rest) {
        assign(cursor, room - 1)
    } else {
        choice(cursor, room - 1)
    }
}

/// An operand.
#[cycle(descent)]
#[tactic(auto, using(crate::proofs::Using::no_room, crate::proofs::Using::operators_in))]
fn operand(cursor: &mut Cursor<'_>, level: u8, room: u32) -> Answer<Expr>
    requires { level ≤ 6 }
    ensures { IsExpr ((readers room).expr (Operators level)) room cursor.old cursor.new result }
{
    if room == 0 {
        return Err(cursor.no_tree());
    }
    operators(cursor, level, room - 1)
}

/// An arrow function.
#[cycle(descent)]
#[tactic(auto, using(crate::proofs::Using::body_value))]
fn arrow(cursor: &mut Cursor<'_>, inner: u32) -> Answer<Expr>
    requires { inner < u32.MAX }
    ensures { IsExpr (at_first (arrow_read inner (readers inner))) (inner + 1)
        cursor.old cursor.new result }
{
    let Some((token, _)) = next(cursor.rest) else {
        return Err(cursor.no_tree());
    };
    let spot = spot_of(token);
    let names = cursor.arrow_header()?;
    if cursor.skips(Sort::LeftBrace) {
        let found = closed(cursor, inner)?;
        let form = Form::ArrowBlock(spot, names, found.tree);
        return Ok(expr_at(spot.line, form, found.depth + 1));
    }
    let found = assignment(cursor, inner)?;
    let form = Form::ArrowValue(spot, names, Box::new(cursor.alloc, found.tree)?);
    Ok(expr_at(spot.line, form, found.depth + 1))
}

/// An assignment to a name.
#[cycle(descent)]
#[tactic(auto, using(js_cursor::proofs::Using::held_none))]
fn assign(cursor: &mut Cursor<'_>, inner: u32) -> Answer<Expr>
    requires { inner < u32.MAX }
    ensures { IsExpr (at_first (assign_read inner (readers inner))) (inner + 1)
        cursor.old cursor.new result }
{
    let line = cursor.line();
    let name = cursor.name()?;
    let operator = cursor.assign_op()?;
    let found = assignment(cursor, inner)?;
    let form = Form::Assign(operator, name, Box::new(cursor.alloc, found.tree)?);
    Ok(expr_at(line, form, found.depth + 1))
}

/// A test and two branches, or the test alone.
#[cycle(descent)]
#[tactic(auto, using(js_cursor::proofs::Using::after_none, js_grammar::proofs::Complete::choice_alone))]
fn choice(cursor: &mut Cursor<'_>, inner: u32) -> Answer<Expr>
    requires { inner < u32.MAX }
    ensures { IsExpr (choice_read inner (readers inner)) (inner + 1) cursor.old cursor.new result }
{
    let line = cursor.line();
    let test = operators(cursor, 6, inner)?;
    if !cursor.skips(Sort::Question) {
        return Ok(test);
    }
    if test.depth > inner {
        return Err(cursor.no_tree());
    }
    let first = assignment(cursor, inner)?;
    cursor.pass(Sort::Colon)?;
    let second = assignment(cursor, inner)?;
    let depth = test.depth.max(first.depth.max(second.depth)) + 1;
    let form = Form::Conditional(
        Box::new(cursor.alloc, test.tree)?,
        Box::new(cursor.alloc, first.tree)?,
        Box::new(cursor.alloc, second.tree)?,
    );
    Ok(expr_at(line, form, depth))
}

/// Operands with operators tighter than the level between them.
#[cycle(descent)]
#[tactic(auto, using(crate::proofs::Using::operators_next, crate::proofs::Chains::operators_stopped))]
fn operators(cursor: &mut Cursor<'_>, level: u8, inner: u32) -> Answer<Expr>
    requires room { inner < u32.MAX }
    requires level { level ≤ 6 }
    ensures { IsExpr (operators_read inner (readers inner) level) (inner + 1)
        cursor.old cursor.new result }
{
    let line = cursor.line();
    let mut left = signed(cursor, inner)?;
    'tighter: for tight in 0..level {
        left = chain(cursor, line, tight, left, inner)?;
    }
    Ok(left)
}

/// This many operators of the level with their operands, after the first, to the left.
#[cycle(descent)]
#[tactic(auto, using(js_cursor::proofs::Loops::operated_iteration, crate::proofs::Chains::chain_deep, crate::proofs::Chains::chain_more, crate::proofs::Chains::chain_broken))]
fn chain(
    cursor: &mut Cursor<'_>,
    line: u32,
    level: u8,
    first: Found<Expr>,
    inner: u32,
) -> Answer<Expr>
    requires room { inner < u32.MAX }
    requires level { level < 6 }
    requires measured { first.depth ≡ nesting (plain_expr first.tree) }
    requires within { first.depth ≤ inner + 1 }
    ensures { IsRead plain_expr nesting
        (run (operated_step inner (readers inner) line level) (plain_expr first.tree)) (inner + 1) 0
        cursor.old cursor.new result }
{
    let mut left = first;
    'more: loop {
        let Some((token, rest)) = next(cursor.rest) else {
            return Ok(left);
        };
        let Some(operator) = operator_in(level, token) else {
            return Ok(left);
        };
        if left.depth > inner {
            return Err(cursor.no_tree());
        }
        cursor.rest = rest;
        let right = operand(cursor, level, inner)?;
        left = binary(cursor.alloc, line, operator, left, right)?;
    }
}

/// A unary operator and its operand; `++` or `--` and a name; or what has none of these in front.
#[cycle(descent)]
#[tactic(auto, using(js_cursor::proofs::Using::held_none))]
fn signed(cursor: &mut Cursor<'_>, inner: u32) -> Answer<Expr>
    requires { inner < u32.MAX }
    ensures { IsExpr (signed_read inner (readers inner)) (inner + 1) cursor.old cursor.new result }
{
    let Some((token, rest)) = next(cursor.rest) else {
        return Err(cursor.no_tree());
    };
    let line = token.line;
    if let Some(sign) = sign_at(token) {
        cursor.rest = rest;
        let found = operand(cursor, 0, inner)?;
        let form = Form::Unary(sign, Box::new(cursor.alloc, found.tree)?);
        return Ok(expr_at(line, form, found.depth + 1));
    }
    if let Some(step) = step_at(token) {
        cursor.rest = rest;
        let name = cursor.name()?;
        return Ok(expr_at(line, Form::Update(step, Fix::Before, name), 1));
    }
    if begins_update(cursor.rest) {
        return postfix(cursor);
    }
    called(cursor, inner)
}

/// A primary, and this many of `.word`, `[ expression ]` and `( arguments )`.
#[cycle(descent)]
#[tactic(auto, using(js_cursor::proofs::Loops::called_iteration))]
fn called(cursor: &mut Cursor<'_>, inner: u32) -> Answer<Expr>
    requires { inner < u32.MAX }
    ensures { IsExpr (called_read inner (readers inner)) (inner + 1) cursor.old cursor.new result }
{
    let line = cursor.line();
    let mut left = primary(cursor, inner)?;
    'more: loop {
        let Some((token, rest)) = next(cursor.rest) else {
            return Ok(left);
        };
        left = match sort_of(token) {
            Sort::Dot => {
                cursor.rest = rest;
                member(cursor, line, left, inner)?
            }
            Sort::LeftBracket => {
                cursor.rest = rest;
                index(cursor, line, left, inner)?
            }
            Sort::LeftParen => {
                cursor.rest = rest;
                call(cursor, line, left, inner)?
            }
            _ => return Ok(left),
        };
    }
}

/// An element, after its bracket.
#[cycle(descent)]
#[tactic(auto, using(js_cursor::proofs::Using::after_none))]
fn index(cursor: &mut Cursor<'_>, line: u32, list: Found<Expr>, inner: u32) -> Answer<Expr>
    requires room { inner < u32.MAX }
    requires measured { list.depth ≡ nesting (plain_expr list.tree) }
    ensures { IsIteration (index_iteration inner (readers inner) line (plain_expr list.tree))
        (inner + 1) cursor.old cursor.new result }
{
    if list.depth > inner {
        return Err(cursor.no_tree());
    }
    let found = assignment(cursor, inner)?;
    cursor.pass(Sort::RightBracket)?;
    let depth = list.depth.max(found.depth) + 1;
    let form = Form::Index(
        Box::new(cursor.alloc, list.tree)?,
        Box::new(cursor.alloc, found.tree)?,
    );
    Ok(expr_at(line, form, depth))
}

/// A call, after its parenthesis.
#[cycle(descent)]
fn call(cursor: &mut Cursor<'_>, line: u32, callee: Found<Expr>, inner: u32) -> Answer<Expr>
    requires room { inner < u32.MAX }
    requires measured { callee.depth ≡ nesting (plain_expr callee.tree) }
    ensures { IsIteration (call_iteration inner (readers inner) line (plain_expr callee.tree))
        (inner + 1) cursor.old cursor.new result }
{
    let depth = callee_depth(&callee);
    if depth > inner {
        return Err(cursor.no_tree());
    }
    let found = elements(cursor, Sort::RightParen, inner)?;
    let form = Form::Call(Box::new(cursor.alloc, callee.tree)?, found.tree);
    Ok(expr_at(line, form, depth.max(found.depth) + 1))
}

/// A primary expression.
#[cycle(descent)]
#[tactic(auto, using(js_cursor::proofs::Using::after_none))]
fn primary(cursor: &mut Cursor<'_>, inner: u32) -> Answer<Expr>
    requires { inner < u32.MAX }
    ensures { IsExpr (primary_read inner (readers inner)) (inner + 1) cursor.old cursor.new result }
{
    let Some((token, rest)) = next(cursor.rest) else {
        return Err(cursor.no_tree());
    };
    let line = token.line;
    match sort_of(token) {
        Sort::Number => number(cursor),
        Sort::Text => text(cursor),
        Sort::Name => used(cursor),
        Sort::True => {
            cursor.rest = rest;
            Ok(expr_at(line, Form::Truth(true), 1))
        }
        Sort::False => {
            cursor.rest = rest;
            Ok(expr_at(line, Form::Truth(false), 1))
        }
        Sort::Null => {
            cursor.rest = rest;
            Ok(expr_at(line, Form::Null, 1))
        }
        Sort::LeftParen => {
            cursor.rest = rest;
            round(cursor, inner)
        }
        Sort::LeftBracket => {
            cursor.rest = rest;
            let found = elements(cursor, Sort::RightBracket, inner)?;
            Ok(expr_at(line, Form::List(found.tree), found.depth + 1))
        }
        Sort::LeftBrace => {
            cursor.rest = rest;
            let found = fields(cursor, inner)?;
            Ok(expr_at(line, Form::Fields(found.tree), found.depth + 1))
        }
        Sort::Function => function(cursor, inner),
        _ => Err(cursor.no_tree()),
    }
}

/// An expression in parentheses, after the first.
#[cycle(descent)]
#[tactic(auto, using(js_cursor::proofs::Using::after_none))]
fn round(cursor: &mut Cursor<'_>, inner: u32) -> Answer<Expr>
    requires { inner < u32.MAX }
    ensures { IsExpr (round_at inner (readers inner)) (inner + 1) cursor.old cursor.new result }
{
    let Found {
        tree: Expr { parens, line, form },
        depth,
    } = assignment(cursor, inner)?;
    cursor.pass(Sort::RightParen)?;
    let parens = parens + 1;
    let tree = Expr { parens, line, form };
    let depth = depth + 1;
    Ok(Found { tree, depth })
}

/// A function expression.
#[cycle(descent)]
fn function(cursor: &mut Cursor<'_>, inner: u32) -> Answer<Expr>
    requires { inner < u32.MAX }
    ensures { IsExpr (at_first (function_at inner (readers inner))) (inner + 1)
        cursor.old cursor.new result }
{
    let spot = cursor.bump()?;
    let names = cursor.opening()?;
    let found = closed(cursor, inner)?;
    let form = Form::Function(spot, names, found.tree);
    Ok(expr_at(spot.line, form, found.depth + 1))
}

/// Expressions separated by commas, and the mark that closes them.
#[cycle(descent)]
#[tactic(auto, using(js_cursor::proofs::Loops::elements_iteration, js_tree::proofs::Rows::map_push, js_tree::proofs::Rows::deepest_push, crate::proofs::Using::next_element_none, crate::proofs::Using::elements_begin))]
fn elements(cursor: &mut Cursor<'_>, close: Sort, inner: u32) -> Answer<Vec<Expr>>
    ensures { IsRead (λ es. map plain_expr es.items) (λ es. deepest (exprs_of es))
        (elements_read inner (readers inner) close) inner 1 cursor.old cursor.new result }
{
    let tree = Vec::new(cursor.alloc);
    let mut all = Found { tree, depth: 0 };
    'more: loop {
        if cursor.skips(close) {
            return Ok(all);
        }
        let found = assignment(cursor, inner)?;
        all.depth = all.depth.max(found.depth);
        all.tree.push(found.tree)?;
        if cursor.skips(close) {
            return Ok(all);
        }
        cursor.pass(Sort::Comma)?;
    }
}

/// A field.
#[cycle(descent)]
fn field(cursor: &mut Cursor<'_>, inner: u32) -> Answer<Field>
    ensures { IsRead plain_field (λ f. nesting f.value)
        (at_first (field_at inner (readers inner))) inner 1 cursor.old cursor.new result }
{
    let Some((token, rest)) = next(cursor.rest) else {
        return Err(cursor.no_tree());
    };
    if begins(rest, Sort::Colon) {
        let key = cursor.key()?;
        cursor.advance();
        let Found { tree: value, depth } = assignment(cursor, inner)?;
        let tree = Field { key, value };
        return Ok(Found { tree, depth });
    }
    if inner == 0 {
        return Err(cursor.no_tree());
    }
    let name = cursor.name()?;
    let key = name.text.copy()?;
    let Found { tree: value, depth } = expr_at(token.line, Form::Use(name), 1);
    let tree = Field { key, value };
    Ok(Found { tree, depth })
}

/// Fields and `}`, after the `{`.
#[cycle(descent)]
#[tactic(auto, using(js_cursor::proofs::Loops::fields_iteration, js_tree::proofs::Rows::map_push_field, js_tree::proofs::Rows::deepest_push_field, crate::proofs::Using::next_field_none, crate::proofs::Using::fields_begin))]
fn fields(cursor: &mut Cursor<'_>, inner: u32) -> Answer<Vec<Field>>
    ensures { IsRead (λ fs. map plain_field fs.items) (λ fs. deepest_field (fields_of fs))
        (fields_read inner (readers inner)) inner 1 cursor.old cursor.new result }
{
    let tree = Vec::new(cursor.alloc);
    let mut all = Found { tree, depth: 0 };
    'more: loop {
        if cursor.skips(Sort::RightBrace) {
            return Ok(all);
        }
        let found = field(cursor, inner)?;
        all.depth = all.depth.max(found.depth);
        all.tree.push(found.tree)?;
        if cursor.skips(Sort::RightBrace) {
            return Ok(all);
        }
        cursor.pass(Sort::Comma)?;
    }
}

/// A declared name and its value, if it has one.
#[cycle(descent)]
#[tactic(auto, using(js_grammar::proofs::Complete::value_alone, crate::proofs::Using::value_none))]
fn declarator(cursor: &mut Cursor<'_>, kind: DeclareKind, inner: u32) -> Answer<Declarator>
    ensures { IsRead plain_declarator (λ d. perhaps_nesting d.value)
        (declarator_read inner (readers inner) kind) inner 1 cursor.old cursor.new result }
{
    let Some((token, _)) = next(cursor.rest) else {
        return Err(cursor.no_tree());
    };
    let name = cursor.name()?;
    if cursor.skips(Sort::Set) {
        let before = cursor.rest;
        let Found { tree, depth } = assignment(cursor, inner)?;
        let end = end_of(before, cursor.rest);
        let value = Some(tree);
        let tree = Declarator { name, value, end };
        return Ok(Found { tree, depth });
    }
    if is_constant(kind) {
        return Err(cursor.no_tree());
    }
    let end = token.to;
    let value = None;
    let tree = Declarator { name, value, end };
    Ok(Found { tree, depth: 0 })
}

/// Declarators separated by commas.
#[cycle(descent)]
#[tactic(auto, using(js_cursor::proofs::Loops::declarators_iteration, js_tree::proofs::Rows::map_push_declarator, js_tree::proofs::Rows::deepest_push_declarator, js_grammar::proofs::Complete::next_declarator_stop))]
fn declarators(cursor: &mut Cursor<'_>, kind: DeclareKind, inner: u32) -> Answer<Vec<Declarator>>
    ensures { IsRead (λ ds. map plain_declarator ds.items)
        (λ ds. deepest_declarator (declarators_of ds))
        (declarators_of_kind inner (readers inner) kind) inner 1 cursor.old cursor.new result }
{
    let tree = Vec::new(cursor.alloc);
    let mut all = Found { tree, depth: 0 };
    'more: loop {
        let found = declarator(cursor, kind, inner)?;
        all.depth = all.depth.max(found.depth);
        all.tree.push(found.tree)?;
        if !cursor.skips(Sort::Comma) {
            return Ok(all);
        }
    }
}

/// Statements up to `}` or the end of the text.
#[cycle(descent)]
#[tactic(auto, using(js_cursor::proofs::Loops::statements_iteration, js_tree::proofs::Rows::map_push_stmt, js_tree::proofs::Rows::deepest_push_stmt))]
fn statements(cursor: &mut Cursor<'_>, inner: u32) -> Answer<Vec<Stmt>>
    ensures { IsRead (λ ss. map plain_stmt ss.items) (λ ss. deepest_stmt (stmts_of ss))
        (statements_read inner (readers inner)) inner 0 cursor.old cursor.new result }
{
    let tree = Vec::new(cursor.alloc);
    let mut all = Found { tree, depth: 0 };
    'more: while !begins_end(cursor.rest) {
        let found = statement(cursor, inner)?;
        all.depth = all.depth.max(found.depth);
        all.tree.push(found.tree)?;
    }
    Ok(all)
}

/// Statements and `}`.
#[cycle(descent)]
#[tactic(auto, using(js_cursor::proofs::Using::after_none))]
pub fn closed(cursor: &mut Cursor<'_>, inner: u32) -> Answer<Vec<Stmt>>
    ensures { IsRead (λ ss. map plain_stmt ss.items) (λ ss. deepest_stmt (stmts_of ss))
        (closed_statements inner (readers inner)) inner 1 cursor.old cursor.new result }
{
    let found = statements(cursor, inner)?;
    cursor.pass(Sort::RightBrace)?;
    Ok(found)
}

/// Any statement but a `const` or `let` declaration.
#[cycle(descent)]
fn body(cursor: &mut Cursor<'_>, inner: u32) -> Answer<Stmt>
    ensures { IsStmt (body_at inner (readers inner)) inner cursor.old cursor.new result }
{
    if begins_lexical(cursor.rest) {
        return Err(cursor.no_tree());
    }
    statement(cursor, inner)
}

/// An expression in parentheses.
#[cycle(descent)]
#[tactic(auto, using(js_cursor::proofs::Using::after_none))]
fn test(cursor: &mut Cursor<'_>, inner: u32) -> Answer<Expr>
    ensures { IsExpr (test_read inner (readers inner)) inner cursor.old cursor.new result }
{
    cursor.pass(Sort::LeftParen)?;
    let found = assignment(cursor, inner)?;
    cursor.pass(Sort::RightParen)?;
    Ok(found)
}

/// A declaration.
#[cycle(descent)]
fn declaration(cursor: &mut Cursor<'_>, kind: DeclareKind, inner: u32) -> Answer<Stmt>
    requires { inner < u32.MAX }
    ensures { IsStmt (at_first (λ t. declaration_at inner (readers inner) t.line kind)) (inner + 1)
        cursor.old cursor.new result }
{
    let line = cursor.bump()?.line;
    let found = declarators(cursor, kind, inner)?;
    cursor.end(ending_of_last(&found.tree))?;
    let form = StmtForm::Declaration(kind, found.tree);
    Ok(stmt_at(line, form, found.depth + 1))
}

/// A condition.
#[cycle(descent)]
#[tactic(auto, using(js_grammar::proofs::Complete::else_alone))]
fn if_of(cursor: &mut Cursor<'_>, inner: u32) -> Answer<Stmt>
    requires { inner < u32.MAX }
    ensures { IsStmt (at_first (λ t. if_at inner (readers inner) t.line)) (inner + 1)
        cursor.old cursor.new result }
{
    let line = cursor.bump()?.line;
    let test = test(cursor, inner)?;
    let first = body(cursor, inner)?;
    let depth = test.depth.max(first.depth);
    let first = Box::new(cursor.alloc, first.tree)?;
    if !cursor.skips(Sort::Else) {
        let form = StmtForm::If(test.tree, first);
        return Ok(stmt_at(line, form, depth + 1));
    }
    let other = body(cursor, inner)?;
    let depth = depth.max(other.depth);
    let form = StmtForm::IfElse(test.tree, first, Box::new(cursor.alloc, other.tree)?);
    Ok(stmt_at(line, form, depth + 1))
}

/// A `while`.
#[cycle(descent)]
fn while_of(cursor: &mut Cursor<'_>, inner: u32) -> Answer<Stmt>
    requires { inner < u32.MAX }
    ensures { IsStmt (at_first (λ t. while_at inner (readers inner) t.line)) (inner + 1)
        cursor.old cursor.new result }
{
    let line = cursor.bump()?.line;
    let test = test(cursor, inner)?;
    let body = body(cursor, inner)?;
    let depth = test.depth.max(body.depth) + 1;
    let form = StmtForm::While(test.tree, Box::new(cursor.alloc, body.tree)?);
    Ok(stmt_at(line, form, depth))
}

/// What a `for` begins with.
#[cycle(descent)]
#[tactic(auto, using(crate::proofs::Using::no_room_declarators, crate::proofs::Using::declarators_in))]
fn start(cursor: &mut Cursor<'_>, inner: u32) -> Answer<Start>
    ensures { IsRead plain_start start_nesting
        (start_read inner (readers inner)) inner 0 cursor.old cursor.new result }
{
    let Some((token, rest)) = next(cursor.rest) else {
        return Err(cursor.no_tree());
    };
    if is_sort(token, Sort::Semicolon) {
        let tree = Start::Nothing;
        return Ok(Found { tree, depth: 0 });
    }
    if let Some(kind) = declares_at(token) {
        cursor.rest = rest;
        if inner == 0 {
            return Err(cursor.no_tree());
        }
        let Found { tree, depth } = declarators(cursor, kind, inner - 1)?;
        let tree = Start::Declares(token.line, kind, tree);
        let depth = depth + 1;
        return Ok(Found { tree, depth });
    }
    let Found { tree, depth } = assignment(cursor, inner)?;
    let tree = Start::Evaluates(tree);
    Ok(Found { tree, depth })
}

/// An expression that may be absent before a mark.
#[cycle(descent)]
fn perhaps(cursor: &mut Cursor<'_>, close: Sort, inner: u32) -> Answer<Option<Expr>>
    ensures { IsRead (λ e. perhaps_tree (option_map plain_expr e)) perhaps_nesting
        (perhaps_read inner (readers inner) close) inner 0 cursor.old cursor.new result }
{
    if begins(cursor.rest, close) {
        let tree = None;
        return Ok(Found { tree, depth: 0 });
    }
    let Found { tree, depth } = assignment(cursor, inner)?;
    let tree = Some(tree);
    Ok(Found { tree, depth })
}

/// A loop with three parts, after its parenthesis.
#[cycle(descent)]
#[tactic(auto, using(js_cursor::proofs::Using::after_none))]
fn for_three(cursor: &mut Cursor<'_>, line: u32, inner: u32) -> Answer<Stmt>
    requires { inner < u32.MAX }
    ensures { IsStmt (for_three_at inner (readers inner) line) (inner + 1)
        cursor.old cursor.new result }
{
    let first = start(cursor, inner)?;
    cursor.pass(Sort::Semicolon)?;
    let test = perhaps(cursor, Sort::Semicolon, inner)?;
    cursor.pass(Sort::Semicolon)?;
    let last = perhaps(cursor, Sort::RightParen, inner)?;
    cursor.pass(Sort::RightParen)?;
    let body = body(cursor, inner)?;
    let depth = first.depth.max(test.depth.max(last.depth.max(body.depth))) + 1;
    let body = Box::new(cursor.alloc, body.tree)?;
    let form = StmtForm::ForThree(first.tree, test.tree, last.tree, body);
    Ok(stmt_at(line, form, depth))
}

/// A loop over a list, after its parenthesis.
#[cycle(descent)]
#[tactic(auto, using(js_cursor::proofs::Using::after_none, js_cursor::proofs::Using::held_none))]
fn for_of(cursor: &mut Cursor<'_>, line: u32, inner: u32) -> Answer<Stmt>
    requires { inner < u32.MAX }
    ensures { IsStmt (for_of_at inner (readers inner) line) (inner + 1)
        cursor.old cursor.new result }
{
    let kind = cursor.lexical()?;
    let name = cursor.name()?;
    cursor.advance();
    let list = assignment(cursor, inner)?;
    cursor.pass(Sort::RightParen)?;
    let body = body(cursor, inner)?;
    let depth = list.depth.max(body.depth) + 1;
    let form = StmtForm::ForOf(kind, name, list.tree, Box::new(cursor.alloc, body.tree)?);
    Ok(stmt_at(line, form, depth))
}

/// A `for`.
#[cycle(descent)]
#[tactic(auto, using(js_cursor::proofs::Using::after_none))]
fn for_any(cursor: &mut Cursor<'_>, inner: u32) -> Answer<Stmt>
    requires { inner < u32.MAX }
    ensures { IsStmt (at_first (λ t. for_at inner (readers inner) t.line)) (inner + 1)
        cursor.old cursor.new result }
{
    let line = cursor.bump()?.line;
    cursor.pass(Sort::LeftParen)?;
    if begins_for_of(cursor.rest) {
        for_of(cursor, line, inner)
    } else {
        for_three(cursor, line, inner)
    }
}

/// A `return`.
#[cycle(descent)]
fn return_of(cursor: &mut Cursor<'_>, inner: u32) -> Answer<Stmt>
    requires { inner < u32.MAX }
    ensures { IsStmt (at_first (return_at inner (readers inner))) (inner + 1)
        cursor.old cursor.new result }
{
    let spot = cursor.bump()?;
    if is_return_end(cursor.rest) {
        cursor.end(Ending::Closed)?;
        return Ok(stmt_at(spot.line, StmtForm::ReturnNothing(spot), 1));
    }
    let found = assignment(cursor, inner)?;
    cursor.end(ending_of(&found.tree))?;
    let form = StmtForm::Return(spot, found.tree);
    Ok(stmt_at(spot.line, form, found.depth + 1))
}

/// An expression as a statement.
#[cycle(descent)]
#[tactic(auto, using(crate::proofs::Using::evaluated))]
fn evaluation(cursor: &mut Cursor<'_>, inner: u32) -> Answer<Stmt>
    requires { inner < u32.MAX }
    ensures { IsStmt (at_first (expression_at inner (readers inner))) (inner + 1)
        cursor.old cursor.new result }
{
    let line = cursor.line();
    let found = assignment(cursor, inner)?;
    cursor.end(ending_of(&found.tree))?;
    let form = StmtForm::Expression(found.tree);
    Ok(stmt_at(line, form, found.depth + 1))
}

/// A statement.
#[cycle(descent)]
#[tactic(auto, using(crate::proofs::Using::no_room_stmt, crate::proofs::Using::statement_in))]
pub fn statement(cursor: &mut Cursor<'_>, room: u32) -> Answer<Stmt>
    ensures { IsStmt ((readers room).stmt) room cursor.old cursor.new result }
{
    let Some((token, rest)) = next(cursor.rest) else {
        return Err(cursor.no_tree());
    };
    if room == 0 {
        return Err(cursor.no_tree());
    }
    let inner = room - 1;
    let line = token.line;
    match sort_of(token) {
        Sort::Semicolon => {
            cursor.rest = rest;
            Ok(stmt_at(line, StmtForm::Empty, 1))
        }
        Sort::LeftBrace => {
            cursor.rest = rest;
            let found = closed(cursor, inner)?;
            Ok(stmt_at(line, StmtForm::Block(found.tree), found.depth + 1))
        }
        Sort::Function => Err(cursor.no_tree()),
        Sort::Const => declaration(cursor, DeclareKind::Const, inner),
        Sort::Let => declaration(cursor, DeclareKind::Let, inner),
        Sort::Var => declaration(cursor, DeclareKind::Var, inner),
        Sort::If => if_of(cursor, inner),
        Sort::While => while_of(cursor, inner),
        Sort::For => for_any(cursor, inner),
        Sort::Break => break_of(cursor),
        Sort::Continue => continue_of(cursor),
        Sort::Return => return_of(cursor, inner),
        _ => evaluation(cursor, inner),
    }
}
