//! The walk over a tree, which lists its mentions in text order.
ghost use Rattle.std.specs.Prelude.{◌≡◌, ◌++◌, IfOk, OnOk, is_some, string_bytes, codes, [], map, if◌then◌else◌};
ghost use Rattle.std.specs.List.{flat_map};
ghost use Rattle.js_tree.specs.Views.{plain_expr, plain_start, plain_stmt, plain_tree};
ghost use Rattle.js_names.specs.Scopes.{block_scope, for_three_scope, list_scope, for_of_role, function_scope};
ghost use Rattle.js_names.specs.Forms.{object_of, value_builtin, called_builtin};
ghost use Rattle.js_names.specs.Unresolved.{one_mention, begin_mention, parameter_mentions, member_mentions, in_function, in_loop, word_at};
ghost use Rattle.js_names.specs.Mentions.{mentions};
ghost use Rattle.js_names.specs.Views.{mention_of};
ghost use Rattle.js_names.specs.inner.Walks.{Adds, Enters, EntersForOf, scopes_in};
ghost use Rattle.js_names.specs.inner.TreeMentions.{tree_mentions, field_mentions, declarator_mentions, tree_stmt_mentions, tree_item_mentions, block_mentions, arrow_mentions, body_mentions, declared_mentions, listed_mentions, iteration_mentions, perhaps_tree_mentions, start_tree_mentions};

use crate::first::program_spot;
use crate::forms::{called_builtin, object_of, value_builtin};
use crate::mention::{Around, Mention, Role, What};
use crate::scope::{TOP, Walk};
use crate::scopes::{
    block_scope, for_of_scope, for_three_scope, function_scope, list_scope, program_scope,
};
use crate::steps::{
    declared_role, enter, for_of_role, in_function, in_loop, leave, put_begin, put_changed,
    put_name, put_parameters, put_read, put_word,
};
use js_data::Text;
use js_tree::{
    Declarator, DeclareKind, Expr, Field, Form, Item, Name, Spot, Start, Stmt, StmtForm, Tree,
};
use std::alloc::{AllocError, Global};

/// A use of `bp` or `Math` that is not a form, named by both words.
fn put_misuse(walk: &mut Walk, around: Around, object: &Name, word: &str) -> Result<(), AllocError>
    ensures { OnOk result (Adds walk.old walk.new
        (one_mention (scopes_in walk.old) around What.Misuses
        (word_at (object.now.text ++ (codes "." ++ word.now)) object.now.spot))) }
{
    let text = member_name(walk.alloc, object.text.as_str(), word)?;
    put_word(walk, around, What::Misuses, text.as_str(), object.spot)
}

/// Two words with a dot between them.
fn member_name(alloc: Global, object: &str, word: &str) -> Result<String, AllocError>
    ensures { IfOk result (λ t. string_bytes t ≡ object.now ++ (codes "." ++ word.now)) }
{
    let mut text = String::from_str(alloc, object)?;
    text.push_str(".")?;
    text.push_str(word)?;
    Ok(text)
}

#[cycle(walk)]
fn put_expr(walk: &mut Walk, around: Around, e: &Expr) -> Result<(), AllocError>
    ensures { OnOk result (Adds walk.old walk.new
        (tree_mentions (scopes_in walk.old) around e.now)) }
{
    match &e.form {
        Form::Number(_) => Ok(()),
        Form::Text(_) => Ok(()),
        Form::Truth(_) => Ok(()),
        Form::Null => Ok(()),
        Form::Use(name) => put_read(walk, around, name),
        Form::List(elements) => put_exprs(walk, around, elements),
        Form::Fields(fields) => put_fields(walk, around, fields),
        Form::Member(object, word) => put_member(walk, around, object, word),
        Form::Index(left, right) => {
            put_expr(walk, around, left)?;
            put_expr(walk, around, right)
        }
        Form::Call(callee, arguments) => {
            put_callee(walk, around, callee)?;
            put_exprs(walk, around, arguments)
        }
        Form::Unary(_, operand) => put_expr(walk, around, operand),
        Form::Update(_, _, name) => put_changed(walk, around, name),
        Form::Binary(_, left, right) => {
            put_expr(walk, around, left)?;
            put_expr(walk, around, right)
        }
        Form::Conditional(test, yes, no) => {
            put_expr(walk, around, test)?;
            put_expr(walk, around, yes)?;
            put_expr(walk, around, no)
        }
        Form::Assign(_, name, value) => {
            put_changed(walk, around, name)?;
            put_expr(walk, around, value)
        }
        Form::ArrowValue(spot, names, value) => put_arrow(walk, *spot, names, value),
        Form::ArrowBlock(spot, names, body) => put_function(walk, *spot, names, body),
        Form::Function(spot, names, body) => put_function(walk, *spot, names, body),
    }
}

/// A member.
#[cycle(walk)]
fn put_member(walk: &mut Walk, around: Around, e: &Expr, word: &Text) -> Result<(), AllocError>
    ensures { OnOk result (Adds walk.old walk.new
        (member_mentions (scopes_in walk.old) around (object_of (plain_expr e.now)) word.now
        (is_some (value_builtin (plain_expr e.now) word.now))
        (tree_mentions (scopes_in walk.old) around e.now))) }
{
    match object_of(e) {
        None => put_expr(walk, around, e),
        Some(object) => {
            if value_builtin(e, word.as_str()).is_some() {
                Ok(())
            } else {
                put_misuse(walk, around, object, word.as_str())
            }
        }
    }
}

/// What is called, unless it is a form of the language.
#[cycle(walk)]
fn put_callee(walk: &mut Walk, around: Around, callee: &Expr) -> Result<(), AllocError>
    ensures { OnOk result (Adds walk.old walk.new
        (if is_some (called_builtin (plain_expr callee.now)) then [] else tree_mentions
        (scopes_in walk.old) around callee.now)) }
{
    if called_builtin(callee).is_some() {
        Ok(())
    } else {
        put_expr(walk, around, callee)
    }
}

/// An arrow function with a value.
#[cycle(walk)]
fn put_arrow(walk: &mut Walk, spot: Spot, names: &[Name], value: &Expr) -> Result<(), AllocError>
    ensures { OnOk result (Adds walk.old walk.new
        (arrow_mentions (scopes_in walk.old) spot names.now value.now)) }
{
    let scope = function_scope(walk.alloc, spot.at, names, &[])?;
    enter(walk, scope)?;
    put_head(walk, spot, names)?;
    put_expr(walk, in_function(spot.at), value)?;
    leave(walk);
    Ok(())
}

/// A function with statements.
#[cycle(walk)]
fn put_function(
    walk: &mut Walk,
    spot: Spot,
    names: &[Name],
    body: &[Stmt],
) -> Result<(), AllocError>
    ensures { OnOk result (Adds walk.old walk.new
        (body_mentions (scopes_in walk.old) spot names.now body.now)) }
{
    let scope = function_scope(walk.alloc, spot.at, names, body)?;
    enter(walk, scope)?;
    put_head(walk, spot, names)?;
    put_stmts(walk, in_function(spot.at), body)?;
    leave(walk);
    Ok(())
}

/// Expressions.
#[cycle(walk)]
fn put_exprs(walk: &mut Walk, around: Around, es: &[Expr]) -> Result<(), AllocError>
    ensures { OnOk result (Adds walk.old walk.new
        (flat_map (tree_mentions (scopes_in walk.old) around) es.now)) }
{
    for e in es {
        put_expr(walk, around, e)?;
    }
    Ok(())
}

/// The values of fields.
#[cycle(walk)]
fn put_fields(walk: &mut Walk, around: Around, fields: &[Field]) -> Result<(), AllocError>
    ensures { OnOk result (Adds walk.old walk.new
        (flat_map (field_mentions (scopes_in walk.old) around) fields.now)) }
{
    for field in fields {
        put_expr(walk, around, &field.value)?;
    }
    Ok(())
}

/// An expression that may be absent.
#[cycle(walk)]
fn put_perhaps(walk: &mut Walk, around: Around, e: &Option<Expr>) -> Result<(), AllocError>
    ensures { OnOk result (Adds walk.old walk.new
        (perhaps_tree_mentions (scopes_in walk.old) around e.now)) }
{
    match e {
        Some(e) => put_expr(walk, around, e),
        None => Ok(()),
    }
}

/// A declared name and its value.
#[cycle(walk)]
fn put_declarator(
    walk: &mut Walk,
    around: Around,
    kind: DeclareKind,
    declarator: &Declarator,
) -> Result<(), AllocError>
    ensures { OnOk result (Adds walk.old walk.new
        (declarator_mentions (scopes_in walk.old) around kind declarator.now)) }
{
    put_name(
        walk,
        around,
        What::Declares(declared_role(kind)),
        &declarator.name,
    )?;
    put_perhaps(walk, around, &declarator.value)
}

/// Declared names and their values.
#[cycle(walk)]
fn put_declarators(
    walk: &mut Walk,
    around: Around,
    kind: DeclareKind,
    declarators: &[Declarator],
) -> Result<(), AllocError>
    ensures { OnOk result (Adds walk.old walk.new
        (flat_map (declarator_mentions (scopes_in walk.old) around kind) declarators.now)) }
{
    for declarator in declarators {
        put_declarator(walk, around, kind, declarator)?;
    }
    Ok(())
}

/// What a `for` begins with.
#[cycle(walk)]
fn put_start(walk: &mut Walk, around: Around, start: &Start) -> Result<(), AllocError>
    ensures { OnOk result (Adds walk.old walk.new
        (start_tree_mentions (scopes_in walk.old) around start.now)) }
{
    match start {
        Start::Nothing => Ok(()),
        Start::Declares(_, kind, declarators) => put_declarators(walk, around, *kind, declarators),
        Start::Evaluates(e) => put_expr(walk, around, e),
    }
}

#[cycle(walk)]
fn put_stmt(walk: &mut Walk, around: Around, stmt: &Stmt) -> Result<(), AllocError>
    ensures { OnOk result (Adds walk.old walk.new
        (tree_stmt_mentions (scopes_in walk.old) around stmt.now)) }
{
    match &stmt.form {
        StmtForm::Empty => Ok(()),
        StmtForm::Block(body) => put_block(walk, around, body),
        StmtForm::Declaration(kind, declarators) => {
            put_declarators(walk, around, *kind, declarators)
        }
        StmtForm::Expression(e) => put_expr(walk, around, e),
        StmtForm::If(test, body) => {
            put_expr(walk, around, test)?;
            put_stmt(walk, around, body)
        }
        StmtForm::IfElse(test, body, other) => {
            put_expr(walk, around, test)?;
            put_stmt(walk, around, body)?;
            put_stmt(walk, around, other)
        }
        StmtForm::While(test, body) => {
            put_expr(walk, around, test)?;
            put_stmt(walk, in_loop(around), body)
        }
        StmtForm::ForThree(start, test, next, body) => {
            enter_for(walk, around, start, body)?;
            put_start(walk, around, start)?;
            put_perhaps(walk, around, test)?;
            put_perhaps(walk, around, next)?;
            put_stmt(walk, in_loop(around), body)?;
            leave(walk);
            Ok(())
        }
        StmtForm::ForOf(kind, name, list, body) => {
            put_listed(walk, around, *kind, name, list)?;
            put_iterations(walk, around, *kind, name, body)
        }
        StmtForm::Break(spot) => put_word(walk, around, What::LoopWord, "break", *spot),
        StmtForm::Continue(spot) => put_word(walk, around, What::LoopWord, "continue", *spot),
        StmtForm::ReturnNothing(spot) => put_word(walk, around, What::Returns, "return", *spot),
        StmtForm::Return(spot, e) => {
            put_word(walk, around, What::Returns, "return", *spot)?;
            put_expr(walk, around, e)
        }
    }
}

/// The name of a `for` over a list, and the list.
#[cycle(walk)]
fn put_listed(
    walk: &mut Walk,
    around: Around,
    kind: DeclareKind,
    name: &Name,
    list: &Expr,
) -> Result<(), AllocError>
    ensures { OnOk result (Adds walk.old walk.new
        (listed_mentions (scopes_in walk.old) around kind name.now list.now)) }
{
    enter_list(walk, around, kind, name)?;
    put_expr(walk, around, list)?;
    leave(walk);
    Ok(())
}

/// The body of a `for` over a list.
#[cycle(walk)]
fn put_iterations(
    walk: &mut Walk,
    around: Around,
    kind: DeclareKind,
    name: &Name,
    body: &Stmt,
) -> Result<(), AllocError>
    ensures { OnOk result (Adds walk.old walk.new
        (iteration_mentions (scopes_in walk.old) around kind name.now body.now)) }
{
    let scope = for_of_scope(walk.alloc, around.owner, kind, name, body)?;
    enter(walk, scope)?;
    put_stmt(walk, in_loop(around), body)?;
    leave(walk);
    Ok(())
}

/// A block.
#[cycle(walk)]
fn put_block(walk: &mut Walk, around: Around, body: &[Stmt]) -> Result<(), AllocError>
    ensures { OnOk result (Adds walk.old walk.new
        (block_mentions (scopes_in walk.old) around body.now)) }
{
    let scope = block_scope(walk.alloc, around.owner, body)?;
    enter(walk, scope)?;
    put_stmts(walk, around, body)?;
    leave(walk);
    Ok(())
}

/// Statements.
#[cycle(walk)]
fn put_stmts(walk: &mut Walk, around: Around, body: &[Stmt]) -> Result<(), AllocError>
    ensures { OnOk result (Adds walk.old walk.new
        (flat_map (tree_stmt_mentions (scopes_in walk.old) around) body.now)) }
{
    for stmt in body {
        put_stmt(walk, around, stmt)?;
    }
    Ok(())
}

/// The parameters of a function, after its first token.
fn put_head(walk: &mut Walk, spot: Spot, names: &[Name]) -> Result<(), AllocError>
    ensures { OnOk result (Adds walk.old walk.new
        (begin_mention (scopes_in walk.old) spot.at spot ++ parameter_mentions (scopes_in walk.old)
        (in_function spot.at) names.now)) }
{
    put_begin(walk, spot.at, spot)?;
    put_parameters(walk, in_function(spot.at), names)
}

/// The scope of a `for` with three parts.
fn enter_for(walk: &mut Walk, around: Around, start: &Start, body: &Stmt) -> Result<(), AllocError>
    ensures { OnOk result (Enters walk.old walk.new
        (for_three_scope around.owner (plain_start start.now) (plain_stmt body.now))) }
{
    let scope = for_three_scope(walk.alloc, around.owner, start, body)?;
    enter(walk, scope)
}

/// The scope of the list of a `for`, and its name.
fn enter_list(
    walk: &mut Walk,
    around: Around,
    kind: DeclareKind,
    name: &Name,
) -> Result<(), AllocError>
    ensures { OnOk result (EntersForOf walk.old walk.new around kind name.now
        (list_scope around.owner kind name.now)) }
{
    let scope = list_scope(walk.alloc, around.owner, kind, name)?;
    enter(walk, scope)?;
    put_name(walk, around, What::Declares(for_of_role(kind)), name)
}

/// A function declaration.
fn put_declared(
    walk: &mut Walk,
    spot: Spot,
    name: &Name,
    names: &[Name],
    body: &[Stmt],
) -> Result<(), AllocError>
    ensures { OnOk result (Adds walk.old walk.new
        (declared_mentions (scopes_in walk.old) spot name.now names.now body.now)) }
{
    put_name(walk, in_function(TOP), What::Declares(Role::Function), name)?;
    put_function(walk, spot, names, body)
}

/// What a program lists.
fn put_item(walk: &mut Walk, item: &Item) -> Result<(), AllocError>
    ensures { OnOk result (Adds walk.old walk.new
        (tree_item_mentions (scopes_in walk.old) item.now)) }
{
    match item {
        Item::Statement(_, stmt) => put_stmt(walk, in_function(TOP), stmt),
        Item::Function(spot, name, names, body) => put_declared(walk, *spot, name, names, body),
    }
}

/// All that a program lists.
fn put_items(walk: &mut Walk, items: &[Item]) -> Result<(), AllocError>
    ensures { OnOk result (Adds walk.old walk.new
        (flat_map (tree_item_mentions (scopes_in walk.old)) items.now)) }
{
    for item in items {
        put_item(walk, item)?;
    }
    Ok(())
}

/// The mentions of a program.
pub(crate) fn mentions_of(alloc: Global, tree: &Tree) -> Result<Vec<Mention>, AllocError>
    ensures { IfOk result (λ found. map mention_of found.items ≡ mentions (plain_tree tree.now)) }
{
    let mut walk = Walk {
        alloc,
        scopes: Vec::new(alloc),
        mentions: Vec::new(alloc),
    };
    let scope = program_scope(alloc, tree)?;
    enter(&mut walk, scope)?;
    put_begin(&mut walk, TOP, program_spot(tree))?;
    put_items(&mut walk, &tree.items)?;
    Ok(walk.into_mentions())
}
