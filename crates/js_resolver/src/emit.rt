//! The walk over a tree, which emits a node for each form as it ends, and each function before those inside it.
#![tactic(auto)]

ghost use Rattle.std.specs.Prelude.{◌≡◌, ◌∷◌, ◌≤◌, [], IfOk, OnOk, length, map};
ghost use Rattle.std.specs.Arc.{arc_value};
ghost use Rattle.js_tree.specs.Plain as t;
ghost use Rattle.js_tree.specs.Plain.{exprs_of, fields_of, stmts_of};
ghost use Rattle.js_tree.specs.Views.{plain_expr, plain_field, plain_form, plain_start, plain_stmt, plain_stmt_form, plain_item};
ghost use Rattle.js_program.specs.declared.builtin.Builtin.TheVariants.{Floor};
ghost use Rattle.js_program.specs.PlainProgram as n;
ghost use Rattle.js_program.specs.Views.{plain_content, plain_node_form};
ghost use Rattle.js_names.specs.Entries.{is_present};
ghost use Rattle.js_resolver.specs.Variables.{body_of};
ghost use Rattle.js_resolver.specs.Pieces.{function_piece};
ghost use Rattle.js_resolver.specs.NodeForms.{expr_node, has_start, keys_of};
ghost use Rattle.js_resolver.specs.Nodes.{expr_piece, exprs_piece, fields_piece, item_piece, items_piece, perhaps_piece, start_piece, stmt_piece, stmts_piece};
ghost use Rattle.js_resolver.specs.inner.Emits.{Adds, Emits, EmitsMore, EmitsDeclarators, EmitsPerhaps, EmitsCallee, EmitsCalled, FormsExpr, FormsStmt, FormsBuiltin, FormsCall, PutsBody, count, is_divide, tree_perhaps};

use crate::emitter::{Emitter, put_function, put_node};
use crate::fresh::{block_slots, start_slots};
use crate::name_tables::NameTables;
use js_data::Text;
use js_names::{called_builtin, is_undefined, value_builtin};
use js_program::{Builtin, Content, Declared, NodeForm};
use js_tree::{Declarator, Expr, Field, Form, Item, Name, Operator, Spot, Start, Stmt, StmtForm};
use std::alloc::{AllocError, Global};
use std::sync::Arc;

/// The form of a name that is read.
fn read_form(tables: &NameTables, name: &Name) -> NodeForm
    ensures { plain_node_form result ≡ expr_node tables.now (t.use_of name.now) [] }
{
    if is_undefined(name.text.as_str()) {
        NodeForm::Undefined
    } else {
        NodeForm::Read(tables.variable(name.spot.at))
    }
}

/// The text of a literal or of a key, to be shared with values.
fn shared_text(alloc: Global, text: &Text) -> Result<Arc<Text>, AllocError>
    ensures { IfOk result (λ s. arc_value s ≡ text.now) }
{
    let copied = text.copy()?;
    Ok(Arc::new(alloc, copied)?)
}

/// An expression, and its number.
#[cycle(emit)]
fn emit_expr(tables: &NameTables, emitter: &mut Emitter, e: &Expr) -> Result<u32, AllocError>
    ensures { IfOk result (λ x. Emits emitter.old emitter.new (x ∷ [])
        (expr_piece tables.now (count emitter.old) (plain_expr e.now))) }
{
    let form = emit_form(tables, emitter, &e.form)?;
    put_node(emitter, e.line, form)
}

/// The parts of an expression, and its form.
#[cycle(emit)]
fn emit_form(
    tables: &NameTables,
    emitter: &mut Emitter,
    form: &Form,
) -> Result<NodeForm, AllocError>
    ensures { IfOk result (λ x. FormsExpr tables.now emitter.old emitter.new x
        (plain_form form.now)) }
{
    match form {
        Form::Number(number) => Ok(NodeForm::Number(*number)),
        Form::Text(text) => {
            let literal = shared_text(emitter.alloc, text)?;
            Ok(NodeForm::Text(literal))
        }
        Form::Truth(truth) => Ok(NodeForm::Truth(*truth)),
        Form::Null => Ok(NodeForm::Null),
        Form::Use(name) => Ok(read_form(tables, name)),
        Form::List(elements) => {
            let elements = emit_exprs(tables, emitter, elements)?;
            Ok(NodeForm::List(elements))
        }
        Form::Fields(fields) => {
            let values = emit_fields(tables, emitter, fields)?;
            let keys = keys_of(emitter.alloc, fields)?;
            Ok(NodeForm::Fields(keys, values))
        }
        Form::Member(object, word) => emit_member(tables, emitter, object, word),
        Form::Index(left, right) => {
            let object = emit_expr(tables, emitter, left)?;
            let index = emit_expr(tables, emitter, right)?;
            Ok(NodeForm::Index(object, index))
        }
        Form::Call(callee, arguments) => {
            let called = emit_callee(tables, emitter, callee)?;
            emit_arguments(tables, emitter, called, arguments)
        }
        Form::Unary(sign, operand) => {
            let operand = emit_expr(tables, emitter, operand)?;
            Ok(NodeForm::Unary(*sign, operand))
        }
        Form::Update(step, fix, name) => {
            let slot = tables.slot(name.spot.at);
            Ok(NodeForm::Update(*step, *fix, slot))
        }
        Form::Binary(operator, left, right) => {
            let first = emit_expr(tables, emitter, left)?;
            let second = emit_expr(tables, emitter, right)?;
            Ok(NodeForm::Binary(*operator, first, second))
        }
        Form::Conditional(test, yes, no) => {
            let tested = emit_expr(tables, emitter, test)?;
            let first = emit_expr(tables, emitter, yes)?;
            let second = emit_expr(tables, emitter, no)?;
            Ok(NodeForm::Conditional(tested, first, second))
        }
        Form::Assign(operator, name, value) => {
            let value = emit_expr(tables, emitter, value)?;
            let slot = tables.slot(name.spot.at);
            Ok(NodeForm::Assign(*operator, slot, value))
        }
        Form::ArrowValue(spot, names, value) => emit_arrow(tables, emitter, *spot, names, value),
        Form::ArrowBlock(spot, names, body) => emit_function(tables, emitter, *spot, names, body),
        Form::Function(spot, names, body) => emit_function(tables, emitter, *spot, names, body),
    }
}

/// A member.
#[cycle(emit)]
fn emit_member(
    tables: &NameTables,
    emitter: &mut Emitter,
    object: &Expr,
    word: &Text,
) -> Result<NodeForm, AllocError>
    ensures { IfOk result (λ x. FormsExpr tables.now emitter.old emitter.new x
        (t.member (plain_expr object.now) word.now)) }
{
    match value_builtin(object, word.as_str()) {
        Some(builtin) => Ok(NodeForm::Builtin(builtin, Vec::new(emitter.alloc))),
        None => {
            let object = emit_expr(tables, emitter, object)?;
            Ok(NodeForm::Member(object, word.copy()?))
        }
    }
}

/// What is called, with the numbers of its parts.
#[derive(Drop)]
enum Called {
    Builtin(Builtin),
    Method(u32, Text),
    Other(u32),
}

/// What a call calls.
#[cycle(emit)]
fn emit_callee(
    tables: &NameTables,
    emitter: &mut Emitter,
    callee: &Expr,
) -> Result<Called, AllocError>
    ensures { IfOk result (λ x. EmitsCallee tables.now emitter.old emitter.new x
        (plain_expr callee.now)) }
{
    match called_builtin(callee) {
        Some(builtin) => Ok(Called::Builtin(builtin)),
        None => emit_called(tables, emitter, callee),
    }
}

/// A function or a method that is called.
#[cycle(emit)]
fn emit_called(
    tables: &NameTables,
    emitter: &mut Emitter,
    callee: &Expr,
) -> Result<Called, AllocError>
    ensures { IfOk result (λ x. EmitsCalled tables.now emitter.old emitter.new x
        (plain_expr callee.now)) }
{
    match &callee.form {
        Form::Member(object, word) if value_builtin(object, word.as_str()).is_none() => {
            let object = emit_expr(tables, emitter, object)?;
            Ok(Called::Method(object, word.copy()?))
        }
        _ => {
            let called = emit_expr(tables, emitter, callee)?;
            Ok(Called::Other(called))
        }
    }
}

/// The arguments of a call, and the form of the call.
#[cycle(emit)]
fn emit_arguments(
    tables: &NameTables,
    emitter: &mut Emitter,
    called: Called,
    arguments: &[Expr],
) -> Result<NodeForm, AllocError>
    ensures { IfOk result (λ x. FormsCall tables.now emitter.old emitter.new x called
        (exprs_of (map plain_expr arguments.now))) }
{
    match called {
        Called::Builtin(builtin) => emit_builtin(tables, emitter, builtin, arguments),
        Called::Method(object, word) => {
            let others = emit_exprs(tables, emitter, arguments)?;
            Ok(NodeForm::Method(object, word, others))
        }
        Called::Other(called) => {
            let others = emit_exprs(tables, emitter, arguments)?;
            Ok(NodeForm::Call(called, others))
        }
    }
}

/// A call of a form of the language.
#[cycle(emit)]
fn emit_builtin(
    tables: &NameTables,
    emitter: &mut Emitter,
    builtin: Builtin,
    arguments: &[Expr],
) -> Result<NodeForm, AllocError>
    ensures { IfOk result (λ x. FormsBuiltin tables.now emitter.old emitter.new x builtin
        (exprs_of (map plain_expr arguments.now))) }
{
    match builtin {
        Builtin::Floor => emit_floor(tables, emitter, arguments),
        _ => {
            let numbers = emit_exprs(tables, emitter, arguments)?;
            Ok(NodeForm::Builtin(builtin, numbers))
        }
    }
}

/// Whether the operator divides.
fn is_divide(operator: Operator) -> bool
    ensures { result ≡ is_divide operator }
{
    matches!(operator, Operator::Divide)
}

/// A call of `Math.floor`: a division is not rounded first.
#[cycle(emit)]
fn emit_floor(
    tables: &NameTables,
    emitter: &mut Emitter,
    arguments: &[Expr],
) -> Result<NodeForm, AllocError>
    ensures { IfOk result (λ x. FormsBuiltin tables.now emitter.old emitter.new x Floor
        (exprs_of (map plain_expr arguments.now))) }
{
    match arguments {
        [] => Ok(NodeForm::Builtin(Builtin::Floor, Vec::new(emitter.alloc))),
        [first, rest @ ..] => match &first.form {
            Form::Binary(operator, left, right) if is_divide(*operator) => {
                let divided = emit_expr(tables, emitter, left)?;
                let divisor = emit_expr(tables, emitter, right)?;
                let others = emit_exprs(tables, emitter, rest)?;
                Ok(NodeForm::FloorDivide(divided, divisor, others))
            }
            _ => {
                let numbers = emit_exprs(tables, emitter, arguments)?;
                Ok(NodeForm::Builtin(Builtin::Floor, numbers))
            }
        },
    }
}

/// An arrow function with a value.
#[cycle(emit)]
fn emit_arrow(
    tables: &NameTables,
    emitter: &mut Emitter,
    spot: Spot,
    names: &[Name],
    value: &Expr,
) -> Result<NodeForm, AllocError>
    ensures { IfOk result (λ x. FormsExpr tables.now emitter.old emitter.new x
        (t.arrow_value spot names.now (plain_expr value.now))) }
{
    let place = emitter.functions.len();
    let number = emit_expr(tables, emitter, value)?;
    put_body(
        tables,
        emitter,
        place,
        spot,
        names,
        Content::OneValue(number),
    )?;
    let code = tables.code(spot.at)?;
    Ok(NodeForm::Function(code))
}

/// A function with statements.
#[cycle(emit)]
fn emit_function(
    tables: &NameTables,
    emitter: &mut Emitter,
    spot: Spot,
    names: &[Name],
    body: &[Stmt],
) -> Result<NodeForm, AllocError>
    ensures { IfOk result (λ x. FormsExpr tables.now emitter.old emitter.new x
        (t.function spot names.now (stmts_of (map plain_stmt body.now)))) }
{
    emit_body(tables, emitter, spot, names, body)?;
    let code = tables.code(spot.at)?;
    Ok(NodeForm::Function(code))
}

/// What a call of a function runs.
#[cycle(emit)]
fn emit_body(
    tables: &NameTables,
    emitter: &mut Emitter,
    spot: Spot,
    names: &[Name],
    body: &[Stmt],
) -> Result<(), AllocError>
    ensures { OnOk result (Adds emitter.old emitter.new (function_piece tables.now spot names.now
        n.statements (stmts_piece tables.now (count emitter.old)
        (stmts_of (map plain_stmt body.now))))) }
{
    let place = emitter.functions.len();
    let numbers = emit_stmts(tables, emitter, body)?;
    put_body(
        tables,
        emitter,
        place,
        spot,
        names,
        Content::Statements(numbers),
    )
}

/// Expressions.
#[cycle(emit)]
fn emit_exprs(
    tables: &NameTables,
    emitter: &mut Emitter,
    es: &[Expr],
) -> Result<Vec<u32>, AllocError>
    ensures { IfOk result (λ v. Emits emitter.old emitter.new v.items
        (exprs_piece tables.now (count emitter.old) (exprs_of (map plain_expr es.now)))) }
{
    let mut numbers = Vec::new(emitter.alloc);
    for e in es {
        let number = emit_expr(tables, emitter, e)?;
        numbers.push(number)?;
    }
    Ok(numbers)
}

/// The values of fields.
#[cycle(emit)]
fn emit_fields(
    tables: &NameTables,
    emitter: &mut Emitter,
    fields: &[Field],
) -> Result<Vec<u32>, AllocError>
    ensures { IfOk result (λ v. Emits emitter.old emitter.new v.items
        (fields_piece tables.now (count emitter.old) (fields_of (map plain_field fields.now)))) }
{
    let mut numbers = Vec::new(emitter.alloc);
    for field in fields {
        let number = emit_expr(tables, emitter, &field.value)?;
        numbers.push(number)?;
    }
    Ok(numbers)
}

/// The keys of fields, to be shared with values.
fn keys_of(alloc: Global, fields: &[Field]) -> Result<Vec<Arc<Text>>, AllocError>
    ensures { IfOk result (λ v. map arc_value v.items
        ≡ keys_of (fields_of (map plain_field fields.now))) }
{
    let mut keys = Vec::new(alloc);
    for field in fields {
        let key = shared_text(alloc, &field.key)?;
        keys.push(key)?;
    }
    Ok(keys)
}

/// An expression that may be absent.
#[cycle(emit)]
fn emit_perhaps(
    tables: &NameTables,
    emitter: &mut Emitter,
    e: &Option<Expr>,
) -> Result<Option<u32>, AllocError>
    ensures { IfOk result (λ x. EmitsPerhaps emitter.old emitter.new x
        (is_present (tree_perhaps e.now))
        (perhaps_piece tables.now (count emitter.old) (tree_perhaps e.now))) }
{
    match e {
        Some(e) => {
            let number = emit_expr(tables, emitter, e)?;
            Ok(Some(number))
        }
        None => Ok(None),
    }
}

/// Declared variables with the numbers of their values.
#[cycle(emit)]
fn emit_declarators(
    tables: &NameTables,
    emitter: &mut Emitter,
    declarators: &[Declarator],
) -> Result<Vec<Declared>, AllocError>
    ensures { IfOk result (λ v. EmitsDeclarators tables.now emitter.old emitter.new v.items
        declarators.now) }
{
    let mut declared = Vec::new(emitter.alloc);
    for declarator in declarators {
        let value = emit_perhaps(tables, emitter, &declarator.value)?;
        let variable = tables.variable(declarator.name.spot.at);
        declared.push(Declared { variable, value })?;
    }
    Ok(declared)
}

/// What a `for` begins with.
#[cycle(emit)]
fn emit_start(
    tables: &NameTables,
    emitter: &mut Emitter,
    start: &Start,
) -> Result<Option<u32>, AllocError>
    ensures { IfOk result (λ x. EmitsPerhaps emitter.old emitter.new x
        (has_start (plain_start start.now))
        (start_piece tables.now (count emitter.old) (plain_start start.now))) }
{
    match start {
        Start::Nothing => Ok(None),
        Start::Declares(line, kind, declarators) => {
            let declared = emit_declarators(tables, emitter, declarators)?;
            let number = put_node(emitter, *line, NodeForm::Declaration(*kind, declared))?;
            Ok(Some(number))
        }
        Start::Evaluates(e) => {
            let number = emit_expr(tables, emitter, e)?;
            Ok(Some(number))
        }
    }
}

/// A statement, and its number.
#[cycle(emit)]
fn emit_stmt(tables: &NameTables, emitter: &mut Emitter, stmt: &Stmt) -> Result<u32, AllocError>
    ensures { IfOk result (λ x. Emits emitter.old emitter.new (x ∷ [])
        (stmt_piece tables.now (count emitter.old) (plain_stmt stmt.now))) }
{
    let form = emit_stmt_form(tables, emitter, &stmt.form)?;
    put_node(emitter, stmt.line, form)
}

/// The parts of a statement, and its form.
#[cycle(emit)]
fn emit_stmt_form(
    tables: &NameTables,
    emitter: &mut Emitter,
    form: &StmtForm,
) -> Result<NodeForm, AllocError>
    ensures { IfOk result (λ x. FormsStmt tables.now emitter.old emitter.new x
        (plain_stmt_form form.now)) }
{
    match form {
        StmtForm::Empty => Ok(NodeForm::Empty),
        StmtForm::Block(body) => {
            let slots = block_slots(emitter.alloc, tables, body)?;
            let numbers = emit_stmts(tables, emitter, body)?;
            Ok(NodeForm::Block(slots, numbers))
        }
        StmtForm::Declaration(kind, declarators) => {
            let declared = emit_declarators(tables, emitter, declarators)?;
            Ok(NodeForm::Declaration(*kind, declared))
        }
        StmtForm::Expression(e) => {
            let number = emit_expr(tables, emitter, e)?;
            Ok(NodeForm::Expression(number))
        }
        StmtForm::If(test, body) => {
            let tested = emit_expr(tables, emitter, test)?;
            let number = emit_stmt(tables, emitter, body)?;
            Ok(NodeForm::If(tested, number))
        }
        StmtForm::IfElse(test, body, other) => {
            let tested = emit_expr(tables, emitter, test)?;
            let first = emit_stmt(tables, emitter, body)?;
            let second = emit_stmt(tables, emitter, other)?;
            Ok(NodeForm::IfElse(tested, first, second))
        }
        StmtForm::While(test, body) => {
            let tested = emit_expr(tables, emitter, test)?;
            let number = emit_stmt(tables, emitter, body)?;
            Ok(NodeForm::While(tested, number))
        }
        StmtForm::ForThree(start, test, next, body) => {
            let slots = start_slots(emitter.alloc, tables, start)?;
            let first = emit_start(tables, emitter, start)?;
            let tested = emit_perhaps(tables, emitter, test)?;
            let step = emit_perhaps(tables, emitter, next)?;
            let number = emit_stmt(tables, emitter, body)?;
            Ok(NodeForm::ForThree(slots, first, tested, step, number))
        }
        StmtForm::ForOf(_, name, list, body) => {
            let slot = tables.slot(name.spot.at);
            let items = emit_expr(tables, emitter, list)?;
            let number = emit_stmt(tables, emitter, body)?;
            Ok(NodeForm::ForOf(slot, items, number))
        }
        StmtForm::Break(_) => Ok(NodeForm::Break),
        StmtForm::Continue(_) => Ok(NodeForm::Continue),
        StmtForm::ReturnNothing(_) => Ok(NodeForm::ReturnNothing),
        StmtForm::Return(_, e) => {
            let number = emit_expr(tables, emitter, e)?;
            Ok(NodeForm::Return(number))
        }
    }
}

/// Statements.
#[cycle(emit)]
fn emit_stmts(
    tables: &NameTables,
    emitter: &mut Emitter,
    body: &[Stmt],
) -> Result<Vec<u32>, AllocError>
    ensures { IfOk result (λ v. Emits emitter.old emitter.new v.items
        (stmts_piece tables.now (count emitter.old) (stmts_of (map plain_stmt body.now)))) }
{
    let mut numbers = Vec::new(emitter.alloc);
    for stmt in body {
        let number = emit_stmt(tables, emitter, stmt)?;
        numbers.push(number)?;
    }
    Ok(numbers)
}

/// A function with this content, before the functions inside it. Each function moves those inside it by one
/// place, so that a function is moved as often as functions stand around it, which nesting keeps few.
fn put_body(
    tables: &NameTables,
    emitter: &mut Emitter,
    place: usize,
    spot: Spot,
    names: &[Name],
    content: Content,
) -> Result<(), AllocError>
    requires { place ≤ length emitter.old.functions.items }
    ensures { OnOk result (PutsBody emitter.old emitter.new place
        (body_of tables.now spot.at (length names.now) (plain_content content) spot.line)) }
{
    let body = tables.body(emitter.alloc, spot.at, names.len(), content, spot.line)?;
    put_function(emitter, place, body)
}

/// What a program lists, and the number of a statement.
fn emit_item(
    tables: &NameTables,
    emitter: &mut Emitter,
    numbers: &mut Vec<u32>,
    item: &Item,
) -> Result<(), AllocError>
    ensures { OnOk result (EmitsMore emitter.old emitter.new numbers.old.items numbers.new.items
        (item_piece tables.now (count emitter.old) (plain_item item.now))) }
{
    match item {
        Item::Statement(_, stmt) => {
            let number = emit_stmt(tables, emitter, stmt)?;
            numbers.push(number)?;
            Ok(())
        }
        Item::Function(spot, _, names, body) => emit_body(tables, emitter, *spot, names, body),
    }
}

/// The nodes and functions of all that a program lists, and the numbers of its statements.
pub(crate) fn emit_items(
    tables: &NameTables,
    emitter: &mut Emitter,
    items: &[Item],
) -> Result<Vec<u32>, AllocError>
    ensures { IfOk result (λ v. Emits emitter.old emitter.new v.items
        (items_piece tables.now (count emitter.old) (map plain_item items.now))) }
{
    let mut numbers = Vec::new(emitter.alloc);
    for item in items {
        emit_item(tables, emitter, &mut numbers, item)?;
    }
    Ok(numbers)
}
