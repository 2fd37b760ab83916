//! The nodes of the top level.
ghost use Rattle.std.specs.Prelude.{◌≡◌, ℕ, ◌<◌, ◌||◌, ◌+◌, List, [], IfOk, false, drop, length, get_or, map, nat_eq, option_to_list};
ghost use Rattle.std.specs.List.{filter_map};
ghost use Rattle.js_program.specs.PlainProgram.{PlainDeclared, parts_of, content_parts};
ghost use Rattle.js_program.specs.Views.{plain_node_form, plain_content, plain_declared};
ghost use Rattle.bp_check.specs.Tops.{has, numbers_in, top_numbers};
ghost use Rattle.bp_check.specs.inner.Marks.{Marks};

use js_data::Memory;
use js_program::{Content, Declared, NodeForm, Program};
use std::alloc::Global;

/// Marks a number, unless no node has it.
fn put(marks: &mut [bool], number: u32)
    ensures { (k : ℕ) → k < length marks.old →
        get_or marks.new k false ≡ (get_or marks.old k false || nat_eq k number) }
{
    let place = number as usize;
    if place < marks.len() {
        marks[place] = true;
    }
}

/// Marks these numbers.
fn mark(marks: &mut [bool], numbers: &[u32])
    ensures { (k : ℕ) → k < length marks.old →
        get_or marks.new k false ≡ (get_or marks.old k false || has numbers.now k) }
{
    for number in numbers {
        put(marks, *number);
    }
}

/// Marks the number, if there is one.
fn mark_if(marks: &mut [bool], number: Option<u32>)
    ensures { (k : ℕ) → k < length marks.old →
        get_or marks.new k false ≡ (get_or marks.old k false || has (option_to_list number) k) }
{
    if let Some(number) = number {
        mark(marks, &[number]);
    }
}

/// Marks the values of declared variables.
fn mark_declared(marks: &mut [bool], declared: &[Declared])
    ensures { (k : ℕ) → k < length marks.old →
        get_or marks.new k false ≡ (get_or marks.old k false
        || has (filter_map (λ (d : PlainDeclared). d.value) (map plain_declared declared.now)) k) }
{
    for variable in declared {
        mark_if(marks, variable.value);
    }
}

/// Marks the parts of a node.
fn mark_parts(marks: &mut [bool], form: &NodeForm)
    ensures { (k : ℕ) → k < length marks.old → get_or marks.new k false
        ≡ (get_or marks.old k false || has (parts_of (plain_node_form form.now)) k) }
{
    match form {
        NodeForm::List(parts) | NodeForm::Fields(_, parts) | NodeForm::Builtin(_, parts) => {
            mark(marks, parts);
        }
        NodeForm::Member(x, _) | NodeForm::Unary(_, x) | NodeForm::Assign(_, _, x) => {
            mark(marks, &[*x]);
        }
        NodeForm::Index(a, b) | NodeForm::Binary(_, a, b) => mark(marks, &[*a, *b]),
        NodeForm::Call(first, more) | NodeForm::Method(first, _, more) => {
            mark(marks, &[*first]);
            mark(marks, more);
        }
        NodeForm::FloorDivide(a, b, more) => {
            mark(marks, &[*a, *b]);
            mark(marks, more);
        }
        NodeForm::Conditional(test, a, b) | NodeForm::IfElse(test, a, b) => {
            mark(marks, &[*test, *a, *b]);
        }
        NodeForm::Block(_, statements) => mark(marks, statements),
        NodeForm::Declaration(_, declared) => mark_declared(marks, declared),
        NodeForm::Expression(e) | NodeForm::Return(e) => mark(marks, &[*e]),
        NodeForm::If(test, body) | NodeForm::While(test, body) => mark(marks, &[*test, *body]),
        NodeForm::ForThree(_, first, test, next, body) => {
            mark_if(marks, *first);
            mark_if(marks, *test);
            mark_if(marks, *next);
            mark(marks, &[*body]);
        }
        NodeForm::ForOf(_, items, body) => mark(marks, &[*items, *body]),
        _ => {}
    }
}

/// Marks what a body begins with.
fn mark_content(marks: &mut [bool], content: &Content)
    ensures { (k : ℕ) → k < length marks.old → get_or marks.new k false
        ≡ (get_or marks.old k false || has (content_parts (plain_content content.now)) k) }
{
    match content {
        Content::Statements(numbers) => mark(marks, numbers),
        Content::OneValue(number) => mark(marks, &[*number]),
    }
}

/// Whether the number is marked.
fn is_marked(marks: &[bool], number: u32) -> bool
    ensures { result ≡ get_or marks.now number false }
{
    let place = number as usize;
    if place < marks.len() {
        marks[place]
    } else {
        false
    }
}

/// Marks the parts of a node that is marked, once what is after it is marked.
fn mark_behind(marks: &mut [bool], program: &Program, number: u32)
    requires many { length marks.old ≡ length program.now.nodes }
    requires number { number < length program.now.nodes }
    ensures { (begun : List ℕ) → let nodes = program.now.nodes in
        Marks marks.old (numbers_in begun (number + 1) (drop (number + 1) nodes)) →
        Marks marks.new (numbers_in begun number (drop number nodes)) }
{
    let node = program.node(number);
    if is_marked(marks, number) {
        mark_parts(marks, &node.form);
    }
}

/// Marks the nodes of the top level.
fn mark_tops(marks: &mut [bool], program: &Program)
    requires many { length marks.old ≡ length program.now.nodes }
    requires clear { Marks marks.old [] }
    ensures { Marks marks.new (top_numbers program.now) }
{
    mark_content(marks, &program.top().content);
    let mut number = program.nodes();
    while number > 0 {
        number -= 1;
        mark_behind(marks, program, number);
    }
}

/// For each node, whether it is one of the top level.
pub(crate) fn top_marks(alloc: Global, program: &Program) -> Result<Vec<bool>, Memory>
    ensures many { IfOk result (λ v. length v.items ≡ length program.now.nodes) }
    ensures marks { IfOk result (λ v. Marks v.items (top_numbers program.now)) }
{
    let mut marks = Vec::new(alloc);
    marks.resize(program.nodes() as usize, false)?;
    mark_tops(marks.as_mut_slice(), program);
    Ok(marks)
}
