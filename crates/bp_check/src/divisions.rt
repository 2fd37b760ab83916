//! Divisions of numbers.
ghost use Rattle.std.specs.Prelude.{◌≡◌, ◌++◌, OnOk, string_bytes};
ghost use Rattle.bp_check.specs.Findings.{in_digits, literal, size, of_zero, of_literals, of_operator, of_assigning};
ghost use Rattle.bp_check.specs.Sentences.{findings_text};

use crate::sentences::{write_by_zero, write_has_rest};
use js_data::{Memory, Whole};
use js_program::{NodeForm, Program};
use js_tree::{AssignOp, Operator, Sign};
use std::alloc::Global;

/// The number, where it is written in digits alone.
fn in_digits(number: Whole) -> Option<u64>
    ensures { result ≡ in_digits number }
{
    let number = number.get();
    if number < 0 {
        return None;
    }
    Some(number as u64)
}

/// The number that a node is, where it is written in digits.
fn literal(program: &Program, number: u32) -> Option<u64>
    ensures { result ≡ literal program.now number }
{
    if number >= program.nodes() {
        return None;
    }
    match &program.node(number).form {
        NodeForm::Number(number) => in_digits(*number),
        _ => None,
    }
}

/// How far the number that a node is lies from 0, where it is written in digits, with a sign or without.
fn size(program: &Program, number: u32) -> Option<u64>
    ensures { result ≡ size program.now number }
{
    if number >= program.nodes() {
        return None;
    }
    match &program.node(number).form {
        NodeForm::Number(number) => in_digits(*number),
        NodeForm::Unary(Sign::Minus | Sign::Plus, digits) => literal(program, *digits),
        _ => None,
    }
}

/// Writes that a divisor is zero, where it is.
fn write_zero(
    alloc: Global,
    line: u32,
    divisor: Option<u64>,
    text: &mut String,
) -> Result<(), Memory>
    ensures { OnOk result (string_bytes text.new
        ≡ string_bytes text.old ++ findings_text (of_zero line divisor)) }
{
    match divisor {
        Some(0) => write_by_zero(alloc, line, text),
        _ => Ok(()),
    }
}

/// Writes that a division is by zero or leaves a rest, where it does.
fn write_division(
    alloc: Global,
    line: u32,
    dividend: Option<u64>,
    divisor: Option<u64>,
    text: &mut String,
) -> Result<(), Memory>
    ensures { OnOk result (string_bytes text.new
        ≡ string_bytes text.old ++ findings_text (of_literals line dividend divisor)) }
{
    let Some(b) = divisor else { return Ok(()) };
    if b == 0 {
        return write_by_zero(alloc, line, text);
    }
    let Some(a) = dividend else { return Ok(()) };
    if a % b == 0 {
        return Ok(());
    }
    write_has_rest(alloc, line, text)
}

/// Writes what is found of an operator.
pub(crate) fn write_operator(
    alloc: Global,
    program: &Program,
    line: u32,
    operator: Operator,
    a: u32,
    b: u32,
    text: &mut String,
) -> Result<(), Memory>
    ensures { OnOk result (string_bytes text.new
        ≡ string_bytes text.old ++ findings_text (of_operator program.now line operator a b)) }
{
    match operator {
        Operator::Divide => {
            write_division(alloc, line, size(program, a), size(program, b), text)
        }
        Operator::Remainder => write_zero(alloc, line, size(program, b), text),
        _ => Ok(()),
    }
}

/// Writes what is found of a division that rounds down.
pub(crate) fn write_floor(
    alloc: Global,
    program: &Program,
    line: u32,
    b: u32,
    text: &mut String,
) -> Result<(), Memory>
    ensures { OnOk result (string_bytes text.new
        ≡ string_bytes text.old ++ findings_text (of_zero line (size program.now b))) }
{
    write_zero(alloc, line, size(program, b), text)
}

/// Writes what is found of an assignment.
pub(crate) fn write_assigning(
    alloc: Global,
    program: &Program,
    line: u32,
    operator: AssignOp,
    b: u32,
    text: &mut String,
) -> Result<(), Memory>
    ensures { OnOk result (string_bytes text.new
        ≡ string_bytes text.old ++ findings_text (of_assigning program.now line operator b)) }
{
    match operator {
        AssignOp::Divide | AssignOp::Remainder => {
            write_zero(alloc, line, size(program, b), text)
        }
        _ => Ok(()),
    }
}
