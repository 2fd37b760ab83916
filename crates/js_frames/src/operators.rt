//! The operators by their names in the value rules.
ghost use Rattle.std.specs.Prelude.{◌≡◌};
ghost use Rattle.js_meaning.specs.Expressions.{unary_for, step_for, op_for, op_before};

use js_tree::{AssignOp, Operator, Sign, Step};
use js_value::{Op, Unary};

/// The unary operator of a sign.
#[inline(always)]
pub(crate) fn unary_for(sign: Sign) -> Unary
    ensures { result ≡ unary_for sign }
{
    match sign {
        Sign::Not => Unary::Not,
        Sign::Minus => Unary::Minus,
        Sign::Plus => Unary::Plus,
    }
}

/// The unary operator of an update.
pub(crate) fn step_for(step: Step) -> Unary
    ensures { result ≡ step_for step }
{
    match step {
        Step::Increment => Unary::Increment,
        Step::Decrement => Unary::Decrement,
    }
}

/// The operator; none for `||` and `&&`.
#[inline(always)]
pub(crate) fn op_for(operator: Operator) -> Option<Op>
    ensures { result ≡ op_for operator }
{
    match operator {
        Operator::Or | Operator::And => None,
        Operator::Same => Some(Op::Same),
        Operator::NotSame => Some(Op::NotSame),
        Operator::Equal => Some(Op::Equal),
        Operator::NotEqual => Some(Op::NotEqual),
        Operator::Less => Some(Op::Less),
        Operator::LessOrEqual => Some(Op::LessEqual),
        Operator::Greater => Some(Op::Greater),
        Operator::GreaterOrEqual => Some(Op::GreaterEqual),
        Operator::Add => Some(Op::Add),
        Operator::Subtract => Some(Op::Subtract),
        Operator::Multiply => Some(Op::Multiply),
        Operator::Divide => Some(Op::Divide),
        Operator::Remainder => Some(Op::Remainder),
    }
}

/// The operator of an assignment; none for `=`.
pub(crate) fn op_before(operator: AssignOp) -> Option<Op>
    ensures { result ≡ op_before operator }
{
    match operator {
        AssignOp::Set => None,
        AssignOp::Add => Some(Op::Add),
        AssignOp::Subtract => Some(Op::Subtract),
        AssignOp::Multiply => Some(Op::Multiply),
        AssignOp::Divide => Some(Op::Divide),
        AssignOp::Remainder => Some(Op::Remainder),
    }
}
