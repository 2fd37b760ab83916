//! Tests on the first tokens.
ghost use Rattle.std.specs.Prelude.{◌≡◌, is_some};
ghost use Rattle.js_grammar.specs.Sorts.{named};
ghost use Rattle.js_grammar.specs.Operators.{operator, level_of, operator_at, sign, step, assign_op};
ghost use Rattle.js_grammar.specs.Arrows.{starts_arrow, arrow_follows, starts_function};
ghost use Rattle.js_grammar.specs.Ends.{starts_end};
ghost use Rattle.js_grammar.specs.Tokens.{declares, lexical, is_of, starts_update, starts_assign, starts_lexical, starts_name_of, starts_for_of, is_const};

use crate::cursor::{is_sort, next, sort_of};
use js_lexer::{Kind, Sort, Token};
use js_tree::{AssignOp, DeclareKind, Operator, Sign, Step};

/// The binary operator that a mark is.
fn operator_of(sort: Sort) -> Option<Operator>
    ensures { result ≡ operator sort }
{
    match sort {
        Sort::Or => Some(Operator::Or),
        Sort::And => Some(Operator::And),
        Sort::Same => Some(Operator::Same),
        Sort::NotSame => Some(Operator::NotSame),
        Sort::Equal => Some(Operator::Equal),
        Sort::NotEqual => Some(Operator::NotEqual),
        Sort::Less => Some(Operator::Less),
        Sort::LessOrEqual => Some(Operator::LessOrEqual),
        Sort::Greater => Some(Operator::Greater),
        Sort::GreaterOrEqual => Some(Operator::GreaterOrEqual),
        Sort::Plus => Some(Operator::Add),
        Sort::Minus => Some(Operator::Subtract),
        Sort::Star => Some(Operator::Multiply),
        Sort::Slash => Some(Operator::Divide),
        Sort::Percent => Some(Operator::Remainder),
        _ => None,
    }
}

/// The level of an operator, 0 for the tightest.
fn level(operator: Operator) -> u8
    ensures { result ≡ level_of operator }
{
    match operator {
        Operator::Multiply => 0,
        Operator::Divide => 0,
        Operator::Remainder => 0,
        Operator::Add => 1,
        Operator::Subtract => 1,
        Operator::Less => 2,
        Operator::LessOrEqual => 2,
        Operator::Greater => 2,
        Operator::GreaterOrEqual => 2,
        Operator::Same => 3,
        Operator::NotSame => 3,
        Operator::Equal => 3,
        Operator::NotEqual => 3,
        Operator::And => 4,
        Operator::Or => 5,
    }
}

/// The operator of the level that a token is.
#[tactic(auto, using(crate::proofs::Using::operator_at_is))]
pub fn operator_in(wanted: u8, token: &Token) -> Option<Operator>
    ensures { result ≡ operator_at wanted token.now }
{
    let found = operator_of(sort_of(token))?;
    if level(found) == wanted {
        Some(found)
    } else {
        None
    }
}

/// The unary operator that a token is.
#[tactic(auto, using(crate::proofs::Using::sign_is))]
pub fn sign_at(token: &Token) -> Option<Sign>
    ensures { result ≡ sign token.now }
{
    match sort_of(token) {
        Sort::Not => Some(Sign::Not),
        Sort::Minus => Some(Sign::Minus),
        Sort::Plus => Some(Sign::Plus),
        _ => None,
    }
}

/// Whether a token is `++` or `--`, and which.
#[tactic(auto, using(crate::proofs::Using::step_is))]
pub fn step_at(token: &Token) -> Option<Step>
    ensures { result ≡ step token.now }
{
    match sort_of(token) {
        Sort::Increment => Some(Step::Increment),
        Sort::Decrement => Some(Step::Decrement),
        _ => None,
    }
}

/// The assignment's operator that a token is.
#[tactic(auto, using(crate::proofs::Using::assign_op_is))]
pub fn assign_at(token: &Token) -> Option<AssignOp>
    ensures { result ≡ assign_op token.now }
{
    match sort_of(token) {
        Sort::Set => Some(AssignOp::Set),
        Sort::AddSet => Some(AssignOp::Add),
        Sort::SubtractSet => Some(AssignOp::Subtract),
        Sort::MultiplySet => Some(AssignOp::Multiply),
        Sort::DivideSet => Some(AssignOp::Divide),
        Sort::RemainderSet => Some(AssignOp::Remainder),
        _ => None,
    }
}

/// The word of a declaration that a token is.
#[tactic(auto, using(crate::proofs::Using::declares_is))]
pub fn declares_at(token: &Token) -> Option<DeclareKind>
    ensures { result ≡ declares token.now }
{
    match sort_of(token) {
        Sort::Const => Some(DeclareKind::Const),
        Sort::Let => Some(DeclareKind::Let),
        Sort::Var => Some(DeclareKind::Var),
        _ => None,
    }
}

/// `const` or `let`, where a token is one.
#[tactic(auto, using(crate::proofs::Using::lexical_is))]
pub fn lexical_at(token: &Token) -> Option<DeclareKind>
    ensures { result ≡ lexical token.now }
{
    match declares_at(token) {
        Some(DeclareKind::Const) => Some(DeclareKind::Const),
        Some(DeclareKind::Let) => Some(DeclareKind::Let),
        _ => None,
    }
}

/// Whether a token is a name.
#[tactic(auto, using(crate::proofs::Using::named_is))]
pub fn is_name(token: &Token) -> bool
    ensures { result ≡ is_some (named token.now) }
{
    match &token.kind {
        Kind::Name(_) => true,
        _ => false,
    }
}

/// Whether a token is the name `of`.
#[tactic(auto, using(crate::proofs::Using::named_is, crate::proofs::Using::is_of_is))]
fn is_of_at(token: &Token) -> bool
    ensures { result ≡ is_of token.now }
{
    match &token.kind {
        Kind::Name(text) => text.as_str() == "of",
        _ => false,
    }
}

/// Whether the list begins with a name and, on its line, `++` or `--`.
pub fn begins_update(tokens: &[Token]) -> bool
    ensures { result ≡ starts_update tokens.now }
{
    let Some((name, rest)) = next(tokens) else {
        return false;
    };
    match next(rest) {
        Some((step, _)) => is_name(name) && step_at(step).is_some() && !step.new_line,
        None => false,
    }
}

/// Whether the list begins with `=>` on the line of the token before it.
pub fn begins_arrow(tokens: &[Token]) -> bool
    ensures { result ≡ starts_arrow tokens.now }
{
    match next(tokens) {
        Some((token, _)) => is_sort(token, Sort::Arrow) && !token.new_line,
        None => false,
    }
}

/// Whether `=>` follows the `)` that closes the pair that is open.
pub fn arrow_behind<'a>(tokens: &'a [Token]) -> bool
    ensures { result ≡ arrow_follows tokens.now 0 }
{
    let mut rest = tokens;
    let mut depth: usize = 0;
    'unclosed: while let Some((token, behind)) = next(rest) {
        match sort_of(token) {
            Sort::LeftParen => depth += 1,
            Sort::RightParen if depth == 0 => return begins_arrow(behind),
            Sort::RightParen => depth -= 1,
            _ => {}
        }
        rest = behind;
    }
    false
}

/// Whether an arrow function begins here.
pub fn begins_function<'a>(tokens: &'a [Token]) -> bool
    ensures { result ≡ starts_function tokens.now }
{
    let Some((token, rest)) = next(tokens) else {
        return false;
    };
    match sort_of(token) {
        Sort::Name => begins_arrow(rest),
        Sort::LeftParen => arrow_behind(rest),
        _ => false,
    }
}

/// Whether the list begins with a name and an assignment's operator.
pub fn begins_assign(tokens: &[Token]) -> bool
    ensures { result ≡ starts_assign tokens.now }
{
    let Some((name, rest)) = next(tokens) else {
        return false;
    };
    match next(rest) {
        Some((operator, _)) => is_name(name) && assign_at(operator).is_some(),
        None => false,
    }
}

/// Whether a list of statements ends here.
pub fn begins_end(tokens: &[Token]) -> bool
    ensures { result ≡ starts_end tokens.now }
{
    match next(tokens) {
        Some((token, _)) => is_sort(token, Sort::RightBrace),
        None => true,
    }
}

/// Whether a `const` or `let` declaration begins here.
pub fn begins_lexical(tokens: &[Token]) -> bool
    ensures { result ≡ starts_lexical tokens.now }
{
    match next(tokens) {
        Some((token, _)) => lexical_at(token).is_some(),
        None => false,
    }
}

/// Whether the list begins with a name and `of`.
fn begins_name_of(tokens: &[Token]) -> bool
    ensures { result ≡ starts_name_of tokens.now }
{
    let Some((name, rest)) = next(tokens) else {
        return false;
    };
    match next(rest) {
        Some((of, _)) => is_name(name) && is_of_at(of),
        None => false,
    }
}

/// Whether the list begins with `const` or `let`, a name and `of`.
pub fn begins_for_of(tokens: &[Token]) -> bool
    ensures { result ≡ starts_for_of tokens.now }
{
    match next(tokens) {
        Some((token, rest)) => lexical_at(token).is_some() && begins_name_of(rest),
        None => false,
    }
}

/// Whether the word is `const`.
pub fn is_constant(kind: DeclareKind) -> bool
    ensures { result ≡ is_const kind }
{
    match kind {
        DeclareKind::Const => true,
        DeclareKind::Let => false,
        DeclareKind::Var => false,
    }
}
