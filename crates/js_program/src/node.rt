//! What a node of a resolved program is, and what functions and constants are. Parts are named by their numbers.

use crate::builtin::Builtin;
use js_data::{Text, Whole};
use js_tree::{AssignOp, DeclareKind, Fix, Operator, Sign, Step};
use std::sync::Arc;

/// What a name that is read or declared stands for in its function. Names that are assigned or updated have slots.
#[derive(Clone, Copy, Debug)]
pub enum Variable {
    /// A slot of the function.
    Slot(u32),
    /// A constant of the program, which the top level alone declares.
    Constant(u32),
}

/// A declared variable, and the number of its value, if it has one.
#[derive(Clone, Copy, Debug)]
pub struct Declared {
    pub variable: Variable,
    pub value: Option<u32>,
}

/// The form of a node, with the numbers of its parts in the order in which they begin in the text.
#[derive(Debug)]
pub enum NodeForm {
    Number(Whole),
    /// Shared, so that its value is one more owner of it.
    Text(Arc<Text>),
    Truth(bool),
    Null,
    Undefined,
    Read(Variable),
    List(Vec<u32>),
    /// The keys and the values, in one order. Keys are shared, as texts are.
    Fields(Vec<Arc<Text>>, Vec<u32>),
    /// `x.word`
    Member(u32, Text),
    /// `x[i]`
    Index(u32, u32),
    /// A function and the arguments.
    Call(u32, Vec<u32>),
    /// `x.word(..)`
    Method(u32, Text, Vec<u32>),
    /// A form of `bp` or `Math` with its arguments; `bp.all` and `bp.none` have none.
    Builtin(Builtin, Vec<u32>),
    /// `Math.floor(a / b)`, and the arguments after it.
    FloorDivide(u32, u32, Vec<u32>),
    Unary(Sign, u32),
    /// `x++` and its kind, with the slot of `x`.
    Update(Step, Fix, u32),
    Binary(Operator, u32, u32),
    /// `test ? a : b`
    Conditional(u32, u32, u32),
    /// The slot of the variable, and the value.
    Assign(AssignOp, u32, u32),
    /// The function of this number.
    Function(u32),
    Empty,
    /// The slots that are not declared yet as it begins, and the statements.
    Block(Vec<u32>, Vec<u32>),
    Declaration(DeclareKind, Vec<Declared>),
    Expression(u32),
    If(u32, u32),
    IfElse(u32, u32, u32),
    While(u32, u32),
    /// `for (first; test; next) body`, with the slots that are not declared yet as it begins.
    ForThree(Vec<u32>, Option<u32>, Option<u32>, Option<u32>, u32),
    /// `for (let x of list) body`, with the slot of `x`, which is not declared yet as the list begins.
    ForOf(u32, u32, u32),
    Break,
    Continue,
    ReturnNothing,
    Return(u32),
}

// It is let go by one call, written out: so a function that lets a node go has one thing to show for it, and not
// one for each form.
impl Drop for NodeForm {
    fn drop(self) {
        match self {
            NodeForm::Number(_) => {}
            NodeForm::Text(_) => {}
            NodeForm::Truth(_) => {}
            NodeForm::Null => {}
            NodeForm::Undefined => {}
            NodeForm::Read(_) => {}
            NodeForm::List(_) => {}
            NodeForm::Fields(_, _) => {}
            NodeForm::Member(_, _) => {}
            NodeForm::Index(_, _) => {}
            NodeForm::Call(_, _) => {}
            NodeForm::Method(_, _, _) => {}
            NodeForm::Builtin(_, _) => {}
            NodeForm::FloorDivide(_, _, _) => {}
            NodeForm::Unary(_, _) => {}
            NodeForm::Update(_, _, _) => {}
            NodeForm::Binary(_, _, _) => {}
            NodeForm::Conditional(_, _, _) => {}
            NodeForm::Assign(_, _, _) => {}
            NodeForm::Function(_) => {}
            NodeForm::Empty => {}
            NodeForm::Block(_, _) => {}
            NodeForm::Declaration(_, _) => {}
            NodeForm::Expression(_) => {}
            NodeForm::If(_, _) => {}
            NodeForm::IfElse(_, _, _) => {}
            NodeForm::While(_, _) => {}
            NodeForm::ForThree(_, _, _, _, _) => {}
            NodeForm::ForOf(_, _, _) => {}
            NodeForm::Break => {}
            NodeForm::Continue => {}
            NodeForm::ReturnNothing => {}
            NodeForm::Return(_) => {}
        }
    }
}

/// A statement or an expression: the line of its first token, and its form.
#[derive(Drop)]
pub struct Node {
    pub line: u32,
    pub form: NodeForm,
}

/// What a call runs.
#[derive(Debug, Drop)]
pub enum Content {
    Statements(Vec<u32>),
    /// One expression, whose value is the answer.
    OneValue(u32),
}

/// A function, or the top level. Its slots hold the parameters, then the captured values, then its other variables.
#[derive(Debug, Drop)]
pub struct Body {
    pub parameters: u32,
    pub slots: u32,
    /// For each captured value, its slot in the function around.
    pub captures: Vec<u32>,
    /// The slots that are undefined as it begins; its other variables are not declared yet.
    pub vars: Vec<u32>,
    pub content: Content,
    pub line: u32,
}

/// What a constant is before the program runs.
#[derive(Clone, Copy, Debug)]
pub enum ConstantStart {
    /// The function of this number.
    OfFunction(u32),
    /// A `let` or `const`.
    Undeclared,
    /// A `var`.
    Unset,
}
