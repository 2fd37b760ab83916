//! What a machine keeps of the nodes that it is inside of.
use crate::slots::Slots;
use crate::values::Values;
use js_program::Variable;
use js_value::{Items, Op, Value};

/// A loop's test, its body, and what comes between two iterations.
#[derive(Clone, Copy)]
pub(crate) struct Loop {
    pub(crate) test: Option<u32>,
    pub(crate) body: u32,
    pub(crate) next: Option<u32>,
}

/// Whose statements are done in order.
#[derive(Clone, Copy)]
pub(crate) enum Sequence {
    /// Those of the block of this number.
    Block(u32),
    /// Those of the function of this number.
    Function(u32),
    /// Those of the top level.
    Top,
}

/// A call of `forEach`: the function, the list and the index of the next element.
#[derive(Drop)]
pub(crate) struct Walk {
    pub(crate) code: u32,
    pub(crate) captured: Items,
    pub(crate) items: Items,
    pub(crate) index: usize,
    pub(crate) line: u32,
}

/// A node that waits for the value of one of its parts.
#[derive(Drop)]
pub(crate) enum Part {
    /// A node with one or two parts, for the first of them.
    First(u32),
    /// A node with two parts, for the second.
    Second(u32, Value),
    /// A node that takes the values of all its parts, for the part after those that are done.
    Further(u32, Values),
    /// `||`, for its left side.
    Or(u32),
    /// `&&`, for its left side.
    And(u32),
    /// A test, and what begins where it is true and where it is not.
    Choice(u32, u32),
    /// The test of an `if` without `else`.
    When(u32),
    /// The value of an assignment to this slot, on this line.
    Assigned(u32, u32),
    /// The same, with an operator and the slot's value before.
    AssignedWith(Op, Value, u32, u32),
    /// A declaration, for the value of the declarator of this variable, before this place.
    Declared(u32, Variable, usize),
    /// An expression statement.
    Dropped,
    /// The value of a `return` or of a function.
    Returned,
    /// Statements, for the one before this place.
    Statements(Sequence, usize),
    /// The first part of a `for`.
    Started(Loop),
    /// The test of a loop.
    Tested(Loop),
    /// What comes between two iterations.
    Between(Loop),
    /// The list of a `for of`: the slot, the body and the line.
    Listed(u32, u32, u32),
    /// A call of the function of a `forEach`.
    Walked(Walk),
}

/// A loop that waits for its body.
#[derive(Drop)]
pub(crate) enum Iteration {
    /// Of a `while` or a `for`.
    OfLoop(Loop),
    /// Of a `for of`: the slot, the body, the list and the place of the next element.
    OfItems(u32, u32, Items, usize),
}

/// What waits for something to complete.
#[derive(Drop)]
pub(crate) enum Frame {
    Waiting(Part),
    Iterating(Iteration),
    /// A call, which keeps the caller's slots and how many calls were active.
    Called(Slots, u32),
}
