//! Trees: what the text of a program spells.
#![tactic(auto)]

mod ending;
mod ends;
mod limits;
mod objects;
pub mod tree;

pub use ending::Ending;
pub use ends::{ending_of, ending_of_last};
pub use limits::MOST_NESTING;
pub use objects::{is_log, is_member, is_object, is_object_name};
pub use tree::{
    AssignOp, Declarator, DeclareKind, Expr, Field, Fix, Form, Item, Name, Operator, Sign, Spot,
    Start, Step, Stmt, StmtForm, Tree,
};
