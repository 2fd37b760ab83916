//! Constant tables: keys of few bytes, each with a value.
#![tactic(auto)]

pub mod row;
pub mod table;

pub use row::{Row, make_row};
pub use table::{Front, Table};
