//! A cursor over tokens and its steps, and what a reader finds.
#![tactic(auto)]

pub mod cursor;
pub mod ends;
mod found;
mod names;
pub mod peek;
mod stop;

pub use cursor::Cursor;
pub use found::{Answer, Found, binary, callee_depth, expr_at, object_depth, stmt_at};
pub use stop::Stop;
