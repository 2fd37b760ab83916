//! The rules of names.
#![tactic(auto)]

mod breach;
mod declare;
mod faults;
mod first;
mod forms;
mod holdings;
mod laws;
mod limits;
mod lookup;
mod mention;
mod rules;
mod scope;
mod scopes;
mod steps;
mod walk;

pub use faults::{Names, check_names};
pub use forms::{called_builtin, is_undefined, object_of, value_builtin};
pub use holdings::{captured, slot_count, vars};
pub use laws::blocks_keep_enough;
pub use mention::{Around, Declared, Mention, NameFault, Role, What};
pub use rules::{is_constant, variable_at};
pub use scope::TOP;
