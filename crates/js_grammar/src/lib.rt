//! The grammar: which tokens spell a tree.
#![tactic(auto)]

mod laws;

pub use laws::one_tree;
