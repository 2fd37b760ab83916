//! Stories that go on: the law that each can be completed.
#![tactic(auto)]

pub mod laws;
