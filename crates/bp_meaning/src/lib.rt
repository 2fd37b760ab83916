//! What a run sees of a program's bodies: what they state and do after the events that they received,
//! and which events sets have.
#![tactic(auto)]
