//! The runs of a behavioral program: their definitions, and the laws that hold of all of them.
//!
//! The definitions speak of a program's code by what it does after the events that it received, and
//! of a set of events by whether it has an event. So they hold of any language of scripts. The laws
//! stand here for all codes whose origins are numbered and whose sets have at most one event; the
//! lemmas after them are of every code.
#![tactic(auto)]

pub mod laws;
