//! Tests of calls of benches and floors that no program makes, as tables of what is asked and what is answered.
#![tactic(auto)]

#[cfg(test)]
mod bench;
#[cfg(test)]
mod benches;
#[cfg(test)]
mod floors;
#[cfg(test)]
mod lines;
