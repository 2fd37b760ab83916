//! Tests of cores, as a table in which a line is a program, a list of steps, and what is told of it.
#![tactic(auto)]

#[cfg(test)]
mod cores;
#[cfg(test)]
mod steps;
