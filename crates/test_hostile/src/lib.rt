//! Tests of commands under hostile use: sources that look at what was printed, and writes of a replay that fail.
#![tactic(auto)]

#[cfg(test)]
mod looking;
#[cfg(test)]
mod watched;
#[cfg(test)]
mod world;
#[cfg(test)]
mod writes;
