//! Tables of tests of the front end.
#![tactic(auto)]

#[cfg(test)]
mod lines;
#[cfg(test)]
mod nestings;
#[cfg(test)]
mod numbered;
#[cfg(test)]
mod tables;
#[cfg(test)]
mod tokens;
#[cfg(test)]
mod trees;
