//! Tests of sessions: what injectors bring while a script runs, and how a session ends.
#![tactic(auto)]

#[cfg(test)]
mod bench;
#[cfg(test)]
mod endings;
#[cfg(test)]
mod many;
#[cfg(test)]
mod paced;
#[cfg(test)]
mod rows;
#[cfg(test)]
mod unwaited;
#[cfg(test)]
mod watched;
