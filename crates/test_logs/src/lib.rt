//! Tests of the world outside, of the words of the random choice, and of logs that are read, replayed and migrated where a call fails.
#![tactic(auto)]

#[cfg(test)]
mod faults;
#[cfg(test)]
mod headers;
#[cfg(test)]
mod migrations;
#[cfg(test)]
mod printed;
#[cfg(test)]
mod replays;
#[cfg(test)]
mod words;
#[cfg(test)]
mod worlds;
