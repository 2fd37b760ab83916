//! Tests that cross crates: commands of `bp` and `bpx` over a world in memory of which a call fails, and a run of `bp` that does not wait
//! for its injectors.
#![tactic(auto)]

#[cfg(test)]
mod answers;
#[cfg(test)]
mod injected;
#[cfg(test)]
mod logs;
#[cfg(test)]
mod outside;
#[cfg(test)]
mod world;
