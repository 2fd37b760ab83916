//! Tests of jobs that threads carry: gates, jobs that wait for one another or move, and super-steps by any number of workers.
#![tactic(auto)]

#[cfg(test)]
mod gates;
#[cfg(test)]
mod given;
#[cfg(test)]
mod many;
#[cfg(test)]
mod moving;
#[cfg(test)]
mod programs;
#[cfg(test)]
mod several;
#[cfg(test)]
mod supersteps;
#[cfg(test)]
mod waiting;
