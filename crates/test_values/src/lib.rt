//! Tests of events and values that no script can show: copies, what they give up, and threads that hold one value.
#![tactic(auto)]

#[cfg(test)]
mod events;
#[cfg(test)]
mod values;
