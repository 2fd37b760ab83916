//! Tests of views: what is written of summaries that are shown, at once and from another thread.
#![tactic(auto)]

#[cfg(test)]
mod alone;
#[cfg(test)]
mod bench;
#[cfg(test)]
mod threads;
