//! Tests of lanes, feeds and injectors: the answers that no clause fixes, and tables of texts.
#![tactic(auto)]

#[cfg(test)]
mod crossing;
#[cfg(test)]
mod halts;
#[cfg(test)]
mod lanes;
#[cfg(test)]
mod sources;
#[cfg(test)]
mod texts;
#[cfg(test)]
mod threads;
#[cfg(test)]
mod told;
