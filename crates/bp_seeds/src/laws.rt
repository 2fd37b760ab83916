//! The laws of runs under many seeds, each as the contract of a function that does nothing.
ghost use Rattle.bp_seeds.specs.Laws.{CountsAddUp};

/// The counts of the ends add up to the number of the seeds: no run is left out, and none is counted
/// twice.
pub fn counts_add_up()
    ensures { CountsAddUp }
{}
