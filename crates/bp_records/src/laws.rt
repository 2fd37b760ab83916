//! The law of the records of runs, as the contract of a function that does nothing.
ghost use Rattle.bp_records.specs.Laws.{StoriesStand};

/// The records of every complete story, whatever its injectors, can stand in a log, one after another,
/// each on a line that isn't too long.
pub fn stories_stand()
    ensures { StoriesStand }
{}
