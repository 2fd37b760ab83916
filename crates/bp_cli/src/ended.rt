//! How a command ended, and what it recorded.
ghost use Rattle.std.specs.Prelude.{◌≡◌, []};

use crate::conclusion::Conclusion;
use bp_log::Records;
use std::alloc::Global;

/// How a command ended, and what was recorded of the run that it made.
#[derive(Drop)]
pub(crate) struct Ended {
    /// How it ended.
    pub(crate) conclusion: Conclusion,
    /// All that was recorded of its run, in order.
    pub(crate) records: Records,
}

impl Ended {
    /// It ended so, and no run was made.
    pub(crate) fn without_run(alloc: Global, conclusion: Conclusion) -> Ended
        ensures conclusion { result.conclusion ≡ conclusion }
        ensures records { result.records ≡ [] }
    {
        Ended {
            conclusion,
            records: Records::new(Vec::new(alloc)),
        }
    }
}
