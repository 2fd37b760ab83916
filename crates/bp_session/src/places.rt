//! Room for injectors, all of it taken before the first of them is started.
ghost use Rattle.std.specs.Prelude.{IfOk};
ghost use Rattle.bp_session.specs.inner.Places.{HasRoom};

use crate::reading::Reading;
use bp_base::{Memory, Source};
use bp_inject::Berth;
use std::alloc::Global;

/// What injectors need beside their sources, and room for them and for the sources that come back.
#[derive(Drop)]
pub(crate) struct Places<S: Source> {
    pub(crate) berths: Vec<Berth<S>>,
    pub(crate) readings: Vec<Reading<S>>,
    pub(crate) back: Vec<S>,
}

impl<S: Source + Drop> Places<S> {
    /// Room for this many injectors. Whoever has it can start and join them without memory.
    pub(crate) fn new(alloc: Global, count: usize) -> Result<Places<S>, Memory>
        ensures { IfOk result (λ p. HasRoom p count) }
    {
        let mut berths = Vec::new(alloc);
        for _berth in 0..count {
            berths.push(Berth::new(alloc)?)?;
        }
        let mut readings = Vec::new(alloc);
        readings.reserve(count)?;
        let mut back = Vec::new(alloc);
        back.reserve(count)?;
        Ok(Places {
            berths,
            readings,
            back,
        })
    }
}
