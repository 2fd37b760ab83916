//! That all of a run so far is written.
ghost use Rattle.std.specs.Prelude.{◌≡◌};
ghost use Rattle.bp_told.specs.Told.{NothingWaits};
ghost use Rattle.bp_session.specs.inner.Serving.{NothingUntold};

use bp_core::Core;
use bp_told::Telling;

/// That no record and no line of a core is untold, and nothing waits in a telling. The wait for an injector, the
/// turns on the calling thread and whoever is shown the run ask for it; while it is held, that core goes no
/// further.
#[derive(Clone, Copy)]
pub(crate) struct Written<'a> {
    core: &'a Core,
    telling: &'a Telling,
    ghost untold: { NothingUntold core.now telling.now },
    ghost nothing: { NothingWaits telling.now },
}

impl<'a> Written<'a> {
    /// Nothing of the run of this core is untold, and nothing waits to be written of what was told here.
    pub(crate) fn of(core: &'a Core, telling: &'a Telling) -> Written<'a>
        requires untold { NothingUntold core.now telling.now }
        requires nothing { NothingWaits telling.now }
        ensures { result.core.now ≡ core.now }
    {
        Written { core, telling }
    }
}
