//! What one b-thread states.
ghost use Rattle.std.specs.Prelude.{◌≡◌};
ghost use Rattle.bp_run.specs.Selecting.{requests};
ghost use Rattle.bp_live.specs.Lives.{live_of};

use bp_thread::Statement;
use js_data::Event;

/// What a b-thread stated last, also where it is live no more.
#[derive(Drop)]
pub struct Stated {
    /// Its number.
    pub number: u32,
    /// What it states at its synchronisation point.
    pub statement: Statement,
    /// Whether it is live.
    pub(crate) here: bool,
}

/// Whether the b-thread requests the event.
pub fn requests(event: &Event, stated: &Stated) -> bool
    ensures { result ≡ requests event.now (live_of stated.now) }
{
    stated
        .statement
        .request
        .as_slice()
        .iter()
        .any(|e| event.same(e))
}
