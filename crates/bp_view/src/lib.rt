//! A view of a run: while one thread shows summaries of it, another sees them, and writes their lines.
//!
//! A shower and a watcher are the two ends of a view. What a watcher sees never goes back; that it is what its
//! shower has shown, it learns.
#![tactic(auto)]

ghost use Rattle.std.specs.Prelude.{◌≡◌, ◌∷◌, [], IfOk};
ghost use Rattle.bp_view.specs.Ends.{shown, seen};

mod ending;
mod laws;
mod lines;
mod shower;
mod slate;
mod summary;
mod told;
mod watcher;
mod watching;

use bp_base::Memory;
pub use ending::catch_up;
pub use laws::a_view_is_of_its_run;
pub use shower::Shower;
use std::alloc::{AllocError, Global};
use std::sync::Wait;
pub use summary::Summary;
pub use told::Told;
pub use watcher::Watcher;
pub use watching::{LineFault, Watched, watch, write_line};

/// The two ends of a view that begins with this summary.
pub fn view<R: Wait>(rt: &R, alloc: Global, first: Summary) -> Result<(Shower, Watcher), Memory>
    ensures shown { IfOk result (λ r. shown r.0 ≡ first ∷ []) }
    ensures seen { IfOk result (λ r. seen r.1 ≡ first ∷ []) }
{
    let shower = Shower::new(alloc, first)?;
    match shower.watcher(first) {
        Some(watcher) => Ok((shower, watcher)),
        None => {
            shower.end(rt);
            Err(AllocError)
        }
    }
}

/// Takes only what may move to another thread.
fn is_send<T: Send>(_value: &T) {}

/// A watcher may move to another thread.
pub fn moves_between_threads(watcher: &Watcher) {
    is_send(watcher);
}
