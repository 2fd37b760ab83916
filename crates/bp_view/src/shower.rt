//! The end of a view that shows.
ghost use Rattle.std.specs.Prelude.{◌≡◌, ◌<◌, ◌++◌, ◌∷◌, [], true, false, Some, drop, IfOk, IfSome, IsErr, OnOk, OnErr, MatchResult};
ghost use Rattle.bp_view.specs.Growing.{grows, last_of};

use crate::slate::{Add, Desk, Slate};
use crate::summary::Summary;
use crate::told::Told;
use crate::watcher::Watcher;
use bp_base::Memory;
use core::mem::replace_with;
use left_right::writer::Writer;
use std::alloc::{AllocError, Global};
use std::sync::Wait;

/// The end of a view that shows. Whoever has it ends it by `end`.
pub struct Shower {
    desk: Desk,
    /// The summary that was shown last.
    last: Summary,
    /// Memory ran out.
    failed: bool,
    ghost last_shown: { last_of desk.desk.shown.value ≡ Some last },
    ghost waits: { failed ≡ false → drop desk.behind desk.log.items ≡ [] },
    ghost good: { grows desk.desk.shown.value ≡ true },
}

/// Publishes a summary.
fn put<R: Wait>(desk: Desk, rt: &R, summary: Summary) -> (Desk, Result<(), Memory>)
    requires waits { drop desk.behind desk.log.items ≡ [] }
    requires grows { grows (desk.desk.shown.value ++ summary ∷ []) ≡ true }
    ensures shown { MatchResult result.1
        (λ _. result.0.desk.shown.value ≡ desk.desk.shown.value ++ summary ∷ [])
        (λ _. result.0.desk.shown.value ≡ desk.desk.shown.value) }
    ensures waits { OnOk result.1 (drop result.0.behind result.0.log.items ≡ []) }
{
    let mut desk = desk;
    match desk.append(summary) {
        Ok(()) => desk.publish_as::<Add, R>(rt),
        Err(_) => (desk, Err(AllocError)),
    }
}

impl Shower {
    ghost use Rattle.bp_view.specs.Ends.{shown, has_failed, seen};

    /// One that has shown this summary.
    pub(crate) fn new(alloc: Global, first: Summary) -> Result<Shower, Memory>
        ensures { IfOk result (λ s. shown s ≡ first ∷ []) }
    {
        let slate = Slate::new(alloc, first)?;
        let spare = Slate::new(alloc, first)?;
        let desk = Writer::new(alloc, slate, spare, 1)?;
        Ok(Shower {
            desk,
            last: first,
            failed: false,
        })
    }

    /// The watcher of this view, which has seen its first summary.
    pub(crate) fn watcher(&self, first: Summary) -> Option<Watcher>
        ensures { IfSome result (λ w. seen w ≡ first ∷ []) }
    {
        let Ok(glass) = self.desk.factory().reader() else {
            return None;
        };
        Watcher::new(glass, first)
    }

    /// Shows a summary with which what was shown still grows.
    #[tactic(auto, using(crate::proofs::Growths::last_snoc))]
    fn add<R: Wait>(&mut self, rt: &R, summary: Summary) -> Result<(), Memory>
        requires { grows (shown self.old ++ summary ∷ []) ≡ true }
        ensures shown { OnOk result (shown self.new ≡ shown self.old ++ summary ∷ []) }
        ensures same { OnErr result (shown self.new ≡ shown self.old) }
        ensures lost { OnErr result (has_failed self.new ≡ true) }
        ensures stays_lost { has_failed self.old ≡ true → IsErr result }
    {
        if self.failed {
            return Err(AllocError);
        }
        self.failed = true;
        replace_with(&mut self.desk, (rt, summary), |desk, (rt, summary)| {
            put(desk, rt, summary)
        })?;
        self.last = summary;
        self.failed = false;
        Ok(())
    }

    /// Shows a summary, which has more records than the last one; that was not over. It waits until the
    /// watcher has left what was published before. After `Memory` each later call answers that too.
    pub fn show<R: Wait>(&mut self, rt: &R, summary: Summary) -> Result<(), Memory>
        requires more { IfSome (last_of (shown self.old)) (λ s. s.records < summary.records) }
        requires not_over { IfSome (last_of (shown self.old)) (λ s. s.over ≡ false) }
        ensures shown { OnOk result (shown self.new ≡ shown self.old ++ summary ∷ []) }
        ensures same { OnErr result (shown self.new ≡ shown self.old) }
        ensures lost { OnErr result (has_failed self.new ≡ true) }
        ensures stays_lost { has_failed self.old ≡ true → IsErr result }
    {
        self.add(rt, summary)
    }

    /// The summary that was shown last.
    pub fn last(&self) -> Summary
        ensures last { last_of (shown self.now) ≡ Some result }
        ensures good { grows (shown self.now) ≡ true }
    {
        self.last
    }

    /// All that was shown. Takes no memory.
    pub fn tell(&self) -> Told<'_>
        ensures told { result ≡ shown self.now }
        ensures good { grows (shown self.now) ≡ true }
    {
        Told::new(self.desk.published().as_slice())
    }

    /// Ends the view: from now on nothing more is seen.
    pub fn end<R: Wait>(self, rt: &R) {
        let Shower {
            desk,
            last: _,
            failed: _,
        } = self;
        drop(desk.take(rt));
    }
}
