//! The end of a view that sees.
ghost use Rattle.std.specs.Prelude.{◌≡◌, ◌∷◌, [], true, Some, IsTrue, IfSome, OnOk};
ghost use mathlib.Core.List.{IsPrefix};
ghost use Rattle.left_right.specs.Sides.{view};
ghost use Rattle.bp_view.specs.Growing.{grows, last_of};

use crate::slate::{Glass, Look};
use crate::summary::Summary;
use crate::told::Told;
use bp_base::Memory;
use core::mem::replace_with;
use std::alloc::AllocError;

/// The end of a view that sees. It may move to another thread.
#[derive(Drop)]
pub struct Watcher {
    glass: Glass,
    /// The summary that was seen last.
    last: Summary,
    ghost last_seen: { last_of (view glass.place) ≡ Some last },
    ghost good: { grows (view glass.place) ≡ true },
}

/// The last of them, or else this one.
#[tactic(auto, using(crate::proofs::Looks::last_is))]
fn last_in(list: &[Summary], last: Summary) -> Summary
    ensures { IfSome (last_of list.now) (λ s. s ≡ result) }
{
    match list.last() {
        Some(summary) => *summary,
        None => last,
    }
}

/// Whether this list is what was told.
fn is_same(list: &[Summary], told: &[Summary]) -> bool
    ensures { IsTrue result → list.now ≡ told.now }
{
    list.len() == told.len() && list.starts_with(told)
}

/// Looks at what is published, and answers the last of it; if the shower has ended, that which was seen
/// last.
fn look_from(glass: Glass, last: Summary) -> (Glass, Summary)
    requires last { last_of (view glass.place) ≡ Some last }
    requires good { grows (view glass.place) ≡ true }
    ensures longer { IsPrefix (view glass.place) (view result.0.place) }
    ensures last { last_of (view result.0.place) ≡ Some result.1 }
    ensures good { grows (view result.0.place) ≡ true }
{
    match glass.enter_as::<Look>() {
        Ok(reading) => {
            let last = last_in(reading.get().as_slice(), last);
            (reading.leave(), last)
        }
        Err(glass) => (glass, last),
    }
}

/// Looks at what is published, and compares it with what was told.
fn learn_from(glass: Glass, last: Summary, told: &[Summary]) -> (Glass, (Summary, bool))
    requires last { last_of (view glass.place) ≡ Some last }
    requires good { grows (view glass.place) ≡ true }
    ensures longer { IsPrefix (view glass.place) (view result.0.place) }
    ensures last { last_of (view result.0.place) ≡ Some result.1.0 }
    ensures good { grows (view result.0.place) ≡ true }
    ensures told { IsTrue result.1.1 → view result.0.place ≡ told.now }
{
    match glass.enter_as::<Look>() {
        Ok(reading) => {
            let list = reading.get().as_slice();
            let last = last_in(list, last);
            let same = is_same(list, told);
            (reading.leave(), (last, same))
        }
        Err(glass) => (glass, (last, false)),
    }
}

impl Watcher {
    ghost use Rattle.bp_view.specs.Ends.{seen};

    /// One that has seen this summary, if that is what is published.
    pub(crate) fn new(glass: Glass, first: Summary) -> Option<Watcher>
        requires { view glass.place ≡ [] }
        ensures { IfSome result (λ w. seen w ≡ first ∷ []) }
    {
        let Ok(reading) = glass.enter_as::<Look>() else {
            return None;
        };
        let is_first = is_alone(reading.get().as_slice(), first);
        let glass = reading.leave();
        if !is_first {
            return None;
        }
        Some(Watcher { glass, last: first })
    }

    /// Looks: sees all that was shown by now, and answers the last of it; if the shower has ended, that
    /// which was seen last. Takes no memory and does not wait.
    pub fn look(&mut self) -> Summary
        ensures longer { IsPrefix (seen self.old) (seen self.new) }
        ensures last { last_of (seen self.new) ≡ Some result }
        ensures good { grows (seen self.new) ≡ true }
    {
        let last = replace_with(&mut self.glass, self.last, look_from);
        self.last = last;
        last
    }

    /// The summary that was seen last.
    pub fn last(&self) -> Summary
        ensures last { last_of (seen self.now) ≡ Some result }
        ensures good { grows (seen self.now) ≡ true }
    {
        self.last
    }

    /// Learns what its shower told: that is then what was seen. A look sees all that was shown, so it is compared
    /// with what was told. If they differ, as they can only if another shower told it, the answer is `Memory`.
    pub fn learn(&mut self, told: Told<'_>) -> Result<(), Memory>
        ensures longer { IsPrefix (seen self.old) (seen self.new) }
        ensures learns { OnOk result (seen self.new ≡ told.entry) }
        ensures good { grows (seen self.new) ≡ true }
    {
        let (last, same) = replace_with(
            &mut self.glass,
            (self.last, told.into_slice()),
            |glass, (last, told)| { learn_from(glass, last, told) },
        );
        self.last = last;
        if same { Ok(()) } else { Err(AllocError) }
    }
}

/// Whether this summary is all there is.
fn is_alone(list: &[Summary], first: Summary) -> bool
    ensures { IsTrue result → list.now ≡ first ∷ [] }
{
    list.len() == 1 && list[0] == first
}
