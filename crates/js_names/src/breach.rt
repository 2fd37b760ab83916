//! Breaches of the rules, before the one that is told has its name.
ghost use Rattle.std.specs.Prelude.{◌≡◌, IfOk};
ghost use Rattle.js_tree.specs.declared.tree.Name.{Name};
ghost use Rattle.js_names.specs.Rules.{number_of, comes_before, sooner};
ghost use Rattle.js_names.specs.inner.Breaches.{fault_of, fault_in};

use crate::mention::{Mention, NameFault, copy_of};
use std::alloc::AllocError;

/// A rule of names.
#[derive(Clone, Copy)]
pub(crate) enum Breach {
    Unknown,
    Twice,
    AssignConst,
    Capture,
    LoopWord,
    ReturnPlace,
    Slots,
}

impl Breach {
    /// The number of the rule, which decides where two are broken at one offset.
    fn number(self) -> u8
        ensures { (name : Name) → result ≡ number_of (fault_of self name) }
    {
        match self {
            Breach::Unknown => 1,
            Breach::Twice => 2,
            Breach::AssignConst => 3,
            Breach::Capture => 4,
            Breach::LoopWord => 5,
            Breach::ReturnPlace => 6,
            Breach::Slots => 7,
        }
    }
}

/// A mention that breaks a rule.
#[derive(Clone, Copy)]
pub(crate) struct Found<'a> {
    pub(crate) breach: Breach,
    pub(crate) mention: &'a Mention,
}

/// Whether a breach is told rather than another.
#[tactic(auto, using(crate::proofs::Firsts::spot_of_fault))]
fn comes_before(found: Found, other: Found) -> bool
    ensures { result ≡ comes_before (fault_of found.entry.breach found.entry.mention.now.name)
        (fault_of other.entry.breach other.entry.mention.now.name) }
{
    let (at, other_at) = (found.mention.name.spot.at, other.mention.name.spot.at);
    at < other_at || at == other_at && found.breach.number() < other.breach.number()
}

/// The breach that is told.
pub(crate) fn sooner<'a>(first: Option<Found<'a>>, found: Option<Found<'a>>) -> Option<Found<'a>>
    ensures { fault_in result ≡ sooner (fault_in first.entry) (fault_in found.entry) }
{
    match (first, found) {
        (None, found) => found,
        (Some(first), None) => Some(first),
        (Some(first), Some(found)) => Some(if comes_before(found, first) {
            found
        } else {
            first
        }),
    }
}

/// The fault of a mention that breaks a rule.
pub(crate) fn fault_of(found: Found) -> Result<NameFault, AllocError>
    ensures { IfOk result (λ f. f ≡ fault_of found.entry.breach found.entry.mention.now.name) }
{
    let name = copy_of(&found.mention.name)?;
    Ok(match found.breach {
        Breach::Unknown => NameFault::Unknown(name),
        Breach::Twice => NameFault::Twice(name),
        Breach::AssignConst => NameFault::AssignConst(name),
        Breach::Capture => NameFault::Capture(name),
        Breach::LoopWord => NameFault::LoopWord(name),
        Breach::ReturnPlace => NameFault::ReturnPlace(name),
        Breach::Slots => NameFault::Slots(name),
    })
}
