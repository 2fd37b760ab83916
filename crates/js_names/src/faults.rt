//! The first breach of the rules of names.
ghost use Rattle.std.specs.Prelude.{◌≡◌, ◌≢◌, None, Some, IfOk, IfErr, map, length};
ghost use Rattle.js_tree.specs.Views.{plain_tree};
ghost use Rattle.js_names.specs.Mentions.{mentions};
ghost use Rattle.js_names.specs.Slots.{assigned_in, slots_of};
ghost use Rattle.js_names.specs.Rules.{fault_at, soonest, name_fault};
ghost use Rattle.js_names.specs.inner.Breaches.{told, fault_in};
ghost use Rattle.js_names.specs.Views.{mention_of};
ghost use Rattle.js_names.specs.Held.{held_in};

use crate::breach::{Breach, Found, fault_of, sooner};
use crate::holdings::slots;
use crate::mention::{Mention, NameFault};
use crate::rules::{
    assigned_in, fails_capture, fails_const, fails_loop_word, fails_return, fails_slots,
    fails_unknown,
};
use crate::walk::mentions_of;
use indexmap::{IndexMap, IndexSet};
use js_tree::Tree;
use std::alloc::{AllocError, Global};

/// The first rule that a mention breaks.
#[tactic(auto, unfolding(crate::specs::Rules::fault_at))]
fn breach_at(
    assigned: &IndexSet<u32>,
    held: &IndexMap<u32, IndexSet<u32>>,
    mention: &Mention,
) -> Option<Breach>
    ensures { told result mention.now.name ≡ fault_at assigned.now.keys
        (λ g. length (held_in held.now g)) (mention_of mention.now) }
{
    if fails_unknown(mention) {
        Some(Breach::Unknown)
    } else if mention.clashes {
        Some(Breach::Twice)
    } else if fails_const(mention) {
        Some(Breach::AssignConst)
    } else if fails_capture(assigned, mention) {
        Some(Breach::Capture)
    } else if fails_loop_word(mention) {
        Some(Breach::LoopWord)
    } else if fails_return(mention) {
        Some(Breach::ReturnPlace)
    } else if fails_slots(held, mention) {
        Some(Breach::Slots)
    } else {
        None
    }
}

/// The mention with the rule that it breaks, where it breaks one.
fn found_at<'a>(
    assigned: &IndexSet<u32>,
    held: &IndexMap<u32, IndexSet<u32>>,
    mention: &'a Mention,
) -> Option<Found<'a>>
    ensures { fault_in result ≡ fault_at assigned.now.keys (λ g. length (held_in held.now g))
        (mention_of mention.now) }
{
    match breach_at(assigned, held, mention) {
        Some(breach) => Some(Found { breach, mention }),
        None => None,
    }
}

/// The first mention that breaks a rule.
fn soonest<'a>(
    assigned: &IndexSet<u32>,
    held: &IndexMap<u32, IndexSet<u32>>,
    mentions: &'a [Mention],
) -> Option<Found<'a>>
    ensures { fault_in result ≡ soonest (fault_at assigned.now.keys
        (λ g. length (held_in held.now g))) (map mention_of mentions.now) }
{
    let mut first = None;
    for mention in mentions {
        first = sooner(first, found_at(assigned, held, mention));
    }
    first
}

/// The fault of the first mention that breaks a rule.
fn first_fault(names: &Names) -> Result<Option<NameFault>, AllocError>
    ensures { IfOk result (λ f. f ≡ soonest (fault_at names.now.assigned.keys
        (λ g. length (held_in names.now.slots g))) (map mention_of names.now.mentions.items)) }
{
    match soonest(&names.assigned, &names.slots, &names.mentions) {
        Some(found) => Ok(Some(fault_of(found)?)),
        None => Ok(None),
    }
}

/// The mentions of a program that breaks no rule of names, and what each function holds.
pub struct Names {
    /// The mentions in text order.
    pub mentions: Vec<Mention>,
    /// The variables that something assigns or updates.
    pub assigned: IndexSet<u32>,
    /// For each function, and for the top level, the variables in its slots.
    pub slots: IndexMap<u32, IndexSet<u32>>,
}

// They are let go by one call, written out.
impl Drop for Names {
    fn drop(self) {
        let Names {
            mentions: _,
            assigned: _,
            slots: _,
        } = self;
    }
}

/// The mentions of a tree, and what each function holds, whether or not a rule is broken.
fn names_of(alloc: Global, tree: &Tree) -> Result<Names, AllocError>
    ensures mentions { IfOk result (λ n. map mention_of n.mentions.items
        ≡ mentions (plain_tree tree.now)) }
    ensures assigned { IfOk result (λ n. n.assigned.keys ≡ assigned_in
        (mentions (plain_tree tree.now))) }
    ensures slots { IfOk result (λ n. (f : _) → held_in n.slots f ≡ slots_of
        (assigned_in (mentions (plain_tree tree.now))) f (mentions (plain_tree tree.now))) }
{
    let mentions = mentions_of(alloc, tree)?;
    let assigned = assigned_in(alloc, &mentions)?;
    let slots = slots(alloc, &assigned, &mentions)?;
    Ok(Names {
        mentions,
        assigned,
        slots,
    })
}

/// The mentions of a tree, exactly where none breaks a rule of names. Else the fault of the first mention that
/// breaks one, and of two rules that are broken there the one with the smaller number.
pub fn check_names(alloc: Global, tree: &Tree) -> Result<Names, NameFault>
    ensures accepted { IfOk result (λ _. name_fault (plain_tree tree.now) ≡ None) }
    ensures mentions { IfOk result (λ n. map mention_of n.mentions.items
        ≡ mentions (plain_tree tree.now)) }
    ensures assigned { IfOk result (λ n. n.assigned.keys ≡ assigned_in
        (mentions (plain_tree tree.now))) }
    ensures slots { IfOk result (λ n. (f : _) → held_in n.slots f ≡ slots_of
        (assigned_in (mentions (plain_tree tree.now))) f (mentions (plain_tree tree.now))) }
    ensures refused { IfErr result (λ f. f ≢ NameFault.Memory → name_fault (plain_tree tree.now)
        ≡ Some f) }
{
    let names = names_of(alloc, tree)?;
    let first = first_fault(&names)?;
    match first {
        Some(fault) => Err(fault),
        None => Ok(names),
    }
}
