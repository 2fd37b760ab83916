//! Whether a set has an event.
ghost use Rattle.js_value.specs.Views.{set_list_of};
ghost use Rattle.js_frames.specs.Places.{plain_ground};
ghost use Rattle.bp_meaning.specs.Membership.{member, member_of_any};
ghost use Rattle.bp_sets.specs.Answers.{TellsAs};
ghost use Rattle.bp_sets.specs.Asked.{IsAbout};

use crate::asked::Asked;
use crate::fault::SetFault;
use crate::predicate::ask;
use js_data::Event;
use js_frames::Ground;
use js_value::{EventSet, SetTree};
use std::alloc::Global;

/// Whether the set has the event. Each predicate of it that is asked may begin as many nodes as the
/// budget says.
///
/// # Errors
///
/// `Broken`, `Spent` and `NotTruth` exactly where a predicate that is asked is at fault, spends its
/// budget or answers no truth value before the answer is there; and `Memory`.
pub fn contains(
    alloc: Global,
    ground: &Ground,
    set: &EventSet,
    event: &Event,
    budget: u64,
) -> Result<bool, SetFault>
    ensures { TellsAs (member (plain_ground ground.now) budget set.now event.now) result }
{
    contains_as(alloc, ground, set, event, budget, &mut Asked::new())
}

/// Whether the set has the event. Where several sets are asked about one event, what is kept of it
/// is handed from one to the next.
///
/// # Errors
///
/// As `contains`.
#[cycle(contains)]
pub fn contains_as(
    alloc: Global,
    ground: &Ground,
    set: &EventSet,
    event: &Event,
    budget: u64,
    asked: &mut Asked,
) -> Result<bool, SetFault>
    requires { IsAbout (plain_ground ground.now) budget event.now asked.old }
    ensures tells { TellsAs (member (plain_ground ground.now) budget set.now event.now) result }
    ensures about { IsAbout (plain_ground ground.now) budget event.now asked.new }
{
    match set.tree() {
        SetTree::Only(wanted) => Ok(wanted.same(event)),
        SetTree::Any(sets) => any_contains(alloc, ground, sets, event, budget, asked),
        SetTree::All => Ok(true),
        SetTree::Nothing => Ok(false),
        SetTree::Or(a, b) => {
            if contains_as(alloc, ground, a, event, budget, asked)? {
                return Ok(true);
            }
            contains_as(alloc, ground, b, event, budget, asked)
        }
        SetTree::And(a, b) => {
            if !contains_as(alloc, ground, a, event, budget, asked)? {
                return Ok(false);
            }
            contains_as(alloc, ground, b, event, budget, asked)
        }
        SetTree::Xor(a, b) => {
            let in_a = contains_as(alloc, ground, a, event, budget, asked)?;
            let in_b = contains_as(alloc, ground, b, event, budget, asked)?;
            Ok(in_a != in_b)
        }
        SetTree::Negate(a) => Ok(!contains_as(alloc, ground, a, event, budget, asked)?),
        SetTree::Predicate { code, captured, .. } => {
            ask(alloc, ground, *code, captured, event, budget, asked)
        }
    }
}

/// Asked from the left up to the first yes.
#[cycle(contains)]
fn any_contains(
    alloc: Global,
    ground: &Ground,
    sets: &[EventSet],
    event: &Event,
    budget: u64,
    asked: &mut Asked,
) -> Result<bool, SetFault>
    requires { IsAbout (plain_ground ground.now) budget event.now asked.old }
    ensures tells { TellsAs
        (member_of_any (plain_ground ground.now) budget (set_list_of sets.now) event.now) result }
    ensures about { IsAbout (plain_ground ground.now) budget event.now asked.new }
{
    for set in sets {
        if contains_as(alloc, ground, set, event, budget, asked)? {
            return Ok(true);
        }
    }
    Ok(false)
}
