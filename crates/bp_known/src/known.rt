//! What is known of events under block sets.
ghost use Rattle.std.specs.Prelude.{◌≡◌, map, option_map, IfOk};
ghost use Rattle.js_frames.specs.Places.{plain_ground};
ghost use Rattle.bp_meaning.specs.Membership.{Membership};
ghost use Rattle.bp_sets.specs.Answers.{TellsAs};
ghost use Rattle.bp_known.specs.Known.{Sets, AreKnown, known_again, restated, told_again, with_answer, with_membership, without};

use bp_log::Memory;
use bp_sets::{Asked, SetFault, contains_as};
use js_data::Event;
use js_frames::Ground;
use js_value::EventSet;
use std::alloc::{AllocError, Global};

/// What is known of an event under some block sets.
#[derive(Clone, Copy)]
pub enum Known {
    /// Nothing.
    Unknown,
    /// All sets were asked, and none has it.
    Free,
    /// All sets were asked, and that of the b-thread of this number has it.
    Blocked(u32),
}

/// An event, and what is known of it.
#[derive(Drop)]
pub struct Told {
    /// The event.
    pub event: Event,
    /// What is known of it.
    pub known: Known,
}

impl Known {
    /// What is still known once the set of this number is gone.
    fn without(self, number: u32) -> Known
        ensures { result ≡ without number self }
    {
        match self {
            Known::Unknown => Known::Unknown,
            Known::Free => Known::Free,
            Known::Blocked(other) => {
                if other == number {
                    return Known::Unknown;
                }
                Known::Blocked(other)
            }
        }
    }

    /// What is known once the set of this number is one that has it, or one that has it not.
    fn with_answer(self, number: u32, here: bool) -> Known
        ensures { result ≡ with_answer number here self }
    {
        match self {
            Known::Unknown => Known::Unknown,
            Known::Free => {
                if here {
                    return Known::Blocked(number);
                }
                Known::Free
            }
            Known::Blocked(other) => {
                if other == number && !here {
                    return Known::Unknown;
                }
                Known::Blocked(other)
            }
        }
    }
}

/// What is known once the set of this number is one that answered so; nothing where it is at fault.
fn with_set(known: Known, number: u32, answer: Result<bool, SetFault>) -> Result<Known, Memory>
    ensures { (m : Membership) → TellsAs m answer →
        IfOk result (λ k. k ≡ with_membership number m known) }
{
    match answer {
        Ok(here) => Ok(known.with_answer(number, here)),
        Err(SetFault::Memory) => Err(AllocError),
        Err(_) => Ok(Known::Unknown),
    }
}

/// What is known of the event once this is the set of this number.
fn again(
    alloc: Global,
    ground: &Ground,
    budget: u64,
    number: u32,
    set: Option<&EventSet>,
    told: &Told,
    asked: &mut Asked,
) -> Result<Known, Memory>
    ensures { let base = plain_ground ground.now in
        IfOk result (λ k. k ≡ known_again base budget number (option_map (λ s. s.now) set.entry)
        told.now.event told.now.known) }
{
    let known = told.known;
    match set {
        None => Ok(known.without(number)),
        Some(set) => {
            if matches!(known, Known::Unknown) {
                return Ok(Known::Unknown);
            }
            asked.forget();
            let answer = contains_as(alloc, ground, set, &told.event, budget, asked);
            with_set(known, number, answer)
        }
    }
}

/// What is known of the events once this is the set of this number, or there is none. The set is
/// asked of those alone of which something is still known.
///
/// # Errors
///
/// Out of memory alone.
pub fn renew(
    alloc: Global,
    ground: &Ground,
    budget: u64,
    number: u32,
    set: Option<&EventSet>,
    mut told: Vec<Told>,
) -> Result<Vec<Told>, Memory>
    ensures renewed { let base = plain_ground ground.now in
        IfOk result (λ ts. ts.items
        ≡ map (told_again base budget number (option_map (λ s. s.now) set.entry)) told.items) }
    ensures known { let base = plain_ground ground.now in
        (sets : Sets) → AreKnown base budget sets told.items → IfOk result (λ ts. AreKnown base
        budget (restated number (option_map (λ s. s.now) set.entry) sets) ts.items) }
{
    let mut asked = Asked::new();
    for at in 0..told.len() {
        let known = again(alloc, ground, budget, number, set, &told[at], &mut asked)?;
        told[at].known = known;
    }
    Ok(told)
}
