//! One record of a log, and what the run makes next.
ghost use Rattle.std.specs.Prelude.{◌≡◌, ◌<◌, ◌++◌, ◌∷◌, [], List, length, nat_eq, true, false, IfOk, OnOk};
ghost use Rattle.std.specs.List.{list_any};
ghost use Rattle.bp_log.specs.declared.record.Record.{Record as Entry};
ghost use Rattle.bp_floor.specs.declared.phase.Phase.TheVariants as phase;
ghost use Rattle.bp_arbiter.specs.Arbiters.{options_in, stand_in};
ghost use Rattle.bp_replay.specs.Courses.{Course};
ghost use Rattle.bp_replay.specs.Following.{enters, is_item, Compared, Followed, IsSaidBy, IsSomewhere, IsThere, Makes};

use crate::ReplayFault;
use bp_arbiter::{Arbiter, Phase, Picked};
use bp_floor::Absorb;
use bp_log::{Item, Memory, Record};
use std::alloc::{AllocError, Global};

/// Whether the injector, of this many, is there and has not ended.
fn is_read(arbiter: &Arbiter, injectors: u32, injector: u32) -> bool
    requires count { injectors ≡ (options_in arbiter.now).injectors }
    requires rest { arbiter.now.phase ≡ phase.Rest }
    requires there { IsSomewhere arbiter.now }
    ensures { result ≡ list_any (nat_eq injector) arbiter.now.reading }
{
    if injector < injectors {
        !arbiter.ended(injector)
    } else {
        false
    }
}

/// Whether the record is that of an item which may enter.
fn may_enter(arbiter: &Arbiter, found: &Record) -> bool
    requires rest { arbiter.now.phase ≡ phase.Rest }
    requires there { IsSomewhere arbiter.now }
    ensures enters { result ≡ enters arbiter.now.reading (stand_in arbiter.now) found.now }
    ensures same { (c : Course) → IsThere c arbiter.now → enters c.told.reading c.told.stand found.now
        ≡ enters arbiter.now.reading (stand_in arbiter.now) found.now }
{
    let injectors = arbiter.floor().options().injectors();
    match found {
        Record::In(injector, _) => {
            let read = is_read(arbiter, injectors, *injector);
            read & arbiter.room()
        }
        Record::Bad(injector, _) => is_read(arbiter, injectors, *injector),
        Record::Eof(injector) => is_read(arbiter, injectors, *injector),
        Record::Sel(_) => false,
        Record::End(_) => false,
    }
}

/// The injector of the record, and its item.
fn item_of(found: &Record) -> Result<(u32, Item), Memory>
    requires { is_item found.now ≡ true }
    ensures { IfOk result (λ p. IsSaidBy found.now p.0 p.1) }
{
    match found {
        Record::In(injector, event) => Ok((*injector, Item::Offered(event.copy()?))),
        Record::Bad(injector, line) => Ok((*injector, Item::Bad(*line))),
        Record::Eof(injector) => Ok((*injector, Item::End)),
        Record::Sel(_) => unreachable!(),
        Record::End(_) => unreachable!(),
    }
}

/// The item of the record enters.
fn enter(arbiter: &mut Arbiter, found: &Record) -> Result<(), Memory>
    requires rest { arbiter.old.phase ≡ phase.Rest }
    requires may { enters arbiter.old.reading (stand_in arbiter.old) found.now ≡ true }
    ensures makes { OnOk result ((c : Course) → IsThere c arbiter.old → Makes c found.now arbiter.new) }
    ensures program { OnOk result
        (arbiter.new.floor.base.program ≡ arbiter.old.floor.base.program) }
{
    let (injector, item) = item_of(found)?;
    match arbiter.absorb(injector, item) {
        Ok(()) => Ok(()),
        Err(Absorb::Full(_)) => unreachable!(),
        Err(Absorb::Memory(_)) => Err(AllocError),
    }
}

/// Compares what the run made last with the record.
fn compare(arbiter: &Arbiter, number: u32, found: Record) -> Result<(), ReplayFault>
    requires { 0 < length arbiter.now.records }
    ensures { (before : List Entry) (made : Entry) → arbiter.now.records ≡ before ++ made ∷ [] →
        Compared made found number result }
{
    let Some(made) = arbiter.records().last() else {
        unreachable!()
    };
    if made.same(&found) {
        return Ok(());
    }
    Err(ReplayFault::Differs {
        number,
        expected: Some(made.copy()?),
        found,
    })
}

/// The run makes its next record, which is to be this one.
fn make(alloc: Global, arbiter: &mut Arbiter, number: u32, found: Record) -> Result<(), ReplayFault>
    requires rest { arbiter.old.phase ≡ phase.Rest }
    requires there { IsSomewhere arbiter.old }
    ensures followed { (c : Course) → IsThere c arbiter.old →
        enters c.told.reading c.told.stand found ≡ false → Followed c found number arbiter.new result }
    ensures program { OnOk result
        (arbiter.new.floor.base.program ≡ arbiter.old.floor.base.program) }
{
    if arbiter.pick(alloc)? == Picked::Wait {
        return Err(ReplayFault::Differs {
            number,
            expected: None,
            found,
        });
    }
    compare(arbiter, number, found)
}

/// The record enters as an item, or the run makes it.
fn go_on(
    alloc: Global,
    arbiter: &mut Arbiter,
    number: u32,
    found: Record,
) -> Result<(), ReplayFault>
    requires rest { arbiter.old.phase ≡ phase.Rest }
    requires there { IsSomewhere arbiter.old }
    ensures followed { (c : Course) → IsThere c arbiter.old →
        Followed c found number arbiter.new result }
    ensures program { OnOk result
        (arbiter.new.floor.base.program ≡ arbiter.old.floor.base.program) }
{
    if may_enter(arbiter, &found) {
        enter(arbiter, &found)?;
        return Ok(());
    }
    make(alloc, arbiter, number, found)
}

/// Has the run make the record of this number, if it can; if the run has ended by itself, that is
/// its end.
pub fn follow(
    alloc: Global,
    arbiter: &mut Arbiter,
    number: u32,
    found: Record,
) -> Result<(), ReplayFault>
    requires { IsSomewhere arbiter.old }
    ensures followed { (c : Course) → IsThere c arbiter.old →
        Followed c found number arbiter.new result }
    ensures program { OnOk result
        (arbiter.new.floor.base.program ≡ arbiter.old.floor.base.program) }
{
    if arbiter.phase() == Phase::Rest {
        return go_on(alloc, arbiter, number, found);
    }
    compare(arbiter, number, found)
}
