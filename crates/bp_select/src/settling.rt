//! The block sets that are noted become those of the live b-threads.
ghost use Rattle.std.specs.Prelude.{◌≡◌, ◌⊎◌, ◌++◌, ◌∷◌, [], ℕ, List, false, map, nat_eq, option_map, OnOk, OnErr};
ghost use Rattle.js_frames.specs.Places.{plain_ground};
ghost use Rattle.bp_select.specs.Blocks.{AreOf, block_at, own_set};
ghost use Rattle.bp_thread.specs.Views.{plain_statement};
ghost use Rattle.bp_select.specs.inner.BlockSets.{AreOfUnchanged, HasNoBlock, has_block};
ghost use Rattle.bp_known.specs.Known.{AreKnown, sets_in};
ghost use Rattle.bp_live.specs.Lives.{live_of};
ghost use Rattle.bp_live.specs.Places.{AreInOrder};
ghost use Rattle.bp_select.specs.Tallies.{Tallied};
ghost use Rattle.bp_select.specs.inner.Counted.{plain_tally};
ghost use Rattle.bp_run.specs.Selecting.{Live};
ghost use Rattle.js_value.specs.Value.{PlainSet};

use crate::asking::{is_empty, is_empty_set};
use crate::block_sets::Blocks;
use crate::tally::Tally;
use bp_known::is_same;
use bp_live::{Stated, is_at, place_of};
use bp_log::Memory;
use bp_thread::Statement;
use js_frames::Ground;
use js_value::EventSet;
use std::alloc::Global;

/// The block set of a b-thread, unless it plainly blocks nothing.
fn own_set(stated: &Stated) -> Option<&EventSet>
    ensures { option_map (λ s. s.now) result ≡ own_set (live_of stated.now) }
{
    let set = stated.statement.block.as_ref()?;
    if is_empty_set(set) {
        return None;
    }
    Some(set)
}

/// The block set of the b-thread of this number.
fn block_of(live: &[Stated], number: u32) -> Option<&EventSet>
    requires { AreInOrder (map live_of live.now) }
    ensures { option_map (λ s. s.now) result ≡ block_at (map live_of live.now) number }
{
    let at = place_of(live, number);
    if !is_at(live, at, number) {
        return None;
    }
    own_set(&live[at])
}

/// Whether the statement, if there is one, has a block set that is not plainly empty.
fn has_block(statement: &Option<Statement>) -> bool
    ensures { result ≡ has_block (option_map plain_statement statement.now) }
{
    match statement {
        None => false,
        Some(statement) => !is_empty(&statement.block),
    }
}

/// Notes the number, whose b-thread states this from now on, as one whose block set may have changed.
/// Where no block set of it is noted and it states none, nothing is done.
pub(crate) fn note_changed(
    changed: &mut Vec<u32>,
    blocks: &Blocks,
    number: u32,
    statement: &Option<Statement>,
) -> Result<(), Memory>
    ensures noted { OnOk result ((changed.new.items ≡ changed.old.items ++ number ∷ [])
        ⊎ ((changed.new.items ≡ changed.old.items)
        × HasNoBlock (sets_in blocks.now.sets) number (option_map plain_statement statement.now))) }
    ensures failed { OnErr result (changed.new.items ≡ changed.old.items) }
{
    if blocks.set_of(number).is_some() || has_block(statement) {
        changed.push(number)?;
    }
    Ok(())
}

/// The block set of this number becomes that of its b-thread. Where it is made alike, nothing is
/// done; else nothing counts as counted any more.
fn settle_one(
    alloc: Global,
    ground: &Ground,
    budget: u64,
    live: &[Stated],
    blocks: &mut Blocks,
    tally: &mut Tally,
    number: u32,
) -> Result<(), Memory>
    requires order { AreInOrder (map live_of live.now) }
    requires known { AreKnown (plain_ground ground.now) budget (sets_in blocks.old.sets)
        blocks.old.told }
    ensures known { AreKnown (plain_ground ground.now) budget (sets_in blocks.new.sets)
        blocks.new.told }
    ensures others { (n : ℕ) → nat_eq number n ≡ false →
        sets_in blocks.new.sets n ≡ sets_in blocks.old.sets n }
    ensures tallied { (ts : List (Live PlainSet)) →
        Tallied (plain_ground ground.now) budget (sets_in blocks.old.sets) ts (plain_tally tally.old)
        → Tallied (plain_ground ground.now) budget (sets_in blocks.new.sets) ts
        (plain_tally tally.new) }
    ensures settled { OnOk result
        (sets_in blocks.new.sets number ≡ block_at (map live_of live.now) number) }
{
    let set = block_of(live, number);
    if is_same(blocks.set_of(number), set) {
        return Ok(());
    }
    blocks.forget_idle();
    tally.rest();
    blocks.restate(alloc, ground, budget, number, set)
}

/// The block sets become those of the b-threads, where these numbers may differ. Its only error is
/// out of memory; then these numbers may still differ.
pub(crate) fn settle(
    alloc: Global,
    ground: &Ground,
    budget: u64,
    live: &[Stated],
    blocks: &mut Blocks,
    tally: &mut Tally,
    changed: &mut Vec<u32>,
) -> Result<(), Memory>
    requires order { AreInOrder (map live_of live.now) }
    requires noted { AreOfUnchanged (map live_of live.now) (sets_in blocks.old.sets) changed.old.items }
    requires known { AreKnown (plain_ground ground.now) budget (sets_in blocks.old.sets)
        blocks.old.told }
    ensures noted { AreOfUnchanged (map live_of live.now) (sets_in blocks.new.sets) changed.new.items }
    ensures tallied { (ts : List (Live PlainSet)) →
        Tallied (plain_ground ground.now) budget (sets_in blocks.old.sets) ts (plain_tally tally.old)
        → Tallied (plain_ground ground.now) budget (sets_in blocks.new.sets) ts
        (plain_tally tally.new) }
    ensures settled { OnOk result (AreOf (map live_of live.now) (sets_in blocks.new.sets)) }
    ensures known { AreKnown (plain_ground ground.now) budget (sets_in blocks.new.sets)
        blocks.new.told }
{
    for at in 0..changed.len() {
        settle_one(alloc, ground, budget, live, blocks, tally, changed[at])?;
    }
    changed.clear();
    Ok(())
}
