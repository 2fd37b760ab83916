//! Lanes whose ends learn what the other did, and feeds at a full lane.
ghost use Rattle.bp_lanes.specs.Lanes.{IsSameMouth, IsSameEar};

use crate::told::{add_taken, told};
use bp_base::MemorySource;
use bp_feeds::{Fed, Feed};
use bp_lanes::{Ear, Mouth, lane};
use bp_log::Item;
use std::test::Fail;

/// Offers this many bad lines, by functions that have no leave to wait, and says how many found a place.
fn offered(mouth: &mut Mouth, from: u32, count: u32) -> u32
    ensures { IsSameMouth mouth.old mouth.new }
{
    let mut found = 0u32;
    for number in 0..count {
        if mouth.offer(Item::Bad(from.saturating_add(number))).is_ok() {
            found = found.saturating_add(1);
        }
    }
    found
}

/// The number of the bad line that is taken next, by a function that has no leave to wait.
fn taken(ear: &mut Ear) -> Option<u32>
    ensures { IsSameEar ear.old ear.new }
{
    match ear.take() {
        Some(Item::Bad(number)) => Some(number),
        _ => None,
    }
}

#[test]
fn a_lane_has_room_for_64(rt: HostRuntime) -> Result<(), Fail> {
    let alloc = rt.alloc();
    let (mut mouth, mut ear) = lane(alloc)?;
    assert!(rt; taken(&mut ear).is_none());
    assert!(rt; offered(&mut mouth, 1, 65) == 64);
    assert!(rt; taken(&mut ear) == Some(1));
    assert!(rt; offered(&mut mouth, 65, 2) == 1);
    assert!(rt; taken(&mut ear) == Some(2));
    ear.close(&mut mouth);
    for number in 3..66 {
        assert!(rt; taken(&mut ear) == Some(number));
    }
    assert!(rt; taken(&mut ear).is_none());
    Ok(())
}

#[test]
fn an_item_waits_for_a_place(rt: HostRuntime) -> Result<(), Fail> {
    let alloc = rt.alloc();
    let (mut mouth, mut ear) = lane(alloc)?;
    assert!(rt; offered(&mut mouth, 1, 64) == 64);
    let source = MemorySource::new(b"[\"x\"]\n[\"y\"]\n".to_vec(alloc)?, Vec::new(alloc));
    let mut feed = Feed::new(alloc, source, mouth);
    let mut fed = Fed::Went;
    for _ in 0..3 {
        if !feed.is_over() {
            fed = feed.turn()?;
        }
        assert!(rt; fed == Fed::Full);
    }
    assert!(rt; taken(&mut ear) == Some(1));
    if !feed.is_over() {
        fed = feed.turn()?;
    }
    assert!(rt; fed == Fed::Went);
    let mut text = String::new(alloc);
    add_taken(alloc, &mut ear, &mut text)?;
    assert!(rt; text.as_str().ends_with("|bad 64|[\"x\"]"));
    let (source, _) = feed.back();
    assert!(rt; told(alloc, source)?.as_str() == "|end");
    Ok(())
}
