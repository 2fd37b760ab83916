//! The items of a feed as text.
ghost use Rattle.bp_lanes.specs.Lanes.{IsSameEar};

use bp_base::Source;
use bp_feeds::Feed;
use bp_lanes::{Ear, lane};
use bp_log::Item;
use js_json::event_text;
use std::alloc::{AllocError, Global};
use std::test::Fail;

/// The texts of the items that a feed over this source offers, each after a bar.
pub fn told<S: Source + Drop>(alloc: Global, source: S) -> Result<String, Fail> {
    let (mouth, mut ear) = lane(alloc)?;
    let mut feed = Feed::new(alloc, source, mouth);
    let mut text = String::new(alloc);
    for _ in 0..u64::MAX {
        if feed.is_over() {
            break;
        }
        feed.turn()?;
        add_taken(alloc, &mut ear, &mut text)?;
    }
    Ok(text)
}

/// Adds the texts of the items that are there.
pub fn add_taken(alloc: Global, ear: &mut Ear, text: &mut String) -> Result<(), Fail>
    ensures { IsSameEar ear.old ear.new }
{
    for _ in 0..100 {
        match ear.take() {
            Some(item) => add(alloc, text, &item)?,
            None => return Ok(()),
        }
    }
    Ok(())
}

fn add(alloc: Global, text: &mut String, item: &Item) -> Result<(), AllocError> {
    match item {
        Item::Offered(event) => write!(text, "|{}", event_text(alloc, event)?.as_str()),
        Item::Bad(number) => write!(text, "|bad {number}"),
        Item::Failed => text.push_str("|failed"),
        Item::End => text.push_str("|end"),
    }
}
