//! The state of a run at rest, in words.
ghost use Rattle.std.specs.Prelude.{◌≡◌, ◌++◌, OnOk, string_bytes, flat_map};
ghost use Rattle.js_data.specs.JsonText.{quoted_text};
ghost use Rattle.js_frames.specs.Places.{plain_ground};
ghost use Rattle.bp_meaning.specs.Membership.{member};
ghost use Rattle.bp_explain.specs.Listed.{listed};
ghost use Rattle.bp_explain.specs.Sets.{spelling_of};
ghost use Rattle.bp_explain.specs.Standing.{standing_text};
ghost use Rattle.bp_explain.specs.States.{waiting_text, reading_text};
ghost use Rattle.bp_explain.specs.Stops.{blocked_by, blocked_line, blocker_names, each_line, request_line, requester_names, rest_lines, standing_of, stuck_lines, waiting_line};
ghost use Rattle.bp_explain.specs.inner.Lists.{texts_in};

use crate::sets::write_event;
use crate::standing::write_standing;
use crate::stops::{Stop, blockers, candidates, requesters};
use js_data::{Event, Memory, Text};
use js_frames::Ground;
use js_json::quoted;
use std::alloc::Global;

/// Where a run rests, as far as it is said in words.
#[derive(Clone, Copy)]
pub struct Rest<'a> {
    /// The program and its constants.
    pub ground: &'a Ground,
    /// The budget of a predicate.
    pub budget: u64,
    /// The b-threads that stand at a `bp.sync`, in the order of registration.
    pub stops: &'a [Stop<'a>],
    /// The events that wait.
    pub queue: &'a [Event],
    /// The injectors that are read.
    pub reading: &'a [u32],
    /// Whether nothing can be selected.
    pub nothing: bool,
}

/// Writes names with commas between.
pub(crate) fn write_names(alloc: Global, names: &[&Text], text: &mut String) -> Result<(), Memory>
    ensures { OnOk result (string_bytes text.new
        ≡ string_bytes text.old ++ listed quoted_text (texts_in names.now)) }
{
    let mut later = false;
    for name in names {
        if later {
            text.push_str(", ")?;
        }
        let words = quoted(alloc, *name)?;
        text.push_str(words.as_str())?;
        later = true;
    }
    Ok(())
}

/// Writes the b-threads where they stand.
fn write_stops(alloc: Global, rest: &Rest<'_>, text: &mut String) -> Result<(), Memory>
    ensures { OnOk result (string_bytes text.new ≡ string_bytes text.old ++ flat_map
        (λ s. standing_text (spelling_of (plain_ground rest.now.ground.now).program) (standing_of s))
        rest.now.stops.now) }
{
    let program = rest.ground.program();
    for stop in rest.stops {
        write_standing(alloc, program, stop.name, stop.line, stop.statement, text)?;
    }
    Ok(())
}

/// Writes an event that waits.
fn write_waiting(alloc: Global, event: &Event, text: &mut String) -> Result<(), Memory>
    ensures { OnOk result (string_bytes text.new
        ≡ string_bytes text.old ++ waiting_text event.now) }
{
    text.push_str("waiting ")?;
    write_event(alloc, event, text)?;
    text.push_str("\n")
}

/// Writes the events that wait.
fn write_queue(alloc: Global, queue: &[Event], text: &mut String) -> Result<(), Memory>
    ensures { OnOk result (string_bytes text.new
        ≡ string_bytes text.old ++ flat_map waiting_text queue.now) }
{
    for event in queue {
        write_waiting(alloc, event, text)?;
    }
    Ok(())
}

/// Writes the injectors that are read.
fn write_reading(alloc: Global, reading: &[u32], text: &mut String) -> Result<(), Memory>
    ensures { OnOk result (string_bytes text.new
        ≡ string_bytes text.old ++ flat_map reading_text reading.now) }
{
    for injector in reading {
        let words = format!(in alloc; "injector {injector} is read\n")?;
        text.push_str(words.as_str())?;
    }
    Ok(())
}

/// Writes who blocks an event.
fn write_blockers(
    alloc: Global,
    rest: &Rest<'_>,
    event: &Event,
    text: &mut String,
) -> Result<(), Memory>
    ensures { let has = member (plain_ground rest.now.ground.now) rest.now.budget in
        OnOk result (string_bytes text.new ≡ string_bytes text.old
        ++ listed quoted_text (blocker_names has rest.now.stops.now event.now)) }
{
    let names = blockers(alloc, rest.ground, rest.budget, rest.stops, event)?;
    write_names(alloc, names.as_slice(), text)
}

/// Writes the words about who blocks an event, to the end of the line.
fn write_blocked_by(
    alloc: Global,
    rest: &Rest<'_>,
    event: &Event,
    text: &mut String,
) -> Result<(), Memory>
    ensures { let has = member (plain_ground rest.now.ground.now) rest.now.budget in
        OnOk result (string_bytes text.new ≡ string_bytes text.old
        ++ blocked_by has rest.now.stops.now event.now) }
{
    text.push_str(", is blocked by ")?;
    write_blockers(alloc, rest, event, text)?;
    text.push_str("\n")
}

/// Writes who requests an event.
fn write_requesters(
    alloc: Global,
    rest: &Rest<'_>,
    event: &Event,
    text: &mut String,
) -> Result<(), Memory>
    ensures { OnOk result (string_bytes text.new ≡ string_bytes text.old
        ++ listed quoted_text (requester_names rest.now.stops.now event.now)) }
{
    let names = requesters(alloc, rest.stops, event)?;
    write_names(alloc, names.as_slice(), text)
}

/// Writes an event, in words who asks for it, and everyone who blocks it.
fn write_blocked(
    alloc: Global,
    rest: &Rest<'_>,
    event: &Event,
    asked: &str,
    text: &mut String,
) -> Result<(), Memory>
    ensures { let has = member (plain_ground rest.now.ground.now) rest.now.budget in
        OnOk result (string_bytes text.new ≡ string_bytes text.old
        ++ blocked_line has rest.now.stops.now asked.now event.now) }
{
    text.push_str("  ")?;
    write_event(alloc, event, text)?;
    text.push_str(asked)?;
    write_blocked_by(alloc, rest, event, text)
}

/// Writes a requested event, with who requests and who blocks it.
fn write_request(
    alloc: Global,
    rest: &Rest<'_>,
    event: &Event,
    text: &mut String,
) -> Result<(), Memory>
    ensures { let has = member (plain_ground rest.now.ground.now) rest.now.budget in
        OnOk result (string_bytes text.new ≡ string_bytes text.old
        ++ request_line has rest.now.stops.now event.now) }
{
    let mut asked = String::new(alloc);
    asked.push_str(", requested by ")?;
    write_requesters(alloc, rest, event, &mut asked)?;
    write_blocked(alloc, rest, event, asked.as_str(), text)
}

/// Writes the requested events, with who requests and who blocks each.
fn write_requests(
    alloc: Global,
    rest: &Rest<'_>,
    asked: &[Event],
    text: &mut String,
) -> Result<(), Memory>
    ensures { let has = member (plain_ground rest.now.ground.now) rest.now.budget in
        OnOk result (string_bytes text.new ≡ string_bytes text.old
        ++ flat_map (request_line has rest.now.stops.now) asked.now) }
{
    for event in asked {
        write_request(alloc, rest, event, text)?;
    }
    Ok(())
}

/// Writes the events that wait, with who blocks each.
fn write_held(alloc: Global, rest: &Rest<'_>, text: &mut String) -> Result<(), Memory>
    ensures { let has = member (plain_ground rest.now.ground.now) rest.now.budget in
        OnOk result (string_bytes text.new ≡ string_bytes text.old
        ++ flat_map (waiting_line has rest.now.stops.now) rest.now.queue.now) }
{
    for event in rest.queue {
        write_blocked(alloc, rest, event, ", which waits", text)?;
    }
    Ok(())
}

/// Writes each event that is requested or waits, and who blocks it.
fn write_each(
    alloc: Global,
    rest: &Rest<'_>,
    asked: &[Event],
    text: &mut String,
) -> Result<(), Memory>
    ensures { let has = member (plain_ground rest.now.ground.now) rest.now.budget in
        OnOk result (string_bytes text.new ≡ string_bytes text.old
        ++ each_line has rest.now.stops.now asked.now rest.now.queue.now) }
{
    if asked.is_empty() && rest.queue.is_empty() {
        return text.push_str(": nothing is requested, and nothing waits\n");
    }
    text.push_str(":\n")?;
    write_requests(alloc, rest, asked, text)?;
    write_held(alloc, rest, text)
}

/// Writes why nothing can be selected, where that is so.
fn write_stuck(alloc: Global, rest: &Rest<'_>, text: &mut String) -> Result<(), Memory>
    ensures { let has = member (plain_ground rest.now.ground.now) rest.now.budget in
        OnOk result (string_bytes text.new ≡ string_bytes text.old
        ++ stuck_lines has rest.now.nothing rest.now.stops.now rest.now.queue.now) }
{
    if !rest.nothing {
        return Ok(());
    }
    text.push_str("nothing can be selected")?;
    let asked = candidates(alloc, rest.stops)?;
    write_each(alloc, rest, asked.as_slice(), text)
}

/// Writes where a run rests: a paragraph for each b-thread that stands, the events that wait, the
/// injectors that are read, and why nothing can be selected, where that is so.
pub fn write_rest(alloc: Global, rest: &Rest<'_>, text: &mut String) -> Result<(), Memory>
    ensures { let base = plain_ground rest.now.ground.now in OnOk result (string_bytes text.new
        ≡ string_bytes text.old ++ rest_lines (spelling_of base.program) (member base rest.now.budget)
        rest.now.nothing rest.now.stops.now rest.now.queue.now rest.now.reading.now) }
{
    write_stops(alloc, rest, text)?;
    write_queue(alloc, rest.queue, text)?;
    write_reading(alloc, rest.reading, text)?;
    write_stuck(alloc, rest, text)
}
