//! A job that stopped and is given an event keeps it.
use crate::programs::{BUDGET, call, carry_on, first_started, is_stopped};
use js_data::{Event, Text};
use std::alloc::Global;
use std::sync::Arc;
use std::test::Fail;

/// The event of this name.
fn event(alloc: Global, name: &str) -> Result<Event, Fail> {
    Ok(Event::new(Text::new(String::from_str(alloc, name)?), None)?)
}

/// Whether a job that stops once and is given the event of this name has it as the only one.
fn is_kept(alloc: Global, name: &str) -> Result<bool, Fail> {
    let (ground, function) = first_started(
        alloc,
        "bp.registerBThread('t', () => { bp.sync({}) })",
    )?;
    let mut job = call(alloc, &ground, function)?;
    carry_on(&mut job, &ground, 7, BUDGET)?;
    let _effects = job.take_effects();
    if !is_stopped(&job) {
        return Err("no stop")?;
    }
    job.give(&Arc::new(alloc, event(alloc, name)?)?)?;
    match job.replies() {
        [one] => Ok(one.name().as_str() == name),
        _ => Ok(false),
    }
}

#[test]
fn a_job_keeps_what_it_was_given(rt: HostRuntime) -> Result<(), Fail> {
    assert!(&rt; is_kept(rt.alloc(), "e")?);
    Ok(())
}
