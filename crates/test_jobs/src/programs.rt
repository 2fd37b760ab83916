//! Programs whose top level has run, the functions that they register, and jobs that are carried on to their outcomes.
ghost use Rattle.std.specs.Prelude.{◌≡◌, IfOk, OnOk, None, true};
ghost use Rattle.js_frames.specs.Places.{plain_ground};
ghost use Rattle.bp_thread.specs.Jobs.{plain_job, IsOf, is_stopped as stops, is_ended as ends};

use bp_script::accept;
use bp_thread::{Job, Outcome};
use js_data::Text;
use js_frames::{Effect, Effects, Ground};
use js_program::{Mode, Program};
use js_value::Value;
use std::alloc::Global;
use std::test::Fail;

/// The budget of a job of which nothing else is said.
pub const BUDGET: u64 = 100;

/// The budget of every top level.
const TOP_BUDGET: u64 = 1_000_000;

/// The program of a script.
pub fn program_of(alloc: Global, script: &str) -> Result<Program, Fail> {
    Ok(accept(alloc, script.as_bytes())?)
}

/// Whether the job stopped.
pub fn is_stopped(job: &Job) -> bool
    ensures { result ≡ stops (plain_job job.now).outcome }
{
    match job.outcome() {
        Some(Outcome::Stopped(_)) => true,
        _ => false,
    }
}

fn is_ended(job: &Job) -> bool
    ensures { result ≡ ends (plain_job job.now).outcome }
{
    match job.outcome() {
        Some(Outcome::Ended) => true,
        _ => false,
    }
}

/// Slices of this many nodes, at most this many, up to the outcome.
pub fn carry_on(job: &mut Job, ground: &Ground, nodes: u64, slices: u64) -> Result<(), Fail>
    requires program { IsOf (plain_ground ground.now).program job.old }
    requires open { (plain_job job.old).outcome ≡ None }
    ensures program { IsOf (plain_ground ground.now).program job.new }
{
    for _ in 0..slices {
        if job.slice(ground, nodes)? {
            return Ok(());
        }
    }
    Err("no outcome")?
}

/// Runs the top level to its end.
fn run_top(top: &mut Job, ground: &Ground) -> Result<(), Fail>
    requires program { IsOf (plain_ground ground.now).program top.old }
    requires open { (plain_job top.old).outcome ≡ None }
    ensures { OnOk result (ends (plain_job top.new).outcome ≡ true) }
{
    carry_on(top, ground, 7, TOP_BUDGET)?;
    if !is_ended(top) {
        return Err("the top level did not end")?;
    }
    Ok(())
}

/// The function that the effect registers, if it does.
fn function_of(effect: Effect) -> Option<Value> {
    match effect {
        Effect::Register(_name, function) => Some(function),
        _other => None,
    }
}

/// The functions that were registered, in order.
fn registered(alloc: Global, effects: Effects) -> Result<Vec<Value>, Fail> {
    let mut functions = Vec::new(alloc);
    for effect in effects.items {
        if let Some(function) = function_of(effect) {
            functions.push(function)?;
        }
    }
    Ok(functions)
}

/// The program of the script with the constants that its top level leaves, and the functions that it registers.
pub fn started(alloc: Global, script: &str) -> Result<(Ground, Vec<Value>), Fail> {
    let mut ground = Ground::bare(alloc, program_of(alloc, script)?);
    let mut top = Job::top(alloc, &ground, TOP_BUDGET)?;
    run_top(&mut top, &ground)?;
    let functions = registered(alloc, top.take_effects())?;
    ground.fill(top.constants());
    Ok((ground, functions))
}

/// The program of the script with the constants that its top level leaves, and the function that it registers first.
pub fn first_started(alloc: Global, script: &str) -> Result<(Ground, Value), Fail> {
    let (ground, functions) = started(alloc, script)?;
    let function = functions.into_iter().next().ok_or("no b-thread")?;
    Ok((ground, function))
}

/// A job of this function.
pub fn call(alloc: Global, ground: &Ground, function: Value) -> Result<Job, Fail>
    ensures program { IfOk result (λ j. IsOf (plain_ground ground.now).program j) }
    ensures open { IfOk result (λ j. (plain_job j).outcome ≡ None) }
{
    let name = Text::new(String::from_str(alloc, "t")?);
    let args = Vec::new(alloc);
    Ok(Job::start(alloc, ground, 0, name, Mode::Thread, function, args, BUDGET)?)
}
