//! Jobs of several b-threads, and what is told of them: their lines, and where they stand.
ghost use Rattle.std.specs.Prelude.{IfOk};
ghost use Rattle.js_frames.specs.Places.{plain_ground};
ghost use Rattle.bp_thread.specs.Carried.{HaveDistinctNumbers};
ghost use Rattle.bp_pool.specs.Carrying.{AreOf, AreOpen};

use crate::programs::started;
use bp_log::limits::MOST_WORKERS;
use bp_pool::{Gate, superstep};
use bp_thread::{Job, Outcome};
use js_data::Text;
use js_frames::{Effect, Effects, Ground};
use js_program::Mode;
use js_value::Value;
use std::alloc::{AllocError, Global};
use std::sync::Wait;
use std::test::Fail;
use std::thread::Threads;

/// A job of each b-thread that was registered, numbered from 0 in order.
fn jobs_of(
    alloc: Global,
    ground: &Ground,
    functions: Vec<Value>,
    budget: u64,
) -> Result<Vec<Job>, Fail>
    ensures program { IfOk result (λ jobs. AreOf (plain_ground ground.now) jobs.items) }
    ensures open { IfOk result (λ jobs. AreOpen jobs.items) }
    ensures distinct { IfOk result (λ jobs. HaveDistinctNumbers jobs.items) }
{
    let mut jobs = Vec::new(alloc);
    let mut number: u32 = 0;
    for function in functions {
        let name = Text::new(String::from_str(alloc, "t")?);
        let args = Vec::new(alloc);
        let job = Job::start(
            alloc,
            ground,
            number,
            name,
            Mode::Thread,
            function,
            args,
            budget,
        )?;
        jobs.push(job)?;
        number = number.checked_add(1).ok_or("too many b-threads")?;
    }
    Ok(jobs)
}

fn push_lines(out: &mut String, effects: &Effects) -> Result<(), AllocError> {
    for effect in &effects.items {
        match effect {
            Effect::Line(text) => write!(out, "{} ", text.as_str())?,
            Effect::Enqueue(_) => out.push_str("enqueue ")?,
            Effect::Register(name, _) => write!(out, "register {} ", name.as_str())?,
            Effect::Handler(_) => out.push_str("handler ")?,
        }
    }
    Ok(())
}

fn push_outcome(out: &mut String, job: &Job) -> Result<(), AllocError> {
    match job.outcome() {
        None => out.push_str("none"),
        Some(Outcome::Stopped(_)) => out.push_str("stop"),
        Some(Outcome::Ended) => out.push_str("ended"),
        Some(Outcome::Broken(fault, line)) => write!(out, "{} {}", fault.name(), *line),
        Some(Outcome::Violated(text)) => write!(out, "violated {}", text.as_str()),
        Some(Outcome::Spent) => out.push_str("spent"),
    }
}

/// The job's number, what it did, and where it stands.
pub fn push_job(out: &mut String, job: Job) -> Result<(), AllocError> {
    let mut job = job;
    write!(out, "{}: ", job.number())?;
    let effects = job.take_effects();
    push_lines(out, &effects)?;
    push_outcome(out, &job)?;
    out.push_str("; ")
}

/// The same of each job in order.
fn push_told(out: &mut String, jobs: Vec<Job>) -> Result<(), AllocError> {
    for job in jobs {
        push_job(out, job)?;
    }
    Ok(())
}

/// What is told of the super-step of what the script registers, by this many workers in slices of this many nodes.
pub fn told_of<R: Threads + Wait + Sync, G: Gate + Sync>(
    rt: &R,
    alloc: Global,
    script: &str,
    budget: u64,
    workers: u32,
    slice: u64,
    gate: &G,
) -> Result<String, Fail> {
    if workers == 0 || workers > MOST_WORKERS || slice == 0 {
        return Err("no worker, too many, or no node")?;
    }
    let (ground, functions) = started(alloc, script)?;
    let jobs = jobs_of(alloc, &ground, functions, budget)?;
    let done = superstep(rt, alloc, &ground, jobs, workers, slice, gate)?;
    let mut out = String::new(alloc);
    push_told(&mut out, done)?;
    Ok(out)
}
