//! Super-steps of many jobs, by any number of workers and by slices of any length.
use crate::gates::Counting;
use crate::several::told_of;
use std::alloc::{AllocError, Global};
use std::process::Abort;
use std::sync::Wait;
use std::test::Fail;
use std::thread::Threads;

/// This many b-threads, of which each has up to fifteen times this many rounds, and tells its number.
fn script_of_many(alloc: Global, jobs: u32, rounds: u32) -> Result<String, AllocError> {
    let mut script = String::new(alloc);
    script.push_str("const make = i => () => { for (let r = 0; r < i % 16 * ")?;
    write!(script, "{}", rounds)?;
    script.push_str("; r++) ; bp.log.info(i) }\nfor (let i = 0; i < ")?;
    write!(script, "{}", jobs)?;
    script.push_str("; i++) bp.registerBThread('t', make(i))")?;
    Ok(script)
}

/// What is to be told of this many.
fn told_of_many(alloc: Global, jobs: u32) -> Result<String, AllocError> {
    let mut told = String::new(alloc);
    for number in 0..jobs {
        write!(told, "{}: {} ended; ", number, number)?;
    }
    Ok(told)
}

/// The jobs come to their outcomes in order, and the gate is told rightly.
fn agrees<R: Threads + Wait + Sync + Abort>(
    rt: &R,
    alloc: Global,
    jobs: u32,
    rounds: u32,
    workers: u32,
    slice: u64,
) -> Result<(), Fail> {
    let gate = Counting::new(alloc, jobs)?;
    let script = script_of_many(alloc, jobs, rounds)?;
    let found = told_of(rt, alloc, script.as_str(), 1_000_000, workers, slice, &gate)?;
    let wanted = told_of_many(alloc, jobs)?;
    assert!(rt;
        found.as_str() == wanted.as_str(),
        "{jobs} jobs, {workers} workers, slice {slice}"
    );
    assert!(rt;
        gate.is_right(),
        "{jobs} jobs, {workers} workers, slice {slice}"
    );
    Ok(())
}

#[test]
fn any_number_of_jobs_comes_back_in_order(rt: HostRuntime) -> Result<(), Fail> {
    for jobs in [0, 1, 2, 3, 65] {
        for slice in [1, 7, 10_000] {
            agrees(&rt, rt.alloc(), jobs, 2, 3, slice)?;
        }
    }
    Ok(())
}

#[test]
fn jobs_of_several_long_slices_come_back_in_order(rt: HostRuntime) -> Result<(), Fail> {
    for workers in [1, 2, 64] {
        agrees(&rt, rt.alloc(), 4, 1_000, workers, 10_000)?;
    }
    Ok(())
}

#[test]
fn as_many_jobs_as_there_may_be_come_back_in_order(rt: HostRuntime) -> Result<(), Fail> {
    agrees(&rt, rt.alloc(), 4_096, 1, 4, 7)
}

#[test]
fn any_number_of_workers_carries_the_same_jobs(rt: HostRuntime) -> Result<(), Fail> {
    for workers in 1..65 {
        agrees(&rt, rt.alloc(), 5, 3, workers, 7)?;
    }
    Ok(())
}
