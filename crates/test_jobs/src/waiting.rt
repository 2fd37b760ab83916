//! Jobs that wait for each other, which fewer threads could not carry.
use crate::gates::{Holding, Meeting};
use crate::several::told_of;
use std::test::Fail;

/// Two b-threads of more than 1,000 nodes each.
const TWO: &str = r#"
const make = i => () => { for (let r = 0; r < 500; r++) ; bp.log.info(i) }
for (let i = 0; i < 2; i++) bp.registerBThread("t", make(i))
"#;

/// Three such b-threads.
const THREE: &str = r#"
const make = i => () => { for (let r = 0; r < 500; r++) ; bp.log.info(i) }
for (let i = 0; i < 3; i++) bp.registerBThread("t", make(i))
"#;

const TWO_TOLD: &str = "0: 0 ended; 1: 1 ended; ";

const THREE_TOLD: &str = "0: 0 ended; 1: 1 ended; 2: 2 ended; ";

#[test]
fn two_jobs_are_carried_at_once(rt: HostRuntime) -> Result<(), Fail> {
    let gate = Meeting::new(rt.alloc(), 2)?;
    let found = told_of(&rt, rt.alloc(), TWO, 100_000, 2, 10, &gate)?;
    assert!(rt; found.as_str() == TWO_TOLD);
    assert!(rt; gate.was_met());
    Ok(())
}

#[test]
fn three_jobs_are_carried_at_once(rt: HostRuntime) -> Result<(), Fail> {
    let gate = Meeting::new(rt.alloc(), 3)?;
    let found = told_of(&rt, rt.alloc(), THREE, 100_000, 3, 10, &gate)?;
    assert!(rt; found.as_str() == THREE_TOLD);
    assert!(rt; gate.was_met());
    Ok(())
}

#[test]
fn a_job_is_held_until_one_of_a_thousand_slices_is_done(rt: HostRuntime) -> Result<(), Fail> {
    let gate = Holding::new(rt.alloc(), 2, 0)?;
    let found = told_of(&rt, rt.alloc(), TWO, 100_000, 2, 1, &gate)?;
    assert!(rt; found.as_str() == TWO_TOLD);
    assert!(rt; gate.was_kept());
    assert!(rt; gate.slices(0) >= 1_000 && gate.slices(1) >= 1_000);
    Ok(())
}

#[test]
fn each_of_three_jobs_is_held_until_the_others_are_done(rt: HostRuntime) -> Result<(), Fail> {
    for held in 0..3 {
        let gate = Holding::new(rt.alloc(), 3, held)?;
        let found = told_of(&rt, rt.alloc(), THREE, 100_000, 2, 1, &gate)?;
        assert!(rt; found.as_str() == THREE_TOLD);
        assert!(rt; gate.was_kept());
        assert!(rt; gate.slices(0) >= 1_000 && gate.slices(1) >= 1_000 && gate.slices(2) >= 1_000);
    }
    Ok(())
}
