//! Injectors on threads of their own.
use crate::sources::{Drip, Meeting};
use crate::told::add_taken;
use bp_inject::{Berth, join, start};
use bp_lanes::Bell;
use std::alloc::Global;
use std::sync::Wait;
use std::sync::atomic::AtomicU64;
use std::test::Fail;
use std::thread;
use std::thread::Threads;

const FIRST: &[u8] = b"[\"a\",1]\n[\"a\",2]\n[\"a\",3]\n";

const SECOND: &[u8] = b"[\"b\",1]\n[\"b\",2]\n[\"b\",3]\n";

const BOTH: &str = r#"|["a",1]|["a",2]|["a",3]|end|["b",1]|["b",2]|["b",3]|end"#;

fn meeting<'a>(alloc: Global, bytes: &[u8], begun: &'a AtomicU64) -> Result<Meeting<'a>, Fail> {
    Ok(Meeting {
        begun,
        meets: 2,
        inner: Drip::new(alloc, bytes, 5, 0)?,
        first: true,
        faults: 0,
    })
}

/// The items of two injectors, of which each waits for the first read of the other.
fn both<R: Threads + Wait + Sync>(rt: &R, alloc: Global) -> Result<String, Fail> {
    let (begun, bell) = (AtomicU64::new(0), Bell::new());
    let (begun, bell) = (&begun, &bell);
    thread::scope(
        thread::scope_env(),
        rt,
        move |scope| -> Result<String, Fail> {
            let first = meeting(alloc, FIRST, begun)?;
            let second = meeting(alloc, SECOND, begun)?;
            let (berth, next) = (Berth::new(alloc)?, Berth::new(alloc)?);
            let (first, mut ear) = start(rt, alloc, scope, bell, berth, first);
            let (second, mut other) = start(rt, alloc, scope, bell, next, second);
            let mut text = String::new(alloc);
            let (_, answer) = join(rt, first, &mut ear);
            answer?;
            add_taken(alloc, &mut ear, &mut text)?;
            let (_, answer) = join(rt, second, &mut other);
            answer?;
            add_taken(alloc, &mut other, &mut text)?;
            Ok(text)
        },
    )
}

#[test]
fn two_injectors_read_at_once(rt: HostRuntime) -> Result<(), Fail> {
    let text = both(&rt, rt.alloc())?;
    assert!(rt; text.as_str() == BOTH);
    Ok(())
}
