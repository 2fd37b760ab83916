//! Rows with injectors, by several workers and slices.
use crate::bench::{source, told};
use std::alloc::Global;
use std::sync::Wait;
use std::test::Fail;
use std::thread::Threads;
use std::time::Clock;

const BLOCKED: &str =
    "bp.registerBThread(\"B\", () => { bp.sync({waitFor: bp.Event(\"go\"), block: bp.Event(\"x\")}) }); \
     bp.registerBThread(\"C\", () => { bp.sync({waitFor: bp.Event(\"x\")}); bp.log.info(\"got\") })";

const BLOCKED_LINES: &str = "[\"x\"]\n[\"go\"]\n";

const BLOCKED_TEXT: &str =
    "external [\"go\"]\ndone \"B\"\nexternal [\"x\"]\nlog \"C\" \"got\"\ndone \"C\"\nverdict quiet 2\n";

/// A b-thread that hears every event.
pub const WATCHES: &str =
    r#"bp.registerBThread("W", () => { while (true) bp.sync({waitFor: bp.all}) })"#;

/// A b-thread that ends at the first event.
pub const ONCE: &str = r#"bp.registerBThread("A", () => { bp.sync({waitFor: bp.all}) })"#;

/// Workers and slices of runs whose text is the same by each of them.
pub const BESIDES: [(u32, u64); 4] = [(1, 1), (1, 10_000), (2, 7), (8, 10_000)];

/// A blocked event keeps its place and is overtaken.
fn blocked<R: Threads + Wait + Sync + Clock>(
    rt: &R,
    alloc: Global,
    parallelism: (u32, u64),
) -> Result<bool, Fail> {
    let mut inputs = Vec::new(alloc);
    inputs.push(source(alloc, BLOCKED_LINES, &[])?)?;
    let came = told(rt, alloc, BLOCKED, parallelism, inputs, &[], &[])?;
    Ok(
        came.printed.as_str() == BLOCKED_TEXT
            && came.end.as_str() == "verdict quiet 2"
            && came.back == 1,
    )
}

#[test]
fn a_blocked_event_is_overtaken(rt: HostRuntime) -> Result<(), Fail> {
    for parallelism in BESIDES {
        assert!(rt; blocked(&rt, rt.alloc(), parallelism)?);
    }
    Ok(())
}

/// Whether these are the lines of two injectors in some order, and then the verdict.
fn is_merge(text: &str) -> bool {
    let (mut a, mut b, mut ended) = (0, 0, false);
    for line in text.split("\n") {
        if line == "external [\"a\",1]" && a == 0
            || line == "external [\"a\",2]" && a == 1
            || line == "external [\"a\",3]" && a == 2
        {
            a += 1;
        } else if line == "external [\"b\",1]" && b == 0
            || line == "external [\"b\",2]" && b == 1
            || line == "external [\"b\",3]" && b == 2
        {
            b += 1;
        } else if line == "verdict quiet 6" && a == 3 && b == 3 {
            ended = true;
        } else if line != "" {
            return false;
        }
    }
    ended
}

/// Six events come in one of twenty merges.
fn merged<R: Threads + Wait + Sync + Clock>(
    rt: &R,
    alloc: Global,
    parallelism: (u32, u64),
) -> Result<bool, Fail> {
    let mut inputs = Vec::new(alloc);
    inputs.push(source(alloc, "[\"a\",1]\n[\"a\",2]\n[\"a\",3]\n", &[])?)?;
    inputs.push(source(alloc, "[\"b\",1]\n[\"b\",2]\n[\"b\",3]\n", &[])?)?;
    let came = told(rt, alloc, WATCHES, parallelism, inputs, &[], &[])?;
    Ok(is_merge(came.printed.as_str()) && came.end.as_str() == "verdict quiet 6" && came.back == 2)
}

#[test]
fn two_injectors_merge(rt: HostRuntime) -> Result<(), Fail> {
    for parallelism in BESIDES {
        assert!(rt; merged(&rt, rt.alloc(), parallelism)?);
    }
    Ok(())
}

/// A bad line ends a run that has nothing else to do.
#[test]
fn a_bad_line_ends_the_run(rt: HostRuntime) -> Result<(), Fail> {
    let alloc = rt.alloc();
    let mut inputs = Vec::new(alloc);
    inputs.push(source(alloc, "[\"x\"]\noops\n", &[])?)?;
    let came = told(&rt, alloc, ONCE, (2, 100), inputs, &[], &[])?;
    assert_eq!(rt;
        came.printed.as_str(),
        "external [\"x\"]\ndone \"A\"\nverdict bad 0 2\n"
    );
    assert_eq!(rt; came.end.as_str(), "verdict bad 0 2");
    assert_eq!(rt; came.back, 1);
    Ok(())
}

/// Without injectors a session is the run.
#[test]
fn a_run_without_injectors(rt: HostRuntime) -> Result<(), Fail> {
    let alloc = rt.alloc();
    let script = r#"bp.registerBThread("A", () => { bp.sync({request: bp.Event("e")}) })"#;
    let came = told(&rt, alloc, script, (2, 100), Vec::new(alloc), &[], &[])?;
    assert_eq!(rt;
        came.printed.as_str(),
        "event [\"e\"]\ndone \"A\"\nverdict quiet 1\n"
    );
    assert_eq!(rt; came.end.as_str(), "verdict quiet 1");
    assert_eq!(rt; came.back, 0);
    Ok(())
}
