//! Super-steps whose outcomes are the same whatever the workers and the slice.
use crate::several::told_of;
use bp_pool::Open;
use std::alloc::Global;
use std::sync::Wait;
use std::test::Fail;
use std::thread::Threads;

/// 64 b-threads of which each loops a while, tells its number and stops; two that violate, one after a loop and one at once; a
/// body of ten nodes and one that never ends, under budgets of ten nodes and of nine; 40 b-threads that stop at once, each with
/// an event of its own; and one that stops, one that registers another, and one that enqueues and is at fault.
const SUPERSTEPS: &str = r#"
100000 1,2,3,64 1,7,100000
const make = i => () => {
  for (let r = 0; r < i; r++) ;
  bp.log.info(i);
  bp.sync({request: bp.Event("e", i)})
}
for (let i = 0; i < 64; i++) bp.registerBThread("t", make(i))
--
0: 0 stop; 1: 1 stop; 2: 2 stop; 3: 3 stop; 4: 4 stop; 5: 5 stop; 6: 6 stop; 7: 7 stop;
8: 8 stop; 9: 9 stop; 10: 10 stop; 11: 11 stop; 12: 12 stop; 13: 13 stop; 14: 14 stop; 15: 15 stop;
16: 16 stop; 17: 17 stop; 18: 18 stop; 19: 19 stop; 20: 20 stop; 21: 21 stop; 22: 22 stop; 23: 23 stop;
24: 24 stop; 25: 25 stop; 26: 26 stop; 27: 27 stop; 28: 28 stop; 29: 29 stop; 30: 30 stop; 31: 31 stop;
32: 32 stop; 33: 33 stop; 34: 34 stop; 35: 35 stop; 36: 36 stop; 37: 37 stop; 38: 38 stop; 39: 39 stop;
40: 40 stop; 41: 41 stop; 42: 42 stop; 43: 43 stop; 44: 44 stop; 45: 45 stop; 46: 46 stop; 47: 47 stop;
48: 48 stop; 49: 49 stop; 50: 50 stop; 51: 51 stop; 52: 52 stop; 53: 53 stop; 54: 54 stop; 55: 55 stop;
56: 56 stop; 57: 57 stop; 58: 58 stop; 59: 59 stop; 60: 60 stop; 61: 61 stop; 62: 62 stop; 63: 63 stop;

100000 1,2 1,1000
bp.registerBThread("A", function() { for (let i = 0; i < 50; i++) {} bp.ASSERT(false, "first"); });
bp.registerBThread("B", function() { bp.ASSERT(false, "second"); });
--
0: violated first; 1: violated second;

10 1,2 1,3,1000
bp.registerBThread("A", function() { let a = 1 + 2; let b = a; a + b; });
bp.registerBThread("B", function() { while (true) {} });
--
0: ended; 1: spent;

9 1,2 1,3,1000
bp.registerBThread("A", function() { let a = 1 + 2; let b = a; a + b; });
bp.registerBThread("B", function() { while (true) {} });
--
0: spent; 1: spent;

1000 1,2,8 1,7,1000
const make = i => () => { for (let r = 0; r < 4; r++) bp.sync({request: bp.Event("e", i)}) }
for (let i = 0; i < 40; i++) bp.registerBThread("t" + i, make(i))
--
0: stop; 1: stop; 2: stop; 3: stop; 4: stop; 5: stop; 6: stop; 7: stop; 8: stop; 9: stop;
10: stop; 11: stop; 12: stop; 13: stop; 14: stop; 15: stop; 16: stop; 17: stop; 18: stop; 19: stop;
20: stop; 21: stop; 22: stop; 23: stop; 24: stop; 25: stop; 26: stop; 27: stop; 28: stop; 29: stop;
30: stop; 31: stop; 32: stop; 33: stop; 34: stop; 35: stop; 36: stop; 37: stop; 38: stop; 39: stop;

1000 1,2,8 1,7,1000
bp.registerBThread("A", function() { bp.sync({request: bp.Event("a")}); });
bp.registerBThread("B", function() { bp.log.info("b"); bp.registerBThread("D", function() {}); });
bp.registerBThread("C", function() { bp.enqueueExternalEvent(bp.Event("c")); 1 / 0; });
--
0: stop; 1: b register D ended; 2: enqueue zero 3;
"#;

/// Whether the same is told of the super-step of the b-threads that the script registers, under each number of workers and each
/// slice, and is what is wanted. The words are a budget, the numbers of workers, and those of the nodes of a slice.
fn superstep_agrees<R: Threads + Wait + Sync>(
    rt: &R,
    alloc: Global,
    words: &str,
    script: &str,
    want: &str,
) -> Result<bool, Fail> {
    let (budget, rest) = words.split_once(" ").ok_or("no workers")?;
    let (workers, slices) = rest.split_once(" ").ok_or("no slices")?;
    let budget = budget.parse::<u64>()?;
    for worker_count in workers.split(",") {
        let worker_count = worker_count.parse::<u32>()?;
        for slice in slices.split(",") {
            let slice = slice.parse::<u64>()?;
            let found = told_of(rt, alloc, script, budget, worker_count, slice, &Open)?;
            if found.as_str().trim() != want {
                return Ok(false);
            }
        }
    }
    Ok(true)
}

/// Whether what is told of the super-step of this part of the table is what is wanted.
fn holds<R: Threads + Wait + Sync>(rt: &R, alloc: Global, part: &str) -> Result<bool, Fail> {
    let (words, rest) = part.split_once("\n").ok_or("no script")?;
    let (script, want) = rest.split_once("\n--\n").ok_or("no answer")?;
    let want = want.replace(alloc, "\n", " ")?;
    superstep_agrees(rt, alloc, words, script, want.as_str())
}

#[test]
fn supersteps_are_the_same_by_any_workers(rt: HostRuntime) -> Result<(), Fail> {
    for part in SUPERSTEPS.trim().split("\n\n") {
        assert!(rt; holds(&rt, rt.alloc(), part)?, "{part}");
    }
    Ok(())
}
