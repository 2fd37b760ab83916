//! Replays over outputs that fail.
use crate::world::run_over;
use std::alloc::Global;
use std::test::Fail;

/// How many events the long run has: its text passes 64 KiB more than once.
const EVENTS: usize = 20_000;

/// A run and its log, and what is printed.
fn long_log(alloc: Global) -> Result<(String, String), Fail> {
    let script = format!(in alloc;
        "bp.registerBThread(\"A\", () => {{ for (let i = 0; i < {EVENTS}; i++) bp.sync({{request: bp.Event(\"t\")}}) }})"
    )?;
    let mut log = format!(in alloc;
        "bp-log 1\nstrategy simple\nseed 0\nbudget 1000000\nsteps 100000\ninjectors 0\nprogram {}\n",
        script.len()
    )?;
    write!(log, "{}\n", script.as_str())?;
    log.push_str("sel [\"t\"]\n".repeat(alloc, EVENTS)?.as_str())?;
    write!(log, "end quiet {EVENTS}\n")?;
    let mut text = "event [\"t\"]\n".repeat(alloc, EVENTS)?;
    write!(text, "done \"A\"\nverdict quiet {EVENTS}\n")?;
    Ok((log, text))
}

/// Each write of a replay fails in turn: what was printed before it is a front of the text. A text of more than 64 KiB takes
/// more than one.
#[test]
fn each_write_of_a_replay_fails(rt: HostRuntime) -> Result<(), Fail> {
    let alloc = rt.alloc();
    let (log, text) = long_log(alloc)?;
    let mut longest: usize = 0;
    for write in 1..=40u64 {
        let came = run_over(&rt, alloc, "replay|p", log.as_str().as_bytes(), write)?;
        let printed = came.printed.as_slice();
        if printed.len() == text.len() {
            assert!(rt; came.came_to(0, "", text.as_str().as_bytes()), "{write}");
        } else {
            assert!(rt;
                came.status.code == 9
                    && came.status.note.as_str() == "write fault"
                    && text.as_str().as_bytes().starts_with(printed),
                "{write}"
            );
            longest = longest.max(printed.len());
        }
    }
    assert!(rt; longest >= 65_536);
    Ok(())
}
