//! Logs that can not be read or written.

use crate::world::{Held, holding, ran_in};
use std::test::Fail;

/// A log of the first version.
const LOG: &str =
    "bp-log 1\nstrategy simple\nseed 0\nbudget 1\nsteps 1\ninjectors 0\nprogram 0\n\nend quiet 0\n";

#[test]
fn a_migration_that_fails_says_so(rt: HostRuntime) -> Result<(), Fail> {
    let alloc = rt.alloc();
    let files = [("l", LOG)];
    let unread = Held {
        name: "l",
        call: 1,
        ..holding(&files)
    };
    let ran = ran_in(&rt, alloc, "migrate|l", unread)?;
    assert!(rt; ran.came_to(8, "read fault", b""));
    let unwritten = Held {
        output: 1,
        ..holding(&files)
    };
    let ran = ran_in(&rt, alloc, "migrate|l", unwritten)?;
    assert!(rt; ran.came_to(9, "write fault", b""));
    Ok(())
}

/// The log is not made, or its first write fails.
#[test]
fn what_is_not_in_the_log_is_not_printed(rt: HostRuntime) -> Result<(), Fail> {
    let files = [(
        "p",
        r#"bp.registerBThread("A", () => { bp.sync({request: bp.Event("a")}) })"#,
    )];
    let uncreated = Held {
        world: 2,
        ..holding(&files)
    };
    let unwritten = Held {
        name: "log",
        call: 1,
        ..holding(&files)
    };
    for held in [uncreated, unwritten] {
        let ran = ran_in(&rt, rt.alloc(), "run|--log|log|p", held)?;
        assert!(rt; ran.came_to(9, "write fault", b""));
    }
    Ok(())
}
