//! Answers of `bpx` that can not be read for or printed.

use crate::world::{Held, answered_in, holding};
use std::test::Fail;

/// A program with a mistake, and a log with a selection.
const FILES: [(&str, &str); 2] = [
    ("p", "1 / 0"),
    (
        "l",
        "bp-log 2
strategy simple
seed 0
budget 1000
steps 10
injectors 0
wait yes
program 70
bp.registerBThread(\"A\", () => { bp.sync({request: bp.Event(\"a\")}); });
sel [\"a\"]
end quiet 1
",
    ),
];

/// Something is printed where no call fails, and nothing where the file is not opened, is not read, or where the output fails.
#[test]
fn failing_calls_are_told(rt: HostRuntime) -> Result<(), Fail> {
    let alloc = rt.alloc();
    for (words, name) in [
        ("check|p", "p"),
        ("state|l", "l"),
        ("why|l|1", "l"),
        ("why|l|[\"a\"]", "l"),
        ("seeds|p|0|1", "p"),
    ] {
        let ran = answered_in(&rt, alloc, words, holding(&FILES))?;
        assert!(rt; ran.note.is_empty() && !ran.printed.is_empty(), "{words}");
        let unopened = Held {
            world: 1,
            ..holding(&FILES)
        };
        let unread = Held {
            name,
            call: 1,
            ..holding(&FILES)
        };
        for held in [unopened, unread] {
            let ran = answered_in(&rt, alloc, words, held)?;
            assert!(rt; ran.came_to(8, "read fault", b""), "{words}");
        }
        let unwritten = Held {
            output: 1,
            ..holding(&FILES)
        };
        let ran = answered_in(&rt, alloc, words, unwritten)?;
        assert!(rt; ran.came_to(9, "write fault", b""), "{words}");
    }
    Ok(())
}
