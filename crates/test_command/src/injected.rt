//! Runs with injectors, of which a call fails, and one that does not wait for them.

use crate::world::{Held, Ran, holding, ran_in};
use std::alloc::Global;
use std::process::Abort;
use std::sync::Wait;
use std::test::Fail;
use std::thread::Threads;
use std::time::Clock;

/// What a replay of this log did.
fn replayed<R: Threads + Wait + Sync + Clock>(
    rt: &R,
    alloc: Global,
    log: &[u8],
) -> Result<Ran, Fail> {
    let text = str::from_utf8(log).ok().ok_or("no text")?;
    ran_in(rt, alloc, "replay|l", holding(&[("l", text)]))
}

/// A b-thread that waits for whatever comes.
const WATCHES: &str =
    r#"bp.registerBThread("W", () => { while (true) bp.sync({waitFor: bp.all}) })"#;

const A: [&str; 3] = [
    "external [\"a\",1]",
    "external [\"a\",2]",
    "external [\"a\",3]",
];

const B: [&str; 3] = [
    "external [\"b\",1]",
    "external [\"b\",2]",
    "external [\"b\",3]",
];

const END: &str = "verdict quiet 6";

const TWO: [(&str, &str); 3] = [
    ("p", WATCHES),
    ("a", "[\"a\",1]\n[\"a\",2]\n[\"a\",3]\n"),
    ("b", "[\"b\",1]\n[\"b\",2]\n[\"b\",3]\n"),
];

/// How many lines of each of two injectors came, and whether the verdict did.
#[derive(Drop)]
struct Front {
    a: usize,
    b: usize,
    ended: bool,
}

impl Front {
    /// Whether the line may come next, and then it does.
    fn takes(&mut self, line: &str) -> bool {
        if self.a < 3 && line == A[self.a] {
            self.a += 1;
            return true;
        }
        if self.b < 3 && line == B[self.b] {
            self.b += 1;
            return true;
        }
        let is_end = self.a == 3 && self.b == 3 && !self.ended && line == END;
        self.ended = self.ended || is_end;
        is_end
    }

    /// Whether some line that may come next begins so.
    fn begins(&self, start: &str) -> bool {
        start.is_empty()
            || self.a < 3 && A[self.a].starts_with(start)
            || self.b < 3 && B[self.b].starts_with(start)
            || self.a == 3 && self.b == 3 && !self.ended && END.starts_with(start)
    }
}

/// Whether the text begins a text of one of the twenty merges, and then whether it is all of it.
fn merged(text: &[u8]) -> Option<bool> {
    let text = str::from_utf8(text).ok()?;
    let (lines, rest) = text.rsplit_once("\n").unwrap_or(("", text));
    let mut front = Front {
        a: 0,
        b: 0,
        ended: false,
    };
    for line in lines.split("\n") {
        if !line.is_empty() && !front.takes(line) {
            return None;
        }
    }
    if !front.begins(rest) {
        return None;
    }
    Some(front.ended)
}

/// A run of the two with a log, in which these calls fail, ends with this status and this note, and prints a
/// front of a merge without its verdict.
fn breaks<R: Threads + Wait + Sync + Clock + Abort>(
    rt: &R,
    alloc: Global,
    held: Held<'_>,
    status: u8,
    note: &str,
) -> Result<Ran, Fail> {
    let ran = ran_in(rt, alloc, "run|p|a|b|--log=log", held)?;
    assert!(rt;
        ran.status == status && ran.note.as_str() == note,
        "{status}"
    );
    assert!(rt; merged(&ran.printed) == Some(false), "{status}");
    Ok(ran)
}

/// The first calls: of each that fails before the run nothing is printed.
#[test]
fn each_call_before_the_run_fails(rt: HostRuntime) -> Result<(), Fail> {
    let alloc = rt.alloc();
    for call in 1..=3u64 {
        let held = Held {
            world: call,
            ..holding(&TWO)
        };
        assert!(rt;
            breaks(&rt, alloc, held, 8, "read fault")?
                .printed
                .is_empty()
        );
    }
    let held = Held {
        world: 4,
        ..holding(&TWO)
    };
    assert!(rt;
        breaks(&rt, alloc, held, 9, "write fault")?
            .printed
            .is_empty()
    );
    for call in 1..=2u64 {
        let held = Held {
            name: "p",
            call,
            ..holding(&TWO)
        };
        assert!(rt;
            breaks(&rt, alloc, held, 8, "read fault")?
                .printed
                .is_empty()
        );
    }
    let held = Held {
        name: "log",
        call: 1,
        ..holding(&TWO)
    };
    assert!(rt;
        breaks(&rt, alloc, held, 9, "write fault")?
            .printed
            .is_empty()
    );
    Ok(())
}

/// Each write to the log and to the output fails, by its number. How many there are is not said: a number
/// past them fails none.
#[test]
fn each_write_of_the_run_fails(rt: HostRuntime) -> Result<(), Fail> {
    let alloc = rt.alloc();
    for call in 1..=16u64 {
        let log = Held {
            name: "log",
            call,
            ..holding(&TWO)
        };
        let output = Held {
            output: call,
            ..holding(&TWO)
        };
        for held in [log, output] {
            let ran = ran_in(&rt, alloc, "run|p|a|b|--log=log", held)?;
            let ended = merged(&ran.printed).ok_or("no front of a merge")?;
            let note = ran.note.as_str();
            assert!(rt;
                ran.status == 9 && note == "write fault" || ran.status == 0 && ended,
                "{call}"
            );
        }
    }
    Ok(())
}

#[test]
fn each_read_of_each_injector_fails(rt: HostRuntime) -> Result<(), Fail> {
    let alloc = rt.alloc();
    for name in ["a", "b"] {
        for call in 1..=2u64 {
            let held = Held {
                name,
                call,
                ..holding(&TWO)
            };
            breaks(&rt, alloc, held, 8, "read fault")?;
        }
        let held = Held {
            name,
            call: 3,
            ..holding(&TWO)
        };
        let ran = ran_in(&rt, alloc, "run|p|a|b", held)?;
        assert!(rt; ran.status == 0 && merged(&ran.printed) == Some(true));
    }
    Ok(())
}

/// Of three injectors one fails at its first or its second read: no verdict is printed, and the log has
/// none.
#[test]
fn each_of_three_injectors_fails(rt: HostRuntime) -> Result<(), Fail> {
    let alloc = rt.alloc();
    let [script, a, b] = TWO;
    let files = [script, a, b, ("c", "[\"c\"]\n")];
    for name in ["a", "b", "c"] {
        for call in 1..=2u64 {
            let held = Held {
                name,
                call,
                ..holding(&files)
            };
            let ran = ran_in(&rt, alloc, "run|p|a|b|c|--log=log", held)?;
            assert!(rt;
                ran.status == 8 && ran.note.as_str() == "read fault",
                "{name} {call}"
            );
            let again = replayed(&rt, alloc, &ran.log)?;
            assert!(rt;
                again.came_to(11, "bad log: cut", &ran.printed),
                "{name} {call}"
            );
        }
    }
    Ok(())
}

/// A run of the two that does not wait takes what is there in time, in the order of its injectors, and its
/// log replays to the same bytes.
#[test]
fn a_run_that_does_not_wait_takes_what_is_there(rt: HostRuntime) -> Result<(), Fail> {
    let alloc = rt.alloc();
    for more in ["", "|--workers=1|--slice=1", "|--workers=8"] {
        let line = format!(in alloc; "run|--wait=no|p|a|b|--log=log{more}")?;
        let ran = ran_in(&rt, alloc, line.as_str(), holding(&TWO))?;
        let text = str::from_utf8(&ran.printed).ok().ok_or("no text")?;
        let (told, verdict) = text.rsplit_once("verdict ").ok_or("no verdict")?;
        let quiet = format!(in alloc; "quiet {}\n", told.lines().count())?;
        let log = str::from_utf8(&ran.log).ok().ok_or("no text")?;
        assert!(rt;
            ran.status == 0 && verdict == quiet.as_str() && merged(told.as_bytes()).is_some(),
            "{line}"
        );
        assert!(rt; log.contains("\ninjectors 2\nwait no\nprogram "), "{line}");
        assert!(rt;
            replayed(&rt, alloc, &ran.log)?.came_to(0, "", &ran.printed),
            "{line}"
        );
    }
    Ok(())
}
