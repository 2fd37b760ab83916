//! Tables, as texts: lines of what is asked of benches, and programs with what is asked of their floors.
use crate::bench::bench_holds;
use crate::floors::floor_holds;
use js_data::{Event, Text};
use std::alloc::Global;
use std::process::Abort;
use std::test::Fail;

/// The event of this name.
pub fn event(alloc: Global, name: &str) -> Result<Event, Fail> {
    let text = Text::new(String::from_str(alloc, name)?);
    Ok(Event::new(text, None)?)
}

/// Whether the bench answers what stands after the mark.
fn line_holds(alloc: Global, line: &str) -> Result<bool, Fail> {
    let (cell, want) = line.split_once(" --> ").ok_or("no answer")?;
    bench_holds(alloc, cell, want)
}

/// Each line of the table holds: what is asked of a bench, the mark ` --> `, and its answer.
pub fn benches_agree(rt: &impl Abort, alloc: Global, table: &str) -> Result<(), Fail> {
    for line in table.trim().lines() {
        assert!(rt; line_holds(alloc, line)?, "{line}");
    }
    Ok(())
}

/// Whether the floor of the program answers what stands after the line `--`.
fn part_holds(alloc: Global, part: &str) -> Result<bool, Fail> {
    let (script, want) = part.split_once("\n--\n").ok_or("no answer")?;
    floor_holds(alloc, script, want)
}

/// Each part of the table holds: a program, a line `--`, and what its floor answers. Between programs stands an empty line.
pub fn floors_agree(rt: &impl Abort, alloc: Global, table: &str) -> Result<(), Fail> {
    for part in table.trim().split("\n\n") {
        assert!(rt; part_holds(alloc, part)?, "{part}");
    }
    Ok(())
}
