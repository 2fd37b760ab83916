//! Tables, as texts of lines with `-->` between a text and what is wanted of it.
use crate::{nestings, tokens, trees};
use std::alloc::Global;
use std::process::Abort;
use std::test::Fail;

/// What the lines of a table are of.
#[derive(Clone, Copy)]
pub enum Lines {
    /// Bytes, some of them as `%` and two digits, and their tokens.
    Tokens,
    /// A text, in which `\n` stands for a line end, and its tree.
    Trees,
    /// How many times, a shape and its tree.
    Nestings,
}

fn holds(alloc: Global, lines: Lines, line: &str) -> Result<bool, Fail> {
    let (left, right) = line.split_once("-->").ok_or("no answer")?;
    let (cell, want) = (left.trim(), right.trim());
    match lines {
        Lines::Tokens => tokens::agrees(alloc, cell, want),
        Lines::Trees => trees::agrees(alloc, cell, want),
        Lines::Nestings => nestings::agrees(alloc, cell, want),
    }
}

/// Each line of the table holds. One that is indented goes on with the line before.
pub fn agree(rt: &impl Abort, alloc: Global, lines: Lines, table: &str) -> Result<(), Fail> {
    let whole = table.replace(alloc, "\n    ", " ")?;
    for line in whole.as_str().trim().lines() {
        assert!(rt; holds(alloc, lines, line)?, "{line}");
    }
    Ok(())
}
