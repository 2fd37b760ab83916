//! Texts of injectors and their items, whatever the pieces in which the bytes come.
use crate::sources::Drip;
use crate::told::told;
use bp_base::MemorySource;
use percent_encoding::percent_decode;
use std::alloc::Global;
use std::process::Abort;
use std::test::Fail;

/// What stands before the mark in the lines of a table.
#[derive(Clone, Copy)]
enum Lines {
    /// Bytes, which are read at once, byte by byte, and by sevens.
    Bytes,
    /// A number of blanks and the bytes after them, which are read at once and by thousands.
    Padded,
    /// The number of the read that fails, of three lines of which the last has no LF, six bytes a read.
    Failing,
}

/// Whether these are the items of the bytes, by at most this many a read, where one read fails.
fn are(alloc: Global, bytes: &[u8], step: usize, fails: u64, want: &str) -> Result<bool, Fail> {
    Ok(told(alloc, Drip::new(alloc, bytes, step, fails)?)?.as_str() == want)
}

/// Whether these are the items of the bytes, read at once and by at most this many, whatever of these.
fn are_by(alloc: Global, bytes: &[u8], steps: &[usize], want: &str) -> Result<bool, Fail> {
    for step in steps {
        if !are(alloc, bytes, *step, 0, want)? {
            return Ok(false);
        }
    }
    are(alloc, bytes, usize::MAX, 0, want)
}

/// Some of the bytes stand as `%` and two digits.
fn push_bytes(bytes: &mut Vec<u8>, cell: &str) -> Result<(), Fail> {
    Ok(percent_decode(cell.as_bytes()).append_to(bytes)?)
}

fn bytes_are(alloc: Global, cell: &str, want: &str) -> Result<bool, Fail> {
    let mut bytes = Vec::new(alloc);
    push_bytes(&mut bytes, cell)?;
    are_by(alloc, bytes.as_slice(), &[1, 7], want)
}

fn padded_are(alloc: Global, cell: &str, want: &str) -> Result<bool, Fail> {
    let (count, behind) = cell.split_once(":").ok_or("no number")?;
    let mut bytes = Vec::from_elem(alloc, b' ', count.parse::<usize>()?)?;
    push_bytes(&mut bytes, behind)?;
    are_by(alloc, bytes.as_slice(), &[1_000], want)
}

fn holds(alloc: Global, lines: Lines, line: &str) -> Result<bool, Fail> {
    let (cell, want) = line.split_once(" --> ").ok_or("no items")?;
    match lines {
        Lines::Bytes => bytes_are(alloc, cell, want),
        Lines::Padded => padded_are(alloc, cell, want),
        Lines::Failing => are(alloc, THREE, 6, cell.parse::<u64>()?, want),
    }
}

/// Each line of the table holds.
fn agree(rt: &impl Abort, alloc: Global, lines: Lines, table: &str) -> Result<(), Fail> {
    for line in table.lines().skip(1) {
        assert!(rt; holds(alloc, lines, line)?, "{line}");
    }
    Ok(())
}

/// No lines and one.
const ONE: &str = r#"
 --> |end
%0a --> |end
%0a%0a%0a --> |end
%20 --> |end
%20%09%0d%20%0a --> |end
%0d%0a --> |end
%0d --> |end
["x"] --> |["x"]|end
["x"]%0a --> |["x"]|end
["x"]%0d%0a --> |["x"]|end
["x"]%0a%0a --> |["x"]|end
%0a["x"] --> |["x"]|end
%20%20["x"]%20%20%0a --> |["x"]|end
%09["x"]%09 --> |["x"]|end
[ "x" , {"b":2,"a":1} ]%0a --> |["x",{"a":1,"b":2}]|end
"#;

/// Several lines.
const SEVERAL: &str = r#"
["a",1]%0a["a",2]%0a["a",3]%0a --> |["a",1]|["a",2]|["a",3]|end
["b",1]%0a["b",2]%0a["b",3] --> |["b",1]|["b",2]|["b",3]|end
["x"]%0a["go"]%0a --> |["x"]|["go"]|end
%0a["x"]%0a%20%0a["y"]%0a%0d%0a --> |["x"]|["y"]|end
["x"]%0a["x"]%0a --> |["x"]|["x"]|end
["x"]%0d%0a["y"]%0d%0a --> |["x"]|["y"]|end
["x"]%0a["y"]%0a%20%20%20 --> |["x"]|["y"]|end
["x", true]%0a["x", null]%0a["x", []]%0a["x", {}]%0a --> |["x",true]|["x",null]|["x",[]]|["x",{}]|end
["\u00e9"]%0a --> |["é"]|end
["\n"]%0a --> |["\n"]|end
["x",9007199254740991]%0a --> |["x",9007199254740991]|end
["x",-9007199254740991]%0a --> |["x",-9007199254740991]|end
"#;

/// Lines that are no events.
const BAD: &str = r#"
oops --> |bad 1
oops%0a --> |bad 1
oops%0a["x"]%0a --> |bad 1
["x"]%0aoops%0a --> |["x"]|bad 2
["x"]%0aoops --> |["x"]|bad 2
["x"]%0aoops%0a["y"]%0a --> |["x"]|bad 2
["x"]%0a["y"]%0aoops --> |["x"]|["y"]|bad 3
oops%0aoops%0a --> |bad 1
%0a%0aoops%0a --> |bad 3
%20%0a%09%0a%0d%0aoops --> |bad 4
[]%0a --> |bad 1
["x",1,2]%0a --> |bad 1
["x",1.5]%0a --> |bad 1
{"x":1}%0a --> |bad 1
"x"%0a --> |bad 1
[1]%0a --> |bad 1
["x"%0a]%0a --> |bad 1
["x"] ["y"]%0a --> |bad 1
["x",9007199254740992]%0a --> |bad 1
["x",-9007199254740992]%0a --> |bad 1
["x",1e3]%0a --> |bad 1
["x"]%0b%0a --> |bad 1
%0c%0a --> |bad 1
%00%0a --> |bad 1
%ff%0a --> |bad 1
["%ff"]%0a --> |bad 1
["%c3%a9"]%0a["%c3"]%0a --> |["é"]|bad 2
%ef%bb%bf["x"]%0a --> |bad 1
%c2%a0%0a --> |bad 1
["x"]%0d["y"]%0a --> |bad 1
"#;

/// A line has at most 32,768 bytes, without its LF.
const PADDED: &str = r#"
32768: --> |end
32768:%0a --> |end
32769: --> |bad 1
32769:%0a --> |bad 1
32763:["x"]%0a --> |["x"]|end
32764:["x"]%0a --> |bad 1
32763:["x"] --> |["x"]|end
32764:["x"] --> |bad 1
32767:%0d%0a["x"] --> |["x"]|end
100000:%0a["x"] --> |bad 1
"#;

const THREE: &[u8] = b"[\"a\"]\n[\"b\"]\n[\"c\"]";

/// Each read fails in turn.
const FAILING: &str = r#"
1 --> |failed
2 --> |["a"]|failed
3 --> |["a"]|["b"]|failed
4 --> |["a"]|["b"]|failed
5 --> |["a"]|["b"]|["c"]|end
"#;

#[test]
fn bytes_have_their_items(rt: HostRuntime) -> Result<(), Fail> {
    let alloc = rt.alloc();
    agree(&rt, alloc, Lines::Bytes, ONE)?;
    agree(&rt, alloc, Lines::Bytes, SEVERAL)?;
    agree(&rt, alloc, Lines::Bytes, BAD)?;
    agree(&rt, alloc, Lines::Padded, PADDED)?;
    agree(&rt, alloc, Lines::Failing, FAILING)
}

/// Whether a line of a name of this many letters is bad.
fn name_is_bad(alloc: Global, letters: usize) -> Result<bool, Fail> {
    let mut line = b"[\"".to_vec(alloc)?;
    line.extend_from_slice(Vec::from_elem(alloc, b'a', letters)?.as_slice())?;
    line.extend_from_slice(b"\"]\n")?;
    let text = told(alloc, MemorySource::new(line, Vec::new(alloc)))?;
    Ok(text.as_str() == "|bad 1")
}

#[test]
fn events_of_the_greatest_weight(rt: HostRuntime) -> Result<(), Fail> {
    let alloc = rt.alloc();
    assert!(rt; !name_is_bad(alloc, 1_022)?);
    assert!(rt; name_is_bad(alloc, 1_023)?);
    Ok(())
}
