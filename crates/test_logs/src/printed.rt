//! Lines of the trace, as text and printed.
use bp_base::MemorySink;
use bp_log::{Line, PrintError, Verdict, line_of, print};
use std::test::Fail;

/// The second time the line finds no room.
#[test]
fn prints_a_line(rt: HostRuntime) -> Result<(), Fail> {
    let alloc = rt.alloc();
    let line = Line::Verdict(Verdict::Bad(3, 17));
    assert!(rt; line_of(alloc, &line)?.as_str() == "verdict bad 3 17");
    let mut sink = MemorySink::new(alloc, 30, Vec::new(alloc))?;
    print(alloc, &line, &mut sink)?;
    assert!(rt; print(alloc, &line, &mut sink) == Err(PrintError::Write));
    assert!(rt; sink.written() == b"verdict bad 3 17\n".as_slice());
    Ok(())
}
