//! Headers of logs.
use bp_base::MemorySink;
use bp_log::{Header, Options, Strategy, write_header};
use std::alloc::Global;
use std::test::Fail;

/// The header of this program under the strategy simple, with seed 7 and this budget and these steps.
pub fn front(alloc: Global, program: &str, budget: u64, steps: u32) -> Result<Vec<u8>, Fail> {
    let options = Options::new(Strategy::Simple, 7, budget, steps, 0).ok_or("no options")?;
    let header = Header::new(options, program.as_bytes().to_vec(alloc)?).ok_or("too long")?;
    let mut sink = MemorySink::new(alloc, 1_000, Vec::new(alloc))?;
    write_header(alloc, &header, &mut sink)?;
    Ok(sink.written().to_vec(alloc)?)
}
