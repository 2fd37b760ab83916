//! Sources, sinks and worlds, in memory and of the system.
use bp_base::{
    Failed, MemorySink, MemorySource, MemoryWorld, ReadError, Sink, Source, World, WorldError,
    read_all, write_all,
};
use bp_system::{FileWorld, Process, StreamSink, leave};
use std::alloc::Global;
use std::process::{Abort, ExitCode};
use std::test::Fail;
use std::{fs, io};

const NAME: &str = "bp_base_test";

const WRITTEN: &str = "bp_base_written";

const GIVEN: &str = "bp_base_given";

const LINK: &str = "bp_base_link";

const HELD: &str = "bp_base_held";

/// Five bytes, read to their end within a limit, where a call fails; and how often the source failed.
fn read_is(
    rt: &impl Abort,
    alloc: Global,
    fails: u64,
    limit: u64,
    answer: Result<usize, ReadError>,
    faults: u64,
) -> Result<(), Fail> {
    let mut source = MemorySource::new(b"hello".to_vec(alloc)?, [fails].to_vec(alloc)?);
    let read = read_all(alloc, &mut source, limit);
    assert!(rt; read.map(|bytes| bytes.len()) == answer);
    assert!(rt; source.faults() == faults);
    Ok(())
}

#[test]
fn bytes_in_memory_are_read_to_their_end(rt: HostRuntime) -> Result<(), Fail> {
    let alloc = rt.alloc();
    read_is(&rt, alloc, 0, 5, Ok(5), 0)?;
    read_is(&rt, alloc, 0, 4, Err(ReadError::TooLong), 0)?;
    read_is(&rt, alloc, 1, 5, Err(ReadError::Fault), 1)?;
    read_is(&rt, alloc, 2, 5, Err(ReadError::Fault), 1)?;
    read_is(&rt, alloc, 3, 5, Ok(5), 0)
}

#[test]
fn a_sink_takes_what_it_has_room_for(rt: HostRuntime) -> Result<(), Fail> {
    let alloc = rt.alloc();
    let mut sink = MemorySink::new(alloc, 5, [2].to_vec(alloc)?)?;
    assert!(rt; write_all(&mut sink, b"").is_ok());
    assert!(rt; write_all(&mut sink, b"ab").is_ok());
    assert!(rt; write_all(&mut sink, b"c").is_err());
    assert!(rt; write_all(&mut sink, b"").is_ok());
    assert!(rt; write_all(&mut sink, b"cdef").is_err());
    assert!(rt; write_all(&mut sink, b"cde").is_ok());
    assert!(rt; sink.written() == b"abcde".as_slice());
    assert!(rt; sink.faults() == 2);
    Ok(())
}

#[test]
fn a_world_opens_what_it_holds(rt: HostRuntime) -> Result<(), Fail> {
    let alloc = rt.alloc();
    let mut world = MemoryWorld::new(alloc, 0, [3].to_vec(alloc)?);
    world.hold("a".to_string(alloc)?, b"old".to_vec(alloc)?)?;
    world.hold("a".to_string(alloc)?, b"new".to_vec(alloc)?)?;
    world.fail("a".to_string(alloc)?, [1].to_vec(alloc)?)?;
    assert!(rt; world.held("a") == Some(b"new".as_slice()));
    assert!(rt; world.held("b").is_none());
    let mut input = world.open("a")?;
    assert!(rt; read_all(alloc, &mut input, 9).err() == Some(ReadError::Fault));
    assert!(rt; read_all(alloc, &mut input, 9)?.as_slice() == b"new".as_slice());
    world.close_input(input);
    assert!(rt; world.open("b").err() == Some(WorldError::Failed));
    assert!(rt; world.open("a").err() == Some(WorldError::Failed));
    Ok(())
}

/// An output is held under its name once it is closed, with all that was written, also where a call failed.
#[test]
fn a_world_holds_what_was_written(rt: HostRuntime) -> Result<(), Fail> {
    let alloc = rt.alloc();
    let mut world = MemoryWorld::new(alloc, 5, [3].to_vec(alloc)?);
    world.hold("log".to_string(alloc)?, b"old".to_vec(alloc)?)?;
    world.fail("log".to_string(alloc)?, [2].to_vec(alloc)?)?;
    let mut output = world.create("log")?;
    assert!(rt; write_all(&mut output, b"abc").is_ok());
    assert!(rt; write_all(&mut output, b"d").is_err());
    assert!(rt; write_all(&mut output, b"de").is_ok());
    assert!(rt; world.held("log") == Some(b"old".as_slice()));
    world.close_output("log", output);
    assert!(rt; world.held("log") == Some(b"abcde".as_slice()));
    let empty = world.create("other")?;
    world.close_output("other", empty);
    assert!(rt; world.held("other") == Some(b"".as_slice()));
    assert!(rt; world.create("log").err() == Some(WorldError::Failed));
    Ok(())
}

#[test]
fn a_file_of_the_system_is_written(rt: HostRuntime) -> Result<(), Fail> {
    let alloc = rt.alloc();
    let mut world = FileWorld::new(rt.clone()?, rt.alloc());
    let mut output = world.create(WRITTEN)?;
    assert!(rt; write_all(&mut output, b"written").is_ok());
    world.close_output(WRITTEN, output);
    let mut input = world.open(WRITTEN)?;
    assert!(rt; read_all(alloc, &mut input, 9)?.as_slice() == b"written".as_slice());
    world.close_input(input);
    fs::remove_file(&rt, WRITTEN)?;
    Ok(())
}

#[test]
fn a_file_of_the_system_is_read(rt: HostRuntime) -> Result<(), Fail> {
    let alloc = rt.alloc();
    fs::write(&rt, NAME, "bytes")?;
    let mut world = FileWorld::new(rt.clone()?, rt.alloc());
    let mut input = world.open(NAME)?;
    assert!(rt; read_all(alloc, &mut input, 9)?.as_slice() == b"bytes".as_slice());
    world.close_input(input);
    fs::remove_file(&rt, NAME)?;
    assert!(rt; world.open(NAME).err() == Some(WorldError::Failed));
    Ok(())
}

/// By no name, also once it is closed; what it held is there still.
#[test]
fn a_file_that_was_opened_is_not_written(rt: HostRuntime) -> Result<(), Fail> {
    fs::write(&rt, GIVEN, "given")?;
    fs::hard_link(&rt, GIVEN, LINK)?;
    let mut world = FileWorld::new(rt.clone()?, rt.alloc());
    let input = world.open(GIVEN)?;
    assert!(rt; world.create("./bp_base_given").err() == Some(WorldError::Failed));
    world.close_input(input);
    assert!(rt; world.create(LINK).err() == Some(WorldError::Failed));
    assert!(rt; fs::read(&rt, GIVEN)?.as_slice() == b"given".as_slice());
    fs::remove_file(&rt, LINK)?;
    fs::remove_file(&rt, GIVEN)?;
    Ok(())
}

/// And is empty for the next.
#[test]
fn a_file_is_written_by_one_at_a_time(rt: HostRuntime) -> Result<(), Fail> {
    let mut world = FileWorld::new(rt.clone()?, rt.alloc());
    let mut other = FileWorld::new(rt.clone()?, rt.alloc());
    let mut output = world.create(HELD)?;
    assert!(rt; write_all(&mut output, b"held").is_ok());
    assert!(rt; other.create(HELD).err() == Some(WorldError::Failed));
    assert!(rt; fs::read(&rt, HELD)?.as_slice() == b"held".as_slice());
    world.close_output(HELD, output);
    let empty = other.create(HELD)?;
    assert!(rt; fs::read(&rt, HELD)?.is_empty());
    other.close_output(HELD, empty);
    fs::remove_file(&rt, HELD)?;
    Ok(())
}

#[test]
fn a_program_begins_and_ends(rt: HostRuntime) -> Result<ExitCode, Fail> {
    let mut process = Process::begin(&rt)?;
    assert!(rt; process.world.open("bp_base_absent").err() == Some(WorldError::Failed));
    Ok(leave(&rt, 0, ""))
}

#[test]
fn a_stream_takes_all(rt: HostRuntime) -> Result<(), Fail> {
    let mut sink = StreamSink::new(io::writer(&rt));
    assert!(rt; write_all(&mut sink, b"written\n").is_ok());
    Ok(())
}
