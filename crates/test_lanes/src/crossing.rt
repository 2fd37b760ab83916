//! Two injectors of 200 lines, of cars and of lights at a crossing. Their lanes fill up, so that each waits for its places.
ghost use Rattle.bp_lanes.specs.Lanes.{IsSameEar};

use crate::told::add_taken;
use bp_base::MemorySource;
use bp_inject::{Berth, join, start};
use bp_lanes::{Bell, Ear, Rope, Wake};
use std::alloc::{AllocError, Global};
use std::sync::Wait;
use std::test::Fail;
use std::thread;
use std::thread::Threads;

/// How many lines each injector has.
const LINES: u32 = 200;

const FIRST_CARS: &str =
    r#"|["car",{"count":0,"from":"north"}]|["car",{"count":1,"from":"south"}]"#;

const LAST_LIGHTS: &str = r#"|["green","east"]|["green","west"]|end"#;

fn direction(number: u32) -> &'static str {
    match number % 4 {
        0 => "north",
        1 => "south",
        2 => "east",
        _ => "west",
    }
}

fn cars(alloc: Global) -> Result<String, AllocError> {
    let mut text = String::new(alloc);
    for number in 0..LINES {
        let (count, from) = (number % 5, direction(number));
        write!(
            text,
            "[\"car\",{{\"count\":{count},\"from\":\"{from}\"}}]\n"
        )?;
    }
    Ok(text)
}

fn lights(alloc: Global) -> Result<String, AllocError> {
    let mut text = String::new(alloc);
    for number in 0..LINES {
        let light = if number / 4 % 2 == 0 { "red" } else { "green" };
        write!(text, "[\"{}\",\"{}\"]\n", light, direction(number))?;
    }
    Ok(text)
}

/// Whether these are the items of the lines.
fn are_of(alloc: Global, items: &str, lines: &str) -> Result<bool, AllocError> {
    let told = lines.replace(alloc, "\n", "|")?;
    Ok(items == format!(in alloc; "|{}end", told.as_str())?.as_str())
}

fn source_of(alloc: Global, text: &str) -> Result<MemorySource, Fail> {
    Ok(MemorySource::new(text.as_bytes().to_vec(alloc)?, Vec::new(alloc)))
}

/// Takes what is there and wakes the injectors, or waits for them, until the end of both was taken.
fn take_all<R: Threads + Wait + Sync>(
    rt: &R,
    alloc: Global,
    bell: &Bell,
    ear: &mut Ear,
    other: &mut Ear,
) -> Result<(String, String), Fail>
    ensures one { IsSameEar ear.old ear.new }
    ensures two { IsSameEar other.old other.new }
{
    let mut rope = Rope::new(bell);
    let (mut first, mut second) = (String::new(alloc), String::new(alloc));
    for _ in rt.forever() {
        let before = (first.len(), second.len());
        add_taken(alloc, ear, &mut first)?;
        add_taken(alloc, other, &mut second)?;
        if first.as_str().ends_with("|end") && second.as_str().ends_with("|end") {
            break;
        }
        if (first.len(), second.len()) == before {
            rope.wait(rt);
        } else {
            rope.ring(rt);
        }
    }
    Ok((first, second))
}

/// What two injectors of these texts offer, each on a thread of its own.
fn offered<R: Threads + Wait + Sync>(
    rt: &R,
    alloc: Global,
    texts: (&str, &str),
) -> Result<(String, String), Fail> {
    let bell = Bell::new();
    let bell = &bell;
    let (first, second) = (source_of(alloc, texts.0)?, source_of(alloc, texts.1)?);
    thread::scope(
        thread::scope_env(),
        rt,
        move |scope| -> Result<(String, String), Fail> {
            let (berth, next) = (Berth::new(alloc)?, Berth::new(alloc)?);
            let (first, mut ear) = start(rt, alloc, scope, bell, berth, first);
            let (second, mut other) = start(rt, alloc, scope, bell, next, second);
            let taken = take_all(rt, alloc, bell, &mut ear, &mut other);
            bell.halt(rt);
            let (_, one) = join(rt, first, &mut ear);
            let (_, two) = join(rt, second, &mut other);
            let taken = taken?;
            one?;
            two?;
            Ok(taken)
        },
    )
}

#[test]
fn all_lines_of_a_crossing_come(rt: HostRuntime) -> Result<(), Fail> {
    let alloc = rt.alloc();
    let (cars, lights) = (cars(alloc)?, lights(alloc)?);
    let (first, second) = offered(&rt, alloc, (cars.as_str(), lights.as_str()))?;
    assert!(rt; are_of(alloc, first.as_str(), cars.as_str())?);
    assert!(rt; are_of(alloc, second.as_str(), lights.as_str())?);
    assert!(rt; first.as_str().starts_with(FIRST_CARS));
    assert!(rt; second.as_str().ends_with(LAST_LIGHTS));
    Ok(())
}
