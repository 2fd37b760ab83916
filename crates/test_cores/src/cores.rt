//! Cores that play lists of steps.
ghost use Rattle.std.specs.Prelude.{◌≡◌, ℕ, All, IfOk, OnOk, false};
ghost use Rattle.std.specs.List.{AllZip};
ghost use Rattle.js_frames.specs.Places.{plain_ground};
ghost use Rattle.bp_thread.specs.Jobs.{IsOf};
ghost use Rattle.bp_thread.specs.Carried.{Carries};
ghost use Rattle.bp_floor.specs.declared.phase.Phase.TheVariants as phase;
ghost use Rattle.bp_core.specs.Cores.{IsSomewhere};

use bp_core::{Core, CoreStep, Phase, PlayFault};
use bp_log::{Item, Options, Record, Strategy, line_of};
use bp_script::accept;
use bp_thread::Job;
use js_data::{Event, Text};
use js_frames::Ground;
use std::alloc::Global;
use std::process::Abort;
use std::test::Fail;

/// The most steps of a list.
const MOST_STEPS: usize = 100_000;

/// The most records whose kinds are told; of more their number is.
const MOST_KINDS: usize = 20;

/// How many nodes a job runs while it is out: few, so that it goes on.
const SLICE: u64 = 2;

/// The core of the program, with this many injectors.
fn open(alloc: Global, script: &str, injectors: u32) -> Result<Core, Fail>
    ensures inside { IfOk result (λ c. c.out ≡ false) }
    ensures somewhere { IfOk result (λ c. IsSomewhere c c.jobs.items) }
{
    let program = accept(alloc, script.as_bytes())?;
    let options = Options::new(Strategy::Simple, 0, 1_000_000, 100_000, injectors).ok_or(
        "no options",
    )?;
    Ok(Core::open(alloc, program, options)?)
}

/// What an injector hands over: its `end`, its `bad` line 2, a `failed` reading, or the event of that
/// name.
fn item(alloc: Global, word: &str) -> Result<Item, Fail> {
    match word {
        "end" => Ok(Item::End),
        "bad" => Ok(Item::Bad(2)),
        "failed" => Ok(Item::Failed),
        name => {
            let name = Text::new(String::from_str(alloc, name)?);
            Ok(Item::Offered(Event::new(name, None)?))
        }
    }
}

/// A step: `pick`, `seal`, a place with `:` and how many nodes, or an injector with `<` and what it
/// hands over.
fn step(alloc: Global, word: &str) -> Result<CoreStep, Fail> {
    match word {
        "pick" => return Ok(CoreStep::Pick),
        "seal" => return Ok(CoreStep::Seal),
        _ => {}
    }
    if let Some((place, nodes)) = word.split_once(":") {
        return Ok(CoreStep::Slice(place.parse::<u32>()?, nodes.parse::<u64>()?));
    }
    let (injector, what) = word.split_once("<").ok_or("no step")?;
    Ok(CoreStep::Absorb(injector.parse::<u32>()?, item(alloc, what)?))
}

/// The steps of the words, each as often as after its `*`.
fn steps(alloc: Global, words: &str) -> Result<Vec<CoreStep>, Fail> {
    let mut steps = Vec::new(alloc);
    for word in words.split_whitespace() {
        let (word, count) = word.split_once("*").unwrap_or((word, "1"));
        for _ in 0..count.parse::<u32>()? {
            steps.push(step(alloc, word)?)?;
        }
    }
    Ok(steps)
}

/// Plays the steps, and answers the place of the first that is not legal.
fn play(core: &mut Core, steps: Vec<CoreStep>) -> Result<Option<u32>, Fail>
    requires inside { core.old.out ≡ false }
    requires somewhere { IsSomewhere core.old core.old.jobs.items }
    ensures inside { core.new.out ≡ false }
    ensures somewhere { OnOk result (IsSomewhere core.new core.new.jobs.items) }
{
    if steps.len() > MOST_STEPS {
        return Err("too many steps")?;
    }
    match core.play(steps) {
        Ok(()) => Ok(None),
        Err(PlayFault::Illegal { at, step: _ }) => Ok(Some(at)),
        Err(PlayFault::Memory { at: _ }) => Err("no memory")?,
    }
}

/// Plays the steps of the words, and tells the place of the first that is not legal.
fn play_words(out: &mut String, alloc: Global, core: &mut Core, words: &str) -> Result<(), Fail>
    requires inside { core.old.out ≡ false }
    requires somewhere { IsSomewhere core.old core.old.jobs.items }
    ensures inside { OnOk result (core.new.out ≡ false) }
    ensures somewhere { OnOk result (IsSomewhere core.new core.new.jobs.items) }
{
    let steps = steps(alloc, words)?;
    if let Some(at) = play(core, steps)? {
        write!(out, "illegal {at}; ")?;
    }
    Ok(())
}

/// The job runs one slice, if it goes on.
fn slice_one(ground: &Ground, job: &mut Job) -> Result<(), Fail>
    requires program { IsOf (plain_ground ground.now).program job.old }
    ensures { (budget : ℕ) → OnOk result
        (Carries (plain_ground ground.now) budget job.old job.new) }
{
    if job.outcome().is_some() {
        return Ok(());
    }
    job.slice(ground, SLICE)?;
    Ok(())
}

/// The first of the jobs runs one slice, if it goes on.
fn slice_first(ground: &Ground, jobs: &mut Vec<Job>) -> Result<(), Fail>
    requires program { All (IsOf (plain_ground ground.now).program) jobs.old.items }
    ensures { (budget : ℕ) → OnOk result
        (AllZip (Carries (plain_ground ground.now) budget) jobs.old.items jobs.new.items) }
{
    if jobs.is_empty() {
        return Ok(());
    }
    slice_one(ground, &mut jobs[0])?;
    Ok(())
}

/// The lent jobs are handed out, the first of them runs one slice, and they come back.
fn carry_lent(core: &mut Core) -> Result<(), Fail>
    requires lent { core.old.arbiter.phase ≡ phase.Lent }
    requires inside { core.old.out ≡ false }
    requires somewhere { IsSomewhere core.old core.old.jobs.items }
    ensures inside { OnOk result (core.new.out ≡ false) }
    ensures somewhere { OnOk result (IsSomewhere core.new core.new.jobs.items) }
{
    let mut jobs = core.hand_out();
    slice_first(core.arbiter().ground(), &mut jobs)?;
    core.hand_in(jobs);
    Ok(())
}

/// As `carry_lent`, where jobs are lent.
fn carry(core: &mut Core) -> Result<(), Fail>
    requires inside { core.old.out ≡ false }
    requires somewhere { IsSomewhere core.old core.old.jobs.items }
    ensures inside { OnOk result (core.new.out ≡ false) }
    ensures somewhere { OnOk result (IsSomewhere core.new core.new.jobs.items) }
{
    match core.arbiter().phase() {
        Phase::Lent => carry_lent(core),
        Phase::Ready | Phase::Rest | Phase::Over => Err("nothing is lent")?,
    }
}

/// Plays the steps of the words, and tells where one is not legal. At the word `carry` the jobs are
/// handed out.
fn play_all(out: &mut String, alloc: Global, core: &mut Core, words: &str) -> Result<(), Fail>
    requires inside { core.old.out ≡ false }
    requires somewhere { IsSomewhere core.old core.old.jobs.items }
{
    let (first, later) = words.split_once("carry").unwrap_or((words, ""));
    play_words(out, alloc, core, first)?;
    if later.is_empty() {
        return Ok(());
    }
    carry(core)?;
    play_words(out, alloc, core, later)
}

/// What kind of record it is.
fn kind(record: &Record) -> &'static str {
    match record {
        Record::In(_, _) => "in",
        Record::Bad(_, _) => "bad",
        Record::Eof(_) => "eof",
        Record::Sel(_) => "sel",
        Record::End(_) => "end",
    }
}

/// Tells the lines that were taken, and the kinds of the records.
fn tell(out: &mut String, alloc: Global, mut core: Core) -> Result<(), Fail> {
    for line in core.take_lines().as_slice() {
        write!(out, "{}; ", line_of(alloc, line)?.as_str())?;
    }
    out.push_str("-->")?;
    let records = core.into_records();
    if records.as_slice().len() > MOST_KINDS {
        write!(out, " {}", records.as_slice().len())?;
        return Ok(());
    }
    for record in records.as_slice() {
        write!(out, " {}", kind(record))?;
    }
    Ok(())
}

/// What is told of the steps: where one is not legal, the lines that were taken, and the kinds of the
/// records.
fn told(alloc: Global, script: &str, words: &str) -> Result<String, Fail> {
    let injectors = if words.contains("<") { 2 } else { 0 };
    let mut core = open(alloc, script, injectors)?;
    let mut out = String::new(alloc);
    play_all(&mut out, alloc, &mut core, words)?;
    tell(&mut out, alloc, core)?;
    Ok(out)
}

/// Whether the core of the program does what is wanted: after the steps and the mark stands what is told.
fn holds(alloc: Global, script: &str, row: &str) -> Result<bool, Fail> {
    let (words, want) = row.split_once(" --> ").ok_or("no answer")?;
    Ok(told(alloc, script, words)?.as_str() == want)
}

/// Each row of the table holds: a program, a line `--`, and its rows, of which each has steps, the mark ` --> `, and what is told
/// of them, and a line that begins with four spaces goes on with the one before it. Between programs stands an empty line.
pub fn agree(rt: &impl Abort, alloc: Global, table: &str) -> Result<(), Fail> {
    for part in table.trim().split("\n\n") {
        let (script, rows) = part.split_once("\n--\n").ok_or("no rows")?;
        let rows = rows.replace(alloc, "\n    ", " ")?;
        for row in rows.as_str().split("\n") {
            assert!(rt; holds(alloc, script, row)?, "{script}\n{row}");
        }
    }
    Ok(())
}
