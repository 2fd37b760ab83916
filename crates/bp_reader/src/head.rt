//! The header of a log.
ghost use Rattle.std.specs.Prelude.{◌≡◌, ◌≤◌, IfOk, IfSome, IsErrOf, length};
ghost use Rattle.bp_base.specs.Counts.{Rose};
ghost use Rattle.bp_reading.specs.Heads.{version_at, strategy_behind, strategy_line_at, field, field_at, program_at, choice_at, limits_at, options_at, wait_behind, wait_line_at, settings_at, body_at, header_at, CutsOff};
ghost use Rattle.bp_log.specs.declared.version.Version.TheVariants as version;
ghost use Rattle.bp_reader.specs.Fed.{Between};
ghost use Rattle.bp_reader.specs.Gets.{Gets};

use crate::input::{Input, Taken};
use crate::{LogFault, behind_word, number_of};
use bp_base::Source;
use bp_log::limits::{MOST_BUDGET, MOST_BYTES, MOST_INJECTORS, MOST_STEPS};
use bp_log::options::wait_of_word;
use bp_log::{Header, Options, Strategy, Version};
use bp_reading::limits::MOST_LINE_BYTES;
use std::alloc::Global;

/// The first line.
#[tactic(auto, unfolding(bp_reading::specs::Heads::version_at))]
fn version_of<S: Source>(alloc: Global, input: &mut Input<S>) -> Result<Version, LogFault>
    ensures gets { IfSome input.old.left
        (λ bytes. Gets (λ v. v) result (version_at bytes) input.new.left) }
    ensures failed { IsErrOf result LogFault.Read
        → Between input.old.left input.new.left (CutsOff version_at) }
    ensures empty { IsErrOf result LogFault.Read → input.new.left ≡ input.new.source }
    ensures cause { IsErrOf result LogFault.Read → Rose input.old.faults input.new.faults }
    ensures counts { input.old.faults ≤ input.new.faults }
{
    let taken = input.line(alloc, MOST_LINE_BYTES)?;
    match &taken {
        Taken::Partial => Err(LogFault::Cut),
        Taken::Excess => Err(LogFault::Version),
        Taken::Line(line) => match Version::of_line(line.as_slice()) {
            None => Err(LogFault::Version),
            Some(version) => Ok(version),
        },
    }
}

/// The strategy after its word.
fn named(line: &[u8]) -> Option<Strategy>
    ensures { result ≡ strategy_behind line.now }
{
    Strategy::of_name(behind_word(b"strategy ", line)?)
}

/// The line of the strategy.
#[tactic(auto, unfolding(bp_reading::specs::Heads::strategy_line_at))]
fn strategy_of<S: Source>(alloc: Global, input: &mut Input<S>) -> Result<Strategy, LogFault>
    ensures gets { IfSome input.old.left
        (λ bytes. Gets (λ s. s) result (strategy_line_at bytes) input.new.left) }
    ensures failed { IsErrOf result LogFault.Read
        → Between input.old.left input.new.left (CutsOff strategy_line_at) }
    ensures empty { IsErrOf result LogFault.Read → input.new.left ≡ input.new.source }
    ensures cause { IsErrOf result LogFault.Read → Rose input.old.faults input.new.faults }
    ensures counts { input.old.faults ≤ input.new.faults }
{
    let taken = input.line(alloc, MOST_LINE_BYTES)?;
    match &taken {
        Taken::Partial => Err(LogFault::Cut),
        Taken::Excess => Err(LogFault::Header),
        Taken::Line(line) => match named(line.as_slice()) {
            None => Err(LogFault::Header),
            Some(strategy) => Ok(strategy),
        },
    }
}

/// The number after a word, from `least` to `most`.
fn number_behind(word: &[u8], least: u64, most: u64, line: &[u8]) -> Option<u64>
    ensures number { result ≡ field word.now least most line.now }
    ensures from { IfSome result (λ n. least ≤ n) }
    ensures within { IfSome result (λ n. n ≤ most) }
{
    let number = number_of(behind_word(word, line)?, most)?;
    if number < least {
        return None;
    }
    Some(number)
}

/// A line of the header with a number from `least` to `most`.
#[tactic(auto, unfolding(bp_reading::specs::Heads::field_at))]
fn field_of<S: Source>(
    alloc: Global,
    input: &mut Input<S>,
    word: &[u8],
    least: u64,
    most: u64,
) -> Result<u64, LogFault>
    ensures gets { IfSome input.old.left
        (λ bytes. Gets (λ n. n) result (field_at word.now least most bytes) input.new.left) }
    ensures from { IfOk result (λ n. least ≤ n) }
    ensures within { IfOk result (λ n. n ≤ most) }
    ensures failed { IsErrOf result LogFault.Read
        → Between input.old.left input.new.left (CutsOff (field_at word.now least most)) }
    ensures empty { IsErrOf result LogFault.Read → input.new.left ≡ input.new.source }
    ensures cause { IsErrOf result LogFault.Read → Rose input.old.faults input.new.faults }
    ensures counts { input.old.faults ≤ input.new.faults }
{
    let taken = input.line(alloc, MOST_LINE_BYTES)?;
    match &taken {
        Taken::Partial => Err(LogFault::Cut),
        Taken::Excess => Err(LogFault::Header),
        Taken::Line(line) => match number_behind(word, least, most, line.as_slice()) {
            None => Err(LogFault::Header),
            Some(number) => Ok(number),
        },
    }
}

/// This many bytes, and an LF.
fn program_of<S: Source>(
    alloc: Global,
    input: &mut Input<S>,
    size: u64,
) -> Result<Vec<u8>, LogFault>
    ensures gets { IfSome input.old.left
        (λ bytes. Gets (λ v. v.items) result (program_at size bytes) input.new.left) }
    ensures within { IfOk result (λ v. length v.items ≤ size) }
    ensures failed { IsErrOf result LogFault.Read
        → Between input.old.left input.new.left (CutsOff (program_at size)) }
    ensures empty { IsErrOf result LogFault.Read → input.new.left ≡ input.new.source }
    ensures cause { IsErrOf result LogFault.Read → Rose input.old.faults input.new.faults }
    ensures counts { input.old.faults ≤ input.new.faults }
{
    let mut program = Vec::new(alloc);
    for _ in 0..size {
        match input.byte() {
            Err(_) => return Err(LogFault::Read),
            Ok(None) => return Err(LogFault::Cut),
            Ok(Some(byte)) => program.push(byte)?,
        }
    }
    match input.byte() {
        Err(_) => Err(LogFault::Read),
        Ok(None) => Err(LogFault::Cut),
        Ok(Some(10)) => Ok(program),
        Ok(Some(_)) => Err(LogFault::Header),
    }
}

/// The strategy and the seed.
#[tactic(auto, unfolding(bp_reading::specs::Heads::choice_at))]
fn choice_of<S: Source>(alloc: Global, input: &mut Input<S>) -> Result<(Strategy, u64), LogFault>
    ensures gets { IfSome input.old.left
        (λ bytes. Gets (λ p. p) result (choice_at bytes) input.new.left) }
    ensures failed { IsErrOf result LogFault.Read
        → Between input.old.left input.new.left (CutsOff choice_at) }
    ensures empty { IsErrOf result LogFault.Read → input.new.left ≡ input.new.source }
    ensures cause { IsErrOf result LogFault.Read → Rose input.old.faults input.new.faults }
    ensures counts { input.old.faults ≤ input.new.faults }
{
    let strategy = strategy_of(alloc, input)?;
    let seed = field_of(alloc, input, b"seed ", 0, u64::MAX)?;
    Ok((strategy, seed))
}

/// The budget and the steps.
#[tactic(auto, unfolding(bp_reading::specs::Heads::limits_at))]
fn limits_of<S: Source>(alloc: Global, input: &mut Input<S>) -> Result<(u64, u32), LogFault>
    ensures gets { IfSome input.old.left
        (λ bytes. Gets (λ p. p) result (limits_at bytes) input.new.left) }
    ensures budget { IfOk result (λ p. (1 ≤ p.0) × (p.0 ≤ MOST_BUDGET)) }
    ensures steps { IfOk result (λ p. (1 ≤ p.1) × (p.1 ≤ MOST_STEPS)) }
    ensures failed { IsErrOf result LogFault.Read
        → Between input.old.left input.new.left (CutsOff limits_at) }
    ensures empty { IsErrOf result LogFault.Read → input.new.left ≡ input.new.source }
    ensures cause { IsErrOf result LogFault.Read → Rose input.old.faults input.new.faults }
    ensures counts { input.old.faults ≤ input.new.faults }
{
    let budget = field_of(alloc, input, b"budget ", 1, MOST_BUDGET)?;
    let steps = field_of(alloc, input, b"steps ", 1, u64::from(MOST_STEPS))?;
    Ok((budget, steps as u32))
}

/// The options that every version says, of a run that waits.
#[tactic(auto, unfolding(bp_reading::specs::Heads::options_at))]
fn options_of<S: Source>(alloc: Global, input: &mut Input<S>) -> Result<Options, LogFault>
    ensures gets { IfSome input.old.left
        (λ bytes. Gets (λ o. o) result (options_at bytes) input.new.left) }
    ensures failed { IsErrOf result LogFault.Read
        → Between input.old.left input.new.left (CutsOff options_at) }
    ensures empty { IsErrOf result LogFault.Read → input.new.left ≡ input.new.source }
    ensures cause { IsErrOf result LogFault.Read → Rose input.old.faults input.new.faults }
    ensures counts { input.old.faults ≤ input.new.faults }
{
    let (strategy, seed) = choice_of(alloc, input)?;
    let (budget, steps) = limits_of(alloc, input)?;
    let injectors = field_of(alloc, input, b"injectors ", 0, u64::from(MOST_INJECTORS))?;
    match Options::new(strategy, seed, budget, steps, injectors as u32) {
        None => Err(LogFault::Header),
        Some(options) => Ok(options),
    }
}

/// What is said of waiting, after its word.
fn waiting(line: &[u8]) -> Option<bool>
    ensures { result ≡ wait_behind line.now }
{
    wait_of_word(behind_word(b"wait ", line)?)
}

/// The line of waiting, which the second version has.
#[tactic(auto, unfolding(bp_reading::specs::Heads::wait_line_at))]
fn second_wait_of<S: Source>(alloc: Global, input: &mut Input<S>) -> Result<bool, LogFault>
    ensures gets { IfSome input.old.left
        (λ bytes. Gets (λ b. b) result (wait_line_at version.Second bytes) input.new.left) }
    ensures failed { IsErrOf result LogFault.Read
        → Between input.old.left input.new.left (CutsOff (wait_line_at version.Second)) }
    ensures empty { IsErrOf result LogFault.Read → input.new.left ≡ input.new.source }
    ensures cause { IsErrOf result LogFault.Read → Rose input.old.faults input.new.faults }
    ensures counts { input.old.faults ≤ input.new.faults }
{
    let taken = input.line(alloc, MOST_LINE_BYTES)?;
    match &taken {
        Taken::Partial => Err(LogFault::Cut),
        Taken::Excess => Err(LogFault::Header),
        Taken::Line(line) => match waiting(line.as_slice()) {
            None => Err(LogFault::Header),
            Some(wait) => Ok(wait),
        },
    }
}

/// Whether the run waits: the first version says nothing of it, and its runs wait.
#[tactic(auto, unfolding(bp_reading::specs::Heads::wait_line_at))]
fn wait_of<S: Source>(
    alloc: Global,
    input: &mut Input<S>,
    version: Version,
) -> Result<bool, LogFault>
    ensures gets { IfSome input.old.left
        (λ bytes. Gets (λ b. b) result (wait_line_at version bytes) input.new.left) }
    ensures failed { IsErrOf result LogFault.Read
        → Between input.old.left input.new.left (CutsOff (wait_line_at version)) }
    ensures empty { IsErrOf result LogFault.Read → input.new.left ≡ input.new.source }
    ensures cause { IsErrOf result LogFault.Read → Rose input.old.faults input.new.faults }
    ensures counts { input.old.faults ≤ input.new.faults }
{
    match version {
        Version::First => Ok(true),
        Version::Second => second_wait_of(alloc, input),
    }
}

/// All options.
#[tactic(auto, unfolding(bp_reading::specs::Heads::settings_at))]
fn settings_of<S: Source>(
    alloc: Global,
    input: &mut Input<S>,
    version: Version,
) -> Result<Options, LogFault>
    ensures gets { IfSome input.old.left
        (λ bytes. Gets (λ o. o) result (settings_at version bytes) input.new.left) }
    ensures failed { IsErrOf result LogFault.Read
        → Between input.old.left input.new.left (CutsOff (settings_at version)) }
    ensures empty { IsErrOf result LogFault.Read → input.new.left ≡ input.new.source }
    ensures cause { IsErrOf result LogFault.Read → Rose input.old.faults input.new.faults }
    ensures counts { input.old.faults ≤ input.new.faults }
{
    let options = options_of(alloc, input)?;
    let wait = wait_of(alloc, input, version)?;
    Ok(options.with_wait(wait))
}

/// The header after its first line.
#[tactic(auto, unfolding(bp_reading::specs::Heads::body_at))]
fn body_of<S: Source>(
    alloc: Global,
    input: &mut Input<S>,
    version: Version,
) -> Result<Header, LogFault>
    ensures gets { IfSome input.old.left
        (λ bytes. Gets (λ h. h) result (body_at version bytes) input.new.left) }
    ensures failed { IsErrOf result LogFault.Read
        → Between input.old.left input.new.left (CutsOff (body_at version)) }
    ensures empty { IsErrOf result LogFault.Read → input.new.left ≡ input.new.source }
    ensures cause { IsErrOf result LogFault.Read → Rose input.old.faults input.new.faults }
    ensures counts { input.old.faults ≤ input.new.faults }
{
    let options = settings_of(alloc, input, version)?;
    let size = field_of(alloc, input, b"program ", 0, u64::from(MOST_BYTES))?;
    let program = program_of(alloc, input, size)?;
    match Header::new(options, program) {
        None => Err(LogFault::Header),
        Some(header) => Ok(header),
    }
}

/// The version and the header.
#[tactic(auto, unfolding(bp_reading::specs::Heads::header_at))]
pub(crate) fn header_of<S: Source>(
    alloc: Global,
    input: &mut Input<S>,
) -> Result<(Version, Header), LogFault>
    ensures gets { IfSome input.old.left
        (λ bytes. Gets (λ p. p) result (header_at bytes) input.new.left) }
    ensures failed { IsErrOf result LogFault.Read
        → Between input.old.left input.new.left (CutsOff header_at) }
    ensures empty { IsErrOf result LogFault.Read → input.new.left ≡ input.new.source }
    ensures cause { IsErrOf result LogFault.Read → Rose input.old.faults input.new.faults }
    ensures counts { input.old.faults ≤ input.new.faults }
{
    let version = version_of(alloc, input)?;
    let header = body_of(alloc, input, version)?;
    Ok((version, header))
}
