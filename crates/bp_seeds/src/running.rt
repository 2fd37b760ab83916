//! The run of a program without injectors, to its end.
ghost use Rattle.std.specs.Prelude.{◌≡◌, IfOk};
ghost use Rattle.bp_script.specs.Programs.{IsProgram};
ghost use Rattle.js_program.specs.PlainProgram.{PlainProgram};
ghost use Rattle.bp_seeds.specs.Sweeps.{HasProgram};
ghost use Rattle.bp_seeds.specs.inner.Ends.{EndsSo, IsKind};

use crate::ending::End;
use bp_arbiter::{Arbiter, Phase};
use bp_log::{Memory, Options, Parallelism};
use bp_script::{ScriptFault, accept, read_one_way};
use bp_turns::{Alone, settle};
use js_data::Text;
use js_program::Program;
use std::alloc::{AllocError, Global};

/// Runs the program to its end.
fn run_out(
    alloc: Global,
    program: Program,
    options: Options,
    parallelism: Parallelism,
) -> Result<End, Memory>
    requires { options.injectors ≡ 0 }
    ensures { IfOk result (EndsSo program options) }
{
    // Without injectors it is nothing whether a run waits for them; one that doesn't never waits.
    let carrier = Alone(parallelism);
    let mut arbiter = Arbiter::open(alloc, program, options.with_wait(false))?;
    // For the proof: what the arbiter keeps.
    arbiter.keeps();
    settle(alloc, &mut arbiter, &carrier)?;
    'steps: while arbiter.phase() == Phase::Rest {
        let _picked = arbiter.pick(alloc)?;
        // For the proof: what the arbiter keeps.
        arbiter.keeps();
        settle(alloc, &mut arbiter, &carrier)?;
        let _lines = arbiter.take_lines();
    }
    // For the proof: what the arbiter keeps.
    arbiter.keeps();
    let alive = arbiter.floor().live() > 0;
    let Some(verdict) = arbiter.verdict() else {
        unreachable!()
    };
    let verdict = verdict.copy()?;
    Ok(End { verdict, alive })
}

/// Runs the program that these bytes are to its end.
fn run_bytes(
    alloc: Global,
    bytes: &[u8],
    options: Options,
    parallelism: Parallelism,
) -> Result<End, Memory>
    requires program { HasProgram bytes.now }
    requires alone { options.injectors ≡ 0 }
    ensures { (program : PlainProgram) → IsProgram bytes.now program →
        IfOk result (EndsSo program options) }
{
    read_one_way(bytes);
    match accept(alloc, bytes) {
        Ok(program) => run_out(alloc, program, options, parallelism),
        Err(ScriptFault::Memory) => Err(AllocError),
        Err(ScriptFault::Refused(_)) => unreachable!(),
    }
}

/// The options with this seed.
fn seeded(options: Options, seed: u64) -> Options
    ensures { result ≡ record options { seed = seed } }
{
    let (strategy, injectors) = (options.strategy(), options.injectors());
    let (budget, steps, wait) = (options.budget(), options.steps(), options.wait());
    match Options::new(strategy, seed, budget, steps, injectors) {
        None => unreachable!(),
        Some(options) => options.with_wait(wait),
    }
}

/// How the run under this seed ends of the program that these bytes are, in words.
pub(crate) fn kind_under(
    alloc: Global,
    bytes: &[u8],
    options: Options,
    parallelism: Parallelism,
    seed: u64,
) -> Result<Text, Memory>
    requires program { HasProgram bytes.now }
    requires alone { options.injectors ≡ 0 }
    ensures { IfOk result (IsKind bytes.now options seed) }
{
    let end = run_bytes(alloc, bytes, seeded(options, seed), parallelism)?;
    end.kind(alloc)
}
