//! Floors at rest that are asked.
ghost use Rattle.std.specs.Prelude.{◌≡◌, OnOk};
ghost use Rattle.bp_floor.specs.declared.phase.Phase.TheVariants as phase;
ghost use Rattle.test_arbiter.specs.Floors.{Goes};

use crate::lines::{event, floors_agree};
use bp_floor::{Floor, Phase};
use bp_log::{Line, Options, Strategy, Verdict, line_of};
use bp_script::accept;
use bp_turns::carry_all;
use std::alloc::Global;
use std::test::Fail;

/// A program, and then the first requested event that can be selected, the number of the first b-thread that blocks `x`, and the
/// verdict with which that event would stop the run; `-` where there is none.
const ANSWERS: &str = r#"
bp.registerBThread("A", () => { bp.sync({request: bp.Event("x")}) })
bp.registerBThread("B", () => { bp.sync({block: bp.Event("x")}) })
--
- 1 -

bp.registerBThread("A", () => { bp.sync({request: [bp.Event("x"), bp.Event("y")]}) })
bp.registerBThread("B", () => { bp.sync({block: bp.Event("x")}) })
--
y 1 -

bp.registerBThread("A", () => { bp.sync({request: bp.Event("y")}) })
bp.registerBThread("B", () => { bp.sync({waitFor: bp.EventSet("z", e => 1 / 0)}) })
--
y - verdict fault "B" 2 zero
"#;

/// How many nodes a slice has.
const SLICE: u64 = 10;

/// One turn of what is to be run.
fn turn(alloc: Global, floor: &mut Floor) -> Result<(), Fail>
    requires ready { floor.old.phase ≡ phase.Ready }
    requires goes { Goes floor.old }
    ensures { OnOk result (Goes floor.new) }
{
    floor.keeps();
    let budget = floor.options().budget();
    let mut jobs = floor.lend(alloc)?;
    carry_all(floor.ground(), budget, SLICE, &mut jobs)?;
    floor.seal(alloc, jobs)?;
    Ok(())
}

/// The floor of the program, after the turns of its top level and of what that registered.
fn rest(alloc: Global, script: &str) -> Result<Floor, Fail> {
    let program = accept(alloc, script.as_bytes())?;
    let options = Options::new(Strategy::Simple, 0, 1_000_000, 100_000, 0).ok_or("no options")?;
    let mut floor = Floor::open(alloc, program, options)?;
    turn(alloc, &mut floor)?;
    if floor.phase() == Phase::Ready {
        turn(alloc, &mut floor)?;
    }
    Ok(floor)
}

/// The verdict with which the first requested event that can be selected would stop the run.
fn write_stop(out: &mut String, alloc: Global, floor: &mut Floor) -> Result<Option<Verdict>, Fail>
    requires { floor.old.phase ≡ phase.Rest }
    ensures { floor.new ≡ floor.old }
{
    let enabled = floor.enabled(alloc)?;
    match enabled.inner.first() {
        None => {
            out.push_str("-")?;
            Ok(None)
        }
        Some(first) => {
            out.push_str(first.name().as_str())?;
            Ok(floor.stop(alloc, first, None)?)
        }
    }
}

fn told(alloc: Global, script: &str) -> Result<String, Fail> {
    let mut floor = rest(alloc, script)?;
    if floor.phase() != Phase::Rest {
        return Err("somebody is to be run")?;
    }
    let mut out = String::new(alloc);
    let stop = write_stop(&mut out, alloc, &mut floor)?;
    match floor.blocker(alloc, &event(alloc, "x")?)? {
        None => out.push_str(" - ")?,
        Some(number) => write!(out, " {number} ")?,
    }
    match stop {
        None => out.push_str("-")?,
        Some(verdict) => out.push_str(line_of(alloc, &Line::Verdict(verdict))?.as_str())?,
    }
    Ok(out)
}

/// Whether what is told of the program is what is wanted.
pub fn floor_holds(alloc: Global, script: &str, want: &str) -> Result<bool, Fail> {
    Ok(told(alloc, script)?.as_str() == want)
}

#[test]
fn answers(rt: HostRuntime) -> Result<(), Fail> {
    floors_agree(&rt, rt.alloc(), ANSWERS)
}
