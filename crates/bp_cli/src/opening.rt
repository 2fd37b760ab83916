//! Inputs and logs, opened and closed again.
ghost use Rattle.std.specs.Prelude.{◌≡◌, ◌≤◌, ◌<◌, ℕ, length, take, Option, Some, IfOk, IfSome, OnOk, OnErr, IsErrOf, option_to_list, slice_index_or};
ghost use Rattle.bp_base.specs.Counts.{Rose};
ghost use Rattle.bp_cli.specs.Asking.{WasAsked};
ghost use Rattle.bp_cli.specs.inner.Opening.{AreOpened, IsLogMade, IsLogNamed, IsLogHeld};

use bp_base::{World, WorldError};
use js_data::Text;
use std::alloc::Global;

/// Closes the inputs.
pub(crate) fn close_inputs<W: World>(world: &mut W, inputs: Vec<W::Input>)
    ensures risen { (k : ℕ) (d : W.Input) → k < length inputs.items →
        0 < W.Input.faults (slice_index_or inputs.items k d) →
        Rose (W.read_faults world.old) (W.read_faults world.new) }
    ensures counts { W.read_faults world.old ≤ W.read_faults world.new }
    ensures asked { W.asked world.new ≡ W.asked world.old }
    ensures holds { W.holds world.new ≡ W.holds world.old }
    ensures writes { W.write_faults world.new ≡ W.write_faults world.old }
{
    for input in inputs {
        world.close_input(input);
    }
}

/// Opens the inputs of these names, in order. If one is not opened, those before it are closed.
pub(crate) fn open_inputs<W: World>(
    alloc: Global,
    world: &mut W,
    names: &[Text],
) -> Result<Vec<W::Input>, WorldError>
    ensures opened { IfOk result (λ v. AreOpened W.Input.left W.Input.faults (W.holds world.old)
        names.now v.items) }
    ensures cause { IsErrOf result WorldError.Failed
        → Rose (W.read_faults world.old) (W.read_faults world.new) }
    ensures asked { OnOk result (WasAsked (W.asked world.old) names.now (W.asked world.new)) }
    ensures asked_some { OnErr result
        ((n : ℕ) × WasAsked (W.asked world.old) (take n names.now) (W.asked world.new)) }
    ensures holds { W.holds world.new ≡ W.holds world.old }
    ensures counts { W.read_faults world.old ≤ W.read_faults world.new }
    ensures writes { W.write_faults world.new ≡ W.write_faults world.old }
{
    let mut inputs = Vec::with_capacity(alloc, names.len())?;
    for name in names {
        match world.open(name.as_str()) {
            Ok(input) => {
                let Ok(()) = inputs.push(input) else {
                    unreachable!()
                };
            }
            Err(error) => {
                close_inputs(world, inputs);
                return Err(error);
            }
        }
    }
    Ok(inputs)
}

/// Makes the log of this name, if one is to be kept.
pub(crate) fn create_log<W: World>(
    world: &mut W,
    name: &Option<Text>,
) -> Result<Option<W::Output>, WorldError>
    ensures made { IfOk result (λ log. IsLogMade W.Output.written W.Output.made_as W.Output.faults
        (W.holds world.old) name.now log) }
    ensures cause { IsErrOf result WorldError.Failed
        → Rose (W.write_faults world.old) (W.write_faults world.new) }
    ensures asked { OnOk result
        (WasAsked (W.asked world.old) (option_to_list name.now) (W.asked world.new)) }
    ensures asked_failed { IsErrOf result WorldError.Failed
        → WasAsked (W.asked world.old) (option_to_list name.now) (W.asked world.new) }
    ensures asked_nothing { IsErrOf result WorldError.Memory
        → W.asked world.new ≡ W.asked world.old }
    ensures holds { W.holds world.new ≡ W.holds world.old }
    ensures counts { W.write_faults world.old ≤ W.write_faults world.new }
    ensures reads { W.read_faults world.new ≡ W.read_faults world.old }
{
    match name {
        None => Ok(None),
        Some(name) => match world.create(name.as_str()) {
            Ok(output) => Ok(Some(output)),
            Err(error) => Err(error),
        },
    }
}

/// Closes the log under its name, if one is kept.
pub(crate) fn close_log<W: World>(world: &mut W, name: &Option<Text>, log: Option<W::Output>)
    requires { IsLogNamed W.Output.made_as name.now log }
    ensures held { IsLogHeld W.Output.written (W.holds world.old) name.now log (W.holds world.new) }
    ensures risen { IfSome log (λ l. 0 < W.Output.faults l →
        Rose (W.write_faults world.old) (W.write_faults world.new)) }
    ensures counts { W.write_faults world.old ≤ W.write_faults world.new }
    ensures asked { W.asked world.new ≡ W.asked world.old }
    ensures reads { W.read_faults world.new ≡ W.read_faults world.old }
{
    match (name, log) {
        (Some(name), Some(log)) => world.close_output(name.as_str(), log),
        (Some(_), None) => unreachable!(),
        (None, Some(_)) => unreachable!(),
        (None, None) => {}
    }
}
