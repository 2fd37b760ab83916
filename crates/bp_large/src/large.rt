//! The text of the large program, and the program that it is.
ghost use Rattle.std.specs.Prelude.{◌≡◌, IfOk, string_bytes};
ghost use Rattle.bp_script.specs.Programs.{IsProgram};
ghost use Rattle.bp_large.specs.Large.{large_program as text_of_large, HasAcceptedTree};

use bp_script::{ScriptFault, accept};
use js_data::Memory;
use js_program::Program;
use std::alloc::{AllocError, Global};

/// The text before the number of the b-threads.
const FRONT: &str =
    "const make = i => () => { for (let r = 0; r < 4; r++) bp.sync({request: bp.Event(\"e\", i)}) }\nfor (let i = 0; i < ";

/// The text after it.
const REST: &str = "; i++) bp.registerBThread(\"t\" + i, make(i))\n";

/// A law: the text with any number of b-threads is accepted.
pub fn large_is_accepted(count: u32)
    ensures { HasAcceptedTree (text_of_large count) }
{}

/// The text of the program of this many b-threads.
#[tactic(auto, unfolding(crate::specs::Large::large_program))]
fn text_of(alloc: Global, count: u32) -> Result<String, Memory>
    ensures { IfOk result (λ s. string_bytes s ≡ text_of_large count) }
{
    format!(in alloc; "{FRONT}{count}{REST}")
}

/// The program of this many b-threads, of which each requests an event of its own four times. It is
/// never refused; its only error is out of memory.
pub fn large_program(alloc: Global, count: u32) -> Result<Program, Memory>
    ensures { IfOk result (IsProgram (text_of_large count)) }
{
    let text = text_of(alloc, count)?;
    match accept(alloc, text.as_str().as_bytes()) {
        Ok(program) => Ok(program),
        Err(ScriptFault::Memory) => Err(AllocError),
        Err(ScriptFault::Refused(_)) => unreachable!(),
    }
}
