//! Nodes and functions, as the walk over a tree emits them.
ghost use Rattle.std.specs.Prelude.{◌≡◌, ◌≤◌, IfOk, OnOk, length};
ghost use Rattle.std.specs.List.{insert};
ghost use Rattle.js_resolver.specs.inner.Emits.{Puts};

use js_program::{Body, Node, NodeForm};
use std::alloc::{AllocError, Global};

/// The nodes and the functions that are emitted so far.
#[derive(Drop)]
pub(crate) struct Emitter {
    pub(crate) alloc: Global,
    pub(crate) nodes: Vec<Node>,
    pub(crate) functions: Vec<Body>,
}

/// One more node, and its number. No program has this many that it would pass 32 bits.
pub(crate) fn put_node(emitter: &mut Emitter, line: u32, form: NodeForm) -> Result<u32, AllocError>
    ensures { IfOk result (λ n. Puts emitter.old emitter.new line form n) }
{
    let number = emitter.nodes.len();
    emitter.nodes.push(Node { line, form })?;
    if number > u32::MAX as usize {
        return Err(AllocError);
    }
    Ok(number as u32)
}

/// A function before those that stand at this place and after it.
pub(crate) fn put_function(
    emitter: &mut Emitter,
    place: usize,
    body: Body,
) -> Result<(), AllocError>
    requires { place ≤ length emitter.old.functions.items }
    ensures nodes { OnOk result (emitter.new.nodes.items ≡ emitter.old.nodes.items) }
    ensures functions { OnOk result (emitter.new.functions.items
        ≡ insert emitter.old.functions.items place body) }
{
    emitter.functions.insert(place, body)?;
    Ok(())
}
