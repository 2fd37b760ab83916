//! The nodes of a base.
ghost use Rattle.std.specs.Prelude.{◌≡◌, Some, slice_get};
ghost use Rattle.js_program.specs.PlainProgram.{parts_of};
ghost use Rattle.js_program.specs.Views.{plain_node, plain_node_form};
ghost use Rattle.js_frames.specs.Fits.{IsNode, AreNodes};

use crate::ground::Ground;
use js_program::Node;

/// The node of this number.
#[inline(always)]
pub(crate) fn node_of(base: &Ground, number: u32) -> &Node
    requires { IsNode base.now.program number }
    ensures node { slice_get base.now.program.nodes number ≡ Some (plain_node result.now) }
    ensures parts { AreNodes base.now.program (parts_of (plain_node_form result.now.form)) }
{
    // For the proof: what the ground keeps.
    base.keeps();
    base.program().node(number)
}
