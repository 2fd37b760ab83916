//! Where the text of a program begins.
ghost use Rattle.std.specs.Prelude.{◌≡◌};
ghost use Rattle.js_tree.specs.Views.{plain_tree};
ghost use Rattle.js_names.specs.Spots.{program_spot};

use js_tree::{Item, Spot, Tree};

/// The first token of a program, or the begin of line 1 where there is none.
pub(crate) fn program_spot(tree: &Tree) -> Spot
    ensures { result ≡ program_spot (plain_tree tree.now) }
{
    match tree.items.as_slice() {
        [] => Spot { at: 0, line: 1 },
        [Item::Statement(spot, _), ..] => *spot,
        [Item::Function(spot, _, _, _), ..] => *spot,
    }
}
