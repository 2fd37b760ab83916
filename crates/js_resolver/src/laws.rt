//! A law of the trees that tokens spell, as the contract of a function that does nothing.
ghost use Rattle.js_resolver.specs.Laws.{SpelledTreesKeepEnough};

use js_names::blocks_keep_enough;

/// Tokens spell no `let` or `const` as the whole body of an `if` or a loop. So each mention of a tree that they spell
/// is looked up as if each block, and the scope of each `for`, kept every `var` in it.
pub fn spelled_trees_keep_enough()
    ensures { SpelledTreesKeepEnough }
{
    // For the proof: a law.
    blocks_keep_enough();
}
