//! What is law of the grammar.
ghost use Rattle.js_grammar.specs.Trees.{OneTree};

/// Tokens spell at most one tree.
pub fn one_tree()
    ensures { OneTree }
{}
