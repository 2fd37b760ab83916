//! The law of what blocks keep, as the contract of a function that does nothing.
ghost use Rattle.js_names.specs.Kept.{KeepsEnough, ProgramsKeepEnough};

/// A block, and the scope of a `for`, keeps of the `var`s in it those alone that have a name of its own. The law
/// says that a mention's name stands for the same and clashes with the same as if it kept all of them: a mention
/// directly in such a scope where it declares a name of the scope or a `var`, each other mention, and each mention
/// of a program with no `let` or `const` as the whole body of an `if` or a loop.
pub fn blocks_keep_enough()
    ensures everywhere { KeepsEnough }
    ensures programs { ProgramsKeepEnough }
{}
