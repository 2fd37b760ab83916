//! Scopes, as the walk over a tree holds them.
ghost use Rattle.std.specs.Prelude.{◌≡◌};

use crate::mention::{Declared, Mention};
use indexmap::IndexMap;
use std::alloc::Global;

/// The offset of the top level, as that of a function: no function begins there.
pub const TOP: u32 = u32::MAX;

/// A block, a `for`, a function or the program: its own names, and the `var` names declared at any depth in it.
pub(crate) struct Scope {
    pub(crate) own: IndexMap<String, Declared>,
    /// A block and a `for` have those alone that are names of their own too: no other can clash there.
    pub(crate) vars: IndexMap<String, Declared>,
    /// It is a whole function's, or the program's.
    pub(crate) whole: bool,
    /// The offset of the function that it belongs to.
    pub(crate) owner: u32,
}

// It is let go by one call, written out.
impl Drop for Scope {
    fn drop(self) {
        let Scope {
            own: _,
            vars: _,
            whole: _,
            owner: _,
        } = self;
    }
}

/// A walk over a tree: the scopes around where it is, the innermost last, and the mentions that it has met.
pub(crate) struct Walk {
    pub(crate) alloc: Global,
    pub(crate) scopes: Vec<Scope>,
    pub(crate) mentions: Vec<Mention>,
}

impl Walk {
    /// The mentions that it has met.
    pub(crate) fn into_mentions(self) -> Vec<Mention>
        ensures { result ≡ self.mentions }
    {
        let Walk {
            alloc: _,
            scopes: _,
            mentions,
        } = self;
        mentions
    }
}

// It is let go by one call, written out.
impl Drop for Walk {
    fn drop(self) {
        let Walk {
            alloc: _,
            scopes: _,
            mentions: _,
        } = self;
    }
}
