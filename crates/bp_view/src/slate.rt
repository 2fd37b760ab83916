//! What is published of a view, and the rule under which it is.
ghost use Rattle.std.specs.Prelude.{◌≡◌, ◌∷◌, ◌++◌, [], IfOk, OnOk, OnErr};

use crate::summary::Summary;
use bp_base::Memory;
use crossbeam_utils::rule::{Outcome, Protocol};
use left_right::Absorb;
use left_right::reader::Reader;
use left_right::writer::Writer;
use std::alloc::{AllocError, Global};
use std::collections::LinkedList;
use std::marker::Model;

/// All summaries that were shown, in order.
#[derive(Drop)]
pub(crate) struct Slate {
    items: Vec<Summary>,
}

impl Model for Slate {
    ghost use Rattle.std.specs.Prelude.{List};
    ghost use Rattle.bp_view.specs.declared.summary.Summary.{Summary};

    ghost Value = { List Summary };

    ghost view = { λ s. s.items.items };
}

impl Slate {
    /// One with this summary.
    pub(crate) fn new(alloc: Global, first: Summary) -> Result<Slate, Memory>
        ensures { IfOk result (λ s. s ≡ first ∷ []) }
    {
        let mut items = Vec::new(alloc);
        items.push(first)?;
        Ok(Slate { items })
    }

    /// The summaries.
    pub(crate) fn as_slice(&self) -> &[Summary]
        ensures { result.now ≡ self.now }
    {
        self.items.as_slice()
    }

    /// Adds a summary.
    fn add(&mut self, summary: Summary) -> Result<(), Memory>
        ensures added { OnOk result (self.new ≡ self.old ++ summary ∷ []) }
        ensures same { OnErr result (self.new ≡ self.old) }
    {
        self.items.push(summary)?;
        Ok(())
    }
}

impl Absorb<Summary> for Slate {
    ghost use Rattle.std.specs.Prelude.{◌++◌, ◌∷◌, []};

    /// A clause reads it as a list.
    type State = [Summary; 0];

    ghost state = { λ s. s };

    ghost applied = { λ list summary. list ++ summary ∷ [] };

    fn absorb_first(&mut self, operation: &Summary, _other: &Slate) -> Result<(), AllocError> {
        self.add(*operation)
    }
}

/// What each thread saw begins what is published, which never goes back.
pub(crate) struct InTurn;

impl Protocol<Slate, LinkedList<Summary>> for InTurn {
    ghost use Rattle.std.specs.Prelude.{[]};
    ghost use Rattle.bp_view.specs.inner.Published.{Published};

    ghost holds = { Published };

    ghost first = { [] };
}

/// A look at what is published.
pub(crate) struct Look;

impl Outcome<Slate, LinkedList<Summary>> for Look {
    ghost use Rattle.bp_view.specs.inner.Published.{IsLook};

    ghost then = { λ v x y w. IsLook v y w };
}

/// More is published.
pub(crate) struct Add;

impl Outcome<Slate, LinkedList<Summary>> for Add {
    ghost use Rattle.std.specs.Prelude.{◌≡◌};

    ghost then = { λ v x y w. w ≡ v };
}

pub(crate) type Desk = Writer<Slate, Summary, LinkedList<Summary>, InTurn>;

pub(crate) type Glass = Reader<Slate, LinkedList<Summary>, InTurn>;
