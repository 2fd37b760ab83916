//! What a shower tells.
ghost use Rattle.std.specs.Prelude.{◌≡◌};

use crate::summary::Summary;
use std::marker::Model;

/// All that a shower has shown. While it is held, nothing more is shown.
#[derive(Drop)]
pub struct Told<'a> {
    list: &'a [Summary],
}

impl<'a> Model for Told<'a> {
    ghost use Rattle.std.specs.Prelude.{List};
    ghost use Rattle.bp_view.specs.declared.summary.Summary.{Summary};

    ghost Value = { List Summary };

    ghost view = { λ t. t.list.now };
}

impl<'a> Told<'a> {
    /// That these were shown.
    pub(crate) fn new(list: &'a [Summary]) -> Told<'a>
        ensures { result ≡ list.now }
    {
        Told { list }
    }

    /// The summaries that were shown.
    pub(crate) fn into_slice(self) -> &'a [Summary]
        ensures { result.now ≡ self.entry }
    {
        self.list
    }
}
