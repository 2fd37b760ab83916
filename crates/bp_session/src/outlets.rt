//! The two outlets of a run.
ghost use Rattle.std.specs.Prelude.{◌≡◌, OnOk, IsErrOf};
ghost use Rattle.bp_told.specs.Told.{NothingWaits, WritesAll, WritesPart, WritesOut};
ghost use Rattle.bp_session.specs.inner.Outlets.{given_to, told_fault, WritesTo};

use bp_base::Sink;
use bp_told::{RunFault, Telling};

/// The two outlets of a run: its output, and its log where one is kept.
pub(crate) struct Outlets<'a, 'b, K, L> {
    pub(crate) out: &'a mut K,
    pub(crate) log: &'b mut Option<L>,
}

impl<K: Sink, L: Sink> Outlets<'_, '_, K, L> {
    /// Writes all that waits: what is for the log, and then the lines. Then nothing waits.
    pub(crate) fn flush(&mut self, telling: &mut Telling) -> Result<(), RunFault>
        ensures all { OnOk result (WritesAll L.written (given_to K.Sink self.old) telling.old
            (given_to K.Sink self.new) telling.new) }
        ensures part { WritesPart L.written (given_to K.Sink self.old) telling.old
            (given_to K.Sink self.new) }
        ensures whole { OnOk result (WritesOut L.written (given_to K.Sink self.old) telling.old
            (given_to K.Sink self.new)) }
        ensures nothing { OnOk result (NothingWaits telling.new) }
        ensures kept { telling.new.kept ≡ telling.old.kept }
        ensures memory { ¬ IsErrOf result RunFault.Memory }
        ensures writes { WritesTo K.Sink L.Sink self.old self.new (told_fault result) }
    {
        telling.flush(self.out, self.log)
    }
}
