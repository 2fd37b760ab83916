//! What is recorded of a run.
ghost use Rattle.std.specs.Prelude.{◌≡◌, ◌↔◌, IsTrue, IfOk, option_map};
ghost use Rattle.bp_log.specs.Records.{same_record as record_is_same, verdict_in, verdict_of};

use crate::{Memory, Sequence, Verdict};
use js_data::Event;

/// One thing that is recorded of a run.
#[derive(Debug)]
pub enum Record {
    /// An event of this injector entered the queue.
    In(u32, Event),
    /// This injector had a bad line, with its number, and ended.
    Bad(u32, u32),
    /// The input of this injector ended.
    Eof(u32),
    /// This event was selected.
    Sel(Event),
    /// The run ended.
    End(Verdict),
}

impl Drop for Record {
    fn drop(self) {
        match self {
            Record::In(_, _) => {}
            Record::Bad(_, _) => {}
            Record::Eof(_) => {}
            Record::Sel(_) => {}
            Record::End(_) => {}
        }
    }
}

/// Whether the two are the same record.
fn same_record(left: &Record, right: &Record) -> bool
    ensures { result ≡ record_is_same left.now right.now }
{
    match (left, right) {
        (Record::In(i, a), Record::In(j, b)) => *i == *j && a.same(b),
        (Record::Bad(i, m), Record::Bad(j, n)) => *i == *j && *m == *n,
        (Record::Eof(i), Record::Eof(j)) => *i == *j,
        (Record::Sel(a), Record::Sel(b)) => a.same(b),
        (Record::End(a), Record::End(b)) => a.same(b),
        _ => false,
    }
}

impl Record {
    /// An equal record.
    pub fn copy(&self) -> Result<Record, Memory>
        ensures { IfOk result (λ r. r ≡ self.now) }
    {
        match self {
            Record::In(injector, event) => Ok(Record::In(*injector, event.copy()?)),
            Record::Bad(injector, line) => Ok(Record::Bad(*injector, *line)),
            Record::Eof(injector) => Ok(Record::Eof(*injector)),
            Record::Sel(event) => Ok(Record::Sel(event.copy()?)),
            Record::End(verdict) => Ok(Record::End(verdict.copy()?)),
        }
    }

    /// The verdict of the record of an end.
    pub fn verdict(&self) -> Option<&Verdict>
        ensures { option_map (λ v. v.now) result ≡ verdict_in self.now }
    {
        match self {
            Record::End(verdict) => Some(verdict),
            _ => None,
        }
    }

    /// Whether the two are equal.
    pub fn same(&self, other: &Record) -> bool
        ensures same { result ≡ record_is_same self.now other.now }
        ensures equal { IsTrue result ↔ (self.now ≡ other.now) }
    {
        same_record(self, other)
    }
}

/// What is recorded of a run, in order.
pub type Records = Sequence<Record>;

/// The verdict with which the records end, if they do.
pub fn verdict_of(records: &[Record]) -> Option<&Verdict>
    ensures { option_map (λ v. v.now) result ≡ verdict_of records.now }
{
    match records.last() {
        Some(last) => last.verdict(),
        None => None,
    }
}
