//! What is known of a log after the records that were read.
ghost use Rattle.std.specs.Prelude.{◌≡◌, ◌<◌, ◌+◌, IfOk, OnErr, nat_le};
ghost use Rattle.bp_reading.specs.Heads.{line_room};
ghost use Rattle.bp_reading.specs.Reading.{is_live as live, is_known as known, can_stand as stands, after, next_record, first_stage};

use crate::{LogFault, record_of};
use bp_log::{Memory, Record, Verdict, Version};
use bp_reading::limits::{MOST_LINE_BYTES, MOST_RECORDS};
use std::alloc::Global;
use std::marker::Model;

/// What is known of a log after the records that were read.
#[derive(Drop)]
pub(crate) struct Progress {
    version: Version,
    injectors: u32,
    over: Vec<u32>,
    lines: u32,
    ended: bool,
}

impl Model for Progress {
    ghost use Rattle.bp_reading.specs.Reading.{Stage};
    ghost use Rattle.bp_reading.specs.declared.limits.TheConstants.{MOST_RECORDS};
    ghost use Rattle.std.specs.Prelude.{◌≤◌};

    ghost Value = { Stage };

    ghost view = { λ p. record {
      version = p.version;
      injectors = p.injectors;
      over = p.over.items;
      lines = p.lines;
      ended = p.ended;
    } };

    ghost invariant = { λ p. p.lines ≤ MOST_RECORDS };
}

impl Progress {
    /// Of a log of this version with this many injectors, before its first record.
    pub(crate) fn new(alloc: Global, version: Version, injectors: u32) -> Progress
        ensures { result ≡ first_stage version injectors }
    {
        Progress {
            version,
            injectors,
            over: Vec::new(alloc),
            lines: 0,
            ended: false,
        }
    }

    /// How many bytes the line of a record may have.
    pub(crate) fn line_room(&self) -> u32
        ensures { result ≡ line_room self.now.version }
    {
        match self.version {
            Version::First => MOST_LINE_BYTES,
            Version::Second => MOST_LINE_BYTES,
        }
    }

    /// Whether there is such an injector, and it hasn't ended.
    fn is_live(&self, injector: u32) -> bool
        ensures { result ≡ live self.now injector }
    {
        let some = injector < self.injectors;
        some & !self.over.contains(&injector)
    }

    /// Whether the verdict names no injector that isn't there.
    fn is_known(&self, verdict: &Verdict) -> bool
        ensures { result ≡ known self.now verdict.now }
    {
        match verdict {
            Verdict::Bad(injector, _) => *injector < self.injectors,
            _ => true,
        }
    }

    /// Whether the record can stand next.
    fn can_stand(&self, entry: &Record) -> bool
        ensures { result ≡ stands self.now entry.now }
    {
        match entry {
            Record::In(injector, _) => self.is_live(*injector),
            Record::Bad(injector, _) => self.is_live(*injector),
            Record::Eof(injector) => self.is_live(*injector),
            Record::Sel(_) => true,
            Record::End(verdict) => self.is_known(verdict),
        }
    }

    /// Counts one more record. After an error nothing has changed.
    pub(crate) fn count(&mut self, entry: &Record) -> Result<(), Memory>
        requires { self.old.lines < MOST_RECORDS }
        ensures counted { IfOk result (λ _. self.new ≡ after self.old entry.now) }
        ensures failed { OnErr result (self.new ≡ self.old) }
    {
        match entry {
            Record::In(_, _) => {}
            Record::Bad(injector, _) => self.over.push(*injector)?,
            Record::Eof(injector) => self.over.push(*injector)?,
            Record::Sel(_) => {}
            Record::End(_) => self.ended = true,
        }
        self.lines += 1;
        Ok(())
    }

    /// The record that the line says, if it can stand next.
    pub(crate) fn record_of(&self, alloc: Global, line: &[u8]) -> Result<Option<Record>, Memory>
        ensures { IfOk result (λ r. r ≡ next_record self.now line.now) }
    {
        match record_of(alloc, line)? {
            None => Ok(None),
            Some(entry) => {
                if self.can_stand(&entry) {
                    Ok(Some(entry))
                } else {
                    Ok(None)
                }
            }
        }
    }

    /// The refusal of the next line.
    pub(crate) fn bad_line(&self) -> LogFault
        ensures { result ≡ LogFault.Line (self.now.lines + 1) }
    {
        LogFault::Line(self.lines + 1)
    }

    /// Whether the last record was the end.
    pub(crate) fn has_ended(&self) -> bool
        ensures { result ≡ self.now.ended }
    {
        self.ended
    }

    /// Whether no further line can come.
    pub(crate) fn is_full(&self) -> bool
        ensures { result ≡ nat_le MOST_RECORDS self.now.lines }
    {
        self.lines >= MOST_RECORDS
    }
}
