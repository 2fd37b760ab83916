//! What a run tells: its lines, and its records where a log is kept.
ghost use Rattle.std.specs.Prelude.{◌≡◌, ◌⊎◌, ◌≤◌, ◌<◌, ◌++◌, [], Err, length, drop, OnOk, OnErr, IfOk, IfErr, IsErrOf};
ghost use Rattle.bp_base.specs.Counts.{Rose};
ghost use Rattle.bp_base.specs.Pieces.{Appends};
ghost use Rattle.bp_log.specs.Logs.{header_text, records_text};
ghost use Rattle.bp_log.specs.declared.version.Version.TheVariants.{Second};
ghost use Rattle.bp_log.specs.Texts.{whole_line, lines_text};
ghost use Rattle.bp_told.specs.Logging.{LogGets, LogHolds, LogShows, LogShowsFront, LogWaits, LogFails, LogStays};
ghost use Rattle.bp_told.specs.Pages.{Shows, ShowsFront};
ghost use Rattle.bp_told.specs.declared.page.TheConstants.{FULL};
ghost use Rattle.bp_told.specs.Told.{given, BeginsTelling, TellsOn, BreaksOff, WritesAll, WritesPart, WritesOut, NothingWaits, IsWithin};

use crate::RunFault;
use crate::page::Page;
use bp_base::{Failed, Sink};
use bp_log::{Header, Line, Memory, Record};
use std::alloc::Global;
use std::marker::Model;

/// What a run tells and was not written yet. No line is written before the records that it comes of
/// are. Contracts see what waits.
#[derive(Drop)]
pub struct Telling {
    /// The lines for the output.
    lines: Page,
    /// What comes next in the log, where one is kept.
    records: Page,
    /// How many records were told.
    kept: usize,
}

impl Model for Telling {
    ghost use Rattle.bp_told.specs.Told.{Waiting};

    ghost Value = { Waiting };

    ghost view = { λ t. record { lines = t.lines; records = t.records; kept = t.kept } };
}

/// The head of a log on a page of its own, where one is kept.
fn head_of<L: Sink>(alloc: Global, header: &Header, log: &Option<L>) -> Result<Page, Memory>
    ensures { IfOk result (λ page.
        LogShows L.written log.now (header_text Second header.now) page log.now) }
{
    match log {
        None => Ok(Page::new(alloc)),
        Some(_) => Page::headed(alloc, header),
    }
}

impl Telling {
    /// The head of the log waits, where one is kept, and nothing was told.
    pub fn begin<L: Sink>(
        alloc: Global,
        header: &Header,
        log: &Option<L>,
    ) -> Result<Telling, Memory>
        ensures begins { IfOk result
            (BeginsTelling L.written (header_text Second header.now) log.now) }
        ensures kept { IfOk result (λ t. t.kept ≡ 0) }
    {
        let records = head_of(alloc, header, log)?;
        Ok(Telling {
            lines: Page::new(alloc),
            records,
            kept: 0,
        })
    }

    /// Writes what waits for the log, and then nothing waits for it. After a refusal a front of it
    /// was written. Nothing waits for a log that is not kept.
    fn write_records<L: Sink>(&mut self, log: &mut Option<L>) -> Result<(), RunFault>
        ensures shows { OnOk result
            (LogShows L.written log.old self.old.records self.new.records log.new) }
        ensures gets { OnOk result (LogGets L.written log.old self.old.records log.new) }
        ensures emptied { OnOk result (self.new.records ≡ []) }
        ensures front { OnErr result
            (LogShowsFront L.written log.old self.old.records self.new.records log.new) }
        ensures fault { IfErr result (λ e. e ≡ RunFault.LogWrite) }
        ensures cause { OnErr result (LogFails L.faults log.old log.new) }
        ensures stays { LogStays L.made_as L.faults log.old log.new }
        ensures rest { self.new ≡ record self.old { records = self.new.records } }
    {
        let Some(log) = log else {
            self.records.clear();
            return Ok(());
        };
        match self.records.write(log) {
            Ok(()) => Ok(()),
            Err(Failed) => Err(RunFault::LogWrite),
        }
    }

    /// Puts the records after those that are kept on the page of the log, where there is one, and
    /// writes what waits for it if that is much. After a refusal a front of that was written or
    /// waits.
    fn record<L: Sink>(
        &mut self,
        alloc: Global,
        records: &[Record],
        log: &mut Option<L>,
    ) -> Result<(), RunFault>
        requires kept { self.old.kept ≤ length records.now }
        ensures shows { let more = records_text (drop self.old.kept records.now) in
            OnOk result (LogShows L.written log.old (self.old.records ++ more)
            self.new.records log.new) }
        ensures front { let more = records_text (drop self.old.kept records.now) in
            OnErr result (LogShowsFront L.written log.old (self.old.records ++ more)
            self.new.records log.new) }
        ensures waits { ¬ IsErrOf result RunFault.LogWrite
            → LogWaits L.written log.old self.old.records self.new.records log.new }
        ensures kept { OnOk result (self.new.kept ≡ length records.now) }
        ensures lines { self.new.lines ≡ self.old.lines }
        ensures within { OnOk result (length self.new.records < FULL) }
        ensures fault { ¬ IsErrOf result RunFault.Write }
        ensures cause { IsErrOf result RunFault.LogWrite → LogFails L.faults log.old log.new }
        ensures stays { LogStays L.made_as L.faults log.old log.new }
    {
        if log.is_some() {
            self.records.add_records(alloc, &records[self.kept..])?;
        }
        self.kept = records.len();
        if self.records.is_full() {
            return self.write_records(log);
        }
        Ok(())
    }

    /// Writes what waits for the log, and then the lines that wait. After a refusal a front of that
    /// was written.
    fn write<K: Sink, L: Sink>(&mut self, out: &mut K, log: &mut Option<L>) -> Result<(), RunFault>
        ensures lines { OnOk result (self.new.lines ≡ []) }
        ensures records { OnOk result (self.new.records ≡ []) }
        ensures shows { OnOk result
            (Shows (K.written out.old) self.old.lines self.new.lines (K.written out.new)) }
        ensures front { OnErr result
            (ShowsFront (K.written out.old) self.old.lines self.new.lines (K.written out.new)) }
        ensures log_shows { OnOk result
            (LogShows L.written log.old self.old.records self.new.records log.new) }
        ensures log_front { OnErr result
            (LogShowsFront L.written log.old self.old.records self.new.records log.new) }
        ensures gets { OnOk result
            (Appends (K.written out.old) self.old.lines (K.written out.new)) }
        ensures log_gets { OnOk result (LogGets L.written log.old self.old.records log.new) }
        ensures behind { (K.written out.new ≡ K.written out.old)
            ⊎ LogGets L.written log.old self.old.records log.new }
        ensures whole { ¬ IsErrOf result RunFault.LogWrite
            → LogShows L.written log.old self.old.records self.new.records log.new }
        ensures kept { self.new.kept ≡ self.old.kept }
        ensures memory { ¬ IsErrOf result RunFault.Memory }
        ensures cause { IsErrOf result RunFault.Write → Rose (K.faults out.old) (K.faults out.new) }
        ensures log_cause { IsErrOf result RunFault.LogWrite → LogFails L.faults log.old log.new }
        ensures counts { K.faults out.old ≤ K.faults out.new }
        ensures stays { LogStays L.made_as L.faults log.old log.new }
    {
        self.write_records(log)?;
        self.lines.write(out)?;
        Ok(())
    }

    /// Puts the line at the end, and writes what waits if that is much. After a refusal a front of
    /// it was written or waits.
    fn print_line<K: Sink, L: Sink>(
        &mut self,
        alloc: Global,
        line: &Line,
        out: &mut K,
        log: &mut Option<L>,
    ) -> Result<(), RunFault>
        ensures shows { let text = self.old.lines ++ whole_line line.now in
            OnOk result (Shows (K.written out.old) text self.new.lines (K.written out.new)) }
        ensures front { let text = self.old.lines ++ whole_line line.now in
            OnErr result (ShowsFront (K.written out.old) text self.new.lines (K.written out.new)) }
        ensures log_shows { OnOk result
            (LogShows L.written log.old self.old.records self.new.records log.new) }
        ensures log_front { OnErr result
            (LogShowsFront L.written log.old self.old.records self.new.records log.new) }
        ensures behind { (K.written out.new ≡ K.written out.old)
            ⊎ LogGets L.written log.old self.old.records log.new }
        ensures whole { ¬ IsErrOf result RunFault.LogWrite
            → LogShows L.written log.old self.old.records self.new.records log.new }
        ensures within { IsWithin self.old → OnOk result (IsWithin self.new) }
        ensures kept { self.new.kept ≡ self.old.kept }
        ensures cause { IsErrOf result RunFault.Write → Rose (K.faults out.old) (K.faults out.new) }
        ensures log_cause { IsErrOf result RunFault.LogWrite → LogFails L.faults log.old log.new }
        ensures counts { K.faults out.old ≤ K.faults out.new }
        ensures stays { LogStays L.made_as L.faults log.old log.new }
    {
        self.lines.add_line(alloc, line)?;
        if self.lines.is_full() {
            return self.write(out, log);
        }
        Ok(())
    }

    /// Puts the lines at the end, and writes what waits whenever that is much. After a refusal a
    /// front of the text was written or waits.
    fn print<K: Sink, L: Sink>(
        &mut self,
        alloc: Global,
        lines: &[Line],
        out: &mut K,
        log: &mut Option<L>,
    ) -> Result<(), RunFault>
        ensures shows { let text = self.old.lines ++ lines_text lines.now in
            OnOk result (Shows (K.written out.old) text self.new.lines (K.written out.new)) }
        ensures front { let text = self.old.lines ++ lines_text lines.now in
            OnErr result (ShowsFront (K.written out.old) text self.new.lines (K.written out.new)) }
        ensures log_shows { OnOk result
            (LogShows L.written log.old self.old.records self.new.records log.new) }
        ensures log_front { OnErr result
            (LogShowsFront L.written log.old self.old.records self.new.records log.new) }
        ensures behind { (K.written out.new ≡ K.written out.old)
            ⊎ LogHolds L.written log.old self.old.records log.new }
        ensures whole { ¬ IsErrOf result RunFault.LogWrite
            → LogShows L.written log.old self.old.records self.new.records log.new }
        ensures within { IsWithin self.old → OnOk result (IsWithin self.new) }
        ensures kept { self.new.kept ≡ self.old.kept }
        ensures cause { IsErrOf result RunFault.Write → Rose (K.faults out.old) (K.faults out.new) }
        ensures log_cause { IsErrOf result RunFault.LogWrite → LogFails L.faults log.old log.new }
        ensures counts { K.faults out.old ≤ K.faults out.new }
        ensures stays { LogStays L.made_as L.faults log.old log.new }
    {
        for line in lines {
            self.print_line(alloc, line, out, log)?;
        }
        Ok(())
    }

    /// Tells further records of a run, of which all so far are given, and then the lines that came
    /// with them. What waits is written whenever that is much, so that no more than a page waits of
    /// either.
    pub fn tell<K: Sink, L: Sink>(
        &mut self,
        alloc: Global,
        records: &[Record],
        lines: &[Line],
        out: &mut K,
        log: &mut Option<L>,
    ) -> Result<(), RunFault>
        requires kept { self.old.kept ≤ length records.now }
        ensures tells { OnOk result (TellsOn L.written records.now lines.now
            (given K.written out.old log.old) self.old (given K.written out.new log.new) self.new) }
        ensures breaks { IfErr result (BreaksOff L.written records.now lines.now
            (given K.written out.old log.old) self.old (given K.written out.new log.new) self.new) }
        ensures within { IsWithin self.old → OnOk result (IsWithin self.new) }
        ensures kept { OnOk result (self.new.kept ≡ length records.now) }
        ensures cause { IsErrOf result RunFault.Write → Rose (K.faults out.old) (K.faults out.new) }
        ensures log_cause { IsErrOf result RunFault.LogWrite → LogFails L.faults log.old log.new }
        ensures counts { K.faults out.old ≤ K.faults out.new }
        ensures stays { LogStays L.made_as L.faults log.old log.new }
    {
        self.record(alloc, records, log)?;
        self.print(alloc, lines, out, log)
    }

    /// Writes all that waits: what is for the log, and then the lines. Then nothing waits. After a
    /// refusal a front of that was written. What was told before telling broke off, unless the log
    /// failed, may be written too.
    pub fn flush<K: Sink, L: Sink>(
        &mut self,
        out: &mut K,
        log: &mut Option<L>,
    ) -> Result<(), RunFault>
        ensures all { OnOk result (WritesAll L.written
            (given K.written out.old log.old) self.old (given K.written out.new log.new) self.new) }
        ensures part { WritesPart L.written
            (given K.written out.old log.old) self.old (given K.written out.new log.new) }
        ensures whole { OnOk result (WritesOut L.written
            (given K.written out.old log.old) self.old (given K.written out.new log.new)) }
        ensures nothing { OnOk result (NothingWaits self.new) }
        ensures kept { self.new.kept ≡ self.old.kept }
        ensures memory { ¬ IsErrOf result RunFault.Memory }
        ensures cause { IsErrOf result RunFault.Write → Rose (K.faults out.old) (K.faults out.new) }
        ensures log_cause { IsErrOf result RunFault.LogWrite → LogFails L.faults log.old log.new }
        ensures counts { K.faults out.old ≤ K.faults out.new }
        ensures stays { LogStays L.made_as L.faults log.old log.new }
    {
        self.write(out, log)
    }
}
