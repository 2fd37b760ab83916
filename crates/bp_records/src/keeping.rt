//! What headers and records keep by their types, as facts for those who have them. The calls do
//! nothing else.
ghost use Rattle.bp_reading.specs.Laws.{IsHeader, IsRecord, AreRecords};

use bp_log::{Header, Record, Records};

/// That the header's numbers are in their ranges and its program is no longer than a program may be,
/// as a fact for its callers. Does nothing.
pub fn header_keeps(header: &Header)
    ensures { IsHeader header.now }
{
    let options = header.options();
    let _seed = options.seed();
    let _budget = options.budget();
    let _program = header.program();
}

/// That the record's numbers are in their ranges, its events are events and its texts UTF-8, as a fact
/// for its callers. Does nothing.
fn record_keeps(entry: &Record)
    ensures { IsRecord entry.now }
{
    match entry {
        Record::In(injector, event) => {
            let _injector = *injector;
            event.keeps();
        }
        Record::Bad(injector, line) => {
            let _injector = *injector;
            let _line = *line;
        }
        Record::Eof(injector) => {
            let _injector = *injector;
        }
        Record::Sel(event) => event.keeps(),
        Record::End(verdict) => verdict.keeps(),
    }
}

fn items_keep(entries: &[Record])
    ensures { AreRecords entries.now }
{
    for entry in entries {
        record_keeps(entry);
    }
}

/// The numbers of the records are in their ranges, their events are events, and their texts are
/// UTF-8.
pub fn records_keep(records: &Records)
    ensures { AreRecords records.now }
{
    items_keep(records.as_slice());
}
