//! The laws of logs, each as the contract of a function that does nothing.
ghost use Rattle.bp_reading.specs.Laws.{OneReading, LogsAreRead, ReadLogsAreTexts, LinesAreTexts, ReadOneWay};

/// No two logs, of one version or of two, have one text: a text has one version, one header and one
/// list of records.
pub fn one_reading()
    ensures { OneReading }
{}

/// The text of a version, a header and a complete list of records, none of which breaks a rule of
/// lines, is read as that version, that header and that list.
pub fn logs_are_read()
    ensures { LogsAreRead }
{}

/// What bytes are read as, up to a good end, is a log: its header is within the limits, its records
/// are a complete list that breaks no rule of lines, their numbers, texts and events are in range,
/// and the bytes are the text of these.
pub fn read_logs_are_texts()
    ensures { ReadLogsAreTexts }
{}

/// A line is read as the record whose text it is, its numbers, texts and events in range, and is
/// refused where it is the text of none.
pub fn lines_are_texts()
    ensures { LinesAreTexts }
{}

/// Whatever the bytes after a header, they say one list of records and how these end, and no other:
/// well, or in the first refusal.
pub fn read_one_way()
    ensures { ReadOneWay }
{}
