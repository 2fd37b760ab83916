//! Versions of the text of a log.
ghost use Rattle.std.specs.Prelude.{◌≡◌};
ghost use Rattle.bp_log.specs.Logs.{version_line, version_of};

/// A version of the text of a log.
#[derive(Clone, Copy)]
pub enum Version {
    /// It says nothing of waiting: its runs wait.
    First,
    /// It says whether its run waits. It is the one that is written.
    Second,
}

impl Version {
    /// The first line of a log of this version, without its line end.
    pub fn line(self) -> &'static str
        ensures { result.now ≡ version_line self }
    {
        match self {
            Version::First => "bp-log 1",
            Version::Second => "bp-log 2",
        }
    }

    /// The version of the log with this first line, or `None` exactly where no version has it.
    pub fn of_line(line: &[u8]) -> Option<Version>
        ensures { result ≡ version_of line.now }
    {
        if line == Version::First.line().as_bytes() {
            return Some(Version::First);
        }
        if line == Version::Second.line().as_bytes() {
            return Some(Version::Second);
        }
        None
    }
}
