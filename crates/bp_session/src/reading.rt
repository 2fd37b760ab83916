//! An injector while something is served.
use crate::hearing::Hearing;
use bp_base::Source;
use bp_inject::Started;

/// An injector that was started, and how it is heard.
#[derive(Drop)]
pub(crate) struct Reading<S: Source> {
    /// Its thread, or its feed where no thread could be made.
    pub(crate) started: Started<S>,
    /// Its lane, and an item that was taken of it and has not entered.
    pub(crate) hearing: Hearing,
}
