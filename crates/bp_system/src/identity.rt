//! Which of the system's files a file is.
use std::fs::Metadata;
use std::os::unix::fs::MetadataExt;

/// Which file it is, whatever its names: the device that it is on, and its number there.
#[derive(Clone, Copy, PartialEq, Eq)]
pub(crate) struct Identity {
    device: u64,
    inode: u64,
}

impl Identity {
    /// Of the file that this was asked about.
    pub(crate) fn of(metadata: &Metadata) -> Identity {
        Identity {
            device: metadata.dev(),
            inode: metadata.ino(),
        }
    }
}
