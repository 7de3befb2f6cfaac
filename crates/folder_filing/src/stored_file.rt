//! Locks on files and folders, and the descriptors of files.
use std::fs::{File, TryLockError};
use std::os::fd::{AsRawFd, RawFd};

/// An open file or folder that can be locked. `FolderWriter` requires it of the runtime's files,
/// for the lock on its folder and for the writeback of its drafts.
pub trait StoredFile {
    /// Locks the file or folder until it is closed, without waiting.
    ///
    /// Fails with `WouldBlock` if it is locked through another open handle.
    fn try_lock(&self) -> Result<(), TryLockError>;

    /// Returns the system's descriptor of the file, or `None` if it is no file of the system: then
    /// no writeback is started before it is synced.
    fn descriptor(&self) -> Option<RawFd> {
        None
    }
}

impl StoredFile for File {
    fn try_lock(&self) -> Result<(), TryLockError> {
        File::try_lock(self)
    }

    fn descriptor(&self) -> Option<RawFd> {
        Some(self.as_raw_fd())
    }
}
