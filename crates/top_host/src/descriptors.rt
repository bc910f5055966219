//! The descriptors of standard input, output and error: 0, 1 and 2.

use std::fs::{File, TryLockError};
use std::io::Result as IoResult;

/// As long as it isn't dropped no other file that is opened gets the descriptor of a standard stream.
#[derive(Drop)]
pub struct Reserved(File, File, File);

impl Reserved {
    /// Takes the folder's own lock, which is let go with the first descriptor. Not every file system has one.
    pub fn try_lock(&self) -> Result<(), TryLockError> {
        self.0.try_lock()
    }
}

/// Opens a folder three times, for reading. A file gets the least descriptor that is free, so none of 0, 1 and 2 is free behind
/// that. A standard stream that was closed as the program began fails at each read and each write, as a folder does.
///
/// The error is that of the first opening that failed. None of the files stays open then.
pub fn reserve(rt: HostRuntime, folder: &str) -> IoResult<Reserved> {
    Ok(Reserved(
        File::open(&rt, folder)?,
        File::open(&rt, folder)?,
        File::open(&rt, folder)?,
    ))
}
