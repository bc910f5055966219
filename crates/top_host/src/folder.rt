//! The folder of a store, which one process has in use at a time.

use crate::descriptors::{Reserved, reserve};
use crate::read_only::OrReadOnly;
use crate::store_files::{Sight, sight_of};
use std::fs;
use std::fs::{File, OpenOptions, TryLockError};
use std::io::{Error, ErrorKind, Result as IoResult};
use thor_value::NoMemory;

const IN_USE: &str = "store in use";

const NO_LOCK: &str = "the store can't be locked: choose a folder on another disk";

/// A folder that was to be entered.
#[derive(Drop)]
pub enum Folder {
    /// No other process has it in use until it is left.
    Entered(Entry),
    /// It can't be used, and this is what to do.
    Shut(&'static str),
}

/// A folder in use. Until it is dropped no file that is opened gets a descriptor below 3.
#[derive(Drop)]
pub struct Entry {
    /// Its file `lock`, locked; nothing where that isn't there and can't be made. Then the folder's own lock is held.
    lock: Option<File>,
    /// Where the file `lock` lies that was made. The folder's own lock is held then.
    made: Option<String>,
    reserved: Reserved,
}

impl Entry {
    /// Leaves the folder. Where the store's files are gone, so is a lock's file that was made: no other process can have
    /// opened that meanwhile, since the folder's own lock is let go last.
    pub fn leave(self, rt: HostRuntime, are_files_gone: bool) {
        let Entry {
            lock,
            made,
            reserved,
        } = self;
        if let (Some(path), true) = (&made, are_files_gone) {
            let _ = fs::remove_file(&rt, path.as_str());
        }
        drop(lock);
        drop(reserved);
    }
}

/// Takes the folder into use: an exclusive lock on itself, where the file system has such, and one on its file `lock`, which
/// is made where it isn't there. Before that the folder itself is opened, and nothing else in it is. In a folder where nothing
/// can be made a file `lock` that is there is opened for reading.
pub fn enter(rt: HostRuntime, folder: &str) -> Result<Folder, NoMemory> {
    let itself = format!(in rt.alloc(); "{folder}/.")?;
    let lock = format!(in rt.alloc(); "{folder}/lock")?;
    Ok(match reserve(rt, itself.as_str()) {
        Ok(reserved) => enter_reserved(rt, reserved, lock),
        Err(error) => shut_by(&error),
    })
}

fn shut_by(error: &Error) -> Folder {
    Folder::Shut(match error.kind() {
        ErrorKind::NotFound => "the folder of the store isn't there: make it first, with mkdir",
        _ => "the folder of the store can't be read and written: look at its rights",
    })
}

/// Takes the folder's own lock, and then that of its file.
fn enter_reserved(rt: HostRuntime, reserved: Reserved, path: String) -> Folder {
    match reserved.try_lock() {
        Ok(()) => enter_locked(rt, reserved, path),
        Err(TryLockError::WouldBlock) => Folder::Shut(IN_USE),
        Err(TryLockError::Error(_)) => match open_lock(rt, path.as_str()) {
            Ok(lock) => locked(lock, None, reserved),
            Err(error) => shut_by(&error),
        },
    }
}

/// Takes the lock of a folder's file where the folder's own lock is held.
fn enter_locked(rt: HostRuntime, reserved: Reserved, path: String) -> Folder {
    let is_made = sight_of(rt, path.as_str()) == Sight::Absent;
    match open_lock(rt, path.as_str()) {
        Ok(lock) if is_made => locked(lock, Some(path), reserved),
        Ok(lock) => locked(lock, None, reserved),
        Err(error) => match error.kind() {
            ErrorKind::NotFound => Folder::Entered(Entry {
                lock: None,
                made: None,
                reserved,
            }),
            _ => shut_by(&error),
        },
    }
}

/// Opens the file of a folder's lock, and makes it where it isn't there. Where that can't be done the error is that it isn't there.
fn open_lock(rt: HostRuntime, path: &str) -> IoResult<File> {
    let mut options = OpenOptions::new();
    options.write(true);
    options.create(true);
    options.open(&OrReadOnly { files: rt }, path)
}

/// The folder, where no other process has the lock of its file.
fn locked(lock: File, made: Option<String>, reserved: Reserved) -> Folder {
    match lock.try_lock() {
        Ok(()) => Folder::Entered(Entry {
            lock: Some(lock),
            made,
            reserved,
        }),
        Err(TryLockError::WouldBlock) => Folder::Shut(IN_USE),
        Err(TryLockError::Error(_)) => Folder::Shut(NO_LOCK),
    }
}

/// Syncs the folder, so that a crash doesn't take the names of its files. The answer is whether that was done.
pub fn settle(rt: HostRuntime, folder: &str) -> bool {
    match File::open(&rt, folder) {
        Ok(folder) => folder.sync_all().is_ok(),
        Err(_) => false,
    }
}
