//! Files that are opened for reading where they can't be written.

use std::alloc::Allocator;
use std::fs::{File, Metadata, OpenOptions};
use std::io::{Error, ErrorKind, Result as IoResult};
use std::rt::Files;

/// Files, of which one that may not be written is opened for reading alone: each write on it fails.
#[derive(Drop)]
pub struct OrReadOnly<R> {
    pub files: R,
}

/// Whether writing is what was refused.
fn is_for_writing(error: &Error) -> bool {
    match error.kind() {
        ErrorKind::PermissionDenied | ErrorKind::ReadOnlyFilesystem => true,
        _ => false,
    }
}

impl<R: Files<File = File>> Files for OrReadOnly<R> {
    type File = File;

    type Dir = R::Dir;

    fn open_file(&self, how: &OpenOptions, path: &str) -> IoResult<File> {
        match self.files.open_file(how, path) {
            Err(error) if is_for_writing(&error) => {
                let mut options = OpenOptions::new();
                options.read(true);
                self.files.open_file(&options, path)
            }
            opened => opened,
        }
    }

    fn open_dir(&self, path: &str) -> IoResult<R::Dir> {
        self.files.open_dir(path)
    }

    fn metadata(&self, path: &str) -> IoResult<Metadata> {
        self.files.metadata(path)
    }

    fn symlink_metadata(&self, path: &str) -> IoResult<Metadata> {
        self.files.symlink_metadata(path)
    }

    fn copy(&self, from: &str, to: &str) -> IoResult<u64> {
        self.files.copy(from, to)
    }

    fn rename(&self, from: &str, to: &str) -> IoResult<()> {
        self.files.rename(from, to)
    }

    fn remove_file(&self, path: &str) -> IoResult<()> {
        self.files.remove_file(path)
    }

    fn create_dir(&self, path: &str) -> IoResult<()> {
        self.files.create_dir(path)
    }

    fn remove_dir(&self, path: &str) -> IoResult<()> {
        self.files.remove_dir(path)
    }

    fn remove_dir_all<B: Allocator>(&self, alloc: B, path: &str) -> IoResult<()> {
        self.files.remove_dir_all(alloc, path)
    }
}
