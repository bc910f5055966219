//! The disks of repositories.

use crate::clocks::Clocks;
use crate::store_files::RepoFiles;
use disk_trait::{FileParts, MemParts};
use std::alloc::Global;
use std::fs::File;
use std::rt::Files;
use thor_value::NoMemory;

/// Repositories in memory, all of them empty.
pub fn memory<C: Clocks>(
    alloc: Global,
    repos: u8,
    clocks: &C,
) -> Result<Vec<MemParts<C::Clock>>, NoMemory> {
    let mut parts = Vec::new(alloc);
    for _ in 0..repos {
        parts.push(MemParts::new(
            Vec::new(alloc),
            Vec::new(alloc),
            Vec::new(alloc),
            Vec::new(alloc),
            clocks.clock(),
        ))?;
    }
    Ok(parts)
}

/// Repositories in files. A file that isn't there is made. Where one couldn't be opened, each call on that disk fails.
pub fn in_files<R: Files<File = File>, C: Clocks>(
    rt: &R,
    alloc: Global,
    files: &[RepoFiles],
    clocks: &C,
) -> Result<Vec<FileParts<C::Clock>>, NoMemory> {
    let mut parts = Vec::new(alloc);
    for repo in files {
        parts.push(FileParts::open(
            rt,
            repo.log0.path.as_str(),
            repo.log1.path.as_str(),
            repo.pages.path.as_str(),
            clocks.clock(),
        ))?;
    }
    Ok(parts)
}

/// Repositories whose files can't be opened: each call on their disks fails, and nothing is touched.
pub fn closed<C: Clocks>(
    rt: HostRuntime,
    repos: u8,
    clocks: &C,
) -> Result<Vec<FileParts<C::Clock>>, NoMemory> {
    let mut parts = Vec::new(rt.alloc());
    for _ in 0..repos {
        parts.push(FileParts::open(&rt, "", "", "", clocks.clock()))?;
    }
    Ok(parts)
}
