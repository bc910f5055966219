//! The files of a store, as they are found before any of them is opened.

use std::alloc::Global;
use std::fs;
use std::io::ErrorKind;
use thor_value::NoMemory;

/// What a look at a file comes to.
#[derive(Clone, Copy, Debug, PartialEq, Eq)]
pub enum Sight {
    /// It isn't there.
    Absent,
    /// It is there, and has so many bytes.
    There { len: u64 },
    /// The system doesn't tell.
    Unknown,
}

/// A file of a store.
#[derive(Drop)]
pub struct StoreFile {
    /// Its name in the store's folder.
    pub name: String,
    /// Where it lies.
    pub path: String,
    /// What it was found to be.
    pub found: Sight,
}

/// The three files of a repository.
#[derive(Drop)]
pub struct RepoFiles {
    pub log0: StoreFile,
    pub log1: StoreFile,
    pub pages: StoreFile,
}

impl RepoFiles {
    /// Whether neither log can have an open header: it is absent, or has fewer than two bytes.
    pub fn is_without_logs(&self) -> bool {
        is_no_log(self.log0.found) && is_no_log(self.log1.found)
    }

    /// Whether all of them were absent.
    fn is_absent(&self) -> bool {
        self.log0.found == Sight::Absent
            && self.log1.found == Sight::Absent
            && self.pages.found == Sight::Absent
    }
}

fn is_no_log(found: Sight) -> bool {
    match found {
        Sight::Absent => true,
        Sight::There { len } => len < 2,
        Sight::Unknown => false,
    }
}

/// Looks for the files of so many repositories in a folder.
pub fn look(rt: HostRuntime, folder: &str, repos: u8) -> Result<Vec<RepoFiles>, NoMemory> {
    let mut files = Vec::new(rt.alloc());
    for repo in 0..repos {
        let log0 = look_for(rt, folder, repo, "log0")?;
        let log1 = look_for(rt, folder, repo, "log1")?;
        let pages = look_for(rt, folder, repo, "pages")?;
        files.push(RepoFiles { log0, log1, pages })?;
    }
    Ok(files)
}

fn look_for(rt: HostRuntime, folder: &str, repo: u8, end: &str) -> Result<StoreFile, NoMemory> {
    let name = format!(in rt.alloc(); "{repo}.{end}")?;
    let path = format!(in rt.alloc(); "{folder}/{name}")?;
    let found = sight_of(rt, path.as_str());
    Ok(StoreFile { name, path, found })
}

/// Looks at a file.
pub fn sight_of(rt: HostRuntime, path: &str) -> Sight {
    match fs::metadata(&rt, path) {
        Ok(metadata) => Sight::There {
            len: metadata.len(),
        },
        Err(error) => match error.kind() {
            ErrorKind::NotFound => Sight::Absent,
            _ => Sight::Unknown,
        },
    }
}

/// Whether all files were absent.
fn are_absent(files: &[RepoFiles]) -> bool {
    files.iter().all(|repo| repo.is_absent())
}

/// That these files are missing: those that were absent, beside others that weren't; empty where all or none were.
pub fn missing(alloc: Global, files: &[RepoFiles]) -> Result<String, NoMemory> {
    let mut told = String::new(alloc);
    if are_absent(files) {
        return Ok(told);
    }
    for repo in files {
        tell_missing(&mut told, &repo.log0)?;
        tell_missing(&mut told, &repo.log1)?;
        tell_missing(&mut told, &repo.pages)?;
    }
    Ok(told)
}

fn tell_missing(told: &mut String, file: &StoreFile) -> Result<(), NoMemory> {
    if file.found != Sight::Absent {
        return Ok(());
    }
    if !told.is_empty() {
        told.push_str(", ")?;
    }
    told.push_str(file.name.as_str())?;
    told.push_str(" is missing")?;
    Ok(())
}

/// Removes the files that were absent, where each of them is seen to be empty now: nothing has been written into them. The answer
/// is whether each file of the store is seen to be absent behind that.
pub fn remove_made(rt: HostRuntime, files: &[RepoFiles]) -> bool {
    if !files.iter().all(|repo| is_made_empty(rt, repo)) {
        return false;
    }
    for repo in files {
        remove_where_made(rt, &repo.log0);
        remove_where_made(rt, &repo.log1);
        remove_where_made(rt, &repo.pages);
    }
    files.iter().all(|repo| is_gone(rt, repo))
}

/// Whether each file of a repository that was absent is seen to be empty, or to be absent still.
fn is_made_empty(rt: HostRuntime, repo: &RepoFiles) -> bool {
    is_empty_where_made(rt, &repo.log0)
        && is_empty_where_made(rt, &repo.log1)
        && is_empty_where_made(rt, &repo.pages)
}

fn is_empty_where_made(rt: HostRuntime, file: &StoreFile) -> bool {
    file.found != Sight::Absent
        || match sight_of(rt, file.path.as_str()) {
            Sight::Absent => true,
            Sight::There { len } => len == 0,
            Sight::Unknown => false,
        }
}

fn remove_where_made(rt: HostRuntime, file: &StoreFile) {
    if file.found == Sight::Absent {
        let _ = fs::remove_file(&rt, file.path.as_str());
    }
}

/// Whether the files of a repository are seen to be absent.
fn is_gone(rt: HostRuntime, repo: &RepoFiles) -> bool {
    sight_of(rt, repo.log0.path.as_str()) == Sight::Absent
        && sight_of(rt, repo.log1.path.as_str()) == Sight::Absent
        && sight_of(rt, repo.pages.path.as_str()) == Sight::Absent
}
