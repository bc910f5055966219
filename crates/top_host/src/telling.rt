//! What is told of a store in a folder, beside the answer.

use crate::advice::advise;
use crate::clocks::Clocks;
use crate::folder::settle;
use crate::parts::{closed, in_files};
use crate::read_only::OrReadOnly;
use crate::standing::standing_of;
use crate::store_files::{RepoFiles, missing};
use disk_trait::{Clock, FileParts};
use thor_value::NoMemory;
use top_reply::Status;
use top_words::{Command, Plan};

const DISK_FAULT: &str =
    "a file of the store can't be read or written: look at its rights and at the space of its disk; nothing that was committed is lost";

const DAMAGED: &str =
    "a file of the store has other bytes than were written: the numbers are the repository, its file (0 log0, 1 log1, 2 pages) and the place in it; put the files back from a copy; nothing was changed";

/// The files of a folder, with their names in it; where these may be lost by a crash, files that can't be opened. A check, which
/// writes nothing, takes files that can be read alone.
pub fn opened<C: Clocks>(
    rt: HostRuntime,
    plan: &Plan,
    folder: &str,
    files: &[RepoFiles],
    clocks: &C,
) -> Result<Vec<FileParts<C::Clock>>, NoMemory> {
    if plan.command == Command::Check {
        return in_files(&OrReadOnly { files: rt }, rt.alloc(), files, clocks);
    }
    let parts = in_files(&rt, rt.alloc(), files, clocks)?;
    if settle(rt, folder) {
        Ok(parts)
    } else {
        closed(rt, plan.repos, clocks)
    }
}

/// Tells where repository 0 has no log, so that a setup makes a new store, and another repository of a store of as many has one
/// with more than its first Life. The answer is whether that was told.
pub fn tell_lost<C: Clock>(
    rt: HostRuntime,
    repos: u8,
    files: &[RepoFiles],
    parts: &mut [FileParts<C>],
) -> bool {
    if has_log(files, 0) {
        return false;
    }
    for repo in 1..8 {
        if has_log(files, repo) && tell_entries(rt, repos, repo, parts) {
            return true;
        }
    }
    false
}

/// Whether a repository may have a log.
fn has_log(files: &[RepoFiles], repo: u8) -> bool {
    match files.get(usize::from(repo)) {
        Some(files) => !files.is_without_logs(),
        None => false,
    }
}

/// Tells how many entries a repository's log has, where there are more than its first Life. The answer is whether that was told.
fn tell_entries<C: Clock>(
    rt: HostRuntime,
    repos: u8,
    repo: u8,
    parts: &mut [FileParts<C>],
) -> bool {
    let Some(parts) = parts.get_mut(usize::from(repo)) else {
        return false;
    };
    match standing_of(rt.alloc(), parts, repo) {
        Some(found) if found.repos == repos && found.entries > 1 => {
            let log = found.log;
            let entries = found.entries;
            let _ = eprintln!(rt;
                "{repo}.log{log} has {entries} entries, and repository 0 has no log: so there is no store here, and a script with a setup makes a new one over them"
            );
            true
        }
        _ => false,
    }
}

/// Tells how many repositories a store has that is damaged since other words say so. The answer is whether that was told. The
/// first repository that can be read decides.
pub fn tell_number<C: Clock>(
    rt: HostRuntime,
    status: Status,
    repos: u8,
    parts: &mut [FileParts<C>],
) -> bool {
    if status != Status::Damaged {
        return false;
    }
    for repo in 0..8 {
        if let Some(has) = number_at(rt, repo, parts) {
            return has != repos && tell_has(rt, has);
        }
    }
    false
}

/// How many repositories the store has that a repository belongs to; nothing where that can't be read.
fn number_at<C: Clock>(rt: HostRuntime, repo: u8, parts: &mut [FileParts<C>]) -> Option<u8> {
    let parts = parts.get_mut(usize::from(repo))?;
    Some(standing_of(rt.alloc(), parts, repo)?.repos)
}

/// Tells how many repositories a store has. The answer is that this was told.
fn tell_has(rt: HostRuntime, has: u8) -> bool {
    let unit = if has == 1 {
        "repository"
    } else {
        "repositories"
    };
    let _ = eprintln!(rt; "this store has {has} {unit}: say --repos {has}");
    true
}

/// Tells which files are missing, and what to do where a store was refused.
pub fn tell_files(rt: HostRuntime, status: Status, files: &[RepoFiles], is_lost: bool) {
    let is_told = is_lost || tell_missing(rt, status, files);
    match status {
        Status::DiskFault => advise(rt, DISK_FAULT),
        Status::Damaged if !is_told => advise(rt, DAMAGED),
        _ => {}
    }
}

/// Tells which files of a store are missing beside others. The answer is whether there are such.
fn tell_missing(rt: HostRuntime, status: Status, files: &[RepoFiles]) -> bool {
    let Ok(missing) = missing(rt.alloc(), files) else {
        return false;
    };
    if missing.is_empty() {
        return false;
    }
    let so = if status == Status::Damaged {
        "put the files back from a copy; nothing was changed"
    } else if !has_log(files, 0) {
        "so there is no store here, and a script with a setup makes a new one"
    } else {
        "the store is what the other log says, without what stood in this one alone"
    };
    let _ = eprintln!(rt; "{missing}: {so}");
    true
}
