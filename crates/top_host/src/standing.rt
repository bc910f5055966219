//! What the files of one repository tell of its store.

use disk_trait::{Clock, FileParts};
use repo_opening::read_repository;
use std::alloc::Global;
use thor_value::OrefMap;

/// The most repositories that a store has.
const MOST: u8 = 8;

/// The most bytes that a repository's buffer may have.
const MOB: u32 = 1 << 24;

/// What a repository is found to be.
#[derive(Drop)]
pub struct Standing {
    /// How many repositories its store has.
    pub repos: u8,
    /// The number of the log that counts.
    pub log: u8,
    /// How many entries its history has.
    pub entries: u64,
}

/// Reads the repository of this number, in a store of whatever number of repositories; nothing where it is none, or where a
/// disk fails.
pub fn standing_of<C: Clock>(
    alloc: Global,
    parts: &mut FileParts<C>,
    repo: u8,
) -> Option<Standing> {
    for repos in 1..=MOST {
        if let Some(found) = standing_in(alloc, parts, repo, repos) {
            return Some(found);
        }
    }
    None
}

/// Reads the repository of this number in a store of so many.
fn standing_in<C: Clock>(
    alloc: Global,
    parts: &mut FileParts<C>,
    repo: u8,
    repos: u8,
) -> Option<Standing> {
    let mut objects = OrefMap::new(alloc);
    let (recovered, _) = read_repository(alloc, parts, repo, repos, MOB, &mut objects).ok()??;
    Some(Standing {
        repos,
        log: recovered.log.disk(),
        entries: recovered.state.count(),
    })
}
