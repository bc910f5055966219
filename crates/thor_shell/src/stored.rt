//! What the words ask for, on a store in a folder.

use crate::performing::{Ended, perform};
use std::str;
use std::sync::Wait;
use std::thread::Threads;
use thor_top::Status;
use thor_value::{NoMemory, Text, Texts};
use top_host::{
    Clocks, Folder, advise, closed, enter, look, opened, remove_made, tell_files, tell_lost,
    tell_number,
};
use top_words::Plan;

const DOWN: &str =
    "a repository was down: where the schedule didn't stop it, its disk failed; look at the space and at the health of that disk before the next run, since the system may show bytes that the disk has lost";

/// Does what the words ask for on the repositories of a folder, which no other process has in use meanwhile.
pub fn perform_stored<R: Threads + Wait + Sync, C: Clocks>(
    rt: HostRuntime,
    threads: &R,
    words: &Texts,
    plan: &Plan,
    folder: &Text,
    clocks: &C,
) -> Result<Status, NoMemory> {
    let Ok(folder) = str::from_utf8(folder.as_slice()) else {
        return Err(NoMemory);
    };
    match enter(rt, folder)? {
        Folder::Entered(entry) => {
            let left = perform_entered(rt, threads, words, plan, folder, clocks)?;
            entry.leave(rt, left.are_files_gone);
            Ok(left.status)
        }
        Folder::Shut(advice) => {
            let ended = perform(rt, threads, words, closed(rt, plan.repos, clocks)?);
            advise(rt, advice);
            Ok(ended.status)
        }
    }
}

/// What is left behind a run in a folder.
#[derive(Drop)]
struct Left {
    status: Status,
    are_files_gone: bool,
}

/// The same in a folder that was entered. Files that were made and are empty are gone behind that.
fn perform_entered<R: Threads + Wait + Sync, C: Clocks>(
    rt: HostRuntime,
    threads: &R,
    words: &Texts,
    plan: &Plan,
    folder: &str,
    clocks: &C,
) -> Result<Left, NoMemory> {
    let files = look(rt, folder, plan.repos)?;
    let mut parts = opened(rt, plan, folder, files.as_slice(), clocks)?;
    let is_lost = tell_lost(rt, plan.repos, files.as_slice(), parts.as_mut_slice());
    let Ended {
        status,
        is_down,
        mut parts,
    } = perform(rt, threads, words, parts);
    if !tell_number(rt, status, plan.repos, parts.as_mut_slice()) {
        tell_files(rt, status, files.as_slice(), is_lost);
    }
    if is_down && status == Status::Unfinished {
        advise(rt, DOWN);
    }
    drop(parts);
    Ok(Left {
        status,
        are_files_gone: remove_made(rt, files.as_slice()),
    })
}
