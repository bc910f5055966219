//! What flushes the repositories.

use crate::locks::Locks;
use crate::prompts::Prompt;
use crossbeam_channel::Receiver;
use disk_trait::Parts;
use outside::Gate;
use std::sync::Wait;

/// What flushes a repository.
#[derive(Drop)]
pub(crate) struct Flusher<'a, R: Wait, P: Parts, G: Gate> {
    pub(crate) locks: &'a Locks<'a, R, P, G>,
    /// The number of the repository.
    pub(crate) repo: u8,
    pub(crate) prompts: Receiver<Prompt>,
}

/// How far a repository is flushed.
enum Flushing {
    /// A page was flushed, and more may have to be.
    Flushed,
    /// The buffer is half full at most.
    Half,
    /// It wasn't flushed: it is down, or its disk failed, or memory wasn't there.
    Refused,
}

/// Waits for prompts, and flushes the repository to half its buffer after each. It ends where none comes any more,
/// or where the repository refuses.
pub(crate) fn flush_when_prompted<R: Wait, P: Parts, G: Gate>(flusher: Flusher<'_, R, P, G>) {
    let Flusher {
        locks,
        repo,
        prompts,
    } = flusher;
    for _ in locks.rt.forever() {
        match prompts.recv(locks.rt) {
            Ok(Prompt) => {}
            Err(_) => break,
        }
        if !flush_to_half(locks, repo) {
            break;
        }
    }
}

/// Flushes pages, one each time that it takes the lock. It answers whether the repository didn't refuse.
fn flush_to_half<R: Wait, P: Parts, G: Gate>(locks: &Locks<'_, R, P, G>, repo: u8) -> bool {
    for _ in 0..u64::MAX {
        match flush_one(locks, repo) {
            Flushing::Flushed => {}
            Flushing::Half => return true,
            Flushing::Refused => return false,
        }
    }
    true
}

fn flush_one<R: Wait, P: Parts, G: Gate>(locks: &Locks<'_, R, P, G>, repo: u8) -> Flushing {
    let Some(mut seat) = locks.lock(repo) else {
        return Flushing::Refused;
    };
    if seat.mob_bytes() <= locks.half {
        return Flushing::Half;
    }
    locks.pass(repo);
    match seat.flush(repo) {
        Ok(_) => Flushing::Flushed,
        Err(_) => Flushing::Refused,
    }
}
