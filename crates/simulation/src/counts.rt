//! What a repository keeps in memory has bounds.

use disk_trait::Parts;
use repo_core::Repo;

/// The most undecided transactions of a repository, and the most that are in its queue.
const MOST_QUEUED: usize = 1_024;

/// The most commits of which a session was told that its client hasn't acknowledged.
const MOST_UNACKNOWLEDGED: usize = 4_096;

/// The most messages that wait for a session: those of such commits, and pages that its client asked for.
const MOST_WAITING: usize = 8_192;

/// What a run has.
#[derive(Clone, Copy)]
pub(crate) struct Size {
    pub clients: usize,
    pub items: usize,
}

/// Whether a repository has at most one session of each client that hasn't ended.
fn are_sessions_bounded<P: Parts>(repo: &Repo<P>, size: Size) -> bool {
    repo.live_sessions()
        .saturating_add(repo.given_up_sessions())
        <= size.clients
}

/// Whether a repository has no more transactions than a queue takes, and decisions of items.
fn are_transactions_bounded<P: Parts>(repo: &Repo<P>, size: Size) -> bool {
    repo.queued() <= MOST_QUEUED && repo.open_or_kept() <= MOST_QUEUED.saturating_add(size.items)
}

/// Whether no session has more messages than it may.
fn are_messages_bounded<P: Parts>(repo: &Repo<P>) -> bool {
    for session in 0..=repo.last_session() {
        if repo.unacknowledged(session) > MOST_UNACKNOWLEDGED
            || repo.waiting(session) > MOST_WAITING
        {
            return false;
        }
    }
    true
}

/// Whether a repository keeps in memory what it may at most.
pub(crate) fn is_bounded<P: Parts>(repo: &Repo<P>, size: Size) -> bool {
    are_sessions_bounded(repo, size)
        && are_transactions_bounded(repo, size)
        && are_messages_bounded(repo)
}
