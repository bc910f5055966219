//! What has to be right behind a schedule.

use crate::deeds::{Deed, ROOTS, Values, perform};
use crate::world::World;
use log_entries::{Entry, Kind, Request};
use model_reading::Item;
use model_repository::Site;
use serial_model::{Ended, ItemOutcome};
use std::alloc::Global;
use thor_value::{Answer, Ints, NoMemory, TryCopy, Ts, Who};

/// A transaction that committed: its timestamp, its item, and what it printed.
#[derive(Drop)]
pub(crate) struct Commit {
    pub ts: Ts,
    pub who: Who,
    pub printed: Ints,
}

/// The transaction that an item's request is of, where it is one of a script.
fn commit_of(alloc: Global, request: &Request) -> Result<Option<Commit>, NoMemory> {
    match (&request.kind, &request.answer) {
        (Kind::App, Answer::Ints(printed)) => Ok(Some(Commit {
            ts: request.tx,
            who: request.who,
            printed: printed.copy()?,
        })),
        (Kind::App, Answer::Fault(_)) => Ok(Some(Commit {
            ts: request.tx,
            who: request.who,
            printed: Ints::new(alloc),
        })),
        (Kind::Transform | Kind::Upgrade { .. }, _) => Ok(None),
    }
}

/// The request that was prepared for a transaction.
fn prepared_in(items: &[Item], tx: Ts) -> Option<&Request> {
    for item in items {
        if let Item::Entry {
            entry: Entry::Prepared { request },
        } = item
        {
            if request.tx == tx {
                return Some(request);
            }
        }
    }
    None
}

/// The request that commits by an entry of a repository, where the transaction's coordinator is that one.
fn committed_by<'a>(items: &'a [Item], item: &'a Item) -> Option<&'a Request> {
    match item {
        Item::Entry {
            entry: Entry::One { request },
        } => Some(request),
        Item::Entry {
            entry: Entry::Decided { tx, commit },
        } => {
            if *commit {
                return prepared_in(items, *tx);
            }
            None
        }
        _ => None,
    }
}

/// Puts the transactions that committed at a repository, or by its decision, to the others.
fn gather(alloc: Global, commits: &mut Vec<Commit>, items: &[Item]) -> Result<(), NoMemory> {
    for item in items {
        if let Some(request) = committed_by(items, item) {
            if let Some(commit) = commit_of(alloc, request)? {
                commits.push(commit)?;
            }
        }
    }
    Ok(())
}

/// All transactions that committed.
pub(crate) fn commits_of(alloc: Global, sites: &[Site]) -> Result<Vec<Commit>, NoMemory> {
    let mut commits = Vec::new(alloc);
    for site in sites {
        gather(alloc, &mut commits, site.items.as_slice())?;
    }
    Ok(commits)
}

/// The commit with the least timestamp above one.
fn next<'a>(commits: &'a [Commit], last: Ts) -> Option<&'a Commit> {
    let mut least: Option<&Commit> = None;
    for commit in commits {
        let lower = match least {
            Some(other) => commit.ts < other.ts,
            None => true,
        };
        if commit.ts > last && lower {
            least = Some(commit);
        }
    }
    least
}

/// What an item does.
fn deed_of(deeds: &[Vec<Deed>], who: Who) -> Option<Deed> {
    let client = usize::from(who.client).checked_sub(1)?;
    let index = (who.index as usize).checked_sub(1)?;
    match deeds.get(client) {
        Some(items) => items.get(index).copied(),
        None => None,
    }
}

/// Whether a commit printed what it is to print behind those before it.
fn prints(
    alloc: Global,
    values: &mut Values,
    deeds: &[Vec<Deed>],
    commit: &Commit,
) -> Result<bool, NoMemory> {
    match deed_of(deeds, commit.who) {
        Some(deed) => {
            let printed = perform(alloc, values, deed)?;
            Ok(printed.as_slice() == commit.printed.as_slice())
        }
        None => Ok(false),
    }
}

/// Whether the commits, one after the other in the order of their timestamps, print what they are to print. `values` is
/// then what the roots hold.
pub(crate) fn are_serial(
    alloc: Global,
    values: &mut Values,
    deeds: &[Vec<Deed>],
    commits: &[Commit],
) -> Result<bool, NoMemory> {
    let mut last = Ts {
        time: 0,
        repo: 0,
        life: 0,
    };
    let mut done = 0usize;
    for _ in 0..commits.len() {
        if let Some(commit) = next(commits, last) {
            if !prints(alloc, values, deeds, commit)? {
                return Ok(false);
            }
            last = commit.ts;
            done = done.wrapping_add(1);
        }
    }
    Ok(done == commits.len())
}

/// Whether each client's commits have the order of its items.
pub(crate) fn are_in_order(commits: &[Commit]) -> bool {
    for one in commits {
        for other in commits {
            if one.who.client == other.who.client
                && one.who.index < other.who.index
                && other.ts < one.ts
            {
                return false;
            }
        }
    }
    true
}

/// How many commits are of an item.
fn count_of(commits: &[Commit], who: Who) -> usize {
    let mut count = 0usize;
    for commit in commits {
        if commit.who == who {
            count = count.wrapping_add(1);
        }
    }
    count
}

/// Whether a transaction committed.
fn has_committed(commits: &[Commit], tx: Ts) -> bool {
    for commit in commits {
        if commit.ts == tx {
            return true;
        }
    }
    false
}

/// Whether an item's commit is this one.
fn is_commit(commits: &[Commit], who: Who, ts: Ts, printed: &Ints) -> bool {
    for commit in commits {
        if commit.ts == ts {
            return commit.who == who && commit.printed.as_slice() == printed.as_slice();
        }
    }
    false
}

/// Whether an item ended as the histories tell: one that is reported done has its one commit, one that is refused none.
pub(crate) fn is_told(commits: &[Commit], ended: &Ended) -> bool {
    match &ended.outcome {
        ItemOutcome::Done { ts, answer } => {
            is_commit(commits, ended.who, *ts, answer) && count_of(commits, ended.who) == 1
        }
        ItemOutcome::Refused { .. } => count_of(commits, ended.who) == 0,
        ItemOutcome::Unknown { .. } => count_of(commits, ended.who) <= 1,
        ItemOutcome::Upgraded { .. } | ItemOutcome::Faulted { .. } => false,
    }
}

/// Whether what participants were told of transactions is what became of them.
pub(crate) fn are_atomic(commits: &[Commit], items: &[Item]) -> bool {
    for item in items {
        if let Item::Entry {
            entry: Entry::Finished { tx, commit },
        } = item
        {
            if *commit != has_committed(commits, *tx) {
                return false;
            }
        }
    }
    true
}
