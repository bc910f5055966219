//! The rule on events.

ghost use Rattle.std.specs.Prelude.{◌≡◌, ◌↔◌, Ok, IfErr, IfOk};
ghost use Rattle.schedule.specs.Breaks.{is_client, is_repo, keeps, with_event, least_breach, AllKeep, IsLeastBreach};

use crate::events::{Event, EventKind, Events};

/// Whether the client is one of so many, from 1 on.
fn is_client(clients: u8, client: u32) -> bool
    ensures { result ≡ is_client clients client }
{
    1 <= client && client <= u32::from(clients)
}

/// Whether the repository is one of so many, from 0 on.
fn is_repo(repos: u8, repo: u32) -> bool
    ensures { result ≡ is_repo repos repo }
{
    repo < u32::from(repos)
}

/// Whether the event is known, and what it names is there.
fn keeps(kind: EventKind, clients: u8, repos: u8) -> bool
    ensures { result ≡ keeps clients repos kind }
{
    match kind {
        EventKind::Step { client } => is_client(clients, client),
        EventKind::Deliver { client, repo } => is_client(clients, client) && is_repo(repos, repo),
        EventKind::Flush { repo }
        | EventKind::Checkpoint { repo }
        | EventKind::Stop { repo, .. }
        | EventKind::Restart { repo, .. }
        | EventKind::Settle { repo } => is_repo(repos, repo),
        EventKind::Unknown => false,
    }
}

/// The least line so far, with one more event.
fn with_event(least: Option<u32>, event: &Event, clients: u8, repos: u8) -> Option<u32>
    ensures { result ≡ with_event clients repos least event.now }
{
    if keeps(event.kind, clients, repos) {
        return least;
    }
    match least {
        None => Some(event.line),
        Some(line) => Some(line.min(event.line)),
    }
}

/// The least line of an event that breaks the rule, if any.
#[tactic(auto, unfolding(crate::specs::Breaks::least_breach))]
fn least_breach(events: &[Event], clients: u8, repos: u8) -> Option<u32>
    ensures { result ≡ least_breach clients repos events.now }
{
    let mut least = None;
    for event in events {
        least = with_event(least, event, clients, repos);
    }
    least
}

/// Whether each event is one of the seven, and names clients and repositories that are there: clients 1 up
/// to `clients`, repositories 0 up to but not with `repos`. The error is the least line of an event that
/// isn't so. It takes no memory.
pub fn check_events(events: &Events, clients: u8, repos: u8) -> Result<(), u32>
    ensures kept { IfOk result (λ _. AllKeep clients repos events.now) }
    ensures broken { IfErr result (IsLeastBreach clients repos events.now) }
{
    match least_breach(events.as_slice(), clients, repos) {
        None => Ok(()),
        Some(line) => Err(line),
    }
}
