//! The restarts of a schedule.

use crate::locks::Locks;
use disk_trait::Parts;
use outside::Gate;
use schedule::{Event, EventKind};
use std::sync::Wait;
use thor_value::NoMemory;

/// Performs the restarts of a schedule in their order, and passes over its other events.
pub(crate) fn restart_all<R: Wait, P: Parts, G: Gate>(
    locks: &Locks<'_, R, P, G>,
    events: &[Event],
) -> Result<(), NoMemory> {
    for event in events {
        if let EventKind::Restart { repo, pick } = event.kind {
            restart(locks, repo, pick)?;
        }
    }
    Ok(())
}

fn restart<R: Wait, P: Parts, G: Gate>(
    locks: &Locks<'_, R, P, G>,
    repo: u32,
    pick: u32,
) -> Result<(), NoMemory> {
    let Ok(repo) = u8::try_from(repo) else {
        return Ok(());
    };
    match locks.enter(repo) {
        Some(mut seat) => {
            locks.tell_decided(repo);
            seat.restart(u64::from(pick))
        }
        None => Ok(()),
    }
}
