//! What came how often.

use crate::deeds::{DEEDS, Deed, EVENTS, deed_of_cause, number_of};
use serial_model::{Ended, ItemOutcome};
use simulation_scripts::Told;
use std::alloc::Global;
use thor_value::NoMemory;

/// How many items ended how.
#[derive(Clone, Copy)]
pub struct Totals {
    pub items: u64,
    pub done: u64,
    pub faulted: u64,
    pub refused: u64,
    pub unknown: u64,
    pub upgraded: u64,
    pub events: u64,
}

/// What came how often: what events have come to, in which state of a client they came, and how items ended.
#[derive(Drop)]
pub struct Coverage {
    pub totals: Totals,
    /// For each kind of events and each deed.
    came: Vec<u64>,
    /// For each deed that a client's last step has come to, and each kind of events behind it.
    behind: Vec<u64>,
    /// For each cause.
    causes: Vec<u64>,
    /// What the events of the run that was begun last have come to.
    log: Vec<Told>,
    /// The place of the event that comes next, and how many there are.
    next: usize,
    limit: usize,
}

fn zeros(alloc: Global, count: usize) -> Result<Vec<u64>, NoMemory> {
    let mut counts = Vec::new(alloc);
    for _ in 0..count {
        counts.push(0)?;
    }
    Ok(counts)
}

/// Counts one more at a place.
fn count(counts: &mut Vec<u64>, place: usize) {
    if let Some(found) = counts.get_mut(place) {
        *found = found.saturating_add(1);
    }
}

fn count_at(counts: &[u64], place: usize) -> u64 {
    match counts.get(place) {
        Some(found) => *found,
        None => 0,
    }
}

/// The place of a kind of events and a deed.
fn place_of(event: usize, deed: usize) -> usize {
    event.saturating_mul(DEEDS).saturating_add(deed)
}

impl Coverage {
    /// Nothing came yet.
    pub fn new(alloc: Global) -> Result<Coverage, NoMemory> {
        let pairs = EVENTS.saturating_mul(DEEDS);
        Ok(Coverage {
            totals: Totals {
                items: 0,
                done: 0,
                faulted: 0,
                refused: 0,
                unknown: 0,
                upgraded: 0,
                events: 0,
            },
            came: zeros(alloc, pairs)?,
            behind: zeros(alloc, pairs)?,
            causes: zeros(alloc, DEEDS)?,
            log: Vec::new(alloc),
            next: 0,
            limit: 0,
        })
    }

    /// How often an event of a kind has come to a deed.
    pub fn came(&self, event: usize, deed: usize) -> u64 {
        count_at(&self.came, place_of(event, deed))
    }

    /// How often an event of a kind came where the last step of its client had come to a deed.
    pub fn behind(&self, event: usize, deed: usize) -> u64 {
        count_at(&self.behind, place_of(event, deed))
    }

    /// How often an item was refused for a cause.
    pub fn refused(&self, deed: usize) -> u64 {
        count_at(&self.causes, deed)
    }

    /// What the events of the last run have come to.
    pub fn log(&self) -> &[Told] {
        &self.log
    }

    /// A run of a schedule of so many events begins.
    pub fn begin_run(&mut self, events: usize) {
        self.log.truncate(0);
        self.next = 0;
        self.limit = events;
    }

    /// Puts down what the event that came last has come to.
    pub fn note(&mut self, client: usize, repo: u8, deed: Deed) -> Result<(), NoMemory> {
        let event = self.next.saturating_sub(1);
        if event < self.limit && self.next > 0 {
            self.log.push(Told {
                event,
                client: u8::try_from(client).unwrap_or(0).saturating_add(1),
                repo,
                deed: number_of(deed),
            })?;
        }
        Ok(())
    }

    pub fn take_event(&mut self, event: usize, last: Deed) {
        self.next = self.next.saturating_add(1);
        self.totals.events = self.totals.events.saturating_add(1);
        count(&mut self.behind, place_of(event, number_of(last)));
    }

    pub fn take_deed(&mut self, event: usize, deed: Deed) {
        count(&mut self.came, place_of(event, number_of(deed)));
    }

    /// Counts how items ended.
    pub fn take_ends(&mut self, ends: &[Ended]) {
        for ended in ends {
            self.take_end(&ended.outcome);
        }
    }

    fn take_end(&mut self, outcome: &ItemOutcome) {
        let totals = &mut self.totals;
        totals.items = totals.items.saturating_add(1);
        match outcome {
            ItemOutcome::Done { .. } => totals.done = totals.done.saturating_add(1),
            ItemOutcome::Upgraded { .. } => totals.upgraded = totals.upgraded.saturating_add(1),
            ItemOutcome::Faulted { .. } => totals.faulted = totals.faulted.saturating_add(1),
            ItemOutcome::Refused { cause } => {
                totals.refused = totals.refused.saturating_add(1);
                count(&mut self.causes, number_of(deed_of_cause(*cause)));
            }
            ItemOutcome::Unknown { .. } => totals.unknown = totals.unknown.saturating_add(1),
        }
    }
}
