//! What is seen of repositories and clients while events happen.

use disk_trait::Parts;
use repo_core::Repo;
use repo_site::{Opening, Site};
use schedule::EventKind;
use simulation_events::{Coverage, Deed, deed_of_item, event_number};
use std::alloc::Global;
use thor_value::NoMemory;

/// What was seen of a repository last.
#[derive(Clone, Copy)]
struct Seen {
    marks: usize,
    is_up: bool,
}

/// What was seen last of the repositories, and what each client's last step has come to.
#[derive(Drop)]
pub(crate) struct Watch {
    seen: Vec<Seen>,
    lasts: Vec<Deed>,
    /// The client that took a step last.
    client: usize,
}

/// The client of an event, counted from 0, where it has one.
fn client_of(kind: EventKind) -> Option<usize> {
    match kind {
        EventKind::Step { client } | EventKind::Deliver { client, .. } => {
            (client as usize).checked_sub(1)
        }
        _ => None,
    }
}

fn is_step(kind: EventKind) -> bool {
    match kind {
        EventKind::Step { .. } => true,
        _ => false,
    }
}

impl Watch {
    /// Nothing was seen of so many repositories and clients.
    pub(crate) fn new(alloc: Global, repos: usize, clients: usize) -> Result<Watch, NoMemory> {
        let mut seen = Vec::new(alloc);
        for _ in 0..repos {
            seen.push(Seen {
                marks: 0,
                is_up: true,
            })?;
        }
        let mut lasts = Vec::new(alloc);
        for _ in 0..clients {
            lasts.push(Deed::Nothing)?;
        }
        Ok(Watch {
            seen,
            lasts,
            client: 0,
        })
    }

    /// Counts an event that comes next.
    pub(crate) fn before(&mut self, kind: EventKind, coverage: &mut Coverage) {
        if let Some(client) = client_of(kind) {
            self.client = client;
        }
        let last = match self.lasts.get(self.client) {
            Some(last) => *last,
            None => Deed::Nothing,
        };
        coverage.take_event(event_number(kind), last);
    }

    /// Counts what an event has come to.
    pub(crate) fn behind<P: Parts, O: Opening>(
        &mut self,
        kind: EventKind,
        sites: &[Site<P, O>],
        coverage: &mut Coverage,
    ) -> Result<(), NoMemory> {
        let mut last = Deed::Nothing;
        for (place, site) in sites.iter().enumerate() {
            last = self.look(place, site.repo(), kind, last, coverage)?;
        }
        if let Deed::Nothing = last {
            coverage.take_deed(event_number(kind), last);
        }
        if is_step(kind) {
            if let Some(found) = self.lasts.get_mut(self.client) {
                *found = last;
            }
        }
        Ok(())
    }

    /// Looks at the repositories as they begin, and counts nothing.
    pub(crate) fn begin<P: Parts, O: Opening>(&mut self, sites: &[Site<P, O>]) {
        for (seen, site) in self.seen.iter_mut().zip(sites.iter()) {
            seen.marks = site.repo().marks().len();
            seen.is_up = site.repo().is_up();
        }
    }

    /// Counts what is new at a repository. The last of it, or what there was before.
    fn look<P: Parts>(
        &mut self,
        place: usize,
        repo: &Repo<P>,
        kind: EventKind,
        before: Deed,
        coverage: &mut Coverage,
    ) -> Result<Deed, NoMemory> {
        let Some(seen) = self.seen.get_mut(place) else {
            return Ok(before);
        };
        let marks = repo.marks();
        let mut last = before;
        for item in marks.iter().skip(seen.marks) {
            last = deed_of_item(item, repo.history());
            coverage.take_deed(event_number(kind), last);
            coverage.note(self.client, repo.number(), last)?;
        }
        if seen.is_up && !repo.is_up() {
            last = Deed::Stopped;
            coverage.take_deed(event_number(kind), last);
        }
        seen.marks = marks.len();
        seen.is_up = repo.is_up();
        Ok(last)
    }
}
