//! What is seen of repositories and clients while events happen.

use crate::printing::{print_event, print_kept};
use disk_trait::Parts;
use front_end::FrontEnd;
use repo_core::Repo;
use report_text::{print_item, print_number};
use schedule::EventKind;
use serial_model::{Ended, ItemOutcome};
use simulation_setup::Store;
use std::alloc::Global;
use thor_value::NoMemory;

/// What was seen of a repository last.
#[derive(Clone, Copy)]
struct SeenRepository {
    /// How many items its trace had.
    items: usize,
    is_up: bool,
}

/// What was seen of a client last.
#[derive(Clone, Copy)]
struct SeenClient {
    /// How many of its items had ended, and how many of these were Unknown.
    ended: usize,
    unknown: usize,
    /// How many tries of its present item had ended.
    tried: u32,
}

/// What was seen of a store last, and the lines that tell what is new, where that is asked for.
#[derive(Drop)]
pub(crate) struct Watch {
    is_on: bool,
    out: String,
    repositories: Vec<SeenRepository>,
    clients: Vec<SeenClient>,
}

/// How many items are Unknown.
fn count_unknown(ends: &[Ended]) -> usize {
    let mut count = 0usize;
    for ended in ends {
        if let ItemOutcome::Unknown { .. } = &ended.outcome {
            count = count.saturating_add(1);
        }
    }
    count
}

/// Tells how items ended.
fn tell_items(out: &mut String, ends: &[Ended]) -> Result<(), NoMemory> {
    for ended in ends {
        out.push_str("item ")?;
        print_item(out, ended)?;
    }
    Ok(())
}

/// Tells that a client's present item has had so many tries.
fn tell_tries(out: &mut String, place: usize, tried: u32) -> Result<(), NoMemory> {
    out.push_str("tried")?;
    print_number(out, (place as u64).saturating_add(1))?;
    print_number(out, u64::from(tried))?;
    out.push_str("\n")?;
    Ok(())
}

/// Begins the line of a repository.
fn begin_repository(out: &mut String, repo: u8) -> Result<(), NoMemory> {
    out.push_str("repo")?;
    print_number(out, u64::from(repo))
}

/// Tells what is new at a repository.
fn tell_repository<P: Parts>(
    out: &mut String,
    seen: SeenRepository,
    repo: &Repo<P>,
) -> Result<(), NoMemory> {
    for item in repo.marks().iter().skip(seen.items) {
        begin_repository(out, repo.number())?;
        print_kept(out, item, repo.history())?;
        out.push_str("\n")?;
    }
    if seen.is_up != repo.is_up() {
        begin_repository(out, repo.number())?;
        out.push_str(if repo.is_up() { " up\n" } else { " down\n" })?;
    }
    Ok(())
}

/// Tells what is new of a client at a place. How many of its items are Unknown.
fn tell_client(
    out: &mut String,
    seen: SeenClient,
    place: usize,
    client: &FrontEnd,
) -> Result<usize, NoMemory> {
    let (before, new) = client
        .outcomes()
        .split_at(seen.ended.min(client.outcomes().len()));
    if new.is_empty() && client.tried() > seen.tried {
        tell_tries(out, place, client.tried())?;
    }
    let mut unknown = seen.unknown;
    if unknown > 0 {
        unknown = count_unknown(before);
    }
    if unknown < seen.unknown {
        tell_items(out, before)?;
    }
    tell_items(out, new)?;
    Ok(unknown.saturating_add(count_unknown(new)))
}

impl Watch {
    /// Nothing was seen of so many repositories and clients. Where it isn't on, nothing is told.
    pub(crate) fn new(
        alloc: Global,
        is_on: bool,
        repos: usize,
        clients: usize,
    ) -> Result<Watch, NoMemory> {
        let mut repositories = Vec::new(alloc);
        for _ in 0..repos {
            repositories.push(SeenRepository {
                items: 0,
                is_up: true,
            })?;
        }
        let mut seen = Vec::new(alloc);
        for _ in 0..clients {
            seen.push(SeenClient {
                ended: 0,
                unknown: 0,
                tried: 0,
            })?;
        }
        Ok(Watch {
            is_on,
            out: String::new(alloc),
            repositories,
            clients: seen,
        })
    }

    /// Tells what is new after an event.
    pub(crate) fn look_after_event(
        &mut self,
        kind: EventKind,
        store: &Store,
    ) -> Result<(), NoMemory> {
        if !self.is_on {
            return Ok(());
        }
        self.out.push_str("event ")?;
        print_event(&mut self.out, kind)?;
        self.look(store)
    }

    /// Tells what is new after a step of the client at a place that is in no schedule.
    pub(crate) fn look_after_step(&mut self, place: usize, store: &Store) -> Result<(), NoMemory> {
        self.look_after_client("step", place, store)
    }

    /// Tells what is new after the last question of the client at a place.
    pub(crate) fn look_after_last(&mut self, place: usize, store: &Store) -> Result<(), NoMemory> {
        self.look_after_client("last", place, store)
    }

    fn look_after_client(
        &mut self,
        word: &str,
        place: usize,
        store: &Store,
    ) -> Result<(), NoMemory> {
        if !self.is_on {
            return Ok(());
        }
        self.out.push_str(word)?;
        print_number(&mut self.out, (place as u64).saturating_add(1))?;
        self.look(store)
    }

    /// Tells what is new after what a word says.
    pub(crate) fn look_after_word(&mut self, word: &str, store: &Store) -> Result<(), NoMemory> {
        if !self.is_on {
            return Ok(());
        }
        self.out.push_str(word)?;
        self.look(store)
    }

    /// Ends the line of what happened, and tells what is new at repositories and clients.
    fn look(&mut self, store: &Store) -> Result<(), NoMemory> {
        self.out.push_str("\n")?;
        for (place, site) in store.sites().iter().enumerate() {
            self.look_at_repository(place, site.repo())?;
        }
        for (place, client) in store.clients().iter().enumerate() {
            self.look_at_client(place, client)?;
        }
        Ok(())
    }

    fn look_at_repository<P: Parts>(
        &mut self,
        place: usize,
        repo: &Repo<P>,
    ) -> Result<(), NoMemory> {
        let Some(seen) = self.repositories.get_mut(place) else {
            return Ok(());
        };
        tell_repository(&mut self.out, *seen, repo)?;
        seen.items = repo.marks().len();
        seen.is_up = repo.is_up();
        Ok(())
    }

    fn look_at_client(&mut self, place: usize, client: &FrontEnd) -> Result<(), NoMemory> {
        let Some(seen) = self.clients.get_mut(place) else {
            return Ok(());
        };
        seen.unknown = tell_client(&mut self.out, *seen, place, client)?;
        seen.ended = client.outcomes().len();
        seen.tried = client.tried();
        Ok(())
    }

    /// The lines. Where it is on, the word `report` begins one more.
    pub(crate) fn into_bytes(self) -> Result<Vec<u8>, NoMemory> {
        let Watch {
            is_on,
            out,
            repositories,
            clients,
        } = self;
        drop(repositories);
        drop(clients);
        let mut out = out;
        if is_on {
            out.push_str("report ")?;
        }
        Ok(out.into_bytes())
    }
}
