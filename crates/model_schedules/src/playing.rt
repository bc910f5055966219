//! A schedule: who does what, step by step.

use crate::draws::Draws;
use crate::world::{REPOS, World};
use front_end::Step;
use model_repository::Left;
use thor_value::NoMemory;

/// How many rounds all clients have to come to their ends.
const ROUNDS: u32 = 400;

/// What happened, as the program tells it at its end.
#[derive(Clone, Copy)]
pub(crate) struct Counts {
    pub schedules: u64,
    pub committed: u64,
    pub refused: u64,
    pub unknown: u64,
    pub stopped: u64,
    pub restarted: u64,
    pub copies: u64,
    pub wrong: u64,
}

impl World {
    /// A client takes a step, where it is there. It answers whether its items had ended.
    pub(crate) fn step(&mut self, client: u8) -> Result<bool, NoMemory> {
        match self.clients.get_mut(usize::from(client)) {
            Some(front) => {
                self.port.client = client.wrapping_add(1);
                Ok(front.step(&mut self.port, &self.opened)? == Step::Ended)
            }
            None => Ok(true),
        }
    }

    /// A client takes a message of a repository.
    pub(crate) fn deliver(&mut self, client: u8, repo: u8) -> Result<(), NoMemory> {
        match self.clients.get_mut(usize::from(client)) {
            Some(front) => {
                self.port.client = client.wrapping_add(1);
                front.deliver(&mut self.port, &self.opened, repo)
            }
            None => Ok(()),
        }
    }

    /// A repository stops in the next call that writes an entry, or doesn't.
    fn set_stops(&mut self, repo: u8, stops: bool) {
        if let Some(site) = self.port.sites.get_mut(usize::from(repo)) {
            site.stops = stops;
        }
    }

    fn is_down(&self, repo: u8) -> bool {
        match self.port.sites.get(usize::from(repo)) {
            Some(site) => site.is_down(),
            None => false,
        }
    }

    /// Restarts a repository that is down, with the entry that may still come or without it. It answers whether it was
    /// down.
    fn restart(&mut self, repo: u8, takes: bool) -> Result<bool, NoMemory> {
        if !self.is_down(repo) {
            return Ok(false);
        }
        self.set_stops(repo, false);
        if let Some(site) = self.port.sites.get_mut(usize::from(repo)) {
            site.restart(&self.port.reader, repo, takes)?;
        }
        Ok(true)
    }

    /// Something happens.
    pub(crate) fn happen(
        &mut self,
        draws: &mut Draws,
        counts: &mut Counts,
    ) -> Result<(), NoMemory> {
        let client = draws.below(2) as u8;
        let repo = draws.below(2) as u8;
        let takes = draws.below(2) == 0;
        match draws.below(20) {
            0 => self.set_stops(repo, true),
            1 | 2 | 3 => {
                if self.restart(repo, takes)? {
                    counts.restarted = counts.restarted.wrapping_add(1);
                }
            }
            4 | 5 | 6 | 7 | 8 => self.deliver(client, repo)?,
            _ => {
                self.step(client)?;
            }
        }
        Ok(())
    }

    /// Whether an entry was being written as a repository stopped.
    pub(crate) fn is_pending(&self, repo: u8) -> bool {
        match self.port.sites.get(usize::from(repo)) {
            Some(site) => match &site.left {
                Left::Pending { .. } => true,
                Left::Up | Left::Down => false,
            },
            None => false,
        }
    }

    /// Each repository comes back, and stops no more.
    pub(crate) fn mend(&mut self) -> Result<(), NoMemory> {
        for repo in 0..REPOS {
            self.set_stops(repo, false);
            self.restart(repo, true)?;
        }
        Ok(())
    }

    /// A client takes steps and messages until its items have ended. It answers whether they have.
    pub(crate) fn finish(&mut self, client: u8) -> Result<bool, NoMemory> {
        for _ in 0..ROUNDS {
            if self.step(client)? {
                return Ok(true);
            }
            for repo in 0..REPOS {
                self.deliver(client, repo)?;
            }
        }
        Ok(false)
    }

    /// All clients take steps and messages until their items have ended. It answers whether they have.
    pub(crate) fn finish_all(&mut self, clients: u8) -> Result<bool, NoMemory> {
        let mut ended = true;
        for client in 0..clients {
            ended = self.finish(client)? && ended;
        }
        Ok(ended)
    }

    /// Counts the entries that were being written as their repositories stopped.
    pub(crate) fn count_pending(&self, counts: &mut Counts) {
        for repo in 0..REPOS {
            if self.is_pending(repo) {
                counts.stopped = counts.stopped.wrapping_add(1);
            }
        }
    }
}
