//! The events of a schedule.

ghost use Rattle.cluster_core.specs.Counts.{clients_of, parts_of, sites_in};
ghost use Rattle.cluster_core.specs.Happening.{Comes, Performs, Steps, StepsAt};
ghost use Rattle.cluster_port.specs.Lent.{AreInPlace};
ghost use Rattle.repo_refusals.specs.declared.refusal.Refusal.TheVariants.{NoMemory as IsNoMemory};
ghost use Rattle.std.specs.Prelude.{IsErr, IsErrOf, OnOk, suc, vec_len, ℕ, ◌≡◌};

use crate::cluster::Cluster;
use crate::settling::{least, settle};
use crate::turning::Turn;
use cluster_port::{Opening, Site, events};
use disk_trait::Parts;
use repo_refusals::Refusal;
use schedule::{Event, EventKind};
use thor_value::NoMemory;

/// A refusal of an event is no concern of the schedule, but for want of memory.
pub(crate) fn unless_memory<T: Drop>(answer: Result<T, Refusal>) -> Result<(), NoMemory>
    ensures { IsErrOf answer IsNoMemory → IsErr result }
{
    match answer {
        Err(Refusal::NoMemory) => Err(NoMemory),
        Ok(_) | Err(_) => Ok(()),
    }
}

impl<P: Parts, O: Opening> Cluster<P, O> {
    /// Performs one event. One that names a client or a repository which isn't there does nothing.
    ///
    /// After `NoMemory` each repository stands as after its events, the last of which may have had none.
    #[tactic(auto, using(crate::proofs::Coming::unless))]
    pub fn event(&mut self, event: Event) -> Result<(), NoMemory>
        ensures parts { parts_of self.new ≡ parts_of self.old }
        ensures performs { Performs event.kind (sites_in self.old) (sites_in self.new) }
        ensures comes { Comes event.kind result (sites_in self.old) (sites_in self.new) }
        ensures steps { Steps event.kind result (clients_of self.old) (clients_of self.new) }
    {
        match event.kind {
            EventKind::Step { client } => self.client_step(client),
            EventKind::Deliver { client, repo } => self.deliver(client, repo),
            EventKind::Flush { repo } => {
                unless_memory(events::flush(&mut self.sites, repo as usize))
            }
            EventKind::Checkpoint { repo } => {
                unless_memory(events::checkpoint(&mut self.sites, repo as usize))
            }
            EventKind::Stop { repo, calls } => {
                events::stop(&mut self.sites, repo as usize, calls);
                Ok(())
            }
            EventKind::Restart { repo, pick } => {
                let pick = u64::from(pick);
                unless_memory(events::restart(&mut self.sites, repo as usize, pick))
            }
            EventKind::Settle { repo } => settle_next(&mut self.sites, repo),
            EventKind::Unknown => Ok(()),
        }
    }

    /// A step of a client, which are counted from 1.
    fn client_step(&mut self, client: u32) -> Result<(), NoMemory>
        ensures parts { parts_of self.new ≡ parts_of self.old }
        ensures steps { OnOk result ((n : ℕ) → client ≡ suc n → StepsAt n (clients_of self.old) (clients_of self.new)) }
    {
        match (client as usize).checked_sub(1) {
            Some(place) => self.step_at(place),
            None => Ok(()),
        }
    }

    /// A step of the client at a place.
    fn step_at(&mut self, place: usize) -> Result<(), NoMemory>
        ensures parts { parts_of self.new ≡ parts_of self.old }
        ensures steps { OnOk result (StepsAt place (clients_of self.old) (clients_of self.new)) }
    {
        match self.turn(place, Turn::Step) {
            Ok(_) => Ok(()),
            Err(NoMemory) => Err(NoMemory),
        }
    }

    /// A client, which are counted from 1, takes a message of a repository.
    fn deliver(&mut self, client: u32, repo: u32) -> Result<(), NoMemory>
        ensures { parts_of self.new ≡ parts_of self.old }
    {
        let Ok(repo) = u8::try_from(repo) else {
            return Ok(());
        };
        if let Some(place) = (client as usize).checked_sub(1) {
            self.turn(place, Turn::Deliver { repo })?;
        }
        Ok(())
    }
}

/// Settles the prepared transaction of another coordinator with the least timestamp.
fn settle_next<P: Parts, O: Opening>(sites: &mut Vec<Site<P, O>>, repo: u32) -> Result<(), NoMemory>
    requires { AreInPlace sites.old.items }
    ensures placed { AreInPlace sites.new.items }
    ensures count { vec_len sites.new ≡ vec_len sites.old }
{
    let Ok(repo) = u8::try_from(repo) else {
        return Ok(());
    };
    match least(sites.as_slice(), repo) {
        Some(tx) => unless_memory(settle(sites, repo, tx)),
        None => Ok(()),
    }
}
