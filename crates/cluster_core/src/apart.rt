//! The repositories and clients of an open store, apart from each other.

ghost use Rattle.cluster_core.specs.Committed.{committed_lines};
ghost use Rattle.cluster_core.specs.Counts.{parts_of, room_of};
ghost use Rattle.cluster_core.specs.Restarting.{IsStartedAgain};
ghost use Rattle.std.specs.Prelude.{IfErr, IfOk, vec_capacity, vec_len, ◌≡◌, ◌≤◌};

use crate::cluster::Cluster;
use crate::emptied::Emptied;
use crate::events::unless_memory;
use crate::finishing::{Finished, close_seats};
use crate::seat::{Seat, seat_all};
use cluster_port::Opening;
use disk_trait::Parts;
use front_end::{FrontEnd, Opened};
use mob_flusher::Flushed;
use repo_refusals::Refusal;
use std::alloc::Global;
use thor_value::NoMemory;

impl<P: Parts, O: Opening> Cluster<P, O> {
    /// Takes out the repositories, in their order, and the clients 1, 2, .. The store as it is, where memory isn't there.
    pub fn emptied(self) -> Result<(Emptied<P>, Vec<Seat<P, O>>, Vec<FrontEnd>), Cluster<P, O>>
        ensures count { IfOk result (λ apart. vec_len apart.1 ≡ parts_of self) }
        ensures room { IfOk result (λ apart. parts_of self ≤ room_of apart.0) }
        ensures err { IfErr result (λ cluster. parts_of cluster ≡ parts_of self) }
    {
        match Vec::with_capacity(self.alloc, self.sites.len()) {
            Ok(room) => Ok(self.emptied_into(room)),
            Err(_) => Err(self),
        }
    }

    /// The same, where there is room for the repositories.
    fn emptied_into(self, room: Vec<Seat<P, O>>) -> (Emptied<P>, Vec<Seat<P, O>>, Vec<FrontEnd>)
        requires empty { vec_len room ≡ 0 }
        requires room { parts_of self ≤ vec_capacity room }
        ensures count { vec_len result.1 ≡ parts_of self }
        ensures room { parts_of self ≤ room_of result.0 }
    {
        let Cluster {
            alloc,
            sites,
            clients,
            opened,
            spare,
            ..
        } = self;
        let emptied = Emptied {
            alloc,
            opened,
            spare,
        };
        (emptied, seat_all(sites, room), clients)
    }
}

impl<P: Parts> Emptied<P> {
    /// What the clients know of the store.
    pub fn opened(&self) -> &Opened {
        &self.opened
    }

    /// Ends the run: repositories and clients come back, as many repositories at most as there were.
    pub fn finish<O: Opening>(self, seats: Vec<Seat<P, O>>, clients: Vec<FrontEnd>) -> Finished<P>
        requires { vec_len seats ≤ room_of self }
        ensures parts { vec_len result.parts ≡ vec_len seats }
        // The lines are what the traces have as committed.
        ensures lines { IfOk result.ran (λ ran. ran.lines ≡ committed_lines ran.traces) }
    {
        let Emptied {
            alloc,
            opened,
            spare,
            ..
        } = self;
        drop(opened);
        close_seats(alloc, seats, clients, spare)
    }
}

impl<P: Parts, O: Opening> Seat<P, O> {
    /// Stops the repository where it is up, and starts it again from what its log stands for. A refusal is no
    /// concern of a schedule, but for want of memory.
    pub fn restart(&mut self, pick: u64) -> Result<(), NoMemory>
        ensures { IsStartedAgain self.old self.new }
    {
        match self {
            Seat::Open(site) => unless_memory(site.restart(pick)),
            Seat::Closed(_) => Ok(()),
        }
    }

    /// Flushes the page of the oldest buffered object.
    pub fn flush(&mut self, repo: u8) -> Result<Flushed, Refusal> {
        match self {
            Seat::Open(site) => site.flush(),
            _ => Err(Refusal::Down { repo }),
        }
    }

    /// How many bytes the buffered objects have.
    pub fn mob_bytes(&self) -> u32 {
        match self {
            Seat::Open(site) => site.repo().mob_bytes(),
            _ => 0,
        }
    }
}
