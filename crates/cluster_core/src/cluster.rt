//! The system on one thread.

ghost use Rattle.cluster_core.specs.Failing.{HaveCounted};
ghost use Rattle.cluster_port.specs.Lent.{AreInPlace};
ghost use Rattle.repo_opening.specs.declared.unopened.Unopened.TheVariants.{Failed};
ghost use Rattle.std.specs.Prelude.{false, vec_capacity, vec_len, ℕ, ◌≡◌, ◌≤◌};

use cluster_port::{Opening, Site};
use disk_trait::Parts;
use front_end::{FrontEnd, Opened};
use repo_opening::Unopened;
use std::alloc::Global;
use store_opening::ClusterFault;

/// Repositories and their clients, which take turns.
#[derive(Drop)]
pub struct Cluster<P: Parts, O: Opening> {
    pub(crate) alloc: Global,
    /// The repositories, in their order.
    pub(crate) sites: Vec<Site<P, O>>,
    /// The clients 1, 2, ..
    pub(crate) clients: Vec<FrontEnd>,
    /// What the clients know of the store.
    pub(crate) opened: Opened,
    /// An empty vector with room for the parts, into which they go at the end.
    pub(crate) spare: Vec<P>,
    ghost empty: { vec_len spare ≡ 0 },
    ghost room: { vec_len sites ≤ vec_capacity spare },
    ghost placed: { AreInPlace sites.items },
}

impl<P: Parts, O: Opening> Cluster<P, O> {
    /// How many items of all clients have ended.
    pub(crate) fn ended_count(&self) -> usize {
        let mut count: usize = 0;
        for client in self.clients.as_slice() {
            count = count.saturating_add(client.outcomes().len());
        }
        count
    }

    /// A store that couldn't be settled, with its parts.
    pub(crate) fn give_back(self, why: Unopened) -> ClusterFault<P>
        ensures count { vec_len result.parts ≡ vec_len self.sites }
        ensures failed { (r : ℕ) → result.why ≡ Failed r → (why ≡ Failed r) × HaveCounted P.disks self.sites.items result.parts.items }
    {
        let Cluster {
            sites,
            clients,
            opened,
            spare,
            ..
        } = self;
        drop(clients);
        drop(opened);
        let (parts, why) = give_back(sites, spare, why);
        ClusterFault { parts, why }
    }
}

/// The parts of all repositories, put into a vector that is empty and has room for them, and why the store wasn't opened.
fn give_back<P: Parts, O: Opening>(
    sites: Vec<Site<P, O>>,
    spare: Vec<P>,
    why: Unopened,
) -> (Vec<P>, Unopened)
    requires empty { vec_len spare ≡ 0 }
    requires room { vec_len sites ≤ vec_capacity spare }
    ensures count { vec_len result.0 ≡ vec_len sites }
    ensures failed { (r : ℕ) → result.1 ≡ Failed r → (why ≡ Failed r) × HaveCounted P.disks sites.items result.0.items }
{
    let mut parts = spare;
    let mut why = why;
    for site in sites {
        let (part, has_fallen) = site.into_parts();
        parts.push_reserved(part);
        why = unless_fallen(why, has_fallen);
    }
    (parts, why)
}

/// Why a store wasn't opened. Where a stop fell it isn't the disks' fault: none is armed while a store is opened.
fn unless_fallen(why: Unopened, has_fallen: bool) -> Unopened
    ensures same { (r : ℕ) → result ≡ Failed r → why ≡ Failed r }
    ensures whole { (r : ℕ) → result ≡ Failed r → has_fallen ≡ false }
{
    if has_fallen {
        return Unopened::NoMemory;
    }
    why
}
