//! Repositories of a run, as they are lent to a client.

ghost use Rattle.cluster_port.specs.Lent.{AreInPlace};
ghost use Rattle.std.specs.Prelude.{vec_len, ℕ, ◌≡◌};

use crate::calls;
use client_port::Port;
use disk_trait::Parts;
use log_entries::Request;
use repo_refusals::Refusal;
use repo_site::{Opening, Site};
use session_outbox::{Asked, At, Message, Verdict, Welcome};
use std::marker::{Brand, Model, PhantomData};
use thor_value::Ts;

/// A number of repositories, which no code holds.
pub trait Count {
    ghost count: { ℕ };
}

impl Count for Brand {
    ghost count = { 0 };
}

/// The repositories of a run, as many as `N` has, lent to one client. Each call is one event of one of them. One that isn't there is
/// taken as one that is down.
#[derive(Drop)]
pub struct LentSites<P: Parts, O: Opening, N: Count> {
    client: u8,
    sites: Vec<Site<P, O>>,
    of: PhantomData<N>,
}

impl<P: Parts, O: Opening, N: Count> Model for LentSites<P, O, N> {
    ghost use Rattle.cluster_port.specs.Lent.{AreLent, Lent};

    ghost Value = { Lent };

    ghost view = { λ l. record { client = l.client; sites = l.sites.items } };

    ghost invariant = { λ l. AreLent N.count l.sites.items };
}

impl<P: Parts, O: Opening, N: Count> LentSites<P, O, N> {
    /// The repositories, each at the place of its number, as they are lent to a client.
    pub fn new(client: u8, sites: Vec<Site<P, O>>) -> LentSites<P, O, N>
        requires placed { AreInPlace sites.items }
        requires count { vec_len sites ≡ N.count }
        ensures client { result.client ≡ client }
        ensures sites { result.sites ≡ sites.items }
    {
        LentSites {
            client,
            sites,
            of: PhantomData,
        }
    }

    /// They come back.
    pub fn into_sites(self) -> Vec<Site<P, O>>
        ensures sites { result.items ≡ self.sites }
        ensures placed { AreInPlace result.items }
        ensures count { vec_len result ≡ N.count }
    {
        let LentSites { sites, .. } = self;
        sites
    }
}

impl<P: Parts, O: Opening, N: Count> Port for LentSites<P, O, N> {
    ghost use Rattle.cluster_port.specs.Lent.{view_of};

    // Where each repository has a base.
    ghost shows = { O.run.based };

    ghost view = { λ p. view_of O.run p.client p.sites };

    fn connect(&mut self, repo: u8, client: u8) -> Result<Welcome, Refusal> {
        calls::connect(&mut self.sites, repo, client)
    }

    fn fetch(&mut self, at: At, page: u32, upto: u64) -> Result<(), Refusal> {
        calls::fetch(&mut self.sites, at, page, upto)
    }

    fn grant(&mut self, at: At) -> Result<(), Refusal> {
        calls::grant(&mut self.sites, at)
    }

    fn receive(&mut self, at: At) -> Result<Option<Message>, Refusal> {
        calls::receive(&mut self.sites, at)
    }

    fn draw(&mut self, at: At, floor: u64) -> Result<Ts, Refusal> {
        calls::draw(&mut self.sites, at, floor)
    }

    fn prepare(&mut self, at: At, request: Request) -> Result<u64, Refusal> {
        calls::prepare(&mut self.sites, at, request)
    }

    fn commit_one(&mut self, at: At, request: Request) -> Result<u64, Refusal> {
        calls::commit_one(&mut self.sites, at, request)
    }

    fn decide(&mut self, at: At, tx: Ts, commit: bool) -> Result<Verdict, Refusal> {
        calls::decide(&mut self.sites, at, tx, commit)
    }

    fn finish(&mut self, repo: u8, verdict: &Verdict) -> Result<Option<u64>, Refusal> {
        calls::finish(&mut self.sites, repo, verdict)
    }

    fn forget(&mut self, repo: u8, tx: Ts) -> Result<(), Refusal> {
        calls::forget(&mut self.sites, repo, tx)
    }

    fn ask(&mut self, repo: u8, tx: Ts) -> Result<Asked, Refusal> {
        calls::ask(&mut self.sites, repo, tx)
    }
}
