use crate::calls;
use crate::reading::Reads;
use crate::site::Site;
use client_port::Port;
use log_entries::Request;
use repo_refusals::Refusal;
use session_outbox::{Asked, At, Message, Verdict, Welcome};
use thor_value::Ts;

/// Plain repositories, as one client calls them while nobody else acts.
#[derive(Drop)]
pub struct PlainPort<R: Reads> {
    /// What reads their answers.
    pub reader: R,
    /// The client.
    pub client: u8,
    /// The repositories, in their order.
    pub sites: Vec<Site>,
}

impl<R: Reads> Port for PlainPort<R> {
    ghost use Rattle.model_repository.specs.Sites.{view_of};
    ghost use Rattle.std.specs.Prelude.{true};

    ghost shows = { true };

    ghost view = { λ p. view_of (R.bases p.reader) p.client p.sites.items };

    fn connect(&mut self, repo: u8, client: u8) -> Result<Welcome, Refusal> {
        match self.sites.get_mut(usize::from(repo)) {
            Some(site) => calls::connect(site, &self.reader, self.client, repo, client),
            None => Err(Refusal::Down { repo: repo }),
        }
    }

    fn fetch(&mut self, at: At, page: u32, upto: u64) -> Result<(), Refusal> {
        match self.sites.get_mut(usize::from(at.repo)) {
            Some(site) => calls::fetch(site, &self.reader, self.client, at, page, upto),
            None => Err(Refusal::Down { repo: at.repo }),
        }
    }

    fn grant(&mut self, at: At) -> Result<(), Refusal> {
        match self.sites.get_mut(usize::from(at.repo)) {
            Some(site) => calls::grant(site, &self.reader, self.client, at),
            None => Err(Refusal::Down { repo: at.repo }),
        }
    }

    fn receive(&mut self, at: At) -> Result<Option<Message>, Refusal> {
        match self.sites.get_mut(usize::from(at.repo)) {
            Some(site) => calls::receive(site, &self.reader, self.client, at),
            None => Err(Refusal::Down { repo: at.repo }),
        }
    }

    fn draw(&mut self, at: At, floor: u64) -> Result<Ts, Refusal> {
        match self.sites.get_mut(usize::from(at.repo)) {
            Some(site) => calls::draw(site, &self.reader, self.client, at, floor),
            None => Err(Refusal::Down { repo: at.repo }),
        }
    }

    fn prepare(&mut self, at: At, request: Request) -> Result<u64, Refusal> {
        match self.sites.get_mut(usize::from(at.repo)) {
            Some(site) => calls::prepare(site, &self.reader, self.client, at, request),
            None => Err(Refusal::Down { repo: at.repo }),
        }
    }

    fn commit_one(&mut self, at: At, request: Request) -> Result<u64, Refusal> {
        match self.sites.get_mut(usize::from(at.repo)) {
            Some(site) => calls::commit_one(site, &self.reader, self.client, at, request),
            None => Err(Refusal::Down { repo: at.repo }),
        }
    }

    fn decide(&mut self, at: At, tx: Ts, commit: bool) -> Result<Verdict, Refusal> {
        match self.sites.get_mut(usize::from(at.repo)) {
            Some(site) => calls::decide(site, &self.reader, self.client, at, tx, commit),
            None => Err(Refusal::Down { repo: at.repo }),
        }
    }

    fn finish(&mut self, repo: u8, verdict: &Verdict) -> Result<Option<u64>, Refusal> {
        match self.sites.get_mut(usize::from(repo)) {
            Some(site) => calls::finish(site, &self.reader, self.client, repo, verdict),
            None => Err(Refusal::Down { repo: repo }),
        }
    }

    fn forget(&mut self, repo: u8, tx: Ts) -> Result<(), Refusal> {
        match self.sites.get_mut(usize::from(repo)) {
            Some(site) => calls::forget(site, &self.reader, self.client, repo, tx),
            None => Err(Refusal::Down { repo: repo }),
        }
    }

    fn ask(&mut self, repo: u8, tx: Ts) -> Result<Asked, Refusal> {
        match self.sites.get_mut(usize::from(repo)) {
            Some(site) => calls::ask(site, &self.reader, self.client, repo, tx),
            None => Err(Refusal::Down { repo: repo }),
        }
    }
}
