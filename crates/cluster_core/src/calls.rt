//! The calls of clients on a repository in its seat. One that isn't open is taken as one that is down.

use crate::seat::Seat;
use cluster_port::Opening;
use disk_trait::Parts;
use log_entries::Request;
use repo_refusals::Refusal;
use session_outbox::{Asked, At, Message, Verdict, Welcome};
use thor_value::Ts;

impl<P: Parts, O: Opening> Seat<P, O> {
    /// Begins a session of the client.
    pub fn connect(&mut self, repo: u8, client: u8) -> Result<Welcome, Refusal> {
        match self {
            Seat::Open(site) => site.connect(client),
            _ => Err(Refusal::Down { repo }),
        }
    }

    /// Asks for a page.
    pub fn fetch(&mut self, at: At, page: u32, upto: u64) -> Result<(), Refusal> {
        match self {
            Seat::Open(site) => site.fetch(at.session, page, upto),
            _ => Err(Refusal::Down { repo: at.repo }),
        }
    }

    /// Asks for a page of names.
    pub fn grant(&mut self, at: At) -> Result<(), Refusal> {
        match self {
            Seat::Open(site) => site.grant(at.session),
            _ => Err(Refusal::Down { repo: at.repo }),
        }
    }

    /// Takes the oldest message of a session.
    pub fn receive(&mut self, at: At) -> Result<Option<Message>, Refusal> {
        match self {
            Seat::Open(site) => site.receive(at.session),
            _ => Err(Refusal::Down { repo: at.repo }),
        }
    }

    /// Draws a timestamp above the floor.
    pub fn draw(&mut self, at: At, floor: u64) -> Result<Ts, Refusal> {
        match self {
            Seat::Open(site) => site.draw(at.session, floor),
            _ => Err(Refusal::Down { repo: at.repo }),
        }
    }

    /// Prepares a transaction.
    pub fn prepare(&mut self, at: At, request: Request) -> Result<u64, Refusal> {
        match self {
            Seat::Open(site) => site.prepare(at.session, request),
            _ => {
                drop(request);
                Err(Refusal::Down { repo: at.repo })
            }
        }
    }

    /// Commits a transaction that has this one participant.
    pub fn commit_one(&mut self, at: At, request: Request) -> Result<u64, Refusal> {
        match self {
            Seat::Open(site) => site.commit_one(at.session, request),
            _ => {
                drop(request);
                Err(Refusal::Down { repo: at.repo })
            }
        }
    }

    /// Decides a transaction that it coordinates.
    pub fn decide(&mut self, at: At, tx: Ts, commit: bool) -> Result<Verdict, Refusal> {
        match self {
            Seat::Open(site) => site.decide(at.session, tx, commit),
            _ => Err(Refusal::Down { repo: at.repo }),
        }
    }

    /// Takes a verdict.
    pub fn finish(&mut self, repo: u8, verdict: &Verdict) -> Result<Option<u64>, Refusal> {
        match self {
            Seat::Open(site) => site.finish(verdict),
            _ => Err(Refusal::Down { repo }),
        }
    }

    /// Forgets a decision.
    pub fn forget(&mut self, repo: u8, tx: Ts) -> Result<(), Refusal> {
        match self {
            Seat::Open(site) => site.forget(tx),
            _ => Err(Refusal::Down { repo }),
        }
    }

    /// Tells its verdict.
    pub fn ask(&mut self, repo: u8, tx: Ts) -> Result<Asked, Refusal> {
        match self {
            Seat::Open(site) => site.ask(tx),
            _ => Err(Refusal::Down { repo }),
        }
    }
}
