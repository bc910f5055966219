//! The calls of one client, each of which takes the lock of one repository.

use crate::locks::{Decisions, Locks};
use crate::prompts::Prompt;
use client_port::Port;
use cluster_core::Seat;
use crossbeam_channel::Sender;
use disk_trait::Parts;
use log_entries::Request;
use outside::Gate;
use repo_refusals::Refusal;
use session_outbox::{Asked, At, Message, Verdict, Welcome};
use std::marker::Brand;
use std::sync::{MutexGuard, Wait};
use std::thread;
use thor_value::Ts;

/// How often a client waits in vain at most for another one's decision: for a second each time. Behind that it goes on
/// at once, so that a transaction that nobody decides any more doesn't hold the run up for each try of each item.
pub(crate) const MOST_WAITS: u8 = 10;

/// The repositories behind their locks, as one client calls them. Each call is one event of one repository. The
/// gate is passed before a call and behind it, with no lock held.
#[derive(Drop)]
pub(crate) struct LockedPort<'a, R: Wait, P: Parts, G: Gate> {
    pub(crate) locks: &'a Locks<'a, R, P, G>,
    /// The number of the client.
    pub(crate) client: u8,
    /// Where to prompt the repositories to be flushed, in their order; empty where nobody flushes.
    pub(crate) prompts: Vec<Sender<Prompt>>,
    /// How often it may still wait for another client's decision in vain.
    pub(crate) waits: u8,
}

impl<'a, R: Wait, P: Parts, G: Gate> LockedPort<'a, R, P, G> {
    /// Takes the lock of a repository for a call.
    fn begin(&self, repo: u8) -> Result<MutexGuard<'a, Seat<P, Brand>>, Refusal> {
        self.locks.gate.pass(2 * u32::from(self.client));
        match self.locks.enter(repo) {
            Some(seat) => Ok(seat),
            None => {
                self.locks.gate.pass(2 * u32::from(self.client) + 1);
                Err(Refusal::Down { repo })
            }
        }
    }

    /// Gives the lock back behind a call. Where the buffer is over half full then, it is prompted to be flushed. A
    /// prompt that can't be sent is left out.
    fn end(&self, repo: u8, seat: MutexGuard<'a, Seat<P, Brand>>) {
        let is_full = self.locks.half < seat.mob_bytes();
        drop(seat);
        if is_full {
            self.prompt(repo);
        }
        self.locks.gate.pass(2 * u32::from(self.client) + 1);
    }

    /// Lets other threads go first where a request was refused: one of theirs may be what it was refused for.
    fn give_way(&self, answer: &Result<u64, Refusal>) {
        if answer.is_err() {
            thread::yield_now();
        }
    }

    /// Waits until the repository has decided more, which is what another client does that stands between its first
    /// `prepare` and its `decide`, and mostly waits for a disk there. A client that tried again at once would use up its
    /// tries meanwhile. It holds no lock here, and has aborted its own transaction, so nobody waits in a circle: one
    /// that meets what it has prepared asks for it, and is told the abort.
    fn await_decision(&mut self, repo: u8, before: Decisions) {
        if self.waits > 0 && !self.locks.await_decision(repo, before) {
            self.waits = self.waits.saturating_sub(1);
        }
    }

    fn prompt(&self, repo: u8) {
        if let Some(prompts) = self.prompts.get(usize::from(repo)) {
            let _ = prompts.send(self.locks.rt, Prompt);
        }
    }
}

impl<'a, R: Wait, P: Parts, G: Gate> Port for LockedPort<'a, R, P, G> {
    ghost use Rattle.client_port.specs.Views.{nothing_shown};
    ghost use Rattle.std.specs.Prelude.{false};

    // It shows nothing yet.
    ghost shows = { false };

    ghost view = { λ port. nothing_shown };

    fn connect(&mut self, repo: u8, client: u8) -> Result<Welcome, Refusal> {
        let mut seat = self.begin(repo)?;
        let answer = seat.connect(repo, client);
        self.end(repo, seat);
        answer
    }

    fn fetch(&mut self, at: At, page: u32, upto: u64) -> Result<(), Refusal> {
        let mut seat = self.begin(at.repo)?;
        let answer = seat.fetch(at, page, upto);
        self.end(at.repo, seat);
        answer
    }

    fn grant(&mut self, at: At) -> Result<(), Refusal> {
        let mut seat = self.begin(at.repo)?;
        let answer = seat.grant(at);
        self.end(at.repo, seat);
        answer
    }

    fn receive(&mut self, at: At) -> Result<Option<Message>, Refusal> {
        let mut seat = self.begin(at.repo)?;
        let answer = seat.receive(at);
        self.end(at.repo, seat);
        answer
    }

    fn draw(&mut self, at: At, floor: u64) -> Result<Ts, Refusal> {
        let mut seat = self.begin(at.repo)?;
        let answer = seat.draw(at, floor);
        self.end(at.repo, seat);
        answer
    }

    fn prepare(&mut self, at: At, request: Request) -> Result<u64, Refusal> {
        let mut seat = self.begin(at.repo)?;
        let answer = seat.prepare(at, request);
        self.end(at.repo, seat);
        self.give_way(&answer);
        answer
    }

    fn commit_one(&mut self, at: At, request: Request) -> Result<u64, Refusal> {
        let mut seat = self.begin(at.repo)?;
        let answer = seat.commit_one(at, request);
        self.end(at.repo, seat);
        self.give_way(&answer);
        answer
    }

    fn decide(&mut self, at: At, tx: Ts, commit: bool) -> Result<Verdict, Refusal> {
        let mut seat = self.begin(at.repo)?;
        let answer = seat.decide(at, tx, commit);
        self.locks.tell_decided(at.repo);
        self.end(at.repo, seat);
        answer
    }

    fn finish(&mut self, repo: u8, verdict: &Verdict) -> Result<Option<u64>, Refusal> {
        let mut seat = self.begin(repo)?;
        let answer = seat.finish(repo, verdict);
        self.end(repo, seat);
        answer
    }

    fn forget(&mut self, repo: u8, tx: Ts) -> Result<(), Refusal> {
        let mut seat = self.begin(repo)?;
        let answer = seat.forget(repo, tx);
        self.end(repo, seat);
        answer
    }

    fn ask(&mut self, repo: u8, tx: Ts) -> Result<Asked, Refusal> {
        let mut seat = self.begin(repo)?;
        let answer = seat.ask(repo, tx);
        let before = self.locks.decisions(repo);
        self.end(repo, seat);
        if let Ok(Asked::Undecided) = answer {
            self.await_decision(repo, before);
        }
        answer
    }
}
