//! The calls of a running try on one repository, and what they come to.

ghost use Rattle.client_state.specs.Settling.{CameAsSent, DrewAsSent};
ghost use Rattle.client_state.specs.Calling.{Connects, CopiesRefused, Draws, DrawsAbove, Fetches, Grants, links_refused, upto_in};
ghost use Rattle.client_state.specs.Learning.{KeepsBounds, Rises};
ghost use Rattle.client_state.specs.Links.{at_repo, session_in};
ghost use Rattle.client_state.specs.Moving.{CallsIdle, IsApart, SendsNothingIf};
ghost use Rattle.client_state.specs.Pending.{IsWrittenIn};
ghost use Rattle.client_state.specs.Receiving.{IsNotGone};
ghost use Rattle.client_state.specs.Showing.{CameIf, CameShown, DrewIf};
ghost use Rattle.client_state.specs.Writing.{CameStays, DrewStays};
ghost use Rattle.client_state.specs.Written.{WrittenRefused};
ghost use Rattle.client_state.specs.declared.link.Link.TheVariants.{Joined};
ghost use Rattle.client_state.specs.declared.link.Waits.TheVariants.{Idle};
ghost use Rattle.session_outbox.specs.declared.answers.At.{At};
ghost use Rattle.client_port.specs.Acting.{Refuses};
ghost use Rattle.client_port.specs.Views.{View};
ghost use Rattle.std.specs.Prelude.{IfOk, IsTrue, OnErr, Some, not, slice_get, ◌≡◌};

use crate::causes::cause_of;
use crate::held::Held;
use crate::link::{Link, Waits};
use base_reasons::Reason;
use client_items::{Learnt, Opened};
use client_port::Port;
use repo_refusals::Refusal;
use serial_model::Cause;
use session_outbox::{At, Welcome};
use thor_value::{NoMemory, Ts};

/// What a call of a try has come to.
#[derive(Drop)]
pub enum Came {
    /// It was answered: the try goes on.
    Well,
    /// The evaluation begins anew in the same try.
    Anew,
    /// The try ends.
    Refused(Cause),
    /// The verdict on an Unknown item was learnt. Where an own upgrade was, the evaluation begins anew.
    Learnt(Learnt),
}

/// What drawing has come to.
#[derive(Drop)]
pub enum Drew {
    /// This timestamp was drawn.
    Ts(Ts),
    /// None was.
    Refused(Came),
}

impl Held {
    /// Begins a session at a repository. Where that has installed more upgrades, the evaluation begins
    /// anew.
    pub fn connect<Q: Port>(
        &mut self,
        port: &mut Q,
        opened: &Opened,
        repo: u8,
    ) -> Result<Came, NoMemory>
        ensures call { Connects Q.shows (Q.view port.old) (Q.view port.new) repo self.old.client self.old.links.items self.new.links.items }
        ensures copies { self.new.cache ≡ self.old.cache }
        ensures moves { IsApart repo self.old → SendsNothingIf Q.shows (Q.view port.old) (Q.view port.new) self.old self.new }
        ensures shown { CameIf Q.shows (Q.view port.old) (Q.view port.new) result }
        ensures as_sent { IfOk result (CameAsSent self.old.links.items) }
        ensures rises { Rises self.old self.new }
    {
        match port.connect(repo, self.client) {
            Ok(welcome) => Ok(self.welcome(opened, repo, welcome)),
            Err(refusal) => Ok(Came::Refused(cause_of(refusal, repo)?)),
        }
    }

    fn welcome(&mut self, opened: &Opened, repo: u8, welcome: Welcome) -> Came
        ensures links { self.new.links.items ≡ at_repo self.old.links.items repo (λ l. Joined welcome.session welcome.place Idle) }
        ensures copies { self.new.cache ≡ self.old.cache }
        ensures client { self.new.client ≡ self.old.client }
        ensures shown { (old new : View) → CameShown old new result }
        ensures as_sent { CameAsSent self.old.links.items result }
        ensures rises { Rises self.old self.new }
    {
        let Welcome {
            session,
            epoch,
            threshold,
            place,
            ..
        } = welcome;
        self.set_link(
            repo,
            Link::Joined {
                session,
                upto: place,
                waits: Waits::Idle,
            },
        );
        self.raise_floor(threshold);
        if self.learn_epoch(opened, epoch) {
            return Came::Anew;
        }
        Came::Well
    }

    /// Asks for a page.
    pub fn fetch<Q: Port>(&mut self, port: &mut Q, at: At, page: u32) -> Result<Came, NoMemory>
        ensures call { Fetches Q.shows (Q.view port.old) (Q.view port.new) at page (upto_in (slice_get self.old.links.items at.repo)) self.old.links.items self.new.links.items self.old.cache.cache self.new.cache.cache }
        ensures moves { CallsIdle at self.old → SendsNothingIf Q.shows (Q.view port.old) (Q.view port.new) self.old self.new }
        ensures shown { CameIf Q.shows (Q.view port.old) (Q.view port.new) result }
        ensures bounds { KeepsBounds self.old self.new }
        ensures as_sent { IfOk result (CameAsSent self.old.links.items) }
    {
        match port.fetch(at, page, self.upto(at.repo)) {
            Ok(()) => {
                self.wait(at.repo, Waits::Reply);
                Ok(Came::Well)
            }
            Err(refusal) => self.refused(at.repo, refusal),
        }
    }

    /// Asks for a page of names.
    pub fn ask_for_names<Q: Port>(&mut self, port: &mut Q, at: At) -> Result<Came, NoMemory>
        ensures call { Grants Q.shows (Q.view port.old) (Q.view port.new) at self.old.links.items self.new.links.items self.old.cache.cache self.new.cache.cache }
        ensures moves { CallsIdle at self.old → SendsNothingIf Q.shows (Q.view port.old) (Q.view port.new) self.old self.new }
        ensures shown { CameIf Q.shows (Q.view port.old) (Q.view port.new) result }
        ensures bounds { KeepsBounds self.old self.new }
        ensures as_sent { IfOk result (CameAsSent self.old.links.items) }
    {
        match port.grant(at) {
            Ok(()) => {
                self.wait(at.repo, Waits::Reply);
                Ok(Came::Well)
            }
            Err(refusal) => self.refused(at.repo, refusal),
        }
    }

    /// Draws a timestamp.
    pub fn draw<Q: Port>(&mut self, port: &mut Q, at: At) -> Result<Drew, NoMemory>
        ensures call { Draws Q.shows (Q.view port.old) (Q.view port.new) at result self.old.links.items self.new.links.items self.old.cache.cache self.new.cache.cache }
        ensures moves { session_in at.repo (slice_get self.old.links.items at.repo) ≡ Some at → SendsNothingIf Q.shows (Q.view port.old) (Q.view port.new) self.old self.new }
        ensures above { DrawsAbove Q.shows (Q.view port.old) (Q.view port.new) at self.old.floor self.old.links.items result }
        ensures shown { DrewIf Q.shows (Q.view port.old) (Q.view port.new) result }
        ensures stays { IfOk result (λ drew. DrewStays drew self.old.cache.cache self.new.cache.cache) }
        ensures err { OnErr result (self.new ≡ self.old) }
        ensures bounds { KeepsBounds self.old self.new }
        ensures as_sent { IfOk result (DrewAsSent self.old.links.items) }
    {
        match port.draw(at, self.floor()) {
            Ok(ts) => Ok(Drew::Ts(ts)),
            Err(refusal) => Ok(Drew::Refused(self.refused(at.repo, refusal)?)),
        }
    }

    /// A call was refused that sends nothing of the try: where the session is gone, the evaluation begins
    /// anew.
    fn refused(&mut self, repo: u8, refusal: Refusal) -> Result<Came, NoMemory>
        ensures links { self.new.links.items ≡ links_refused refusal repo self.old.links.items }
        ensures copies { CopiesRefused refusal repo self.old.links.items self.old.cache.cache self.new.cache.cache }
        ensures client { self.new.client ≡ self.old.client }
        ensures shown { IfOk result (λ came. (old new : View) → Refuses old new repo refusal → CameShown old new came) }
        ensures stays { IfOk result (λ came. CameStays came self.old.cache.cache self.new.cache.cache) }
        ensures err { OnErr result (self.new ≡ self.old) }
        ensures bounds { KeepsBounds self.old self.new }
        ensures as_sent { IfOk result (CameAsSent self.old.links.items) }
    {
        if self.lose_gone(repo, refusal) {
            return Ok(Came::Anew);
        }
        Ok(Came::Refused(cause_of(refusal, repo)?))
    }

    /// A call was refused: a session that is gone is lost. It answers whether it is.
    pub fn lose_gone(&mut self, repo: u8, refusal: Refusal) -> bool
        ensures links { self.new.links.items ≡ links_refused refusal repo self.old.links.items }
        ensures copies { CopiesRefused refusal repo self.old.links.items self.old.cache.cache self.new.cache.cache }
        ensures written { (at : At) → IsWrittenIn at self.old → IsWrittenIn at self.new }
        ensures wrote { WrittenRefused refusal repo self.old.links.items self.old.cache.cache self.new.cache.cache }
        ensures client { self.new.client ≡ self.old.client }
        ensures rest { IsTrue (not result) → self.new ≡ self.old }
        ensures gone { IsTrue (not result) → IsNotGone refusal }
        ensures bounds { KeepsBounds self.old self.new }
    {
        match refusal {
            Refusal::Reason(Reason::Gone { session }) => {
                self.lose(repo, session);
                true
            }
            Refusal::Reason(
                Reason::Epoch { .. }
                | Reason::Blocked { .. }
                | Reason::TooOld { .. }
                | Reason::Stale { .. }
                | Reason::Earlier { .. }
                | Reason::Later { .. }
                | Reason::Full { .. }
                | Reason::ClockEnd,
            )
            | Refusal::Down { .. }
            | Refusal::Stopped { .. }
            | Refusal::Damaged { .. }
            | Refusal::NoMemory => false,
        }
    }
}
