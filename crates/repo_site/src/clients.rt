//! The calls of clients on a repository of a run.

ghost use Rattle.client_port.specs.Works.{AskWork, CommitWork, ConnectWork, DecideWork, DrawWork, FetchWork, FinishWork, ForgetWork, GrantWork, PrepareWork, ReceiveWork};
ghost use Rattle.repo_site.specs.Sited.{Happens};
ghost use Rattle.repo_site.specs.Working.{SiteDoes};
ghost use Rattle.std.specs.Prelude.{IsErrOf, OnOk, ℕ, ◌≡◌};
ghost use Rattle.repo_core.specs.Shown.{faults_of};
ghost use Rattle.repo_durable.specs.Failing.{HasFailed};
ghost use Rattle.repo_refusals.specs.declared.refusal.Refusal.TheVariants.{Stopped as IsStopped};

use crate::opening::Opening;
use crate::site::Site;
use crate::{calls, made};
use disk_trait::Parts;
use log_entries::Request;
use repo_refusals::Refusal;
use session_outbox::{Asked, Message, Verdict, Welcome};
use thor_value::Ts;

impl<P: Parts, O: Opening> Site<P, O> {
    /// Begins a session of the client, and ends its older one.
    #[tactic(auto, using(crate::proofs::Sites::still, crate::proofs::Sites::shown_down, crate::proofs::Sites::happened_any, crate::proofs::Sites::stays_any, crate::proofs::Sites::shown_any))]
    pub fn connect(&mut self, client: u8) -> Result<Welcome, Refusal>
        ensures happens { Happens O.run self.old self.new }
        ensures shows { (c : ℕ) → SiteDoes O.run c self.old self.new result (ConnectWork client result) }
    {
        if !self.repo.is_up() {
            return Err(Refusal::Down { repo: self.number });
        }
        calls::connect(&mut self.repo, client)
    }

    /// Puts a page into the session's outbox, and acknowledges what stands below a place.
    #[tactic(auto, using(crate::proofs::Sites::still, crate::proofs::Sites::shown_down, crate::proofs::Sites::happened_any, crate::proofs::Sites::stays_any, crate::proofs::Sites::shown_any))]
    pub fn fetch(&mut self, session: u32, page: u32, upto: u64) -> Result<(), Refusal>
        ensures happens { Happens O.run self.old self.new }
        ensures shows { (c : ℕ) → SiteDoes O.run c self.old self.new result (FetchWork session page upto result) }
    {
        if !self.repo.is_up() {
            return Err(Refusal::Down { repo: self.number });
        }
        calls::fetch(&mut self.repo, session, page, upto)
    }

    /// Grants a page of names.
    #[tactic(auto, using(crate::proofs::Sites::still, crate::proofs::Sites::shown_down, crate::proofs::Sites::happened_any, crate::proofs::Sites::stays_any, crate::proofs::Sites::shown_any))]
    pub fn grant(&mut self, session: u32) -> Result<(), Refusal>
        ensures happens { Happens O.run self.old self.new }
        ensures shows { (c : ℕ) → SiteDoes O.run c self.old self.new result (GrantWork session result) }
    {
        if !self.repo.is_up() {
            return Err(Refusal::Down { repo: self.number });
        }
        made::grant(&mut self.repo, session)
    }

    /// Takes the session's oldest message.
    #[tactic(auto, using(crate::proofs::Sites::still, crate::proofs::Sites::shown_down, crate::proofs::Sites::happened_any, crate::proofs::Sites::stays_any, crate::proofs::Sites::shown_any))]
    pub fn receive(&mut self, session: u32) -> Result<Option<Message>, Refusal>
        ensures happens { Happens O.run self.old self.new }
        ensures shows { (c : ℕ) → SiteDoes O.run c self.old self.new result (ReceiveWork session result) }
    {
        if !self.repo.is_up() {
            return Err(Refusal::Down { repo: self.number });
        }
        made::receive(&mut self.repo, session)
    }

    /// Draws a timestamp above the floor.
    #[tactic(auto, using(crate::proofs::Sites::still, crate::proofs::Sites::shown_down, crate::proofs::Sites::happened_any, crate::proofs::Sites::stays_any, crate::proofs::Sites::shown_any))]
    pub fn draw(&mut self, session: u32, floor: u64) -> Result<Ts, Refusal>
        ensures happens { Happens O.run self.old self.new }
        ensures shows { (c : ℕ) → SiteDoes O.run c self.old self.new result (DrawWork session floor result) }
    {
        if !self.repo.is_up() {
            return Err(Refusal::Down { repo: self.number });
        }
        made::draw(&mut self.repo, session, floor)
    }

    /// Prepares a transaction that has other participants, too.
    #[tactic(auto, using(crate::proofs::Sites::still, crate::proofs::Sites::shown_down, crate::proofs::Sites::happened, crate::proofs::Sites::stays, crate::proofs::Sites::shown))]
    pub fn prepare(&mut self, session: u32, request: Request) -> Result<u64, Refusal>
        ensures happens { Happens O.run self.old self.new }
        ensures shows { (c : ℕ) → SiteDoes O.run c self.old self.new result (PrepareWork session request result) }
    {
        if !self.repo.is_up() {
            drop(request);
            return Err(Refusal::Down { repo: self.number });
        }
        calls::prepare(&mut self.repo, self.repos, session, request)
    }

    /// Commits a transaction that has this one participant.
    #[tactic(auto, using(crate::proofs::Sites::still, crate::proofs::Sites::shown_down, crate::proofs::Sites::happened, crate::proofs::Sites::stays, crate::proofs::Sites::shown))]
    pub fn commit_one(&mut self, session: u32, request: Request) -> Result<u64, Refusal>
        ensures happens { Happens O.run self.old self.new }
        ensures shows { (c : ℕ) → SiteDoes O.run c self.old self.new result (CommitWork session request result) }
    {
        if !self.repo.is_up() {
            drop(request);
            return Err(Refusal::Down { repo: self.number });
        }
        calls::commit_one(&mut self.repo, self.repos, session, request)
    }

    /// Decides a transaction that this repository coordinates.
    #[tactic(auto, using(crate::proofs::Sites::still, crate::proofs::Sites::shown_down, crate::proofs::Sites::happened_any, crate::proofs::Sites::stays_any, crate::proofs::Sites::shown_any))]
    pub fn decide(&mut self, session: u32, tx: Ts, commit: bool) -> Result<Verdict, Refusal>
        ensures happens { Happens O.run self.old self.new }
        ensures shows { (c : ℕ) → SiteDoes O.run c self.old self.new result (DecideWork session tx commit result) }
    {
        if !self.repo.is_up() {
            return Err(Refusal::Down { repo: self.number });
        }
        calls::decide(&mut self.repo, session, tx, commit)
    }

    /// Takes the verdict of another repository.
    #[tactic(auto, using(crate::proofs::Sites::still, crate::proofs::Sites::shown_down, crate::proofs::Sites::happened_any, crate::proofs::Sites::stays_any, crate::proofs::Sites::shown_any))]
    pub fn finish(&mut self, verdict: &Verdict) -> Result<Option<u64>, Refusal>
        ensures happens { Happens O.run self.old self.new }
        ensures shows { (c : ℕ) → SiteDoes O.run c self.old self.new result (FinishWork verdict.now.tx verdict.now.commit result) }
        ensures stopped { (n : ℕ) → IsErrOf result (IsStopped n) → HasFailed (faults_of self.old.shown) (faults_of self.new.shown) }
        ensures steady { OnOk result (self.new.shown.faults ≡ self.old.shown.faults) }
    {
        if !self.repo.is_up() {
            return Err(Refusal::Down { repo: self.number });
        }
        calls::finish(&mut self.repo, verdict)
    }

    /// Forgets a decision that was made here in this run.
    #[tactic(auto, using(crate::proofs::Sites::still, crate::proofs::Sites::shown_down, crate::proofs::Sites::happened_any, crate::proofs::Sites::stays_any, crate::proofs::Sites::shown_any))]
    pub fn forget(&mut self, tx: Ts) -> Result<(), Refusal>
        ensures happens { Happens O.run self.old self.new }
        ensures shows { (c : ℕ) → SiteDoes O.run c self.old self.new result (ForgetWork tx result) }
    {
        if !self.repo.is_up() {
            return Err(Refusal::Down { repo: self.number });
        }
        calls::forget(&mut self.repo, tx)
    }

    /// Tells the verdict on a transaction that this repository coordinates.
    #[tactic(auto, using(crate::proofs::Sites::still, crate::proofs::Sites::shown_down, crate::proofs::Sites::happened_any, crate::proofs::Sites::stays_any, crate::proofs::Sites::shown_any))]
    pub fn ask(&mut self, tx: Ts) -> Result<Asked, Refusal>
        ensures happens { Happens O.run self.old self.new }
        ensures shows { (c : ℕ) → SiteDoes O.run c self.old self.new result (AskWork tx result) }
        ensures never { (n : ℕ) → IsErrOf result (IsStopped n) → ⊥ }
        ensures counts { self.new.shown.faults ≡ self.old.shown.faults }
    {
        if !self.repo.is_up() {
            return Err(Refusal::Down { repo: self.number });
        }
        calls::ask(&mut self.repo, tx)
    }
}
