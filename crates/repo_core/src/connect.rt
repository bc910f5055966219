//! A client connects.

ghost use Rattle.std.specs.Prelude.{◌≡◌, ◌+◌, IfOk, OnErr, length, IfErr, None, ◌<◌, ◌^◌};
ghost use Rattle.repo_sessions.specs.Sessions.{begun};
ghost use Rattle.repo_core.specs.Behind.{Stands, epoch_of};
ghost use Rattle.spec_trace.specs.declared.mark.Mark.TheVariants.{Connected as Connects};
ghost use Rattle.repo_trace.specs.Recorded.{with_mark};
ghost use Rattle.repo_core.specs.Refusing.{CanRefuse, HasNoReason, Leaves};
ghost use Rattle.repo_volatile.specs.Volatile.{Outlasts};
ghost use Rattle.repo_core.specs.Shown.{ShowsPages};

use crate::repo::Repo;
use disk_trait::Parts;
use repo_refusals::Refusal;
use session_outbox::Welcome;
use spec_trace::Mark;
use thor_value::{NoMemory, Texts, TryCopy};

impl<P: Parts> Repo<P> {
    /// Begins a session of the client, and ends its older one.
    #[tactic(auto, using(crate::proofs::Readable::shown_has, crate::proofs::Refused::leaves_given_back, crate::proofs::Refused::leaves_down, crate::proofs::Refused::falls_with, crate::proofs::Refused::moved_none, repo_volatile::proofs::Lasting::stayed, crate::proofs::Causes::why_down, crate::proofs::Causes::why_memory))]
    pub fn connect(&mut self, client: u8) -> Result<Welcome, Refusal>
        ensures stands { Stands self.old.is_up result self.new.is_up }
        ensures readable { ShowsPages self.old → ShowsPages self.new }
        ensures held { self.new.held ≡ self.old.held }
        ensures trace { IfOk result (λ w. self.new.trace ≡ with_mark self.old.trace (Connects w.session client)) }
        ensures refused { OnErr result (self.new.trace ≡ self.old.trace) }
        ensures left { IfErr result (Leaves self.old self.new None) }
        ensures why { IfErr result (CanRefuse self.old HasNoReason ⊥) }
        ensures pages { self.new.pages ≡ self.old.pages }
        ensures clock { self.new.clock ≡ self.old.clock }
        ensures faults { self.new.faults ≡ self.old.faults }
        ensures opened { self.new.opened_in ≡ self.old.opened_in }
        ensures begun { IfOk result (λ w. self.new.memory ≡ record self.old.memory { sessions = begun self.old.memory.sessions client w.session }) }
        ensures number { IfOk result (λ w. w.session ≡ self.old.memory.sessions.last + 1) }
        ensures counted { IfOk result (λ w. w.session < 2 ^ 32) }
        ensures threshold { IfOk result (λ w. w.threshold ≡ self.old.memory.queue.threshold) }
        ensures epoch { IfOk result (λ w. w.epoch ≡ epoch_of self.old.held) }
        ensures place { IfOk result (λ w. w.place ≡ length self.old.trace.history) }
        ensures upgrades { IfOk result (λ w. w.upgrades ≡ self.old.held.upgrades) }
    {
        self.check_up()?;
        match self.begin_session(client) {
            Ok((session, upgrades)) => {
                if let Err(refusal) = self.mark(Ok(()), Mark::Connected { session, client }) {
                    self.memory.give_back_session();
                    return Err(refusal);
                }
                Ok(Welcome {
                    session,
                    epoch: self.epoch(),
                    threshold: self.threshold(),
                    place: self.trace.place(),
                    upgrades,
                })
            }
            Err(NoMemory) => {
                self.stable.take_down();
                Err(Refusal::NoMemory)
            }
        }
    }

    /// Begins a session. The answer is its number, and the texts of the installed upgrades.
    #[tactic(auto, using(crate::proofs::Readable::shown_has))]
    fn begin_session(&mut self, client: u8) -> Result<(u32, Texts), NoMemory>
        ensures up { self.new.is_up ≡ self.old.is_up }
        ensures readable { ShowsPages self.old → ShowsPages self.new }
        ensures held { self.new.held ≡ self.old.held }
        ensures trace { self.new.trace ≡ self.old.trace }
        ensures begun { IfOk result (λ w. self.new.memory ≡ record self.old.memory { sessions = begun self.old.memory.sessions client w.0 }) }
        ensures number { IfOk result (λ w. w.0 ≡ self.old.memory.sessions.last + 1) }
        ensures upgrades { IfOk result (λ w. w.1 ≡ self.old.held.upgrades) }
        ensures lasts { OnErr result (Outlasts self.old.memory self.new.memory) }
        ensures pending { self.new.pending ≡ self.old.pending }
        ensures torn { self.new.is_torn ≡ self.old.is_torn }
        ensures pages { self.new.pages ≡ self.old.pages }
        ensures clock { self.new.clock ≡ self.old.clock }
        ensures faults { self.new.faults ≡ self.old.faults }
        ensures opened { self.new.opened_in ≡ self.old.opened_in }
    {
        let upgrades = self.stable.held().upgrades().copy()?;
        let session = self.memory.begin_session(client)?;
        Ok((session, upgrades))
    }
}
