//! A client takes a message.

ghost use Rattle.std.specs.Prelude.{◌≡◌, IfOk, OnErr, OnOk, Option, true, IfErr, None, IsErrOf, false};
ghost use Rattle.repo_sessions.specs.Sessions.{is_live, taken};
ghost use Rattle.session_outbox.specs.Messages.{first};
ghost use Rattle.session_outbox.specs.Outbox.{waiting};
ghost use Rattle.repo_core.specs.Behind.{Stands, with_taken};
ghost use Rattle.log_entries.specs.declared.entry.Entry.{Entry as AnEntry};
ghost use Rattle.repo_core.specs.Refusing.{CanRefuse, GoesDown, IsGone, Leaves};
ghost use Rattle.repo_durable.specs.Kept.{is_fault};
ghost use Rattle.repo_refusals.specs.declared.refusal.Refusal.TheVariants.{NoMemory as IsNoMemory, Reason as IsReason};
ghost use Rattle.base_reasons.specs.declared.reason.Reason.TheVariants.{Gone as AGone};
ghost use Rattle.repo_core.specs.Shown.{ShowsPages};

use crate::repo::Repo;
use disk_trait::Parts;
use repo_refusals::Refusal;
use session_outbox::Message;
use spec_trace::Mark;

impl<P: Parts> Repo<P> {
    /// Takes the oldest message that waits for the session; `None` exactly where none does. Refusal: `Gone`.
    #[tactic(auto, using(crate::proofs::Readable::shown_has, crate::proofs::Refused::leaves_read, crate::proofs::Refused::moved_none, repo_volatile::proofs::Lasting::stayed, crate::proofs::Causes::why_down, crate::proofs::Causes::why_reason, crate::proofs::Causes::lacks_memory))]
    pub fn receive(&mut self, session: u32) -> Result<Option<Message>, Refusal>
        ensures stands { Stands self.old.is_up result self.new.is_up }
        ensures readable { ShowsPages self.old → ShowsPages self.new }
        ensures live { OnOk result (is_live self.old.memory.sessions session ≡ true) }
        ensures held { self.new.held ≡ self.old.held }
        ensures message { IfOk result (λ message. message ≡ first (waiting self.old.memory.sessions.waiting session)) }
        ensures rest { OnOk result (self.new.memory ≡ record self.old.memory { sessions = taken self.old.memory.sessions session }) }
        ensures trace { IfOk result (λ message. self.new.trace ≡ with_taken self.old.trace session message) }
        ensures refused { OnErr result (self.new.trace ≡ self.old.trace) }
        ensures why { IfErr result (CanRefuse self.old (IsGone self.old.memory session) ⊥) }
        ensures gone { self.old.is_up ≡ true → is_live self.old.memory.sessions session ≡ false → IsErrOf result (IsReason (AGone session)) }
        ensures left { IfErr result (Leaves self.old self.new None) }
        ensures pages { self.new.pages ≡ self.old.pages }
        ensures clock { self.new.clock ≡ self.old.clock }
        ensures faults { self.new.faults ≡ self.old.faults }
        ensures opened { self.new.opened_in ≡ self.old.opened_in }
    {
        self.check_up()?;
        self.check_live(session)?;
        let taken = self.memory.take(session);
        self.mark_taken(session, taken)
    }

    /// Marks that a message was taken, where one was.
    #[tactic(auto, using(crate::proofs::Readable::shown_has))]
    fn mark_taken(
        &mut self,
        session: u32,
        taken: Option<Message>,
    ) -> Result<Option<Message>, Refusal>
        requires { self.old.is_up ≡ true }
        ensures stands { Stands true result self.new.is_up }
        ensures readable { ShowsPages self.old → ShowsPages self.new }
        ensures held { self.new.held ≡ self.old.held }
        ensures memory { self.new.memory ≡ self.old.memory }
        ensures message { IfOk result (λ message. message ≡ taken) }
        ensures trace { IfOk result (λ message. self.new.trace ≡ with_taken self.old.trace session message) }
        ensures refused { OnErr result (self.new.trace ≡ self.old.trace) }
        ensures falls { IfErr result (λ r. (is_fault r ≡ true) × ((e : Option AnEntry) → GoesDown self.old self.new e)) }
        ensures refusal { IfErr result (λ r. r ≡ IsNoMemory) }
        ensures pages { self.new.pages ≡ self.old.pages }
        ensures clock { self.new.clock ≡ self.old.clock }
        ensures faults { self.new.faults ≡ self.old.faults }
        ensures opened { self.new.opened_in ≡ self.old.opened_in }
    {
        match taken {
            Some(message) => {
                let place = message.place();
                self.mark(Ok(()), Mark::Took { session, place })?;
                Ok(Some(message))
            }
            None => Ok(None),
        }
    }
}
