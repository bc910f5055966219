//! A client asks for names.

ghost use Rattle.std.specs.Prelude.{◌≡◌, ◌+◌, ◌<◌, IfErr, IfOk, None, Ok, OnOk, Option, false, length, true};
ghost use Rattle.repo_sessions.specs.Sessions.{is_live, sent};
ghost use Rattle.session_outbox.specs.declared.message.Message.TheVariants.{Grant as AGrant};
ghost use Rattle.repo_core.specs.Behind.{Stands, is_marked, with_refusal};
ghost use Rattle.spec_trace.specs.declared.mark.Mark.TheVariants.{Granted as Grants};
ghost use Rattle.repo_trace.specs.Recorded.{with_mark};
ghost use Rattle.log_entries.specs.declared.entry.Entry.{Entry as AnEntry};
ghost use Rattle.repo_core.specs.Refusing.{CanRefuse, GoesDown, Leaves};
ghost use Rattle.repo_durable.specs.Kept.{is_fault};
ghost use Rattle.repo_core.specs.Calls.{GrantIsRefused};
ghost use Rattle.repo_refusals.specs.declared.refusal.Refusal.TheVariants.{NoMemory as IsNoMemory};
ghost use Rattle.repo_core.specs.Shown.{ShowsPages};

use crate::repo::Repo;
use base_reasons::Reason;
use disk_trait::Parts;
use repo_refusals::Refusal;
use spec_trace::Mark;
use thor_value::{NoMemory, PAGES};

impl<P: Parts> Repo<P> {
    /// Puts a page that was never granted into the session's outbox, for the names of new objects. Refusals:
    /// `Gone`, `Full`.
    #[tactic(auto, using(crate::proofs::Refused::leaves_down, crate::proofs::Refused::leaves_same, crate::proofs::Causes::why_down, crate::proofs::Causes::why_marked, crate::proofs::Causes::lacks_memory))]
    pub fn grant(&mut self, session: u32) -> Result<(), Refusal>
        ensures stands { Stands self.old.is_up result self.new.is_up }
        ensures readable { ShowsPages self.old → ShowsPages self.new }
        ensures live { OnOk result (is_live self.old.memory.sessions session ≡ true) }
        ensures held { OnOk result (self.new.held ≡ record self.old.held { next_grant = self.old.held.next_grant + 1 }) }
        ensures objects { self.new.held.objects ≡ self.old.held.objects }
        ensures below { OnOk result (self.old.held.next_grant < 65536) }
        ensures sent { OnOk result (self.new.memory ≡ record self.old.memory { sessions = sent self.old.memory.sessions session self.old.held.next_grant (AGrant self.old.held.next_grant (length self.old.trace.history)) }) }
        ensures trace { OnOk result (self.new.trace ≡ with_mark self.old.trace (Grants session self.old.held.next_grant)) }
        ensures why { IfErr result (λ r. is_marked r ≡ true → (self.old.is_up ≡ true) × GrantIsRefused self.old.held self.old.memory session r) }
        ensures only { IfErr result (CanRefuse self.old (GrantIsRefused self.old.held self.old.memory session) ⊥) }
        ensures refused { IfErr result (λ r. self.new.trace ≡ with_refusal self.old.trace session None r) }
        ensures left { IfErr result (Leaves self.old self.new None) }
        ensures pages { self.new.pages ≡ self.old.pages }
        ensures clock { self.new.clock ≡ self.old.clock }
        ensures faults { self.new.faults ≡ self.old.faults }
        ensures opened { self.new.opened_in ≡ self.old.opened_in }
    {
        self.check_up()?;
        match self.may_grant(session) {
            Ok(page) => self.send_grant(session, page),
            Err(refusal) => Err(self.refuse(session, None, refusal)),
        }
    }

    /// The page that is granted next.
    fn may_grant(&self, session: u32) -> Result<u32, Refusal>
        ensures live { OnOk result (is_live self.now.memory.sessions session ≡ true) }
        ensures page { IfOk result (λ page. (page ≡ self.now.held.next_grant) × (page < 65536)) }
        ensures marked { IfErr result (λ r. is_marked r ≡ true) }
        ensures why { IfErr result (GrantIsRefused self.now.held self.now.memory session) }
    {
        self.check_live(session)?;
        let page = self.stable.held().next_grant();
        if page < PAGES {
            Ok(page)
        } else {
            Err(Refusal::Reason(Reason::Full { limit: PAGES }))
        }
    }

    #[tactic(auto, using(crate::proofs::Readable::shown_has, crate::proofs::Refused::leaves_read, crate::proofs::Refused::moved_none))]
    fn send_grant(&mut self, session: u32, page: u32) -> Result<(), Refusal>
        requires up { self.old.is_up ≡ true }
        requires next { page ≡ self.old.held.next_grant }
        requires below { page < 65536 }
        ensures stands { Stands true result self.new.is_up }
        ensures readable { ShowsPages self.old → ShowsPages self.new }
        ensures held { OnOk result (self.new.held ≡ record self.old.held { next_grant = page + 1 }) }
        ensures objects { self.new.held.objects ≡ self.old.held.objects }
        ensures sent { OnOk result (self.new.memory ≡ record self.old.memory { sessions = sent self.old.memory.sessions session page (AGrant page (length self.old.trace.history)) }) }
        ensures trace { OnOk result (self.new.trace ≡ with_mark self.old.trace (Grants session page)) }
        ensures refused { IfErr result (λ r. (is_marked r ≡ false) × (self.new.trace ≡ self.old.trace)) }
        ensures left { IfErr result (Leaves self.old self.new None) }
        ensures refusal { IfErr result (λ r. r ≡ IsNoMemory) }
        ensures pages { self.new.pages ≡ self.old.pages }
        ensures clock { self.new.clock ≡ self.old.clock }
        ensures faults { self.new.faults ≡ self.old.faults }
        ensures opened { self.new.opened_in ≡ self.old.opened_in }
    {
        let place = self.trace.place();
        let sent = self.memory.send_grant(session, page, place);
        self.mark_granted(sent, session, page)
    }

    /// Marks what was sent, and grants no page below the next one any more.
    #[tactic(auto, using(crate::proofs::Readable::shown_has))]
    fn mark_granted(
        &mut self,
        sent: Result<(), NoMemory>,
        session: u32,
        page: u32,
    ) -> Result<(), Refusal>
        requires up { self.old.is_up ≡ true }
        requires next { page ≡ self.old.held.next_grant }
        requires below { page < 65536 }
        ensures stands { Stands true result self.new.is_up }
        ensures readable { ShowsPages self.old → ShowsPages self.new }
        ensures held { OnOk result (self.new.held ≡ record self.old.held { next_grant = page + 1 }) }
        ensures objects { self.new.held.objects ≡ self.old.held.objects }
        ensures memory { self.new.memory ≡ self.old.memory }
        ensures sent { OnOk result (sent ≡ Ok tt) }
        ensures trace { OnOk result (self.new.trace ≡ with_mark self.old.trace (Grants session page)) }
        ensures refused { IfErr result (λ r. (is_marked r ≡ false) × (self.new.trace ≡ self.old.trace)) }
        ensures falls { IfErr result (λ r. (is_fault r ≡ true) × ((e : Option AnEntry) → GoesDown self.old self.new e)) }
        ensures refusal { IfErr result (λ r. r ≡ IsNoMemory) }
        ensures pages { self.new.pages ≡ self.old.pages }
        ensures clock { self.new.clock ≡ self.old.clock }
        ensures faults { self.new.faults ≡ self.old.faults }
        ensures opened { self.new.opened_in ≡ self.old.opened_in }
    {
        self.mark(sent, Mark::Granted { session, page })?;
        self.stable.grant_from(page + 1);
        Ok(())
    }
}
