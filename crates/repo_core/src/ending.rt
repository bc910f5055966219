//! How an event begins and ends.

ghost use Rattle.log_entries.specs.declared.entry.Entry.{Entry as AnEntry};
ghost use Rattle.repo_core.specs.Behind.{is_marked};
ghost use Rattle.repo_durable.specs.Kept.{is_fault};
ghost use Rattle.repo_core.specs.Refusing.{GoesDown, Leaves, StaysAsWas};
ghost use Rattle.std.specs.Prelude.{◌≡◌, IfErr, Ok, OnErr, OnOk, Option, false, true};
ghost use Rattle.repo_sessions.specs.Sessions.{is_live, has_session};
ghost use Rattle.repo_trace.specs.Recorded.{with_mark};
ghost use Rattle.base_reasons.specs.declared.reason.Reason.TheVariants.{Gone as IsGone};
ghost use Rattle.repo_refusals.specs.declared.refusal.Refusal.TheVariants.{Down as IsDown, NoMemory as IsNoMemory, Reason as IsReason};
ghost use Rattle.repo_core.specs.Shown.{ShowsPages};

use crate::repo::Repo;
use base_reasons::Reason;
use disk_trait::Parts;
use repo_refusals::Refusal;
use spec_trace::Mark;
use thor_value::NoMemory;

impl<P: Parts> Repo<P> {
    /// Refuses a call on a repository that is down.
    #[tactic(auto, using(crate::proofs::Refused::leaves_same))]
    pub(crate) fn check_up(&self) -> Result<(), Refusal>
        ensures up { OnOk result (self.now.is_up ≡ true) }
        ensures down { OnErr result (self.now.is_up ≡ false) }
        ensures refusal { IfErr result (λ r. r ≡ IsDown self.now.held.repo) }
        ensures left { IfErr result (λ r. (e : Option AnEntry) → Leaves self.now self.now e r) }
    {
        if self.stable.is_up() {
            Ok(())
        } else {
            Err(Refusal::Down {
                repo: self.stable.repo(),
            })
        }
    }

    /// Refuses a call of a session that isn't live.
    #[tactic(auto, using(crate::proofs::Refused::leaves_same))]
    pub(crate) fn check_live(&self, session: u32) -> Result<(), Refusal>
        ensures live { OnOk result (is_live self.now.memory.sessions session ≡ true) }
        ensures refusal { IfErr result (λ r. r ≡ IsReason (IsGone session)) }
        ensures gone { OnErr result (is_live self.now.memory.sessions session ≡ false) }
        ensures left { IfErr result (λ r. (e : Option AnEntry) → Leaves self.now self.now e r) }
    {
        if self.memory.sessions().is_live(session) {
            Ok(())
        } else {
            Err(Refusal::Reason(Reason::Gone { session }))
        }
    }

    /// Refuses a call of a session that has ended.
    #[tactic(auto, using(crate::proofs::Refused::leaves_same))]
    pub(crate) fn check_unended(&self, session: u32) -> Result<(), Refusal>
        ensures unended { OnOk result (has_session self.now.memory.sessions session ≡ true) }
        ensures refusal { IfErr result (λ r. r ≡ IsReason (IsGone session)) }
        ensures gone { OnErr result (has_session self.now.memory.sessions session ≡ false) }
        ensures left { IfErr result (λ r. (e : Option AnEntry) → Leaves self.now self.now e r) }
    {
        if self.memory.sessions().has_session(session) {
            Ok(())
        } else {
            Err(Refusal::Reason(Reason::Gone { session }))
        }
    }

    /// Puts the mark of what has happened behind the trace, or takes the repository down where there was no
    /// memory for it or for what has happened.
    #[tactic(auto, using(crate::proofs::Readable::shown_has, crate::proofs::Refused::leaves_down, crate::proofs::Refused::falls_with, crate::proofs::Refused::moved_none, crate::proofs::Refused::lasts_same))]
    pub(crate) fn mark(&mut self, happened: Result<(), NoMemory>, mark: Mark) -> Result<(), Refusal>
        requires { self.old.is_up ≡ true }
        ensures happened { OnOk result (happened ≡ Ok tt) }
        ensures readable { ShowsPages self.old → ShowsPages self.new }
        ensures up { OnOk result (self.new.is_up ≡ self.old.is_up) }
        ensures trace { OnOk result (self.new.trace ≡ with_mark self.old.trace mark) }
        ensures refusal { IfErr result (λ r. r ≡ IsNoMemory) }
        ensures down { OnErr result (self.new.is_up ≡ false) }
        ensures refused { OnErr result (self.new.trace ≡ self.old.trace) }
        ensures held { self.new.held ≡ self.old.held }
        ensures memory { self.new.memory ≡ self.old.memory }
        ensures left { OnErr result ((e : Option AnEntry) → GoesDown self.old self.new e) }
        ensures same { OnOk result (StaysAsWas self.old self.new) }
        ensures fault { IfErr result (λ r. (is_fault r ≡ true) × (is_marked r ≡ false)) }
        ensures falls { IfErr result (λ r. (is_fault r ≡ true) × ((e : Option AnEntry) → GoesDown self.old self.new e)) }
        ensures leaves { IfErr result (λ r. (e : Option AnEntry) → Leaves self.old self.new e r) }
        ensures pages { self.new.pages ≡ self.old.pages }
        ensures clock { self.new.clock ≡ self.old.clock }
        ensures faults { self.new.faults ≡ self.old.faults }
        ensures opened { self.new.opened_in ≡ self.old.opened_in }
    {
        let marked = match happened {
            Ok(()) => self.trace.put_mark(mark),
            Err(refused) => Err(refused),
        };
        match marked {
            Ok(()) => Ok(()),
            Err(_) => {
                self.stable.take_down();
                Err(Refusal::NoMemory)
            }
        }
    }

    /// Takes the repository down, since memory was not there.
    #[tactic(auto, using(crate::proofs::Readable::shown_has, crate::proofs::Refused::leaves_down, crate::proofs::Refused::falls_with, crate::proofs::Refused::moved_none, crate::proofs::Refused::lasts_same))]
    pub(crate) fn fall(&mut self) -> Refusal
        requires { self.old.is_up ≡ true }
        ensures refusal { result ≡ IsNoMemory }
        ensures readable { ShowsPages self.old → ShowsPages self.new }
        ensures down { self.new.is_up ≡ false }
        ensures trace { self.new.trace ≡ self.old.trace }
        ensures held { self.new.held ≡ self.old.held }
        ensures memory { self.new.memory ≡ self.old.memory }
        ensures left { (e : Option AnEntry) → Leaves self.old self.new e result }
        ensures pages { self.new.pages ≡ self.old.pages }
        ensures clock { self.new.clock ≡ self.old.clock }
        ensures faults { self.new.faults ≡ self.old.faults }
        ensures opened { self.new.opened_in ≡ self.old.opened_in }
    {
        self.stable.take_down();
        Refusal::NoMemory
    }
}
