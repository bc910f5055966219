//! A client asks for a page.

ghost use Rattle.std.specs.Prelude.{◌≡◌, OnErr, OnOk, true, IfErr, None, length, IsErrOf, false, ℕ, []};
ghost use Rattle.repo_sessions.specs.Sessions.{is_live};
ghost use Rattle.repo_core.specs.Objects.{ObjectsTake, SendsObjects};
ghost use Rattle.repo_core.specs.Behind.{MovesObjects, Stands};
ghost use Rattle.spec_trace.specs.declared.mark.Mark.TheVariants.{Fetched as Fetches};
ghost use Rattle.repo_core.specs.Shown.{faults_of, ShowsPages};
ghost use Rattle.repo_durable.specs.Failing.{HasFailed, NoFewer, is_stopped};
ghost use Rattle.repo_trace.specs.Recorded.{with_mark};
ghost use Rattle.repo_core.specs.Refusing.{CanRefuse, IsGone, IsPageDamage, Leaves};
ghost use Rattle.repo_core.specs.Telling.{SendsPage};
ghost use Rattle.base_reasons.specs.declared.reason.Reason.TheVariants.{Gone as AGone};
ghost use Rattle.repo_refusals.specs.declared.refusal.Refusal.TheVariants.{Damaged as IsDamaged, Reason as IsReason, Stopped as IsStopped};

use crate::repo::Repo;
use disk_trait::Parts;
use repo_refusals::Refusal;
use spec_trace::Mark;

impl<P: Parts> Repo<P> {
    /// Puts a page into the session's outbox, as it stands behind all entries. The messages below `upto` are
    /// acknowledged. Refusal: `Gone`.
    #[tactic(auto, using(crate::proofs::Refused::leaves_down, crate::proofs::Refused::falls_with, crate::proofs::Refused::leaves_read, crate::proofs::Refused::moved_none, crate::proofs::Refused::lasts_same, crate::proofs::Causes::why_down, crate::proofs::Causes::why_reason, crate::proofs::Causes::why_after, crate::proofs::Causes::lacks_memory, crate::proofs::Failing::stopped_none, crate::proofs::Failing::stopped_gone, crate::proofs::Failing::stopped_memory, crate::proofs::Failing::failed_between, crate::proofs::Causes::damaged_none, crate::proofs::Causes::damaged_gone, crate::proofs::Damage::damaged_memory, crate::proofs::Failing::fewer_same, crate::proofs::Objects::objects_itself, crate::proofs::Objects::objects_held))]
    pub fn fetch(&mut self, session: u32, page: u32, upto: u64) -> Result<(), Refusal>
        ensures stands { Stands self.old.is_up result self.new.is_up }
        ensures readable { ShowsPages self.old → ShowsPages self.new }
        ensures never { (n place : ℕ) → IsErrOf result (IsDamaged n place) → ShowsPages self.old → ⊥ }
        ensures live { OnOk result (is_live self.old.memory.sessions session ≡ true) }
        ensures held { MovesObjects self.old.held self.new.held }
        ensures sent { OnOk result (SendsPage self.old.memory session page upto (length self.old.trace.history) self.new.memory) }
        ensures objects { ObjectsTake [] self.old self.new }
        ensures image { OnOk result (SendsObjects self.old session page upto self.new) }
        ensures limit { self.new.held.objects.mob.limit ≡ self.old.held.objects.mob.limit }
        ensures buffer { self.new.held.objects.mob ≡ self.old.held.objects.mob }
        ensures trace { OnOk result (self.new.trace ≡ with_mark self.old.trace (Fetches session page upto)) }
        ensures refused { OnErr result (self.new.trace ≡ self.old.trace) }
        ensures why { IfErr result (CanRefuse self.old (IsGone self.old.memory session) (is_live self.old.memory.sessions session ≡ true)) }
        ensures gone { self.old.is_up ≡ true → is_live self.old.memory.sessions session ≡ false → IsErrOf result (IsReason (AGone session)) }
        ensures left { IfErr result (Leaves self.old self.new None) }
        ensures pages { self.new.pages ≡ self.old.pages }
        ensures stopped { (n : ℕ) → IsErrOf result (IsStopped n) → HasFailed (faults_of self.old) (faults_of self.new) }
        ensures counts { NoFewer (faults_of self.old) (faults_of self.new) }
        ensures steady { OnOk result (self.new.faults ≡ self.old.faults) }
        ensures quiet { IfErr result (λ r. is_stopped r ≡ false → self.new.faults ≡ self.old.faults) }
        ensures damaged { (n place : ℕ) → IsErrOf result (IsDamaged n place) → IsPageDamage self.old page place }
        ensures clock { self.new.clock ≡ self.old.clock }
        ensures opened { self.new.opened_in ≡ self.old.opened_in }
    {
        self.check_up()?;
        self.check_live(session)?;
        let image = self.stable.page_image(page)?;
        let place = self.trace.place();
        let sent = self.memory.send_page(session, &image, upto, place);
        let mark = Mark::Fetched {
            session,
            page,
            upto,
        };
        self.mark(sent, mark)
    }
}
