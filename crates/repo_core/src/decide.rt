//! A coordinator decides.

ghost use Rattle.std.specs.Prelude.{◌≡◌, IfOk, OnErr, OnOk, cond, false, true, IfErr, None, Some, length, IsErrOf, ℕ, []};
ghost use Rattle.log_entries.specs.declared.entry.Entry.TheVariants.{Decided as Decides};
ghost use Rattle.repo_sessions.specs.Sessions.{has_session};
ghost use Rattle.repo_core.specs.Objects.{ObjectsTake};
ghost use Rattle.repo_core.specs.Behind.{HasMoved, IsVerdict, Stands, has_prepared, is_committed};
ghost use Rattle.law_repo_memory.specs.Coming.{Moves};
ghost use Rattle.thor_value.specs.FiniteMap.{has};
ghost use Rattle.repo_core.specs.Shown.{faults_of, ShowsPages};
ghost use Rattle.repo_durable.specs.Failing.{HasFailed, NoFewer, is_stopped};
ghost use Rattle.repo_trace.specs.Recorded.{with_entry};
ghost use Rattle.commit_log.specs.Values.{writes_if};
ghost use Rattle.two_phase.specs.Contents.{open_at, standing};
ghost use Rattle.repo_core.specs.Moving.{HasRoomFor};
ghost use Rattle.repo_core.specs.Refusing.{CanRefuse, GoesDown, IsEnded, IsPageDamage, Leaves};
ghost use Rattle.repo_core.specs.Telling.{Tells};
ghost use Rattle.base_reasons.specs.declared.reason.Reason.TheVariants.{Gone as AGone};
ghost use Rattle.repo_refusals.specs.declared.refusal.Refusal.TheVariants.{Damaged as IsDamaged, Reason as IsReason, Stopped as IsStopped};

use crate::repo::Repo;
use disk_trait::Parts;
use log_entries::Entry;
use repo_refusals::Refusal;
use session_outbox::Verdict;
use thor_value::Ts;
use two_phase::Standing;

impl<P: Parts> Repo<P> {
    /// Decides a transaction that the session prepared here and that this repository coordinates, also where the session
    /// was given up since. Refusal: `Gone`, exactly where the session has ended. Where it has nothing to decide, the answer
    /// is how the transaction stands.
    #[tactic(auto, using(crate::proofs::Refused::leaves_down, crate::proofs::Refused::leaves_decided, crate::proofs::Causes::why_down, crate::proofs::Causes::why_reason, crate::proofs::Causes::why_fault, crate::proofs::Causes::damaged_none, crate::proofs::Causes::damaged_gone, crate::proofs::Failing::stopped_none, crate::proofs::Failing::stopped_gone, crate::proofs::Failing::failed_shown, crate::proofs::Failing::fewer_same, crate::proofs::Objects::objects_itself, crate::proofs::Objects::objects_held))]
    pub fn decide(&mut self, session: u32, tx: Ts, commit: bool) -> Result<Verdict, Refusal>
        ensures stands { Stands self.old.is_up result self.new.is_up }
        ensures readable { ShowsPages self.old → ShowsPages self.new }
        ensures never { (n place : ℕ) → IsErrOf result (IsDamaged n place) → ShowsPages self.old → ⊥ }
        ensures unended { OnOk result (has_session self.old.memory.sessions session ≡ true) }
        ensures held { OnOk result (has_prepared self.old.held session tx ≡ true → HasMoved self.old.held (Decides tx commit) self.new.held) }
        ensures objects { OnOk result (ObjectsTake (cond (has_prepared self.old.held session tx) (writes_if commit (open_at self.old.held.table tx)) []) self.old self.new) }
        ensures rested { OnErr result (ObjectsTake [] self.old self.new) }
        ensures limit { OnOk result (self.new.held.objects.mob.limit ≡ self.old.held.objects.mob.limit) }
        ensures memory { has_prepared self.old.held session tx ≡ true → has self.old.memory.queue.members tx ≡ true → OnOk result (Moves self.old.held self.old.memory (Decides tx commit) self.new.memory) }
        ensures tells { has_prepared self.old.held session tx ≡ true → OnOk result (Tells self.old.held self.old.memory.sessions (length self.old.trace.history) (Decides tx commit) self.new.memory.sessions) }
        ensures same { has_prepared self.old.held session tx ≡ false → OnOk result (self.new ≡ self.old) }
        ensures trace { OnOk result (self.new.trace ≡ cond (has_prepared self.old.held session tx) (with_entry self.old.trace (Decides tx commit)) self.old.trace) }
        ensures verdict { IfOk result (λ v. IsVerdict v tx (cond (has_prepared self.old.held session tx) commit (is_committed (standing self.old.held.table tx)))) }
        ensures refused { OnErr result (self.new.trace ≡ self.old.trace) }
        ensures why { IfErr result (CanRefuse self.old (IsEnded self.old.memory session) ((has_session self.old.memory.sessions session ≡ true) × (has_prepared self.old.held session tx ≡ true))) }
        ensures gone { self.old.is_up ≡ true → has_session self.old.memory.sessions session ≡ false → IsErrOf result (IsReason (AGone session)) }
        ensures left { IfErr result (Leaves self.old self.new (cond (has_session self.old.memory.sessions session) (cond (has_prepared self.old.held session tx) (Some (Decides tx commit)) None) None)) }
        ensures pages { HasRoomFor self.old.held tx commit → self.new.pages ≡ self.old.pages }
        ensures damaged { (n place : ℕ) → IsErrOf result (IsDamaged n place) → GoesDown self.old self.new None }
        ensures page { (n place : ℕ) → IsErrOf result (IsDamaged n place) → (page : ℕ) × IsPageDamage self.new page place }
        ensures stopped { (n : ℕ) → IsErrOf result (IsStopped n) → HasFailed (faults_of self.old) (faults_of self.new) }
        ensures counts { NoFewer (faults_of self.old) (faults_of self.new) }
        ensures steady { OnOk result (self.new.faults ≡ self.old.faults) }
        ensures quiet { IfErr result (λ r. is_stopped r ≡ false → self.new.faults ≡ self.old.faults) }
        ensures clock { self.new.clock ≡ self.old.clock }
        ensures opened { self.new.opened_in ≡ self.old.opened_in }
    {
        self.check_up()?;
        self.check_unended(session)?;
        if !self.has_prepared(session, tx) {
            let stands = self.stable.held().table().ask(tx) == Standing::Committed;
            return Ok(Verdict::new(tx, stands));
        }
        self.make_room_for(tx, commit)?;
        self.write(Entry::Decided { tx, commit })?;
        Ok(Verdict::new(tx, commit))
    }
}
