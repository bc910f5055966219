//! A participant learns the coordinator's verdict.

ghost use Rattle.std.specs.Prelude.{◌≡◌, IfOk, OnErr, OnOk, Some, None, cond, is_some, false, length, true, IfErr, IsErrOf, ℕ, []};
ghost use Rattle.log_entries.specs.declared.entry.Entry.TheVariants.{Finished as Finishes};
ghost use Rattle.repo_core.specs.Objects.{ObjectsTake};
ghost use Rattle.repo_core.specs.Behind.{HasMoved, Stands};
ghost use Rattle.thor_value.specs.Spelling.{TsFits};
ghost use Rattle.law_repo_memory.specs.Coming.{Moves};
ghost use Rattle.thor_value.specs.FiniteMap.{has};
ghost use Rattle.repo_core.specs.Shown.{faults_of, ShowsPages};
ghost use Rattle.repo_durable.specs.Failing.{HasFailed, NoFewer, is_stopped};
ghost use Rattle.repo_trace.specs.Recorded.{with_entry};
ghost use Rattle.commit_log.specs.Values.{writes_if};
ghost use Rattle.two_phase.specs.Contents.{open_at};
ghost use Rattle.repo_core.specs.Moving.{HasRoomFor};
ghost use Rattle.repo_core.specs.Refusing.{CanRefuse, GoesDown, HasNoReason, IsPageDamage, Leaves};
ghost use Rattle.repo_core.specs.Telling.{Tells};
ghost use Rattle.repo_refusals.specs.declared.refusal.Refusal.TheVariants.{Damaged as IsDamaged, Stopped as IsStopped};

use crate::repo::Repo;
use disk_trait::Parts;
use log_entries::Entry;
use repo_refusals::Refusal;
use session_outbox::Verdict;
use thor_value::Ts;

impl<P: Parts> Repo<P> {
    /// Finishes a transaction by the coordinator's verdict. The answer is the place of the entry; `None`
    /// exactly where it isn't prepared here.
    #[tactic(auto, using(crate::proofs::Refused::leaves_down, crate::proofs::Refused::leaves_finished, crate::proofs::Causes::why_down, crate::proofs::Causes::why_fault, crate::proofs::Causes::damaged_none, crate::proofs::Failing::stopped_none, crate::proofs::Failing::failed_shown, crate::proofs::Failing::fewer_same, crate::proofs::Objects::objects_itself, crate::proofs::Objects::objects_held))]
    pub fn finish(&mut self, verdict: &Verdict) -> Result<Option<u64>, Refusal>
        ensures stands { Stands self.old.is_up result self.new.is_up }
        ensures readable { ShowsPages self.old → ShowsPages self.new }
        ensures never { (n place : ℕ) → IsErrOf result (IsDamaged n place) → ShowsPages self.old → ⊥ }
        ensures held { OnOk result (is_some (open_at self.old.held.table verdict.now.tx) ≡ true → HasMoved self.old.held (Finishes verdict.now.tx verdict.now.commit) self.new.held) }
        ensures objects { OnOk result (ObjectsTake (writes_if verdict.now.commit (open_at self.old.held.table verdict.now.tx)) self.old self.new) }
        ensures rested { OnErr result (ObjectsTake [] self.old self.new) }
        ensures limit { OnOk result (self.new.held.objects.mob.limit ≡ self.old.held.objects.mob.limit) }
        ensures memory { is_some (open_at self.old.held.table verdict.now.tx) ≡ true → has self.old.memory.queue.members verdict.now.tx ≡ true → OnOk result (Moves self.old.held self.old.memory (Finishes verdict.now.tx verdict.now.commit) self.new.memory) }
        ensures tells { is_some (open_at self.old.held.table verdict.now.tx) ≡ true → OnOk result (Tells self.old.held self.old.memory.sessions (length self.old.trace.history) (Finishes verdict.now.tx verdict.now.commit) self.new.memory.sessions) }
        ensures same { is_some (open_at self.old.held.table verdict.now.tx) ≡ false → OnOk result (self.new ≡ self.old) }
        ensures place { IfOk result (λ place. place ≡ cond (is_some (open_at self.old.held.table verdict.now.tx)) (Some (length self.old.trace.history)) None) }
        ensures trace { OnOk result (self.new.trace ≡ cond (is_some (open_at self.old.held.table verdict.now.tx)) (with_entry self.old.trace (Finishes verdict.now.tx verdict.now.commit)) self.old.trace) }
        ensures refused { OnErr result (self.new.trace ≡ self.old.trace) }
        ensures why { IfErr result (CanRefuse self.old HasNoReason (is_some (open_at self.old.held.table verdict.now.tx) ≡ true)) }
        ensures left { IfErr result (Leaves self.old self.new (cond (is_some (open_at self.old.held.table verdict.now.tx)) (Some (Finishes verdict.now.tx verdict.now.commit)) None)) }
        ensures pages { HasRoomFor self.old.held verdict.now.tx verdict.now.commit → self.new.pages ≡ self.old.pages }
        ensures damaged { (n place : ℕ) → IsErrOf result (IsDamaged n place) → GoesDown self.old self.new None }
        ensures page { (n place : ℕ) → IsErrOf result (IsDamaged n place) → (page : ℕ) × IsPageDamage self.new page place }
        ensures stopped { (n : ℕ) → IsErrOf result (IsStopped n) → HasFailed (faults_of self.old) (faults_of self.new) }
        ensures counts { NoFewer (faults_of self.old) (faults_of self.new) }
        ensures steady { OnOk result (self.new.faults ≡ self.old.faults) }
        ensures quiet { IfErr result (λ r. is_stopped r ≡ false → self.new.faults ≡ self.old.faults) }
        ensures clock { self.new.clock ≡ self.old.clock }
        ensures opened { self.new.opened_in ≡ self.old.opened_in }
    {
        self.check_up()?;
        let tx = verdict.tx();
        let commit = verdict.commit();
        if !self.is_open(tx) {
            return Ok(None);
        }
        self.make_room_for(tx, commit)?;
        let place = self.write(Entry::Finished { tx, commit })?;
        Ok(Some(place))
    }

    /// Whether a request of the transaction is open here.
    pub fn is_open(&self, tx: Ts) -> bool
        ensures open { result ≡ is_some (open_at self.now.held.table tx) }
        ensures stamp { self.now.is_up ≡ true → is_some (open_at self.now.held.table tx) ≡ true → TsFits tx }
    {
        self.stable.held().table().open_request(tx).is_some()
    }
}
