//! A checkpoint is made.

ghost use Rattle.std.specs.Prelude.{◌≡◌, IfErr, IsErrOf, OnOk, false, ℕ};
ghost use Rattle.repo_core.specs.Behind.{Stands};
ghost use Rattle.repo_core.specs.Refusing.{CanRefuse, HasNoReason, Rests};
ghost use Rattle.repo_core.specs.Restarting.{DropsEarlier};
ghost use Rattle.repo_core.specs.Shown.{faults_of, ShowsPages};
ghost use Rattle.repo_durable.specs.Failing.{HasFailed, NoFewer, is_stopped};
ghost use Rattle.repo_refusals.specs.declared.refusal.Refusal.TheVariants.{Damaged as IsDamaged, Stopped as IsStopped};

use crate::repo::Repo;
use disk_trait::Parts;
use repo_refusals::Refusal;

impl<P: Parts> Repo<P> {
    /// Begins a log on the other log disk with all that the present one stands for, but for decisions that are
    /// forgotten or of earlier openings.
    #[tactic(auto, using(crate::proofs::Refused::rests_down, crate::proofs::Refused::rests_so, crate::proofs::Causes::why_down, crate::proofs::Causes::stands_refused, crate::proofs::Failing::stopped_none, crate::proofs::Failing::failed_between, crate::proofs::Failing::failed_same, crate::proofs::Causes::damaged_none, crate::proofs::Failing::fewer_same))]
    pub fn checkpoint(&mut self) -> Result<(), Refusal>
        ensures stands { Stands self.old.is_up result self.new.is_up }
        ensures readable { ShowsPages self.old → ShowsPages self.new }
        ensures memory { self.new.memory ≡ self.old.memory }
        ensures trace { self.new.trace ≡ self.old.trace }
        ensures held { DropsEarlier self.old self.new }
        ensures why { IfErr result (CanRefuse self.old HasNoReason (Unit {0})) }
        ensures rests { IfErr result (Rests self.old self.new) }
        ensures pages { self.new.pages ≡ self.old.pages }
        ensures stopped { (n : ℕ) → IsErrOf result (IsStopped n) → HasFailed (faults_of self.old) (faults_of self.new) }
        ensures counts { NoFewer (faults_of self.old) (faults_of self.new) }
        ensures steady { OnOk result (self.new.faults ≡ self.old.faults) }
        ensures quiet { IfErr result (λ r. is_stopped r ≡ false → self.new.faults ≡ self.old.faults) }
        ensures damaged { (n place : ℕ) → IsErrOf result (IsDamaged n place) → ⊥ }
        ensures clock { self.new.clock ≡ self.old.clock }
        ensures opened { self.new.opened_in ≡ self.old.opened_in }
    {
        self.check_up()?;
        self.drop_decisions();
        self.stable.checkpoint()
    }
}
