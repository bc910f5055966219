//! A page is flushed.

ghost use Rattle.std.specs.Prelude.{◌≡◌, IfErr, IfOk, IsErrOf, OnErr, OnOk, false, slice_get, ℕ, []};
ghost use Rattle.std.specs.Option.{IfSome};
ghost use Rattle.repo_core.specs.Objects.{ObjectsTake};
ghost use Rattle.repo_core.specs.Behind.{MovesObjects, Stands};
ghost use Rattle.repo_core.specs.Refusing.{CanRefuse, HasNoReason, IsPageDamage, Rests};
ghost use Rattle.repo_core.specs.Shown.{faults_of, ShowsPages};
ghost use Rattle.repo_durable.specs.Failing.{HasFailed, NoFewer, is_stopped};
ghost use Rattle.repo_durable.specs.Flushes.{IsOldest, left_by};
ghost use Rattle.repo_refusals.specs.declared.refusal.Refusal.TheVariants.{Damaged as IsDamaged, Stopped as IsStopped};

use crate::repo::Repo;
use disk_trait::Parts;
use mob_flusher::Flushed;
use repo_refusals::Refusal;

impl<P: Parts> Repo<P> {
    /// Writes the page of the oldest buffered object, with all its buffered objects, to the side of it that
    /// isn't in use, and has that side in use. No object changes.
    #[tactic(auto, using(crate::proofs::Refused::rests_down, crate::proofs::Refused::rests_so, crate::proofs::Causes::stands_refused, crate::proofs::Failing::failed_between))]
    pub fn flush(&mut self) -> Result<Flushed, Refusal>
        ensures stands { Stands self.old.is_up result self.new.is_up }
        ensures readable { ShowsPages self.old → ShowsPages self.new }
        ensures never { (n place : ℕ) → IsErrOf result (IsDamaged n place) → ShowsPages self.old → ⊥ }
        ensures held { MovesObjects self.old.held self.new.held }
        ensures memory { self.new.memory ≡ self.old.memory }
        ensures objects { ObjectsTake [] self.old self.new }
        ensures limit { self.new.held.objects.mob.limit ≡ self.old.held.objects.mob.limit }
        ensures buffer { IfOk result (λ f. self.new.held.objects.mob.objects ≡ left_by self.old.held.objects.mob.objects f) }
        ensures unmoved { OnErr result (self.new.held.objects.mob ≡ self.old.held.objects.mob) }
        ensures oldest { IfOk result (IsOldest self.old.held.objects.mob.objects) }
        ensures trace { self.new.trace ≡ self.old.trace }
        ensures why { IfErr result (CanRefuse self.old HasNoReason (Unit {0})) }
        ensures rests { IfErr result (Rests self.old self.new) }
        ensures stopped { (n : ℕ) → IsErrOf result (IsStopped n) → HasFailed (faults_of self.old) (faults_of self.new) }
        ensures counts { NoFewer (faults_of self.old) (faults_of self.new) }
        ensures steady { OnOk result (self.new.faults ≡ self.old.faults) }
        ensures quiet { IfErr result (λ r. is_stopped r ≡ false → self.new.faults ≡ self.old.faults) }
        ensures damaged { (n place : ℕ) → IsErrOf result (IsDamaged n place) → IfSome (slice_get self.old.held.objects.mob.objects 0) (λ q. IsPageDamage self.old q.0.page place) }
        ensures clock { self.new.clock ≡ self.old.clock }
        ensures opened { self.new.opened_in ≡ self.old.opened_in }
    {
        self.stable.flush_page()
    }
}
