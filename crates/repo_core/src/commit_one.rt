//! A transaction with one participant commits.

ghost use Rattle.std.specs.Prelude.{◌≡◌, IfErr, IfOk, None, OnOk, Some, false, length, true, IsErrOf, ℕ, OnErr, []};
ghost use Rattle.repo_core.specs.Objects.{ObjectsTake};
ghost use Rattle.repo_core.specs.Behind.{HasMoved, Stands, alone_entry, epoch_of, with_refusal, is_marked};
ghost use Rattle.repo_core.specs.Calls.{MayRequest, judged};
ghost use Rattle.repo_core.specs.Moving.{HasRoom};
ghost use Rattle.repo_state.specs.Entering.{entered as entered_in};
ghost use Rattle.law_repo_memory.specs.Coming.{Moves};
ghost use Rattle.repo_core.specs.Shown.{faults_of, ShowsPages};
ghost use Rattle.repo_durable.specs.Failing.{HasFailed, NoFewer, is_stopped};
ghost use Rattle.repo_trace.specs.Recorded.{with_entry};
ghost use Rattle.repo_volatile.specs.Volatile.{verdict};
ghost use Rattle.repo_core.specs.Refusing.{CanRefuse, GoesDown, IsPageDamage, Leaves, made_of};
ghost use Rattle.repo_core.specs.Telling.{Tells};
ghost use Rattle.repo_refusals.specs.declared.refusal.Refusal.TheVariants.{Damaged as IsDamaged, Stopped as IsStopped};

use crate::repo::Repo;
use disk_trait::Parts;
use log_entries::{Entry, Kind, Request};
use repo_refusals::Refusal;

impl<P: Parts> Repo<P> {
    /// Commits a transaction that has this one participant, and tells the other sessions. Answer and refusals
    /// are those of `prepare`.
    #[tactic(auto, using(crate::proofs::Refused::leaves_down, crate::proofs::Refused::leaves_written, crate::proofs::Judged::accepted, crate::proofs::Causes::why_down, crate::proofs::Causes::why_fault, crate::proofs::Causes::why_marked, crate::proofs::Causes::has_fault, crate::proofs::Causes::damaged_none, crate::proofs::Causes::damaged_marked, crate::proofs::Failing::stopped_none, crate::proofs::Failing::stopped_marked, crate::proofs::Failing::failed_shown, crate::proofs::Failing::fewer_same, crate::proofs::Objects::objects_itself, crate::proofs::Objects::objects_held))]
    pub fn commit_one(&mut self, session: u32, request: Request) -> Result<u64, Refusal>
        requires { MayRequest self.old.held self.old.memory request true }
        ensures stands { Stands self.old.is_up result self.new.is_up }
        ensures readable { ShowsPages self.old → ShowsPages self.new }
        ensures never { (n place : ℕ) → IsErrOf result (IsDamaged n place) → ShowsPages self.old → ⊥ }
        ensures accepted { OnOk result (verdict self.old.memory (epoch_of self.old.held) session request ≡ None) }
        ensures judged { OnOk result (judged self.old.held self.old.memory session request ≡ None) }
        ensures why { IfErr result (λ r. is_marked r ≡ true → (self.old.is_up ≡ true) × (judged self.old.held self.old.memory session request ≡ Some r)) }
        ensures only { IfErr result (CanRefuse self.old (λ r. judged self.old.held self.old.memory session request ≡ Some r) (judged self.old.held self.old.memory session request ≡ None)) }
        ensures place { IfOk result (λ place. place ≡ length self.old.trace.history) }
        ensures held { OnOk result (HasMoved self.old.held (alone_entry request.kind request) self.new.held) }
        ensures room { HasRoom self.old.held request.writes → OnOk result (self.new.held ≡ entered_in self.old.held (alone_entry request.kind request)) }
        ensures pages { HasRoom self.old.held request.writes → self.new.pages ≡ self.old.pages }
        ensures objects { OnOk result (ObjectsTake request.writes self.old self.new) }
        ensures rested { OnErr result (ObjectsTake [] self.old self.new) }
        ensures limit { OnOk result (self.new.held.objects.mob.limit ≡ self.old.held.objects.mob.limit) }
        ensures memory { OnOk result (Moves self.old.held self.old.memory (alone_entry request.kind request) self.new.memory) }
        ensures tells { OnOk result (Tells self.old.held self.old.memory.sessions (length self.old.trace.history) (alone_entry request.kind request) self.new.memory.sessions) }
        ensures trace { OnOk result (self.new.trace ≡ with_entry self.old.trace (alone_entry request.kind request)) }
        ensures refused { IfErr result (λ r. self.new.trace ≡ with_refusal self.old.trace session (Some request) r) }
        ensures left { IfErr result (Leaves self.old self.new (made_of (judged self.old.held self.old.memory session request) (alone_entry request.kind request))) }
        ensures damaged { (n place : ℕ) → IsErrOf result (IsDamaged n place) → GoesDown self.old self.new None }
        ensures page { (n place : ℕ) → IsErrOf result (IsDamaged n place) → (page : ℕ) × IsPageDamage self.new page place }
        ensures stopped { (n : ℕ) → IsErrOf result (IsStopped n) → HasFailed (faults_of self.old) (faults_of self.new) }
        ensures counts { NoFewer (faults_of self.old) (faults_of self.new) }
        ensures steady { OnOk result (self.new.faults ≡ self.old.faults) }
        ensures quiet { IfErr result (λ r. is_stopped r ≡ false → self.new.faults ≡ self.old.faults) }
        ensures clock { self.new.clock ≡ self.old.clock }
        ensures opened { self.new.opened_in ≡ self.old.opened_in }
    {
        self.check_up()?;
        match self.judge(session, &request) {
            Ok(()) => {
                self.make_room(&request.writes)?;
                self.write(entry_of(request))
            }
            Err(refusal) => Err(self.refuse(session, Some(request), refusal)),
        }
    }
}

/// The entry that a request is which commits here alone.
fn entry_of(request: Request) -> Entry
    ensures { result ≡ alone_entry request.kind request }
{
    match &request.kind {
        Kind::App | Kind::Transform => Entry::One { request },
        Kind::Upgrade { .. } => Entry::Upgraded { request },
    }
}
