//! Room in the buffer of modified objects.

ghost use Rattle.disk_trait.specs.AllDisks.{NoFault};
ghost use Rattle.std.specs.List.{AllByRecursion};
ghost use Rattle.std.specs.Prelude.{◌≡◌, IfErr, IsErrOf, false, true, OnErr, Option, None, OnOk, ◌<◌, ◌≤◌, ℕ, []};
ghost use Rattle.repo_state.specs.Keeps.{Keeps};
ghost use Rattle.mob_buffer.specs.Buffer.{CanStand, bytes_of};
ghost use Rattle.repo_core.specs.Objects.{ObjectsTake};
ghost use Rattle.repo_core.specs.Behind.{MovesObjects, Stands, is_marked};
ghost use Rattle.repo_core.specs.Moving.{HasRoom, HasRoomFor, MakesRoom};
ghost use Rattle.repo_durable.specs.Kept.{IsKept, RestsWith, disks_of, held_of, is_fault, is_up, repo_named};
ghost use Rattle.repo_durable.specs.Mapping.{StoreMoves};
ghost use Rattle.repo_durable.specs.Saying.{IsSaid};
ghost use Rattle.log_entries.specs.declared.entry.Entry.{Entry as AnEntry};
ghost use Rattle.repo_core.specs.Refusing.{IsPageDamage, Leaves};
ghost use Rattle.repo_core.specs.Shown.{faults_of, ShowsPages};
ghost use Rattle.repo_durable.specs.Failing.{HasFailed, NoFewer, is_stopped};
ghost use Rattle.repo_durable.specs.Flushes.{HasFlushed};
ghost use Rattle.base_reasons.specs.declared.reason.Reason.TheVariants.{Full as IsFull};
ghost use Rattle.repo_refusals.specs.declared.refusal.Refusal.TheVariants.{Reason as IsReason, Stopped as IsStopped, Damaged as IsDamaged};
ghost use Rattle.page_store.specs.Store.{IsDamage};
ghost use Rattle.repo_durable.specs.Pages.{HasPages};

use crate::repo::Repo;
use base_reasons::Reason;
use disk_trait::Parts;
use mob_buffer::spelled_bytes;
use mob_flusher::Flushed;
use repo_durable::Stable;
use repo_refusals::Refusal;
use repo_state::HeldState;
use thor_value::{Ts, Writes};

impl<P: Parts> Repo<P> {
    /// Refuses writes that don't fit into the buffer by themselves.
    pub(crate) fn check_room(&self, writes: &Writes) -> Result<(), Refusal>
        requires { AllByRecursion CanStand writes.now }
        ensures marked { IfErr result (λ r. is_marked r ≡ true) }
        ensures full { IfErr result (λ r. (r ≡ IsReason (IsFull self.now.held.objects.mob.limit)) × (self.now.held.objects.mob.limit < bytes_of writes.now)) }
        ensures room { OnOk result (bytes_of writes.now ≤ self.now.held.objects.mob.limit) }
    {
        let limit = self.stable.held().objects().mob().limit();
        if spelled_bytes(writes) > u64::from(limit) {
            Err(Refusal::Reason(Reason::Full { limit }))
        } else {
            Ok(())
        }
    }

    /// Flushes pages until writes fit into the buffer beside what is there, or it is empty.
    #[tactic(auto, using(crate::proofs::Refused::leaves_down, crate::proofs::Refused::falls_with, crate::proofs::Refused::lasts_same, crate::proofs::Damage::some_shown, crate::proofs::Failing::failed_between, crate::proofs::Failing::ok_shown, crate::proofs::Failing::err_shown, crate::proofs::Failing::fewer_between, crate::proofs::Failing::fewer_same, repo_durable::proofs::Flushes::flushed_none, crate::proofs::Readable::shown_has, crate::proofs::Objects::whole_answered))]
    pub(crate) fn make_room(&mut self, writes: &Writes) -> Result<(), Refusal>
        requires up { self.old.is_up ≡ true }
        requires fits { AllByRecursion CanStand writes.now }
        ensures stands { Stands true result self.new.is_up }
        ensures readable { ShowsPages self.old → ShowsPages self.new }
        ensures never { (n place : ℕ) → IsErrOf result (IsDamaged n place) → ShowsPages self.old → ⊥ }
        ensures fault { IfErr result (λ r. (is_fault r ≡ true) × (is_marked r ≡ false)) }
        ensures made { MakesRoom self.old self.new }
        ensures stays { HasRoom self.old.held writes.now → self.new ≡ self.old }
        ensures objects { ObjectsTake [] self.old self.new }
        ensures whole { OnOk result (self.new.is_torn ≡ false) }
        ensures left { IfErr result (λ r. (e : Option AnEntry) → Leaves self.old self.new e r) }
        ensures names { IfErr result (λ r. repo_named self.old.held.repo r ≡ self.old.held.repo) }
        ensures stopped { (n : ℕ) → IsErrOf result (IsStopped n) → HasFailed (faults_of self.old) (faults_of self.new) }
        ensures page { (n place : ℕ) → IsErrOf result (IsDamaged n place) → (page : ℕ) × IsPageDamage self.new page place }
        ensures steady { OnOk result (self.new.faults ≡ self.old.faults) }
        ensures quiet { IfErr result (λ r. is_stopped r ≡ false → self.new.faults ≡ self.old.faults) }
        ensures faults { NoFewer (faults_of self.old) (faults_of self.new) }
        ensures clock { self.new.clock ≡ self.old.clock }
        ensures opened { self.new.opened_in ≡ self.old.opened_in }
    {
        make_room(&mut self.stable, writes)
    }

    /// Does so for the writes of a transaction that is open here, where it commits.
    #[tactic(auto, using(crate::proofs::Refused::leaves_down, crate::proofs::Refused::falls_with, crate::proofs::Refused::lasts_same, crate::proofs::Damage::some_shown, crate::proofs::Failing::failed_between, crate::proofs::Failing::ok_shown, crate::proofs::Failing::err_shown, crate::proofs::Failing::fewer_between, crate::proofs::Failing::fewer_same, repo_durable::proofs::Flushes::flushed_none, crate::proofs::Readable::shown_has, crate::proofs::Objects::objects_held, crate::proofs::Objects::whole_answered))]
    pub(crate) fn make_room_for(&mut self, tx: Ts, commit: bool) -> Result<(), Refusal>
        requires { self.old.is_up ≡ true }
        ensures stands { Stands true result self.new.is_up }
        ensures readable { ShowsPages self.old → ShowsPages self.new }
        ensures never { (n place : ℕ) → IsErrOf result (IsDamaged n place) → ShowsPages self.old → ⊥ }
        ensures fault { IfErr result (λ r. (is_fault r ≡ true) × (is_marked r ≡ false)) }
        ensures made { MakesRoom self.old self.new }
        ensures stays { HasRoomFor self.old.held tx commit → self.new ≡ self.old }
        ensures objects { ObjectsTake [] self.old self.new }
        ensures whole { OnOk result (self.new.is_torn ≡ false) }
        ensures left { IfErr result (λ r. (e : Option AnEntry) → Leaves self.old self.new e r) }
        ensures names { IfErr result (λ r. repo_named self.old.held.repo r ≡ self.old.held.repo) }
        ensures stopped { (n : ℕ) → IsErrOf result (IsStopped n) → HasFailed (faults_of self.old) (faults_of self.new) }
        ensures page { (n place : ℕ) → IsErrOf result (IsDamaged n place) → (page : ℕ) × IsPageDamage self.new page place }
        ensures steady { OnOk result (self.new.faults ≡ self.old.faults) }
        ensures quiet { IfErr result (λ r. is_stopped r ≡ false → self.new.faults ≡ self.old.faults) }
        ensures faults { NoFewer (faults_of self.old) (faults_of self.new) }
        ensures clock { self.new.clock ≡ self.old.clock }
        ensures opened { self.new.opened_in ≡ self.old.opened_in }
    {
        if commit {
            make_room_for(&mut self.stable, tx)
        } else {
            Ok(())
        }
    }
}

#[tactic(auto, using(repo_durable::proofs::Failing::fewer_none, repo_durable::proofs::Counting::stays_none, repo_durable::proofs::Counting::stays_then, repo_durable::proofs::Flushes::flushed_none, repo_durable::proofs::Mapping::moves_itself))]
fn make_room<P: Parts>(stable: &mut Stable<P>, writes: &Writes) -> Result<(), Refusal>
    requires kept { IsKept P.disks stable.old }
    requires says { IsSaid P.disks stable.old }
    requires up { is_up stable.old ≡ true }
    requires fits { AllByRecursion CanStand writes.now }
    ensures kept { IsKept P.disks stable.new }
    ensures readable { HasPages P.disks stable.old → HasPages P.disks stable.new }
    ensures never { (n place : ℕ) → IsErrOf result (IsDamaged n place) → HasPages P.disks stable.old → ⊥ }
    ensures says { IsSaid P.disks stable.new }
    ensures stands { Stands true result (is_up stable.new) }
    ensures fault { IfErr result (λ r. (is_fault r ≡ true) × (is_marked r ≡ false)) }
    ensures held { MovesObjects (held_of stable.old) (held_of stable.new) }
    ensures flushed { HasFlushed (held_of stable.old).objects.mob.objects (held_of stable.new).objects.mob.objects }
    ensures limit { (held_of stable.new).objects.mob.limit ≡ (held_of stable.old).objects.mob.limit }
    ensures stays { HasRoom (held_of stable.old) writes.now → stable.new ≡ stable.old }
    ensures map { StoreMoves P.disks [] stable.old stable.new }
    ensures rests { OnErr result (RestsWith None stable.new) }
    ensures names { IfErr result (λ r. repo_named (held_of stable.old).repo r ≡ (held_of stable.old).repo) }
    ensures stopped { (n : ℕ) → IsErrOf result (IsStopped n) → HasFailed (disks_of P.disks stable.old).faults (disks_of P.disks stable.new).faults }
    ensures page { (n place : ℕ) → IsErrOf result (IsDamaged n place) → (page : ℕ) × IsDamage (disks_of P.disks stable.new) (held_of stable.new).objects.pages.sides page place }
    ensures steady { OnOk result (NoFault (disks_of P.disks stable.old) (disks_of P.disks stable.new)) }
    ensures quiet { IfErr result (λ r. is_stopped r ≡ false → NoFault (disks_of P.disks stable.old) (disks_of P.disks stable.new)) }
    ensures faults { NoFewer (disks_of P.disks stable.old).faults (disks_of P.disks stable.new).faults }
    ensures clock { (disks_of P.disks stable.new).clock ≡ (disks_of P.disks stable.old).clock }
{
    if fits(stable.held(), writes) {
        return Ok(());
    }
    flush_for(stable, writes)
}

/// Flushes pages until the buffer keeps its limit with these writes, or it is empty.
#[tactic(auto, using(repo_durable::proofs::Failing::fewer_none, repo_durable::proofs::Counting::stays_none, repo_durable::proofs::Counting::stays_then, repo_durable::proofs::Counting::err_behind, repo_durable::proofs::Failing::fewer_then, repo_durable::proofs::Failing::failed_behind, repo_durable::proofs::Flushes::flushed_none, repo_durable::proofs::Flushes::flushed_then, repo_durable::proofs::Flushes::flushed_same, repo_durable::proofs::Mapping::moves_itself, crate::proofs::Objects::moves_next))]
fn flush_for<P: Parts>(stable: &mut Stable<P>, writes: &Writes) -> Result<(), Refusal>
    requires kept { IsKept P.disks stable.old }
    requires says { IsSaid P.disks stable.old }
    requires up { is_up stable.old ≡ true }
    requires fits { AllByRecursion CanStand writes.now }
    ensures kept { IsKept P.disks stable.new }
    ensures readable { HasPages P.disks stable.old → HasPages P.disks stable.new }
    ensures never { (n place : ℕ) → IsErrOf result (IsDamaged n place) → HasPages P.disks stable.old → ⊥ }
    ensures says { IsSaid P.disks stable.new }
    ensures stands { Stands true result (is_up stable.new) }
    ensures fault { IfErr result (λ r. (is_fault r ≡ true) × (is_marked r ≡ false)) }
    ensures held { MovesObjects (held_of stable.old) (held_of stable.new) }
    ensures flushed { HasFlushed (held_of stable.old).objects.mob.objects (held_of stable.new).objects.mob.objects }
    ensures limit { (held_of stable.new).objects.mob.limit ≡ (held_of stable.old).objects.mob.limit }
    ensures map { StoreMoves P.disks [] stable.old stable.new }
    ensures rests { OnErr result (RestsWith None stable.new) }
    ensures names { IfErr result (λ r. repo_named (held_of stable.old).repo r ≡ (held_of stable.old).repo) }
    ensures stopped { (n : ℕ) → IsErrOf result (IsStopped n) → HasFailed (disks_of P.disks stable.old).faults (disks_of P.disks stable.new).faults }
    ensures page { (n place : ℕ) → IsErrOf result (IsDamaged n place) → (page : ℕ) × IsDamage (disks_of P.disks stable.new) (held_of stable.new).objects.pages.sides page place }
    ensures steady { OnOk result (NoFault (disks_of P.disks stable.old) (disks_of P.disks stable.new)) }
    ensures quiet { IfErr result (λ r. is_stopped r ≡ false → NoFault (disks_of P.disks stable.old) (disks_of P.disks stable.new)) }
    ensures faults { NoFewer (disks_of P.disks stable.old).faults (disks_of P.disks stable.new).faults }
    ensures clock { (disks_of P.disks stable.new).clock ≡ (disks_of P.disks stable.old).clock }
{
    for _ in 0..u32::MAX {
        if let Flushed::Nothing = stable.flush_page()? {
            return Ok(());
        }
        if fits(stable.held(), writes) {
            return Ok(());
        }
    }
    Ok(())
}

/// Flushes pages until the writes of a transaction that is open fit into the buffer, or it is empty.
#[tactic(auto, using(repo_durable::proofs::Failing::fewer_none, repo_durable::proofs::Counting::stays_none, repo_durable::proofs::Counting::stays_then, repo_durable::proofs::Flushes::flushed_none, repo_durable::proofs::Mapping::moves_itself))]
fn make_room_for<P: Parts>(stable: &mut Stable<P>, tx: Ts) -> Result<(), Refusal>
    requires kept { IsKept P.disks stable.old }
    requires says { IsSaid P.disks stable.old }
    requires up { is_up stable.old ≡ true }
    ensures kept { IsKept P.disks stable.new }
    ensures readable { HasPages P.disks stable.old → HasPages P.disks stable.new }
    ensures never { (n place : ℕ) → IsErrOf result (IsDamaged n place) → HasPages P.disks stable.old → ⊥ }
    ensures says { IsSaid P.disks stable.new }
    ensures stands { Stands true result (is_up stable.new) }
    ensures fault { IfErr result (λ r. (is_fault r ≡ true) × (is_marked r ≡ false)) }
    ensures held { MovesObjects (held_of stable.old) (held_of stable.new) }
    ensures flushed { HasFlushed (held_of stable.old).objects.mob.objects (held_of stable.new).objects.mob.objects }
    ensures limit { (held_of stable.new).objects.mob.limit ≡ (held_of stable.old).objects.mob.limit }
    ensures stays { HasRoomFor (held_of stable.old) tx true → stable.new ≡ stable.old }
    ensures map { StoreMoves P.disks [] stable.old stable.new }
    ensures rests { OnErr result (RestsWith None stable.new) }
    ensures names { IfErr result (λ r. repo_named (held_of stable.old).repo r ≡ (held_of stable.old).repo) }
    ensures stopped { (n : ℕ) → IsErrOf result (IsStopped n) → HasFailed (disks_of P.disks stable.old).faults (disks_of P.disks stable.new).faults }
    ensures page { (n place : ℕ) → IsErrOf result (IsDamaged n place) → (page : ℕ) × IsDamage (disks_of P.disks stable.new) (held_of stable.new).objects.pages.sides page place }
    ensures steady { OnOk result (NoFault (disks_of P.disks stable.old) (disks_of P.disks stable.new)) }
    ensures quiet { IfErr result (λ r. is_stopped r ≡ false → NoFault (disks_of P.disks stable.old) (disks_of P.disks stable.new)) }
    ensures faults { NoFewer (disks_of P.disks stable.old).faults (disks_of P.disks stable.new).faults }
    ensures clock { (disks_of P.disks stable.new).clock ≡ (disks_of P.disks stable.old).clock }
{
    if fits_open(stable.held(), tx) {
        return Ok(());
    }
    flush_open(stable, tx)
}

#[tactic(auto, using(repo_durable::proofs::Failing::fewer_none, repo_durable::proofs::Counting::stays_none, repo_durable::proofs::Counting::stays_then, repo_durable::proofs::Counting::err_behind, repo_durable::proofs::Failing::fewer_then, repo_durable::proofs::Failing::failed_behind, repo_durable::proofs::Flushes::flushed_none, repo_durable::proofs::Flushes::flushed_then, repo_durable::proofs::Flushes::flushed_same, repo_durable::proofs::Mapping::moves_itself, crate::proofs::Objects::moves_next))]
fn flush_open<P: Parts>(stable: &mut Stable<P>, tx: Ts) -> Result<(), Refusal>
    requires kept { IsKept P.disks stable.old }
    requires says { IsSaid P.disks stable.old }
    requires up { is_up stable.old ≡ true }
    ensures kept { IsKept P.disks stable.new }
    ensures readable { HasPages P.disks stable.old → HasPages P.disks stable.new }
    ensures never { (n place : ℕ) → IsErrOf result (IsDamaged n place) → HasPages P.disks stable.old → ⊥ }
    ensures says { IsSaid P.disks stable.new }
    ensures stands { Stands true result (is_up stable.new) }
    ensures fault { IfErr result (λ r. (is_fault r ≡ true) × (is_marked r ≡ false)) }
    ensures held { MovesObjects (held_of stable.old) (held_of stable.new) }
    ensures flushed { HasFlushed (held_of stable.old).objects.mob.objects (held_of stable.new).objects.mob.objects }
    ensures limit { (held_of stable.new).objects.mob.limit ≡ (held_of stable.old).objects.mob.limit }
    ensures map { StoreMoves P.disks [] stable.old stable.new }
    ensures rests { OnErr result (RestsWith None stable.new) }
    ensures names { IfErr result (λ r. repo_named (held_of stable.old).repo r ≡ (held_of stable.old).repo) }
    ensures stopped { (n : ℕ) → IsErrOf result (IsStopped n) → HasFailed (disks_of P.disks stable.old).faults (disks_of P.disks stable.new).faults }
    ensures page { (n place : ℕ) → IsErrOf result (IsDamaged n place) → (page : ℕ) × IsDamage (disks_of P.disks stable.new) (held_of stable.new).objects.pages.sides page place }
    ensures steady { OnOk result (NoFault (disks_of P.disks stable.old) (disks_of P.disks stable.new)) }
    ensures quiet { IfErr result (λ r. is_stopped r ≡ false → NoFault (disks_of P.disks stable.old) (disks_of P.disks stable.new)) }
    ensures faults { NoFewer (disks_of P.disks stable.old).faults (disks_of P.disks stable.new).faults }
    ensures clock { (disks_of P.disks stable.new).clock ≡ (disks_of P.disks stable.old).clock }
{
    for _ in 0..u32::MAX {
        if let Flushed::Nothing = stable.flush_page()? {
            return Ok(());
        }
        if fits_open(stable.held(), tx) {
            return Ok(());
        }
    }
    Ok(())
}

/// Whether the buffer keeps its limit with these writes.
fn fits(held: &HeldState, writes: &Writes) -> bool
    requires { AllByRecursion CanStand writes.now }
    ensures { HasRoom held.now writes.now → result ≡ true }
{
    let mob = held.objects().mob();
    mob.bytes_with(writes) <= u64::from(mob.limit())
}

/// Whether it does so with those of a transaction that is open.
fn fits_open(held: &HeldState, tx: Ts) -> bool
    requires { Keeps held.now }
    ensures { HasRoomFor held.now tx true → result ≡ true }
{
    match held.table().open_request(tx) {
        Some(request) => fits(held, &request.writes),
        None => true,
    }
}
