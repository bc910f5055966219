//! How a repository that is down comes up.

ghost use Rattle.disk_trait.specs.AllDisks.{NoFault};
ghost use Rattle.std.specs.Prelude.{◌≡◌, ◌⊎◌, IfErr, IfOk, IsErrOf, List, OnErr, OnOk, Option, [], false, true, ℕ};
ghost use Rattle.log_entries.specs.declared.entry.Entry.{Entry as AnyEntry};
ghost use Rattle.disk_trait.specs.AllDisks.{GoesOn, SameContent, TellsAll};
ghost use Rattle.disk_trait.specs.Disks.{WhereTold};
ghost use Rattle.repo_state.specs.Keeps.{Keeps};
ghost use Rattle.repo_state.specs.Said.{said};
ghost use Rattle.page_format.specs.declared.format.StoreFormat.TheVariants.{One};
ghost use Rattle.page_store.specs.Sides.{ReachesSides};
ghost use Rattle.recovery.specs.Found.{recorded};
ghost use Rattle.repo_durable.specs.Agreeing.{CanEnter, IsTaken};
ghost use Rattle.disk_trait.specs.Fused.{armed};
ghost use Rattle.repo_durable.specs.Failing.{HasFailed, NoneFell, is_stopped};
ghost use Rattle.repo_durable.specs.Kept.{IsKept, IsOpen, IsResting, disks_of, held_of, is_fault, is_torn, is_up, lowered, parts_in, pending};
ghost use Rattle.repo_durable.specs.Agreeing.{held_behind, numbers_of};
ghost use Rattle.repo_durable.specs.Mapping.{StoreMoves, taken_writes};
ghost use Rattle.repo_durable.specs.Pages.{ArePages, HasPages, PagesTold};
ghost use Rattle.repo_durable.specs.Saying.{FindsOneOf, ImagesSay, IsOneOf, IsSaid, LeavesNoMore, ReadIsLeft, SaysTaken};
ghost use Rattle.repo_durable.specs.declared.fault.OpenCause.TheVariants.{Failed as DiskFailed};
ghost use Rattle.repo_durable.specs.declared.stable.Phase.TheVariants.{Down as IsDown, Up as IsUp};
ghost use Rattle.repo_durable.specs.Taking.{AgreesWhere, CanTake, TakesFrom};
ghost use Rattle.commit_log.specs.Holds.{Holds};
ghost use Rattle.repo_refusals.specs.declared.refusal.Refusal.TheVariants.{Damaged as IsDamaged, NoMemory as IsNoMemory, Stopped as IsStopped};

use crate::agreement::{Agreement, compare};
use crate::fault::{OpenCause, OpenFault, of_outage, of_recovery};
use crate::reach::reaches;
use crate::stable::{Phase, Stable};
use commit_log::CommitLog;
use disk_trait::{Outage, Parts, content_is_left, restart_all};
use log_entries::Entry;
use page_format::StoreFormat;
use recovery::{Recovered, recover};
use repo_refusals::Refusal;
use repo_state::HeldState;
use std::alloc::Global;
use std::mem;

/// What a repository came up with.
#[derive(Drop)]
pub enum Taken {
    /// With what was in memory.
    Held,
    /// With the entry that was pending, too. It is still to be entered.
    Pending(Entry),
}

impl<P: Parts> Stable<P> {
    /// A repository of what was recovered from its disks, which is up. `Changed` where its disk of pages doesn't reach the
    /// installed sides any more.
    pub fn open(mut parts: P, recovered: Recovered) -> Result<Stable<P>, OpenFault<P>>
        requires holds { Holds (P.disks parts) recovered.log (said recovered.state) }
        requires keeps { Keeps recovered.state }
        requires pages { AgreesWhere recovered.state.objects.pages }
        ensures kept { IfOk result (IsKept P.disks) }
        ensures readable { TellsAll (P.disks parts) → WhereTold (P.disks parts) 2 (ArePages recovered.state.objects.pages.sides) → IfOk result (HasPages P.disks) }
        ensures up { IfOk result (λ stable. is_up stable ≡ true) }
        ensures held { IfOk result (λ stable. held_of stable ≡ recovered.state) }
        ensures says { Holds (P.disks parts) recovered.log (said recovered.state) → IfOk result (IsSaid P.disks) }
        ensures clock { IfOk result (λ stable. (disks_of P.disks stable).clock ≡ (P.disks parts).clock) }
        ensures content { IfOk result (λ stable. SameContent (P.disks parts) (disks_of P.disks stable)) }
        ensures fell { IfOk result (λ stable. NoneFell (P.disks parts).faults (disks_of P.disks stable).faults) }
        ensures failed { IfErr result (λ fault. fault.cause ≡ DiskFailed → HasFailed (P.disks parts).faults (P.disks fault.parts).faults) }
    {
        let Recovered { state, log, .. } = recovered;
        match reaches(&mut parts, state.objects().pages().sides()) {
            Ok(true) => Ok(Stable::new(parts, log, state)),
            Ok(false) => {
                drop(log);
                drop(state);
                Err(OpenFault {
                    parts,
                    cause: OpenCause::Changed,
                })
            }
            Err(Outage::Failed) => {
                drop(log);
                drop(state);
                Err(OpenFault {
                    parts,
                    cause: OpenCause::Failed,
                })
            }
            Err(Outage::NoMemory) => {
                drop(log);
                drop(state);
                Err(OpenFault {
                    parts,
                    cause: OpenCause::NoMemory,
                })
            }
        }
    }

    /// Takes the repository down where it is up, crashes its disks, and takes over their log and objects,
    /// where what they stand for agrees with what is held, or with that and the pending entry. Otherwise it
    /// stays down, with the entry pending that was so. `Damaged` only where some disk doesn't tell its bytes.
    /// Want of memory, too, where there was none for an entry that its log has: then no disk is called.
    pub fn restart(&mut self, alloc: Global, pick: u64) -> Result<Taken, Refusal>
        requires kept { IsKept P.disks self.old }
        ensures kept { IsKept P.disks self.new }
        ensures readable { IsSaid P.disks self.old → HasPages P.disks self.old → HasPages P.disks self.new }
        ensures up { OnOk result (is_up self.new ≡ true) }
        ensures down { OnErr result (is_up self.new ≡ false) }
        ensures fault { IfErr result (λ r. is_fault r ≡ true) }
        ensures taken { IfOk result CanTake }
        ensures enters { IfOk result (CanEnter (held_of self.new)) }
        ensures held { OnOk result (held_of self.new ≡ record (held_of self.old) { objects = (held_of self.new).objects }) }
        ensures limit { (held_of self.new).objects.mob.limit ≡ (held_of self.old).objects.mob.limit }
        ensures pending { IfOk result (TakesFrom (pending self.old)) }
        ensures agrees { IfOk result (λ taken. IsTaken (disks_of P.disks self.new) (held_of self.old) taken (held_of self.new).objects) }
        ensures rests { OnErr result (held_of self.new ≡ held_of self.old) }
        ensures stays { OnErr result (self.new.phase ≡ lowered self.old.phase) }
        ensures whole { OnOk result (is_torn self.old ≡ false) }
        ensures says { IsSaid P.disks self.old → IfOk result (SaysTaken P.disks self.new) }
        ensures stays_said { IsSaid P.disks self.old → OnErr result (IsSaid P.disks self.new) }
        ensures map { IsSaid P.disks self.old → IfOk result (λ taken. StoreMoves P.disks (taken_writes (held_of self.old) taken) self.old self.new) }
        ensures map_stays { IsSaid P.disks self.old → OnErr result (StoreMoves P.disks [] self.old self.new) }
        ensures goes { GoesOn (disks_of P.disks self.old) (disks_of P.disks self.new) }
        ensures stopped { (r : ℕ) → IsErrOf result (IsStopped r) → HasFailed (disks_of P.disks self.old).faults (disks_of P.disks self.new).faults }
        ensures steady { OnOk result (NoFault (disks_of P.disks self.old) (disks_of P.disks self.new)) }
        ensures quiet { IfErr result (λ r. is_stopped r ≡ false → NoFault (disks_of P.disks self.old) (disks_of P.disks self.new)) }
        ensures torn { is_torn self.old ≡ true → IsErrOf result IsNoMemory × (self.new ≡ record self.old { parts = armed (parts_in self.old) 0 }) }
        ensures damaged { (r place : ℕ) → IsErrOf result (IsDamaged r place) → IsSaid P.disks self.old → TellsAll (disks_of P.disks self.old) → ⊥ }
    {
        self.parts.disarm();
        self.take_down();
        if self.is_torn() {
            return Err(Refusal::NoMemory);
        }
        let recovered = self.recover(alloc, pick)?;
        self.read_is_left();
        match mem::replace(&mut self.phase, Phase::Down { pending: None }) {
            Phase::Up { log } => {
                drop(log);
                drop(recovered);
                Err(Refusal::NoMemory)
            }
            Phase::Down { pending } => self.take_over(recovered, pending),
            Phase::Torn { entry } => {
                drop(recovered);
                self.set_phase(Phase::Torn { entry });
                Err(Refusal::NoMemory)
            }
        }
    }

    /// Whether what is held is no state of its log.
    pub fn is_torn(&self) -> bool
        ensures { result ≡ is_torn self.now }
    {
        match &self.phase {
            Phase::Torn { .. } => true,
            Phase::Up { .. } | Phase::Down { .. } => false,
        }
    }

    /// Crashes the disks and reads what they stand for. They are of the format that is written: a repository that was opened
    /// has been moved into it.
    #[tactic(auto, using(crate::proofs::Returning::more_run, crate::proofs::Returning::more_then))]
    fn recover(&mut self, alloc: Global, pick: u64) -> Result<Recovered, Refusal>
        ensures phase { self.new.phase ≡ self.old.phase }
        ensures held { held_of self.new ≡ held_of self.old }
        ensures limit { IfOk result (λ r. r.state.objects.mob.limit ≡ (held_of self.old).objects.mob.limit) }
        ensures fault { IfErr result (λ r. is_fault r ≡ true) }
        ensures opened { IfOk result (λ r. IsOpen (disks_of P.disks self.new) r.log r.state) }
        ensures left { ReadIsLeft (disks_of P.disks self.old) (disks_of P.disks self.new) }
        ensures stands { IfOk result (λ r. Holds (disks_of P.disks self.new) r.log (said r.state)) }
        ensures crash { LeavesNoMore (disks_of P.disks self.old) (disks_of P.disks self.new) }
        ensures found { IfOk result (λ r. FindsOneOf (disks_of P.disks self.old) (disks_of P.disks self.new) (held_of self.old) (said r.state)) }
        ensures goes { GoesOn (disks_of P.disks self.old) (disks_of P.disks self.new) }
        ensures stopped { (r : ℕ) → IsErrOf result (IsStopped r) → HasFailed (disks_of P.disks self.old).faults (disks_of P.disks self.new).faults }
        ensures steady { OnOk result (NoFault (disks_of P.disks self.old) (disks_of P.disks self.new)) }
        ensures quiet { IfErr result (λ r. is_stopped r ≡ false → NoFault (disks_of P.disks self.old) (disks_of P.disks self.new)) }
        ensures damaged { (r place : ℕ) → IsErrOf result (IsDamaged r place) → (pending : Option AnyEntry) → ImagesSay (disks_of P.disks self.old) (held_of self.old) pending → TellsAll (disks_of P.disks self.old) → ⊥ }
    {
        let repo = self.repo();
        let mob_limit = self.held.objects().mob().limit();
        if let Err(outage) = restart_all(&mut self.parts, pick) {
            self.read_is_left();
            return Err(of_outage(repo, outage));
        }
        let found = recover(alloc, &mut self.parts, mob_limit);
        content_is_left(&self.parts);
        match found {
            Ok(Some(recovered)) => self.current(recovered),
            Ok(None) => Err(Refusal::Damaged { repo, place: 0 }),
            Err(fault) => Err(of_recovery(repo, fault)),
        }
    }

    /// What was recovered, where it is of the format that is written and the disk of pages reaches the installed sides.
    fn current(&mut self, recovered: Recovered) -> Result<Recovered, Refusal>
        requires stands { Holds (disks_of P.disks self.old) recovered.log (recorded recovered) }
        requires keeps { Keeps recovered.state }
        requires pages { AgreesWhere recovered.state.objects.pages }
        ensures phase { self.new.phase ≡ self.old.phase }
        ensures held { held_of self.new ≡ held_of self.old }
        ensures limit { IfOk result (λ r. r.state.objects.mob.limit ≡ recovered.state.objects.mob.limit) }
        ensures fault { IfErr result (λ r. is_fault r ≡ true) }
        ensures opened { IfOk result (λ r. IsOpen (disks_of P.disks self.new) r.log r.state) }
        ensures content { SameContent (disks_of P.disks self.old) (disks_of P.disks self.new) }
        ensures stands { IfOk result (λ r. Holds (disks_of P.disks self.new) r.log (said r.state)) }
        ensures crash { LeavesNoMore (disks_of P.disks self.old) (disks_of P.disks self.new) }
        ensures same { IfOk result (λ r. said r.state ≡ recorded recovered) }
        ensures goes { GoesOn (disks_of P.disks self.old) (disks_of P.disks self.new) }
        ensures stopped { (r : ℕ) → IsErrOf result (IsStopped r) → HasFailed (disks_of P.disks self.old).faults (disks_of P.disks self.new).faults }
        ensures steady { OnOk result (NoFault (disks_of P.disks self.old) (disks_of P.disks self.new)) }
        ensures quiet { IfErr result (λ r. is_stopped r ≡ false → NoFault (disks_of P.disks self.old) (disks_of P.disks self.new)) }
        ensures damaged { (r place : ℕ) → IsErrOf result (IsDamaged r place) → (recovered.format ≡ One) ⊎ WhereTold (disks_of P.disks self.old) 2 (λ disk. ReachesSides recovered.state.objects.pages.sides disk → ⊥) }
    {
        let repo = self.repo();
        match recovered.format {
            StoreFormat::Two => self.reached(recovered),
            StoreFormat::One => {
                drop(recovered);
                Err(Refusal::Damaged { repo, place: 0 })
            }
        }
    }

    /// What was recovered, where the disk of pages reaches the installed sides.
    #[tactic(auto, using(crate::proofs::Returning::more_read))]
    fn reached(&mut self, recovered: Recovered) -> Result<Recovered, Refusal>
        requires stands { Holds (disks_of P.disks self.old) recovered.log (said recovered.state) }
        requires keeps { Keeps recovered.state }
        requires pages { AgreesWhere recovered.state.objects.pages }
        ensures phase { self.new.phase ≡ self.old.phase }
        ensures held { held_of self.new ≡ held_of self.old }
        ensures limit { IfOk result (λ r. r.state.objects.mob.limit ≡ recovered.state.objects.mob.limit) }
        ensures fault { IfErr result (λ r. is_fault r ≡ true) }
        ensures opened { IfOk result (λ r. IsOpen (disks_of P.disks self.new) r.log r.state) }
        ensures content { SameContent (disks_of P.disks self.old) (disks_of P.disks self.new) }
        ensures stands { IfOk result (λ r. Holds (disks_of P.disks self.new) r.log (said r.state)) }
        ensures crash { LeavesNoMore (disks_of P.disks self.old) (disks_of P.disks self.new) }
        ensures same { IfOk result (λ r. r.state ≡ recovered.state) }
        ensures goes { GoesOn (disks_of P.disks self.old) (disks_of P.disks self.new) }
        ensures stopped { (r : ℕ) → IsErrOf result (IsStopped r) → HasFailed (disks_of P.disks self.old).faults (disks_of P.disks self.new).faults }
        ensures steady { OnOk result (NoFault (disks_of P.disks self.old) (disks_of P.disks self.new)) }
        ensures quiet { IfErr result (λ r. is_stopped r ≡ false → NoFault (disks_of P.disks self.old) (disks_of P.disks self.new)) }
        ensures damaged { (r place : ℕ) → IsErrOf result (IsDamaged r place) → WhereTold (disks_of P.disks self.old) 2 (λ disk. ReachesSides recovered.state.objects.pages.sides disk → ⊥) }
    {
        let repo = self.repo();
        match reaches(&mut self.parts, recovered.state.objects().pages().sides()) {
            Ok(true) => Ok(recovered),
            Ok(false) => {
                drop(recovered);
                Err(Refusal::Damaged { repo, place: 0 })
            }
            Err(outage) => {
                drop(recovered);
                Err(of_outage(repo, outage))
            }
        }
    }

    /// Takes the log and the objects over. The rest is in memory, up to the pending entry.
    fn take_over(&mut self, recovered: Recovered, pending: Option<Entry>) -> Result<Taken, Refusal>
        requires opened { IsOpen (disks_of P.disks self.old) recovered.log recovered.state }
        requires stands { Holds (disks_of P.disks self.old) recovered.log (said recovered.state) }
        requires rests { IsResting (held_of self.old) pending }
        requires limit { recovered.state.objects.mob.limit ≡ (held_of self.old).objects.mob.limit }
        ensures kept { IsKept P.disks self.new }
        ensures readable { PagesTold false recovered.state.objects.pages.sides (disks_of P.disks self.old) → PagesTold false (held_of self.old).objects.pages.sides (disks_of P.disks self.old) → HasPages P.disks self.new }
        ensures up { OnOk result (is_up self.new ≡ true) }
        ensures down { OnErr result (is_up self.new ≡ false) }
        ensures fault { IfErr result (λ r. is_fault r ≡ true) }
        ensures taken { IfOk result CanTake }
        ensures enters { IfOk result (CanEnter (held_of self.new)) }
        ensures held { OnOk result (held_of self.new ≡ record (held_of self.old) { objects = (held_of self.new).objects }) }
        ensures limit { (held_of self.new).objects.mob.limit ≡ (held_of self.old).objects.mob.limit }
        ensures pending { IfOk result (TakesFrom pending) }
        ensures agrees { IfOk result (λ taken. IsTaken (disks_of P.disks self.new) (held_of self.old) taken (held_of self.new).objects) }
        ensures rests { OnErr result (held_of self.new ≡ held_of self.old) }
        ensures stays { OnErr result (self.new.phase ≡ IsDown pending) }
        ensures says { (TellsAll (disks_of P.disks self.old) → WhereTold (disks_of P.disks self.old) 2 (IsOneOf (held_of self.old) pending (said recovered.state))) → IfOk result (SaysTaken P.disks self.new) }
        ensures objects { OnOk result ((held_of self.new).objects ≡ recovered.state.objects) }
        ensures numbers { IfOk result (λ taken. numbers_of recovered.state ≡ numbers_of (held_behind (held_of self.old) taken)) }
        ensures parts { self.new.parts ≡ self.old.parts }
        ensures stopped { (r : ℕ) → IsErrOf result (IsStopped r) → ⊥ }
        ensures damaged { (r place : ℕ) → IsErrOf result (IsDamaged r place) → (image : List ℕ) → IsOneOf (held_of self.old) pending (said recovered.state) image → ⊥ }
    {
        let Recovered { state, log, .. } = recovered;
        let agrees = compare(&self.held, &pending, &state);
        match (agrees, pending) {
            (Agreement::AsHeld, pending) => {
                drop(pending);
                self.come_up(state, log);
                Ok(Taken::Held)
            }
            (Agreement::WithPending, Some(entry)) => {
                self.come_up(state, log);
                Ok(Taken::Pending(entry))
            }
            (_, pending) => {
                drop(state);
                drop(log);
                self.set_phase(Phase::Down { pending });
                Err(Refusal::Damaged {
                    repo: self.repo(),
                    place: 0,
                })
            }
        }
    }

    /// Comes up with recovered objects, and their log.
    fn come_up(&mut self, state: HeldState, log: CommitLog)
        requires repo { state.repo ≡ (held_of self.old).repo }
        requires opened { IsOpen (disks_of P.disks self.old) log state }
        requires keeps { Keeps (held_of self.old) }
        ensures kept { IsKept P.disks self.new }
        ensures up { is_up self.new ≡ true }
        ensures held { held_of self.new ≡ record (held_of self.old) { objects = (held_of self.new).objects } }
        ensures objects { (held_of self.new).objects ≡ state.objects }
        ensures phase { self.new.phase ≡ IsUp log }
        ensures parts { self.new.parts ≡ self.old.parts }
    {
        self.held.take_objects(state);
        self.set_phase(Phase::Up { log });
    }
}
