//! A repository is restarted.

ghost use Rattle.std.specs.Prelude.{◌≡◌, ◌+◌, ◌<◌, ◌≤◌, IfErr, IsErrOf, IsTrue, OnErr, OnOk, false, true, Some, ℕ, []};
ghost use Rattle.log_entries.specs.declared.entry.Entry.TheVariants.{Life as ALife};
ghost use Rattle.repo_sessions.specs.Sessions.{ended};
ghost use Rattle.log_codec.specs.Grammar.{BodyFits};
ghost use Rattle.log_codec.specs.declared.body.Body.TheVariants.{Entry as AnEntry};
ghost use Rattle.repo_core.specs.Objects.{ObjectsTake};
ghost use Rattle.repo_core.specs.Behind.{IsRecovered, IsRestarted, Stands, is_marked};
ghost use Rattle.repo_core.specs.Shown.{faults_of, ShowsPages};
ghost use Rattle.repo_durable.specs.Failing.{HasFailed, NoFewer, is_stopped};
ghost use Rattle.repo_durable.specs.Kept.{IsKept, disks_of, held_of, is_fault, is_torn, is_up, parts_in};
ghost use Rattle.repo_durable.specs.Saying.{IsAhead, IsSaid};
ghost use Rattle.repo_trace.specs.Recorded.{with_entry};
ghost use Rattle.repo_core.specs.Restarting.{AllTold, ComesUp, DropsEarlier, LetsGo, StaysDown, Takes, TakesNone, life_behind};
ghost use Rattle.repo_core.specs.Moving.{Falls};
ghost use Rattle.repo_core.specs.Refusing.{GoesDown};
ghost use Rattle.law_repo_memory.specs.Running.{came_with};
ghost use Rattle.law_repo_memory.specs.Coming.{BeginsLife};
ghost use Rattle.repo_state.specs.Entering.{can_enter, entered};
ghost use Rattle.repo_refusals.specs.declared.refusal.Refusal.TheVariants.{Damaged as IsDamaged, NoMemory as IsNoMemory, Stopped as IsStopped};
ghost use Rattle.repo_volatile.specs.Volatile.{Outlasts};
ghost use Rattle.repo_durable.specs.Pages.{HasPages};

use crate::repo::Repo;
use crate::writing::{note, record};
use disk_trait::Parts;
use log_entries::Entry;
use repo_durable::{Stable, Taken};
use repo_refusals::Refusal;
use repo_trace::Recorder;
use repo_volatile::Memory;
use thor_value::Ts;

impl<P: Parts> Repo<P> {
    /// Takes the repository down where it is up, crashes its disks, recovers from them, and writes a Life.
    ///
    /// What is recovered has to agree with what is in memory, or with that and the entry that was being
    /// written; else the answer is `Damaged`, as it is where a log disk has no log of this repository. It comes
    /// only where some disk doesn't tell its bytes. All sessions end. Decisions of earlier openings are kept no
    /// longer. After a refusal the repository is down, with the entry pending that was so, or with the Life; where there was no
    /// memory for the entry, which its disks have, it is torn.
    pub fn restart(&mut self, pick: u64) -> Result<(), Refusal>
        ensures up { OnOk result (self.new.is_up ≡ true) }
        ensures readable { ShowsPages self.old → ShowsPages self.new }
        ensures down { OnErr result (self.new.is_up ≡ false) }
        ensures fault { IfErr result (λ r. is_fault r ≡ true) }
        ensures ended { OnOk result (self.new.memory.sessions ≡ ended self.old.memory.sessions) }
        ensures trace { OnOk result (IsRestarted self.old.trace self.new.trace) }
        ensures refused { OnErr result (IsRecovered self.old.trace self.new.trace) }
        ensures comes_up { OnOk result (ComesUp self.old self.new) }
        ensures stays_down { OnErr result (StaysDown self.old self.new) }
        ensures stopped { (n : ℕ) → IsErrOf result (IsStopped n) → HasFailed (faults_of self.old) (faults_of self.new) }
        ensures counts { NoFewer (faults_of self.old) (faults_of self.new) }
        ensures steady { OnOk result (self.new.faults ≡ self.old.faults) }
        ensures quiet { IfErr result (λ r. is_stopped r ≡ false → self.new.faults ≡ self.old.faults) }
        ensures torn { self.old.is_torn ≡ true → IsErrOf result IsNoMemory × (self.new ≡ self.old) }
        ensures clock { self.old.clock ≤ self.new.clock }
        ensures damaged { (n place : ℕ) → IsErrOf result (IsDamaged n place) → AllTold self.old → ⊥ }
        ensures opened { self.new.opened_in ≡ self.old.opened_in }
    {
        self.take_over(pick)?;
        self.drop_decisions();
        self.write_life()
    }

    /// Takes what the disks have, where it is what is held, or that with the pending entry.
    #[tactic(auto, using(crate::proofs::Taking::down_with_it))]
    fn take_over(&mut self, pick: u64) -> Result<(), Refusal>
        ensures up { OnOk result (self.new.is_up ≡ true) }
        ensures readable { ShowsPages self.old → ShowsPages self.new }
        ensures down { OnErr result (self.new.is_up ≡ false) }
        ensures fault { IfErr result (λ r. is_fault r ≡ true) }
        ensures takes { OnOk result (Takes self.old self.new) }
        ensures none { OnErr result (TakesNone self.old self.new) }
        ensures whole { OnOk result (self.new.is_torn ≡ false) }
        ensures stopped { (n : ℕ) → IsErrOf result (IsStopped n) → HasFailed (faults_of self.old) (faults_of self.new) }
        ensures steady { OnOk result (self.new.faults ≡ self.old.faults) }
        ensures quiet { IfErr result (λ r. is_stopped r ≡ false → self.new.faults ≡ self.old.faults) }
        ensures torn { self.old.is_torn ≡ true → IsErrOf result IsNoMemory × (self.new ≡ self.old) }
        ensures clock { self.old.clock ≤ self.new.clock }
        ensures faults { NoFewer (faults_of self.old) (faults_of self.new) }
        ensures damaged { (n place : ℕ) → IsErrOf result (IsDamaged n place) → AllTold self.old → ⊥ }
        ensures opened { self.new.opened_in ≡ self.old.opened_in }
    {
        match self.stable.restart(self.alloc, pick)? {
            Taken::Held => Ok(()),
            Taken::Pending(entry) => {
                take_pending(&mut self.stable, &mut self.memory, &mut self.trace, entry)
            }
        }
    }

    /// Begins the next life.
    #[tactic(auto, using(crate::proofs::Readable::shown_has, crate::proofs::Refused::falls_with, crate::proofs::Refused::moved_none, crate::proofs::Refused::lasts_same, crate::proofs::Failing::fewer_same, crate::proofs::Objects::objects_held))]
    pub(crate) fn write_life(&mut self) -> Result<(), Refusal>
        requires { self.old.is_up ≡ true }
        ensures stands { Stands true result self.new.is_up }
        ensures readable { ShowsPages self.old → ShowsPages self.new }
        ensures fault { IfErr result (λ r. is_fault r ≡ true) }
        ensures ended { OnOk result (self.new.memory.sessions ≡ ended self.old.memory.sessions) }
        ensures trace { OnOk result (self.new.trace ≡ with_entry self.old.trace (ALife (self.old.held.life + 1))) }
        ensures refused { OnErr result (self.new.trace ≡ self.old.trace) }
        ensures held { OnOk result (self.new.held ≡ entered self.old.held (life_behind self.old)) }
        ensures begins { OnOk result (BeginsLife self.old.held self.old.memory self.new.memory) }
        ensures objects { ObjectsTake [] self.old self.new }
        ensures left { OnErr result (GoesDown self.old self.new (Some (life_behind self.old))) }
        ensures stopped { (n : ℕ) → IsErrOf result (IsStopped n) → HasFailed (faults_of self.old) (faults_of self.new) }
        ensures counts { NoFewer (faults_of self.old) (faults_of self.new) }
        ensures steady { OnOk result (self.new.faults ≡ self.old.faults) }
        ensures quiet { IfErr result (λ r. is_stopped r ≡ false → self.new.faults ≡ self.old.faults) }
        ensures pages { self.new.pages ≡ self.old.pages }
        ensures clock { self.new.clock ≡ self.old.clock }
        ensures damaged { (n place : ℕ) → IsErrOf result (IsDamaged n place) → ⊥ }
        ensures opened { self.new.opened_in ≡ self.old.opened_in }
    {
        match self.stable.held().life().checked_add(1) {
            Some(life) => {
                self.write(Entry::Life { life })?;
                Ok(())
            }
            None => {
                self.stable.take_down();
                Err(Refusal::NoMemory)
            }
        }
    }

    /// Lets go of the kept decisions of earlier openings: what they left is settled.
    #[tactic(auto, using(crate::proofs::Readable::shown_has))]
    pub(crate) fn drop_decisions(&mut self)
        requires { self.old.is_up ≡ true }
        ensures up { self.new.is_up ≡ self.old.is_up }
        ensures readable { ShowsPages self.old → ShowsPages self.new }
        ensures life { self.new.held.life ≡ self.old.held.life }
        ensures memory { self.new.memory ≡ self.old.memory }
        ensures trace { self.new.trace ≡ self.old.trace }
        ensures held { DropsEarlier self.old self.new }
        ensures pending { self.new.pending ≡ self.old.pending }
        ensures torn { self.new.is_torn ≡ self.old.is_torn }
        ensures pages { self.new.pages ≡ self.old.pages }
        ensures clock { self.new.clock ≡ self.old.clock }
        ensures faults { self.new.faults ≡ self.old.faults }
        ensures opened { self.new.opened_in ≡ self.old.opened_in }
    {
        forget_before(&mut self.stable, self.opened_in);
    }
}

/// Takes the pending entry, which the disks have. The objects that were found have what it writes already, so without memory for it
/// the repository is torn.
#[tactic(auto, using(crate::proofs::Entered::falls_torn, repo_volatile::proofs::Lasting::lasts_itself))]
fn take_pending<P: Parts>(
    stable: &mut Stable<P>,
    memory: &mut Memory,
    trace: &mut Recorder,
    entry: Entry,
) -> Result<(), Refusal>
    requires fits { BodyFits (AnEntry entry) }
    requires takes { IsTrue (can_enter (held_of stable.old) entry) }
    requires up { is_up stable.old ≡ true }
    requires kept { IsKept P.disks stable.old }
    requires ahead { IsAhead P.disks stable.old entry }
    ensures kept { IsKept P.disks stable.new }
    ensures readable { HasPages P.disks stable.old → HasPages P.disks stable.new }
    ensures says { IsSaid P.disks stable.new }
    ensures stands { Stands true result (is_up stable.new) }
    ensures fault { IfErr result (λ r. is_fault r ≡ true) }
    ensures sessions { memory.new.sessions ≡ memory.old.sessions }
    ensures lasts { Outlasts memory.old memory.new }
    ensures limit { OnOk result ((held_of stable.new).objects.mob.limit ≡ (held_of stable.old).objects.mob.limit) }
    ensures trace { OnOk result (trace.new ≡ with_entry trace.old entry) }
    ensures refused { OnErr result (trace.new ≡ trace.old) }
    ensures held { OnOk result (held_of stable.new ≡ entered (held_of stable.old) entry) }
    ensures requested { OnOk result (memory.new.requested ≡ came_with memory.old.requested entry) }
    ensures left { OnErr result (Falls stable.old stable.new entry) }
    ensures torn { OnErr result (is_torn stable.new ≡ true) }
    ensures refusal { IfErr result (λ r. r ≡ IsNoMemory) }
    ensures pages { (disks_of P.disks stable.new).content 2 ≡ (disks_of P.disks stable.old).content 2 }
    ensures clock { (disks_of P.disks stable.new).clock ≡ (disks_of P.disks stable.old).clock }
    ensures faults { (d : ℕ) → (disks_of P.disks stable.new).faults d ≡ (disks_of P.disks stable.old).faults d }
{
    if note(memory, &entry).is_err() {
        stable.fail_with(entry);
        return Err(Refusal::NoMemory);
    }
    record(stable, trace, entry, Ok(()))?;
    Ok(())
}

/// Forgets the kept decisions of transactions of earlier lives than this one.
#[tactic(auto, using(repo_durable::proofs::Readable::tabled_has))]
fn forget_before<P: Parts>(stable: &mut Stable<P>, life: u32)
    requires kept { IsKept P.disks stable.old }
    requires up { is_up stable.old ≡ true }
    requires says { IsSaid P.disks stable.old }
    ensures kept { IsKept P.disks stable.new }
    ensures readable { HasPages P.disks stable.old → HasPages P.disks stable.new }
    ensures says { IsSaid P.disks stable.new }
    ensures up { is_up stable.new ≡ is_up stable.old }
    ensures life { (held_of stable.new).life ≡ (held_of stable.old).life }
    ensures phase { stable.new.phase ≡ stable.old.phase }
    ensures parts { parts_in stable.new ≡ parts_in stable.old }
    ensures held { held_of stable.new ≡ record (held_of stable.old) { table = (held_of stable.new).table } }
    ensures go { LetsGo life (held_of stable.old).table (held_of stable.new).table }
{
    let mut after = None;
    for _ in 0..u32::MAX {
        let Some(tx) = stable.held().table().next_kept(after) else {
            return;
        };
        forget_earlier(stable, tx, life);
        after = Some(tx);
    }
}

/// Forgets a kept decision, where its transaction is of an earlier life than this one.
#[tactic(auto, using(crate::proofs::Letting::goes_itself, repo_durable::proofs::Readable::tabled_has))]
fn forget_earlier<P: Parts>(stable: &mut Stable<P>, tx: Ts, life: u32)
    requires kept { IsKept P.disks stable.old }
    requires up { is_up stable.old ≡ true }
    requires says { IsSaid P.disks stable.old }
    ensures kept { IsKept P.disks stable.new }
    ensures readable { HasPages P.disks stable.old → HasPages P.disks stable.new }
    ensures says { IsSaid P.disks stable.new }
    ensures phase { stable.new.phase ≡ stable.old.phase }
    ensures parts { parts_in stable.new ≡ parts_in stable.old }
    ensures held { held_of stable.new ≡ record (held_of stable.old) { table = (held_of stable.new).table } }
    ensures go { LetsGo life (held_of stable.old).table (held_of stable.new).table }
{
    if tx.life < life {
        forget_one(stable, tx, life);
    }
}

/// Forgets a kept decision of a transaction of an earlier life than this one.
#[tactic(auto, using(crate::proofs::Letting::one_goes_in, crate::proofs::Letting::table_alone, repo_durable::proofs::Readable::tabled_has))]
fn forget_one<P: Parts>(stable: &mut Stable<P>, tx: Ts, life: u32)
    requires kept { IsKept P.disks stable.old }
    requires up { is_up stable.old ≡ true }
    requires says { IsSaid P.disks stable.old }
    requires earlier { tx.life < life }
    ensures kept { IsKept P.disks stable.new }
    ensures readable { HasPages P.disks stable.old → HasPages P.disks stable.new }
    ensures says { IsSaid P.disks stable.new }
    ensures phase { stable.new.phase ≡ stable.old.phase }
    ensures parts { parts_in stable.new ≡ parts_in stable.old }
    ensures held { held_of stable.new ≡ record (held_of stable.old) { table = (held_of stable.new).table } }
    ensures go { LetsGo life (held_of stable.old).table (held_of stable.new).table }
{
    stable.forget(tx);
}
