//! What of a repository outlives a crash, and what is held in memory of it.

ghost use Rattle.disk_trait.specs.AllDisks.{NoFault};
ghost use Rattle.std.specs.Option.{IfSome, IsNone};
ghost use Rattle.std.specs.Prelude.{◌≡◌, ◌≤◌, IfErr, IfOk, IsErrOf, IsTrue, None, OnErr, OnOk, Some, [], cond, false, max, nat_eq, slice_get, true, ℕ};
ghost use Rattle.disk_trait.specs.AllDisks.{GoesOn, SameContent, TellsAll};
ghost use Rattle.disk_trait.specs.Disks.{Disks, SameDisks, WhereTold};
ghost use Rattle.disk_trait.specs.Fused.{armed, parts_of};
ghost use Rattle.mob_flusher.specs.Images.{ShowsImage};
ghost use Rattle.repo_state.specs.Entering.{can_enter, entered, loaded};
ghost use Rattle.repo_state.specs.Keeps.{Keeps};
ghost use Rattle.repo_state.specs.Said.{said};
ghost use Rattle.log_codec.specs.Grammar.{BodyFits};
ghost use Rattle.log_codec.specs.declared.body.Body.TheVariants.{Entry as AnEntry};
ghost use Rattle.page_store.specs.Objects.{HasObjects};
ghost use Rattle.page_store.specs.Store.{IsDamage};
ghost use Rattle.repo_durable.specs.Kept.{GoesOnUp, IsKept, IsOpen, RestsWith, StandsAfter, disks_of, down, down_with, held_of, is_fault, is_torn, is_up, lowered, parts_in, repo_named, torn};
ghost use Rattle.repo_durable.specs.Failing.{HasFailed, NoneFell, is_stopped};
ghost use Rattle.repo_durable.specs.Flushes.{IsLastFlush, IsOldest, left_by};
ghost use Rattle.repo_durable.specs.Mapping.{StoreMoves};
ghost use Rattle.repo_durable.specs.Pages.{ArePages, HasPages};
ghost use Rattle.repo_durable.specs.Saying.{ImagesSay, IsAhead, IsSaid, LogSays, ReadIsLeft};
ghost use Rattle.repo_durable.specs.declared.stable.Phase.TheVariants.{Torn as IsTorn, Up as IsUp};
ghost use Rattle.thor_value.specs.FiniteMap.{get};
ghost use Rattle.two_phase.specs.Contents.{keeps, without};
ghost use Rattle.repo_refusals.specs.declared.refusal.Refusal.TheVariants.{Damaged as IsDamaged, Stopped as IsStopped};

use crate::fault::{of_log, of_store};
use commit_log::CommitLog;
use disk_trait::{Fused, Parts, content_is_left};
use log_entries::Entry;
use mob_flusher::Flushed;
use page_format::Page;
use repo_refusals::Refusal;
use repo_state::HeldState;
use std::mem;
use thor_value::{NoMemory, Ts};

/// The end of the sequences that a log can have, and of the counts of entries that a checkpoint spells.
const END: u64 = 1 << 62;

/// How many sides a page has. A flush writes no other.
const SIDES: u8 = 2;

/// Whether a repository answers.
#[derive(Drop)]
pub enum Phase {
    /// It is up.
    Up {
        /// The log that stands for what it holds.
        log: CommitLog,
    },
    /// It is down until a restart.
    Down {
        /// The entry that was being written when it went down, which its disks may have or not.
        pending: Option<Entry>,
    },
    /// It is down, and there was no memory for an entry that its log has: what is held is no state of the log.
    Torn {
        /// The entry.
        entry: Entry,
    },
}

/// The disks of a repository, its log, and what is held in memory of the state for which the log stands.
///
/// Each call that meets a fault takes the repository down; one that is refused with `Down` changes nothing.
#[derive(Drop)]
pub struct Stable<P> {
    pub(crate) parts: Fused<P>,
    pub(crate) phase: Phase,
    pub(crate) held: HeldState,
}

impl<P: Parts> Stable<P> {
    /// A repository that is up.
    pub fn new(parts: P, log: CommitLog, held: HeldState) -> Stable<P>
        requires { IsOpen (P.disks parts) log held }
        ensures kept { IsKept P.disks result }
        ensures readable { TellsAll (P.disks parts) → WhereTold (P.disks parts) 2 (ArePages held.objects.pages.sides) → HasPages P.disks result }
        ensures up { is_up result ≡ true }
        ensures held { held_of result ≡ held }
        ensures says { LogSays (P.disks parts) log (said held) → IsSaid P.disks result }
        ensures clock { (disks_of P.disks result).clock ≡ (P.disks parts).clock }
        ensures content { SameContent (P.disks parts) (disks_of P.disks result) }
        ensures fell { NoneFell (P.disks parts).faults (disks_of P.disks result).faults }
    {
        Stable {
            parts: Fused::new(parts),
            phase: Phase::Up { log },
            held,
        }
    }

    /// Whether it is up.
    pub fn is_up(&self) -> bool
        ensures { result ≡ is_up self.now }
    {
        match &self.phase {
            Phase::Up { .. } => true,
            Phase::Down { .. } | Phase::Torn { .. } => false,
        }
    }

    /// What is held in memory.
    pub fn held(&self) -> &HeldState
        ensures { result.now ≡ held_of self.now }
    {
        &self.held
    }

    /// The repository's number.
    pub fn repo(&self) -> u8
        ensures { result ≡ (held_of self.now).repo }
    {
        self.held.repo()
    }

    /// The parts, with the schedule's stop.
    pub fn parts(&self) -> &Fused<P>
        ensures { result.now ≡ parts_in self.now }
    {
        &self.parts
    }

    /// The parts.
    pub fn into_parts(self) -> P
        ensures { result ≡ parts_of (parts_in self) }
    {
        let Stable { parts, phase, held } = self;
        drop(phase);
        drop(held);
        parts.inner()
    }

    /// Takes the repository down, where it is up. No entry is being written then.
    #[tactic(auto, using(crate::proofs::Saying::said_lowered, crate::proofs::Readable::down_has, crate::proofs::Readable::same_has))]
    pub fn take_down(&mut self)
        requires kept { IsKept P.disks self.old }
        ensures new { self.new ≡ down self.old }
        ensures rests { is_up self.old ≡ true → RestsWith None self.new }
        ensures kept { IsKept P.disks self.new }
        ensures readable { HasPages P.disks self.old → HasPages P.disks self.new }
        ensures says { IsSaid P.disks self.old → IsSaid P.disks self.new }
    {
        if let Phase::Up { .. } = &self.phase {
            self.set_phase(Phase::Down { pending: None });
        }
    }

    /// Puts a phase in the place of the one before.
    pub(crate) fn set_phase(&mut self, phase: Phase)
        ensures { self.new ≡ record self.old { phase = phase } }
    {
        drop(mem::replace(&mut self.phase, phase));
    }

    /// Takes the repository down, with an entry that the log has and that couldn't be entered.
    #[tactic(auto, using(crate::proofs::Saying::said_torn, crate::proofs::Readable::torn_has))]
    pub fn fail_with(&mut self, entry: Entry)
        ensures new { self.new ≡ torn self.old entry }
        ensures kept { IsKept P.disks self.new }
        ensures readable { HasPages P.disks self.old → HasPages P.disks self.new }
        ensures says { IsSaid P.disks self.new }
    {
        self.set_phase(Phase::Torn { entry });
    }

    /// Takes the repository down, where it is up, with an entry that the log has and that wasn't entered.
    #[tactic(auto, using(crate::proofs::Saying::said_pending, crate::proofs::Readable::pending_has))]
    pub fn pend(&mut self, entry: Entry)
        requires fits { BodyFits (AnEntry entry) }
        requires takes { IsTrue (can_enter (held_of self.old) entry) }
        requires up { is_up self.old ≡ true }
        requires kept { IsKept P.disks self.old }
        ensures new { self.new ≡ down_with self.old (Some entry) }
        ensures kept { IsKept P.disks self.new }
        ensures readable { HasPages P.disks self.old → HasPages P.disks self.new }
        ensures says { IsAhead P.disks self.old entry → IsSaid P.disks self.new }
    {
        self.set_phase(Phase::Down {
            pending: Some(entry),
        });
    }

    /// Arms the stop; 0 takes the repository down at once.
    #[tactic(auto, using(crate::proofs::Saying::said_armed, crate::proofs::Saying::said_lowered, crate::proofs::Readable::armed_has, crate::proofs::Readable::down_has))]
    pub fn stop_after(&mut self, calls: u32)
        requires kept { IsKept P.disks self.old }
        ensures kept { IsKept P.disks self.new }
        ensures readable { HasPages P.disks self.old → HasPages P.disks self.new }
        ensures held { held_of self.new ≡ held_of self.old }
        ensures up { is_up self.new ≡ cond (nat_eq calls 0) false (is_up self.old) }
        ensures phase { self.new.phase ≡ cond (nat_eq calls 0) (lowered self.old.phase) self.old.phase }
        ensures says { IsSaid P.disks self.old → IsSaid P.disks self.new }
        ensures parts { parts_in self.new ≡ armed (parts_in self.old) calls }
    {
        if calls == 0 {
            self.parts.disarm();
            self.take_down();
        } else {
            self.parts.arm(calls);
        }
    }

    /// Takes back a stop that hasn't fallen.
    #[tactic(auto, using(crate::proofs::Saying::said_armed, crate::proofs::Readable::armed_has))]
    pub fn disarm(&mut self)
        requires kept { IsKept P.disks self.old }
        ensures kept { IsKept P.disks self.new }
        ensures readable { HasPages P.disks self.old → HasPages P.disks self.new }
        ensures held { held_of self.new ≡ held_of self.old }
        ensures phase { self.new.phase ≡ self.old.phase }
        ensures says { IsSaid P.disks self.old → IsSaid P.disks self.new }
        ensures parts { parts_in self.new ≡ armed (parts_in self.old) 0 }
    {
        self.parts.disarm();
    }

    /// Asks the clock.
    pub fn now(&mut self) -> u64
        requires kept { IsKept P.disks self.old }
        ensures kept { IsKept P.disks self.new }
        ensures readable { HasPages P.disks self.old → HasPages P.disks self.new }
        ensures disks { SameDisks (disks_of P.disks self.old) (disks_of P.disks self.new) }
        ensures clock { (disks_of P.disks self.new).clock ≡ max (disks_of P.disks self.old).clock result }
        ensures held { held_of self.new ≡ held_of self.old }
        ensures phase { self.new.phase ≡ self.old.phase }
        ensures says { IsSaid P.disks self.old → IsSaid P.disks self.new }
        ensures asked { P.asked (parts_of (parts_in self.old)) result (parts_of (parts_in self.new)) }
    {
        self.parts.now()
    }

    /// A law, as `content_is_left`, of its own disks.
    pub(crate) fn read_is_left(&self)
        ensures { ReadIsLeft (disks_of P.disks self.now) (disks_of P.disks self.now) }
    {
        content_is_left(&self.parts);
    }

    /// Takes the log out: the repository is down until it is put back. `None` where it is down already.
    pub(crate) fn take_log(&mut self) -> Option<CommitLog>
        requires kept { IsKept P.disks self.old }
        ensures some { IfSome result (λ log. (self.old.phase ≡ IsUp log) × (self.new ≡ down_with self.old None) × IsOpen (disks_of P.disks self.old) log (held_of self.old)) }
        ensures none { IsNone result → (is_up self.old ≡ false) × (self.new ≡ self.old) }
        ensures held { held_of self.new ≡ held_of self.old }
        ensures kept { IsNone result → IsKept P.disks self.new }
    {
        match mem::replace(&mut self.phase, Phase::Down { pending: None }) {
            Phase::Up { log } => Some(log),
            Phase::Down { pending } => {
                self.set_phase(Phase::Down { pending });
                None
            }
            Phase::Torn { entry } => {
                self.set_phase(Phase::Torn { entry });
                None
            }
        }
    }

    /// Writes an entry into the log, and hands it back. After a fault it is pending.
    #[tactic(auto, using(crate::proofs::Readable::same_has, crate::proofs::Saying::said_same))]
    pub fn append(&mut self, entry: Entry) -> Result<Entry, Refusal>
        requires fits { BodyFits (AnEntry entry) }
        requires takes { IsTrue (can_enter (held_of self.old) entry) }
        requires kept { IsKept P.disks self.old }
        ensures kept { IsKept P.disks self.new }
        ensures readable { HasPages P.disks self.old → HasPages P.disks self.new }
        ensures ok { IfOk result (λ written. (written ≡ entry) × GoesOnUp self.old self.new) }
        ensures err { IfErr result (StandsAfter self.old self.new (Some entry)) }
        ensures rests { is_up self.old ≡ true → OnErr result (RestsWith (Some entry) self.new) }
        ensures held { held_of self.new ≡ held_of self.old }
        ensures ahead { IsSaid P.disks self.old → OnOk result (IsAhead P.disks self.new entry) }
        ensures says { IsSaid P.disks self.old → OnErr result (IsSaid P.disks self.new) }
        ensures pages { (disks_of P.disks self.new).content 2 ≡ (disks_of P.disks self.old).content 2 }
        ensures clock { (disks_of P.disks self.new).clock ≡ (disks_of P.disks self.old).clock }
        ensures names { IfErr result (λ r. repo_named (held_of self.old).repo r ≡ (held_of self.old).repo) }
        ensures goes { GoesOn (disks_of P.disks self.old) (disks_of P.disks self.new) }
        ensures stopped { (r : ℕ) → IsErrOf result (IsStopped r) → HasFailed (disks_of P.disks self.old).faults (disks_of P.disks self.new).faults }
        ensures steady { OnOk result (NoFault (disks_of P.disks self.old) (disks_of P.disks self.new)) }
        ensures quiet { IfErr result (λ r. is_stopped r ≡ false → NoFault (disks_of P.disks self.old) (disks_of P.disks self.new)) }
        ensures damaged { (r place : ℕ) → IsErrOf result (IsDamaged r place) → ⊥ }
    {
        let Some(mut log) = self.take_log() else {
            drop(entry);
            return Err(Refusal::Down { repo: self.repo() });
        };
        match log.append(&mut self.parts, &entry) {
            Ok(()) => {
                self.set_phase(Phase::Up { log });
                Ok(entry)
            }
            Err(fault) => {
                drop(log);
                self.set_phase(Phase::Down {
                    pending: Some(entry),
                });
                Err(of_log(self.repo(), fault))
            }
        }
    }

    /// Enters an entry that the log has into what is held. Where there is no memory for it the repository is
    /// down, and what is held is no state of its log any more; the entry comes back with `Ok`.
    #[tactic(auto, using(crate::proofs::Saying::said_torn))]
    pub fn enter(&mut self, entry: Entry) -> Result<Entry, NoMemory>
        requires fits { BodyFits (AnEntry entry) }
        requires takes { IsTrue (can_enter (held_of self.old) entry) }
        requires up { is_up self.old ≡ true }
        requires kept { IsKept P.disks self.old }
        ensures kept { IsKept P.disks self.new }
        ensures readable { HasPages P.disks self.old → HasPages P.disks self.new }
        ensures back { IfOk result (λ entered. entered ≡ entry) }
        ensures ok { OnOk result (held_of self.new ≡ entered (held_of self.old) entry) }
        ensures phase { OnOk result (self.new.phase ≡ self.old.phase) }
        ensures err { OnErr result (self.new.phase ≡ IsTorn entry) }
        ensures says { IsAhead P.disks self.old entry → IsSaid P.disks self.new }
        ensures map { OnOk result (StoreMoves P.disks (loaded (held_of self.old) entry) self.old self.new) }
        ensures parts { self.new.parts ≡ self.old.parts }
    {
        match self.held.enter(&entry) {
            Ok(()) => Ok(entry),
            Err(NoMemory) => {
                self.fail_with(entry);
                Err(NoMemory)
            }
        }
    }

    /// Forgets the decision to commit a transaction.
    pub fn forget(&mut self, tx: Ts)
        requires kept { IsKept P.disks self.old }
        ensures kept { IsKept P.disks self.new }
        ensures readable { HasPages P.disks self.old → HasPages P.disks self.new }
        ensures held { held_of self.new ≡ record (held_of self.old) { table = cond (keeps (get (held_of self.old).table.transactions tx)) (without (held_of self.old).table tx) (held_of self.old).table } }
        ensures phase { self.new.phase ≡ self.old.phase }
        ensures says { is_up self.old ≡ true → IsSaid P.disks self.old → IsSaid P.disks self.new }
        ensures parts { parts_in self.new ≡ parts_in self.old }
    {
        self.held.forget(tx);
    }

    /// Grants no page below this one any more.
    pub fn grant_from(&mut self, page: u32)
        requires page { page ≤ 65536 }
        requires kept { IsKept P.disks self.old }
        ensures kept { IsKept P.disks self.new }
        ensures readable { HasPages P.disks self.old → HasPages P.disks self.new }
        ensures held { held_of self.new ≡ record (held_of self.old) { next_grant = max (held_of self.old).next_grant page } }
        ensures phase { self.new.phase ≡ self.old.phase }
        ensures says { is_up self.old ≡ true → IsSaid P.disks self.old → IsSaid P.disks self.new }
        ensures parts { parts_in self.new ≡ parts_in self.old }
    {
        self.held.grant_from(page);
    }

    /// A page with all its objects.
    #[tactic(auto, using(crate::proofs::Mapping::moves_still, crate::proofs::Readable::same_has, crate::proofs::Saying::said_same))]
    pub fn page_image(&mut self, page: u32) -> Result<Page, Refusal>
        requires kept { IsKept P.disks self.old }
        ensures kept { IsKept P.disks self.new }
        ensures readable { HasPages P.disks self.old → HasPages P.disks self.new }
        ensures never { (r place : ℕ) → IsErrOf result (IsDamaged r place) → HasPages P.disks self.old → ⊥ }
        ensures number { IfOk result (λ image. image.number ≡ page) }
        ensures ok { OnOk result (GoesOnUp self.old self.new) }
        ensures err { IfErr result (StandsAfter self.old self.new None) }
        ensures rests { is_up self.old ≡ true → OnErr result (RestsWith None self.new) }
        ensures held { held_of self.new ≡ record (held_of self.old) { objects = (held_of self.new).objects } }
        ensures limit { (held_of self.new).objects.mob.limit ≡ (held_of self.old).objects.mob.limit }
        ensures buffer { (held_of self.new).objects.mob ≡ (held_of self.old).objects.mob }
        ensures image { IfOk result (λ image. WhereTold (disks_of P.disks self.old) 2 (λ disk. ShowsImage disk (held_of self.old).objects page image)) }
        ensures objects { IfOk result HasObjects }
        ensures map { StoreMoves P.disks [] self.old self.new }
        ensures says { IsSaid P.disks self.old → IsSaid P.disks self.new }
        ensures pages { (disks_of P.disks self.new).content 2 ≡ (disks_of P.disks self.old).content 2 }
        ensures clock { (disks_of P.disks self.new).clock ≡ (disks_of P.disks self.old).clock }
        ensures names { IfErr result (λ r. repo_named (held_of self.old).repo r ≡ (held_of self.old).repo) }
        ensures goes { GoesOn (disks_of P.disks self.old) (disks_of P.disks self.new) }
        ensures stopped { (r : ℕ) → IsErrOf result (IsStopped r) → HasFailed (disks_of P.disks self.old).faults (disks_of P.disks self.new).faults }
        ensures steady { OnOk result (NoFault (disks_of P.disks self.old) (disks_of P.disks self.new)) }
        ensures quiet { IfErr result (λ r. is_stopped r ≡ false → NoFault (disks_of P.disks self.old) (disks_of P.disks self.new)) }
        ensures damaged { (r place : ℕ) → IsErrOf result (IsDamaged r place) → IsDamage (disks_of P.disks self.old) (held_of self.old).objects.pages.sides page place }
    {
        let Some(log) = self.take_log() else {
            return Err(Refusal::Down { repo: self.repo() });
        };
        match self.held.page_image(&mut self.parts, page) {
            Ok(image) => {
                self.set_phase(Phase::Up { log });
                Ok(image)
            }
            Err(fault) => {
                drop(log);
                Err(of_store(self.repo(), fault))
            }
        }
    }

    /// Writes the page of the oldest buffered object with all its buffered objects, and has it in use.
    #[tactic(auto, using(crate::proofs::Mapping::moves_still, crate::proofs::Readable::same_has, crate::proofs::Saying::said_same))]
    pub fn flush_page(&mut self) -> Result<Flushed, Refusal>
        requires kept { IsKept P.disks self.old }
        ensures kept { IsKept P.disks self.new }
        ensures readable { HasPages P.disks self.old → HasPages P.disks self.new }
        ensures never { (r place : ℕ) → IsErrOf result (IsDamaged r place) → HasPages P.disks self.old → ⊥ }
        ensures ok { OnOk result (GoesOnUp self.old self.new) }
        ensures err { IfErr result (StandsAfter self.old self.new None) }
        ensures rests { is_up self.old ≡ true → OnErr result (RestsWith None self.new) }
        ensures held { held_of self.new ≡ record (held_of self.old) { objects = (held_of self.new).objects } }
        ensures limit { (held_of self.new).objects.mob.limit ≡ (held_of self.old).objects.mob.limit }
        ensures map { StoreMoves P.disks [] self.old self.new }
        ensures says { IsSaid P.disks self.old → IsSaid P.disks self.new }
        ensures buffer { IfOk result (λ f. (held_of self.new).objects.mob.objects ≡ left_by (held_of self.old).objects.mob.objects f) }
        ensures unmoved { OnErr result ((held_of self.new).objects.mob ≡ (held_of self.old).objects.mob) }
        ensures oldest { IfOk result (IsOldest (held_of self.old).objects.mob.objects) }
        ensures clock { (disks_of P.disks self.new).clock ≡ (disks_of P.disks self.old).clock }
        ensures names { IfErr result (λ r. repo_named (held_of self.old).repo r ≡ (held_of self.old).repo) }
        ensures goes { GoesOn (disks_of P.disks self.old) (disks_of P.disks self.new) }
        ensures stopped { (r : ℕ) → IsErrOf result (IsStopped r) → HasFailed (disks_of P.disks self.old).faults (disks_of P.disks self.new).faults }
        ensures steady { OnOk result (NoFault (disks_of P.disks self.old) (disks_of P.disks self.new)) }
        ensures quiet { IfErr result (λ r. is_stopped r ≡ false → NoFault (disks_of P.disks self.old) (disks_of P.disks self.new)) }
        ensures damaged { (r place : ℕ) → IsErrOf result (IsDamaged r place) → IfSome (slice_get (held_of self.old).objects.mob.objects 0) (λ q. IsDamage (disks_of P.disks self.old) (held_of self.old).objects.pages.sides q.0.page place) }
        ensures page { (r place : ℕ) → IsErrOf result (IsDamaged r place) → (page : ℕ) × IsDamage (disks_of P.disks self.new) (held_of self.new).objects.pages.sides page place }
    {
        let Some(mut log) = self.take_log() else {
            return Err(Refusal::Down { repo: self.repo() });
        };
        match self.flush_into(&mut log) {
            Ok(flushed) => {
                self.set_phase(Phase::Up { log });
                Ok(flushed)
            }
            Err(refusal) => {
                drop(log);
                Err(refusal)
            }
        }
    }

    /// Writes the page of the oldest buffered object, and has it in use, while the log is taken out.
    fn flush_into(&mut self, log: &mut CommitLog) -> Result<Flushed, Refusal>
        requires opened { IsOpen (disks_of P.disks self.old) log.old (held_of self.old) }
        ensures opened { OnOk result (IsOpen (disks_of P.disks self.new) log.new (held_of self.new)) }
        ensures readable { HasPages P.disks self.old → HasPages P.disks self.new }
        ensures never { (r place : ℕ) → IsErrOf result (IsDamaged r place) → is_torn self.old ≡ false → HasPages P.disks self.old → ⊥ }
        ensures keeps { Keeps (held_of self.new) }
        ensures held { held_of self.new ≡ record (held_of self.old) { objects = (held_of self.new).objects } }
        ensures limit { (held_of self.new).objects.mob.limit ≡ (held_of self.old).objects.mob.limit }
        ensures phase { self.new.phase ≡ self.old.phase }
        ensures fault { IfErr result (λ r. is_fault r ≡ true) }
        ensures map { StoreMoves P.disks [] self.old self.new }
        ensures log { LogSays (disks_of P.disks self.old) log.old (said (held_of self.old)) → OnOk result (LogSays (disks_of P.disks self.new) log.new (said (held_of self.new))) }
        ensures images { LogSays (disks_of P.disks self.old) log.old (said (held_of self.old)) → OnErr result (ImagesSay (disks_of P.disks self.new) (held_of self.new) None) }
        ensures buffer { IfOk result (λ f. (held_of self.new).objects.mob.objects ≡ left_by (held_of self.old).objects.mob.objects f) }
        ensures unmoved { OnErr result ((held_of self.new).objects.mob ≡ (held_of self.old).objects.mob) }
        ensures oldest { IfOk result (IsOldest (held_of self.old).objects.mob.objects) }
        ensures clock { (disks_of P.disks self.new).clock ≡ (disks_of P.disks self.old).clock }
        ensures names { IfErr result (λ r. repo_named (held_of self.old).repo r ≡ (held_of self.old).repo) }
        ensures goes { GoesOn (disks_of P.disks self.old) (disks_of P.disks self.new) }
        ensures stopped { (r : ℕ) → IsErrOf result (IsStopped r) → HasFailed (disks_of P.disks self.old).faults (disks_of P.disks self.new).faults }
        ensures steady { OnOk result (NoFault (disks_of P.disks self.old) (disks_of P.disks self.new)) }
        ensures quiet { IfErr result (λ r. is_stopped r ≡ false → NoFault (disks_of P.disks self.old) (disks_of P.disks self.new)) }
        ensures damaged { (r place : ℕ) → IsErrOf result (IsDamaged r place) → IfSome (slice_get (held_of self.old).objects.mob.objects 0) (λ q. IsDamage (disks_of P.disks self.old) (held_of self.old).objects.pages.sides q.0.page place) }
        ensures page { (r place : ℕ) → IsErrOf result (IsDamaged r place) → (page : ℕ) × IsDamage (disks_of P.disks self.new) (held_of self.new).objects.pages.sides page place }
    {
        match self.held.flush_one(&mut self.parts) {
            Ok(flushed) => {
                self.read_is_left();
                self.put_flushed(log, flushed)
            }
            Err(fault) => {
                self.read_is_left();
                Err(of_store(self.repo(), fault))
            }
        }
    }

    /// Has in use what was flushed, once the log has its record.
    #[tactic(auto, using(crate::proofs::Mapping::moves_itself, crate::proofs::Saying::images_of_log))]
    fn put_flushed(&mut self, log: &mut CommitLog, flushed: Flushed) -> Result<Flushed, Refusal>
        requires opened { IsOpen (disks_of P.disks self.old) log.old (held_of self.old) }
        requires last { IsLastFlush (held_of self.old) flushed }
        ensures opened { OnOk result (IsOpen (disks_of P.disks self.new) log.new (held_of self.new)) }
        ensures readable { HasPages P.disks self.old → HasPages P.disks self.new }
        ensures keeps { Keeps (held_of self.new) }
        ensures held { held_of self.new ≡ record (held_of self.old) { objects = (held_of self.new).objects } }
        ensures limit { (held_of self.new).objects.mob.limit ≡ (held_of self.old).objects.mob.limit }
        ensures phase { self.new.phase ≡ self.old.phase }
        ensures fault { IfErr result (λ r. is_fault r ≡ true) }
        ensures map { StoreMoves P.disks [] self.old self.new }
        ensures log { LogSays (disks_of P.disks self.old) log.old (said (held_of self.old)) → OnOk result (LogSays (disks_of P.disks self.new) log.new (said (held_of self.new))) }
        ensures images { LogSays (disks_of P.disks self.old) log.old (said (held_of self.old)) → OnErr result (ImagesSay (disks_of P.disks self.new) (held_of self.new) None) }
        ensures buffer { IfOk result (λ f. (held_of self.new).objects.mob.objects ≡ left_by (held_of self.old).objects.mob.objects f) }
        ensures unmoved { OnErr result ((held_of self.new).objects.mob ≡ (held_of self.old).objects.mob) }
        ensures same { IfOk result (λ f. f ≡ flushed) }
        ensures clock { (disks_of P.disks self.new).clock ≡ (disks_of P.disks self.old).clock }
        ensures names { IfErr result (λ r. repo_named (held_of self.old).repo r ≡ (held_of self.old).repo) }
        ensures goes { GoesOn (disks_of P.disks self.old) (disks_of P.disks self.new) }
        ensures stopped { (r : ℕ) → IsErrOf result (IsStopped r) → HasFailed (disks_of P.disks self.old).faults (disks_of P.disks self.new).faults }
        ensures steady { OnOk result (NoFault (disks_of P.disks self.old) (disks_of P.disks self.new)) }
        ensures quiet { IfErr result (λ r. is_stopped r ≡ false → NoFault (disks_of P.disks self.old) (disks_of P.disks self.new)) }
        ensures damaged { (r place : ℕ) → IsErrOf result (IsDamaged r place) → ⊥ }
    {
        let Flushed::Installed { page, side } = flushed else {
            return Ok(flushed);
        };
        if side >= SIDES {
            return Err(Refusal::NoMemory);
        }
        if let Err(fault) = log.installed(&mut self.parts, page, side) {
            return Err(of_log(self.repo(), fault));
        }
        self.held.settle(page, side);
        Ok(flushed)
    }

    /// Begins a log on the other log disk with all that is held. Want of memory, too, where no sequence or no
    /// count is left, which no run comes to.
    #[tactic(auto, using(crate::proofs::Readable::same_has, crate::proofs::Saying::said_same, crate::proofs::Saying::said_out))]
    pub fn checkpoint(&mut self) -> Result<(), Refusal>
        requires kept { IsKept P.disks self.old }
        ensures kept { IsKept P.disks self.new }
        ensures readable { HasPages P.disks self.old → HasPages P.disks self.new }
        ensures ok { OnOk result (GoesOnUp self.old self.new) }
        ensures err { IfErr result (StandsAfter self.old self.new None) }
        ensures rests { is_up self.old ≡ true → OnErr result (RestsWith None self.new) }
        ensures held { held_of self.new ≡ held_of self.old }
        ensures says { IsSaid P.disks self.old → IsSaid P.disks self.new }
        ensures pages { (disks_of P.disks self.new).content 2 ≡ (disks_of P.disks self.old).content 2 }
        ensures clock { (disks_of P.disks self.new).clock ≡ (disks_of P.disks self.old).clock }
        ensures names { IfErr result (λ r. repo_named (held_of self.old).repo r ≡ (held_of self.old).repo) }
        ensures goes { GoesOn (disks_of P.disks self.old) (disks_of P.disks self.new) }
        ensures stopped { (r : ℕ) → IsErrOf result (IsStopped r) → HasFailed (disks_of P.disks self.old).faults (disks_of P.disks self.new).faults }
        ensures steady { OnOk result (NoFault (disks_of P.disks self.old) (disks_of P.disks self.new)) }
        ensures quiet { IfErr result (λ r. is_stopped r ≡ false → NoFault (disks_of P.disks self.old) (disks_of P.disks self.new)) }
        ensures damaged { (r place : ℕ) → IsErrOf result (IsDamaged r place) → ⊥ }
    {
        let Some(mut log) = self.take_log() else {
            return Err(Refusal::Down { repo: self.repo() });
        };
        if log.sequence() >= END - 1 || self.held.count() >= END {
            drop(log);
            return Err(Refusal::NoMemory);
        }
        let state = match self.held.state() {
            Ok(state) => state,
            Err(NoMemory) => {
                drop(log);
                return Err(Refusal::NoMemory);
            }
        };
        let begun = log.checkpoint(&mut self.parts, &state);
        drop(state);
        if let Err(fault) = begun {
            drop(log);
            return Err(of_log(self.repo(), fault));
        }
        self.set_phase(Phase::Up { log });
        Ok(())
    }
}
