ghost use Rattle.std.specs.Prelude.{◌≡◌, ◌+◌, ◌<◌, ◌^◌, ℕ, None, IfOk, IsTrue, OnOk, IsErrOf};
ghost use Rattle.disk_trait.specs.AllDisks.{AllSettled, GoesOn, LeavesAll, NoFault, TellsAll};
ghost use Rattle.disk_trait.specs.Disks.{Disks, NoNewImage, Rose, WhereTold};
ghost use Rattle.log_frame.specs.Log.{read_log};
ghost use Rattle.log_frame.specs.declared.fault.LogFault.TheVariants.{Damaged, Failed, NoMemory as OutOfMemory};
ghost use Rattle.log_codec.specs.Checkpoint.{StateFits};
ghost use Rattle.log_codec.specs.Grammar.{BodyFits};
ghost use Rattle.log_codec.specs.declared.body.Body.TheVariants.{Entry as AnEntry, Installed as AnInstalled};
ghost use Rattle.log_codec.specs.declared.state.State.{State as AState};
ghost use Rattle.commit_log.specs.Holds.{Holds, SaysEither, SaysNothingOr, SaysOneOf, beside};
ghost use Rattle.commit_log.specs.Recovered.{after, is_of, is_whole, sequence_end};

use disk_trait::{Disk, Parts};
use log_codec::{State, spell_entry, spell_installed, spell_state};
use log_entries::Entry;
use log_frame::{Log, LogFault};
use std::alloc::Global;
use std::marker::Model;

/// An open log of a repository's entries, beside another log disk whose log doesn't count.
///
/// After a fault the repository's disks are read again.
#[derive(Debug, Drop)]
pub struct CommitLog {
    alloc: Global,
    log: Log,
}

impl Model for CommitLog {
    ghost use Rattle.log_frame.specs.Log.{Place};

    ghost Value = { Place };

    ghost view = { λ l. l.log };
}

impl CommitLog {
    /// The entries of an open log.
    pub fn new(alloc: Global, log: Log) -> CommitLog
        ensures { result ≡ log }
    {
        CommitLog { alloc, log }
    }

    /// Puts a first log, which begins with the state, on disk 0. Neither log disk may have an open log. All names
    /// of the state are of its repository.
    ///
    /// At each moment a crash leaves no open log, or the state. The disk of pages stays.
    pub fn format<P: Parts>(
        alloc: Global,
        parts: &mut P,
        state: &State,
    ) -> Result<CommitLog, LogFault>
        requires fits { StateFits state.now }
        requires whole { IsTrue (is_whole state.now) }
        requires settled { AllSettled (P.disks parts.old) }
        requires first { WhereTold (P.disks parts.old) 0 (λ bytes. read_log bytes ≡ None) }
        requires second { WhereTold (P.disks parts.old) 1 (λ bytes. read_log bytes ≡ None) }
        ensures goes { GoesOn (P.disks parts.old) (P.disks parts.new) }
        ensures any_moment { TellsAll (P.disks parts.old) → LeavesAll (P.disks parts.old) (P.disks parts.new) (SaysNothingOr state.now) }
        ensures holds { IfOk result (λ log. Holds (P.disks parts.new) log state.now) }
        ensures sequence { IfOk result (λ log. log.sequence ≡ 1) }
        ensures disk { IfOk result (λ log. log.disk ≡ 0) }
        ensures pages { (P.disks parts.new).content 2 ≡ (P.disks parts.old).content 2 }
        ensures still { NoNewImage (P.disks parts.old) (P.disks parts.new) 2 }
        ensures clock { (P.disks parts.new).clock ≡ (P.disks parts.old).clock }
        ensures damaged { (place : ℕ) → IsErrOf result (Damaged place) → ⊥ }
        ensures failed { IsErrOf result Failed → Rose ((P.disks parts.old).faults 0) ((P.disks parts.new).faults 0) }
        ensures steady { OnOk result (NoFault (P.disks parts.old) (P.disks parts.new)) }
        ensures wanting { IsErrOf result OutOfMemory → NoFault (P.disks parts.old) (P.disks parts.new) }
    {
        let head = spell_state(alloc, state)?;
        let log = Log::format(alloc, parts, Disk::Log0, 1, head.as_slice())?;
        Ok(CommitLog { alloc, log })
    }

    /// The log's sequence.
    pub fn sequence(&self) -> u64
        ensures { result ≡ self.now.sequence }
    {
        self.log.sequence()
    }

    /// The disk that it stands on.
    pub fn disk(&self) -> u8
        ensures value { result ≡ self.now.disk }
        ensures within { result < 2 }
    {
        self.log.disk()
    }

    /// Adds an entry: four device calls, before which all memory is taken. What it writes is of the log's
    /// repository.
    ///
    /// At each moment a crash leaves what was there, or that with this one entry. After `Ok` it leaves the
    /// entry. After a fault either of the two may be found.
    pub fn append<P: Parts>(&mut self, parts: &mut P, entry: &Entry) -> Result<(), LogFault>
        requires fits { BodyFits (AnEntry entry.now) }
        requires holds { (s : AState) × Holds (P.disks parts.old) self.old s × IsTrue (is_of s.repo entry.now) }
        ensures goes { GoesOn (P.disks parts.old) (P.disks parts.new) }
        ensures any_moment { (s : AState) → Holds (P.disks parts.old) self.old s → TellsAll (P.disks parts.old) → LeavesAll (P.disks parts.old) (P.disks parts.new) (SaysOneOf s (AnEntry entry.now)) }
        ensures appended { OnOk result ((s : AState) → Holds (P.disks parts.old) self.old s → Holds (P.disks parts.new) self.new (after s (AnEntry entry.now))) }
        ensures pages { (P.disks parts.new).content 2 ≡ (P.disks parts.old).content 2 }
        ensures still { NoNewImage (P.disks parts.old) (P.disks parts.new) 2 }
        ensures clock { (P.disks parts.new).clock ≡ (P.disks parts.old).clock }
        ensures damaged { (place : ℕ) → IsErrOf result (Damaged place) → ⊥ }
        ensures failed { IsErrOf result Failed → Rose ((P.disks parts.old).faults self.old.disk) ((P.disks parts.new).faults self.old.disk) }
        ensures steady { OnOk result (NoFault (P.disks parts.old) (P.disks parts.new)) }
        ensures wanting { IsErrOf result OutOfMemory → NoFault (P.disks parts.old) (P.disks parts.new) }
    {
        let body = spell_entry(self.alloc, entry)?;
        self.log.append(parts, body.as_slice())
    }

    /// Says that a side of a page is in use from here on: four device calls, before which all memory is
    /// taken. The buffered objects of the page go.
    ///
    /// At each moment a crash leaves what was there, or that with this record. After `Ok` it leaves the
    /// record.
    pub fn installed<P: Parts>(
        &mut self,
        parts: &mut P,
        page: u32,
        side: u8,
    ) -> Result<(), LogFault>
        requires side { side < 2 }
        requires holds { (s : AState) × Holds (P.disks parts.old) self.old s }
        ensures goes { GoesOn (P.disks parts.old) (P.disks parts.new) }
        ensures any_moment { (s : AState) → Holds (P.disks parts.old) self.old s → TellsAll (P.disks parts.old) → LeavesAll (P.disks parts.old) (P.disks parts.new) (SaysOneOf s (AnInstalled page side)) }
        ensures appended { OnOk result ((s : AState) → Holds (P.disks parts.old) self.old s → Holds (P.disks parts.new) self.new (after s (AnInstalled page side))) }
        ensures pages { (P.disks parts.new).content 2 ≡ (P.disks parts.old).content 2 }
        ensures still { NoNewImage (P.disks parts.old) (P.disks parts.new) 2 }
        ensures clock { (P.disks parts.new).clock ≡ (P.disks parts.old).clock }
        ensures damaged { (place : ℕ) → IsErrOf result (Damaged place) → ⊥ }
        ensures failed { IsErrOf result Failed → Rose ((P.disks parts.old).faults self.old.disk) ((P.disks parts.new).faults self.old.disk) }
        ensures steady { OnOk result (NoFault (P.disks parts.old) (P.disks parts.new)) }
        ensures wanting { IsErrOf result OutOfMemory → NoFault (P.disks parts.old) (P.disks parts.new) }
    {
        let body = spell_installed(self.alloc, page, side)?;
        self.log.append(parts, body.as_slice())
    }

    /// Puts a log that begins with the state on the other log disk, with the next sequence. From then on it
    /// counts. All names of the state are of its repository.
    ///
    /// At each moment a crash leaves what was there, or this state: it is the caller's that what it leaves out
    /// may be forgotten.
    pub fn checkpoint<P: Parts>(&mut self, parts: &mut P, state: &State) -> Result<(), LogFault>
        requires fits { StateFits state.now }
        requires whole { IsTrue (is_whole state.now) }
        requires sequence { self.old.sequence + 1 < sequence_end }
        requires holds { (s : AState) × Holds (P.disks parts.old) self.old s }
        ensures goes { GoesOn (P.disks parts.old) (P.disks parts.new) }
        ensures any_moment { (s : AState) → Holds (P.disks parts.old) self.old s → TellsAll (P.disks parts.old) → LeavesAll (P.disks parts.old) (P.disks parts.new) (SaysEither s state.now) }
        ensures done { OnOk result (Holds (P.disks parts.new) self.new state.now) }
        ensures next { OnOk result (self.new.sequence ≡ self.old.sequence + 1) }
        ensures other { OnOk result (self.new.disk ≡ beside self.old.disk) }
        ensures pages { (P.disks parts.new).content 2 ≡ (P.disks parts.old).content 2 }
        ensures still { NoNewImage (P.disks parts.old) (P.disks parts.new) 2 }
        ensures clock { (P.disks parts.new).clock ≡ (P.disks parts.old).clock }
        ensures damaged { (place : ℕ) → IsErrOf result (Damaged place) → ⊥ }
        ensures failed { IsErrOf result Failed → Rose ((P.disks parts.old).faults (beside self.old.disk)) ((P.disks parts.new).faults (beside self.old.disk)) }
        ensures steady { OnOk result (NoFault (P.disks parts.old) (P.disks parts.new)) }
        ensures wanting { IsErrOf result OutOfMemory → NoFault (P.disks parts.old) (P.disks parts.new) }
    {
        let head = spell_state(self.alloc, state)?;
        let disk = self.log.beside();
        let sequence = self.log.sequence() + 1;
        self.log = Log::format(self.alloc, parts, disk, sequence, head.as_slice())?;
        Ok(())
    }
}
