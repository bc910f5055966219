ghost use Rattle.disk_trait.specs.Numbers.{number};
ghost use Rattle.std.specs.Prelude.{◌≡◌, ◌+◌, ◌^◌, ◌<◌, ◌≤◌, ℕ, List, length, max, is_err, IsErrOf};
ghost use Rattle.disk_trait.specs.Disks.{WhereTold, SameDisks};
ghost use Rattle.disk_trait.specs.Calls.{Reads, Writes, Syncs, TellsLength, Restarts};
ghost use Rattle.disk_trait.specs.Counts.{counted};
ghost use Rattle.disk_trait.specs.Files.{counts_of, clock_of, no_counts, file_disks};

use crate::clock::Clock;
use crate::counts::Counts;
use crate::disk::Disk;
use crate::parts::{Outage, Parts, ends_too_far};
use std::fs::{File, OpenOptions};
use std::os::unix::fs::FileExt;
use std::rt::Files;

/// How many bytes longer than its disk a log's file is made at once.
const AHEAD: u64 = 1 << 18;

/// The file of a log's disk. Zeros stand behind the disk's last byte while it is open, so that few of the writes change
/// the file's length, which a sync would have to write too. It is cut to its disk's length when it is let go; where
/// that doesn't come about, as when the program is killed, the zeros are taken for the disk's.
///
/// A log's header may be open only on a disk of two bytes or more, so that the first byte of a new log, torn by a crash,
/// opens nothing. So the file is made longer than its disk only where that byte has been synced.
struct LogFile {
    file: File,
    /// How many bytes the disk has.
    len: u64,
    /// How many bytes the file was made to have, or the disk had when it was opened.
    room: u64,
    /// Whether the disk's first byte has been synced since the file was opened or started anew.
    begun: bool,
}

impl LogFile {
    /// A file with all its bytes as the disk's.
    fn of(file: File) -> Option<LogFile> {
        let len = file.metadata().ok()?.len();
        Some(LogFile {
            file,
            len,
            room: len,
            begun: false,
        })
    }

    /// Reads bytes that the disk has.
    fn read(&self, at: u64, into: &mut [u8]) -> Option<()> {
        if self.len < at.saturating_add(into.len() as u64) {
            return None;
        }
        self.file.read_exact_at(into, at).ok()
    }

    fn write(&mut self, at: u64, bytes: &[u8]) -> Option<()> {
        let end = at.saturating_add(bytes.len() as u64);
        if self.begun {
            self.lengthen(end);
        }
        self.file.write_all_at(bytes, at).ok()?;
        self.len = self.len.max(end);
        Some(())
    }

    /// Makes the file longer than a write needs that would end past its end. One that can't be made so long stays.
    fn lengthen(&mut self, end: u64) {
        let room = end.saturating_add(AHEAD);
        if self.room < end && self.file.set_len(room).is_ok() {
            self.room = room;
        }
    }

    fn sync(&mut self) -> Option<()> {
        self.file.sync_data().ok()?;
        self.begun = 0 < self.len;
        Some(())
    }

    /// Cuts the file to its disk's length, and syncs it: behind a write that failed it may be longer, with a disk of one byte.
    fn restart(&mut self) -> Option<()> {
        self.file.set_len(self.len).ok()?;
        self.file.sync_data().ok()?;
        self.room = self.len;
        self.begun = false;
        Some(())
    }
}

impl Drop for LogFile {
    fn drop(self) {
        let LogFile {
            file,
            len,
            room,
            begun: _,
        } = self;
        if len < room {
            let _ = file.set_len(len);
        }
        drop(file);
    }
}

/// Parts over three files, which tell contracts nothing but their counts. They never want memory.
///
/// Where a file couldn't be opened, each call on that disk is `Failed`.
#[derive(Drop)]
pub struct FileParts<C> {
    log0: Option<LogFile>,
    log1: Option<LogFile>,
    pages: Option<File>,
    counts: Counts,
    clock: C,
}

impl<C> FileParts<C> {
    /// Opens each file for reading and writing, and makes it where it is absent.
    pub fn open<R: Files<File = File>>(
        rt: &R,
        log0: &str,
        log1: &str,
        pages: &str,
        clock: C,
    ) -> FileParts<C>
        ensures counts { counts_of result ≡ no_counts }
        ensures clock { clock_of result ≡ clock }
    {
        FileParts {
            log0: open_log(rt, log0),
            log1: open_log(rt, log1),
            pages: open_file(rt, pages),
            counts: Counts::new(),
            clock,
        }
    }

    fn read(&self, disk: Disk, at: u64, into: &mut [u8]) -> Option<()> {
        match disk {
            Disk::Log0 => self.log0.as_ref()?.read(at, into),
            Disk::Log1 => self.log1.as_ref()?.read(at, into),
            Disk::Pages => self.pages.as_ref()?.read_exact_at(into, at).ok(),
        }
    }

    fn len_of(&self, disk: Disk) -> Option<u64> {
        match disk {
            Disk::Log0 => Some(self.log0.as_ref()?.len),
            Disk::Log1 => Some(self.log1.as_ref()?.len),
            Disk::Pages => file_len(self.pages.as_ref()),
        }
    }
}

fn open_file<R: Files<File = File>>(rt: &R, path: &str) -> Option<File> {
    let mut options = OpenOptions::new();
    options.read(true);
    options.write(true);
    options.create(true);
    options.open(rt, path).ok()
}

fn open_log<R: Files<File = File>>(rt: &R, path: &str) -> Option<LogFile> {
    LogFile::of(open_file(rt, path)?)
}

/// Writes bytes into the file of a disk.
fn write(
    disk: Disk,
    log0: &mut Option<LogFile>,
    log1: &mut Option<LogFile>,
    pages: &Option<File>,
    at: u64,
    bytes: &[u8],
) -> Option<()>
    ensures { 2 ^ 40 < at + length bytes.now → result ≡ None }
{
    if ends_too_far(at, bytes.len()) {
        return None;
    }
    match disk {
        Disk::Log0 => log0.as_mut()?.write(at, bytes),
        Disk::Log1 => log1.as_mut()?.write(at, bytes),
        Disk::Pages => pages.as_ref()?.write_all_at(bytes, at).ok(),
    }
}

/// Starts the file of a disk anew: a log's is cut to its disk's length.
fn restart(
    disk: Disk,
    log0: &mut Option<LogFile>,
    log1: &mut Option<LogFile>,
    pages: &Option<File>,
) -> Option<()> {
    match disk {
        Disk::Log0 => log0.as_mut()?.restart(),
        Disk::Log1 => log1.as_mut()?.restart(),
        Disk::Pages => pages.as_ref().map(|_| ()),
    }
}

/// Syncs the file of a disk.
fn sync(
    disk: Disk,
    log0: &mut Option<LogFile>,
    log1: &mut Option<LogFile>,
    pages: &Option<File>,
) -> Option<()> {
    match disk {
        Disk::Log0 => log0.as_mut()?.sync(),
        Disk::Log1 => log1.as_mut()?.sync(),
        Disk::Pages => pages.as_ref()?.sync_data().ok(),
    }
}

fn file_len(file: Option<&File>) -> Option<u64> {
    Some(file?.metadata().ok()?.len())
}

impl<C: Clock> Parts for FileParts<C> {
    ghost disks = { file_disks C.greatest };

    ghost asked = { λ files now then. C.gives files.clock now then.clock };

    #[tactic(auto, using(crate::proofs::FileCalls::untold_read))]
    fn read_at(&mut self, disk: Disk, at: u64, into: &mut [u8]) -> Result<(), Outage>
        requires within { WhereTold (file_disks C.greatest self.old) (number disk) (λ bytes. at + length into.old ≤ length bytes) }
        ensures call { Reads (file_disks C.greatest self.old) (file_disks C.greatest self.new) (number disk) at into.old into.new result }
        ensures counts { counts_of self.new ≡ counted (counts_of self.old) (number disk) (is_err result) }
        ensures no_memory { IsErrOf result Outage.NoMemory → ⊥ }
    {
        let answer = self.read(disk, at, into);
        self.counts.after(disk, answer)
    }

    fn write_at(&mut self, disk: Disk, at: u64, bytes: &[u8]) -> Result<(), Outage>
        ensures call { Writes (file_disks C.greatest self.old) (file_disks C.greatest self.new) (number disk) at bytes.now result }
        ensures counts { counts_of self.new ≡ counted (counts_of self.old) (number disk) (is_err result) }
        ensures no_memory { IsErrOf result Outage.NoMemory → ⊥ }
    {
        let answer = write(disk, &mut self.log0, &mut self.log1, &self.pages, at, bytes);
        self.counts.after(disk, answer)
    }

    #[tactic(auto, using(crate::proofs::FileCalls::untold_sync))]
    fn sync(&mut self, disk: Disk) -> Result<(), Outage>
        ensures call { Syncs (file_disks C.greatest self.old) (file_disks C.greatest self.new) (number disk) result }
        ensures counts { counts_of self.new ≡ counted (counts_of self.old) (number disk) (is_err result) }
        ensures no_memory { IsErrOf result Outage.NoMemory → ⊥ }
    {
        let answer = sync(disk, &mut self.log0, &mut self.log1, &self.pages);
        self.counts.after(disk, answer)
    }

    #[tactic(auto, using(crate::proofs::FileCalls::untold_len))]
    fn len(&mut self, disk: Disk) -> Result<u64, Outage>
        ensures call { TellsLength (file_disks C.greatest self.old) (file_disks C.greatest self.new) (number disk) result }
        ensures counts { counts_of self.new ≡ counted (counts_of self.old) (number disk) (is_err result) }
        ensures no_memory { IsErrOf result Outage.NoMemory → ⊥ }
    {
        let answer = self.len_of(disk);
        self.counts.after(disk, answer)
    }

    /// Keeps the open file with all its disk's bytes, and ignores the pick.
    #[tactic(auto, using(crate::proofs::FileCalls::untold_restart))]
    fn restart(&mut self, disk: Disk, _pick: u64) -> Result<(), Outage>
        ensures call { Restarts (file_disks C.greatest self.old) (file_disks C.greatest self.new) (number disk) result }
        ensures counts { counts_of self.new ≡ counted (counts_of self.old) (number disk) (is_err result) }
        ensures no_memory { IsErrOf result Outage.NoMemory → ⊥ }
    {
        let answer = restart(disk, &mut self.log0, &mut self.log1, &self.pages);
        self.counts.after(disk, answer)
    }

    fn now(&mut self) -> u64
        ensures disks { SameDisks (file_disks C.greatest self.old) (file_disks C.greatest self.new) }
        ensures clock { (file_disks C.greatest self.new).clock ≡ max (file_disks C.greatest self.old).clock result }
        ensures counts { counts_of self.new ≡ counts_of self.old }
        ensures asked { C.gives (clock_of self.old) result (clock_of self.new) }
    {
        self.clock.now()
    }

    ghost reads = { λ files d bytes told. tt };
}
