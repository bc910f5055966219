//! One repository, as an opening finds it on its disks.

ghost use Rattle.disk_trait.specs.Numbers.{number};
ghost use Rattle.disk_trait.specs.AllDisks.{GoesOn};
ghost use Rattle.repo_opening.specs.Unsound.{AreNoLogs, Failing, HasPages, IsUnsound, LacksPage, said_pages};
ghost use Rattle.repo_opening.specs.declared.unopened.Unopened.TheVariants.{Damaged, Failed};
ghost use Rattle.disk_trait.specs.declared.parts.Outage.TheVariants.{Failed as DiskFailed};
ghost use Rattle.repo_opening.specs.Recovered.{Finds, IsHeld};
ghost use Rattle.repo_opening.specs.Same.{Same};
ghost use Rattle.repo_opening.specs.Paged.{PutsStored};
ghost use Rattle.disk_trait.specs.AllDisks.{AllSettled, ReadsAs};
ghost use Rattle.disk_trait.specs.Disks.{IsSettled, OnDisk};
ghost use Rattle.recovery.specs.Reopening.{reopens};
ghost use Rattle.commit_log.specs.Opening.{IsFresh};
ghost use Rattle.std.specs.Prelude.{IfOk, IfSome, IsErrOf, List, None, Ok, OnOk, false, true, ◌<◌, ◌≡◌, ◌≢◌, ◌⊎◌, ℕ};

use crate::pages::read_pages;
use crate::unheld::check_pages;
use crate::unopened::{Unopened, outage_of};
use disk_trait::{Disk, Outage, Parts};
use recovery::{RecoverFault, Recovered, recover};
use std::alloc::Global;
use thor_value::{Obj, OrefMap};

/// What was read of a repository whose log is open.
#[derive(Clone, Copy)]
pub struct Read<'a> {
    pub recovered: &'a Recovered,
    /// The page behind the last installed one that has objects.
    pub behind: u32,
}

impl Read<'_> {
    /// What is told of a store that this repository's checkpoint damages.
    pub fn damaged(&self, repo: u8) -> Unopened
        ensures { result ≡ Damaged repo self.now.recovered.now.log.disk 0 }
    {
        damaged(self.recovered, repo)
    }
}

fn damaged(recovered: &Recovered, repo: u8) -> Unopened
    ensures { result ≡ Damaged repo recovered.now.log.disk 0 }
{
    Unopened::Damaged {
        repo,
        disk: recovered.log.disk(),
        place: 0,
    }
}

/// Syncs the disks of a repository, and reads it. The answer is what was recovered, and the page behind the
/// last one with objects; nothing where it is fresh. The objects of its pages are put into a map. `Damaged`, too,
/// once its pages are read, where its log prepares what it keeps as decided, or its checkpoint says another
/// repository or store size. A page that is damaged is told before that, and before a log of the format that can't be taken
/// into memory.
#[tactic(auto, using(crate::proofs::Syncing::same_then, crate::proofs::Reading::same_on, disk_trait::proofs::Several::goes_then))]
pub fn read_repository<P: Parts>(
    alloc: Global,
    parts: &mut P,
    repo: u8,
    repos: u8,
    mob: u32,
    objects: &mut OrefMap<Obj>,
) -> Result<Option<(Recovered, u32)>, Unopened>
    ensures found { IfOk result (Finds (P.disks parts.new)) }
    ensures same { Same (P.disks parts.old) (P.disks parts.new) }
    ensures goes { GoesOn (P.disks parts.old) (P.disks parts.new) }
    ensures stored { (images : ℕ → List ℕ) → ReadsAs (P.disks parts.old) images → OnOk result (PutsStored images objects.old objects.new) }
    ensures fresh { (images : ℕ → List ℕ) → ReadsAs (P.disks parts.old) images → result ≡ Ok None → IsFresh images }
    ensures reopens { (images : ℕ → List ℕ) → ReadsAs (P.disks parts.old) images → IfOk result (λ found. IfSome found (λ r. reopens images ≡ false)) }
    ensures damaged { (images : ℕ → List ℕ) (r d place : ℕ) → ReadsAs (P.disks parts.old) images → IsErrOf result (Damaged r d place) → (r ≡ repo) × IsUnsound repo repos images d place }
    ensures failed { (r : ℕ) → IsErrOf result (Failed r) → (r ≡ repo) × Failing (P.disks parts.old) (P.disks parts.new) }
{
    sync(parts, repo)?;
    let Some(recovered) = recover_one(alloc, parts, repo, mob)? else {
        return Ok(None);
    };
    let sides = recovered.state.objects().pages().sides();
    let behind = match read_pages(alloc, parts, recovered.format, repo, sides, objects) {
        Ok(behind) => behind,
        Err(fault) => {
            drop(recovered);
            return Err(fault);
        }
    };
    let read = numbered(recovered, behind, repo, repos)?;
    Ok(Some(read))
}

/// What was read of a repository, where its log prepares nothing that it keeps as decided, and its checkpoint says that it
/// is this one of so many. It comes behind the pages: a page that is damaged is told before this.
fn numbered(
    recovered: Recovered,
    behind: u32,
    repo: u8,
    repos: u8,
) -> Result<(Recovered, u32), Unopened>
    ensures read { IfOk result (λ read. read ≡ (recovered, behind)) }
    ensures number { IfOk result (λ read. recovered.state.repo ≡ repo) }
    ensures reopens { IfOk result (λ read. recovered.reopens ≡ false) }
    ensures damaged { (r d place : ℕ) → IsErrOf result (Damaged r d place) → (r ≡ repo) × (d ≡ recovered.log.disk) × (place ≡ 0) × ((recovered.state.repo ≢ repo) ⊎ (recovered.state.repos ≢ repos) ⊎ (recovered.reopens ≡ true)) }
    ensures failed { (r : ℕ) → IsErrOf result (Failed r) → ⊥ }
{
    if recovered.reopens || recovered.state.repo() != repo || recovered.state.repos() != repos {
        let fault = damaged(&recovered, repo);
        drop(recovered);
        return Err(fault);
    }
    Ok((recovered, behind))
}

/// Recovers a repository from its disks, which are synced. Nothing is there where it is fresh.
fn recover_one<P: Parts>(
    alloc: Global,
    parts: &mut P,
    repo: u8,
    mob: u32,
) -> Result<Option<Recovered>, Unopened>
    requires { AllSettled (P.disks parts.old) }
    ensures found { IfOk result (λ found. IfSome found (IsHeld (P.disks parts.new))) }
    ensures settled { AllSettled (P.disks parts.new) }
    ensures same { Same (P.disks parts.old) (P.disks parts.new) }
    ensures fresh { (images : ℕ → List ℕ) → ReadsAs (P.disks parts.old) images → result ≡ Ok None → IsFresh images }
    ensures reopens { (images : ℕ → List ℕ) → ReadsAs (P.disks parts.old) images → IfOk result (λ found. IfSome found (λ r. r.reopens ≡ reopens images)) }
    ensures goes { GoesOn (P.disks parts.old) (P.disks parts.new) }
    ensures damaged { (images : ℕ → List ℕ) (r d place : ℕ) → ReadsAs (P.disks parts.old) images → IsErrOf result (Damaged r d place) → (r ≡ repo) × ((AreNoLogs images d place × HasPages repo (images 2) (said_pages images)) ⊎ ((d ≡ 2) × LacksPage repo (images 2) place (said_pages images))) }
    ensures failed { (r : ℕ) → IsErrOf result (Failed r) → (r ≡ repo) × Failing (P.disks parts.old) (P.disks parts.new) }
{
    match recover(alloc, parts, mob) {
        Ok(found) => Ok(found),
        Err(RecoverFault::Damaged { disk, place }) => Err(unheld(alloc, parts, repo, disk, place)),
        Err(RecoverFault::Failed { disk: _disk }) => Err(Unopened::Failed { repo }),
        Err(RecoverFault::NoMemory) => Err(Unopened::NoMemory),
    }
}

/// What is told of a repository whose logs are damaged at a place: a page that they say to be installed comes first, where it isn't
/// one.
fn unheld<P: Parts>(alloc: Global, parts: &mut P, repo: u8, disk: u8, place: u64) -> Unopened
    requires { AllSettled (P.disks parts.old) }
    ensures settled { AllSettled (P.disks parts.new) }
    ensures same { Same (P.disks parts.old) (P.disks parts.new) }
    ensures goes { GoesOn (P.disks parts.old) (P.disks parts.new) }
    ensures damaged { (images : ℕ → List ℕ) (r d p : ℕ) → ReadsAs (P.disks parts.old) images → result ≡ Damaged r d p → (r ≡ repo) × (((d ≡ disk) × (p ≡ place) × HasPages repo (images 2) (said_pages images)) ⊎ ((d ≡ 2) × LacksPage repo (images 2) p (said_pages images))) }
    ensures failed { (r : ℕ) → result ≡ Failed r → (r ≡ repo) × Failing (P.disks parts.old) (P.disks parts.new) }
{
    match check_pages(alloc, parts, repo) {
        Ok(()) => Unopened::Damaged { repo, disk, place },
        Err(fault) => fault,
    }
}

/// Syncs the disks of a repository.
fn sync<P: Parts>(parts: &mut P, repo: u8) -> Result<(), Unopened>
    ensures settled { OnOk result (AllSettled (P.disks parts.new)) }
    ensures same { Same (P.disks parts.old) (P.disks parts.new) }
    ensures goes { GoesOn (P.disks parts.old) (P.disks parts.new) }
    ensures damaged { (r d place : ℕ) → IsErrOf result (Damaged r d place) → ⊥ }
    ensures failed { (r : ℕ) → IsErrOf result (Failed r) → (r ≡ repo) × Failing (P.disks parts.old) (P.disks parts.new) }
{
    match sync_all(parts) {
        Ok(()) => Ok(()),
        Err(outage) => Err(outage_of(repo, outage)),
    }
}

/// Syncs all disks. After `Ok` a crash leaves what a read gives.
#[tactic(auto, using(crate::proofs::Syncing::all_synced, crate::proofs::Syncing::same_then, crate::proofs::Syncing::goes_all, crate::proofs::Syncing::goes_both, crate::proofs::Syncing::failing_second, crate::proofs::Syncing::failing_third, disk_trait::proofs::Several::goes_one))]
fn sync_all<P: Parts>(parts: &mut P) -> Result<(), Outage>
    ensures settled { OnOk result (AllSettled (P.disks parts.new)) }
    ensures same { Same (P.disks parts.old) (P.disks parts.new) }
    ensures goes { GoesOn (P.disks parts.old) (P.disks parts.new) }
    ensures failed { IsErrOf result DiskFailed → Failing (P.disks parts.old) (P.disks parts.new) }
{
    sync_one(parts, Disk::Log0)?;
    sync_one(parts, Disk::Log1)?;
    sync_one(parts, Disk::Pages)
}

/// Syncs one disk.
#[tactic(auto, using(crate::proofs::Syncing::same_beside))]
fn sync_one<P: Parts>(parts: &mut P, disk: Disk) -> Result<(), Outage>
    ensures alone { OnDisk (P.disks parts.old) (P.disks parts.new) (number disk) }
    ensures settled { OnOk result (IsSettled (P.disks parts.new) (number disk)) }
    ensures same { Same (P.disks parts.old) (P.disks parts.new) }
    ensures failed { IsErrOf result DiskFailed → Failing (P.disks parts.old) (P.disks parts.new) }
{
    parts.sync(disk)
}
