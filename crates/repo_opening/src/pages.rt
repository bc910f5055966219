//! The installed pages of a repository, read once for the checks of an opening.

ghost use Rattle.disk_trait.specs.Disks.{Rose, WhereTold};
ghost use Rattle.page_format.specs.Formats.{page_size_in};
ghost use Rattle.page_store.specs.Sides.{place_in};
ghost use Rattle.recovery.specs.Paged.{HasSide, HasSides, IsOnSide, Stays};
ghost use Rattle.repo_opening.specs.Paged.{PutsPaged, PutsSide};
ghost use Rattle.repo_opening.specs.Recovered.{HasBytes};
ghost use Rattle.repo_opening.specs.Told.{page_fault_of};
ghost use Rattle.repo_opening.specs.Unsound.{IsNoPage, IsNoSide};
ghost use Rattle.repo_opening.specs.declared.unopened.Unopened.TheVariants.{Damaged, Failed};
ghost use Rattle.std.specs.Prelude.{IfOk, IsErrOf, List, OnOk, Some, ◌+◌, ◌<◌, ◌≡◌, ◌≤◌, ℕ};
ghost use Rattle.thor_value.specs.FiniteMap.{overwrite};

use crate::unopened::{Unopened, outage_of};
use disk_trait::{Disk, Parts};
use page_format::{Sides, StoreFormat};
use page_store::{StoreFault, place_in};
use recovery::read_objects;
use std::alloc::Global;
use thor_value::{NoMemory, Obj, OrefMap, Writes};

/// Puts the objects of all installed pages into a map, and answers the page behind the last one that has any. Their sides are at
/// the places that the format of the store tells.
pub(crate) fn read_pages<P: Parts>(
    alloc: Global,
    parts: &mut P,
    format: StoreFormat,
    repo: u8,
    installed: &Sides,
    objects: &mut OrefMap<Obj>,
) -> Result<u32, Unopened>
    ensures stays { Stays (P.disks parts.old) (P.disks parts.new) }
    ensures sides { OnOk result (WhereTold (P.disks parts.new) 2 (HasSides format installed.now)) }
    ensures paged { (disk : List ℕ) → (P.disks parts.old).content 2 ≡ Some disk → OnOk result (PutsPaged format repo disk installed.now objects.old objects.new) }
    ensures damaged { (r d place : ℕ) → IsErrOf result (Damaged r d place) → (r ≡ repo) × (d ≡ 2) × WhereTold (P.disks parts.old) 2 (λ disk. IsNoPage format repo disk installed.now place) }
    ensures failed { (r : ℕ) → IsErrOf result (Failed r) → (r ≡ repo) × Rose ((P.disks parts.old).faults 2) ((P.disks parts.new).faults 2) }
{
    let mut behind = 0;
    let size = length_of(parts, repo)?;
    for page in installed.as_slice() {
        let has_objects = read_side(alloc, parts, format, repo, *page, size, objects)?;
        if has_objects {
            behind = page.0.saturating_add(1);
        }
    }
    Ok(behind)
}

/// Puts the objects of an installed page into a map, where the disk has so many bytes. It answers whether the
/// page has any.
#[tactic(auto, using(recovery::proofs::Moving::stays_none))]
fn read_side<P: Parts>(
    alloc: Global,
    parts: &mut P,
    format: StoreFormat,
    repo: u8,
    installed: (u32, u8),
    size: u64,
    objects: &mut OrefMap<Obj>,
) -> Result<bool, Unopened>
    requires { HasBytes (P.disks parts.old) size }
    ensures stays { Stays (P.disks parts.old) (P.disks parts.new) }
    ensures within { OnOk result (WhereTold (P.disks parts.new) 2 (λ disk. HasSide format disk installed)) }
    ensures side { (disk : List ℕ) → (P.disks parts.old).content 2 ≡ Some disk → OnOk result (PutsSide format repo disk installed objects.old objects.new) }
    ensures damaged { (r d place : ℕ) → IsErrOf result (Damaged r d place) → (r ≡ repo) × (d ≡ 2) × (place ≡ place_in format installed.0 installed.1) × WhereTold (P.disks parts.old) 2 (λ disk. IsNoSide format repo disk installed) }
    ensures failed { (r : ℕ) → IsErrOf result (Failed r) → (r ≡ repo) × Rose ((P.disks parts.old).faults 2) ((P.disks parts.new).faults 2) }
{
    check_room(format, repo, installed, size)?;
    match read_objects(alloc, parts, format, repo, installed) {
        Ok(found) => {
            let has_objects = !found.is_empty();
            put_objects(objects, found)?;
            Ok(has_objects)
        }
        Err(fault) => Err(page_fault_of(repo, fault)),
    }
}

/// Whether a disk of so many bytes has room for a side.
fn check_room(
    format: StoreFormat,
    repo: u8,
    installed: (u32, u8),
    size: u64,
) -> Result<(), Unopened>
    ensures room { OnOk result (place_in format installed.0 installed.1 + page_size_in format ≤ size) }
    ensures damaged { (r d place : ℕ) → IsErrOf result (Damaged r d place) → (r ≡ repo) × (d ≡ 2) × (place ≡ place_in format installed.0 installed.1) × (size < place_in format installed.0 installed.1 + page_size_in format) }
    ensures failed { (r : ℕ) → IsErrOf result (Failed r) → ⊥ }
{
    let place = place_in(format, installed.0, installed.1);
    if size < place + format.page_bytes() as u64 {
        return Err(Unopened::Damaged {
            repo,
            disk: Disk::Pages.number(),
            place,
        });
    }
    Ok(())
}

/// Puts objects into a map.
fn put_objects(objects: &mut OrefMap<Obj>, found: Writes) -> Result<(), NoMemory>
    ensures { OnOk result (objects.new ≡ overwrite objects.old found) }
{
    for (name, object) in found.into_vec() {
        objects.insert(name, object)?;
    }
    Ok(())
}

/// How many bytes the disk of pages has.
fn length_of<P: Parts>(parts: &mut P, repo: u8) -> Result<u64, Unopened>
    ensures stays { Stays (P.disks parts.old) (P.disks parts.new) }
    ensures size { IfOk result (HasBytes (P.disks parts.new)) }
    ensures damaged { (r d place : ℕ) → IsErrOf result (Damaged r d place) → ⊥ }
    ensures failed { (r : ℕ) → IsErrOf result (Failed r) → (r ≡ repo) × Rose ((P.disks parts.old).faults 2) ((P.disks parts.new).faults 2) }
{
    match parts.len(Disk::Pages) {
        Ok(size) => Ok(size),
        Err(outage) => Err(outage_of(repo, outage)),
    }
}

/// A fault of a page as one of the store.
fn page_fault_of(repo: u8, fault: StoreFault) -> Unopened
    ensures { result ≡ page_fault_of repo fault }
{
    match fault {
        StoreFault::Failed => Unopened::Failed { repo },
        StoreFault::Damaged { place } => Unopened::Damaged {
            repo,
            disk: Disk::Pages.number(),
            place,
        },
        StoreFault::NoMemory => Unopened::NoMemory,
    }
}
