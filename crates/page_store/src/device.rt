//! A side of a page is read, in the format of its store, or written and synced.

ghost use Rattle.std.specs.Prelude.{◌≡◌, ◌+◌, ◌<◌, ◌≤◌, ◌^◌, ℕ, List, length, Some, IfOk, OnOk, IsErrOf};
ghost use Rattle.disk_trait.specs.Disks.{Disks, OnDisk, Leaves, WhereTold, MayLeave, IsSettled, NoNewImage, Rose, Torn, written};
ghost use Rattle.page_format.specs.Formats.{page_size_in};
ghost use Rattle.page_format.specs.Pages.{Contents, page_size};
ghost use Rattle.page_store.specs.Objects.{HasObjects, Spells, SpellsIn};
ghost use Rattle.page_store.specs.Sides.{place_in, place_of, side_bytes, side_bytes_in};
ghost use Rattle.page_store.specs.declared.fault.StoreFault.TheVariants.{Damaged, Failed, NoMemory as OutOfMemory};

use crate::fault::StoreFault;
use crate::objects::page_of_objects;
use disk_trait::{Disk, Parts};
use page_format::{OLDER_PAGE_BYTES, PAGE_BYTES, Page, StoreFormat};
use std::alloc::Global;

/// Where a side of a page begins on the disk.
pub(crate) fn place_of(page: u32, side: u8) -> u64
    ensures { result ≡ place_of page side }
{
    (2 * u64::from(page) + u64::from(side)) * PAGE_BYTES as u64
}

/// Reads a side of a page: one device call.
pub(crate) fn read_side<P: Parts>(
    alloc: Global,
    parts: &mut P,
    page: u32,
    side: u8,
) -> Result<Page, StoreFault>
    requires within { WhereTold (P.disks parts.old) 2 (λ disk. place_of page side + page_size ≤ length disk) }
    ensures alone { OnDisk (P.disks parts.old) (P.disks parts.new) 2 }
    ensures content { (P.disks parts.new).content 2 ≡ (P.disks parts.old).content 2 }
    ensures crash { NoNewImage (P.disks parts.old) (P.disks parts.new) 2 }
    ensures still { Leaves (P.disks parts.old) (P.disks parts.new) 2 (MayLeave (P.disks parts.old) 2) }
    ensures found { IfOk result (λ found. WhereTold (P.disks parts.old) 2 (λ disk. Spells (side_bytes disk page side) page found)) }
    ensures objects { IfOk result HasObjects }
    ensures number { IfOk result (λ found. found.number ≡ page) }
    ensures calls { OnOk result ((P.disks parts.old).time + 1 < 2 ^ 64 → (P.disks parts.new).time ≡ (P.disks parts.old).time + 1) }
    ensures place { (place : ℕ) → IsErrOf result (Damaged place) → place ≡ place_of page side }
    ensures damaged { (place : ℕ) → IsErrOf result (Damaged place) → WhereTold (P.disks parts.old) 2 (λ disk. (found : Contents) → Spells (side_bytes disk page side) page found → ⊥) }
    ensures failed { IsErrOf result Failed → Rose ((P.disks parts.old).faults 2) ((P.disks parts.new).faults 2) }
    ensures steady { OnOk result ((P.disks parts.new).faults 2 ≡ (P.disks parts.old).faults 2) }
    ensures wanting { IsErrOf result OutOfMemory → (P.disks parts.new).faults 2 ≡ (P.disks parts.old).faults 2 }
    ensures harmed { (place : ℕ) → IsErrOf result (Damaged place) → (P.disks parts.new).faults 2 ≡ (P.disks parts.old).faults 2 }
{
    read_side_in(alloc, parts, StoreFormat::Two, page, side)
}

/// Where a side of a page begins on the disk, in a store of a format.
pub fn place_in(format: StoreFormat, page: u32, side: u8) -> u64
    ensures place { result ≡ place_in format page side }
    ensures small { result < 2 ^ 48 }
{
    let before = 2 * u64::from(page) + u64::from(side);
    match format {
        StoreFormat::One => before * OLDER_PAGE_BYTES as u64,
        StoreFormat::Two => before * PAGE_BYTES as u64,
    }
}

/// Reads a side of a page in a store of a format: one device call. `Damaged` comes exactly where its bytes are no page of objects
/// with this number, in this format.
#[tactic(auto, using(disk_trait::proofs::Runs::alone_then, disk_trait::proofs::Runs::still_none, disk_trait::proofs::Runs::still_call))]
pub fn read_side_in<P: Parts>(
    alloc: Global,
    parts: &mut P,
    format: StoreFormat,
    page: u32,
    side: u8,
) -> Result<Page, StoreFault>
    requires within { WhereTold (P.disks parts.old) 2 (λ disk. place_in format page side + page_size_in format ≤ length disk) }
    ensures alone { OnDisk (P.disks parts.old) (P.disks parts.new) 2 }
    ensures content { (P.disks parts.new).content 2 ≡ (P.disks parts.old).content 2 }
    ensures crash { NoNewImage (P.disks parts.old) (P.disks parts.new) 2 }
    ensures still { Leaves (P.disks parts.old) (P.disks parts.new) 2 (MayLeave (P.disks parts.old) 2) }
    ensures found { IfOk result (λ found. WhereTold (P.disks parts.old) 2 (λ disk. SpellsIn format (side_bytes_in format disk page side) page found)) }
    ensures objects { IfOk result HasObjects }
    ensures number { IfOk result (λ found. found.number ≡ page) }
    ensures calls { OnOk result ((P.disks parts.old).time + 1 < 2 ^ 64 → (P.disks parts.new).time ≡ (P.disks parts.old).time + 1) }
    ensures place { (place : ℕ) → IsErrOf result (Damaged place) → place ≡ place_in format page side }
    ensures damaged { (place : ℕ) → IsErrOf result (Damaged place) → WhereTold (P.disks parts.old) 2 (λ disk. (found : Contents) → SpellsIn format (side_bytes_in format disk page side) page found → ⊥) }
    ensures failed { IsErrOf result Failed → Rose ((P.disks parts.old).faults 2) ((P.disks parts.new).faults 2) }
    ensures steady { OnOk result ((P.disks parts.new).faults 2 ≡ (P.disks parts.old).faults 2) }
    ensures wanting { IsErrOf result OutOfMemory → (P.disks parts.new).faults 2 ≡ (P.disks parts.old).faults 2 }
    ensures harmed { (place : ℕ) → IsErrOf result (Damaged place) → (P.disks parts.new).faults 2 ≡ (P.disks parts.old).faults 2 }
{
    let bytes = read_bytes(alloc, parts, format, page, side)?;
    match page_of_objects(alloc, format, &bytes, page)? {
        Some(found) => Ok(found),
        None => Err(StoreFault::Damaged {
            place: place_in(format, page, side),
        }),
    }
}

/// Reads the bytes of a side of a page: one device call.
#[tactic(auto, using(disk_trait::proofs::Runs::alone_then, disk_trait::proofs::Runs::still_none, disk_trait::proofs::Runs::still_call))]
fn read_bytes<P: Parts>(
    alloc: Global,
    parts: &mut P,
    format: StoreFormat,
    page: u32,
    side: u8,
) -> Result<Vec<u8>, StoreFault>
    requires within { WhereTold (P.disks parts.old) 2 (λ disk. place_in format page side + page_size_in format ≤ length disk) }
    ensures alone { OnDisk (P.disks parts.old) (P.disks parts.new) 2 }
    ensures content { (P.disks parts.new).content 2 ≡ (P.disks parts.old).content 2 }
    ensures crash { NoNewImage (P.disks parts.old) (P.disks parts.new) 2 }
    ensures still { Leaves (P.disks parts.old) (P.disks parts.new) 2 (MayLeave (P.disks parts.old) 2) }
    ensures bytes { IfOk result (λ got. WhereTold (P.disks parts.old) 2 (λ disk. got.items ≡ side_bytes_in format disk page side)) }
    ensures calls { OnOk result ((P.disks parts.old).time + 1 < 2 ^ 64 → (P.disks parts.new).time ≡ (P.disks parts.old).time + 1) }
    ensures damaged { (place : ℕ) → IsErrOf result (Damaged place) → ⊥ }
    ensures failed { IsErrOf result Failed → Rose ((P.disks parts.old).faults 2) ((P.disks parts.new).faults 2) }
    ensures steady { OnOk result ((P.disks parts.new).faults 2 ≡ (P.disks parts.old).faults 2) }
    ensures wanting { IsErrOf result OutOfMemory → (P.disks parts.new).faults 2 ≡ (P.disks parts.old).faults 2 }
{
    let mut bytes = zeros(alloc, format)?;
    parts.read_at(Disk::Pages, place_in(format, page, side), &mut bytes)?;
    Ok(bytes)
}

/// So many bytes of 0 as a side has.
fn zeros(alloc: Global, format: StoreFormat) -> Result<Vec<u8>, StoreFault>
    ensures len { IfOk result (λ bytes. length bytes.items ≡ page_size_in format) }
    ensures damaged { (place : ℕ) → IsErrOf result (Damaged place) → ⊥ }
    ensures failed { IsErrOf result Failed → ⊥ }
{
    Ok(vec![in alloc; 0u8; format.page_bytes()]?)
}

/// Writes a side of a page and syncs it: two device calls.
#[tactic(auto, using(disk_trait::proofs::Runs::alone_then))]
pub(crate) fn write_side<P: Parts>(
    parts: &mut P,
    page: u32,
    side: u8,
    bytes: &[u8],
) -> Result<(), StoreFault>
    requires settled { IsSettled (P.disks parts.old) 2 }
    requires size { length bytes.now ≡ page_size }
    ensures alone { OnDisk (P.disks parts.old) (P.disks parts.new) 2 }
    ensures any_moment { WhereTold (P.disks parts.old) 2 (λ disk. Leaves (P.disks parts.old) (P.disks parts.new) 2 (Torn (place_of page side) page_size disk)) }
    ensures content { OnOk result (WhereTold (P.disks parts.old) 2 (λ disk. (P.disks parts.new).content 2 ≡ Some (written disk (place_of page side) bytes.now))) }
    ensures settled { OnOk result (IsSettled (P.disks parts.new) 2) }
    ensures calls { OnOk result ((P.disks parts.old).time + 2 < 2 ^ 64 → (P.disks parts.new).time ≡ (P.disks parts.old).time + 2) }
    ensures damaged { (place : ℕ) → IsErrOf result (Damaged place) → ⊥ }
    ensures failed { IsErrOf result Failed → Rose ((P.disks parts.old).faults 2) ((P.disks parts.new).faults 2) }
    ensures steady { OnOk result ((P.disks parts.new).faults 2 ≡ (P.disks parts.old).faults 2) }
    ensures wanting { IsErrOf result OutOfMemory → (P.disks parts.new).faults 2 ≡ (P.disks parts.old).faults 2 }
{
    parts.write_at(Disk::Pages, place_of(page, side), bytes)?;
    parts.sync(Disk::Pages)?;
    Ok(())
}
