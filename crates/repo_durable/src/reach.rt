//! Whether the disk of pages has room for the installed sides.

ghost use Rattle.std.specs.Prelude.{◌≡◌, IfOk, IsErrOf, Ok, OnOk, false, length};
ghost use Rattle.disk_trait.specs.Disks.{Disks, NoNewImage, OnDisk, Rose, WhereTold};
ghost use Rattle.disk_trait.specs.declared.parts.Outage.TheVariants.{Failed, NoMemory};
ghost use Rattle.page_store.specs.Sides.{ReachesSides};
ghost use Rattle.repo_durable.specs.Reach.{are_within, end_of, is_within};

use disk_trait::{Disk, Outage, Parts};
use page_format::{PAGE_BYTES, Sides};

/// Whether the disk of pages reaches the end of each installed side: one call for its length.
pub(crate) fn reaches<P: Parts>(parts: &mut P, sides: &Sides) -> Result<bool, Outage>
    ensures alone { OnDisk (P.disks parts.old) (P.disks parts.new) 2 }
    ensures content { (P.disks parts.new).content 2 ≡ (P.disks parts.old).content 2 }
    ensures crash { NoNewImage (P.disks parts.old) (P.disks parts.new) 2 }
    ensures answer { IfOk result (λ answer. WhereTold (P.disks parts.old) 2 (λ disk. answer ≡ are_within (length disk) sides.now)) }
    ensures failed { IsErrOf result Failed → Rose ((P.disks parts.old).faults 2) ((P.disks parts.new).faults 2) }
    ensures steady { OnOk result ((P.disks parts.new).faults 2 ≡ (P.disks parts.old).faults 2) }
    ensures wanting { IsErrOf result NoMemory → (P.disks parts.new).faults 2 ≡ (P.disks parts.old).faults 2 }
    ensures lacks { result ≡ Ok false → WhereTold (P.disks parts.old) 2 (λ disk. ReachesSides sides.now disk → ⊥) }
{
    let length = parts.len(Disk::Pages)?;
    Ok(are_within(sides.as_slice(), length))
}

/// Whether sides of pages end within a length.
fn are_within(sides: &[(u32, u8)], length: u64) -> bool
    ensures { result ≡ are_within length sides.now }
{
    for side in sides {
        if !is_within(*side, length) {
            return false;
        }
    }
    true
}

/// Whether a side of a page ends within a length.
fn is_within(side: (u32, u8), length: u64) -> bool
    ensures { result ≡ is_within length side }
{
    end_of(side.0, side.1) <= length
}

/// Where a side of a page ends.
fn end_of(page: u32, side: u8) -> u64
    ensures { result ≡ end_of page side }
{
    (2 * u64::from(page) + u64::from(side) + 1) * PAGE_BYTES as u64
}
