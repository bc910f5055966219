//! What disks hold is the store that a history leaves.

ghost use Rattle.std.specs.Prelude.{IfOk};
ghost use Rattle.thor_value.specs.FiniteMap.{IsSorted};

use crate::faults::{Fault, Wrong};
use crate::same::are_same;
use class_defs::Plain;
use disk_trait::{MemParts, TickClock};
use std::alloc::Global;
use store_opening::Found;

/// The store that was found.
pub(crate) fn stored(alloc: Global, found: &Found<MemParts<TickClock>>) -> Result<Plain, Fault>
    ensures { IfOk result (λ store. IsSorted store.objects) }
{
    match found.opened(alloc)? {
        Some(store) => Ok(store),
        None => Err(Fault::Wrong(Wrong::Opening)),
    }
}

/// What was found is this store.
pub(crate) fn compare(
    alloc: Global,
    found: &Found<MemParts<TickClock>>,
    store: &Plain,
    wrong: Wrong,
) -> Result<(), Fault> {
    let stored = stored(alloc, found)?;
    if are_same(alloc, &stored, store)? {
        Ok(())
    } else {
        Err(Fault::Wrong(wrong))
    }
}
