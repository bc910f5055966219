//! Objects: a page that is flushed onto a disk that fails and crashes, opened again.

ghost use Rattle.std.specs.Prelude.{◌≡◌, ◌<◌, ◌≤◌, length, IfOk};
ghost use Rattle.thor_value.specs.Spelling.{OrefFits};
ghost use Rattle.disk_trait.specs.Disks.{IsSettled, WhereTold};
ghost use Rattle.disk_trait.specs.MemParts.{mem_disks};
ghost use Rattle.mob_buffer.specs.Buffer.{AreOf, IsOf};

use disk_trait::{Clock, Disk, MemParts, Parts, TickClock};
use mob_buffer::Mob;
use mob_flusher::{Flushed, ObjectStore};
use page_format::Sides;
use page_store::{PageStore, StoreFault};
use std::alloc::Global;
use std::test::Fail;
use thor_value::{NoMemory, Obj, Oref, Sequence, Value, Writes};

/// Page 0 with objects of the numbers 6 and 7 in slots 5 and 11.
const FRONT: &[u8] = &[
    84, 80, 2, 2, 0, 0, 0, 0, 5, 0, 16, 0, 0, 0, 0, 0, 0, 1, 1, 0, 0, 0, 0, 0, 0, 0, 6, 11, 0, 16,
    0, 0, 0, 0, 0, 0, 1, 1, 0, 0, 0, 0, 0, 0, 0, 7,
];

fn name(slot: u8) -> Oref
    requires { slot < 12 }
    ensures value { result ≡ record { repo = 1; page = 0; slot = slot } }
    ensures fits { OrefFits result }
{
    Oref {
        repo: 1,
        page: 0,
        slot,
    }
}

/// A write of an object of one number.
fn write(alloc: Global, slot: u8, number: i64) -> Result<(Oref, Obj), NoMemory>
    requires { slot < 12 }
    ensures { IfOk result (IsOf 1) }
{
    let mut fields = Sequence::new(alloc);
    fields.push(Value::Int(number))?;
    let object = Obj {
        class: 0,
        ver: 0,
        fields,
    };
    Ok((name(slot), object))
}

/// Writes of the numbers 1 and 2 to slots 0 and 11.
fn writes(alloc: Global) -> Result<Writes, NoMemory>
    ensures { IfOk result (AreOf 1) }
{
    let first = write(alloc, 0, 1)?;
    let last = write(alloc, 11, 2)?;
    let mut writes = Writes::new(alloc);
    writes.push(first)?;
    writes.push(last)?;
    Ok(writes)
}

/// Makes the writes where side 0 of page 0 is in use, and flushes it; then the disk crashes.
fn flush<P: Parts>(alloc: Global, parts: &mut P, pick: u64) -> Result<Flushed, StoreFault>
    requires settled { IsSettled (P.disks parts.old) 2 }
    requires long { WhereTold (P.disks parts.old) 2 (λ disk. 32768 ≤ length disk) }
{
    let mut sides = Sides::new(alloc);
    sides.put(0, 0)?;
    let pages = PageStore::new(alloc, &sides)?;
    let mut store = ObjectStore::new(alloc, pages, Mob::new(alloc, 0)?);
    store.load(&writes(alloc)?)?;
    let answer = store.flush_one(parts);
    parts.restart(Disk::Pages, pick)?;
    answer
}

/// The number in a slot of page 0 once a log tells which side of it is in use; the writes were in the buffer.
fn number<P: Parts>(
    alloc: Global,
    parts: &mut P,
    side: u8,
    slot: u8,
) -> Result<Option<i64>, StoreFault>
    requires side { side < 2 }
    requires long { WhereTold (P.disks parts.old) 2 (λ disk. 32768 ≤ length disk) }
{
    let pages = PageStore::new(alloc, &Sides::new(alloc))?;
    let mut store = ObjectStore::new(alloc, pages, Mob::new(alloc, 0)?);
    store.load(&writes(alloc)?)?;
    store.installed(0, side)?;
    let object = store.get(parts, name(slot.min(11)))?;
    Ok(number_of(object.as_ref()))
}

/// The number of an object of one number.
fn number_of(object: Option<&Obj>) -> Option<i64> {
    match object?.fields.get(0) {
        Some(Value::Int(number)) => Some(*number),
        _ => None,
    }
}

/// A disk of pages with these bytes in front, on which a call fails.
fn parts(alloc: Global, front: &[u8], call: u64) -> Result<MemParts<TickClock>, NoMemory>
    ensures settled { IfOk result (λ parts. IsSettled (mem_disks ⟦<TickClock as Clock>⟧.greatest parts) 2) }
    ensures long { IfOk result (λ parts. WhereTold (mem_disks ⟦<TickClock as Clock>⟧.greatest parts) 2 (λ disk. 32768 ≤ length disk)) }
{
    let mut pages = Vec::from_slice(alloc, front)?;
    pages.resize(32768.max(front.len()), 0)?;
    Ok(MemParts::new(
        Vec::new(alloc),
        Vec::new(alloc),
        pages,
        Vec::from_slice(alloc, &[(2, call)])?,
        TickClock::new(1),
    ))
}

/// What the flush answers, and the number in a slot once the disk is opened again.
fn flushed(
    alloc: Global,
    fails: u64,
    pick: u64,
    side: u8,
    slot: u8,
) -> Result<(Result<Flushed, StoreFault>, Option<i64>), StoreFault>
    requires { side < 2 }
{
    let mut disk = parts(alloc, FRONT, fails)?;
    let answer = flush(alloc, &mut disk, pick);
    let mut opened = parts(alloc, disk.bytes(Disk::Pages), 0)?;
    Ok((answer, number(alloc, &mut opened, side, slot)?))
}

/// Slots and the numbers there before the flush.
const BEFORE: &[(u8, Option<i64>)] = &[(0, None), (5, Some(6)), (11, Some(7))];

/// And behind it.
const BEHIND: &[(u8, Option<i64>)] = &[(0, Some(1)), (5, Some(6)), (11, Some(2))];

/// Whether a flush of which this call fails leaves all numbers.
fn leaves_all(alloc: Global, fails: u64, pick: u64) -> Result<bool, Fail> {
    for (slot, number) in BEFORE {
        let found = flushed(alloc, fails, pick, 0, *slot)?;
        if found != (Err(StoreFault::Failed), *number) {
            return Ok(false);
        }
    }
    Ok(true)
}

#[test]
fn a_flush_that_fails_leaves_all_objects(rt: HostRuntime) -> Result<(), Fail> {
    // The flush reads, writes and syncs.
    for fails in 1..4u64 {
        for pick in [0, 1, 2, 9u64] {
            assert!(rt;
                leaves_all(rt.alloc(), fails, pick)?,
                "call {fails} pick {pick}"
            );
        }
    }
    for (slot, number) in BEHIND {
        let found = flushed(rt.alloc(), 0, 9, 1, *slot)?;
        assert!(rt; found == (Ok(Flushed::Installed { page: 0, side: 1 }), *number));
    }
    Ok(())
}
