//! Pages on a disk, each with two sides.

ghost use Rattle.std.specs.Prelude.{◌≡◌, ◌≤◌, length, IfOk};
ghost use Rattle.disk_trait.specs.Disks.{WhereTold, IsSettled};
ghost use Rattle.disk_trait.specs.MemParts.{mem_disks};
ghost use Rattle.page_store.specs.Objects.{HasObjects};

use disk_trait::{Clock, Disk, MemParts, Parts, TickClock};
use page_format::{Page, Sides};
use page_store::{PageStore, StoreFault};
use std::alloc::Global;
use std::test::Fail;

/// The sides that three installs of a page answer, each put in use, and how many pages are listed then.
fn install_thrice<P: Parts>(
    alloc: Global,
    parts: &mut P,
    page: &Page,
) -> Result<([u8; 3], usize), StoreFault>
    requires settled { IsSettled (P.disks parts.old) 2 }
    requires objects { HasObjects page.now }
{
    let number = page.number();
    let mut store = PageStore::new(alloc, &Sides::new(alloc))?;
    let first = store.install(parts, page)?;
    store.settle(number, first);
    let second = store.install(parts, page)?;
    store.settle(number, second);
    let third = store.install(parts, page)?;
    store.settle(number, third);
    store.read(parts, number)?;
    Ok(([first, second, third], store.sides().as_slice().len()))
}

/// Reads page 0, whose side 0 is in use, twice: how many objects it has.
fn read_twice<P: Parts>(alloc: Global, parts: &mut P) -> Result<u8, StoreFault>
    requires { WhereTold (P.disks parts.old) 2 (λ disk. 16384 ≤ length disk) }
{
    let mut sides = Sides::new(alloc);
    sides.put(0, 0)?;
    let mut store = PageStore::new(alloc, &sides)?;
    store.hold(parts, 0)?;
    store.hold(parts, 1)?;
    Ok(store.read(parts, 0)?.len())
}

fn parts(alloc: Global, front: &[u8], fails: &[(u8, u64)]) -> Result<MemParts<TickClock>, Fail>
    ensures settled { IfOk result (λ parts. IsSettled (mem_disks ⟦<TickClock as Clock>⟧.greatest parts) 2) }
    ensures size { IfOk result (λ parts. WhereTold (mem_disks ⟦<TickClock as Clock>⟧.greatest parts) 2 (λ disk. 16384 ≤ length disk)) }
{
    let mut pages = Vec::from_slice(alloc, front)?;
    pages.resize(16384.max(front.len()), 0)?;
    Ok(MemParts::new(
        Vec::new(alloc),
        Vec::new(alloc),
        pages,
        Vec::from_slice(alloc, fails)?,
        TickClock::new(1),
    ))
}

/// Whether page 3 goes to side 0, then 1, then 0, and its first bytes stand there. There are two calls for each
/// install; the read finds the page held.
fn sides_alternate(alloc: Global, page: &Page) -> Result<bool, Fail>
    requires { HasObjects page.now }
{
    let mut parts = parts(alloc, &[], &[])?;
    let installed = install_thrice(alloc, &mut parts, page)?;
    let bytes = parts.bytes(Disk::Pages);
    let begins = bytes.get(114688..114696) == Some([84, 80, 2, 0, 0, 0, 0, 3].as_slice());
    Ok(
        installed == ([0, 1, 0], 1)
            && parts.calls(Disk::Pages).len() == 6
            && bytes.len() == 131072
            && begins,
    )
}

#[test]
fn a_page_goes_to_side_0_then_1_then_0(rt: HostRuntime) -> Result<(), Fail> {
    let page = Page::empty(rt.alloc(), 3)?;
    assert!(rt; sides_alternate(rt.alloc(), &page)?);
    Ok(())
}

/// What the installs answer where a call fails.
fn failed(alloc: Global, page: &Page, call: u64) -> Result<Option<StoreFault>, Fail>
    requires { HasObjects page.now }
{
    let mut parts = parts(alloc, &[], &[(2, call)])?;
    Ok(install_thrice(alloc, &mut parts, page).err())
}

#[test]
fn a_failing_call_is_told(rt: HostRuntime) -> Result<(), Fail> {
    let page = Page::empty(rt.alloc(), 3)?;
    for call in 1..7u64 {
        let fault = failed(rt.alloc(), &page, call)?;
        assert!(rt; fault == Some(StoreFault::Failed), "call {call}");
    }
    Ok(())
}

/// The front of page 0, and how many objects are read of it, where it is none a damage is told.
const FRONTS: &[(&[u8], Option<u8>)] = &[
    (&[84, 80, 2, 0, 0, 0, 0, 0], Some(0)),
    // An object of class 0 and version 0 without fields, in slot 11.
    (
        &[84, 80, 2, 1, 0, 0, 0, 0, 11, 0, 7, 0, 0, 0, 0, 0, 0, 0],
        Some(1),
    ),
    // No page; another page; a slot of 12.
    (&[84, 81, 1, 0, 0, 0, 0, 0], None),
    (&[84, 80, 2, 0, 0, 0, 0, 1], None),
    (
        &[84, 80, 2, 1, 0, 0, 0, 0, 12, 0, 7, 0, 0, 0, 0, 0, 0, 0],
        None,
    ),
    // An object that is cut, one with a byte behind it, one of 33 fields, one with no value in a field.
    (
        &[84, 80, 2, 1, 0, 0, 0, 0, 11, 0, 6, 0, 0, 0, 0, 0, 0],
        None,
    ),
    (
        &[84, 80, 2, 1, 0, 0, 0, 0, 11, 0, 8, 0, 0, 0, 0, 0, 0, 0, 0],
        None,
    ),
    (
        &[84, 80, 2, 1, 0, 0, 0, 0, 11, 0, 7, 0, 0, 0, 0, 0, 0, 33],
        None,
    ),
    (
        &[84, 80, 2, 1, 0, 0, 0, 0, 11, 0, 8, 0, 0, 0, 0, 0, 0, 1, 9],
        None,
    ),
];

/// Whether page 0 is read so where the disk begins with these bytes, in one call of the disk. Page 1 was never
/// installed.
fn is_read(alloc: Global, front: &[u8], want: Option<u8>) -> Result<bool, Fail> {
    let mut parts = parts(alloc, front, &[])?;
    let read = read_twice(alloc, &mut parts);
    Ok(read == want.ok_or(StoreFault::Damaged { place: 0 }) && parts.calls(Disk::Pages).len() == 1)
}

#[test]
fn a_page_is_read_or_damaged(rt: HostRuntime) -> Result<(), Fail> {
    for (front, want) in FRONTS {
        assert!(rt; is_read(rt.alloc(), front, *want)?, "front {front:?}");
    }
    Ok(())
}
