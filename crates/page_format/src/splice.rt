//! Putting an object among others, and spelling a page.

ghost use Rattle.std.specs.Prelude.{◌≡◌, ◌≤◌, ◌<◌, ◌+◌, ◌-◌, ◌^◌, ◌++◌, ◌∷◌, length, take, drop, replicate, true, false, IfOk, IsErrOf, OnOk};
ghost use Rattle.std.specs.Int.{w16, to_be_bytes};
ghost use Rattle.std.specs.Ordering.{nat_cmp};
ghost use Rattle.std.specs.BTreeMap.{insert_entry};
ghost use Rattle.page_format.specs.Pages.{Passes, head, object_entry};
ghost use Rattle.page_format.specs.Walking.{AreStored, pairs_of};

use crate::fault::Full;
use crate::walk::{ENTRY, HEAD, PAGE, place};
use byteorder::{BigEndian, ByteOrder};
use std::alloc::{AllocError, Global};

/// The bytes of a page without objects, and more.
const ZEROS: [u8; PAGE] = [0; PAGE];

/// The objects with one of them put into its slot, and how many they are.
pub(crate) fn spliced(
    alloc: Global,
    entries: &[u8],
    count: u8,
    slot: u8,
    object: &[u8],
) -> Result<(Vec<u8>, u8), Full>
    requires { AreStored count entries.now }
    ensures stored { IfOk result (λ x. AreStored x.1 x.0.items) }
    ensures pairs { IfOk result (λ x. pairs_of x.1 x.0.items ≡ insert_entry nat_cmp (pairs_of count entries.now) slot object.now) }
    ensures full { IsErrOf result Full.NoRoom → Passes (insert_entry nat_cmp (pairs_of count entries.now) slot object.now) }
{
    let (start, end) = place(entries, count, slot);
    let kept = entries.len() - (end - start);
    if object.len() > PAGE || HEAD + kept + ENTRY + object.len() > PAGE {
        return Err(Full::NoRoom);
    }
    let added = if start == end { 1u8 } else { 0u8 };
    if count > u8::MAX - added {
        return Err(Full::NoRoom);
    }
    match joined(
        alloc,
        entries.split_at(start).0,
        slot,
        object,
        entries.split_at(end).1,
    ) {
        Ok(bytes) => Ok((bytes, count + added)),
        Err(_) => Err(Full::NoMemory),
    }
}

/// Puts an object in the place of one of its length that is in its slot, and tells whether there is one.
pub(crate) fn put_over(entries: &mut [u8], count: u8, slot: u8, object: &[u8]) -> bool
    requires { AreStored count entries.old }
    ensures stored { AreStored count entries.new }
    ensures pairs { result ≡ true → pairs_of count entries.new ≡ insert_entry nat_cmp (pairs_of count entries.old) slot object.now }
    ensures left { result ≡ false → entries.new ≡ entries.old }
{
    let (start, end) = place(entries, count, slot);
    if end - start != ENTRY + object.len() {
        return false;
    }
    put_at(entries, start, slot, object);
    true
}

/// Puts an object in its slot over the bytes from a place on.
fn put_at(entries: &mut [u8], start: usize, slot: u8, object: &[u8])
    requires within { start + (3 + length object.now) ≤ length entries.old }
    requires short { length object.now ≤ 16384 }
    ensures { entries.new ≡ (take start entries.old ++ object_entry (slot, object.now)) ++ drop (start + (3 + length object.now)) entries.old }
{
    let end = start + (ENTRY + object.len());
    fill(&mut entries[start..end], slot, object);
}

/// Puts an object in its slot over as many bytes as it takes.
fn fill(bytes: &mut [u8], slot: u8, object: &[u8])
    requires size { length bytes.old ≡ 3 + length object.now }
    requires short { length object.now ≤ 16384 }
    ensures { bytes.new ≡ object_entry (slot, object.now) }
{
    let (about, body) = bytes.split_at_mut(ENTRY);
    about.copy_from_slice(&about_bytes(slot, object.len() as u16));
    body.copy_from_slice(object);
}

/// What stands before an object of so many bytes: its slot, and the number of its bytes.
fn about_bytes(slot: u8, count: u16) -> [u8; 3]
    ensures { result ≡ slot ∷ to_be_bytes w16 count }
{
    let mut about = [slot, 0, 0];
    BigEndian::write_u16(&mut about[1..], count);
    about
}

/// An object in its slot, between the bytes of others.
fn joined(
    alloc: Global,
    front: &[u8],
    slot: u8,
    object: &[u8],
    back: &[u8],
) -> Result<Vec<u8>, AllocError>
    requires { length front.now + length object.now + length back.now ≤ 16384 }
    ensures { IfOk result (λ v. v.items ≡ front.now ++ object_entry (slot, object.now) ++ back.now) }
{
    let room = front.len() + ENTRY + object.len() + back.len();
    let mut bytes = Vec::with_capacity(alloc, room)?;
    bytes.extend_from_slice(front)?;
    bytes.extend_from_slice(&about_bytes(slot, object.len() as u16))?;
    bytes.extend_from_slice(object)?;
    bytes.extend_from_slice(back)?;
    Ok(bytes)
}

/// The bytes of a page with these objects.
pub(crate) fn spelled(
    alloc: Global,
    number: u32,
    count: u8,
    entries: &[u8],
) -> Result<Vec<u8>, AllocError>
    requires { 8 + length entries.now ≤ 16384 }
    ensures { IfOk result (λ v. v.items ≡ (head number count ++ entries.now) ++ replicate (16384 - (8 + length entries.now)) 0) }
{
    let mut bytes = Vec::with_capacity(alloc, PAGE)?;
    bytes.extend_from_slice(&head_bytes(number, count))?;
    bytes.extend_from_slice(entries)?;
    add_zeros(&mut bytes, PAGE - HEAD - entries.len())?;
    Ok(bytes)
}

/// Puts so many zeros behind the bytes.
fn add_zeros(bytes: &mut Vec<u8>, count: usize) -> Result<(), AllocError>
    requires { count ≤ 16384 }
    ensures { OnOk result (bytes.new.items ≡ bytes.old.items ++ replicate count 0) }
{
    bytes.extend_from_slice(zeros(ZEROS.as_slice(), count))?;
    Ok(())
}

/// The first of many zeros.
fn zeros(all: &[u8], count: usize) -> &[u8]
    requires all { all.now ≡ replicate 16384 0 }
    requires count { count ≤ 16384 }
    ensures { result.now ≡ replicate count 0 }
{
    all.split_at(count).0
}

fn head_bytes(number: u32, count: u8) -> [u8; 8]
    ensures { result ≡ head number count }
{
    let mut bytes = [84, 80, 2, count, 0, 0, 0, 0];
    BigEndian::write_u32(&mut bytes[4..], number);
    bytes
}
