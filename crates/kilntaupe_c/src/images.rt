//! The disks of a store as bytes: its image.
//!
//! An image has for each repository its three disks, one after the other: how many bytes it has, as eight bytes with the highest
//! first, and then these bytes. They are those of the files of a store.

use crate::devices::{Devices, GivenClock, first_devices};
use byteorder::{BigEndian, ByteOrder};
use disk_trait::{Call, Clock, Did, Disk, MemParts, TickClock};
use std::alloc::Global;
use thor_value::{NoMemory, Text, both};

/// The disks of repositories in memory, with their clocks.
pub(crate) type Disks<C> = Vec<MemParts<C>>;

/// The image of a new repository: three disks without bytes.
const NEW: [u8; 24] = [0; 24];

/// Why an image isn't read.
#[derive(Clone, Copy)]
pub(crate) enum Unread {
    /// It is none, or an option isn't in its range.
    Wrong,
    /// Memory was not there.
    NoMemory,
}

impl From<NoMemory> for Unread {
    fn from(_missing: NoMemory) -> Unread {
        Unread::NoMemory
    }
}

/// The bytes of the disk with which an image begins, and the rest.
fn first_disk(image: &[u8]) -> Result<(&[u8], &[u8]), Unread> {
    if image.len() < 8 {
        return Err(Unread::Wrong);
    }
    let (head, rest) = image.split_at(8);
    match usize::try_from(BigEndian::read_u64(head)) {
        Ok(length) if length <= rest.len() => Ok(rest.split_at(length)),
        _ => Err(Unread::Wrong),
    }
}

/// The bytes of a repository's disks.
#[derive(Drop)]
struct Bytes {
    log0: Text,
    log1: Text,
    pages: Text,
}

impl Bytes {
    /// The disks that have these bytes, with a clock; these of their calls fail.
    fn with<C: Clock>(self, clock: C, fails: Vec<(u8, u64)>) -> MemParts<C> {
        let Bytes { log0, log1, pages } = self;
        MemParts::new(
            log0.into_vec(),
            log1.into_vec(),
            pages.into_vec(),
            fails,
            clock,
        )
    }
}

/// The bytes of the repository with which an image begins, and the rest.
fn first_repository(alloc: Global, image: &[u8]) -> Result<(Bytes, &[u8]), Unread> {
    let (log0, rest) = first_disk(image)?;
    let (log1, rest) = first_disk(rest)?;
    let (pages, rest) = first_disk(rest)?;
    let log0 = Text::from_slice(alloc, log0)?;
    let (log0, log1) = both(log0, Text::from_slice(alloc, log1))?;
    let (logs, pages) = both((log0, log1), Text::from_slice(alloc, pages))?;
    let (log0, log1) = logs;
    Ok((Bytes { log0, log1, pages }, rest))
}

/// Puts something behind others.
pub(crate) fn put<T: Drop>(into: &mut Vec<T>, one: T) -> Result<(), NoMemory> {
    into.push(one)?;
    Ok(())
}

/// The disks of so many new repositories.
pub(crate) fn new_disks(alloc: Global, repos: u8) -> Result<Disks<TickClock>, Unread> {
    let mut disks = Vec::new(alloc);
    for _ in 0..repos {
        let (bytes, _) = first_repository(alloc, NEW.as_slice())?;
        put(&mut disks, bytes.with(TickClock::new(1), Vec::new(alloc)))?;
    }
    Ok(disks)
}

/// The disks of an image of so many repositories; new ones where it has no bytes.
pub(crate) fn read_image(
    alloc: Global,
    image: &[u8],
    repos: u8,
) -> Result<Disks<TickClock>, Unread> {
    if image.is_empty() {
        return new_disks(alloc, repos);
    }
    let mut disks = Vec::new(alloc);
    let mut rest = image;
    for _ in 0..repos {
        let (bytes, others) = first_repository(alloc, rest)?;
        put(&mut disks, bytes.with(TickClock::new(1), Vec::new(alloc)))?;
        rest = others;
    }
    if rest.is_empty() {
        Ok(disks)
    } else {
        Err(Unread::Wrong)
    }
}

/// The bytes of the repository with which an image begins, and the rest; those of a new one where it has no bytes.
fn next_repository(alloc: Global, image: &[u8]) -> Result<(Bytes, &[u8]), Unread> {
    if image.is_empty() {
        let (bytes, _) = first_repository(alloc, NEW.as_slice())?;
        return Ok((bytes, image));
    }
    first_repository(alloc, image)
}

/// The same with the clocks and the failing calls of a block of devices. Where an image ends early, the repositories that are left
/// are new.
pub(crate) fn read_with_devices(
    alloc: Global,
    image: &[u8],
    devices: &[u8],
    repos: u8,
) -> Result<Disks<GivenClock>, Unread> {
    let mut disks = Vec::new(alloc);
    let mut rest = image;
    let mut block = devices;
    for _ in 0..repos {
        let (bytes, others) = next_repository(alloc, rest)?;
        let (bytes, (handed, behind)) = both(bytes, first_devices(alloc, block))?;
        let Devices { clock, fails } = handed;
        put(&mut disks, bytes.with(clock, fails))?;
        rest = others;
        block = behind;
    }
    if rest.is_empty() && block.is_empty() {
        Ok(disks)
    } else {
        Err(Unread::Wrong)
    }
}

fn put_disk(image: &mut Text, bytes: &[u8]) -> Result<(), NoMemory> {
    let length = bytes.len() as u64;
    image.extend_from_slice(&length.to_be_bytes())?;
    image.extend_from_slice(bytes)
}

/// The image of disks: what a read of each gives.
pub(crate) fn image_of<C: Clock>(alloc: Global, disks: &[MemParts<C>]) -> Result<Text, NoMemory> {
    let mut image = Text::new(alloc);
    for parts in disks {
        put_disk(&mut image, parts.bytes(Disk::Log0))?;
        put_disk(&mut image, parts.bytes(Disk::Log1))?;
        put_disk(&mut image, parts.bytes(Disk::Pages))?;
    }
    Ok(image)
}

/// The letter of a call.
fn letter_of(call: &Call) -> u8 {
    match &call.did {
        Did::Failed => b'f',
        Did::Read { .. } => b'r',
        Did::Length => b'l',
        Did::Wrote { .. } => b'w',
        Did::Synced => b's',
        Did::Restarted { .. } => b'c',
    }
}

fn put_calls(image: &mut Text, calls: &[Call]) -> Result<(), NoMemory> {
    let count = calls.len() as u64;
    image.extend_from_slice(&count.to_be_bytes())?;
    for call in calls {
        image.push(letter_of(call))?;
    }
    Ok(())
}

/// Puts the calls on the disks behind their image: for each disk how many there were, as eight bytes, and the letter of each.
pub(crate) fn put_all_calls<C: Clock>(
    image: &mut Text,
    disks: &[MemParts<C>],
) -> Result<(), NoMemory> {
    for parts in disks {
        put_calls(image, parts.calls(Disk::Log0))?;
        put_calls(image, parts.calls(Disk::Log1))?;
        put_calls(image, parts.calls(Disk::Pages))?;
    }
    Ok(())
}
