//! Clocks and failing calls as they are handed in.
//!
//! A block of devices has for each repository how many numbers its clock gives, and these; then how many calls of its disks fail, and
//! of each the number of its disk, 0 to 2, and which call of that disk it is, counted from 1. Each is a number of eight bytes, the
//! highest first.

use crate::images::{Unread, put};
use byteorder::{BigEndian, ByteOrder};
use disk_trait::Clock;
use std::alloc::Global;
use thor_value::both;

/// A clock that gives the numbers that it was handed, and then the last of them again and again. Without any it gives 0.
#[derive(Drop)]
pub(crate) struct GivenClock {
    numbers: Vec<u64>,
    /// How many of them it gave.
    given: usize,
    /// The number that it gave last.
    last: u64,
    greatest: u64,
}

impl Clock for GivenClock {
    ghost use Rattle.std.specs.Prelude.{⊤};

    ghost greatest = { λ clock. clock.greatest };

    ghost gives = { λ clock now then. ⊤ };

    fn now(&mut self) -> u64 {
        if let Some(number) = self.numbers.get(self.given) {
            self.last = *number;
        }
        self.given = self.given.saturating_add(1);
        self.greatest = self.greatest.max(self.last);
        self.last
    }
}

/// What a repository is handed: its clock, and which calls of its disks fail.
#[derive(Drop)]
pub(crate) struct Devices {
    pub clock: GivenClock,
    /// The number of a disk and that of a call, each.
    pub fails: Vec<(u8, u64)>,
}

/// The number with which a block begins, and the rest.
fn first_number(block: &[u8]) -> Result<(u64, &[u8]), Unread> {
    if block.len() < 8 {
        return Err(Unread::Wrong);
    }
    let (head, rest) = block.split_at(8);
    Ok((BigEndian::read_u64(head), rest))
}

/// The numbers of a clock, and the rest.
fn first_clock(alloc: Global, block: &[u8]) -> Result<(GivenClock, &[u8]), Unread> {
    let (count, mut rest) = first_number(block)?;
    let mut numbers = Vec::new(alloc);
    for _ in 0..count {
        let (number, others) = first_number(rest)?;
        put(&mut numbers, number)?;
        rest = others;
    }
    let clock = GivenClock {
        numbers,
        given: 0,
        last: 0,
        greatest: 0,
    };
    Ok((clock, rest))
}

/// A disk and the number of one of its calls, and the rest.
fn first_call(block: &[u8]) -> Result<((u8, u64), &[u8]), Unread> {
    let (disk, rest) = first_number(block)?;
    let (call, rest) = first_number(rest)?;
    match u8::try_from(disk) {
        Ok(disk) => Ok(((disk, call), rest)),
        Err(_) => Err(Unread::Wrong),
    }
}

/// The calls that fail, and the rest.
fn first_fails(alloc: Global, block: &[u8]) -> Result<(Vec<(u8, u64)>, &[u8]), Unread> {
    let (count, mut rest) = first_number(block)?;
    let mut fails = Vec::new(alloc);
    for _ in 0..count {
        let (call, others) = first_call(rest)?;
        put(&mut fails, call)?;
        rest = others;
    }
    Ok((fails, rest))
}

/// What the repository with which a block begins is handed, and the rest.
pub(crate) fn first_devices(alloc: Global, block: &[u8]) -> Result<(Devices, &[u8]), Unread> {
    let (clock, rest) = first_clock(alloc, block)?;
    let (clock, (fails, rest)) = both(clock, first_fails(alloc, rest))?;
    Ok((Devices { clock, fails }, rest))
}
