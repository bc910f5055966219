ghost use Rattle.std.specs.Prelude.{◌≡◌, ◌+◌, ◌-◌, ◌*◌, ◌^◌, ◌%◌, ◌<◌, ◌≤◌, ◌++◌, ℕ, List, [], ◌∷◌, reverse, length, take, drop, replicate, min, IfOk, IfErr, OnOk, OnErr};
ghost use Rattle.disk_trait.specs.Kept.{Kept, noted, WroteTo, RestartedTo, Ended, IsTurn};
ghost use Rattle.disk_trait.specs.Write.{grown, over, inside, change_of};
ghost use Rattle.disk_trait.specs.declared.record.Did.TheVariants.{Read, Length, Synced};

use crate::crash::{difference, has_unsynced, picked_image};
use crate::parts::Outage;
use crate::record::{Call, Change, Did};
use std::alloc::AllocError;
use std::marker::Model;

/// Whether a call is one of those that are to fail.
#[derive(Clone, Copy, Debug, PartialEq, Eq)]
pub(crate) enum Turn {
    Fails,
    Works,
}

/// A disk in memory.
#[derive(Debug, Drop)]
pub(crate) struct MemDisk {
    bytes: Vec<u8>,
    calls: Vec<Call>,
    faults: u64,
}

impl Model for MemDisk {
    ghost use Rattle.std.specs.Prelude.{reverse};
    ghost use Rattle.disk_trait.specs.Kept.{Kept};

    ghost Value = { Kept };

    ghost view = { λ disk. record { bytes = disk.bytes.items; calls = reverse disk.calls.items; faults = disk.faults } };
}

impl MemDisk {
    pub(crate) fn new(bytes: Vec<u8>) -> MemDisk
        ensures { result ≡ record { bytes = bytes.items; calls = []; faults = 0 } }
    {
        let calls = Vec::new(*bytes.allocator());
        MemDisk {
            bytes,
            calls,
            faults: 0,
        }
    }

    pub(crate) fn bytes(&self) -> &[u8]
        ensures { result.now ≡ self.now.bytes }
    {
        &self.bytes
    }

    /// The record, the oldest call first.
    pub(crate) fn calls(&self) -> &[Call]
        ensures { self.now.calls ≡ reverse result.now }
    {
        &self.calls
    }

    /// How many calls were recorded.
    pub(crate) fn count(&self) -> usize
        ensures { result ≡ length self.now.calls }
    {
        self.calls.len()
    }

    pub(crate) fn note(&mut self, time: u64, did: Did) -> Result<(), AllocError>
        ensures ok { OnOk result (self.new ≡ noted self.old time did) }
        ensures err { OnErr result (self.new ≡ self.old) }
    {
        self.calls.push(Call { time, did })?;
        Ok(())
    }

    /// Records a call that fails and changes nothing.
    pub(crate) fn fail<T>(&mut self, time: u64) -> Result<T, Outage>
        ensures { Ended self.old self.new time ⊥ result }
    {
        self.note(time, Did::Failed)?;
        self.faults = self.faults.saturating_add(1);
        Err(Outage::Failed)
    }

    pub(crate) fn read_at(
        &mut self,
        time: u64,
        turn: Turn,
        at: usize,
        into: &mut [u8],
    ) -> Result<(), Outage>
        requires { at + length into.old ≤ length self.old.bytes }
        ensures ended { Ended self.old self.new time (self.new ≡ noted self.old time (Read at (length into.old))) result }
        ensures bytes { OnOk result (into.new ≡ take (length into.old) (drop at self.old.bytes)) }
        ensures turn { IsTurn turn result }
    {
        if turn == Turn::Fails {
            return self.fail(time);
        }
        self.note(
            time,
            Did::Read {
                at: at as u64,
                len: into.len(),
            },
        )?;
        let behind = self.bytes.split_at(at).1;
        into.copy_from_slice(behind.split_at(into.len()).0);
        Ok(())
    }

    pub(crate) fn write_at(
        &mut self,
        time: u64,
        turn: Turn,
        at: usize,
        put: &[u8],
    ) -> Result<(), Outage>
        requires { at + length put.now ≤ 2 ^ 40 }
        ensures ended { Ended self.old self.new time (WroteTo self.old self.new time at put.now) result }
        ensures turn { IsTurn turn result }
    {
        if turn == Turn::Fails {
            return self.fail(time);
        }
        self.write(time, at, put)?;
        Ok(())
    }

    pub(crate) fn sync(&mut self, time: u64, turn: Turn) -> Result<(), Outage>
        ensures ended { Ended self.old self.new time (self.new ≡ noted self.old time Synced) result }
        ensures turn { IsTurn turn result }
    {
        if turn == Turn::Fails {
            return self.fail(time);
        }
        self.note(time, Did::Synced)?;
        Ok(())
    }

    pub(crate) fn len(&mut self, time: u64, turn: Turn) -> Result<u64, Outage>
        ensures ended { Ended self.old self.new time (self.new ≡ noted self.old time Length) result }
        ensures bytes { IfOk result (λ n. n ≡ length self.old.bytes) }
        ensures turn { IsTurn turn result }
    {
        if turn == Turn::Fails {
            return self.fail(time);
        }
        self.note(time, Did::Length)?;
        Ok(self.bytes.len() as u64)
    }

    /// Crashes and leaves the image of the pick.
    pub(crate) fn restart(&mut self, time: u64, turn: Turn, pick: u64) -> Result<(), Outage>
        ensures ended { Ended self.old self.new time (RestartedTo self.old self.new time pick) result }
        ensures turn { IsTurn turn result }
    {
        if turn == Turn::Fails {
            return self.fail(time);
        }
        self.crash(time, pick)?;
        Ok(())
    }

    #[tactic(auto, using(crate::proofs::Writes::wrote))]
    fn write(&mut self, time: u64, at: usize, put: &[u8]) -> Result<(), AllocError>
        requires { at + length put.now ≤ 2 ^ 40 }
        ensures ok { OnOk result (WroteTo self.old self.new time at put.now) }
        ensures err { OnErr result (self.new ≡ self.old) }
    {
        let len = self.bytes.len();
        let from = at.min(len);
        let inside = (at + put.len()).min(len) - from;
        let change = self.change(at, put.len())?;
        self.grow(at, put)?;
        if self.note(time, Did::Wrote { at, change }).is_err() {
            self.cut(len);
            return Err(AllocError);
        }
        self.overwrite(from, &put[..inside]);
        Ok(())
    }

    #[tactic(auto, using(crate::proofs::TornCalls::picked_settled))]
    fn crash(&mut self, time: u64, pick: u64) -> Result<(), AllocError>
        ensures ok { OnOk result (RestartedTo self.old self.new time pick) }
        ensures err { OnErr result (self.new ≡ self.old) }
    {
        let alloc = *self.bytes.allocator();
        if pick == 1 || !has_unsynced(&self.calls) {
            let change = Change::new(0, 0, Vec::new(alloc));
            return self.note(time, Did::Restarted { pick, change });
        }
        let image = picked_image(alloc, &self.bytes, &self.calls, pick)?;
        let change = difference(alloc, &image, &self.bytes)?;
        self.note(time, Did::Restarted { pick, change })?;
        self.bytes = image;
        Ok(())
    }

    /// What gives the bytes back after a write of so many bytes at a place.
    fn change(&self, at: usize, n: usize) -> Result<Change, AllocError>
        requires { at + n ≤ 2 ^ 40 }
        ensures { IfOk result (λ change. change ≡ change_of self.now.bytes at n) }
    {
        let from = at.min(self.bytes.len());
        let end = at + n;
        let behind = self.bytes.split_at(from).1;
        let inside = end.min(self.bytes.len()) - from;
        let old = Vec::from_slice(*self.bytes.allocator(), behind.split_at(inside).0)?;
        Ok(Change::new(from, end, old))
    }

    fn grow(&mut self, at: usize, put: &[u8]) -> Result<(), AllocError>
        ensures ok { OnOk result (self.new ≡ record self.old { bytes = grown self.old.bytes at put.now }) }
        ensures err { OnErr result (self.new ≡ self.old) }
    {
        grow(&mut self.bytes, at, put)
    }

    fn overwrite(&mut self, from: usize, put: &[u8])
        requires { from + length put.now ≤ length self.old.bytes }
        ensures { self.new ≡ record self.old { bytes = over self.old.bytes from put.now } }
    {
        overwrite(&mut self.bytes, from, put);
    }

    fn cut(&mut self, len: usize)
        ensures { self.new ≡ record self.old { bytes = take len self.old.bytes } }
    {
        self.bytes.truncate(len);
    }
}

/// Fills up to a place with zeros.
fn pad(bytes: &mut Vec<u8>, at: usize) -> Result<(), AllocError>
    ensures ok { OnOk result (bytes.new.items ≡ bytes.old.items ++ replicate (at - length bytes.old.items) 0) }
    ensures err { OnErr result (bytes.new.items ≡ bytes.old.items) }
{
    if bytes.len() < at {
        bytes.resize(at, 0)?;
    }
    Ok(())
}

/// Adds what a write at a place has past the end, behind zeros up to the place.
#[tactic(auto, using(std::proofs::lemmas::List::drop_min))]
fn grow(bytes: &mut Vec<u8>, at: usize, put: &[u8]) -> Result<(), AllocError>
    ensures ok { OnOk result (bytes.new.items ≡ grown bytes.old.items at put.now) }
    ensures err { OnErr result (bytes.new.items ≡ bytes.old.items) }
{
    let len = bytes.len();
    pad(bytes, at)?;
    let inside = len.saturating_sub(at).min(put.len());
    if bytes.extend_from_slice(&put[inside..]).is_err() {
        bytes.truncate(len);
        return Err(AllocError);
    }
    Ok(())
}

/// Puts bytes in the place of as many.
pub(crate) fn overwrite(bytes: &mut [u8], from: usize, put: &[u8])
    requires { from + length put.now ≤ length bytes.old }
    ensures { bytes.new ≡ over bytes.old from put.now }
{
    bytes[from..from + put.len()].copy_from_slice(put);
}
