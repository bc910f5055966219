// What a crash leaves of a disk in memory.
ghost use Rattle.std.specs.Prelude.{◌≡◌, ◌+◌, ◌%◌, ◌<◌, ◌≤◌, ℕ, List, [], ◌∷◌, reverse, length, take, drop, IfOk, OnOk, ◌↔◌, IsTrue, false};
ghost use Rattle.disk_trait.specs.Change.{put_back};
ghost use Rattle.disk_trait.specs.Record.{undone, settles, synced_of, ranges_of, ranges_past, torn, picked};

use crate::mem_disk::overwrite;
use crate::record::{Call, Change, Did};
use std::alloc::{AllocError, Global};

/// Takes a change back.
fn take_back(bytes: &mut Vec<u8>, change: &Change) -> Result<(), AllocError>
    ensures { OnOk result (bytes.new.items ≡ put_back change.now bytes.old.items) }
{
    let from = change.from().min(bytes.len());
    let end = change.end().min(bytes.len());
    let old = change.old();
    if from <= end && old.len() == end - from {
        overwrite(bytes, from, old);
        return Ok(());
    }
    let behind = Vec::from_slice(*bytes.allocator(), bytes.split_at(end).1)?;
    bytes.truncate(from);
    bytes.extend_from_slice(old)?;
    bytes.extend_from_slice(&behind)
}

/// Takes a call back.
fn undo(bytes: &mut Vec<u8>, did: &Did) -> Result<(), AllocError>
    ensures { OnOk result (bytes.new.items ≡ undone did.now bytes.old.items) }
{
    match did {
        Did::Wrote { change, .. } => take_back(bytes, change),
        Did::Restarted { change, .. } => take_back(bytes, change),
        _ => Ok(()),
    }
}

fn is_settled_by(did: &Did) -> bool
    ensures { result ≡ settles did.now }
{
    match did {
        Did::Synced => true,
        Did::Restarted { .. } => true,
        _ => false,
    }
}

#[tactic(auto, using(crate::proofs::Newest::synced_here, crate::proofs::Newest::synced_before))]
/// The bytes of the last sync. `calls` stand with the oldest first.
fn synced(alloc: Global, bytes: &[u8], calls: &[Call]) -> Result<Vec<u8>, AllocError>
    ensures { IfOk result (λ synced. synced.items ≡ synced_of (reverse calls.now) bytes.now) }
{
    let mut synced = Vec::from_slice(alloc, bytes)?;
    let mut left = calls;
    while let Some((call, earlier)) = left.split_last() {
        if is_settled_by(&call.did) {
            return Ok(synced);
        }
        undo(&mut synced, &call.did)?;
        left = earlier;
    }
    Ok(synced)
}

/// What a crash with this pick puts at a place.
fn torn_byte(pick: u64, place: usize) -> u8
    ensures { result ≡ (pick + place) % 256 }
{
    let sum = pick % 256 + place as u64 % 256;
    (sum % 256) as u8
}

/// Tears the bytes of a range.
#[tactic(auto, using(crate::proofs::Torn::torn_more, crate::proofs::Torn::torn_begun, crate::proofs::Torn::torn_cut))]
fn tear(bytes: &mut [u8], pick: u64, from: usize, end: usize)
    ensures { bytes.new ≡ torn pick ((from, end) ∷ []) bytes.old }
{
    let end = end.min(bytes.len());
    let first = from.min(end);
    for place in first..end {
        bytes[place] = torn_byte(pick, place);
    }
}

/// Tears what a call wrote.
#[tactic(auto, using(crate::proofs::Torn::torn_none))]
fn tear_call(bytes: &mut [u8], pick: u64, did: &Did)
    requires { settles did.now ≡ false }
    ensures { bytes.new ≡ torn pick (ranges_past did.now []) bytes.old }
{
    if let Did::Wrote { at, change } = did {
        tear(bytes, pick, *at, change.end());
    }
}

/// Tears what was written since the last sync. `calls` stand with the oldest first.
#[tactic(auto, using(crate::proofs::TornCalls::torn_on, crate::proofs::TornCalls::torn_stop, crate::proofs::Torn::torn_none))]
fn tear_calls(bytes: &mut [u8], pick: u64, calls: &[Call])
    ensures { bytes.new ≡ torn pick (ranges_of (reverse calls.now)) bytes.old }
{
    let mut left = calls;
    while let Some((call, earlier)) = left.split_last() {
        if is_settled_by(&call.did) {
            return;
        }
        tear_call(bytes, pick, &call.did);
        left = earlier;
    }
}

/// Tears what was written since the last sync or lies past the length at that sync.
fn tear_since(bytes: &mut [u8], pick: u64, least: usize, calls: &[Call])
    ensures { bytes.new ≡ torn pick ((least, length bytes.old) ∷ ranges_of (reverse calls.now)) bytes.old }
{
    let end = bytes.len();
    tear(bytes, pick, least, end);
    tear_calls(bytes, pick, calls);
}

/// The image that a pick leaves. `calls` stand with the oldest first.
pub(crate) fn picked_image(
    alloc: Global,
    bytes: &[u8],
    calls: &[Call],
    pick: u64,
) -> Result<Vec<u8>, AllocError>
    ensures { IfOk result (λ image. image.items ≡ picked pick (reverse calls.now) bytes.now) }
{
    if pick == 1 {
        return Vec::from_slice(alloc, bytes);
    }
    let synced = synced(alloc, bytes, calls)?;
    if pick == 0 {
        return Ok(synced);
    }
    let mut image = Vec::from_slice(alloc, bytes)?;
    tear_since(&mut image, pick, synced.len(), calls);
    Ok(image)
}

/// How many bytes at the front are the same.
fn same_front(some: &[u8], other: &[u8]) -> usize
    ensures in_some { result ≤ length some.now }
    ensures in_other { result ≤ length other.now }
    ensures same { take result some.now ≡ take result other.now }
{
    let least = some.len().min(other.len());
    for place in 0..least {
        if some[place] != other[place] {
            return place;
        }
    }
    least
}

/// What gives the old bytes back in place of the new ones.
#[tactic(auto, using(crate::proofs::Torn::tail_back))]
pub(crate) fn difference(alloc: Global, new: &[u8], old: &[u8]) -> Result<Change, AllocError>
    ensures { IfOk result (λ change. put_back change new.now ≡ old.now) }
{
    let from = same_front(new, old);
    let behind = Vec::from_slice(alloc, old.split_at(from).1)?;
    Ok(Change::new(from, new.len(), behind))
}

/// Whether a write may not be on the disk yet. `calls` stand with the oldest first.
#[tactic(auto, using(crate::proofs::TornCalls::settled_here, crate::proofs::TornCalls::settled_before, crate::proofs::TornCalls::settled_done))]
pub(crate) fn has_unsynced(calls: &[Call]) -> bool
    ensures { result ≡ false → ranges_of (reverse calls.now) ≡ [] }
{
    let mut left = calls;
    while let Some((call, earlier)) = left.split_last() {
        if is_settled_by(&call.did) {
            return false;
        }
        if let Did::Wrote { .. } = &call.did {
            return true;
        }
        left = earlier;
    }
    false
}
