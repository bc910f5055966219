//! The bodies of a log's records and its checkpoint, read.

ghost use Rattle.std.specs.List.{AllByRecursion};
ghost use Rattle.std.specs.Prelude.{◌≡◌, ◌+◌, ◌-◌, ◌^◌, IfOk, IsErrOf, None, Some, length, map, min, ℕ};
ghost use Rattle.log_codec.specs.Checkpoint.{StateFits, state_format};
ghost use Rattle.log_codec.specs.Format.{value_of};
ghost use Rattle.log_codec.specs.Grammar.{BodyFits, body_format};
ghost use Rattle.recovery.specs.Damage.{IsNoBody, first_gate, told_place};
ghost use Rattle.recovery.specs.declared.fault.RecoverFault.TheVariants.{Damaged, Failed};

use crate::fault::RecoverFault;
use log_codec::{Body, BodyFault, State, read_body, read_state};
use std::alloc::Global;
use thor_value::{Sequence, Text};

/// The checkpoint that a log on this disk begins with.
#[tactic(auto, using(crate::proofs::Read::state_that_is_spelled))]
pub(crate) fn read_head(alloc: Global, disk: u8, head: &Text) -> Result<State, RecoverFault>
    ensures state { IfOk result (λ state. value_of state_format head.now ≡ Some state) }
    ensures fits { IfOk result StateFits }
    ensures damaged { (d place : ℕ) → IsErrOf result (Damaged d place) → (d ≡ disk) × (place ≡ 0) × (value_of state_format head.now ≡ None) }
    ensures failed { (d : ℕ) → IsErrOf result (Failed d) → ⊥ }
{
    match read_state(alloc, head.as_slice()) {
        Ok(state) => Ok(state),
        Err(BodyFault::NotOne) => Err(RecoverFault::Damaged { disk, place: 0 }),
        Err(BodyFault::NoMemory) => Err(RecoverFault::NoMemory),
    }
}

/// What one record says, whose gate is at this place.
#[tactic(auto, using(crate::proofs::Read::body_that_is_spelled))]
fn read_record(alloc: Global, disk: u8, place: u64, spelled: &Text) -> Result<Body, RecoverFault>
    ensures body { IfOk result (λ body. value_of body_format spelled.now ≡ Some body) }
    ensures fits { IfOk result BodyFits }
    ensures damaged { (d p : ℕ) → IsErrOf result (Damaged d p) → (d ≡ disk) × (p ≡ place) × (value_of body_format spelled.now ≡ None) }
    ensures failed { (d : ℕ) → IsErrOf result (Failed d) → ⊥ }
{
    match read_body(alloc, spelled.as_slice()) {
        Ok(body) => Ok(body),
        Err(BodyFault::NotOne) => Err(RecoverFault::Damaged { disk, place }),
        Err(BodyFault::NoMemory) => Err(RecoverFault::NoMemory),
    }
}

/// What the records of a log on this disk say, where the gate of the first of them is at this place.
pub(crate) fn read_bodies(
    alloc: Global,
    disk: u8,
    first: u64,
    records: &[Text],
) -> Result<Sequence<Body>, RecoverFault>
    requires { first ≡ told_place first }
    ensures bodies { IfOk result (λ bodies. map (value_of body_format) records.now ≡ map Some bodies) }
    ensures fit { IfOk result (AllByRecursion BodyFits) }
    ensures damaged { (d place : ℕ) → IsErrOf result (Damaged d place) → (d ≡ disk) × IsNoBody first records.now place }
    ensures failed { (d : ℕ) → IsErrOf result (Failed d) → ⊥ }
{
    let mut bodies = Sequence::new(alloc);
    let mut place = first;
    for spelled in records {
        let body = read_record(alloc, disk, place, spelled)?;
        bodies.push(body)?;
        place = gate_after(place, spelled);
    }
    Ok(bodies)
}

/// The place of the first record's gate behind a checkpoint.
pub(crate) fn first_gate(head: &Text) -> u64
    ensures { result ≡ told_place (first_gate head.now) }
{
    13u64.saturating_add(head.len() as u64)
}

// The place of the gate behind a record whose gate is at this place.
fn gate_after(place: u64, spelled: &Text) -> u64
    ensures { result ≡ min (min (place + 5) (2 ^ 64 - 1) + length spelled.now) (2 ^ 64 - 1) }
{
    place.saturating_add(5).saturating_add(spelled.len() as u64)
}
