//! What stands against a request, member by member.

ghost use Rattle.std.specs.List.{fold};
ghost use Rattle.std.specs.Map.{keys_of};
ghost use Rattle.std.specs.Option.{option_map};
ghost use Rattle.std.specs.Prelude.{◌≡◌, find, not};
ghost use Rattle.thor_value.specs.Names.{later_of};
ghost use Rattle.validation_queue.specs.Clashes.{comes_earlier, comes_later, first_some, is_before, meets_at};
ghost use Rattle.validation_queue.specs.Contents.{is_blocking};
ghost use Rattle.validation_queue.specs.Names.{IsInOrder, Rises, is_among, least_of};

use crate::common::first_common;
use crate::member::Member;
use crate::members::Members;
use crate::name_set::NameSet;
use base_reasons::Reason;
use std::cmp::Ordering;
use std::ops::Bound;
use thor_value::{Obj, Oref, Ts};

pub fn is_before(first: Ts, second: Ts) -> bool
    ensures { result ≡ is_before first second }
{
    first.cmp(&second).is_lt()
}

pub fn later_of(first: Ts, second: Ts) -> Ts
    ensures { result ≡ later_of first second }
{
    match first.cmp(&second) {
        Ordering::Greater => first,
        _ => second,
    }
}

/// The first of the names that is in the set.
#[tactic(auto, using(crate::proofs::Walking::names_of))]
fn first_in(names: &[Oref], set: &NameSet) -> Option<Oref>
    requires { Rises names.now }
    ensures { result ≡ find (is_among set.now) names.now }
{
    first_common(names, set.as_slice())
}

/// The lesser of two names, where there are two.
fn least_of(first: Option<Oref>, second: Option<Oref>) -> Option<Oref>
    ensures { result ≡ least_of first second }
{
    match (first, second) {
        (Some(first), Some(second)) => {
            if first.cmp(&second).is_lt() {
                Some(first)
            } else {
                Some(second)
            }
        }
        (Some(first), None) => Some(first),
        (None, second) => second,
    }
}

/// The first of the names that a request read at which it and the member meet.
#[tactic(auto, using(crate::proofs::Meeting::meeting))]
fn first_meeting(ros: &[Oref], writes: &[(Oref, Obj)], member: &Member) -> Option<Oref>
    requires { IsInOrder ros.now (keys_of writes.now) }
    ensures { result ≡ find (meets_at (keys_of writes.now) member.now) ros.now }
{
    let read = first_in(ros, &member.written);
    let written = first_common(writes, member.read.as_slice());
    least_of(read, written)
}

/// What stands against a request by a member's being earlier.
fn earlier(tx: Ts, ros: &[Oref], of: Ts, member: &Member) -> Option<Reason>
    requires { Rises ros.now }
    ensures { result ≡ comes_earlier tx ros.now (of, member.now) }
{
    if member.decided || !is_before(of, tx) {
        return None;
    }
    match first_in(ros, &member.written) {
        Some(oref) => Some(Reason::Earlier { tx: of, oref }),
        None => None,
    }
}

/// What stands against a request by a member's being later.
fn later(tx: Ts, ros: &[Oref], writes: &[(Oref, Obj)], of: Ts, member: &Member) -> Option<Reason>
    requires { IsInOrder ros.now (keys_of writes.now) }
    ensures { result ≡ comes_later tx ros.now (keys_of writes.now) (of, member.now) }
{
    if !is_before(tx, of) {
        return None;
    }
    match first_meeting(ros, writes, member) {
        Some(oref) => Some(Reason::Later { tx: of, oref }),
        None => None,
    }
}

/// The clash with the least undecided member that is earlier.
pub fn first_earlier(members: &Members, tx: Ts, ros: &[Oref]) -> Option<Reason>
    requires { Rises ros.now }
    ensures { result ≡ first_some (comes_earlier tx ros.now) members.now.entries }
{
    for (of, member) in members {
        let found = earlier(tx, ros, *of, member);
        if found.is_some() {
            return found;
        }
    }
    None
}

/// The clash with the least member that is later. It looks at the later members alone.
pub fn first_later(
    members: &Members,
    tx: Ts,
    ros: &[Oref],
    writes: &[(Oref, Obj)],
) -> Option<Reason>
    requires { IsInOrder ros.now (keys_of writes.now) }
    ensures { result ≡ first_some (comes_later tx ros.now (keys_of writes.now)) members.now.entries }
{
    for (of, member) in members.range((Bound::Excluded(tx), Bound::Unbounded)) {
        let found = later(tx, ros, writes, *of, member);
        if found.is_some() {
            return found;
        }
    }
    None
}

/// The greatest of a timestamp and those of the members.
pub fn greatest(members: &Members, threshold: Ts) -> Ts
    ensures { result ≡ fold later_of threshold (keys_of members.now.entries) }
{
    let mut greatest = threshold;
    for tx in members.keys() {
        greatest = later_of(greatest, *tx);
    }
    greatest
}

/// The least decided member.
pub fn first_decided(members: &Members) -> Option<Ts>
    ensures { result ≡ option_map (λ e. e.0) (find (λ e. e.1.decided) members.now.entries) }
{
    for (tx, member) in members {
        if member.decided {
            return Some(*tx);
        }
    }
    None
}

/// The least undecided member.
pub fn first_undecided(members: &Members) -> Option<Ts>
    ensures { result ≡ option_map (λ e. e.0) (find (λ e. not e.1.decided) members.now.entries) }
{
    for (tx, member) in members {
        if !member.decided {
            return Some(*tx);
        }
    }
    None
}

/// The least member that has to be decided first.
pub fn first_blocking(members: &Members, upgrade: bool) -> Option<Ts>
    ensures { result ≡ option_map (λ e. e.0) (find (λ e. is_blocking upgrade e.1) members.now.entries) }
{
    for (tx, member) in members {
        if !member.decided && (upgrade || member.upgrade) {
            return Some(*tx);
        }
    }
    None
}
