//! How many bytes a buffer would have behind some writes. Nothing here takes memory.

ghost use Rattle.std.specs.Prelude.{◌≡◌, ◌+◌, ◌<◌, ◌≤◌, ◌^◌, ◌++◌, ◌∷◌, ℕ, [], length};
ghost use Rattle.std.specs.List.{AllByRecursion};
ghost use Rattle.object_codec.specs.Spelling.{ObjFits};
ghost use Rattle.mob_buffer.specs.Buffer.{AreOf, CanStand, bytes_of, with_all};
ghost use Rattle.mob_buffer.specs.Kept.{Tallied, rank_of, size_at, size_behind_one};

use crate::size::spelled_size;
use lru::LruCache;
use thor_value::{Obj, Oref};

/// What is known of a buffer behind the first of some writes.
#[derive(Clone, Copy)]
struct Tally {
    /// The bytes of all its objects.
    total: u128,
    /// More than the rank of each name that was written.
    bound: u64,
}

/// How many bytes the objects have behind these writes, where they have so many before.
///
/// Where each name is behind all those written before it, it isn't looked for among them.
pub(crate) fn bytes_behind(
    objects: &LruCache<Oref, Obj>,
    bytes: u32,
    writes: &[(Oref, Obj)],
) -> u128
    requires fit { (repo : ℕ) × AreOf repo objects.now.entries }
    requires bytes { bytes ≡ bytes_of objects.now.entries }
    requires writes { AllByRecursion CanStand writes.now }
    ensures { result ≡ bytes_of (with_all objects.now.entries writes.now) }
{
    let mut tally = Tally {
        total: u128::from(bytes),
        bound: 0,
    };
    for place in 0..writes.len() {
        tally = counted(objects, writes.split_at(place).0, &writes[place], tally);
    }
    tally.total
}

/// The tally behind one write more.
fn counted(
    objects: &LruCache<Oref, Obj>,
    earlier: &[(Oref, Obj)],
    write: &(Oref, Obj),
    tally: Tally,
) -> Tally
    requires fit { (repo : ℕ) × AreOf repo objects.now.entries }
    requires earlier { AllByRecursion CanStand earlier.now }
    requires few { length earlier.now < 2 ^ 64 }
    requires write { CanStand write.now }
    requires tally { Tallied objects.now.entries earlier.now tally.total tally.bound }
    ensures { Tallied objects.now.entries (earlier.now ++ write.now ∷ []) result.total result.bound }
{
    let rank = rank_of(write.0);
    let before = if rank < tally.bound {
        size_behind(objects, earlier, write.0)
    } else {
        size_held(objects, write.0)
    };
    Tally {
        total: tally.total - u128::from(before) + u128::from(spelled_size(&write.1)),
        bound: tally.bound.max(rank + 1),
    }
}

/// How many bytes the object of a name has behind these writes, where it has one.
fn size_behind(objects: &LruCache<Oref, Obj>, writes: &[(Oref, Obj)], oref: Oref) -> u32
    requires fit { (repo : ℕ) × AreOf repo objects.now.entries }
    requires writes { AllByRecursion CanStand writes.now }
    ensures { result ≡ size_at (with_all objects.now.entries writes.now) oref }
{
    let mut size = size_held(objects, oref);
    for place in 0..writes.len() {
        size = size_after(&writes[place], oref, size);
    }
    size
}

/// How many bytes the object of a name has behind a write, where it has so many before.
fn size_after(write: &(Oref, Obj), oref: Oref, before: u32) -> u32
    requires { ObjFits write.now.1 }
    ensures { result ≡ size_behind_one write.now oref before }
{
    if write.0 == oref {
        spelled_size(&write.1)
    } else {
        before
    }
}

/// How many bytes the object of a name has, where there is one.
pub(crate) fn size_held(objects: &LruCache<Oref, Obj>, oref: Oref) -> u32
    requires { (repo : ℕ) × AreOf repo objects.now.entries }
    ensures { result ≡ size_at objects.now.entries oref }
{
    match objects.peek(&oref) {
        Some(object) => spelled_size(object),
        None => 0,
    }
}

/// A number for a name that rises with it.
fn rank_of(oref: Oref) -> u64
    ensures value { result ≡ rank_of oref }
    ensures most { result < 2 ^ 48 }
{
    (u64::from(oref.repo) * 4_294_967_296 + u64::from(oref.page)) * 256 + u64::from(oref.slot)
}
