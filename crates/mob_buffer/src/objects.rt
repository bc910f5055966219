//! Objects under their names, the first to come in before all others. There is no bound on their number.

ghost use Rattle.std.specs.Prelude.{◌≡◌, ◌+◌, ◌-◌, ◌<◌, ◌^◌, ℕ, None, length, take, OnOk, OnErr};
ghost use Rattle.std.specs.Map.{remove_entry, set_value};
ghost use Rattle.lru.specs.LruCache.{lru_cache};
ghost use Rattle.mob_buffer.specs.Buffer.{AreOf, bytes_of, object_of, same_name, with_object, without_page};
ghost use Rattle.mob_buffer.specs.Kept.{IsUnbounded, blank, placed, size_at, with_places, with_values};

use crate::size::spelled_size;
use lru::LruCache;
use std::alloc::Global;
use thor_value::{NoMemory, Obj, Oref, SLOTS, Sequence};

/// Puts an object in the place of the one that has its name, else behind all.
pub(crate) fn put(
    objects: &mut LruCache<Oref, Obj>,
    oref: Oref,
    object: Obj,
) -> Result<(), NoMemory>
    requires { IsUnbounded objects.old.cap }
    ensures ok { OnOk result (objects.new ≡ lru_cache (with_object objects.old.entries oref object) objects.old.cap) }
    ensures err { OnErr result (objects.new ≡ objects.old) }
{
    if objects.contains(&oref) {
        replace(objects, oref, object);
        return Ok(());
    }
    put_last(objects, oref, object)
}

/// Puts an object under a name that has none, behind all.
fn put_last(objects: &mut LruCache<Oref, Obj>, oref: Oref, object: Obj) -> Result<(), NoMemory>
    requires unbounded { IsUnbounded objects.old.cap }
    requires fresh { object_of objects.old.entries oref ≡ None }
    ensures ok { OnOk result (objects.new ≡ lru_cache (with_object objects.old.entries oref object) objects.old.cap) }
    ensures err { OnErr result (objects.new ≡ objects.old) }
{
    let _ = objects.len();
    objects.put(oref, object)?;
    objects.demote(&oref);
    Ok(())
}

/// Puts an object in the place of the one that has its name, where there is one.
fn replace(objects: &mut LruCache<Oref, Obj>, oref: Oref, object: Obj)
    ensures { objects.new ≡ lru_cache (set_value (same_name oref) objects.old.entries object) objects.old.cap }
{
    match objects.peek_mut(&oref) {
        Some(place) => *place = object,
        None => {}
    }
}

/// Puts objects in the places of those that have their names, one after the other.
pub(crate) fn replace_all(objects: &mut LruCache<Oref, Obj>, writes: Vec<(Oref, Obj)>)
    ensures { objects.new ≡ lru_cache (with_values objects.old.entries writes.items) objects.old.cap }
{
    for (oref, object) in writes {
        replace(objects, oref, object);
    }
}

/// Makes a place for each name that has none, behind all. After `NoMemory` nothing has changed.
pub(crate) fn make_places(
    alloc: Global,
    objects: &mut LruCache<Oref, Obj>,
    writes: &[(Oref, Obj)],
) -> Result<(), NoMemory>
    requires { IsUnbounded objects.old.cap }
    ensures ok { OnOk result (objects.new ≡ lru_cache (with_places objects.old.entries writes.now) objects.old.cap) }
    ensures err { OnErr result (objects.new ≡ objects.old) }
{
    let before = objects.len();
    let made = make_each(alloc, objects, writes);
    if made.is_err() {
        cut(objects, before);
    }
    made
}

/// Makes a place for each name that has none, behind all. After `NoMemory` some may have been made.
fn make_each(
    alloc: Global,
    objects: &mut LruCache<Oref, Obj>,
    writes: &[(Oref, Obj)],
) -> Result<(), NoMemory>
    requires { IsUnbounded objects.old.cap }
    ensures ok { OnOk result (objects.new ≡ lru_cache (with_places objects.old.entries writes.now) objects.old.cap) }
    ensures kept { take (length objects.old.entries) objects.new.entries ≡ objects.old.entries }
    ensures unbounded { objects.new.cap ≡ objects.old.cap }
{
    for write in writes {
        make_place(alloc, objects, write.0)?;
    }
    Ok(())
}

/// Makes a place for a name, behind all, where it has none.
fn make_place(alloc: Global, objects: &mut LruCache<Oref, Obj>, oref: Oref) -> Result<(), NoMemory>
    requires { IsUnbounded objects.old.cap }
    ensures ok { OnOk result (objects.new ≡ lru_cache (placed objects.old.entries oref) objects.old.cap) }
    ensures err { OnErr result (objects.new ≡ objects.old) }
{
    if objects.contains(&oref) {
        return Ok(());
    }
    put_last(objects, oref, blank(alloc))
}

/// An object without fields.
fn blank(alloc: Global) -> Obj
    ensures { result ≡ blank }
{
    Obj {
        class: 0,
        ver: 0,
        fields: Sequence::new(alloc),
    }
}

/// Takes all objects but the first ones.
fn cut(objects: &mut LruCache<Oref, Obj>, len: usize)
    ensures { objects.new ≡ lru_cache (take len objects.old.entries) objects.old.cap }
{
    while objects.len() > len {
        drop(objects.pop_lru());
    }
}

/// Takes the objects of a page, and answers how many bytes they had.
pub(crate) fn take_page(objects: &mut LruCache<Oref, Obj>, repo: u8, page: u32) -> u32
    requires one_repo { AreOf repo objects.old.entries }
    requires few { bytes_of objects.old.entries < 2 ^ 32 }
    ensures objects { objects.new ≡ lru_cache (without_page objects.old.entries page) objects.old.cap }
    ensures bytes { result + bytes_of (without_page objects.old.entries page) ≡ bytes_of objects.old.entries }
{
    let _ = objects.len();
    let mut bytes = 0;
    for slot in 0..SLOTS {
        bytes += take_object(objects, Oref { repo, page, slot });
    }
    bytes
}

/// Takes the object of a name, where there is one, and answers how many bytes it had.
fn take_object(objects: &mut LruCache<Oref, Obj>, oref: Oref) -> u32
    requires { (repo : ℕ) × AreOf repo objects.old.entries }
    ensures objects { objects.new ≡ lru_cache (remove_entry (same_name oref) objects.old.entries) objects.old.cap }
    ensures bytes { result ≡ size_at objects.old.entries oref }
{
    match objects.pop(&oref) {
        Some(object) => spelled_size(&object),
        None => 0,
    }
}
