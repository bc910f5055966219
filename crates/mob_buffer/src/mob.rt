ghost use Rattle.std.specs.Prelude.{◌≡◌, ◌<◌, ◌≤◌, ◌^◌, ◌-◌, ℕ, [], slice_get, IfOk, IfSome, OnOk, OnErr, IsErrOf, option_map, option_copied};
ghost use Rattle.std.specs.Map.Iter.{ShowsInOrder, deref_pair};
ghost use Rattle.object_codec.specs.Spelling.{ObjFits};
ghost use Rattle.thor_value.specs.Spelling.{OrefFits};
ghost use Rattle.mob_buffer.specs.Buffer.{AreDistinct, AreOf, AreOneRepo, CanStand, IsNextSlot, slot_after, bytes_of, object_of, with_all, with_object, without_page};
ghost use Rattle.std.specs.List.{AllByRecursion};
ghost use Rattle.mob_buffer.specs.declared.fault.MobFull.TheVariants.{Full};

use crate::fault::MobFull;
use crate::objects::{make_places, put, replace_all, take_page};
use crate::size::spelled_size;
use crate::tally::{bytes_behind, size_held};
use lru::{Iter, LruCache};
use std::alloc::Global;
use std::marker::Model;
use thor_value::{NoMemory, Obj, Oref, SLOTS, TryCopy, Writes};

/// Objects that were committed and don't stand in their pages yet, in the order in which their names
/// came in, names distinct, all of one repository.
///
/// All calls but `new` and those that add objects take no memory. None takes time that grows with the
/// buffer.
#[derive(Drop)]
pub struct Mob {
    limit: u32,
    /// The bytes of all objects as they are spelled.
    bytes: u32,
    /// The repository of the objects, where there is one.
    repo: u8,
    /// The first to come in stands first. There is no bound on their number.
    objects: LruCache<Oref, Obj>,
    alloc: Global,
}

impl Model for Mob {
    ghost use Rattle.mob_buffer.specs.Buffer.{Buffer};
    ghost use Rattle.mob_buffer.specs.Kept.{Keeps};

    ghost Value = { Buffer };

    ghost view = { λ m. record { limit = m.limit; objects = m.objects.entries } };

    ghost invariant = { λ m. Keeps m.objects.entries m.objects.cap m.bytes m.repo };
}

impl Mob {
    /// A buffer without objects that takes so many bytes.
    pub fn new(alloc: Global, limit: u32) -> Result<Mob, NoMemory>
        ensures { IfOk result (λ made. made ≡ record { limit = limit; objects = [] }) }
    {
        Ok(Mob {
            limit,
            bytes: 0,
            repo: 0,
            objects: LruCache::unbounded(alloc)?,
            alloc,
        })
    }

    /// Adds an object, in the place of the one that has its name, else behind all.
    ///
    /// `Full` comes exactly where the bytes of all objects then would pass the limit. After an error the
    /// buffer is as it was, and the object is gone.
    pub fn add(&mut self, oref: Oref, object: Obj) -> Result<(), MobFull>
        requires name { OrefFits oref }
        requires object { ObjFits object }
        requires one_repo { AreOf oref.repo self.old.objects }
        ensures ok { OnOk result (self.new ≡ record self.old { objects = with_object self.old.objects oref object }) }
        ensures fits { OnOk result (bytes_of (with_object self.old.objects oref object) ≤ self.old.limit) }
        ensures full { (limit : ℕ) → IsErrOf result (Full limit) → (limit ≡ self.old.limit) × (self.old.limit < bytes_of (with_object self.old.objects oref object)) }
        ensures err { OnErr result (self.new ≡ self.old) }
    {
        let total = self.bytes_with_one(oref, &object);
        if total > u64::from(self.limit) {
            return Err(MobFull::Full { limit: self.limit });
        }
        self.load(oref, object)?;
        Ok(())
    }

    /// Adds an object as `add` does, whatever the limit is. Want of memory, too, where the bytes of all
    /// objects would pass a `u32`.
    pub fn load(&mut self, oref: Oref, object: Obj) -> Result<(), NoMemory>
        requires name { OrefFits oref }
        requires object { ObjFits object }
        requires one_repo { AreOf oref.repo self.old.objects }
        ensures ok { OnOk result (self.new ≡ record self.old { objects = with_object self.old.objects oref object }) }
        ensures err { OnErr result (self.new ≡ self.old) }
    {
        let Ok(total) = u32::try_from(self.bytes_with_one(oref, &object)) else {
            return Err(NoMemory);
        };
        put(&mut self.objects, oref, object)?;
        self.repo = oref.repo;
        self.bytes = total;
        Ok(())
    }

    /// Adds all these objects as `load` does, one after the other, or none of them.
    pub fn load_all(&mut self, writes: &Writes) -> Result<(), NoMemory>
        requires one_repo { AreOneRepo self.old.objects writes.now }
        ensures ok { OnOk result (self.new ≡ record self.old { objects = with_all self.old.objects writes.now }) }
        ensures err { OnErr result (self.new ≡ self.old) }
    {
        let Ok(total) = u32::try_from(self.bytes_with(writes)) else {
            return Err(NoMemory);
        };
        let copied = writes.copy()?;
        let repo = self.repo_with(writes);
        make_places(self.alloc, &mut self.objects, writes.as_slice())?;
        replace_all(&mut self.objects, copied.into_vec());
        self.repo = repo;
        self.bytes = total;
        Ok(())
    }

    /// Adds all these objects as `add` does, one after the other, or none of them.
    ///
    /// `Full` comes exactly where the bytes of all objects behind the last of them would pass the limit.
    pub fn add_all(&mut self, writes: &Writes) -> Result<(), MobFull>
        requires one_repo { AreOneRepo self.old.objects writes.now }
        ensures ok { OnOk result (self.new ≡ record self.old { objects = with_all self.old.objects writes.now }) }
        ensures fits { OnOk result (bytes_of (with_all self.old.objects writes.now) ≤ self.old.limit) }
        ensures full { (limit : ℕ) → IsErrOf result (Full limit) → (limit ≡ self.old.limit) × (self.old.limit < bytes_of (with_all self.old.objects writes.now)) }
        ensures err { OnErr result (self.new ≡ self.old) }
    {
        if self.bytes_with(writes) > u64::from(self.limit) {
            return Err(MobFull::Full { limit: self.limit });
        }
        self.load_all(writes)?;
        Ok(())
    }

    /// How many bytes all objects have behind these writes, or the greatest number of 64 bits where that is
    /// less. It takes no memory.
    ///
    /// Its time follows the writes where their names rise, and else the square of their number at most.
    pub fn bytes_with(&self, writes: &Writes) -> u64
        requires { AllByRecursion CanStand writes.now }
        ensures most { result ≤ bytes_of (with_all self.now.objects writes.now) }
        ensures exact { result < 2 ^ 64 - 1 → result ≡ bytes_of (with_all self.now.objects writes.now) }
    {
        match u64::try_from(bytes_behind(&self.objects, self.bytes, writes.as_slice())) {
            Ok(total) => total,
            Err(_) => u64::MAX,
        }
    }

    /// The repository of all objects behind these writes.
    fn repo_with(&self, writes: &Writes) -> u8
        requires { AreOneRepo self.now.objects writes.now }
        ensures { AreOf result (with_all self.now.objects writes.now) }
    {
        match writes.get(0) {
            Some(write) => write.0.repo,
            None => self.repo,
        }
    }

    /// How many bytes all objects have with this one among them.
    fn bytes_with_one(&self, oref: Oref, object: &Obj) -> u64
        requires { ObjFits object.now }
        ensures { result ≡ bytes_of (with_object self.now.objects oref object.now) }
    {
        let before = size_held(&self.objects, oref);
        u64::from(self.bytes) - u64::from(before) + u64::from(spelled_size(object))
    }

    /// The object of a name.
    pub fn get(&self, oref: Oref) -> Option<&Obj>
        ensures value { option_copied result ≡ object_of self.now.objects oref }
        ensures object { IfSome result (λ object. ObjFits object.now) }
    {
        match self.objects.peek(&oref) {
            Some(object) => Some(object),
            None => None,
        }
    }

    /// The next slot of a page that has an object, slots rising: the least, or the least behind another.
    pub fn of_page(&self, page: u32, after: Option<u8>) -> Option<u8>
        ensures next { IsNextSlot self.now.objects page (slot_after after) result }
    {
        let low = match after {
            Some(slot) => slot.saturating_add(1),
            None => 0,
        };
        next_slot(&self.objects, self.repo, page, low)
    }

    /// The name that came in first of those that are held.
    pub fn oldest(&self) -> Option<Oref>
        ensures value { result ≡ option_map (λ q. q.0) (slice_get self.now.objects 0) }
        ensures name { IfSome result OrefFits }
        ensures one_repo { IfSome result (λ oref. AreOf oref.repo self.now.objects) }
    {
        match self.objects.peek_mru() {
            Some((oref, _)) => Some(*oref),
            None => None,
        }
    }

    /// Drops the objects of a page. It takes no memory.
    pub fn remove_page(&mut self, page: u32)
        ensures { self.new ≡ record self.old { objects = without_page self.old.objects page } }
    {
        let taken = take_page(&mut self.objects, self.repo, page);
        self.bytes -= taken;
    }

    /// The most bytes that `add` and `add_all` take.
    pub fn limit(&self) -> u32
        ensures { result ≡ self.now.limit }
    {
        self.limit
    }

    /// The bytes of all objects as they are spelled.
    pub fn bytes(&self) -> u32
        ensures { result ≡ bytes_of self.now.objects }
    {
        self.bytes
    }

    /// The objects with their names, in the order in which the names came in.
    pub fn iter(&self) -> Iter<'_, Oref, Obj>
        ensures rest { result ≡ self.now.objects }
        ensures runs { ShowsInOrder (deref_pair {K = Oref} {X = Obj}) }
        ensures distinct { AreDistinct self.now.objects }
    {
        let _ = self.objects.len();
        self.objects.iter()
    }
}

/// The least slot of a page, from one on, that has an object.
fn next_slot(objects: &LruCache<Oref, Obj>, repo: u8, page: u32, low: u8) -> Option<u8>
    requires { AreOf repo objects.now.entries }
    ensures { IsNextSlot objects.now.entries page low result }
{
    for slot in low..SLOTS {
        if objects.contains(&Oref { repo, page, slot }) {
            return Some(slot);
        }
    }
    None
}
