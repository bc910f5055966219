ghost use Rattle.std.specs.Prelude.{◌≡◌, ◌<◌, ◌≤◌, ℕ, nat_eq, cond, Some, None, length, IfOk, IfSome, is_some, option_map};
ghost use Rattle.std.specs.Option.{option_copied};
ghost use Rattle.std.specs.List.{list_all};
ghost use Rattle.client_cache.specs.Changes.{behind, kept_behind};
ghost use Rattle.client_cache.specs.Slots.{dated, dated_in, is_bare, kept_in, no_copies, seen_in, settled, written_in};

use crate::changes::{Change, Changes};
use std::alloc::Global;
use std::marker::Model;
use thor_value::{NoMemory, Obj, SLOTS, TryCopy};

/// What a client holds for one slot of a page.
#[derive(Drop)]
pub struct Slot {
    /// The copy as it was before the try; nothing where the client has none.
    pub kept: Option<Obj>,
    /// What the try has made of it; nothing where the try hasn't written it.
    pub written: Option<Obj>,
}

impl Slot {
    /// Makes what the try has made of the slot the copy.
    fn settle(&mut self)
        ensures { self.new ≡ settled self.old }
    {
        if let Some(obj) = self.written.take() {
            self.kept = Some(obj);
        }
    }

    /// Gives what the try has made of the slot this version, and answers a copy of it.
    fn date(&mut self, ver: u32) -> Result<Option<Obj>, NoMemory>
        ensures slot { self.new ≡ dated_in ver self.old }
        ensures copy { IfOk result (λ copy. copy ≡ self.new.written) }
    {
        match &mut self.written {
            Some(obj) => {
                obj.ver = ver;
                Ok(Some(obj.copy()?))
            }
            None => Ok(None),
        }
    }
}

/// The twelve slots of one page.
#[derive(Drop)]
pub struct Slots {
    slots: Vec<Slot>,
}

impl Model for Slots {
    ghost use Rattle.std.specs.Prelude.{List, ◌≡◌, length};
    ghost use Rattle.client_cache.specs.declared.page_copies.Slot.{Slot};

    ghost Value = { List Slot };

    ghost view = { λ s. s.slots.items };

    ghost invariant = { λ s. length s.slots.items ≡ 12 };
}

impl Slots {
    /// Slots with no copy.
    pub fn empty(alloc: Global) -> Result<Slots, NoMemory>
        ensures { IfOk result (λ slots. slots ≡ no_copies 12) }
    {
        let mut slots = Vec::with_capacity(alloc, usize::from(SLOTS))?;
        for _ in 0..SLOTS {
            slots.push(Slot {
                kept: None,
                written: None,
            })?;
        }
        Ok(Slots { slots })
    }

    /// Slots of which one is written, and no copy.
    pub fn with_one(alloc: Global, slot: u8, obj: Obj) -> Result<Slots, NoMemory>
        requires { slot < 12 }
        ensures kept { IfOk result (λ slots. (s : ℕ) → kept_in slots s ≡ None) }
        ensures written { IfOk result (λ slots. (s : ℕ) → written_in slots s ≡ cond (nat_eq slot s) (Some obj) None) }
    {
        let mut slots = Slots::empty(alloc)?;
        slots.write(slot, obj);
        Ok(slots)
    }

    /// What stands in a slot now: what the try has made of it, else the copy.
    pub fn get(&self, slot: u8) -> Option<&Obj>
        ensures { option_copied result ≡ seen_in self.now slot }
    {
        let slot = self.slots.get(usize::from(slot))?;
        match &slot.written {
            Some(obj) => Some(obj),
            None => slot.kept.as_ref(),
        }
    }

    /// The copy in a slot. What the try has made of it doesn't count.
    pub fn kept(&self, slot: u8) -> Option<&Obj>
        ensures { option_copied result ≡ kept_in self.now slot }
    {
        self.slots.get(usize::from(slot))?.kept.as_ref()
    }

    /// Whether there is a copy in a slot. What the try has made of it doesn't count.
    pub fn has_copy(&self, slot: u8) -> bool
        ensures { result ≡ is_some (kept_in self.now slot) }
    {
        match self.slots.get(usize::from(slot)) {
            Some(slot) => slot.kept.is_some(),
            None => false,
        }
    }

    /// Whether the try has written a slot.
    pub fn is_written(&self, slot: u8) -> bool
        ensures { result ≡ is_some (written_in self.now slot) }
    {
        match self.slots.get(usize::from(slot)) {
            Some(slot) => slot.written.is_some(),
            None => false,
        }
    }

    /// Puts a copy into a slot, in the place of the one before. What the try has made of it stays.
    fn keep(&mut self, slot: u8, obj: Obj)
        requires { slot < 12 }
        ensures kept { (s : ℕ) → kept_in self.new s ≡ cond (nat_eq slot s) (Some obj) (kept_in self.old s) }
        ensures written { (s : ℕ) → written_in self.new s ≡ written_in self.old s }
    {
        if let Some(slot) = self.slots.get_mut(usize::from(slot)) {
            slot.kept = Some(obj);
        }
    }

    /// Drops the copy in a slot, where there is one. What the try has made of it stays.
    pub fn forget(&mut self, slot: u8)
        ensures kept { (s : ℕ) → kept_in self.new s ≡ cond (nat_eq slot s) None (kept_in self.old s) }
        ensures written { (s : ℕ) → written_in self.new s ≡ written_in self.old s }
    {
        if let Some(slot) = self.slots.get_mut(usize::from(slot)) {
            slot.kept = None;
        }
    }

    /// Writes a slot. The copy stays beside it.
    pub fn write(&mut self, slot: u8, obj: Obj)
        requires { slot < 12 }
        ensures kept { (s : ℕ) → kept_in self.new s ≡ kept_in self.old s }
        ensures written { (s : ℕ) → written_in self.new s ≡ cond (nat_eq slot s) (Some obj) (written_in self.old s) }
    {
        if let Some(slot) = self.slots.get_mut(usize::from(slot)) {
            slot.written = Some(obj);
        }
    }

    /// Gives up what the try has made of a slot.
    pub fn undo(&mut self, slot: u8)
        ensures kept { (s : ℕ) → kept_in self.new s ≡ kept_in self.old s }
        ensures written { (s : ℕ) → written_in self.new s ≡ cond (nat_eq slot s) None (written_in self.old s) }
    {
        if let Some(slot) = self.slots.get_mut(usize::from(slot)) {
            slot.written = None;
        }
    }

    /// Makes what the try has made of a slot the copy.
    pub fn settle(&mut self, slot: u8)
        ensures kept { (s : ℕ) → kept_in self.new s ≡ cond (nat_eq slot s) (seen_in self.old slot) (kept_in self.old s) }
        ensures written { (s : ℕ) → written_in self.new s ≡ cond (nat_eq slot s) None (written_in self.old s) }
    {
        if let Some(slot) = self.slots.get_mut(usize::from(slot)) {
            slot.settle();
        }
    }

    /// What the try has made of a slot, where it has this version.
    pub fn written_as(&self, slot: u8, ver: u32) -> Option<&Obj>
        ensures { IfSome (option_copied result) (λ obj. (written_in self.now slot ≡ Some obj) × (obj.ver ≡ ver)) }
    {
        let slot = self.slots.get(usize::from(slot))?;
        match &slot.written {
            Some(obj) => { if obj.ver == ver { Some(obj) } else { None } }
            None => None,
        }
    }

    /// Gives what the try has made of a slot this version, and answers a copy of it; nothing where the try hasn't
    /// written it.
    pub fn date(&mut self, slot: u8, ver: u32) -> Result<Option<Obj>, NoMemory>
        ensures copy { IfOk result (λ copy. copy ≡ option_map (dated ver) (written_in self.old slot)) }
        ensures kept { (s : ℕ) → kept_in self.new s ≡ kept_in self.old s }
        ensures written { (s : ℕ) → written_in self.new s ≡ cond (nat_eq slot s) (option_map (dated ver) (written_in self.old slot)) (written_in self.old s) }
    {
        match self.slots.get_mut(usize::from(slot)) {
            Some(slot) => slot.date(ver),
            None => Ok(None),
        }
    }

    /// Makes of the copies what a page makes of them. What the try has made of them stays.
    pub fn change(&mut self, mut changes: Changes)
        ensures kept { (s : ℕ) → kept_in self.new s ≡ kept_behind changes (Some self.old) s }
        ensures written { (s : ℕ) → written_in self.new s ≡ written_in self.old s }
    {
        changes.within();
        self.within();
        for slot in 0..SLOTS {
            let change = changes.take(slot);
            self.change_one(slot, change);
        }
    }

    /// Makes of the copy in a slot what a page makes of it.
    fn change_one(&mut self, slot: u8, change: Change)
        requires { slot < 12 }
        ensures kept { (s : ℕ) → kept_in self.new s ≡ cond (nat_eq slot s) (behind change (kept_in self.old slot)) (kept_in self.old s) }
        ensures written { (s : ℕ) → written_in self.new s ≡ written_in self.old s }
    {
        match change {
            Change::Same => {}
            Change::Gone => self.forget(slot),
            Change::Other(obj) => self.keep(slot, obj),
        }
    }

    /// Whether no slot has a copy or what the try has made of it.
    pub fn are_bare(&self) -> bool
        ensures { result ≡ list_all is_bare self.now }
    {
        self.slots
            .iter()
            .all(|slot| slot.kept.is_none() && slot.written.is_none())
    }

    /// There are twelve slots.
    pub fn within(&self)
        ensures { (s : ℕ) → 12 ≤ s → (kept_in self.now s ≡ None) × (written_in self.now s ≡ None) }
    {
        let _count = self.slots.len();
    }
}
