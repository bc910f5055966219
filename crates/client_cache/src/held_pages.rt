ghost use Rattle.std.specs.Map.{keys_of, lookup, remove_entry};
ghost use Rattle.std.specs.List.{list_all, list_any};
ghost use Rattle.std.specs.Option.{option_copied, option_map_or};
ghost use Rattle.std.specs.Prelude.{◌≡◌, ◌<◌, ℕ, Option, MatchOption, take, [], ◌∷◌, false, true, cond, option_map, Some, None, IfOk, IfSome, IsTrue, OnOk, OnErr};
ghost use Rattle.thor_value.specs.declared.names.Oref.{Oref};
ghost use Rattle.thor_value.specs.declared.values.Obj.{Obj};
ghost use Rattle.client_cache.specs.declared.page_name.PageName.{PageName};
ghost use Rattle.client_cache.specs.Changes.{kept_behind};
ghost use Rattle.client_cache.specs.Copies.{elsewhere, forward, holds, copy_by};
ghost use Rattle.client_cache.specs.Placing.{IsObjectPage, IsPageOf};
ghost use Rattle.client_cache.specs.Pages.{page_of, same_name, same_page};
ghost use Rattle.client_cache.specs.Slots.{dated, is_bare, kept_in, seen_in, written_in};

use crate::changes::Changes;
use crate::page_copies::Slots;
use crate::page_name::PageName;
use crate::placing::changes_of;
use lru::LruCache;
use page_format::PageImage;
use std::alloc::Global;
use std::marker::Model;
use std::num::NonZeroUsize;
use thor_value::{NoMemory, Obj, Oref, Orefs, TryCopy};

/// The pages that a client holds, in the order of their last use.
#[derive(Drop)]
pub struct HeldPages {
    pages: LruCache<PageName, Slots>,
}

impl Model for HeldPages {
    ghost use Rattle.std.specs.Prelude.{◌≡◌, ◌^◌, ◌-◌};
    ghost use Rattle.client_cache.specs.Copies.{Held};

    ghost Value = { Held };

    ghost view = { λ p. p.pages.entries };

    ghost invariant = { λ p. p.pages.cap ≡ 2 ^ 64 - 1 };
}

impl HeldPages {
    /// No page.
    pub fn new(alloc: Global) -> Result<HeldPages, NoMemory>
        ensures { IfOk result (λ pages. pages ≡ []) }
    {
        Ok(HeldPages {
            pages: LruCache::unbounded(alloc)?,
        })
    }

    /// The allocator that was handed in.
    pub fn allocator(&self) -> Global {
        *self.pages.allocator()
    }

    // The slots of a page, where it is the most recently used one.
    fn first(&self, page: PageName) -> Option<&Slots>
        ensures found { IfSome (option_copied result) (λ slots. lookup (same_page page) self.now ≡ Some slots) }
        ensures order { IfSome (option_copied result) (λ slots. keys_of self.now ≡ forward page (keys_of self.now)) }
    {
        match self.pages.peek_mru() {
            Some((name, slots)) => {
                if name.page == page.page && name.repo == page.repo {
                    Some(slots)
                } else {
                    None
                }
            }
            None => None,
        }
    }

    // Whether a page is the most recently used one. Most uses are of that one, and it needs no search.
    fn is_first(&self, page: PageName) -> bool
        ensures held { IsTrue result → holds self.now page ≡ true }
        ensures order { IsTrue result → keys_of self.now ≡ forward page (keys_of self.now) }
    {
        match self.first(page) {
            Some(_) => true,
            None => false,
        }
    }

    /// The slots of a page, where it is held.
    pub fn get(&self, page: PageName) -> Option<&Slots>
        ensures { option_copied result ≡ lookup (same_page page) self.now }
    {
        match self.first(page) {
            Some(slots) => Some(slots),
            None => self.pages.peek(&page),
        }
    }

    /// Makes a page the most recently used one, where it is held, and tells whether it is.
    pub fn bring_forward(&mut self, page: PageName) -> bool
        ensures same { (p : PageName) → lookup (same_page p) self.new ≡ lookup (same_page p) self.old }
        ensures order { keys_of self.new ≡ cond (holds self.old page) (forward page (keys_of self.old)) (keys_of self.old) }
        ensures held { result ≡ holds self.old page }
    {
        if self.is_first(page) {
            return true;
        }
        self.pages.promote(&page)
    }

    /// Holds one more page, as the most recently used one. After `NoMemory` nothing has changed.
    pub fn hold(&mut self, page: PageName, slots: Slots) -> Result<(), NoMemory>
        requires { holds self.old page ≡ false }
        ensures ok { OnOk result (self.new ≡ (page, slots) ∷ self.old) }
        ensures err { OnErr result (self.new ≡ self.old) }
    {
        let count = self.pages.len();
        prove!(count < usize::MAX);
        self.pages.put(page, slots)?;
        Ok(())
    }

    /// Writes an object of a page that is held.
    pub fn write(&mut self, oref: Oref, obj: Obj)
        requires slot { oref.slot < 12 }
        requires held { holds self.old (page_of oref) ≡ true }
        ensures kept { (x : Oref) → copy_by kept_in self.new x ≡ copy_by kept_in self.old x }
        ensures written { (x : Oref) → copy_by written_in self.new x ≡ cond (same_name oref x) (Some obj) (copy_by written_in self.old x) }
        ensures order { keys_of self.new ≡ keys_of self.old }
    {
        let Some(slots) = self.pages.peek_mut(&PageName::of(oref)) else {
            return;
        };
        slots.write(oref.slot, obj);
    }

    /// Drops the copy of an object.
    pub fn forget(&mut self, oref: Oref)
        ensures kept { (x : Oref) → copy_by kept_in self.new x ≡ cond (same_name oref x) None (copy_by kept_in self.old x) }
        ensures written { (x : Oref) → copy_by written_in self.new x ≡ copy_by written_in self.old x }
        ensures order { keys_of self.new ≡ keys_of self.old }
    {
        let Some(slots) = self.pages.peek_mut(&PageName::of(oref)) else {
            return;
        };
        slots.forget(oref.slot);
    }

    /// Gives up what the try has made of an object.
    pub fn undo(&mut self, oref: Oref)
        ensures kept { (x : Oref) → copy_by kept_in self.new x ≡ copy_by kept_in self.old x }
        ensures written { (x : Oref) → copy_by written_in self.new x ≡ cond (same_name oref x) None (copy_by written_in self.old x) }
        ensures order { keys_of self.new ≡ keys_of self.old }
    {
        let Some(slots) = self.pages.peek_mut(&PageName::of(oref)) else {
            return;
        };
        slots.undo(oref.slot);
    }

    /// Gives up what the try has made of these objects.
    pub fn undo_all(&mut self, orefs: &Orefs)
        ensures kept { (x : Oref) → copy_by kept_in self.new x ≡ copy_by kept_in self.old x }
        ensures written { (x : Oref) → copy_by written_in self.new x ≡ cond (list_any (λ y. same_name y x) orefs.now) None (copy_by written_in self.old x) }
        ensures order { keys_of self.new ≡ keys_of self.old }
    {
        for oref in orefs.as_slice() {
            self.undo(*oref);
        }
    }

    /// Makes what the try has made of an object its copy.
    pub fn settle(&mut self, oref: Oref)
        ensures kept { (x : Oref) → copy_by kept_in self.new x ≡ cond (same_name oref x) (copy_by seen_in self.old oref) (copy_by kept_in self.old x) }
        ensures written { (x : Oref) → copy_by written_in self.new x ≡ cond (same_name oref x) None (copy_by written_in self.old x) }
        ensures order { keys_of self.new ≡ keys_of self.old }
    {
        let Some(slots) = self.pages.peek_mut(&PageName::of(oref)) else {
            return;
        };
        slots.settle(oref.slot);
    }

    /// Gives what the try has made of an object this version, and answers a copy of it; nothing where the try hasn't
    /// written it. Where it has this version already, nothing is written.
    pub fn date(&mut self, oref: Oref, ver: u32) -> Result<Option<Obj>, NoMemory>
        ensures copy { IfOk result (λ copy. copy ≡ option_map (dated ver) (copy_by written_in self.old oref)) }
        ensures kept { (x : Oref) → copy_by kept_in self.new x ≡ copy_by kept_in self.old x }
        ensures written { (x : Oref) → copy_by written_in self.new x ≡ cond (same_name oref x) (option_map (dated ver) (copy_by written_in self.old oref)) (copy_by written_in self.old x) }
        ensures order { keys_of self.new ≡ keys_of self.old }
    {
        match self.written_as(oref, ver) {
            Some(obj) => Ok(Some(obj.copy()?)),
            None => self.date_anew(oref, ver),
        }
    }

    // What the try has made of an object, where it has this version.
    fn written_as(&self, oref: Oref, ver: u32) -> Option<&Obj>
        ensures { IfSome (option_copied result) (λ obj. (copy_by written_in self.now oref ≡ Some obj) × (obj.ver ≡ ver)) }
    {
        match self.get(PageName::of(oref)) {
            Some(slots) => slots.written_as(oref.slot, ver),
            None => None,
        }
    }

    // Gives what the try has made of an object this version, whichever it has, and answers a copy of it.
    fn date_anew(&mut self, oref: Oref, ver: u32) -> Result<Option<Obj>, NoMemory>
        ensures copy { IfOk result (λ copy. copy ≡ option_map (dated ver) (copy_by written_in self.old oref)) }
        ensures kept { (x : Oref) → copy_by kept_in self.new x ≡ copy_by kept_in self.old x }
        ensures written { (x : Oref) → copy_by written_in self.new x ≡ cond (same_name oref x) (option_map (dated ver) (copy_by written_in self.old oref)) (copy_by written_in self.old x) }
        ensures order { keys_of self.new ≡ keys_of self.old }
    {
        let Some(slots) = self.pages.peek_mut(&PageName::of(oref)) else {
            return Ok(None);
        };
        slots.date(oref.slot, ver)
    }

    /// What the bytes of a page make of the copies that are held of it; nothing where they aren't that page.
    pub fn changes_of(&self, page: PageName, bytes: &PageImage) -> Result<Option<Changes>, NoMemory>
        ensures page { IfOk result (λ found. IfSome found (λ changes. IsPageOf bytes.now page.page (kept_behind changes (lookup (same_page page) self.now)))) }
        ensures none { IfOk result (λ found. found ≡ None → IsObjectPage bytes.now page.page → ⊥) }
        ensures kept { IfOk result (λ found. IfSome found (λ changes. (objects : ℕ → Option Obj) → IsPageOf bytes.now page.page objects → (s : ℕ) → kept_behind changes (lookup (same_page page) self.now) s ≡ objects s)) }
    {
        changes_of(self.allocator(), self.get(page), bytes, page.page)
    }

    /// Makes of the copies of a page what it makes of them, where none are held of what is nothing; what the try has
    /// made of them stays. The page becomes the most recently used one. After `NoMemory` nothing has changed.
    pub fn place(&mut self, page: PageName, changes: Changes) -> Result<(), NoMemory>
        ensures kept { OnOk result ((x : Oref) → copy_by kept_in self.new x ≡ cond (same_page page (page_of x)) (kept_behind changes (lookup (same_page page) self.old) x.slot) (copy_by kept_in self.old x)) }
        ensures written { OnOk result ((x : Oref) → copy_by written_in self.new x ≡ copy_by written_in self.old x) }
        ensures order { OnOk result (keys_of self.new ≡ forward page (keys_of self.old)) }
        ensures err { OnErr result (self.new ≡ self.old) }
    {
        if !self.holds(page) {
            return self.place_first(page, changes);
        }
        self.bring_forward(page);
        self.change(page, changes);
        Ok(())
    }

    // The same for a page that isn't held.
    fn place_first(&mut self, page: PageName, changes: Changes) -> Result<(), NoMemory>
        requires { holds self.old page ≡ false }
        ensures kept { OnOk result ((x : Oref) → copy_by kept_in self.new x ≡ cond (same_page page (page_of x)) (kept_behind changes None x.slot) (copy_by kept_in self.old x)) }
        ensures written { OnOk result ((x : Oref) → copy_by written_in self.new x ≡ copy_by written_in self.old x) }
        ensures order { OnOk result (keys_of self.new ≡ forward page (keys_of self.old)) }
        ensures err { OnErr result (self.new ≡ self.old) }
    {
        let slots = slots_of(self.allocator(), changes)?;
        self.hold(page, slots)
    }

    /// Whether a page is held.
    pub fn holds(&self, page: PageName) -> bool
        ensures { result ≡ holds self.now page }
    {
        self.is_first(page) || self.pages.contains(&page)
    }

    // The same for a page that is held, and stays where it is among them.
    fn change(&mut self, page: PageName, changes: Changes)
        requires { holds self.old page ≡ true }
        ensures kept { (x : Oref) → copy_by kept_in self.new x ≡ cond (same_page page (page_of x)) (kept_behind changes (lookup (same_page page) self.old) x.slot) (copy_by kept_in self.old x) }
        ensures written { (x : Oref) → copy_by written_in self.new x ≡ copy_by written_in self.old x }
        ensures order { keys_of self.new ≡ keys_of self.old }
    {
        let Some(slots) = self.pages.peek_mut(&page) else {
            return;
        };
        slots.change(changes);
    }

    /// Drops pages that were used least recently, until at most so many are left.
    pub fn evict(&mut self, limit: u32)
        requires { 0 < limit }
        ensures { self.new ≡ take limit self.old }
    {
        if self.pages.len() <= limit as usize {
            return;
        }
        if let Some(limit) = NonZeroUsize::new(limit as usize) {
            self.pages.resize(limit);
            self.pages.resize(NonZeroUsize::MAX);
        }
    }

    /// Drops the pages of a repository. The work is that of so many walks over the pages held.
    pub fn drop_repo(&mut self, repo: u8)
        ensures { self.new ≡ elsewhere repo self.old }
    {
        while let Some(page) = self.first_of(repo) {
            self.remove(page);
        }
    }

    /// Drops a page, where it is held and has neither a copy nor what the try has made of one.
    pub fn drop_bare(&mut self, page: PageName)
        ensures kept { (x : Oref) → copy_by kept_in self.new x ≡ copy_by kept_in self.old x }
        ensures written { (x : Oref) → copy_by written_in self.new x ≡ copy_by written_in self.old x }
    {
        let _count = self.pages.len();
        if self.is_bare(page) {
            self.remove(page);
        }
    }

    // Whether a page is held, and has neither a copy nor what the try has made of one.
    fn is_bare(&self, page: PageName) -> bool
        ensures { result ≡ option_map_or (list_all is_bare) (lookup (same_page page) self.now) false }
    {
        match self.pages.peek(&page) {
            Some(slots) => slots.are_bare(),
            None => false,
        }
    }

    /// Drops a page, where it is held.
    pub fn remove(&mut self, page: PageName)
        ensures { self.new ≡ remove_entry (same_page page) self.old }
    {
        drop(self.pages.pop(&page));
    }

    // The first page that is held of a repository.
    fn first_of(&self, repo: u8) -> Option<PageName>
        ensures { MatchOption result (elsewhere repo self.now ≡ self.now) (λ page. (page.repo ≡ repo) × (holds self.now page ≡ true)) }
    {
        for (page, _) in self.pages.iter() {
            if page.repo == repo {
                return Some(*page);
            }
        }
        None
    }
}

// The slots of a page of which no copies are held.
fn slots_of(alloc: Global, changes: Changes) -> Result<Slots, NoMemory>
    ensures kept { IfOk result (λ slots. (s : ℕ) → kept_in slots s ≡ kept_behind changes None s) }
    ensures written { IfOk result (λ slots. (s : ℕ) → written_in slots s ≡ None) }
{
    let mut slots = Slots::empty(alloc)?;
    slots.change(changes);
    slots.within();
    Ok(slots)
}
