ghost use Rattle.std.specs.BTreeMap.{is_at};
ghost use Rattle.std.specs.BTreeSet.{insert_key};
ghost use Rattle.std.specs.List.{filter, list_any};
ghost use Rattle.std.specs.Map.{keys_of, lookup};
ghost use Rattle.std.specs.Prelude.{◌≡◌, ◌<◌, ◌↔◌, ℕ, [], false, true, cond, is_some, not, nat_eq, option_map, Option, Some, None, IfOk, IsTrue, OnOk, OnErr, slice_get, take};
ghost use Rattle.thor_value.specs.Names.{oref_cmp};
ghost use Rattle.thor_value.specs.declared.names.Oref.{Oref};
ghost use Rattle.thor_value.specs.declared.values.Obj.{Obj};
ghost use Rattle.client_cache.specs.Changes.{kept_behind};
ghost use Rattle.client_cache.specs.Copies.{changed, elsewhere, forward, holds, kept, nothing, pages, seen};
ghost use Rattle.client_cache.specs.Looks.{Tells};
ghost use Rattle.client_cache.specs.Pages.{on, page_of, same_name, same_page};
ghost use Rattle.client_cache.specs.Placing.{IsObjectPage, IsPageOf};
ghost use Rattle.client_cache.specs.Slots.{dated};

use crate::changes::Changes;
use crate::held_pages::HeldPages;
use crate::look::Looked;
use crate::name_set::NameSet;
use crate::page_copies::Slots;
use crate::page_name::PageName;
use page_format::PageImage;
use std::alloc::Global;
use std::collections::BTreeSet;
use std::marker::Model;
use thor_value::{NoMemory, Obj, Oref, Orefs};

/// The copies of objects that a client holds (Liskov and others, SIGMOD 1996), page by page, with what the
/// running try has made of them. A try that is given up leaves each copy as it was.
///
/// The pages stand in the order of their last use: `place`, `write` and `bring_forward` make a page the most
/// recently used one. All calls but `place` and `write` take no memory.
#[derive(Drop)]
pub struct Cache {
    limit: u32,
    pages: HeldPages,
    written: NameSet,
    /// Of each page that the try has made, the object with which it was made: it is no page of the client's until
    /// the try is settled.
    made: BTreeSet<Oref>,
}

impl Model for Cache {
    ghost use Rattle.client_cache.specs.Copies.{Contents, IsWhole};

    ghost Value = { Contents };

    ghost view = { λ c. record { limit = c.limit; held = c.pages; written = c.written; made = c.made.keys } };

    ghost invariant = { λ c. IsWhole (record { limit = c.limit; held = c.pages; written = c.written; made = c.made.keys }) };
}

impl Cache {
    /// Holds nothing. Between tries it will hold at most so many pages.
    pub fn new(alloc: Global, pages: u32) -> Result<Cache, NoMemory>
        requires { 0 < pages }
        ensures { IfOk result (λ cache. cache ≡ nothing pages) }
    {
        Ok(Cache {
            limit: pages,
            pages: HeldPages::new(alloc)?,
            written: NameSet::new(alloc),
            made: BTreeSet::new(alloc),
        })
    }

    /// Looks for an object. The order of the pages stays as it is.
    pub fn look(&self, oref: Oref) -> Looked<'_>
        ensures { Tells result self.now oref }
    {
        match self.pages.get(PageName::of(oref)) {
            Some(slots) => match slots.get(oref.slot) {
                Some(obj) => Looked::Here(obj),
                None => Looked::NoSlot,
            },
            None => Looked::NoPage,
        }
    }

    /// Whether there is a copy of an object as it was before the try: what the try has made of it doesn't count. The order
    /// of the pages stays as it is.
    pub fn has_copy(&self, oref: Oref) -> bool
        ensures { result ≡ is_some (kept self.now oref) }
    {
        match self.pages.get(PageName::of(oref)) {
            Some(slots) => slots.has_copy(oref.slot),
            None => false,
        }
    }

    /// Whether the try has written an object. The order of the pages stays as it is.
    pub fn is_written(&self, oref: Oref) -> bool
        ensures { result ≡ is_some (changed self.now oref) }
    {
        match self.pages.get(PageName::of(oref)) {
            Some(slots) => slots.is_written(oref.slot),
            None => false,
        }
    }

    /// The name at a place, from 0, among those of the objects that the try has written, which rise.
    pub fn written_at(&self, place: usize) -> Option<Oref>
        ensures { result ≡ slice_get self.now.written place }
    {
        self.written.at(place)
    }

    /// Makes the page of an object the most recently used one, where it is held.
    pub fn bring_forward(&mut self, oref: Oref)
        ensures kept { (x : Oref) → kept self.new x ≡ kept self.old x }
        ensures changed { (x : Oref) → changed self.new x ≡ changed self.old x }
        ensures pages { pages self.new ≡ cond (holds self.old.held (page_of oref)) (forward (page_of oref) (pages self.old)) (pages self.old) }
        ensures written { self.new.written ≡ self.old.written }
        ensures made { self.new.made ≡ self.old.made }
        ensures limit { self.new.limit ≡ self.old.limit }
    {
        self.pages.bring_forward(PageName::of(oref));
    }

    /// Puts the objects of a page, as its message brings them, in the place of the copies there, and answers whether
    /// the bytes are such a page; where they aren't, nothing has changed. What the try has written stays. The page
    /// becomes the most recently used one. After `NoMemory` nothing has changed.
    pub fn place(&mut self, page: u32, repo: u8, bytes: &PageImage) -> Result<bool, NoMemory>
        ensures placed { IfOk result (λ placed. IsTrue placed ↔ IsObjectPage bytes.now page) }
        ensures kept { OnOk result ((objects : ℕ → Option Obj) → IsPageOf bytes.now page objects → (x : Oref) → kept self.new x ≡ cond (same_page (on repo page) (page_of x)) (objects x.slot) (kept self.old x)) }
        ensures changed { OnOk result ((x : Oref) → changed self.new x ≡ changed self.old x) }
        ensures pages { IfOk result (λ placed. pages self.new ≡ cond placed (forward (on repo page) (pages self.old)) (pages self.old)) }
        ensures written { self.new.written ≡ self.old.written }
        ensures made { IfOk result (λ placed. self.new.made ≡ cond placed (filter (λ x. not (same_page (on repo page) (page_of x))) self.old.made) self.old.made) }
        ensures limit { self.new.limit ≡ self.old.limit }
        ensures other { IfOk result (λ placed. IsTrue (not placed) → self.new ≡ self.old) }
        ensures err { OnErr result (self.new ≡ self.old) }
    {
        match self.pages.changes_of(PageName { repo, page }, bytes)? {
            Some(changes) => {
                self.place_changes(PageName { repo, page }, changes)?;
                Ok(true)
            }
            None => Ok(false),
        }
    }

    // Makes of the copies of a page what it makes of them. After `NoMemory` nothing has changed.
    fn place_changes(&mut self, page: PageName, changes: Changes) -> Result<(), NoMemory>
        ensures kept { OnOk result ((x : Oref) → kept self.new x ≡ cond (same_page page (page_of x)) (kept_behind changes (lookup (same_page page) self.old.held) x.slot) (kept self.old x)) }
        ensures changed { OnOk result ((x : Oref) → changed self.new x ≡ changed self.old x) }
        ensures pages { OnOk result (pages self.new ≡ forward page (pages self.old)) }
        ensures written { self.new.written ≡ self.old.written }
        ensures made { OnOk result (self.new.made ≡ filter (λ x. not (same_page page (page_of x))) self.old.made) }
        ensures limit { self.new.limit ≡ self.old.limit }
        ensures err { OnErr result (self.new ≡ self.old) }
    {
        self.pages.place(page, changes)?;
        leave_page(&mut self.made, page);
        Ok(())
    }

    /// Writes an object. The copy stays beside it until the try is settled. Its page becomes the most
    /// recently used one; where it wasn't held, the try makes it, with this object alone. After `NoMemory`
    /// nothing has changed.
    #[tactic(auto, using(crate::proofs::PageLookups::left_alone))]
    pub fn write(&mut self, oref: Oref, obj: Obj) -> Result<(), NoMemory>
        requires { oref.slot < 12 }
        ensures kept { OnOk result ((x : Oref) → kept self.new x ≡ kept self.old x) }
        ensures changed { OnOk result ((x : Oref) → changed self.new x ≡ cond (same_name oref x) (Some obj) (changed self.old x)) }
        ensures pages { OnOk result (pages self.new ≡ forward (page_of oref) (pages self.old)) }
        ensures written { OnOk result (self.new.written ≡ insert_key oref_cmp self.old.written oref) }
        ensures made { OnOk result (self.new.made ≡ cond (holds self.old.held (page_of oref)) self.old.made (insert_key oref_cmp self.old.made oref)) }
        ensures limit { self.new.limit ≡ self.old.limit }
        ensures err { OnErr result (self.new ≡ self.old) }
    {
        let page = PageName::of(oref);
        if self.pages.holds(page) {
            self.written.insert(oref)?;
            self.pages.bring_forward(page);
            self.pages.write(oref, obj);
            return Ok(());
        }
        self.write_on_made(oref, obj)
    }

    // Writes an object on a page that isn't held.
    #[tactic(auto, using(crate::proofs::PageLookups::left_alone))]
    fn write_on_made(&mut self, oref: Oref, obj: Obj) -> Result<(), NoMemory>
        requires slot { oref.slot < 12 }
        requires apart { holds self.old.held (page_of oref) ≡ false }
        ensures kept { OnOk result ((x : Oref) → kept self.new x ≡ kept self.old x) }
        ensures changed { OnOk result ((x : Oref) → changed self.new x ≡ cond (same_name oref x) (Some obj) (changed self.old x)) }
        ensures pages { OnOk result (pages self.new ≡ forward (page_of oref) (pages self.old)) }
        ensures written { OnOk result (self.new.written ≡ insert_key oref_cmp self.old.written oref) }
        ensures made { OnOk result (self.new.made ≡ insert_key oref_cmp self.old.made oref) }
        ensures limit { self.new.limit ≡ self.old.limit }
        ensures err { OnErr result (self.new ≡ self.old) }
    {
        let page = PageName::of(oref);
        let slots = Slots::with_one(self.pages.allocator(), oref.slot, obj)?;
        self.pages.hold(page, slots)?;
        if insert_both(&mut self.written, &mut self.made, oref).is_err() {
            self.pages.remove(page);
            return Err(NoMemory);
        }
        Ok(())
    }

    /// Gives what the try has made of an object this version, and answers a copy of it; nothing where the try hasn't
    /// written it. The order of the pages stays as it is. After `NoMemory` the version stands.
    pub fn date(&mut self, oref: Oref, ver: u32) -> Result<Option<Obj>, NoMemory>
        ensures copy { IfOk result (λ copy. copy ≡ option_map (dated ver) (changed self.old oref)) }
        ensures kept { (x : Oref) → kept self.new x ≡ kept self.old x }
        ensures changed { (x : Oref) → changed self.new x ≡ cond (same_name oref x) (option_map (dated ver) (changed self.old oref)) (changed self.old x) }
        ensures pages { pages self.new ≡ pages self.old }
        ensures written { self.new.written ≡ self.old.written }
        ensures made { self.new.made ≡ self.old.made }
        ensures limit { self.new.limit ≡ self.old.limit }
    {
        self.pages.date(oref, ver)
    }

    /// Gives up what the try has written: each copy stands as before it, and dropped ones stay dropped. Pages that
    /// the try has made go.
    pub fn undo(&mut self)
        ensures kept { (x : Oref) → kept self.new x ≡ kept self.old x }
        ensures changed { (x : Oref) → changed self.new x ≡ None }
        ensures pages { self.old.made ≡ [] → pages self.new ≡ pages self.old }
        ensures written { self.new.written ≡ [] }
        ensures made { self.new.made ≡ [] }
        ensures limit { self.new.limit ≡ self.old.limit }
    {
        self.undo_writes();
        self.drop_made();
    }

    fn undo_writes(&mut self)
        ensures kept { (x : Oref) → kept self.new x ≡ kept self.old x }
        ensures changed { (x : Oref) → changed self.new x ≡ None }
        ensures pages { pages self.new ≡ pages self.old }
        ensures written { self.new.written ≡ [] }
        ensures made { self.new.made ≡ self.old.made }
        ensures limit { self.new.limit ≡ self.old.limit }
    {
        while let Some(oref) = self.written.pop() {
            self.pages.undo(oref);
        }
    }

    // Drops the pages that the try has made: nothing stands on them.
    fn drop_made(&mut self)
        ensures kept { (x : Oref) → kept self.new x ≡ kept self.old x }
        ensures changed { (x : Oref) → changed self.new x ≡ changed self.old x }
        ensures pages { self.old.made ≡ [] → pages self.new ≡ pages self.old }
        ensures written { self.new.written ≡ self.old.written }
        ensures made { self.new.made ≡ [] }
        ensures limit { self.new.limit ≡ self.old.limit }
    {
        while let Some(oref) = self.made.pop_first() {
            self.pages.drop_bare(PageName::of(oref));
        }
    }

    /// Makes what the try has written the copies. The pages that the try has made become the most recently used
    /// ones, the last of them first.
    pub fn settle(&mut self)
        ensures kept { (x : Oref) → kept self.new x ≡ seen self.old x }
        ensures changed { (x : Oref) → changed self.new x ≡ None }
        ensures pages { self.old.made ≡ [] → pages self.new ≡ pages self.old }
        ensures written { self.new.written ≡ [] }
        ensures made { self.new.made ≡ [] }
        ensures limit { self.new.limit ≡ self.old.limit }
    {
        self.settle_writes();
        self.bring_made_forward();
    }

    #[tactic(auto, using(crate::proofs::SettledOne::settled_one, crate::proofs::SettledOne::seen_told))]
    fn settle_writes(&mut self)
        ensures kept { (x : Oref) → kept self.new x ≡ seen self.old x }
        ensures changed { (x : Oref) → changed self.new x ≡ None }
        ensures pages { pages self.new ≡ pages self.old }
        ensures written { self.new.written ≡ [] }
        ensures made { self.new.made ≡ self.old.made }
        ensures limit { self.new.limit ≡ self.old.limit }
    {
        while let Some(oref) = self.written.pop() {
            self.pages.settle(oref);
        }
    }

    // The pages that the try has made become the most recently used ones, rising.
    fn bring_made_forward(&mut self)
        ensures kept { (x : Oref) → kept self.new x ≡ kept self.old x }
        ensures changed { (x : Oref) → changed self.new x ≡ changed self.old x }
        ensures pages { self.old.made ≡ [] → pages self.new ≡ pages self.old }
        ensures written { self.new.written ≡ self.old.written }
        ensures made { self.new.made ≡ [] }
        ensures limit { self.new.limit ≡ self.old.limit }
    {
        while let Some(oref) = self.made.pop_first() {
            self.pages.bring_forward(PageName::of(oref));
        }
    }

    /// Drops the copies of these objects. What the try has written stays.
    pub fn invalidate(&mut self, orefs: &Orefs)
        ensures kept { (x : Oref) → kept self.new x ≡ cond (list_any (λ y. same_name y x) orefs.now) None (kept self.old x) }
        ensures changed { (x : Oref) → changed self.new x ≡ changed self.old x }
        ensures pages { pages self.new ≡ pages self.old }
        ensures written { self.new.written ≡ self.old.written }
        ensures made { self.new.made ≡ self.old.made }
        ensures limit { self.new.limit ≡ self.old.limit }
    {
        for oref in orefs.as_slice() {
            self.pages.forget(*oref);
        }
    }

    /// Gives up what the try has written of these objects. Their copies stay as they are. A page that the try has made stays,
    /// without an object where none is left of it.
    pub fn invalidate_written(&mut self, orefs: &Orefs)
        ensures kept { (x : Oref) → kept self.new x ≡ kept self.old x }
        ensures changed { (x : Oref) → changed self.new x ≡ cond (list_any (λ y. same_name y x) orefs.now) None (changed self.old x) }
        ensures pages { pages self.new ≡ pages self.old }
        ensures written { self.new.written ≡ filter (λ x. not (list_any (λ y. same_name y x) orefs.now)) self.old.written }
        ensures made { self.new.made ≡ self.old.made }
        ensures limit { self.new.limit ≡ self.old.limit }
    {
        self.pages.undo_all(orefs);
        self.written.drop_all(orefs);
    }

    /// Drops whole pages, the least recently used ones first, until at most as many are left as were given
    /// to `new`. It is called between tries: while something is written that isn't settled or given up, it drops
    /// nothing, so that no page of the present try goes.
    pub fn evict(&mut self)
        ensures held { self.old.written ≡ [] → self.new.held ≡ take self.old.limit self.old.held }
        ensures own { (self.old.written ≡ [] → ⊥) → self.new.held ≡ self.old.held }
        ensures changed { (x : Oref) → changed self.new x ≡ changed self.old x }
        ensures written { self.new.written ≡ self.old.written }
        ensures made { self.new.made ≡ self.old.made }
        ensures limit { self.new.limit ≡ self.old.limit }
    {
        if self.written.is_empty() {
            self.evict_between_tries();
        }
    }

    // The same where nothing is written that isn't settled or given up.
    fn evict_between_tries(&mut self)
        requires { self.old.written ≡ [] }
        ensures held { self.new.held ≡ take self.old.limit self.old.held }
        ensures changed { (x : Oref) → changed self.new x ≡ changed self.old x }
        ensures written { self.new.written ≡ [] }
        ensures made { self.new.made ≡ self.old.made }
        ensures limit { self.new.limit ≡ self.old.limit }
    {
        self.pages.evict(self.limit);
    }

    /// Drops the pages of a repository, with what the try has written there.
    pub fn drop_repo(&mut self, repo: u8)
        ensures kept { (x : Oref) → kept self.new x ≡ cond (nat_eq x.repo repo) None (kept self.old x) }
        ensures changed { (x : Oref) → changed self.new x ≡ cond (nat_eq x.repo repo) None (changed self.old x) }
        ensures held { self.new.held ≡ elsewhere repo self.old.held }
        ensures written { self.new.written ≡ filter (λ x. not (nat_eq x.repo repo)) self.old.written }
        ensures made { self.new.made ≡ filter (λ x. not (nat_eq x.repo repo)) self.old.made }
        ensures limit { self.new.limit ≡ self.old.limit }
    {
        self.pages.drop_repo(repo);
        self.written.drop_repo(repo);
        leave_repo(&mut self.made, repo);
    }
}

// Puts a name among names, and among others.
fn insert_both(written: &mut NameSet, made: &mut BTreeSet<Oref>, oref: Oref) -> Result<(), NoMemory>
    ensures written { OnOk result (written.new ≡ insert_key oref_cmp written.old oref) }
    ensures has { OnOk result ((x : Oref) → list_any (is_at (oref_cmp x)) written.new ≡ cond (is_at (oref_cmp oref) x) true (list_any (is_at (oref_cmp x)) written.old)) }
    ensures made { OnOk result (made.new.keys ≡ insert_key oref_cmp made.old.keys oref) }
    ensures err { OnErr result ((written.new ≡ written.old) × (made.new.keys ≡ made.old.keys)) }
{
    let added = made.insert(oref)?;
    if written.insert(oref).is_err() {
        if added {
            made.remove(&oref);
        }
        return Err(NoMemory);
    }
    Ok(())
}

// Drops the names of a repository.
fn leave_repo(names: &mut BTreeSet<Oref>, repo: u8)
    ensures { names.new.keys ≡ filter (λ x. not (nat_eq x.repo repo)) names.old.keys }
{
    names.retain(|oref| oref.repo != repo);
}

// Drops the names of a page.
fn leave_page(names: &mut BTreeSet<Oref>, page: PageName)
    ensures { names.new.keys ≡ filter (λ x. not (same_page page (page_of x))) names.old.keys }
{
    names.retain(|oref| PageName::of(*oref) != page);
}
