ghost use Rattle.std.proofs.Props.{props};
ghost use Rattle.std.specs.Prelude.{◌≡◌, ◌<◌, ◌↔◌, ℕ, [], cond, nat_eq, Option, None, Some, IfOk, IsTrue, OnOk, OnErr, not};
ghost use Rattle.std.specs.BTreeSet.{insert_key};
ghost use Rattle.std.specs.List.{filter, list_any};
ghost use Rattle.thor_value.specs.Names.{oref_cmp};
ghost use Rattle.thor_value.specs.declared.names.Oref.{Oref};
ghost use Rattle.thor_value.specs.declared.values.Obj.{Obj};
ghost use Rattle.client_cache.specs.Copies.{changed, kept, nothing, pages, seen};
ghost use Rattle.client_cache.specs.Looks.{Tells};
ghost use Rattle.client_cache.specs.Pages.{on, page_of, same_name, same_page};
ghost use Rattle.client_cache.specs.Placing.{IsObjectPage, IsPageOf};
ghost use Rattle.paused_eval.specs.Copies.{AreAmong, Keeps, Tied};

use client_cache::{Cache, Looked};
use page_format::PageImage;
use std::alloc::Global;
use thor_value::{NoMemory, Obj, Oref, Orefs};

/// The copies of objects that a client holds.
///
/// A try's evaluation works on it. A try that is given up leaves each copy as it was.
#[derive(Drop)]
pub struct Copies {
    pub cache: Cache,
    pub ghost tied: { Tied cache } by { Prim.hlevel props },
}

impl Copies {
    /// Holds nothing. Between tries it will hold at most so many pages.
    #[tactic(auto, using(crate::proofs::Hands::nothing_written))]
    pub fn new(alloc: Global, pages: u32) -> Result<Copies, NoMemory>
        requires { 0 < pages }
        ensures cache { IfOk result (λ copies. copies.cache ≡ nothing pages) }
    {
        Ok(Copies {
            cache: Cache::new(alloc, pages)?,
        })
    }

    /// Looks for an object. The order of the pages stays as it is.
    pub fn look(&self, oref: Oref) -> Looked<'_>
        ensures { Tells result self.now.cache oref }
    {
        self.cache.look(oref)
    }

    /// Makes the page of an object the most recently used one, where it is held.
    #[tactic(auto, using(crate::proofs::Hands::same_tied))]
    pub fn bring_forward(&mut self, oref: Oref)
        ensures kept { Keeps self.old.cache self.new.cache }
        ensures changed { (x : Oref) → changed self.new.cache x ≡ changed self.old.cache x }
        ensures written { self.new.cache.written ≡ self.old.cache.written }
    {
        self.cache.bring_forward(oref);
    }

    /// Puts the objects of a page, as its message brings them, in the place of the copies there, and answers whether
    /// the bytes are such a page; where they aren't, nothing has changed. What the try has written stays. The page
    /// becomes the most recently used one. After `NoMemory` nothing has changed.
    #[tactic(auto, using(crate::proofs::Hands::same_tied))]
    pub fn place(&mut self, page: u32, repo: u8, bytes: &PageImage) -> Result<bool, NoMemory>
        ensures placed { IfOk result (λ placed. IsTrue placed ↔ IsObjectPage bytes.now page) }
        ensures kept { OnOk result ((objects : ℕ → Option Obj) → IsPageOf bytes.now page objects → (x : Oref) → kept self.new.cache x ≡ cond (same_page (on repo page) (page_of x)) (objects x.slot) (kept self.old.cache x)) }
        ensures changed { (x : Oref) → changed self.new.cache x ≡ changed self.old.cache x }
        ensures written { self.new.cache.written ≡ self.old.cache.written }
        ensures other { IfOk result (λ placed. IsTrue (not placed) → self.new.cache ≡ self.old.cache) }
        ensures err { OnErr result (self.new.cache ≡ self.old.cache) }
    {
        self.cache.place(page, repo, bytes)
    }

    /// Writes an object. The copy stays beside it until the try is settled. Its page becomes the most recently
    /// used one; where it wasn't held, the try makes it. After `NoMemory` the try may be given up.
    #[tactic(auto, using(crate::proofs::Hands::write_tied))]
    pub fn write(&mut self, oref: Oref, obj: Obj) -> Result<(), NoMemory>
        requires { oref.slot < 12 }
        ensures kept { Keeps self.old.cache self.new.cache }
        ensures changed { OnOk result ((x : Oref) → changed self.new.cache x ≡ cond (same_name oref x) (Some obj) (changed self.old.cache x)) }
        ensures written { OnOk result (self.new.cache.written ≡ insert_key oref_cmp self.old.cache.written oref) }
    {
        self.cache.write(oref, obj)?;
        Ok(())
    }

    /// Gives up what the try has written: each copy stands as before it, and dropped ones stay dropped.
    #[tactic(auto, using(crate::proofs::Hands::none_written))]
    pub fn undo(&mut self)
        ensures kept { Keeps self.old.cache self.new.cache }
        ensures changed { (x : Oref) → changed self.new.cache x ≡ None }
        ensures names { self.new.cache.written ≡ [] }
    {
        self.cache.undo();
    }

    /// Makes what the try has written the copies.
    #[tactic(auto, using(crate::proofs::Hands::none_written))]
    pub fn settle(&mut self)
        ensures kept { (x : Oref) → kept self.new.cache x ≡ seen self.old.cache x }
        ensures changed { (x : Oref) → changed self.new.cache x ≡ None }
        ensures names { self.new.cache.written ≡ [] }
    {
        self.cache.settle();
    }

    /// Drops the copies of these objects. What the try has written stays.
    #[tactic(auto, using(crate::proofs::Hands::same_tied))]
    pub fn invalidate(&mut self, orefs: &Orefs)
        ensures kept { (x : Oref) → kept self.new.cache x ≡ cond (list_any (λ y. same_name y x) orefs.now) None (kept self.old.cache x) }
        ensures changed { (x : Oref) → changed self.new.cache x ≡ changed self.old.cache x }
        ensures written { self.new.cache.written ≡ self.old.cache.written }
    {
        self.cache.invalidate(orefs);
    }

    /// Gives up what the try has written of these objects. Their copies stay as they are.
    pub fn invalidate_written(&mut self, orefs: &Orefs)
        ensures kept { Keeps self.old.cache self.new.cache }
        ensures changed { (x : Oref) → changed self.new.cache x ≡ cond (list_any (λ y. same_name y x) orefs.now) None (changed self.old.cache x) }
        ensures written { self.new.cache.written ≡ filter (λ x. not (list_any (λ y. same_name y x) orefs.now)) self.old.cache.written }
    {
        self.cache.invalidate_written(orefs);
    }

    /// Drops whole pages, the least recently used ones first, until at most as many are left as were given to
    /// `new`. It is called between tries: what a try has written and not settled is given up.
    #[tactic(auto, using(crate::proofs::Hands::fewer_written, crate::proofs::Hands::fewer_tied, crate::proofs::Hands::fewer_kept))]
    pub fn evict(&mut self)
        ensures kept { AreAmong (kept self.old.cache) (kept self.new.cache) }
        ensures changed { (x : Oref) → changed self.new.cache x ≡ None }
        ensures names { self.new.cache.written ≡ [] }
    {
        self.undo();
        self.cache.evict();
    }

    /// Drops the pages of a repository, with what the try has written there.
    pub fn drop_repo(&mut self, repo: u8)
        ensures kept { (x : Oref) → kept self.new.cache x ≡ cond (nat_eq x.repo repo) None (kept self.old.cache x) }
        ensures changed { (x : Oref) → changed self.new.cache x ≡ cond (nat_eq x.repo repo) None (changed self.old.cache x) }
        ensures written { self.new.cache.written ≡ filter (λ x. not (nat_eq x.repo repo)) self.old.cache.written }
    {
        self.cache.drop_repo(repo);
    }
}
