ghost use Rattle.std.specs.Prelude.{◌≡◌, ◌+◌, ◌<◌, ◌≤◌, ◌^◌, ℕ, List, [], length, is_some, nat_eq, if◌then◌else◌, IsSome, IfSome, Some, None, IfOk, OnOk, OnErr, IsErrOf};
ghost use Rattle.std.specs.Option.{option_copied, option_map};
ghost use Rattle.std.specs.Ordering.{nat_cmp};
ghost use Rattle.std.specs.BTreeMap.{insert_entry};
ghost use Rattle.disk_trait.specs.Disks.{Disks, OnDisk, Leaves, WhereTold, MayLeave, IsSettled, NoNewImage, Rose, written};
ghost use Rattle.lru.specs.LruCache.{lru_cache, put_entries};
ghost use Rattle.std.specs.Map.{lookup};
ghost use Rattle.page_format.specs.Pages.{Contents, page_bytes, page_size};
ghost use Rattle.page_format.specs.Sides.{SidesFit, side_in_use};
ghost use Rattle.page_store.specs.Objects.{HasObjects, Spells, empty_page};
ghost use Rattle.page_store.specs.Sides.{KeepsSides, ReachesSides, Shows, next_side, place_of, side_bytes};
ghost use Rattle.page_store.specs.Store.{Agrees, IsDamage, ReachesSide, held_page, reads_of, refreshed, with_held, with_place, with_side, IsStaged};
ghost use Rattle.page_store.specs.declared.fault.StoreFault.TheVariants.{Damaged, Failed, NoMemory as OutOfMemory};

use crate::device::{read_side, write_side};
use crate::fault::StoreFault;
use disk_trait::Parts;
use lru::LruCache;
use page_format::{Page, Room, Sides};
use std::alloc::Global;
use std::marker::Model;
use std::num::NonZeroUsize;
use thor_value::{NoMemory, Text, TryCopy};

/// The most pages that are held.
const MOST_HELD: usize = 4096;

/// The pages of a repository on its third disk, each with two sides of which one is in use, and those
/// pages that were read or installed last, held in memory.
///
/// After a fault of `read`, `hold` or `install` a new store is made from what the log says.
#[derive(Drop)]
pub struct PageStore {
    alloc: Global,
    sides: Sides,
    /// So much that the page of the last install can be put in use.
    room: Room,
    /// `None` keeps a place for a page that is being installed.
    held: LruCache<u32, Option<Page>>,
    /// What the last install wrote, and into which side, until it is put in use.
    staged: Option<(Page, u8)>,
}

impl Model for PageStore {
    ghost use Rattle.page_store.specs.Store.{Keeps, Store};

    ghost Value = { Store };

    ghost view = { λ p. record { sides = p.sides; held = p.held.entries; staged = p.staged } };

    ghost invariant = { λ p. Keeps (record { sides = p.sides; held = p.held.entries; staged = p.staged }) p.held.cap p.room };
}

impl PageStore {
    /// A store with these pages installed, which holds none of them yet.
    pub fn new(alloc: Global, installed: &Sides) -> Result<PageStore, NoMemory>
        ensures made { IfOk result (λ made. made ≡ record { sides = installed.now; held = []; staged = None }) }
        ensures agrees { (disk : List ℕ) → ReachesSides installed.now disk → IfOk result (λ made. Agrees made disk) }
    {
        let Some(most) = NonZeroUsize::new(MOST_HELD) else {
            return Err(NoMemory);
        };
        Ok(PageStore {
            alloc,
            sides: installed.copy()?,
            room: Room::new(alloc),
            held: LruCache::sparse(alloc, most)?,
            staged: None,
        })
    }

    /// Reads a page by the side of it that is in use; it is empty where it was never installed.
    ///
    /// Makes one device call, for an installed page that isn't held, and none else. The page is held then
    /// and used last. `Damaged` tells where its side in use begins, and comes exactly where the bytes there
    /// are no page of objects with its number.
    pub fn read<P: Parts>(&mut self, parts: &mut P, page: u32) -> Result<&Page, StoreFault>
        requires agrees { WhereTold (P.disks parts.old) 2 (Agrees self.old) }
        ensures alone { OnDisk (P.disks parts.old) (P.disks parts.new) 2 }
        ensures content { (P.disks parts.new).content 2 ≡ (P.disks parts.old).content 2 }
        ensures crash { NoNewImage (P.disks parts.old) (P.disks parts.new) 2 }
        ensures still { Leaves (P.disks parts.old) (P.disks parts.new) 2 (MayLeave (P.disks parts.old) 2) }
        ensures page { IfOk result (λ found. WhereTold (P.disks parts.old) 2 (λ disk. Shows disk (side_in_use self.old.sides page) page found.now)) }
        ensures objects { IfOk result (λ found. HasObjects found.now) }
        ensures number { IfOk result (λ found. found.now.number ≡ page) }
        ensures calls { OnOk result ((P.disks parts.old).time + 1 < 2 ^ 64 → (P.disks parts.new).time ≡ (P.disks parts.old).time + reads_of self.old page) }
        ensures damaged { (place : ℕ) → IsErrOf result (Damaged place) → IsDamage (P.disks parts.old) self.old.sides page place }
        ensures failed { IsErrOf result Failed → Rose ((P.disks parts.old).faults 2) ((P.disks parts.new).faults 2) }
        ensures steady { OnOk result ((P.disks parts.new).faults 2 ≡ (P.disks parts.old).faults 2) }
        ensures wanting { IsErrOf result OutOfMemory → (P.disks parts.new).faults 2 ≡ (P.disks parts.old).faults 2 }
        ensures harmed { (place : ℕ) → IsErrOf result (Damaged place) → (P.disks parts.new).faults 2 ≡ (P.disks parts.old).faults 2 }
    {
        self.hold(parts, page)?;
        self.held(page).ok_or(StoreFault::NoMemory)
    }

    /// Has a page held and used last: `read` without what it lends.
    pub fn hold<P: Parts>(&mut self, parts: &mut P, page: u32) -> Result<(), StoreFault>
        requires agrees { WhereTold (P.disks parts.old) 2 (Agrees self.old) }
        ensures alone { OnDisk (P.disks parts.old) (P.disks parts.new) 2 }
        ensures content { (P.disks parts.new).content 2 ≡ (P.disks parts.old).content 2 }
        ensures crash { NoNewImage (P.disks parts.old) (P.disks parts.new) 2 }
        ensures still { Leaves (P.disks parts.old) (P.disks parts.new) 2 (MayLeave (P.disks parts.old) 2) }
        ensures there { OnOk result (IsSome (held_page self.new page)) }
        ensures page { OnOk result ((found : Contents) → held_page self.new page ≡ Some found → WhereTold (P.disks parts.old) 2 (λ disk. Shows disk (side_in_use self.old.sides page) page found)) }
        ensures held { OnOk result ((found : Contents) → held_page self.new page ≡ Some found → self.new.held ≡ with_held self.old.held page (Some found)) }
        ensures again { OnOk result ((found : Contents) → held_page self.old page ≡ Some found → held_page self.new page ≡ Some found) }
        ensures sides { self.new.sides ≡ self.old.sides }
        ensures staged { self.new.staged ≡ self.old.staged }
        ensures err { OnErr result (self.new ≡ self.old) }
        ensures agrees { WhereTold (P.disks parts.new) 2 (Agrees self.new) }
        ensures calls { OnOk result ((P.disks parts.old).time + 1 < 2 ^ 64 → (P.disks parts.new).time ≡ (P.disks parts.old).time + reads_of self.old page) }
        ensures damaged { (place : ℕ) → IsErrOf result (Damaged place) → IsDamage (P.disks parts.old) self.old.sides page place }
        ensures failed { IsErrOf result Failed → Rose ((P.disks parts.old).faults 2) ((P.disks parts.new).faults 2) }
        ensures steady { OnOk result ((P.disks parts.new).faults 2 ≡ (P.disks parts.old).faults 2) }
        ensures wanting { IsErrOf result OutOfMemory → (P.disks parts.new).faults 2 ≡ (P.disks parts.old).faults 2 }
        ensures harmed { (place : ℕ) → IsErrOf result (Damaged place) → (P.disks parts.new).faults 2 ≡ (P.disks parts.old).faults 2 }
    {
        if self.holds(page) {
            self.held.promote(&page);
            return Ok(());
        }
        let found = fetch(self.alloc, parts, page, self.sides.in_use(page))?;
        self.held.put(page, Some(found))?;
        Ok(())
    }

    /// Whether a page is held.
    pub fn holds(&self, page: u32) -> bool
        ensures { result ≡ is_some (held_page self.now page) }
    {
        self.held(page).is_some()
    }

    /// A page that is held. The order of use stays.
    pub fn held(&self, page: u32) -> Option<&Page>
        ensures value { option_copied result ≡ held_page self.now page }
        ensures objects { IfSome result (λ found. HasObjects found.now) }
        ensures number { IfSome result (λ found. found.now.number ≡ page) }
    {
        match self.held.peek(&page) {
            Some(Some(found)) => Some(found),
            _ => None,
        }
    }

    /// Writes a page of objects to the side of it that isn't in use, syncs, and answers that side. It is
    /// put in use by `settle`.
    ///
    /// Makes two device calls. At each moment a crash leaves each side in use as it was.
    pub fn install<P: Parts>(&mut self, parts: &mut P, page: &Page) -> Result<u8, StoreFault>
        requires settled { IsSettled (P.disks parts.old) 2 }
        requires agrees { WhereTold (P.disks parts.old) 2 (Agrees self.old) }
        requires objects { HasObjects page.now }
        ensures alone { OnDisk (P.disks parts.old) (P.disks parts.new) 2 }
        ensures any_moment { WhereTold (P.disks parts.old) 2 (λ disk. Leaves (P.disks parts.old) (P.disks parts.new) 2 (KeepsSides self.old.sides disk)) }
        ensures side { IfOk result (λ side. side ≡ next_side (side_in_use self.old.sides page.now.number)) }
        ensures written { IfOk result (λ side. WhereTold (P.disks parts.new) 2 (λ disk. Spells (side_bytes disk page.now.number side) page.now.number page.now)) }
        ensures content { IfOk result (λ side. WhereTold (P.disks parts.old) 2 (λ disk. (P.disks parts.new).content 2 ≡ Some (written disk (place_of page.now.number side) (page_bytes page.now)))) }
        ensures kept { OnOk result (WhereTold (P.disks parts.old) 2 (λ before. WhereTold (P.disks parts.new) 2 (λ after. KeepsSides self.old.sides before after))) }
        ensures settled { OnOk result (IsSettled (P.disks parts.new) 2) }
        ensures agrees { OnOk result (WhereTold (P.disks parts.new) 2 (Agrees self.new)) }
        ensures sides { self.new.sides ≡ self.old.sides }
        ensures held { OnOk result (self.new.held ≡ with_place self.old.held page.now.number) }
        ensures staged { IfOk result (λ side. self.new.staged ≡ Some (page.now, side)) }
        ensures calls { OnOk result ((P.disks parts.old).time + 2 < 2 ^ 64 → (P.disks parts.new).time ≡ (P.disks parts.old).time + 2) }
        ensures damaged { (place : ℕ) → IsErrOf result (Damaged place) → ⊥ }
        ensures failed { IsErrOf result Failed → Rose ((P.disks parts.old).faults 2) ((P.disks parts.new).faults 2) }
        ensures steady { OnOk result ((P.disks parts.new).faults 2 ≡ (P.disks parts.old).faults 2) }
        ensures wanting { IsErrOf result OutOfMemory → (P.disks parts.new).faults 2 ≡ (P.disks parts.old).faults 2 }
    {
        let (side, bytes) = self.stage(page)?;
        write_side(parts, page.number(), side, bytes.as_slice())?;
        Ok(side)
    }

    /// Makes all that an install and its `settle` need memory for: which side is written, and its bytes.
    fn stage(&mut self, page: &Page) -> Result<(u8, Text), NoMemory>
        requires objects { HasObjects page.now }
        ensures side { IfOk result (λ made. made.0 ≡ next_side (side_in_use self.old.sides page.now.number)) }
        ensures bytes { IfOk result (λ made. made.1 ≡ page_bytes page.now) }
        ensures size { IfOk result (λ made. length made.1 ≡ page_size) }
        ensures fit { SidesFit self.old.sides }
        ensures sides { self.new.sides ≡ self.old.sides }
        ensures held { OnOk result (self.new.held ≡ with_place self.old.held page.now.number) }
        ensures staged { IfOk result (λ made. self.new.staged ≡ Some (page.now, made.0)) }
    {
        let number = page.number();
        let side = next_side(self.sides.in_use(number));
        self.room.grow(self.sides.as_slice().len() + 1)?;
        let bytes = page.spell()?;
        let copy = page.copy()?;
        make_place(&mut self.held, number)?;
        self.staged = Some((copy, side));
        Ok((side, bytes))
    }

    /// Puts the side in use that the last install wrote. It takes no memory.
    pub fn settle(&mut self, page: u32, side: u8)
        requires last { IsStaged self.old page side }
        ensures sides { self.new.sides ≡ insert_entry nat_cmp self.old.sides page side }
        ensures held { (found : Contents) → self.old.staged ≡ Some (found, side) → self.new.held ≡ refreshed self.old.held page (Some found) }
        ensures staged { self.new.staged ≡ None }
        ensures agrees { (disk : List ℕ) → Agrees self.old disk → Agrees self.new disk }
    {
        let Some((found, _)) = self.staged.take() else {
            return;
        };
        self.sides.put_within(&mut self.room, page, side);
        refresh(&mut self.held, page, Some(found));
    }

    /// Puts a side of a page in use that stands on the disk, as a log tells. It is no longer held, and what was
    /// installed last without being settled is given up. After `NoMemory` nothing has changed.
    pub fn installed(&mut self, page: u32, side: u8) -> Result<(), NoMemory>
        requires side { side < 2 }
        ensures ok { OnOk result (self.new ≡ with_side self.old page side) }
        ensures agrees { OnOk result ((disk : List ℕ) → place_of page side + page_size ≤ length disk → Agrees self.old disk → Agrees self.new disk) }
        ensures err { OnErr result (self.new ≡ self.old) }
    {
        self.sides.put(page, side)?;
        refresh(&mut self.held, page, None);
        self.staged = None;
        Ok(())
    }

    /// The installed pages, rising, each with the side of it that is in use.
    pub fn sides(&self) -> &Sides
        ensures { result.now ≡ self.now.sides }
    {
        &self.sides
    }
}

/// A page without objects is a page of objects.
pub fn empty_pages_have_objects()
    ensures { (number : ℕ) → number < 2 ^ 32 → HasObjects (empty_page number) }
{}

/// The side of a page that is written next.
fn next_side(in_use: Option<u8>) -> u8
    requires { IfSome in_use (λ side. side < 2) }
    ensures value { result ≡ next_side in_use }
    ensures side { result < 2 }
{
    match in_use {
        Some(side) => 1 - side,
        None => 0,
    }
}

/// Reads a page by the side of it that is in use, where it has one.
fn fetch<P: Parts>(
    alloc: Global,
    parts: &mut P,
    page: u32,
    in_use: Option<u8>,
) -> Result<Page, StoreFault>
    requires { ReachesSide (P.disks parts.old) page in_use }
    ensures alone { OnDisk (P.disks parts.old) (P.disks parts.new) 2 }
    ensures content { (P.disks parts.new).content 2 ≡ (P.disks parts.old).content 2 }
    ensures crash { NoNewImage (P.disks parts.old) (P.disks parts.new) 2 }
    ensures still { Leaves (P.disks parts.old) (P.disks parts.new) 2 (MayLeave (P.disks parts.old) 2) }
    ensures page { IfOk result (λ found. WhereTold (P.disks parts.old) 2 (λ disk. Shows disk in_use page found)) }
    ensures objects { IfOk result HasObjects }
    ensures number { IfOk result (λ found. found.number ≡ page) }
    ensures calls { OnOk result ((P.disks parts.old).time + 1 < 2 ^ 64 → (P.disks parts.new).time ≡ (P.disks parts.old).time + (if is_some in_use then 1 else 0)) }
    ensures damaged { (place : ℕ) (sides : List (ℕ × ℕ)) → IsErrOf result (Damaged place) → side_in_use sides page ≡ in_use → IsDamage (P.disks parts.old) sides page place }
    ensures failed { IsErrOf result Failed → Rose ((P.disks parts.old).faults 2) ((P.disks parts.new).faults 2) }
    ensures steady { OnOk result ((P.disks parts.new).faults 2 ≡ (P.disks parts.old).faults 2) }
    ensures wanting { IsErrOf result OutOfMemory → (P.disks parts.new).faults 2 ≡ (P.disks parts.old).faults 2 }
    ensures harmed { (place : ℕ) → IsErrOf result (Damaged place) → (P.disks parts.new).faults 2 ≡ (P.disks parts.old).faults 2 }
{
    match in_use {
        Some(side) => read_side(alloc, parts, page, side),
        None => Ok(Page::empty(alloc, page)?),
    }
}

/// Has a place kept for a page.
fn make_place(held: &mut LruCache<u32, Option<Page>>, page: u32) -> Result<(), NoMemory>
    ensures ok { OnOk result (held.new ≡ lru_cache (if is_some (lookup (nat_eq page) held.old.entries) then held.old.entries else put_entries nat_eq held.old page None) held.old.cap) }
    ensures err { OnErr result (held.new ≡ held.old) }
{
    if !held.contains(&page) {
        held.put(page, None)?;
    }
    Ok(())
}

/// Holds a page in its place, where it has one, or keeps the place alone. It takes no memory.
fn refresh(held: &mut LruCache<u32, Option<Page>>, page: u32, found: Option<Page>)
    ensures { held.new ≡ lru_cache (if is_some (lookup (nat_eq page) held.old.entries) then put_entries nat_eq held.old page found else held.old.entries) held.old.cap }
{
    if held.contains(&page) {
        let _ = held.put(page, found);
    }
}
