ghost use Rattle.std.specs.Prelude.{◌≡◌, ◌+◌, ◌<◌, ◌≤◌, ◌^◌, ℕ, List, length, [], Ok, Some, None, slice_get, IfOk, IfSome, OnOk, OnErr, IsErrOf};
ghost use Rattle.std.specs.BTreeMap.{insert_entry};
ghost use Rattle.std.specs.Ordering.{nat_cmp};
ghost use Rattle.disk_trait.specs.Disks.{Disks, OnDisk, Leaves, WhereTold, IsSettled, NoNewImage, Rose};
ghost use Rattle.page_store.specs.Objects.{HasObjects};
ghost use Rattle.page_store.specs.Sides.{KeepsSides};
ghost use Rattle.page_store.specs.Store.{Agrees, IsDamage, held_page};
ghost use Rattle.page_store.specs.declared.fault.StoreFault.TheVariants.{Damaged, Failed, NoMemory as OutOfMemory};
ghost use Rattle.page_format.specs.Pages.{Contents, page_size};
ghost use Rattle.page_store.specs.Sides.{place_of};
ghost use Rattle.mob_buffer.specs.Buffer.{AreOf, AreOneRepo, bytes_of, with_all, without_page};
ghost use Rattle.mob_buffer.specs.declared.fault.MobFull.TheVariants.{Full};
ghost use Rattle.mob_flusher.specs.Map.{DiskHas, Has, HasWrites, SameMap, with_installed, with_writes};
ghost use Rattle.mob_flusher.specs.KeptImages.{AreKept, IsHeldStill, IsImageOver, IsKeptOr, ShowHeld, image_in};
ghost use Rattle.mob_flusher.specs.Images.{IsFlushed, IsHeldImage, ShowsImage};
ghost use Rattle.mob_flusher.specs.declared.store.Flushed.TheVariants.{Installed, Nothing};

use crate::image::{image_of, object_in};
use crate::kept_images::KeptImages;
use disk_trait::Parts;
use mob_buffer::{Mob, MobFull};
use page_format::Page;
use page_store::{PageStore, StoreFault};
use std::alloc::Global;
use std::marker::Model;
use thor_value::{NoMemory, Obj, Oref, TryCopy, Writes};

/// What a flush did.
#[derive(Clone, Copy, Debug, PartialEq, Eq)]
pub enum Flushed {
    /// A page with its objects from the buffer was written to this side of it, and synced.
    Installed { page: u32, side: u8 },
    /// The buffer has no object.
    Nothing,
}

/// The objects of a repository: the buffer of modified objects over the pages, as one finite map.
#[derive(Drop)]
pub struct ObjectStore {
    alloc: Global,
    pages: PageStore,
    mob: Mob,
    /// Of pages that are held what they have with the buffer's objects in their slots.
    images: KeptImages,
}

impl Model for ObjectStore {
    ghost use Rattle.mob_flusher.specs.Map.{Kept};

    ghost Value = { Kept };

    ghost use Rattle.mob_flusher.specs.KeptImages.{ShowHeld};

    ghost view = { λ s. record { pages = s.pages; mob = s.mob } };

    ghost invariant = { λ s. ShowHeld s.images (record { pages = s.pages; mob = s.mob }) };
}

impl ObjectStore {
    /// The objects of a buffer over pages. It takes no memory.
    pub fn new(alloc: Global, pages: PageStore, mob: Mob) -> ObjectStore
        ensures { result ≡ record { pages = pages; mob = mob } }
    {
        ObjectStore {
            alloc,
            pages,
            mob,
            images: KeptImages::new(alloc),
        }
    }

    /// The object of a name, from the buffer, and else from its page.
    pub fn get<P: Parts>(&mut self, parts: &mut P, oref: Oref) -> Result<Option<Obj>, StoreFault>
        requires agrees { WhereTold (P.disks parts.old) 2 (Agrees self.old.pages) }
        ensures alone { OnDisk (P.disks parts.old) (P.disks parts.new) 2 }
        ensures content { (P.disks parts.new).content 2 ≡ (P.disks parts.old).content 2 }
        ensures answer { IfOk result (λ answer. WhereTold (P.disks parts.old) 2 (λ disk. Has disk self.old oref answer)) }
        ensures mob { self.new.mob ≡ self.old.mob }
        ensures sides { self.new.pages.sides ≡ self.old.pages.sides }
        ensures agrees { WhereTold (P.disks parts.new) 2 (Agrees self.new.pages) }
        ensures damaged { (place : ℕ) → IsErrOf result (Damaged place) → IsDamage (P.disks parts.old) self.old.pages.sides oref.page place }
        ensures failed { IsErrOf result Failed → Rose ((P.disks parts.old).faults 2) ((P.disks parts.new).faults 2) }
        ensures steady { OnOk result ((P.disks parts.new).faults 2 ≡ (P.disks parts.old).faults 2) }
        ensures wanting { IsErrOf result OutOfMemory → (P.disks parts.new).faults 2 ≡ (P.disks parts.old).faults 2 }
        ensures harmed { (place : ℕ) → IsErrOf result (Damaged place) → (P.disks parts.new).faults 2 ≡ (P.disks parts.old).faults 2 }
    {
        if let Some(object) = self.mob.get(oref) {
            return Ok(Some(object.copy()?));
        }
        forget_unheld(&mut self.images, &self.pages, oref.page);
        stored(self.alloc, &mut self.pages, parts, oref)
    }

    /// Puts writes into the map, all or none.
    ///
    /// `Full` comes exactly where the bytes of all objects in the buffer behind them would pass its limit.
    pub fn apply(&mut self, writes: &Writes) -> Result<(), MobFull>
        requires one_repo { AreOneRepo self.old.mob.objects writes.now }
        ensures ok { OnOk result (self.new ≡ with_writes self.old writes.now) }
        ensures map { OnOk result (HasWrites self.old writes.now self.new) }
        ensures fits { OnOk result (bytes_of (with_all self.old.mob.objects writes.now) ≤ self.old.mob.limit) }
        ensures full { (limit : ℕ) → IsErrOf result (Full limit) → (limit ≡ self.old.mob.limit) × (self.old.mob.limit < bytes_of (with_all self.old.mob.objects writes.now)) }
        ensures err { OnErr result (self.new ≡ self.old) }
    {
        self.mob.add_all(writes)?;
        self.images.put_all(writes);
        Ok(())
    }

    /// Puts writes into the map as `apply` does, whatever the buffer's limit is.
    pub fn load(&mut self, writes: &Writes) -> Result<(), NoMemory>
        requires one_repo { AreOneRepo self.old.mob.objects writes.now }
        ensures ok { OnOk result (self.new ≡ with_writes self.old writes.now) }
        ensures map { OnOk result (HasWrites self.old writes.now self.new) }
        ensures err { OnErr result (self.new ≡ self.old) }
    {
        self.mob.load_all(writes)?;
        self.images.put_all(writes);
        Ok(())
    }

    /// A page with all objects that the buffer has of it.
    pub fn page_image<P: Parts>(&mut self, parts: &mut P, page: u32) -> Result<Page, StoreFault>
        requires agrees { WhereTold (P.disks parts.old) 2 (Agrees self.old.pages) }
        ensures alone { OnDisk (P.disks parts.old) (P.disks parts.new) 2 }
        ensures content { (P.disks parts.new).content 2 ≡ (P.disks parts.old).content 2 }
        ensures crash { NoNewImage (P.disks parts.old) (P.disks parts.new) 2 }
        ensures image { IfOk result (λ image. WhereTold (P.disks parts.old) 2 (λ disk. ShowsImage disk self.old page image)) }
        ensures number { IfOk result (λ image. image.number ≡ page) }
        ensures objects { IfOk result HasObjects }
        ensures mob { self.new.mob ≡ self.old.mob }
        ensures sides { self.new.pages.sides ≡ self.old.pages.sides }
        ensures agrees { WhereTold (P.disks parts.new) 2 (Agrees self.new.pages) }
        ensures damaged { (place : ℕ) → IsErrOf result (Damaged place) → IsDamage (P.disks parts.old) self.old.pages.sides page place }
        ensures failed { IsErrOf result Failed → Rose ((P.disks parts.old).faults 2) ((P.disks parts.new).faults 2) }
        ensures steady { OnOk result ((P.disks parts.new).faults 2 ≡ (P.disks parts.old).faults 2) }
        ensures wanting { IsErrOf result OutOfMemory → (P.disks parts.new).faults 2 ≡ (P.disks parts.old).faults 2 }
        ensures harmed { (place : ℕ) → IsErrOf result (Damaged place) → (P.disks parts.new).faults 2 ≡ (P.disks parts.old).faults 2 }
    {
        forget_unheld(&mut self.images, &self.pages, page);
        self.pages.hold(parts, page)?;
        let image = held_image(self.alloc, &self.pages, &self.mob, &mut self.images, page)?;
        Ok(image)
    }

    /// Writes the page of the oldest object in the buffer, with all its objects in the buffer, to the side
    /// of it that isn't in use, and syncs it. `settle` then puts it in use.
    ///
    /// At each moment a crash leaves each side in use as it was.
    pub fn flush_one<P: Parts>(&mut self, parts: &mut P) -> Result<Flushed, StoreFault>
        requires settled { IsSettled (P.disks parts.old) 2 }
        requires agrees { WhereTold (P.disks parts.old) 2 (Agrees self.old.pages) }
        ensures alone { OnDisk (P.disks parts.old) (P.disks parts.new) 2 }
        ensures any_moment { WhereTold (P.disks parts.old) 2 (λ disk. Leaves (P.disks parts.old) (P.disks parts.new) 2 (KeepsSides self.old.pages.sides disk)) }
        ensures nothing { result ≡ Ok Nothing → self.old.mob.objects ≡ [] }
        ensures empty { self.old.mob.objects ≡ [] → result ≡ Ok Nothing }
        ensures flushed { (page side : ℕ) → result ≡ Ok (Installed page side) → (repo : ℕ) × IsFlushed self.new repo page side }
        ensures side { (page side : ℕ) → result ≡ Ok (Installed page side) → side < 2 }
        ensures oldest { (page side : ℕ) → result ≡ Ok (Installed page side) → IfSome (slice_get self.old.mob.objects 0) (λ q. q.0.page ≡ page) }
        ensures mob { self.new.mob ≡ self.old.mob }
        ensures sides { self.new.pages.sides ≡ self.old.pages.sides }
        ensures settled { OnOk result (IsSettled (P.disks parts.new) 2) }
        ensures agrees { OnOk result (WhereTold (P.disks parts.new) 2 (Agrees self.new.pages)) }
        ensures same_map { OnOk result (WhereTold (P.disks parts.old) 2 (λ before. WhereTold (P.disks parts.new) 2 (λ after. (repo : ℕ) → SameMap before self.old after self.new repo))) }
        ensures damaged { (place : ℕ) → IsErrOf result (Damaged place) → IfSome (slice_get self.old.mob.objects 0) (λ q. IsDamage (P.disks parts.old) self.old.pages.sides q.0.page place) }
        ensures failed { IsErrOf result Failed → Rose ((P.disks parts.old).faults 2) ((P.disks parts.new).faults 2) }
        ensures steady { OnOk result ((P.disks parts.new).faults 2 ≡ (P.disks parts.old).faults 2) }
        ensures wanting { IsErrOf result OutOfMemory → (P.disks parts.new).faults 2 ≡ (P.disks parts.old).faults 2 }
        ensures harmed { (place : ℕ) → IsErrOf result (Damaged place) → (P.disks parts.new).faults 2 ≡ (P.disks parts.old).faults 2 }
        ensures content { (place : ℕ) → IsErrOf result (Damaged place) → (P.disks parts.new).content 2 ≡ (P.disks parts.old).content 2 }
    {
        let Some(oldest) = self.mob.oldest() else {
            return Ok(Flushed::Nothing);
        };
        self.images.clear();
        let side = install_image(self.alloc, &mut self.pages, &self.mob, parts, oldest)?;
        Ok(Flushed::Installed {
            page: oldest.page,
            side,
        })
    }

    /// Puts the side in use that the last flush wrote, and drops the page's objects from the buffer. It
    /// takes no memory.
    pub fn settle(&mut self, page: u32, side: u8)
        requires last { (repo : ℕ) × IsFlushed self.old repo page side }
        ensures sides { self.new.pages.sides ≡ insert_entry nat_cmp self.old.pages.sides page side }
        ensures mob { self.new.mob ≡ record self.old.mob { objects = without_page self.old.mob.objects page } }
        ensures agrees { (disk : List ℕ) → Agrees self.old.pages disk → Agrees self.new.pages disk }
        ensures same_map { (disk : List ℕ) (repo : ℕ) → Agrees self.old.pages disk → IsFlushed self.old repo page side → SameMap disk self.old disk self.new repo }
    {
        self.images.clear();
        self.pages.settle(page, side);
        self.mob.remove_page(page);
    }

    /// Puts a side of a page in use that stands on the disk, as a log tells, and drops the page's objects from
    /// the buffer. After `NoMemory` nothing has changed.
    pub fn installed(&mut self, page: u32, side: u8) -> Result<(), NoMemory>
        requires side { side < 2 }
        ensures ok { OnOk result (self.new ≡ with_installed self.old page side) }
        ensures agrees { OnOk result ((disk : List ℕ) → place_of page side + page_size ≤ length disk → Agrees self.old.pages disk → Agrees self.new.pages disk) }
        ensures err { OnErr result (self.new ≡ self.old) }
    {
        self.images.clear();
        self.pages.installed(page, side)?;
        self.mob.remove_page(page);
        Ok(())
    }

    /// The buffer.
    pub fn mob(&self) -> &Mob
        ensures { result.now ≡ self.now.mob }
    {
        &self.mob
    }

    /// The pages.
    pub fn pages(&self) -> &PageStore
        ensures { result.now ≡ self.now.pages }
    {
        &self.pages
    }
}

/// The repository of the buffer's objects, where it has any.
fn repo_of(mob: &Mob) -> u8
    ensures { AreOf result mob.now.objects }
{
    match mob.oldest() {
        Some(oref) => oref.repo,
        None => 0,
    }
}

/// A page that is held, with all objects that the buffer has of it. Its image is kept.
fn held_image(
    alloc: Global,
    pages: &PageStore,
    mob: &Mob,
    images: &mut KeptImages,
    page: u32,
) -> Result<Page, NoMemory>
    requires { ShowHeld images.old (record { pages = pages.now; mob = mob.now }) }
    ensures image { IfOk result (IsHeldImage (record { pages = pages.now; mob = mob.now }) page) }
    ensures objects { IfOk result HasObjects }
    ensures show { ShowHeld images.new (record { pages = pages.now; mob = mob.now }) }
{
    match pages.held(page) {
        Some(base) => image_over(alloc, base, mob, images),
        None => Err(NoMemory),
    }
}

/// A page with all objects that the buffer has of it: the image that is kept, or a new one, which is kept then.
fn image_over(
    alloc: Global,
    base: &Page,
    mob: &Mob,
    images: &mut KeptImages,
) -> Result<Page, NoMemory>
    requires objects { HasObjects base.now }
    requires shown { (image : Contents) → image_in images.old base.now.number ≡ Some image → IsImageOver mob.now.objects base.now image }
    ensures image { IfOk result (IsImageOver mob.now.objects base.now) }
    ensures objects { IfOk result HasObjects }
    ensures kept { (page : ℕ) (now : Contents) → image_in images.new page ≡ Some now → IsKeptOr images.old mob.now.objects base.now page now }
{
    if let Some(image) = images.get(base.number()) {
        return image.copy();
    }
    new_image(alloc, base, mob, images)
}

/// A page with all objects that the buffer has of it, made anew. It is kept.
fn new_image(
    alloc: Global,
    base: &Page,
    mob: &Mob,
    images: &mut KeptImages,
) -> Result<Page, NoMemory>
    requires { HasObjects base.now }
    ensures image { IfOk result (IsImageOver mob.now.objects base.now) }
    ensures objects { IfOk result HasObjects }
    ensures kept { (page : ℕ) (now : Contents) → image_in images.new page ≡ Some now → IsKeptOr images.old mob.now.objects base.now page now }
{
    let repo = repo_of(mob);
    let image = image_of(alloc, base, mob, repo)?;
    images.keep(image.copy()?)?;
    Ok(image)
}

/// Keeps no image of a page that isn't held: what is held of it next is read anew.
fn forget_unheld(images: &mut KeptImages, pages: &PageStore, page: u32)
    ensures kept { AreKept images.new images.old }
    ensures gone { held_page pages.now page ≡ None → (image : Contents) → image_in images.new page ≡ Some image → ⊥ }
{
    if !pages.holds(page) {
        images.forget(page);
    }
}

/// The object of a name in its page.
fn stored<P: Parts>(
    alloc: Global,
    pages: &mut PageStore,
    parts: &mut P,
    oref: Oref,
) -> Result<Option<Obj>, StoreFault>
    requires agrees { WhereTold (P.disks parts.old) 2 (Agrees pages.old) }
    ensures alone { OnDisk (P.disks parts.old) (P.disks parts.new) 2 }
    ensures content { (P.disks parts.new).content 2 ≡ (P.disks parts.old).content 2 }
    ensures answer { IfOk result (λ answer. WhereTold (P.disks parts.old) 2 (λ disk. DiskHas disk pages.old.sides oref answer)) }
    ensures sides { pages.new.sides ≡ pages.old.sides }
    ensures held { (p : ℕ) (found : Contents) → held_page pages.new p ≡ Some found → IsHeldStill pages.old oref.page p found }
    ensures agrees { WhereTold (P.disks parts.new) 2 (Agrees pages.new) }
    ensures damaged { (place : ℕ) → IsErrOf result (Damaged place) → IsDamage (P.disks parts.old) pages.old.sides oref.page place }
    ensures failed { IsErrOf result Failed → Rose ((P.disks parts.old).faults 2) ((P.disks parts.new).faults 2) }
    ensures steady { OnOk result ((P.disks parts.new).faults 2 ≡ (P.disks parts.old).faults 2) }
    ensures wanting { IsErrOf result OutOfMemory → (P.disks parts.new).faults 2 ≡ (P.disks parts.old).faults 2 }
    ensures harmed { (place : ℕ) → IsErrOf result (Damaged place) → (P.disks parts.new).faults 2 ≡ (P.disks parts.old).faults 2 }
{
    pages.hold(parts, oref.page)?;
    match pages.held(oref.page) {
        Some(page) => Ok(object_in(alloc, page, oref.slot)?),
        None => Err(StoreFault::NoMemory),
    }
}

/// Installs a page with all objects that the buffer has of it, one of which has this name.
#[tactic(auto, using(disk_trait::proofs::Runs::alone_then))]
fn install_image<P: Parts>(
    alloc: Global,
    pages: &mut PageStore,
    mob: &Mob,
    parts: &mut P,
    oref: Oref,
) -> Result<u8, StoreFault>
    requires settled { IsSettled (P.disks parts.old) 2 }
    requires agrees { WhereTold (P.disks parts.old) 2 (Agrees pages.old) }
    requires one_repo { AreOf oref.repo mob.now.objects }
    ensures alone { OnDisk (P.disks parts.old) (P.disks parts.new) 2 }
    ensures any_moment { WhereTold (P.disks parts.old) 2 (λ disk. Leaves (P.disks parts.old) (P.disks parts.new) 2 (KeepsSides pages.old.sides disk)) }
    ensures kept { OnOk result (WhereTold (P.disks parts.old) 2 (λ before. WhereTold (P.disks parts.new) 2 (λ after. KeepsSides pages.old.sides before after))) }
    ensures flushed { IfOk result (λ side. IsFlushed (record { pages = pages.new; mob = mob.now }) oref.repo oref.page side) }
    ensures side { IfOk result (λ side. side < 2) }
    ensures sides { pages.new.sides ≡ pages.old.sides }
    ensures settled { OnOk result (IsSettled (P.disks parts.new) 2) }
    ensures agrees { OnOk result (WhereTold (P.disks parts.new) 2 (Agrees pages.new)) }
    ensures damaged { (place : ℕ) → IsErrOf result (Damaged place) → IsDamage (P.disks parts.old) pages.old.sides oref.page place }
    ensures failed { IsErrOf result Failed → Rose ((P.disks parts.old).faults 2) ((P.disks parts.new).faults 2) }
    ensures steady { OnOk result ((P.disks parts.new).faults 2 ≡ (P.disks parts.old).faults 2) }
    ensures wanting { IsErrOf result OutOfMemory → (P.disks parts.new).faults 2 ≡ (P.disks parts.old).faults 2 }
    ensures harmed { (place : ℕ) → IsErrOf result (Damaged place) → (P.disks parts.new).faults 2 ≡ (P.disks parts.old).faults 2 }
    ensures content { (place : ℕ) → IsErrOf result (Damaged place) → (P.disks parts.new).content 2 ≡ (P.disks parts.old).content 2 }
{
    pages.hold(parts, oref.page)?;
    let image = match pages.held(oref.page) {
        Some(base) => image_of(alloc, base, mob, oref.repo)?,
        None => return Err(StoreFault::NoMemory),
    };
    pages.install(parts, &image)
}
