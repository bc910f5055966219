//! Images of pages that are kept: a page with the buffer's objects in their slots.

ghost use Rattle.std.specs.Prelude.{◌≡◌, ◌<◌, ℕ, Some, None, IfOk, IfSome, IsTrue, is_some, slice_get};
ghost use Rattle.std.specs.Option.{option_copied};
ghost use Rattle.object_codec.specs.Spelling.{ObjFits};
ghost use Rattle.page_format.specs.Pages.{Contents};
ghost use Rattle.page_store.specs.Objects.{HasObjects};
ghost use Rattle.mob_buffer.specs.Buffer.{AreOf, Objects, with_all};
ghost use Rattle.mob_flusher.specs.KeptImages.{AreImages, AreKept, AreKeptBut, IsKeptOrThis, IsPut, IsPutBack, at_place, image_in, of_page, place_of, placed};

use crate::image::put_object;
use page_format::Page;
use std::alloc::Global;
use std::marker::Model;
use std::mem;
use thor_value::{NoMemory, Obj, Oref, Text, Writes};

/// How many images are kept at most.
const MOST_KEPT: u32 = 64;

/// Images of pages, at most 64, each at the place that its number gives it. One that comes to a place that is taken
/// drives the other out.
#[derive(Drop)]
pub(crate) struct KeptImages {
    alloc: Global,
    /// Empty until the first image is kept.
    places: Vec<Option<Page>>,
    /// An object is spelled in it.
    room: Text,
}

impl Model for KeptImages {
    ghost use Rattle.std.specs.Prelude.{List, Option};
    ghost use Rattle.page_format.specs.Pages.{Contents};
    ghost use Rattle.mob_flusher.specs.KeptImages.{HaveObjects};

    ghost Value = { List (Option Contents) };

    ghost view = { λ k. k.places.items };

    ghost invariant = { λ k. HaveObjects k.places.items };
}

impl KeptImages {
    /// No image. It takes no memory.
    pub(crate) fn new(alloc: Global) -> KeptImages
        ensures { (page : ℕ) (image : Contents) → image_in result page ≡ Some image → ⊥ }
    {
        KeptImages {
            alloc,
            places: Vec::new(alloc),
            room: Text::new(alloc),
        }
    }

    /// The image of a page, where it is kept.
    pub(crate) fn get(&self, page: u32) -> Option<&Page>
        ensures image { option_copied result ≡ image_in self.now page }
        ensures objects { IfSome result (λ image. HasObjects image.now) }
    {
        match image_at(self.places.as_slice(), place_of(page)) {
            Some(image) => of_page(image, page),
            None => None,
        }
    }

    /// Keeps no image any more.
    pub(crate) fn clear(&mut self)
        ensures { (page : ℕ) (image : Contents) → image_in self.new page ≡ Some image → ⊥ }
    {
        self.places.clear();
    }

    /// Keeps no image of a page.
    pub(crate) fn forget(&mut self, page: u32)
        ensures { AreKeptBut page self.new self.old }
    {
        drop(self.swap(page, None));
    }

    /// Keeps an image of a page of objects. After `NoMemory` it isn't kept.
    pub(crate) fn keep(&mut self, image: Page) -> Result<(), NoMemory>
        requires { HasObjects image }
        ensures { (page : ℕ) (now : Contents) → image_in self.new page ≡ Some now → IsKeptOrThis self.old image page now }
    {
        self.make_places()?;
        let page = image.number();
        drop(self.swap(page, Some(image)));
        Ok(())
    }

    /// Makes places without images, where there are none.
    fn make_places(&mut self) -> Result<(), NoMemory>
        ensures { AreKept self.new self.old }
    {
        if !self.is_empty() {
            return Ok(());
        }
        drop(mem::replace(&mut self.places, no_images(self.alloc)?));
        Ok(())
    }

    /// Whether no image is kept since there are no places.
    fn is_empty(&self) -> bool
        ensures { IsTrue result → (page : ℕ) (image : Contents) → image_in self.now page ≡ Some image → ⊥ }
    {
        self.places.is_empty()
    }

    /// Puts all these objects into the images of their pages, one after the other. An image that can't take one isn't kept
    /// any more.
    pub(crate) fn put_all(&mut self, writes: &Writes)
        requires { (repo : ℕ) × AreOf repo writes.now }
        ensures { (objects : Objects) (repo : ℕ) (base : Contents) → AreOf repo writes.now → AreImages self.old objects repo base → AreImages self.new (with_all objects writes.now) repo base }
    {
        if self.is_empty() {
            return;
        }
        for write in writes.as_slice() {
            self.put(write.0, &write.1);
        }
    }

    /// Puts an object into the image of its page, where that is kept. An image that can't take it isn't kept any more.
    fn put(&mut self, oref: Oref, object: &Obj)
        requires slot { oref.slot < 12 }
        requires object { ObjFits object.now }
        ensures { (page : ℕ) (now : Contents) → image_in self.new page ≡ Some now → IsPut self.old oref object.now page now }
    {
        match self.take(oref.page) {
            Some(image) => self.put_back(image, oref, object),
            None => {}
        }
    }

    /// Takes the image of a page out, where it is kept.
    fn take(&mut self, page: u32) -> Option<Page>
        ensures taken { IfSome result (λ image. image_in self.old page ≡ Some image) }
        ensures objects { IfSome result HasObjects }
        ensures others { AreKeptBut page self.new self.old }
    {
        if !self.has(page) {
            return None;
        }
        self.swap(page, None)
    }

    /// Whether the image of a page is kept.
    fn has(&self, page: u32) -> bool
        ensures { result ≡ is_some (image_in self.now page) }
    {
        match self.get(page) {
            Some(_) => true,
            None => false,
        }
    }

    /// Keeps an image that was taken out, with an object put into it. If it can't take the object it isn't kept.
    fn put_back(&mut self, mut image: Page, oref: Oref, object: &Obj)
        requires image { HasObjects image }
        requires number { image.number ≡ oref.page }
        requires slot { oref.slot < 12 }
        requires object { ObjFits object.now }
        ensures { (page : ℕ) (now : Contents) → image_in self.new page ≡ Some now → IsPutBack self.old image oref object.now page now }
    {
        match put_object(&mut image, &mut self.room, oref.slot, object) {
            Ok(()) => drop(self.swap(oref.page, Some(image))),
            Err(_) => {}
        }
    }

    /// Has this for the image of a page, where there is a place for it, and answers what had that place.
    fn swap(&mut self, page: u32, image: Option<Page>) -> Option<Page>
        requires objects { (now : Contents) → image ≡ Some now → HasObjects now }
        requires number { (now : Contents) → image ≡ Some now → now.number ≡ page }
        ensures here { (now : Contents) → image_in self.new page ≡ Some now → image ≡ Some now }
        ensures others { (p : ℕ) (now : Contents) → (p ≡ page → ⊥) → image_in self.new p ≡ Some now → image_in self.old p ≡ Some now }
        ensures taken { (was : Contents) → image_in self.old page ≡ Some was → result ≡ Some was }
        ensures had { IfSome result HasObjects }
    {
        swap_place(&mut self.places, place_of(page), image)
    }
}

/// Puts an image or none at a place, where there is one, and answers what was there.
fn swap_place(places: &mut Vec<Option<Page>>, place: usize, image: Option<Page>) -> Option<Page>
    ensures items { places.new.items ≡ placed image places.old.items place (slice_get places.old.items place) }
    ensures was { result ≡ at_place places.old.items place }
{
    match places.get_mut(place) {
        Some(there) => mem::replace(there, image),
        None => None,
    }
}

/// The image at a place, where there is one.
fn image_at(places: &[Option<Page>], place: usize) -> Option<&Page>
    ensures { option_copied result ≡ at_place places.now place }
{
    match places.get(place) {
        Some(Some(image)) => Some(image),
        Some(None) => None,
        None => None,
    }
}

/// The image, where it is of this page.
fn of_page(image: &Page, page: u32) -> Option<&Page>
    requires { HasObjects image.now }
    ensures image { option_copied result ≡ of_page page image.now }
    ensures objects { IfSome result (λ image. HasObjects image.now) }
{
    if image.number() == page {
        Some(image)
    } else {
        None
    }
}

/// The place of a page's image.
fn place_of(page: u32) -> usize
    ensures { result ≡ place_of page }
{
    (page % MOST_KEPT) as usize
}

/// Places without images.
fn no_images(alloc: Global) -> Result<Vec<Option<Page>>, NoMemory>
    ensures { IfOk result (λ places. (place : ℕ) (image : Contents) → at_place places.items place ≡ Some image → ⊥) }
{
    let mut places = Vec::with_capacity(alloc, MOST_KEPT as usize)?;
    for _ in 0..MOST_KEPT {
        places.push(None)?;
    }
    Ok(places)
}
