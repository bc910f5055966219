//! What a page makes of the copies that are held of it, where its bytes are a page of objects. An object that is held as
//! the page has it isn't read anew.

ghost use Rattle.std.specs.Prelude.{◌≡◌, ◌↔◌, ◌<◌, ℕ, Option, Some, None, IfOk, IfSome, IsTrue};
ghost use Rattle.std.specs.List.{AllByRecursion};
ghost use Rattle.std.specs.Option.{option_copied};
ghost use Rattle.page_format.specs.Pages as page;
ghost use Rattle.thor_value.specs.declared.values.Obj.{Obj};
ghost use Rattle.client_cache.specs.Changes.{AreOf, behind, copy_in, kept_behind};
ghost use Rattle.client_cache.specs.Placing.{Brings, HasName, IsObject, IsObjectPage, IsPageOf};

use crate::changes::{Change, Changes};
use crate::page_copies::Slots;
use crate::spelled::spells;
use object_codec::{ObjFault, objects_are_apart, read_obj};
use page_format::{Page, PageImage, pages_are_apart};
use std::alloc::Global;
use thor_value::{NoMemory, Obj, SLOTS};

/// What the bytes of a page make of the copies that are held of it; nothing where they aren't the page of this number, or
/// one of its slots isn't one that objects are named by or hasn't one object.
pub(crate) fn changes_of(
    alloc: Global,
    held: Option<&Slots>,
    bytes: &PageImage,
    number: u32,
) -> Result<Option<Changes>, NoMemory>
    ensures page { IfOk result (λ found. IfSome found (λ changes. IsPageOf bytes.now number (kept_behind changes (option_copied held.entry)))) }
    ensures none { IfOk result (λ found. found ≡ None → IsObjectPage bytes.now number → ⊥) }
    ensures kept { IfOk result (λ found. IfSome found (λ changes. (objects : ℕ → Option Obj) → IsPageOf bytes.now number objects → (s : ℕ) → kept_behind changes (option_copied held.entry) s ≡ objects s)) }
{
    objects_are_apart();
    pages_are_apart();
    let page = bytes.page();
    if page.number() != number {
        return Ok(None);
    }
    changes_on(alloc, held, page)
}

/// What a page makes of the copies that are held of it; nothing where one of its slots isn't one that objects are named by
/// or hasn't one object.
fn changes_on(alloc: Global, held: Option<&Slots>, page: &Page) -> Result<Option<Changes>, NoMemory>
    ensures brings { IfOk result (λ found. IfSome found (λ changes. Brings page.now (kept_behind changes (option_copied held.entry)))) }
    ensures none { IfOk result (λ found. found ≡ None → (objects : ℕ → Option Obj) → Brings page.now objects → ⊥) }
{
    if !have_names(page) {
        return Ok(None);
    }
    changes_in_named(alloc, held, page)
}

/// Whether each slot that has bytes is one that objects are named by. Slots rise, so the last tells it of all.
fn have_names(page: &Page) -> bool
    ensures { IsTrue result ↔ AllByRecursion HasName page.now.objects.pairs }
{
    page.within();
    let count = page.len();
    if count == 0 {
        return true;
    }
    match page.nth(count - 1) {
        Some((slot, _)) => slot < SLOTS,
        None => false,
    }
}

/// What a page whose slots are those that objects are named by makes of the copies that are held of it; nothing where one
/// of them hasn't one object.
fn changes_in_named(
    alloc: Global,
    held: Option<&Slots>,
    page: &Page,
) -> Result<Option<Changes>, NoMemory>
    requires { AllByRecursion HasName page.now.objects.pairs }
    ensures brings { IfOk result (λ found. IfSome found (λ changes. Brings page.now (kept_behind changes (option_copied held.entry)))) }
    ensures none { IfOk result (λ found. found ≡ None → (objects : ℕ → Option Obj) → Brings page.now objects → ⊥) }
{
    let mut changes = Vec::with_capacity(alloc, usize::from(SLOTS))?;
    for slot in 0..SLOTS {
        match change_of(alloc, copy_in(held, slot), page.get(slot))? {
            Some(change) => changes.push(change)?,
            None => return Ok(None),
        }
    }
    Ok(Some(Changes::of_all(changes)))
}

/// The copy in a slot of a page, where that is held.
fn copy_in(held: Option<&Slots>, slot: u8) -> Option<&Obj>
    ensures { option_copied result ≡ copy_in (option_copied held.entry) slot }
{
    match held {
        Some(slots) => slots.kept(slot),
        None => None,
    }
}

/// What the bytes of a slot make of the copy there; nothing where they aren't one object.
#[tactic(auto, using(crate::proofs::Brought::are_one, crate::proofs::Brought::no_bytes, crate::proofs::Brought::not_one))]
fn change_of(
    alloc: Global,
    copy: Option<&Obj>,
    bytes: Option<&[u8]>,
) -> Result<Option<Change>, NoMemory>
    ensures found { IfOk result (λ found. IfSome found (λ change. AreOf (option_copied bytes.entry) (behind change (option_copied copy.entry)))) }
    ensures none { IfOk result (λ found. found ≡ None → (o : Option Obj) → AreOf (option_copied bytes.entry) o → ⊥) }
{
    let Some(bytes) = bytes else {
        return Ok(Some(Change::Gone));
    };
    if is_spelled(copy, bytes) {
        return Ok(Some(Change::Same));
    }
    match object_of(alloc, bytes)? {
        Some(obj) => Ok(Some(Change::Other(obj))),
        None => Ok(None),
    }
}

/// Whether the bytes are this object, where there is one.
#[tactic(auto, using(crate::proofs::Brought::are_one))]
fn is_spelled(copy: Option<&Obj>, bytes: &[u8]) -> bool
    ensures { IsTrue result → AreOf (Some bytes.now) (option_copied copy.entry) }
{
    match copy {
        Some(obj) => spells(bytes, obj),
        None => false,
    }
}

/// The object that the bytes are, from the first to the last; nothing where they aren't one.
fn object_of(alloc: Global, bytes: &[u8]) -> Result<Option<Obj>, NoMemory>
    ensures found { IfOk result (λ found. IfSome found (λ obj. IsObject bytes.now obj)) }
    ensures none { IfOk result (λ found. found ≡ None → (o : Obj) → IsObject bytes.now o → ⊥) }
{
    let (obj, length) = match read_obj(alloc, bytes) {
        Ok(read) => read,
        Err(ObjFault::NoMemory) => return Err(NoMemory),
        Err(ObjFault::Short) => return Ok(None),
        Err(ObjFault::BadTag) => return Ok(None),
        Err(ObjFault::TooLarge { .. }) => return Ok(None),
    };
    if length != bytes.len() {
        return Ok(None);
    }
    Ok(Some(obj))
}
