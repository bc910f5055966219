//! Whether bytes are a page of objects.

ghost use Rattle.std.specs.Prelude.{◌≡◌, ◌↔◌, Ok, None, IfOk, IfSome, IsTrue};
ghost use Rattle.std.specs.List.{AllByRecursion};
ghost use Rattle.page_format.specs.Pages.{Contents};
ghost use Rattle.page_store.specs.Objects.{IsObjectAt, SpellsIn, SpellsObject};

use object_codec::{ObjFault, read_obj};
use page_format::{Damaged, Page, StoreFormat};
use std::alloc::Global;
use thor_value::{NoMemory, SLOTS};

/// The page of objects with a number that the bytes spell in a format, or `None` where they spell none.
pub(crate) fn page_of_objects(
    alloc: Global,
    format: StoreFormat,
    bytes: &[u8],
    number: u32,
) -> Result<Option<Page>, NoMemory>
    ensures found { IfOk result (λ found. IfSome found (SpellsIn format bytes.now number)) }
    ensures none { result ≡ Ok None → (page : Contents) → SpellsIn format bytes.now number page → ⊥ }
{
    let page = match Page::parse_in(alloc, format, bytes) {
        Ok(page) => page,
        Err(Damaged::NoPage) => return Ok(None),
        Err(Damaged::NoMemory) => return Err(NoMemory),
    };
    if page.number() != number || !has_objects(alloc, &page)? {
        return Ok(None);
    }
    Ok(Some(page))
}

/// Whether each slot that has bytes is one that objects are named by, and has one object.
fn has_objects(alloc: Global, page: &Page) -> Result<bool, NoMemory>
    ensures { IfOk result (λ has. IsTrue has ↔ AllByRecursion IsObjectAt page.now.objects.pairs) }
{
    for rank in 0..page.len() {
        if let Some((slot, bytes)) = page.nth(rank) {
            if !is_object_at(alloc, slot, bytes)? {
                return Ok(false);
            }
        }
    }
    Ok(true)
}

/// Whether the slot is one that objects are named by, and has one object.
fn is_object_at(alloc: Global, slot: u8, bytes: &[u8]) -> Result<bool, NoMemory>
    ensures { IfOk result (λ is. IsTrue is ↔ IsObjectAt (slot, bytes.now)) }
{
    if slot >= SLOTS {
        return Ok(false);
    }
    is_object(alloc, bytes)
}

/// Whether the bytes are one object, from the first to the last.
fn is_object(alloc: Global, bytes: &[u8]) -> Result<bool, NoMemory>
    ensures { IfOk result (λ is. IsTrue is ↔ SpellsObject bytes.now) }
{
    let (_, length) = match read_obj(alloc, bytes) {
        Ok(read) => read,
        Err(ObjFault::NoMemory) => return Err(NoMemory),
        Err(ObjFault::Short) => return Ok(false),
        Err(ObjFault::BadTag) => return Ok(false),
        Err(ObjFault::TooLarge { .. }) => return Ok(false),
    };
    Ok(length == bytes.len())
}
