//! The bytes of objects and of pages.

ghost use Rattle.object_codec.specs.Spelling.{obj_bytes};
ghost use Rattle.page_format.specs.Pages.{page_bytes};
ghost use Rattle.std.specs.List.{sum_by};
ghost use Rattle.std.specs.Map.{values_of};
ghost use Rattle.std.specs.Prelude.{All, IfOk, IsTrue, OnOk, [], length, ◌+◌, ◌∷◌, ◌≡◌};
ghost use Rattle.thor_value.specs.Spelling.{NameFits};
ghost use Rattle.model_reading.specs.Paging.{contents_of, with_objects};
ghost use Rattle.repo_refusals.specs.Refusals.{bytes_of};

use crate::names::{Objects, written};
use log_entries::Request;
use object_codec::put_obj;
use page_format::{Page, PageImage};
use std::alloc::Global;
use thor_value::{NoMemory, Obj, Oref, Text, Value};

/// The most fields of an object.
const FIELDS: usize = 32;

/// Whether a value can be spelled.
fn can_spell(value: Value) -> bool
    ensures { IsTrue result → NameFits value }
{
    match value {
        Value::Ref(oref) => oref.repo < 8 && oref.page < 65_536 && oref.slot < 12,
        Value::Int(_) | Value::Null | Value::Text(_) => true,
    }
}

fn can_spell_all(values: &[Value]) -> bool
    ensures { IsTrue result → All NameFits values.now }
{
    for value in values {
        if !can_spell(*value) {
            return false;
        }
    }
    true
}

/// The bytes of an object. Want of memory, too, where it is none that a store can have.
fn spelled(alloc: Global, object: &Obj) -> Result<Text, NoMemory>
    ensures { IfOk result (λ bytes. bytes ≡ obj_bytes object.now) }
{
    if object.fields.len() > FIELDS || !can_spell_all(object.fields.as_slice()) {
        return Err(NoMemory);
    }
    let mut bytes = Text::new(alloc);
    put_obj(object, &mut bytes)?;
    Ok(bytes)
}

fn spelled_length(alloc: Global, object: &Obj) -> Result<u64, NoMemory>
    ensures { IfOk result (λ n. n ≡ length (obj_bytes object.now)) }
{
    let bytes = spelled(alloc, object)?;
    Ok(bytes.len() as u64)
}

/// The sum of two numbers, where a number tells it.
fn sum(first: u64, second: u64) -> Result<u64, NoMemory>
    ensures { IfOk result (λ n. n ≡ first + second) }
{
    if second > u64::MAX - first {
        return Err(NoMemory);
    }
    Ok(first + second)
}

fn bytes_of_all(alloc: Global, objects: &Objects) -> Result<u64, NoMemory>
    ensures { IfOk result (λ n. n ≡ sum_by (λ o. length (obj_bytes o)) (values_of objects.now.entries)) }
{
    let mut bytes = 0u64;
    for object in objects.values() {
        bytes = sum(bytes, spelled_length(alloc, object)?)?;
    }
    Ok(bytes)
}

/// How many bytes the objects have that a request wrote. Want of memory, too, where one of them is none that a store can
/// have.
pub(crate) fn spelled_bytes(alloc: Global, request: &Request) -> Result<u64, NoMemory>
    ensures { IfOk result (λ n. n ≡ bytes_of request.now) }
{
    let objects = written(alloc, request)?;
    bytes_of_all(alloc, &objects)
}

/// Puts an object onto a page, where it stands there.
fn put(alloc: Global, page: &mut Page, name: Oref, object: &Obj) -> Result<(), NoMemory>
    ensures { OnOk result (page.new ≡ with_objects page.old ((name, object.now) ∷ [])) }
{
    if name.page != page.number() {
        return Ok(());
    }
    let bytes = spelled(alloc, object)?;
    match page.put(name.slot, bytes.as_slice()) {
        Ok(()) => Ok(()),
        Err(_) => Err(NoMemory),
    }
}

/// The bytes of a page with those of some objects that stand on it. Want of memory, too, where they have no room there.
pub(crate) fn page_of(alloc: Global, number: u32, objects: &Objects) -> Result<PageImage, NoMemory>
    ensures { IfOk result (λ bytes. bytes ≡ page_bytes (contents_of number objects.now.entries)) }
{
    let mut page = Page::empty(alloc, number)?;
    for (name, object) in objects {
        put(alloc, &mut page, *name, object)?;
    }
    Ok(PageImage::new(page))
}
