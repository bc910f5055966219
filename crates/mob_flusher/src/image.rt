//! A page with the buffer's objects in their slots.

ghost use Rattle.std.specs.Prelude.{◌≡◌, ◌<◌, ◌≤◌, length, Some, None, IfOk, OnOk, OnErr, IsErrOf};
ghost use Rattle.std.specs.Option.{option_copied};
ghost use Rattle.thor_value.specs.FiniteMap.{get, insert};
ghost use Rattle.object_codec.specs.Spelling.{ObjFits, obj_bytes};
ghost use Rattle.page_format.specs.declared.fault.Full.TheVariants.{NoRoom};
ghost use Rattle.page_store.specs.Objects.{HasObjects, SpellsObject};
ghost use Rattle.mob_buffer.specs.Buffer.{AreOf, object_of};
ghost use Rattle.mob_flusher.specs.Map.{PageHas};
ghost use Rattle.mob_flusher.specs.Images.{IsImage, overlaid};

use mob_buffer::Mob;
use object_codec::{put_obj, read_obj};
use page_format::{Full, Page};
use std::alloc::Global;
use thor_value::{NoMemory, Obj, Oref, SLOTS, Text, TryCopy};

/// As many bytes as most objects have at most: there is room for them at once.
const USUAL: usize = 64;

/// A page with all objects that the buffer has of it.
pub(crate) fn image_of(alloc: Global, base: &Page, mob: &Mob, repo: u8) -> Result<Page, NoMemory>
    requires objects { HasObjects base.now }
    requires one_repo { AreOf repo mob.now.objects }
    ensures image { IfOk result (IsImage mob.now.objects repo base.now) }
    ensures objects { IfOk result HasObjects }
{
    let mut image = base.copy()?;
    let mut room = Text::from_vec(Vec::with_capacity(alloc, USUAL)?);
    for slot in 0..SLOTS {
        let oref = Oref {
            repo,
            page: base.number(),
            slot,
        };
        put_over(&mut image, &mut room, mob, oref)?;
    }
    Ok(image)
}

/// Puts the buffer's object of a name into its slot, where there is one. It is spelled in the room.
fn put_over(image: &mut Page, room: &mut Text, mob: &Mob, oref: Oref) -> Result<(), NoMemory>
    requires objects { HasObjects image.old }
    requires slot { oref.slot < 12 }
    ensures ok { OnOk result (image.new ≡ overlaid image.old oref.slot (object_of mob.now.objects oref)) }
    ensures objects { HasObjects image.new }
{
    match mob.get(oref) {
        None => Ok(()),
        Some(object) => put_object(image, room, oref.slot, object),
    }
}

/// Puts an object into a slot. It is spelled in the room.
pub(crate) fn put_object(
    image: &mut Page,
    room: &mut Text,
    slot: u8,
    object: &Obj,
) -> Result<(), NoMemory>
    requires objects { HasObjects image.old }
    requires slot { slot < 12 }
    requires object { ObjFits object.now }
    ensures ok { OnOk result (image.new ≡ overlaid image.old slot (Some object.now)) }
    ensures objects { HasObjects image.new }
{
    room.truncate(0);
    put_obj(object, room)?;
    match put_bytes(image, slot, room.as_slice()) {
        Ok(()) => Ok(()),
        Err(_) => Err(NoMemory),
    }
}

/// Puts the bytes of an object into a slot. The page is never full: twelve objects of the greatest size
/// fit.
fn put_bytes(image: &mut Page, slot: u8, bytes: &[u8]) -> Result<(), Full>
    requires objects { HasObjects image.old }
    requires slot { slot < 12 }
    requires object { SpellsObject bytes.now }
    ensures ok { OnOk result (image.new ≡ record image.old { objects = insert image.old.objects slot bytes.now }) }
    ensures never_full { IsErrOf result NoRoom → ⊥ }
    ensures objects { HasObjects image.new }
    ensures err { OnErr result (image.new ≡ image.old) }
{
    image.put(slot, bytes)
}

/// The object in a slot of a page.
pub(crate) fn object_in(alloc: Global, page: &Page, slot: u8) -> Result<Option<Obj>, NoMemory>
    requires { HasObjects page.now }
    ensures { IfOk result (PageHas page.now slot) }
{
    match page.get(slot) {
        None => Ok(None),
        Some(bytes) => Ok(Some(object_of(alloc, bytes)?)),
    }
}

/// The object that the bytes spell.
fn object_of(alloc: Global, bytes: &[u8]) -> Result<Obj, NoMemory>
    requires { SpellsObject bytes.now }
    ensures { IfOk result (λ o. (bytes.now ≡ obj_bytes o) × ObjFits o) }
{
    match read_obj(alloc, bytes) {
        Ok((object, _)) => Ok(object),
        Err(_) => Err(NoMemory),
    }
}
