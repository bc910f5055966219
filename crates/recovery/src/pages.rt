//! The objects of an installed page.

ghost use Rattle.disk_trait.specs.Disks.{Disks, NoNewImage, OnDisk, Rose, WhereTold};
ghost use Rattle.object_codec.specs.Spelling.{ObjFits, obj_bytes};
ghost use Rattle.page_store.specs.Objects.{HasObjects, SpellsObject};
ghost use Rattle.page_store.specs.Sides.{place_in};
ghost use Rattle.page_store.specs.declared.fault.StoreFault.TheVariants.{Damaged, Failed, NoMemory as OutOfMemory};
ghost use Rattle.recovery.specs.Paged.{AreOfPage, AreOnPage, HasRoom, IsOnSide, IsPaged};
ghost use Rattle.std.specs.Prelude.{IfOk, IsErrOf, List, OnOk, Some, slice_get, ◌≡◌, ℕ};
ghost use Rattle.thor_value.specs.declared.names.Oref.{Oref as AnOref};
ghost use Rattle.thor_value.specs.declared.values.Obj.{Obj as AnObj};

use disk_trait::Parts;
use object_codec::read_obj;
use page_format::{Page, StoreFormat};
use page_store::{StoreFault, read_side_in};
use std::alloc::Global;
use thor_value::{NoMemory, Obj, Oref, Writes};

/// The objects of an installed page of a repository, in a store of this format: slots rise. One disk call.
///
/// `Damaged` tells where the side begins, and comes exactly where its bytes are no page of objects with the page's number.
pub fn read_objects<P: Parts>(
    alloc: Global,
    parts: &mut P,
    format: StoreFormat,
    repo: u8,
    installed: (u32, u8),
) -> Result<Writes, StoreFault>
    requires { HasRoom format (P.disks parts.old) installed }
    ensures alone { OnDisk (P.disks parts.old) (P.disks parts.new) 2 }
    ensures content { (P.disks parts.new).content 2 ≡ (P.disks parts.old).content 2 }
    ensures crash { NoNewImage (P.disks parts.old) (P.disks parts.new) 2 }
    ensures found { IfOk result (λ objects. WhereTold (P.disks parts.old) 2 (λ disk. IsOnSide format repo disk installed objects)) }
    ensures page { IfOk result (AreOnPage repo installed.0) }
    ensures place { (place : ℕ) → IsErrOf result (Damaged place) → place ≡ place_in format installed.0 installed.1 }
    ensures damaged { (place : ℕ) → IsErrOf result (Damaged place) → WhereTold (P.disks parts.old) 2 (λ disk. (objects : List (AnOref × AnObj)) → IsOnSide format repo disk installed objects → ⊥) }
    ensures failed { IsErrOf result Failed → Rose ((P.disks parts.old).faults 2) ((P.disks parts.new).faults 2) }
    ensures steady { OnOk result ((P.disks parts.new).faults 2 ≡ (P.disks parts.old).faults 2) }
    ensures wanting { IsErrOf result OutOfMemory → (P.disks parts.new).faults 2 ≡ (P.disks parts.old).faults 2 }
    ensures harmed { (place : ℕ) → IsErrOf result (Damaged place) → (P.disks parts.new).faults 2 ≡ (P.disks parts.old).faults 2 }
{
    let page = read_side_in(alloc, parts, format, installed.0, installed.1)?;
    let read = objects_of(alloc, repo, &page);
    drop(page);
    let objects = read?;
    Ok(objects)
}

/// The objects of a page, slots rising.
#[tactic(auto, using(crate::proofs::Paging::paged_more, crate::proofs::Paging::paged_all))]
fn objects_of(alloc: Global, repo: u8, page: &Page) -> Result<Writes, NoMemory>
    requires { HasObjects page.now }
    ensures { IfOk result (AreOfPage repo page.now) }
{
    let mut objects = Writes::new(alloc);
    for rank in 0..page.len() {
        objects.push(object_at(alloc, repo, page, rank)?)?;
    }
    Ok(objects)
}

/// The object at a rank of a page, under its name. The page has that many.
#[tactic(auto, using(crate::proofs::Paging::paged_one))]
fn object_at(alloc: Global, repo: u8, page: &Page, rank: u8) -> Result<(Oref, Obj), NoMemory>
    requires { HasObjects page.now }
    ensures { IfOk result (λ w. (q : ℕ × List ℕ) × (slice_get page.now.objects.pairs rank ≡ Some q) × IsPaged repo page.now.number q w) }
{
    let Some((slot, bytes)) = page.nth(rank) else {
        return Err(NoMemory);
    };
    let name = Oref {
        repo,
        page: page.number(),
        slot,
    };
    Ok((name, object_of(alloc, bytes)?))
}

/// The object that the bytes in a slot of a page of objects are.
fn object_of(alloc: Global, bytes: &[u8]) -> Result<Obj, NoMemory>
    requires { SpellsObject bytes.now }
    ensures { IfOk result (λ object. (bytes.now ≡ obj_bytes object) × ObjFits object) }
{
    match read_obj(alloc, bytes) {
        Ok((object, _)) => Ok(object),
        Err(_) => Err(NoMemory),
    }
}
