//! The pages of a new repository, with its roots.

ghost use Rattle.std.specs.List.{AllByRecursion};
ghost use Rattle.std.specs.Prelude.{◌≡◌, ◌<◌, IfOk, IsErrOf, OnOk, Some};
ghost use Rattle.disk_trait.specs.AllDisks.{AllSettled};
ghost use Rattle.disk_trait.specs.Disks.{Disks, IsSettled, OnDisk, WhereTold};
ghost use Rattle.log_codec.specs.Checkpoint.{RootFits};
ghost use Rattle.object_codec.specs.Spelling.{ObjFits};
ghost use Rattle.page_store.specs.Objects.{HasObjects};
ghost use Rattle.mob_flusher.specs.Images.{overlaid};
ghost use Rattle.page_store.specs.Store.{Agrees};
ghost use Rattle.repo_durable.specs.Failing.{HasFailed};
ghost use Rattle.repo_durable.specs.declared.fault.OpenCause.TheVariants.{Failed};
ghost use Rattle.repo_format.specs.Pages.{HasRoots, PutsPage, first_page, with_root};

use crate::objects::first_object;
use crate::state::page_count;
use class_defs::{Root, Setup};
use disk_trait::Parts;
use object_codec::put_obj;
use page_format::{Page, Sides};
use page_store::PageStore;
use repo_durable::OpenCause;
use std::alloc::Global;
use thor_value::{NoMemory, Obj, Text, TryCopy};

/// Puts the roots of a repository on its pages. The answer is these pages.
#[tactic(auto, using(disk_trait::proofs::Runs::alone_then, disk_trait::proofs::Several::all_settled))]
pub(crate) fn put_roots<P: Parts>(
    alloc: Global,
    parts: &mut P,
    repo: u8,
    setup: &Setup,
) -> Result<Sides, OpenCause>
    requires settled { AllSettled (P.disks parts.old) }
    requires roots { AllByRecursion RootFits setup.now.roots }
    ensures alone { OnDisk (P.disks parts.old) (P.disks parts.new) 2 }
    ensures settled { OnOk result (AllSettled (P.disks parts.new)) }
    ensures roots { IfOk result (λ sides. WhereTold (P.disks parts.new) 2 (HasRoots repo setup.now sides)) }
    ensures failed { IsErrOf result Failed → HasFailed (P.disks parts.old).faults (P.disks parts.new).faults }
{
    let mut store = PageStore::new(alloc, &Sides::new(alloc))?;
    for page in 0..page_count(repo, setup.roots.as_slice()) {
        put_page(alloc, parts, &mut store, repo, setup, page)?;
    }
    Ok(store.sides().copy()?)
}

/// Writes a page with the roots that lie on it, and has it in use.
fn put_page<P: Parts>(
    alloc: Global,
    parts: &mut P,
    store: &mut PageStore,
    repo: u8,
    setup: &Setup,
    page: u32,
) -> Result<(), OpenCause>
    requires settled { IsSettled (P.disks parts.old) 2 }
    requires agrees { WhereTold (P.disks parts.old) 2 (Agrees store.old) }
    requires roots { AllByRecursion RootFits setup.now.roots }
    ensures alone { OnDisk (P.disks parts.old) (P.disks parts.new) 2 }
    ensures settled { OnOk result (IsSettled (P.disks parts.new) 2) }
    ensures agrees { OnOk result (WhereTold (P.disks parts.new) 2 (Agrees store.new)) }
    ensures put { OnOk result (PutsPage (P.disks parts.old) (P.disks parts.new) store.old.sides store.new.sides page (first_page repo setup.now page)) }
    ensures failed { IsErrOf result Failed → HasFailed (P.disks parts.old).faults (P.disks parts.new).faults }
{
    let roots = page_of_roots(alloc, repo, setup, page)?;
    let side = store.install(parts, &roots)?;
    store.settle(page, side);
    Ok(())
}

/// A page with the roots that lie on it, as they begin.
fn page_of_roots(alloc: Global, repo: u8, setup: &Setup, page: u32) -> Result<Page, NoMemory>
    requires roots { AllByRecursion RootFits setup.now.roots }
    ensures objects { IfOk result HasObjects }
    ensures number { IfOk result (λ made. made.number ≡ page) }
    ensures page { IfOk result (λ made. made ≡ first_page repo setup.now page) }
{
    let mut made = Page::empty(alloc, page)?;
    for root in setup.roots.as_slice() {
        if root.oref.repo == repo && root.oref.page == page {
            put_root(alloc, &mut made, setup, root)?;
        }
    }
    Ok(made)
}

/// Puts a root on its page.
fn put_root(alloc: Global, page: &mut Page, setup: &Setup, root: &Root) -> Result<(), NoMemory>
    requires objects { HasObjects page.old }
    requires root { RootFits root.now }
    ensures objects { HasObjects page.new }
    ensures number { page.new.number ≡ page.old.number }
    ensures put { OnOk result (page.new ≡ with_root setup.now.schema.classes page.old root.now) }
{
    let object = first_object(alloc, &setup.schema.classes, root.class)?;
    put_object(alloc, page, root.oref.slot, &object)
}

/// Puts an object into a slot of a page.
fn put_object(alloc: Global, page: &mut Page, slot: u8, object: &Obj) -> Result<(), NoMemory>
    requires objects { HasObjects page.old }
    requires slot { slot < 12 }
    requires object { ObjFits object.now }
    ensures objects { HasObjects page.new }
    ensures number { page.new.number ≡ page.old.number }
    ensures put { OnOk result (page.new ≡ overlaid page.old slot (Some object.now)) }
{
    let mut bytes = Text::new(alloc);
    put_obj(object, &mut bytes)?;
    match page.put(slot, bytes.as_slice()) {
        Ok(()) => Ok(()),
        Err(_) => Err(NoMemory),
    }
}
