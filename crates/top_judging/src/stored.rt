//! The store with which a run begins, as it is opened.

ghost use Rattle.script_check.specs.Upgrading.{extended, upgrades_of};
ghost use Rattle.serial_model.specs.Replays.{AreMade};
ghost use Rattle.std.specs.Prelude.{IfOk, IfSome, List, None, length, ◌≡◌, ℕ};
ghost use Rattle.store_opening.specs.Reading.{IsOpened, IsStoredIn};
ghost use Rattle.thor_value.specs.FiniteMap.{IsSorted};
ghost use Rattle.top_judging.specs.Stages.{HasSchemas, IsOpenedAs};
ghost use Rattle.top_statement.specs.Opening.{IsBase, IsStore};

use class_defs::{Plain, Schemas};
use disk_trait::Parts;
use script_check::{opened_store, with_upgrades};
use script_parse::Script;
use std::alloc::Global;
use store_opening::Found;
use thor_value::{NoMemory, TryCopy};

/// The store with which a run begins.
#[derive(Drop)]
pub struct OpenedStore {
    /// The schemas of its epochs, and those behind the script's upgrades.
    pub schemas: Schemas,
    pub store: Plain,
}

/// The store with which the run begins; `None` where the store that was found has another epoch than its schemas.
fn store_of<P: Parts>(
    alloc: Global,
    script: &Script,
    base: &Schemas,
    found: &Found<P>,
) -> Result<Option<Plain>, NoMemory>
    requires base { IsBase script.now.setup base.now }
    requires made { AreMade base.now }
    requires schemas { HasSchemas script.now.setup found.now.store base.now }
    ensures store { IfOk result (λ store. IfSome store (IsStore script.now.setup base.now)) }
    ensures sorted { IfOk result (λ store. IfSome store (λ s. IsSorted s.objects)) }
    ensures opened { (images : List (ℕ → List ℕ)) → IsStoredIn images found.now.store → IfOk result (λ store. IfSome store (IsOpenedAs images script.now.setup base.now)) }
{
    match &script.setup {
        Some(_) => Ok(Some(opened_store(alloc, &base.first)?)),
        None => stored(alloc, base, found),
    }
}

/// The store as it was found; `None` where it has another epoch than its schemas.
fn stored<P: Parts>(
    alloc: Global,
    base: &Schemas,
    found: &Found<P>,
) -> Result<Option<Plain>, NoMemory>
    requires { HasSchemas None found.now.store base.now }
    ensures epoch { IfOk result (λ store. IfSome store (λ s. s.epoch ≡ length base.now.upgraded)) }
    ensures sorted { IfOk result (λ store. IfSome store (λ s. IsSorted s.objects)) }
    ensures opened { (images : List (ℕ → List ℕ)) → IsStoredIn images found.now.store → IfOk result (λ store. IfSome store (IsOpened images base.now)) }
{
    match found.opened(alloc)? {
        Some(store) => {
            if store.epoch as usize == base.upgraded.len() {
                Ok(Some(store))
            } else {
                Ok(None)
            }
        }
        None => Ok(None),
    }
}

/// The store with which the run begins, under the schemas behind the script's upgrades; `None` where the store that was
/// found has another epoch than its schemas.
pub fn opened_of<P: Parts>(
    alloc: Global,
    script: &Script,
    base: &Schemas,
    found: &Found<P>,
) -> Result<Option<OpenedStore>, NoMemory>
    requires base { IsBase script.now.setup base.now }
    requires made { AreMade base.now }
    requires schemas { HasSchemas script.now.setup found.now.store base.now }
    ensures schemas { IfOk result (λ opened. IfSome opened (λ o. o.schemas ≡ extended base.now (upgrades_of script.now.clients))) }
    ensures store { IfOk result (λ opened. IfSome opened (λ o. IsStore script.now.setup base.now o.store)) }
    ensures sorted { IfOk result (λ opened. IfSome opened (λ o. IsSorted o.store.objects)) }
    ensures opened { (images : List (ℕ → List ℕ)) → IsStoredIn images found.now.store → IfOk result (λ opened. IfSome opened (λ o. IsOpenedAs images script.now.setup base.now o.store)) }
{
    match store_of(alloc, script, base, found)? {
        Some(store) => Ok(Some(OpenedStore {
            schemas: with_upgrades(alloc, base.copy()?, script.clients.as_slice())?,
            store,
        })),
        None => Ok(None),
    }
}
