//! With what a run begins: the schemas of the opened store, and the store itself.

ghost use Rattle.std.specs.Prelude.{◌≡◌, ◌<◌, ◌^◌, IfOk, IfSome, None, length};
ghost use Rattle.script_parse.specs.Script.{HasFew};
ghost use Rattle.top_judging.specs.Stages.{FitsStore, HasSchemas, MisfitsStore};
ghost use Rattle.top_statement.specs.Opening.{IsBase, first_schemas};

use class_defs::{Declarations, Schemas, UpgradedSchemas};
use disk_trait::Parts;
use script_check::schema_of;
use std::alloc::Global;
use store_opening::Found;
use thor_value::{NoMemory, TryCopy};

/// The schemas of the store that a setup opens.
pub(crate) fn first_schemas(alloc: Global, setup: &Declarations) -> Result<Schemas, NoMemory>
    requires { length setup.now.roots < 2 ^ 32 }
    ensures { IfOk result (λ base. base ≡ first_schemas setup.now) }
{
    Ok(Schemas {
        first: schema_of(alloc, setup)?,
        upgraded: UpgradedSchemas::new(alloc),
    })
}

/// The schemas of the store's epochs: of the setup where the store is fresh, else of what was found. `None`
/// where a fresh store has no setup, or another one has one.
pub(crate) fn base_of<P: Parts>(
    alloc: Global,
    setup: &Option<Declarations>,
    found: &Found<P>,
) -> Result<Option<Schemas>, NoMemory>
    requires { HasFew setup.now }
    ensures base { IfOk result (λ base. IfSome base (IsBase setup.now)) }
    ensures schemas { IfOk result (λ base. IfSome base (HasSchemas setup.now found.now.store)) }
    ensures fits { IfOk result (λ base. IfSome base (λ _. FitsStore setup.now found.now.store)) }
    ensures misfits { IfOk result (λ base. base ≡ None → MisfitsStore setup.now found.now.store) }
{
    match (setup, found.schemas()) {
        (Some(setup), None) => Ok(Some(first_schemas(alloc, setup)?)),
        (None, Some(schemas)) => Ok(Some(schemas.copy()?)),
        (Some(_), Some(_)) => Ok(None),
        (None, None) => Ok(None),
    }
}
