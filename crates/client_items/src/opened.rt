//! What a client is given: the store as it was opened, and its items.

ghost use Rattle.std.proofs.Props.{props};
ghost use Rattle.std.specs.Prelude.{◌≡◌, IfOk};
ghost use Rattle.lang_small_steps.specs.contracts.methods.SharedMethod as method;
ghost use Rattle.lang_small_steps.specs.Methods.{AreMethodsOf};

use class_defs::Schemas;
use lang_small_steps::EpochMethods;
use serial_model::What;
use std::alloc::Global;
use thor_value::{NoMemory, Sequence};

/// The items of a client, in the order of the script.
pub type Items = Sequence<What>;

/// The store as it was opened.
#[derive(Drop)]
pub struct Opened {
    /// How many repositories there are, 1 to 8.
    pub repos: u8,
    /// How many upgrades were installed.
    pub epoch: u32,
    /// The schemas of these epochs, and behind them those of the script's upgrades, in order. All
    /// upgrades of a script stand in one client, so the number of each is told by its place.
    pub schemas: Schemas,
    /// The methods of these schemas, whose bodies all evaluations share.
    pub methods: EpochMethods,
    pub ghost known: { AreMethodsOf schemas methods } by { Prim.hlevel (props, method.the_row.coded) },
}

impl Opened {
    /// A store with so many repositories and installed upgrades, and with these schemas.
    pub fn new(alloc: Global, repos: u8, epoch: u32, schemas: Schemas) -> Result<Opened, NoMemory>
        ensures repos { IfOk result (λ opened. opened.repos ≡ repos) }
        ensures epoch { IfOk result (λ opened. opened.epoch ≡ epoch) }
        ensures schemas { IfOk result (λ opened. opened.schemas ≡ schemas) }
    {
        let methods = EpochMethods::copy_of(alloc, &schemas)?;
        Ok(Opened {
            repos,
            epoch,
            schemas,
            methods,
        })
    }
}
