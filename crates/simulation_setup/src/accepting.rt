//! A script is read, and accepted.

ghost use Rattle.class_defs.specs.Applied.{next_number};
ghost use Rattle.std.specs.Prelude.{IfOk, ◌≡◌};
ghost use Rattle.thor_value.specs.FiniteMap.{IsSorted};

use crate::faults::Unbegun;
use class_defs::{Declarations, Plain, Schema, Schemas, UpgradedSchemas};
use schedule::Event;
use script_check::{judge, opened_store, schema_of, upgrade_count, with_upgrades};
use script_parse::{Script, read_script};
use std::alloc::Global;
use thor_value::both;

/// The most clients, classes, roots and upgrades of a script.
pub(crate) const MOST: usize = 64;

/// A script that is accepted.
#[derive(Drop)]
pub struct Begun {
    pub script: Script,
    /// The schemas of all epochs, those after its upgrades included.
    pub schemas: Schemas,
}

impl Begun {
    /// The events of its schedule.
    pub fn events(&self) -> &[Event] {
        self.script.events.as_slice()
    }
}

/// The schema of a setup that isn't too large.
fn first_schema(alloc: Global, setup: &Option<Declarations>) -> Result<Schema, Unbegun>
    ensures { IfOk result (λ schema. next_number schema.upgraded ≡ 1) }
{
    match setup {
        Some(setup) => {
            if setup.roots.len() > MOST || setup.classes.len() > MOST {
                return Err(Unbegun::Refused);
            }
            Ok(schema_of(alloc, setup)?)
        }
        None => Err(Unbegun::Refused),
    }
}

/// A script breaks no rule.
fn accept(alloc: Global, schema: &Schema, script: &Script, repos: u8) -> Result<(), Unbegun>
    requires { next_number schema.now.upgraded ≡ 1 }
{
    let clients = script.clients.as_slice();
    if clients.len() > MOST || upgrade_count(clients) > MOST || schema.classes.len() > MOST {
        return Err(Unbegun::Refused);
    }
    match judge(alloc, schema, script, repos)? {
        Some(_) => Err(Unbegun::Refused),
        None => Ok(()),
    }
}

/// The first schema of a script that breaks no rule.
fn accepted_schema(alloc: Global, script: &Script, repos: u8) -> Result<Schema, Unbegun> {
    let first = first_schema(alloc, &script.setup)?;
    let accepted = accept(alloc, &first, script, repos);
    let (first, _) = both(first, accepted)?;
    Ok(first)
}

/// The schemas of all epochs of a script.
fn schemas_of(alloc: Global, script: &Script, repos: u8) -> Result<Schemas, Unbegun> {
    let first = accepted_schema(alloc, script, repos)?;
    let schemas = Schemas {
        first,
        upgraded: UpgradedSchemas::new(alloc),
    };
    Ok(with_upgrades(alloc, schemas, script.clients.as_slice())?)
}

/// The script that a text is, over so many repositories. It is refused where it has no setup, breaks a rule, or has more than
/// 64 clients, classes, roots or upgrades.
pub fn begin(alloc: Global, text: &[u8], repos: u8) -> Result<Begun, Unbegun> {
    let script = read_script(alloc, text)?;
    let schemas = schemas_of(alloc, &script, repos);
    let (script, schemas) = both(script, schemas)?;
    Ok(Begun { script, schemas })
}

/// The store with which a script begins.
pub fn first_store(alloc: Global, begun: &Begun) -> Result<Plain, Unbegun>
    ensures { IfOk result (λ store. IsSorted store.objects) }
{
    if begun.schemas.first.classes.len() > MOST {
        return Err(Unbegun::Refused);
    }
    Ok(opened_store(alloc, &begun.schemas.first)?)
}
