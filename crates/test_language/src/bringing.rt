use crate::cases::{CASES, Case, Holds, SETUP, Stored, UPGRADES, Want};
use class_defs::{
    Classes, Epochs, RootDeclarations, Schema, Schemas, Upgrade, UpgradedSchema, UpgradedSchemas,
};
use lang_upgrade_eval::level;
use lazy_transform::{Wanted, bring, wants};
use method_eval::{Names, View};
use method_parse::parse_setup;
use script_text::scan;
use std::alloc::Global;
use thor_value::{Obj, Oref, OrefMap, Value, Values};
use upgrade_defs::parse_upgrade;

fn name(slot: u8) -> Oref {
    Oref {
        repo: 0,
        page: 0,
        slot,
    }
}

fn value(holds: Holds) -> Value {
    match holds {
        Holds::Int(n) => Value::Int(n),
        Holds::Slot(slot) => Value::Ref(name(slot)),
        Holds::Null => Value::Null,
    }
}

/// The classes that a text declares.
pub fn classes(alloc: Global, text: &[u8]) -> Option<Classes> {
    if 1_000_000 < text.len() {
        return None;
    }
    let tokens = scan(alloc, text).ok()?;
    let setup = parse_setup(alloc, &tokens).ok()?;
    Some(setup.classes)
}

/// Those classes, as those of an epoch.
fn schema(alloc: Global, text: &[u8]) -> Option<Schema> {
    Some(Schema {
        classes: classes(alloc, text)?,
        upgraded: Epochs::new(alloc),
        roots: RootDeclarations::new(alloc),
    })
}

/// The upgrade of a text.
pub fn upgrade(alloc: Global, text: &[u8]) -> Option<Upgrade> {
    if 1_000_000 < text.len() {
        return None;
    }
    let tokens = scan(alloc, text).ok()?;
    parse_upgrade(alloc, &tokens).ok()
}

fn schemas(alloc: Global) -> Option<Schemas> {
    let mut upgraded = UpgradedSchemas::new(alloc);
    for (text, classes) in UPGRADES {
        let upgrade = upgrade(alloc, text)?;
        let schema = schema(alloc, classes)?;
        upgraded.push(UpgradedSchema { upgrade, schema }).ok()?;
    }
    let first = schema(alloc, SETUP)?;
    Some(Schemas { first, upgraded })
}

fn object(alloc: Global, stored: &Stored) -> Option<Obj> {
    let mut fields = Values::new(alloc);
    for holds in stored.fields {
        fields.push(value(*holds)).ok()?;
    }
    Some(Obj {
        class: stored.class,
        ver: stored.ver,
        fields,
    })
}

fn view(alloc: Global, stored: &[Stored]) -> Option<View> {
    let mut objects = OrefMap::new(alloc);
    for one in stored {
        objects.insert(name(one.slot), object(alloc, one)?).ok()?;
    }
    Some(View {
        objects,
        names: Names::new(alloc),
        epoch: 0,
    })
}

fn are_names(names: &[Oref], slots: &[u8]) -> bool {
    names.len() == slots.len()
        && names
            .iter()
            .zip(slots)
            .all(|(oref, slot)| *oref == name(*slot))
}

fn are_fields(fields: &[Value], held: &[Holds]) -> bool {
    fields.len() == held.len()
        && fields
            .iter()
            .zip(held)
            .all(|(field, holds)| *field == value(*holds))
}

/// Whether an object is wanted and brought as a case says.
fn holds(alloc: Global, schemas: &Schemas, case: &Case) -> Option<bool> {
    let obj = object(alloc, &case.object)?;
    let parts = view(alloc, case.at_hand)?;
    let wanted = wants(alloc, &obj, schemas, case.epoch, &parts).ok()?;
    match (wanted, case.want) {
        (Wanted::Part(part), Want::Part(slot)) => Some(part == name(slot)),
        (Wanted::All(names), Want::All(slots, fields)) => {
            let brought = bring(alloc, &obj, &parts, schemas, case.epoch).ok()?;
            let same = brought.class == obj.class && brought.ver == case.epoch;
            Some(
                same && are_names(names.as_slice(), slots)
                    && are_fields(brought.fields.as_slice(), fields),
            )
        }
        (_, _) => Some(false),
    }
}

/// Classes, versions, and the levels in a store of epoch 3.
const LEVELS: &[(u16, u32, u32)] = &[
    (0, 0, 0),
    (0, 1, 2),
    (0, 2, 2),
    (0, 3, 3),
    (1, 0, 1),
    (1, 2, 3),
    (2, 1, 2),
    (5, 0, 3),
    (9, 0, 3),
];

/// Whether every case is as it should be.
fn cases_hold(alloc: Global, schemas: &Schemas) -> bool {
    for case in CASES {
        if holds(alloc, schemas, case) != Some(true) {
            return false;
        }
    }
    true
}

/// Whether every level is as it should be.
fn levels_hold(schemas: &Schemas) -> bool {
    for (class, ver, wanted) in LEVELS {
        if 3 < *ver || level(schemas, *class, *ver, 3) != *wanted {
            return false;
        }
    }
    true
}

/// Whether every case and every level is as it should be.
fn all_hold(alloc: Global) -> bool {
    match schemas(alloc) {
        Some(schemas) => cases_hold(alloc, &schemas) && levels_hold(&schemas),
        None => false,
    }
}

#[test]
fn objects_are_brought_up(rt: HostRuntime) {
    assert!(rt; all_hold(rt.alloc()));
}
