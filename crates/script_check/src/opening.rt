ghost use Rattle.std.specs.Prelude.{◌≡◌, ◌<◌, ◌≤◌, ◌^◌, List, [], map, length, IfOk};
ghost use Rattle.class_defs.specs.Types as types;
ghost use Rattle.class_defs.specs.Types.{type_named};
ghost use Rattle.class_defs.specs.Steps as steps;
ghost use Rattle.class_defs.specs.declared.classes.Class.{Class};
ghost use Rattle.thor_value.specs.FiniteMap.{IsSorted, empty, overwrite};
ghost use Rattle.script_check.specs.Opened as spec;

use class_defs::{
    Declarations, Epochs, Fields, Object, Plain, PlainObjects, Root, RootDeclaration,
    RootDeclarations, Roots, Schema, WrittenRoot, class_named, first_value,
};
use std::alloc::Global;
use thor_value::{NoMemory, Oref, Text, TryCopy, Values};

/// The repository in which a root lies: that behind `at`, and 0 where it isn't told.
fn home_of(root: &WrittenRoot) -> u8
    ensures { result ≡ spec.home_of root.now }
{
    match root.at {
        Some(at) if at.number < 256 => at.number as u8,
        _ => 0,
    }
}

/// How many of these roots lie in a repository.
#[tactic(auto, using(crate::proofs::Extending::filter_short))]
fn count_in(home: u8, roots: &[WrittenRoot]) -> usize
    ensures count { result ≡ spec.count_in home roots.now }
    ensures few { result ≤ length roots.now }
{
    roots.iter().filter(|root| home_of(root) == home).count()
}

/// A root behind others, with its object's name: the roots of a repository take the slots of its pages 0, 1, ..
fn placed(before: &[WrittenRoot], root: &WrittenRoot) -> Result<RootDeclaration, NoMemory>
    requires { length before.now < 2 ^ 32 }
    ensures { IfOk result (λ placed. placed ≡ spec.placed before.now root.now) }
{
    let home = home_of(root);
    let n = count_in(home, before);
    Ok(RootDeclaration {
        name: root.name.copy()?,
        class: root.class.copy()?,
        at: root.at,
        oref: Oref {
            repo: home,
            page: (n / 12) as u32,
            slot: (n % 12) as u8,
        },
    })
}

fn placed_roots(alloc: Global, roots: &[WrittenRoot]) -> Result<RootDeclarations, NoMemory>
    requires { length roots.now < 2 ^ 32 }
    ensures { IfOk result (λ placed. placed ≡ spec.placed_behind [] roots.now) }
{
    let mut done = RootDeclarations::new(alloc);
    for place in 0..roots.len() {
        done.push(placed(roots.split_at(place).0, &roots[place])?)?;
    }
    Ok(done)
}

/// The schema of a setup, before any upgrade.
pub fn schema_of(alloc: Global, setup: &Declarations) -> Result<Schema, NoMemory>
    requires { length setup.now.roots < 2 ^ 32 }
    ensures { IfOk result (λ schema. schema ≡ spec.schema_of setup.now) }
{
    Ok(Schema {
        classes: setup.classes.copy()?,
        upgraded: Epochs::new(alloc),
        roots: placed_roots(alloc, setup.roots.as_slice())?,
    })
}

fn beginnings(alloc: Global, schema: &Schema, fields: &Fields) -> Result<Values, NoMemory>
    requires { length schema.now.classes ≤ 65536 }
    ensures { IfOk result (λ values. values ≡ map (λ f. steps.beginning (type_named schema.now.classes f.type_name)) fields.now) }
{
    let mut values = Values::new(alloc);
    for field in fields.as_slice() {
        values.push(first_value(&schema.classes, &field.type_name))?;
    }
    Ok(values)
}

fn class_of(schema: &Schema, root: &RootDeclaration) -> u16
    requires { length schema.now.classes ≤ 65536 }
    ensures { result ≡ spec.class_of schema.now root.now }
{
    match class_named(&schema.classes, &root.class.text) {
        Some(class) => class,
        None => 0,
    }
}

fn fields_of(alloc: Global, schema: &Schema, class: u16) -> Result<Values, NoMemory>
    requires { length schema.now.classes ≤ 65536 }
    ensures { IfOk result (λ values. values ≡ map (λ f. steps.beginning (type_named schema.now.classes f.type_name)) (types.fields_of schema.now.classes class)) }
{
    match schema.classes.get(class as usize) {
        Some(found) => beginnings(alloc, schema, &found.fields),
        None => Ok(Values::new(alloc)),
    }
}

/// A root's object as it begins.
fn root_object(alloc: Global, schema: &Schema, root: &RootDeclaration) -> Result<Object, NoMemory>
    requires { length schema.now.classes ≤ 65536 }
    ensures { IfOk result (λ object. object ≡ (spec.root_object schema.now root.now).1) }
{
    let class = class_of(schema, root);
    Ok(Object {
        class,
        fields: fields_of(alloc, schema, class)?,
    })
}

/// The objects of the roots as they begin.
fn root_objects(alloc: Global, schema: &Schema) -> Result<PlainObjects, NoMemory>
    requires { length schema.now.classes ≤ 65536 }
    ensures objects { IfOk result (λ objects. objects ≡ overwrite empty (map (spec.root_object schema.now) schema.now.roots)) }
    ensures sorted { IfOk result (λ objects. IsSorted objects) }
{
    let mut objects = PlainObjects::new(alloc);
    for root in schema.roots.as_slice() {
        objects.insert(root.oref, root_object(alloc, schema, root)?)?;
    }
    Ok(objects)
}

/// The roots of a setup, each with the number of its class.
pub fn roots_of(alloc: Global, schema: &Schema) -> Result<Roots, NoMemory>
    requires { length schema.now.classes ≤ 65536 }
    ensures { IfOk result (λ roots. roots ≡ spec.roots_of schema.now) }
{
    let mut roots = Roots::new(alloc);
    for root in schema.roots.as_slice() {
        roots.push(Root {
            name: Text::from_slice(alloc, root.name.text.bytes())?,
            class: class_of(schema, root),
            oref: root.oref,
        })?;
    }
    Ok(roots)
}

/// The store with which a fresh store opens, by the schema of its setup.
#[tactic(auto, unfolding(crate::specs::Opened::opened))]
pub fn opened_store(alloc: Global, schema: &Schema) -> Result<Plain, NoMemory>
    requires { length schema.now.classes ≤ 65536 }
    ensures store { IfOk result (λ store. store ≡ spec.opened schema.now) }
    ensures sorted { IfOk result (λ store. IsSorted store.objects) }
{
    Ok(Plain {
        objects: root_objects(alloc, schema)?,
        epoch: 0,
        roots: roots_of(alloc, schema)?,
    })
}
