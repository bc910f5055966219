//! Histories that are replayed, and entries that aren't legal.

ghost use Rattle.std.specs.Prelude.{IfOk, OnOk};
ghost use Rattle.thor_value.specs.FiniteMap.{IsSorted};

use crate::bringing::{classes, upgrade};
use class_defs::{
    Block, Epochs, Object, Plain, PlainObjects, RootDeclarations, Roots, Schema, Schemas,
    UpgradedSchema, UpgradedSchemas,
};
use method_parse::parse_block;
use script_text::scan;
use serial_model::{Did, Dids, ReplayError, What, are_made, replay, upgrade_store};
use std::alloc::Global;
use thor_value::{Answer, Ints, NoMemory, Oref, Orefs, Ts, Value, Values, Who};

/// The class, the upgrade of it, and the class behind that.
const BOX: &[u8] = b"free class Box { int n; Box next; }";

const SHIFT: &[u8] = b"upgrade { class Box { int n = old.next.n; } }";

const SHIFTED: &[u8] = b"free class Box { int n; }";

/// The class of a text, last upgraded in an epoch.
fn schema(alloc: Global, text: &[u8], number: u32) -> Option<Schema> {
    let upgraded = Epochs::from_slice(alloc, &[number]).ok()?;
    Some(Schema {
        classes: classes(alloc, text)?,
        upgraded,
        roots: RootDeclarations::new(alloc),
    })
}

/// The upgrade with the schema behind it.
fn shifted(alloc: Global) -> Option<UpgradedSchema> {
    let upgrade = upgrade(alloc, SHIFT)?;
    let schema = schema(alloc, SHIFTED, 1)?;
    Some(UpgradedSchema { upgrade, schema })
}

fn upgrades(alloc: Global) -> Option<UpgradedSchemas> {
    let one = shifted(alloc)?;
    let mut upgrades = UpgradedSchemas::new(alloc);
    match upgrades.push(one) {
        Ok(()) => Some(upgrades),
        Err(_) => None,
    }
}

/// The schema before that upgrade, and behind it.
fn schemas(alloc: Global) -> Option<Schemas> {
    let first = schema(alloc, BOX, 0)?;
    let upgraded = upgrades(alloc)?;
    Some(Schemas { first, upgraded })
}

fn slot(slot: u8) -> Oref {
    Oref {
        repo: 0,
        page: 0,
        slot,
    }
}

fn object(alloc: Global, n: i64, next: Value) -> Result<Object, NoMemory> {
    let fields = Values::from_slice(alloc, &[Value::Int(n), next])?;
    Ok(Object { class: 0, fields })
}

/// Puts an object into a map.
fn put(objects: &mut PlainObjects, oref: Oref, object: Object) -> Result<(), NoMemory>
    ensures { IsSorted objects.old → OnOk result (IsSorted objects.new) }
{
    objects.insert(oref, object)
}

/// Two objects, 3 and behind it 5.
fn store(alloc: Global) -> Result<Plain, NoMemory>
    ensures { IfOk result (λ store. IsSorted store.objects) }
{
    let mut objects = PlainObjects::new(alloc);
    put(
        &mut objects,
        slot(0),
        object(alloc, 3, Value::Ref(slot(1)))?,
    )?;
    put(&mut objects, slot(1), object(alloc, 5, Value::Null)?)?;
    Ok(Plain {
        objects,
        epoch: 0,
        roots: Roots::new(alloc),
    })
}

/// An entry as a table has it.
enum Entry {
    /// A transaction that prints 7 at a time, is said to have printed this, and to have created these objects.
    Tx(u64, i64, &'static [Oref]),
    /// The upgrade at a time, as one with this number.
    Upgrade(u64, u32),
}

fn block(alloc: Global, text: &[u8]) -> Option<Block> {
    if 1_000_000 < text.len() {
        return None;
    }
    let tokens = scan(alloc, text).ok()?;
    parse_block(alloc, &tokens).ok()
}

fn tx(alloc: Global, creates: usize) -> Option<What> {
    let text: &[u8] = if creates == 0 {
        b"{ print 7; }"
    } else if creates == 1 {
        b"{ print 7; new Box(); }"
    } else {
        b"{ print 7; new Box(); new Box(); }"
    };
    Some(What::Tx(block(alloc, text)?))
}

fn did(what: What, time: u64, number: u32, fresh: Orefs, answer: Ints) -> Did {
    Did {
        ts: Ts {
            time,
            repo: 0,
            life: 1,
        },
        who: Who {
            client: 1,
            index: 1,
        },
        what,
        number,
        fresh,
        answer: Answer::Ints(answer),
    }
}

fn did_of(alloc: Global, entry: &Entry) -> Option<Did> {
    match entry {
        Entry::Tx(time, printed, fresh) => {
            let answer = Ints::from_slice(alloc, &[*printed]).ok()?;
            let created = Orefs::from_slice(alloc, fresh).ok()?;
            let what = tx(alloc, fresh.len())?;
            Some(did(what, *time, 0, created, answer))
        }
        Entry::Upgrade(time, number) => {
            let what = What::Upgrade(upgrade(alloc, SHIFT)?);
            let fresh = Orefs::new(alloc);
            Some(did(what, *time, *number, fresh, Ints::new(alloc)))
        }
    }
}

fn history_of(alloc: Global, entries: &[Entry]) -> Option<Dids> {
    let mut history = Dids::new(alloc);
    for entry in entries {
        history.push(did_of(alloc, entry)?).ok()?;
    }
    Some(history)
}

/// The first number of the first object, -1 where there is none.
fn first_number(store: &Plain) -> i64 {
    match store.objects.get(slot(0)) {
        Some(object) => match object.fields.get(0) {
            Some(Value::Int(n)) => *n,
            _ => -1,
        },
        None => -1,
    }
}

/// What a replay tells: how many objects there are behind the history and the first number of the first one; or
/// which entry isn't legal.
type Told = Result<(usize, i64), usize>;

fn told_from(alloc: Global, history: &Dids, store: &Plain, schemas: &Schemas) -> Option<Told>
    requires { IsSorted store.now.objects }
{
    if !are_made(schemas) {
        return None;
    }
    match replay(alloc, history, store, schemas) {
        Ok(behind) => Some(Ok((behind.objects.len(), first_number(&behind)))),
        Err(ReplayError::NotLegal { index }) => Some(Err(index)),
        Err(ReplayError::NoMemory) => None,
    }
}

/// What a replay from the two objects tells.
fn replayed(alloc: Global, history: &Dids, schemas: &Schemas) -> Option<Told> {
    match store(alloc) {
        Ok(store) => told_from(alloc, history, &store, schemas),
        Err(_) => None,
    }
}

/// What a replay of these entries tells.
fn told(alloc: Global, entries: &[Entry], schemas: &Schemas) -> Option<Told> {
    let history = history_of(alloc, entries)?;
    replayed(alloc, &history, schemas)
}

/// Histories, and what a replay of each tells.
type Row = (&'static [Entry], Told);

fn holds(alloc: Global, rows: &[Row], schemas: &Schemas) -> bool {
    for (entries, wanted) in rows {
        if told(alloc, entries, schemas) != Some(*wanted) {
            return false;
        }
    }
    true
}

/// Whether each row comes out as it says.
fn all_hold(alloc: Global, rows: &[Row]) -> bool {
    match schemas(alloc) {
        Some(schemas) => holds(alloc, rows, &schemas),
        None => false,
    }
}

const CREATED: Oref = Oref {
    repo: 0,
    page: 0,
    slot: 2,
};

const TAKEN: Oref = Oref {
    repo: 0,
    page: 0,
    slot: 1,
};

const LEGAL: &[Row] = &[
    (&[], Ok((2, 3))),
    (
        &[
            Entry::Tx(7, 7, &[]),
            Entry::Upgrade(8, 1),
            Entry::Tx(9, 7, &[CREATED]),
        ],
        Ok((3, 5)),
    ),
];

const NOT_LEGAL: &[Row] = &[
    // An upgrade with no schema behind it.
    (
        &[
            Entry::Tx(7, 7, &[]),
            Entry::Upgrade(8, 1),
            Entry::Tx(9, 7, &[CREATED]),
            Entry::Upgrade(10, 2),
        ],
        Err(3),
    ),
    // A wrong answer, a time that comes twice, a name that is taken.
    (&[Entry::Tx(7, 7, &[]), Entry::Tx(8, 6, &[])], Err(1)),
    (&[Entry::Tx(7, 7, &[]), Entry::Tx(7, 7, &[])], Err(1)),
    (&[Entry::Tx(7, 7, &[TAKEN])], Err(0)),
    // The third time is below the second, and one name is given twice.
    (
        &[
            Entry::Tx(7, 7, &[]),
            Entry::Tx(9, 7, &[]),
            Entry::Tx(8, 7, &[]),
        ],
        Err(2),
    ),
    (&[Entry::Tx(7, 7, &[CREATED, CREATED])], Err(0)),
];

#[test]
fn histories_are_replayed(rt: HostRuntime) {
    assert!(rt; all_hold(rt.alloc(), LEGAL));
}

#[test]
fn entries_that_are_not_legal_are_found(rt: HostRuntime) {
    assert!(rt; all_hold(rt.alloc(), NOT_LEGAL));
}

/// The store behind the upgrade.
fn upgraded(alloc: Global, schemas: &Schemas) -> Option<Plain> {
    let next = schemas.upgraded.get(0)?;
    if next.schema.classes.len() > 1 {
        return None;
    }
    let store = store(alloc).ok()?;
    if store.epoch > 0 {
        return None;
    }
    upgrade_store(
        alloc,
        &schemas.first.classes,
        &next.schema.classes,
        &next.upgrade,
        &store,
    )
    .ok()
}

/// The epoch of the store behind the upgrade, how many objects it has, and the first number of the first one.
fn behind(alloc: Global) -> Option<(u32, usize, i64)> {
    let schemas = schemas(alloc)?;
    let store = upgraded(alloc, &schemas)?;
    Some((store.epoch, store.objects.len(), first_number(&store)))
}

#[test]
fn stores_are_upgraded(rt: HostRuntime) {
    assert!(rt; behind(rt.alloc()) == Some((1, 2, 5)));
}
