ghost use Rattle.std.specs.Prelude.{◌≡◌, ◌<◌, ℕ, Some, None, is_some, find, length, option_map, slice_set, IfOk, OnOk, MatchOption, MatchResult, ◌≢◌, option_and_then, slice_get, ◌||◌, position, IfSome, map, ◌==◌};
ghost use Rattle.std.specs.Option.{option_copied};
ghost use Rattle.thor_value.specs.FiniteMap.{has};
ghost use Rattle.thor_value.specs.Names.{same_oref};
ghost use Rattle.class_defs.specs.Applied.{number_of};
ghost use Rattle.class_defs.specs.Objects as spec;
ghost use Rattle.class_defs.specs.Objects.{seen, touch, field_at, field_value, named_value, take_name, create, repo_for};
ghost use Rattle.class_defs.specs.Steps as steps;
ghost use Rattle.class_defs.specs.Types as types;
ghost use Rattle.method_eval.specs.Does.{Does};
ghost use Rattle.method_eval.specs.Viewed.{new_of, reading};

use crate::halt::Halt;
use crate::steps::fault;
use crate::types::{field_type, local_named, root_named, type_named};
use crate::world::{Program, World};
use class_defs::{
    At, CREATE_LIMIT, Fields, Machine, NameSupply, Object, READ_LIMIT, STAND_IN_LIMIT, Stop,
    beginning, class_named, fitted,
};
use thor_value::{Fault, NoMemory, Obj, Oref, Orefs, Sequence, TryCopy, Value, Values, Word};

/// The value of a local, a parameter or a root.
#[tactic(auto, unfolding(class_defs::specs::Objects::named_value))]
pub fn named_value(program: &Program<'_>, machine: &Machine, name: &Word) -> Value
    ensures { result ≡ named_value program.now.schema.now machine.now name.now }
{
    match local_named(machine, name) {
        Some(local) => local.value,
        None => match root_named(program, machine, name) {
            Some(root) => Value::Ref(root.oref),
            None => Value::Null,
        },
    }
}

/// The number of the last upgrade that names a class.
pub fn last_upgrade(program: &Program<'_>, class: u16) -> u32
    ensures { result ≡ number_of program.now.schema.now.upgraded class }
{
    match program.schema.upgraded.get(class as usize) {
        Some(number) => *number,
        None => 0,
    }
}

/// An object at hand, as it is stored; one that is due is not at hand.
fn at_hand<'a>(world: &World<'a>, oref: Oref) -> Option<&'a Obj>
    ensures { option_map (λ o. record { class = o.now.class; fields = o.now.fields }) result ≡ (reading world.now).at_hand oref }
{
    match world.objects.get(oref) {
        Some(obj) => {
            if obj.ver < last_upgrade(&world.program, obj.class) {
                None
            } else {
                Some(obj)
            }
        }
        None => None,
    }
}

/// The class of an object as the transaction sees it.
#[tactic(auto, unfolding(class_defs::specs::Objects::seen))]
fn seen_class(world: &World<'_>, machine: &Machine, oref: Oref) -> Option<u16>
    ensures { result ≡ option_map (λ o. o.class) (seen (reading world.now) machine.now oref) }
{
    match machine.writes.get(oref) {
        Some(object) => Some(object.class),
        None => match at_hand(world, oref) {
            Some(obj) => Some(obj.class),
            None => None,
        },
    }
}

/// A field of an object, where the class has the field and the object its value.
pub fn field_at(fields: &Values, index: Option<usize>) -> Option<Value>
    ensures { result ≡ option_and_then (λ i. slice_get fields.now i) index }
{
    match index {
        Some(index) => match fields.get(index) {
            Some(value) => Some(*value),
            None => None,
        },
        None => None,
    }
}

/// A field of an object as the transaction sees it.
#[tactic(auto, unfolding(class_defs::specs::Objects::seen))]
fn seen_field(
    world: &World<'_>,
    machine: &Machine,
    oref: Oref,
    index: Option<usize>,
) -> Option<Value>
    ensures { result ≡ spec.field_at (seen (reading world.now) machine.now oref) index }
{
    match machine.writes.get(oref) {
        Some(object) => field_at(&object.fields, index),
        None => match at_hand(world, oref) {
            Some(obj) => field_at(&obj.fields, index),
            None => None,
        },
    }
}

/// An object as the transaction sees it.
#[tactic(auto, unfolding(class_defs::specs::Objects::seen))]
fn seen_copy(world: &World<'_>, machine: &Machine, oref: Oref) -> Result<Option<Object>, NoMemory>
    ensures { IfOk result (λ object. object ≡ seen (reading world.now) machine.now oref) }
{
    match machine.writes.get(oref) {
        Some(object) => Ok(Some(object.copy()?)),
        None => match at_hand(world, oref) {
            Some(obj) => Ok(Some(Object {
                class: obj.class,
                fields: obj.fields.copy()?,
            })),
            None => Ok(None),
        },
    }
}

/// The place of a field among those of its class.
pub fn field_named(program: &Program<'_>, class: u16, name: &Word) -> Option<usize>
    ensures { result ≡ types.field_named program.now.schema.now.classes class name.now }
{
    match program.schema.classes.get(class as usize) {
        Some(found) => class_defs::field_named(&found.fields, name),
        None => None,
    }
}

pub fn same_oref(first: Oref, second: Oref) -> bool
    ensures { result ≡ same_oref first second }
{
    first.cmp(&second).is_eq()
}

fn find_created(machine: &Machine, oref: Oref) -> Option<&Oref>
    ensures { option_copied result ≡ find (same_oref oref) machine.now.created }
{
    let created = machine.created.as_slice();
    created.iter().find(|made| same_oref(oref, **made))
}

/// Whether the transaction has made the object.
fn is_created(machine: &Machine, oref: Oref) -> bool
    ensures { result ≡ is_some (find (same_oref oref) machine.now.created) }
{
    match find_created(machine, oref) {
        Some(_) => true,
        None => false,
    }
}

/// Whether the transaction has read the object before, or made it.
pub fn is_known(machine: &Machine, oref: Oref) -> bool
    ensures { result ≡ (has machine.now.reads oref || is_some (find (same_oref oref) machine.now.created)) }
{
    machine.reads.contains(oref) || is_created(machine, oref)
}

/// The class that was found, or the object is needed.
pub fn class_found(found: Option<u16>, oref: Oref, owners: &Orefs) -> Result<u16, Halt>
    ensures { MatchResult result (λ class. found ≡ Some class) (λ halt. halt ≢ Halt.NoMemory → (found ≡ None) × (halt ≡ Halt.Stopped (Stop.Need oref owners.now))) }
{
    match found {
        Some(class) => Ok(class),
        None => Err(Halt::Stopped(Stop::Need {
            oref,
            owners: owners.copy()?,
        })),
    }
}

/// An object becomes a receiver, and gives its class.
///
/// One more than the limit of objects that the transaction didn't create is the fault Large, before it
/// is looked whether the object is at hand.
#[tactic(auto, unfolding(class_defs::specs::Objects::touch))]
pub fn touch(
    world: &World<'_>,
    machine: &mut Machine,
    owners: &Orefs,
    oref: Oref,
) -> Result<u16, Halt>
    ensures does { Does result machine.new (touch (reading world.now) owners.now oref machine.old) }
    ensures depth { machine.new.depth ≡ machine.old.depth }
{
    if is_known(machine, oref) {
        return class_found(seen_class(world, machine, oref), oref, owners);
    }
    if machine.reads.len() >= READ_LIMIT {
        return fault(Fault::Large);
    }
    let class = class_found(seen_class(world, machine, oref), oref, owners)?;
    machine.reads.insert(oref)?;
    Ok(class)
}

/// `this.name`.
#[tactic(auto, unfolding(class_defs::specs::Objects::field_value))]
pub fn field_value(world: &World<'_>, machine: &Machine, name: &Word) -> Value
    ensures { result ≡ field_value (reading world.now) machine.now name.now }
{
    match &machine.this {
        Some(this) => {
            let kind = field_type(&world.program, machine, name);
            let index = field_named(&world.program, this.class, name);
            match seen_field(world, machine, this.oref, index) {
                Some(value) => fitted(kind, value),
                None => beginning(kind),
            }
        }
        None => Value::Null,
    }
}

pub fn set_field(fields: &mut Values, index: usize, value: Value)
    ensures { fields.new ≡ slice_set fields.old index value }
{
    if index < fields.len() {
        fields.set(index, value);
    }
}

/// `this.name = value`.
#[tactic(auto, unfolding(class_defs::specs::Objects::assign_field))]
pub fn assign_field(
    world: &World<'_>,
    machine: &mut Machine,
    name: &Word,
    value: Value,
) -> Result<(), NoMemory>
    ensures { OnOk result (machine.new ≡ spec.assign_field (reading world.now) name.now value machine.old) }
{
    let (oref, class) = match &machine.this {
        Some(this) => (this.oref, this.class),
        None => return Ok(()),
    };
    let index = field_named(&world.program, class, name);
    match (seen_copy(world, machine, oref)?, index) {
        (Some(mut object), Some(index)) => {
            set_field(&mut object.fields, index, value);
            machine.writes.insert(oref, object)
        }
        (_, _) => Ok(()),
    }
}

/// The repository in which a new object lies.
pub fn repo_for(machine: &Machine, at: Option<At>) -> u8
    ensures { result ≡ repo_for machine.now.this at }
{
    match &machine.this {
        Some(this) => this.oref.repo,
        None => match at {
            Some(at) => at.number.min(255) as u8,
            None => 0,
        },
    }
}

/// A stand-in name, counted from 0: one of repository 255.
pub fn stand_in_name(count: u64) -> Oref
    requires { count < STAND_IN_LIMIT }
    ensures { result ≡ spec.stand_in_name count }
{
    Oref {
        repo: 255,
        page: (count / 256) as u32,
        slot: (count % 256) as u8,
    }
}

fn stand_in(names: &mut NameSupply) -> Option<Oref>
    ensures { MatchOption result ((spec.stand_in_from names.old names.old.stand_in ≡ None) × (names.new ≡ names.old)) (λ x. spec.stand_in_from names.old names.old.stand_in ≡ Some (x, names.new)) }
{
    match names.stand_in {
        Some(count) if count < STAND_IN_LIMIT => {
            names.stand_in = Some(count + 1);
            Some(stand_in_name(count))
        }
        _ => None,
    }
}

/// The next name for a new object in a repository.
#[tactic(auto, unfolding(class_defs::specs::Objects::take_name))]
fn take_name(names: &mut NameSupply, repo: u8) -> Option<Oref>
    ensures { MatchOption result ((take_name repo names.old ≡ None) × (names.new ≡ names.old)) (λ x. take_name repo names.old ≡ Some (x, names.new)) }
{
    match waiting_place(&names.waiting, repo) {
        Some(place) => Some(names.waiting.remove(place)),
        None => stand_in(names),
    }
}

fn waiting_place(waiting: &Orefs, repo: u8) -> Option<usize>
    ensures place { result ≡ position (λ y. y.repo == repo) waiting.now }
    ensures within { IfSome result (λ place. place < length waiting.now) }
{
    waiting.as_slice().iter().position(|name| name.repo == repo)
}

/// An object of a class as it begins.
#[tactic(auto, unfolding(class_defs::specs::Objects::new_object))]
pub fn new_object(program: &Program<'_>, class: u16) -> Result<Object, NoMemory>
    ensures { IfOk result (λ object. object ≡ new_of program.now.schema.now class) }
{
    let mut fields = Sequence::new(program.alloc);
    if let Some(found) = program.schema.classes.get(class as usize) {
        fields = beginnings(program, &found.fields)?;
    }
    Ok(Object { class, fields })
}

fn beginnings(program: &Program<'_>, declared: &Fields) -> Result<Values, NoMemory>
    ensures { IfOk result (λ fields. fields ≡ map (λ f. steps.beginning (types.type_named program.now.schema.now.classes f.type_name)) declared.now) }
{
    let mut fields = Sequence::new(program.alloc);
    for field in declared.as_slice() {
        fields.push(beginning(type_named(program, &field.type_name)))?;
    }
    Ok(fields)
}

/// `new`. One more than the limit of new objects is the fault Large, before a name is asked for.
#[tactic(auto, unfolding(class_defs::specs::Objects::create))]
pub fn create(
    world: &World<'_>,
    machine: &mut Machine,
    class: &Word,
    at: Option<At>,
) -> Result<Value, Halt>
    ensures { Does result machine.new (create (reading world.now) class.now at machine.old) }
{
    let repo = repo_for(machine, at);
    match class_named(&world.program.schema.classes, class) {
        Some(class) => make(world, machine, class, repo),
        None => Ok(Value::Null),
    }
}

#[tactic(auto, unfolding(class_defs::specs::Objects::new_object))]
fn make(world: &World<'_>, machine: &mut Machine, class: u16, repo: u8) -> Result<Value, Halt>
    ensures { Does result machine.new (spec.create_in (reading world.now) repo (Some class) machine.old) }
{
    if machine.created.len() >= CREATE_LIMIT {
        return fault(Fault::Large);
    }
    let object = new_object(&world.program, class)?;
    match take_name(&mut machine.names, repo) {
        Some(oref) => {
            machine.writes.insert(oref, object)?;
            machine.created.push(oref)?;
            Ok(Value::Ref(oref))
        }
        None => Err(Halt::Stopped(Stop::NeedName { repo })),
    }
}
