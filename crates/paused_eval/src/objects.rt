ghost use Rattle.std.specs.Prelude.{◌≡◌, ◌<◌, ℕ, Option, Some, None, IfOk, OnOk, OnSome, option_and_then, option_map, slice_get};
ghost use Rattle.std.specs.Option.{option_copied};
ghost use Rattle.thor_value.specs.FiniteMap.{insert};
ghost use Rattle.class_defs.specs.Objects as spec;
ghost use Rattle.class_defs.specs.Objects.{field_value, touch};
ghost use Rattle.class_defs.specs.Stored.{bare};
ghost use Rattle.class_defs.specs.Types.{fields_of, typed};
ghost use Rattle.client_cache.specs.Copies.{seen as seen_in};
ghost use Rattle.method_eval.specs.Does.{Does};
ghost use Rattle.lang_small_steps.specs.Reaches.{over};
ghost use Rattle.paused_eval.specs.Copies.{Keeps, Tied, at_hand, seen_now, state, whole_state, written_in};
ghost use Rattle.paused_eval.specs.Does.{AtNeed, Holds};
ghost use Rattle.paused_eval.specs.FromPages.{FromPages};

use class_defs::{
    At, CREATE_LIMIT, ExprType, Machine, Object, READ_LIMIT, Stop, beginning, class_named, fitted,
};
use client_cache::{Cache, Looked};
use method_eval::{
    Halt, Names, Program, class_found, fault, field_at, field_named, is_known, last_upgrade,
    names_are_given_as_they_are_taken, new_object, repo_for, set_field, type_named,
};
use thor_value::{Fault, NoMemory, Obj, Oref, Orefs, SLOTS, TryCopy, Value, Word};

/// What the cache has of an object now.
#[tactic(auto, using(crate::proofs::Hands::not_held))]
pub fn found(cache: &Cache, oref: Oref) -> Option<&Obj>
    ensures { option_copied result ≡ seen_in cache.now oref }
{
    match cache.look(oref) {
        Looked::Here(obj) => Some(obj),
        Looked::NoPage => None,
        Looked::NoSlot => None,
    }
}

/// An object as the run sees it: as it has written it, else the copy, where that isn't due.
fn seen<'a>(program: &Program<'_>, cache: &'a Cache, oref: Oref) -> Option<&'a Obj>
    ensures seen { option_map (λ o. bare o.now) result ≡ seen_now program.now.schema.now cache.now oref }
    ensures within { OnSome result (oref.slot < 12) }
{
    if oref.slot >= SLOTS {
        return None;
    }
    match found(cache, oref) {
        Some(obj) => {
            if obj.ver < last_upgrade(program, obj.class) && !cache.is_written(oref) {
                None
            } else {
                Some(obj)
            }
        }
        None => None,
    }
}

#[tactic(auto, using(crate::proofs::Hands::seen_is))]
fn seen_class(program: &Program<'_>, cache: &Cache, machine: &Machine, oref: Oref) -> Option<u16>
    requires tied { Tied cache.now }
    ensures { result ≡ option_map (λ o. o.class) (spec.seen (over program.now.schema.now (at_hand program.now.schema.now cache.now)) (state machine.now cache.now) oref) }
{
    let _ = machine;
    match seen(program, cache, oref) {
        Some(obj) => Some(obj.class),
        None => None,
    }
}

/// A field of an object as the run sees it.
#[tactic(auto, using(crate::proofs::Hands::seen_is))]
fn seen_field(
    program: &Program<'_>,
    cache: &Cache,
    machine: &Machine,
    oref: Oref,
    index: Option<usize>,
) -> Option<Value>
    requires tied { Tied cache.now }
    ensures { result ≡ spec.field_at (spec.seen (over program.now.schema.now (at_hand program.now.schema.now cache.now)) (state machine.now cache.now) oref) index }
{
    let _ = machine;
    match seen(program, cache, oref) {
        Some(obj) => field_at(&obj.fields, index),
        None => None,
    }
}

/// An object as the run sees it.
#[tactic(auto, using(crate::proofs::Hands::seen_is))]
fn seen_copy(
    program: &Program<'_>,
    cache: &Cache,
    machine: &Machine,
    oref: Oref,
) -> Result<Option<Object>, NoMemory>
    requires tied { Tied cache.now }
    ensures seen { IfOk result (λ object. object ≡ spec.seen (over program.now.schema.now (at_hand program.now.schema.now cache.now)) (state machine.now cache.now) oref) }
    ensures within { IfOk result (λ object. OnSome object (oref.slot < 12)) }
{
    let _ = machine;
    match seen(program, cache, oref) {
        Some(obj) => Ok(Some(Object {
            class: obj.class,
            fields: obj.fields.copy()?,
        })),
        None => Ok(None),
    }
}

/// The page of an object is used.
#[tactic(auto, using(crate::proofs::Hands::same_hands, crate::proofs::Hands::same_state, crate::proofs::Hands::same_tied))]
fn use_page(program: &Program<'_>, cache: &mut Cache, machine: &Machine, oref: Oref)
    requires tied { Tied cache.old }
    ensures hands { at_hand program.now.schema.now cache.new ≡ at_hand program.now.schema.now cache.old }
    ensures state { state machine.now cache.new ≡ state machine.now cache.old }
    ensures tied { Tied cache.new }
    ensures kept { Keeps cache.old cache.new }
{
    let _alloc = program.alloc;
    cache.bring_forward(oref);
}

/// An object that is at hand becomes a receiver. Its page is used where it is looked at for the first time.
#[tactic(auto, unfolding(class_defs::specs::Objects::touch))]
fn touched(
    program: &Program<'_>,
    cache: &mut Cache,
    machine: &mut Machine,
    owners: &Orefs,
    oref: Oref,
    class: u16,
) -> Result<u16, Halt>
    requires tied { Tied cache.old }
    requires seen { option_map (λ o. o.class) (spec.seen (over program.now.schema.now (at_hand program.now.schema.now cache.old)) (state machine.old cache.old) oref) ≡ Some class }
    ensures does { Does result (state machine.new cache.new) (touch (over program.now.schema.now (at_hand program.now.schema.now cache.old)) owners.now oref (state machine.old cache.old)) }
    ensures stays { AtNeed result (state machine.new cache.new ≡ state machine.old cache.old) }
    ensures tied { Tied cache.new }
    ensures kept { Keeps cache.old cache.new }
    ensures depth { machine.new.depth ≡ machine.old.depth }
    ensures steps { machine.new.steps ≡ machine.old.steps }
{
    let _owners = owners;
    if is_known(machine, oref) {
        return Ok(class);
    }
    if machine.reads.len() >= READ_LIMIT {
        return fault(Fault::Large);
    }
    use_page(program, cache, machine, oref);
    machine.reads.insert(oref)?;
    Ok(class)
}

/// An object that isn't at hand is needed, and its page is used. It isn't looked for among the objects read where there is
/// room for one more.
#[tactic(auto, unfolding(class_defs::specs::Objects::touch))]
fn missing(
    program: &Program<'_>,
    cache: &mut Cache,
    machine: &Machine,
    owners: &Orefs,
    oref: Oref,
) -> Result<u16, Halt>
    requires tied { Tied cache.old }
    requires seen { option_map (λ o. o.class) (spec.seen (over program.now.schema.now (at_hand program.now.schema.now cache.old)) (state machine.now cache.old) oref) ≡ None }
    ensures does { Does result (state machine.now cache.old) (touch (over program.now.schema.now (at_hand program.now.schema.now cache.old)) owners.now oref (state machine.now cache.old)) }
    ensures state { state machine.now cache.new ≡ state machine.now cache.old }
    ensures tied { Tied cache.new }
    ensures kept { Keeps cache.old cache.new }
{
    if machine.reads.len() < READ_LIMIT {
        use_page(program, cache, machine, oref);
        return class_found(None, oref, owners);
    }
    if is_known(machine, oref) {
        return class_found(None, oref, owners);
    }
    fault(Fault::Large)
}

/// An object becomes a receiver, and gives its class. Its page is used where it is looked at for the first time.
///
/// One more than the limit of objects that the transaction didn't create is the fault Large, whether the object
/// is at hand or not.
pub fn touch(
    program: &Program<'_>,
    cache: &mut Cache,
    machine: &mut Machine,
    owners: &Orefs,
    oref: Oref,
) -> Result<u16, Halt>
    requires tied { Tied cache.old }
    ensures does { Does result (state machine.new cache.new) (touch (over program.now.schema.now (at_hand program.now.schema.now cache.old)) owners.now oref (state machine.old cache.old)) }
    ensures stays { AtNeed result (state machine.new cache.new ≡ state machine.old cache.old) }
    ensures tied { Tied cache.new }
    ensures kept { Keeps cache.old cache.new }
    ensures depth { machine.new.depth ≡ machine.old.depth }
    ensures steps { machine.new.steps ≡ machine.old.steps }
{
    match seen_class(program, cache, machine, oref) {
        Some(class) => touched(program, cache, machine, owners, oref, class),
        None => missing(program, cache, machine, owners, oref),
    }
}

/// The type of the field at a place of a class.
fn type_at(program: &Program<'_>, class: u16, index: Option<usize>) -> ExprType
    ensures { result ≡ typed program.now.schema.now.classes (option_map (λ f. f.type_name) (option_and_then (λ i. slice_get (fields_of program.now.schema.now.classes class) i) index)) }
{
    match (program.schema.classes.get(class as usize), index) {
        (Some(found), Some(index)) => match found.fields.get(index) {
            Some(field) => type_named(program, &field.type_name),
            None => ExprType::Untold,
        },
        (_, _) => ExprType::Untold,
    }
}

/// The value that was found of a field of this type, or the one with which it begins.
fn fitted_or_beginning(kind: ExprType, found: Option<Value>) -> Value
    ensures { result ≡ spec.fitted_or_beginning kind found }
{
    match found {
        Some(value) => fitted(kind, value),
        None => beginning(kind),
    }
}

/// `this.name`. No page is used.
#[tactic(auto, unfolding(class_defs::specs::Objects::field_value))]
pub fn field_seen(program: &Program<'_>, cache: &Cache, machine: &Machine, name: &Word) -> Value
    requires tied { Tied cache.now }
    ensures value { result ≡ field_value (over program.now.schema.now (at_hand program.now.schema.now cache.now)) (state machine.now cache.now) name.now }
{
    match &machine.this {
        Some(this) => {
            let index = field_named(program, this.class, name);
            let kind = type_at(program, this.class, index);
            let found = seen_field(program, cache, machine, this.oref, index);
            fitted_or_beginning(kind, found)
        }
        None => Value::Null,
    }
}

/// The page of `this` is used, where there is one.
pub fn use_page_of_this(program: &Program<'_>, cache: &mut Cache, machine: &Machine)
    requires tied { Tied cache.old }
    ensures hands { at_hand program.now.schema.now cache.new ≡ at_hand program.now.schema.now cache.old }
    ensures state { state machine.now cache.new ≡ state machine.now cache.old }
    ensures tied { Tied cache.new }
    ensures kept { Keeps cache.old cache.new }
{
    if let Some(this) = &machine.this {
        use_page(program, cache, machine, this.oref);
    }
}

/// `this.name`. The page of `this` is used.
pub fn field_value(
    program: &Program<'_>,
    cache: &mut Cache,
    machine: &Machine,
    name: &Word,
) -> Value
    requires tied { Tied cache.old }
    ensures value { result ≡ field_value (over program.now.schema.now (at_hand program.now.schema.now cache.old)) (state machine.now cache.old) name.now }
    ensures state { state machine.now cache.new ≡ state machine.now cache.old }
    ensures tied { Tied cache.new }
    ensures kept { Keeps cache.old cache.new }
{
    let value = field_seen(program, cache, machine, name);
    use_page_of_this(program, cache, machine);
    value
}

/// Writes an object, in the place of its copy. Its page is used.
#[tactic(auto, using(crate::proofs::Hands::wrote, crate::proofs::Hands::wrote_tied))]
fn write(epoch: u32, cache: &mut Cache, oref: Oref, object: Object) -> Result<(), NoMemory>
    requires slot { oref.slot < 12 }
    requires tied { Tied cache.old }
    ensures writes { OnOk result (written_in cache.new ≡ insert (written_in cache.old) oref object) }
    ensures tied { OnOk result (Tied cache.new) }
    ensures kept { OnOk result (Keeps cache.old cache.new) }
{
    let Object { class, fields } = object;
    let written = Obj {
        class,
        ver: epoch,
        fields,
    };
    cache.write(oref, written)?;
    Ok(())
}

/// `this.name = value`.
#[tactic(auto, unfolding(class_defs::specs::Objects::assign_field))]
pub fn assign_field(
    program: &Program<'_>,
    epoch: u32,
    cache: &mut Cache,
    machine: &mut Machine,
    name: &Word,
    value: Value,
) -> Result<(), NoMemory>
    requires tied { Tied cache.old }
    ensures state { OnOk result (state machine.new cache.new ≡ spec.assign_field (over program.now.schema.now (at_hand program.now.schema.now cache.old)) name.now value (state machine.old cache.old)) }
    ensures tied { OnOk result (Tied cache.new) }
    ensures kept { OnOk result (Keeps cache.old cache.new) }
    ensures steps { machine.new.steps ≡ machine.old.steps }
{
    let (oref, class) = match &machine.this {
        Some(this) => (this.oref, this.class),
        None => return Ok(()),
    };
    let index = field_named(program, class, name);
    match (seen_copy(program, cache, machine, oref)?, index) {
        (Some(mut object), Some(index)) => {
            set_field(&mut object.fields, index, value);
            write(epoch, cache, oref, object)
        }
        (_, _) => Ok(()),
    }
}

/// `new`. One more than the limit of new objects is the fault Large, before a name is asked for.
#[tactic(auto, unfolding(class_defs::specs::Objects::create))]
pub fn create(
    program: &Program<'_>,
    epoch: u32,
    cache: &mut Cache,
    names: &mut Names,
    machine: &mut Machine,
    class: &Word,
    at: Option<At>,
) -> Result<Value, Halt>
    requires tied { Tied cache.old }
    requires names { FromPages names.old }
    ensures does { Does result (whole_state machine.new cache.new names.new) (spec.create (over program.now.schema.now (at_hand program.now.schema.now cache.old)) class.now at (whole_state machine.old cache.old names.old)) }
    ensures stays { AtNeed result (whole_state machine.new cache.new names.new ≡ whole_state machine.old cache.old names.old) }
    ensures tied { Holds result (Tied cache.new) }
    ensures kept { Holds result (Keeps cache.old cache.new) }
    ensures names { FromPages names.new }
    ensures steps { machine.new.steps ≡ machine.old.steps }
{
    let repo = repo_for(machine, at);
    match class_named(&program.schema.classes, class) {
        Some(class) => make(program, epoch, cache, names, machine, class, repo),
        None => Ok(Value::Null),
    }
}

#[tactic(auto, using(crate::proofs::Granted::next_granted, crate::proofs::Granted::next_within), unfolding(class_defs::specs::Objects::new_object))]
fn make(
    program: &Program<'_>,
    epoch: u32,
    cache: &mut Cache,
    names: &mut Names,
    machine: &mut Machine,
    class: u16,
    repo: u8,
) -> Result<Value, Halt>
    requires tied { Tied cache.old }
    requires names { FromPages names.old }
    ensures does { Does result (whole_state machine.new cache.new names.new) (spec.create_in (over program.now.schema.now (at_hand program.now.schema.now cache.old)) repo (Some class) (whole_state machine.old cache.old names.old)) }
    ensures stays { AtNeed result (whole_state machine.new cache.new names.new ≡ whole_state machine.old cache.old names.old) }
    ensures tied { Holds result (Tied cache.new) }
    ensures kept { Holds result (Keeps cache.old cache.new) }
    ensures names { FromPages names.new }
    ensures steps { machine.new.steps ≡ machine.old.steps }
{
    if machine.created.len() >= CREATE_LIMIT {
        return fault(Fault::Large);
    }
    names_are_given_as_they_are_taken();
    let object = new_object(program, class)?;
    match names.next(repo) {
        Some(oref) => {
            write(epoch, cache, oref, object)?;
            machine.created.push(oref)?;
            Ok(Value::Ref(oref))
        }
        None => Err(Halt::Stopped(Stop::NeedName { repo })),
    }
}
