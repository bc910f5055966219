//! The accounts of the generated script.

ghost use Rattle.std.specs.Prelude.{◌≡◌, ◌<◌, IfOk, position};
ghost use Rattle.std.specs.Option.{option_copied};
ghost use Rattle.std.specs.Str.{bytes_eq};
ghost use Rattle.class_defs.specs.Epochs.{classes_of};
ghost use Rattle.class_defs.specs.Upgrades.{field_of_object};
ghost use Rattle.report_summary.specs.Summary as spec;

use class_defs::{Classes, Fields, Object, Plain, Root, Schemas, number};
use lang_upgrade_eval::classes_at;
use std::alloc::Global;
use std::fmt::Write;
use thor_value::{NoMemory, Text, Value};

/// How many accounts there are.
const ACCOUNTS: u8 = 16;

/// The root with this name.
fn root_named<'a>(store: &'a Plain, name: &[u8]) -> Option<&'a Root>
    ensures { option_copied result ≡ spec.root_named store.now name.now }
{
    store
        .roots
        .as_slice()
        .iter()
        .find(|root| root.name.as_slice() == name)
}

/// The object of the root with this name.
fn root_object<'a>(store: &'a Plain, name: &[u8]) -> Option<&'a Object>
    ensures { option_copied result ≡ spec.root_object store.now name.now }
{
    match root_named(store, name) {
        Some(root) => store.objects.get(root.oref),
        None => None,
    }
}

/// The place among its fields of the first field of a class with this name.
fn field_place(fields: &Fields, name: &[u8]) -> Option<usize>
    ensures { result ≡ position (λ f. bytes_eq f.name.text name.now) fields.now }
{
    fields
        .as_slice()
        .iter()
        .position(|field| field.name.text.bytes() == name)
}

/// The field of an object with this name, where its class has one.
fn field_of_object(classes: &Classes, object: &Object, name: &[u8]) -> Option<Value>
    ensures { result ≡ field_of_object classes.now object.now name.now }
{
    match classes.get(object.class as usize) {
        Some(class) => match field_place(&class.fields, name) {
            Some(place) => object.fields.get(place).copied(),
            None => None,
        },
        None => None,
    }
}

/// The field n of the root with this name; 0 where there is none.
fn balance(classes: &Classes, store: &Plain, name: &[u8]) -> i64
    ensures { result ≡ spec.balance classes.now store.now name.now }
{
    match root_object(store, name) {
        Some(object) => match field_of_object(classes, object, b"n") {
            Some(value) => number(value),
            None => 0,
        },
        None => 0,
    }
}

/// The name of the root that is an account, from 0 on.
#[tactic(auto, using(std::proofs::Common::append_assoc))]
fn account_name(alloc: Global, i: u8) -> Result<Text, NoMemory>
    ensures { IfOk result (λ name. name ≡ spec.account_name i) }
{
    let mut out = String::new(alloc);
    write!(out, "a{i}")?;
    Ok(Text::from_vec(out.into_bytes()))
}

/// What the accounts hold together, where a store has these classes.
#[tactic(auto, using(crate::proofs::Sums::sum_next))]
fn sum_of(alloc: Global, classes: &Classes, store: &Plain) -> Result<i64, NoMemory>
    ensures { IfOk result (λ sum. sum ≡ spec.sum_of classes.now store.now 16) }
{
    let mut sum = 0i64;
    for i in 0..ACCOUNTS {
        let name = account_name(alloc, i)?;
        sum = sum.wrapping_add(balance(classes, store, name.as_slice()));
    }
    Ok(sum)
}

/// What the accounts `a0` to `a15` of a store hold together: the wrapping sum of their fields `n`.
pub fn accounts_sum(alloc: Global, schemas: &Schemas, store: &Plain) -> Result<i64, NoMemory>
    ensures { IfOk result (λ sum. sum ≡ spec.accounts_sum (classes_of schemas.now store.now.epoch) store.now) }
{
    let none = Classes::new(alloc);
    sum_of(alloc, classes_at(schemas, store.epoch, &none), store)
}
