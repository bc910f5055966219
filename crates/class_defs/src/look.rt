ghost use Rattle.std.specs.Prelude.{◌≡◌, ◌≤◌, ◌<◌, IfSome, length, find, position};
ghost use Rattle.std.specs.Option.{option_copied};
ghost use Rattle.std.specs.Str.{bytes_eq};
ghost use Rattle.class_defs.specs.Steps.{beginning};
ghost use Rattle.class_defs.specs.Types.{class_named, class_or_untold, class_or_word, field_named, method_of, type_named};

use crate::classes::{Class, Classes, Field, Fields, Method, Methods};
use crate::expressions::{Name, TypeName};
use crate::types::ExprType;
use thor_value::{Value, Word};

fn has_bytes(text: &Word, bytes: &[u8]) -> bool
    ensures { result ≡ bytes_eq text.now bytes.now }
{
    text.bytes() == bytes
}

fn class_place(classes: &Classes, name: &Word) -> Option<usize>
    ensures place { result ≡ position (λ c. bytes_eq c.name.text name.now) classes.now }
    ensures within { IfSome result (λ place. place < length classes.now) }
{
    classes
        .as_slice()
        .iter()
        .position(|class| class.name.text.is(name))
}

/// The number of the first class with this name.
pub fn class_named(classes: &Classes, name: &Word) -> Option<u16>
    requires { length classes.now ≤ 65536 }
    ensures { result ≡ class_named classes.now name.now }
{
    match class_place(classes, name) {
        Some(place) => Some(place as u16),
        None => None,
    }
}

/// The type of the objects of the class with this name; no type can be told where there is none.
pub fn class_type(classes: &Classes, name: &Name) -> ExprType
    requires { length classes.now ≤ 65536 }
    ensures { result ≡ class_or_untold (class_named classes.now name.now.text) }
{
    match class_named(classes, &name.text) {
        Some(class) => ExprType::Class(class),
        None => ExprType::Untold,
    }
}

/// The type that a word names: that of a class with this name, that of texts, or one that can't be told.
pub fn word_type(classes: &Classes, word: &Name) -> ExprType
    requires { length classes.now ≤ 65536 }
    ensures { result ≡ class_or_word word.now.text (class_named classes.now word.now.text) }
{
    match class_named(classes, &word.text) {
        Some(class) => ExprType::Class(class),
        None => {
            if has_bytes(&word.text, b"text") {
                ExprType::Text
            } else {
                ExprType::Untold
            }
        }
    }
}

/// The value with which a field begins whose type a word names.
fn first_of_word(classes: &Classes, word: &Name) -> Value
    ensures { result ≡ beginning (class_or_word word.now.text (class_named classes.now word.now.text)) }
{
    match class_place(classes, &word.text) {
        Some(_) => Value::Null,
        None => {
            if has_bytes(&word.text, b"text") {
                Value::Text(Word::empty())
            } else {
                Value::Null
            }
        }
    }
}

/// The value with which a field of a type begins.
pub fn first_value(classes: &Classes, type_name: &TypeName) -> Value
    ensures { result ≡ beginning (type_named classes.now type_name.now) }
{
    match type_name {
        TypeName::Int { line: _ } => Value::Int(0),
        TypeName::Class { name } => first_of_word(classes, name),
    }
}

/// The type that a type's word names.
pub fn type_named(classes: &Classes, type_name: &TypeName) -> ExprType
    requires { length classes.now ≤ 65536 }
    ensures { result ≡ type_named classes.now type_name.now }
{
    match type_name {
        TypeName::Int { line: _ } => ExprType::Int,
        TypeName::Class { name } => word_type(classes, name),
    }
}

/// The place among its fields of the first field of a class with this name.
pub fn field_named(fields: &Fields, name: &Word) -> Option<usize>
    ensures { result ≡ position (λ f. bytes_eq f.name.text name.now) fields.now }
{
    fields
        .as_slice()
        .iter()
        .position(|field| field.name.text.is(name))
}

/// The first field with this name.
pub fn field_of<'a>(fields: &'a Fields, name: &Word) -> Option<&'a Field>
    ensures { option_copied result ≡ find (λ f. bytes_eq f.name.text name.now) fields.now }
{
    fields
        .as_slice()
        .iter()
        .find(|field| field.name.text.is(name))
}

/// The first method with this name.
pub fn method_of<'a>(methods: &'a Methods, name: &Word) -> Option<&'a Method>
    ensures { option_copied result ≡ find (λ m. bytes_eq m.name.text name.now) methods.now }
{
    methods
        .as_slice()
        .iter()
        .find(|method| method.name.text.is(name))
}
