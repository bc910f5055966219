ghost use Rattle.std.specs.Prelude.{◌≡◌, ◌≤◌, Some, length};
ghost use Rattle.class_defs.specs.Ownership as ownership;
ghost use Rattle.class_defs.specs.Types as types;
ghost use Rattle.class_defs.specs.UpgradeRules as spec;
ghost use Rattle.class_defs.specs.declared.types.ExprType.TheVariants as type;
ghost use Rattle.ownership_check.specs.Paths.{goes_on};

use class_defs::{Classes, ExprType, Name, type_named};
use method_check::is_part;

/// The greatest number of names in a path behind `old`.
const MAX_NAMES: usize = 8;

/// The place of a field among those of its class.
pub fn field_named(classes: &Classes, class: u16, name: &Name) -> Option<usize>
    ensures { result ≡ types.field_named classes.now class name.now.text }
{
    match classes.get(class as usize) {
        Some(found) => class_defs::field_named(&found.fields, &name.text),
        None => None,
    }
}

/// The declared type of a field of a class.
fn type_at(classes: &Classes, class: u16, place: usize) -> Option<ExprType>
    requires { length classes.now ≤ 65536 }
    ensures { result ≡ ownership.type_at classes.now class place }
{
    match classes.get(class as usize) {
        Some(found) => match found.fields.get(place) {
            Some(field) => Some(type_named(classes, &field.type_name)),
            None => None,
        },
        None => None,
    }
}

/// The type of the field with this name of an object.
pub fn field_behind(classes: &Classes, kind: Option<ExprType>, name: &Name) -> Option<ExprType>
    requires { length classes.now ≤ 65536 }
    ensures { result ≡ spec.field_behind classes.now kind name.now.text }
{
    match kind {
        Some(ExprType::Class(class)) => match field_named(classes, class, name) {
            Some(place) => type_at(classes, class, place),
            None => None,
        },
        Some(ExprType::Int) => None,
        Some(ExprType::Text) => None,
        Some(ExprType::Null) => None,
        Some(ExprType::Untold) => None,
        None => None,
    }
}

/// The type of what a path leads to.
fn path_type(classes: &Classes, kind: Option<ExprType>, names: &[Name]) -> Option<ExprType>
    requires { length classes.now ≤ 65536 }
    ensures { result ≡ spec.path_type classes.now kind names.now }
{
    let mut kind = kind;
    for name in names {
        kind = field_behind(classes, kind, name);
    }
    kind
}

fn is_int(kind: Option<ExprType>) -> bool
    ensures { result ≡ spec.is_int kind }
{
    match kind {
        Some(ExprType::Int) => true,
        Some(ExprType::Text) => false,
        Some(ExprType::Null) => false,
        Some(ExprType::Class(_)) => false,
        Some(ExprType::Untold) => false,
        None => false,
    }
}

/// Whether a path from an object of a class has not too many names and ends in an int.
pub fn is_int_path(classes: &Classes, class: u16, names: &[Name]) -> bool
    requires { length classes.now ≤ 65536 }
    ensures { result ≡ spec.is_int_path classes.now class names.now }
{
    names.len() <= MAX_NAMES && is_int(path_type(classes, Some(ExprType::Class(class)), names))
}

/// Whether a path may go on behind a name.
fn may_go_on(classes: &Classes, kind: Option<ExprType>) -> bool
    ensures { result ≡ spec.may_go_on classes.now kind }
{
    match kind {
        None => true,
        Some(kind) => is_part(classes, kind),
    }
}

/// Whether a path ends at a value of this type, or may go on behind it by the names to come.
fn goes_on(classes: &Classes, kind: Option<ExprType>, names: &[Name]) -> bool
    ensures { result ≡ goes_on classes.now kind names.now }
{
    match names.first() {
        None => true,
        Some(_) => may_go_on(classes, kind),
    }
}

/// Whether each name of a path but the last is that of an owned field.
fn through_parts(classes: &Classes, kind: Option<ExprType>, names: &[Name]) -> bool
    requires { length classes.now ≤ 65536 }
    ensures { result ≡ spec.goes_through_parts classes.now kind names.now }
{
    let mut kind = kind;
    let mut goes = true;
    for (place, name) in names.iter().enumerate() {
        kind = field_behind(classes, kind, name);
        goes = goes && goes_on(classes, kind, &names[place + 1..]);
    }
    goes
}

/// Whether a path from an object of a class goes through owned fields alone.
pub fn goes_through_parts(classes: &Classes, class: u16, names: &[Name]) -> bool
    requires { length classes.now ≤ 65536 }
    ensures { result ≡ spec.goes_through_parts classes.now (Some (type.Class class)) names.now }
{
    through_parts(classes, Some(ExprType::Class(class)), names)
}

fn is_of_class(class: u16, kind: Option<ExprType>) -> bool
    ensures { result ≡ spec.is_of_class class kind }
{
    match kind {
        Some(ExprType::Class(other)) => class == other,
        Some(ExprType::Int) => false,
        Some(ExprType::Text) => false,
        Some(ExprType::Null) => false,
        Some(ExprType::Untold) => false,
        None => false,
    }
}

/// Whether a path from an object of a class is one name, of a field of the other class.
pub fn is_field_of(classes: &Classes, class: u16, other: u16, names: &[Name]) -> bool
    requires { length classes.now ≤ 65536 }
    ensures { result ≡ spec.is_field_of classes.now class other names.now }
{
    match names.split_first() {
        Some((name, rest)) => {
            rest.is_empty()
                && is_of_class(
                    other,
                    field_behind(classes, Some(ExprType::Class(class)), name),
                )
        }
        None => false,
    }
}

fn is_text(kind: Option<ExprType>) -> bool
    ensures { result ≡ spec.is_text kind }
{
    match kind {
        Some(ExprType::Text) => true,
        Some(ExprType::Int) => false,
        Some(ExprType::Null) => false,
        Some(ExprType::Class(_)) => false,
        Some(ExprType::Untold) => false,
        None => false,
    }
}

/// Whether a path from an object of a class is one name, of a text field.
pub fn is_text_field(classes: &Classes, class: u16, names: &[Name]) -> bool
    requires { length classes.now ≤ 65536 }
    ensures { result ≡ spec.is_text_field classes.now class names.now }
{
    match names.split_first() {
        Some((name, rest)) => {
            rest.is_empty() && is_text(field_behind(classes, Some(ExprType::Class(class)), name))
        }
        None => false,
    }
}

/// The place of the field that a path of one name is.
pub fn field_at_path(classes: &Classes, class: u16, names: &[Name]) -> Option<usize>
    ensures { result ≡ spec.field_at_path classes.now class names.now }
{
    match names.split_first() {
        Some((name, rest)) => {
            if rest.is_empty() {
                field_named(classes, class, name)
            } else {
                None
            }
        }
        None => None,
    }
}
