//! How many bytes objects take.

ghost use Rattle.std.specs.Prelude.{◌≡◌, ◌≤◌, ◌<◌, ◌^◌, ◌-◌, ℕ, List, length};
ghost use Rattle.thor_value.specs.Spelling.{value_bytes};
ghost use Rattle.std.specs.List.{AllByRecursion};
ghost use Rattle.mob_buffer.specs.Buffer.{CanStand, bytes_of};
ghost use Rattle.object_codec.specs.Spelling.{ObjFits, obj_bytes};

use thor_value::{Obj, Value, Writes};

/// How many bytes the objects of a list of writes have as they are spelled, or the greatest number of 64 bits
/// where that is less.
pub fn spelled_bytes(writes: &Writes) -> u64
    requires { AllByRecursion CanStand writes.now }
    ensures most { result ≤ bytes_of writes.now }
    ensures exact { result < 2 ^ 64 - 1 → result ≡ bytes_of writes.now }
{
    let mut size = 0u64;
    for write in writes.as_slice() {
        size = size.saturating_add(u64::from(spelled_size(&write.1)));
    }
    size
}

/// How many bytes the spelling of an object has, at most 1,095.
pub(crate) fn spelled_size(object: &Obj) -> u32
    requires { ObjFits object.now }
    ensures value { result ≡ length (obj_bytes object.now) }
    ensures most { result ≤ 1095 }
{
    let mut size = 7;
    for field in object.fields.as_slice() {
        size += value_size(*field);
    }
    size
}

/// How many bytes the spelling of a value has.
fn value_size(value: Value) -> u32
    ensures value { result ≡ length (value_bytes value) }
    ensures most { result ≤ 34 }
{
    match value {
        Value::Int(_) => 9,
        Value::Ref(_) => 7,
        Value::Null => 1,
        Value::Text(word) => 2 + u32::from(word.len()),
    }
}
