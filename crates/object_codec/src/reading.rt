ghost use Rattle.std.specs.Prelude.{◌≡◌, ℕ, ◌<◌, ◌≤◌, List, ◌++◌, length, Ok, Err, IfOk, IsErrOf};
ghost use Rattle.std.specs.Int.{w16, w32};
ghost use Rattle.thor_value.specs.Formats.{AreApart, BeginsOne, BeginsWithOne, IsAtFront};
ghost use Rattle.thor_value.specs.Reading.{number_at, value_at};
ghost use Rattle.object_codec.specs.Spelling.{Answered, HasCount, ObjFits, most_fields, obj_bytes};
ghost use Rattle.object_codec.specs.Reading.{Counts, Gives, count_at, fields_at, lifted, obj_at};

use crate::fault::ObjFault;
use byteorder::{BigEndian, ByteOrder};
use std::alloc::Global;
use thor_value::{Obj, ReadFault, Sequence, Value, Values, read_value};

/// The most fields of an object.
pub(crate) const MOST_FIELDS: u8 = 32;

/// Reads the object at the front, and answers how many bytes it takes. Bytes may follow it.
pub fn read_obj(alloc: Global, bytes: &[u8]) -> Result<(Obj, usize), ObjFault>
    // What is read is an object's spelling.
    ensures found { IfOk result (λ read. IsAtFront ObjFits obj_bytes bytes.now read.0 read.1) }
    // What is spelled is read.
    ensures only { (o : Obj) (rest : List ℕ) → ObjFits o → bytes.now ≡ obj_bytes o ++ rest → Answered result (Ok (o, length (obj_bytes o))) }
    // Short comes exactly where the bytes begin a spelling and are not all of it.
    ensures short { IsErrOf result ObjFault.Short → BeginsOne ObjFits obj_bytes bytes.now }
    ensures short_only { BeginsOne ObjFits obj_bytes bytes.now → Answered result (Err ObjFault.Short) }
    // TooLarge comes exactly where the count stands in the bytes and is above the limit.
    ensures too_large { (count : ℕ) → IsErrOf result (ObjFault.TooLarge count) → HasCount bytes.now count × (most_fields < count) }
    ensures too_large_only { (count : ℕ) → HasCount bytes.now count → most_fields < count → Answered result (Err (ObjFault.TooLarge count)) }
    // BadTag comes exactly elsewhere.
    ensures bad_tag { IsErrOf result ObjFault.BadTag → (¬ BeginsWithOne ObjFits obj_bytes bytes.now) × (¬ BeginsOne ObjFits obj_bytes bytes.now) × ((count : ℕ) → HasCount bytes.now count → count ≤ most_fields) }
    ensures bad_tag_only { ¬ BeginsWithOne ObjFits obj_bytes bytes.now → ¬ BeginsOne ObjFits obj_bytes bytes.now → ((count : ℕ) → HasCount bytes.now count → count ≤ most_fields) → Answered result (Err ObjFault.BadTag) }
    ensures exact { Counts bytes.now result (obj_at bytes.now) }
{
    counted_obj(alloc, bytes)
}

/// No object's spelling begins another, so whatever follows one is told apart from it.
pub fn objects_are_apart()
    ensures { AreApart ObjFits obj_bytes }
{}

fn counted_obj(alloc: Global, bytes: &[u8]) -> Result<(Obj, usize), ObjFault>
    ensures { Counts bytes.now result (obj_at bytes.now) }
{
    let (obj, rest) = obj_of(alloc, bytes)?;
    Ok((obj, bytes.len() - rest.len()))
}

#[tactic(auto, unfolding(crate::specs::Reading::obj_at))]
fn obj_of(alloc: Global, bytes: &[u8]) -> Result<(Obj, &[u8]), ObjFault>
    ensures { Gives (λ x. (x.0, x.1.now)) result (obj_at bytes.now) }
{
    let (class, rest) = u16_of(bytes)?;
    let (ver, rest) = u32_of(rest)?;
    let (count, rest) = count_of(rest)?;
    let (fields, rest) = fields_of(alloc, count, rest)?;
    Ok((Obj { class, ver, fields }, rest))
}

fn fields_of(alloc: Global, count: u8, bytes: &[u8]) -> Result<(Values, &[u8]), ObjFault>
    ensures { Gives (λ x. (x.0, x.1.now)) result (fields_at count bytes.now) }
{
    let mut fields = Vec::with_capacity(alloc, count as usize)?;
    let mut rest = bytes;
    for _ in 0..count {
        match field_of(rest) {
            Ok((field, after)) => {
                fields.push(field)?;
                rest = after;
            }
            Err(fault) => return Err(fault),
        }
    }
    Ok((Sequence::from_vec(fields), rest))
}

fn field_of(bytes: &[u8]) -> Result<(Value, &[u8]), ObjFault>
    ensures { Gives (λ x. (x.0, x.1.now)) result (lifted (value_at bytes.now)) }
{
    match read_value(bytes) {
        Ok((field, length)) => Ok((field, bytes.split_at(length).1)),
        Err(ReadFault::Short) => Err(ObjFault::Short),
        Err(ReadFault::BadTag) => Err(ObjFault::BadTag),
    }
}

fn count_of(bytes: &[u8]) -> Result<(u8, &[u8]), ObjFault>
    ensures { Gives (λ x. (x.0, x.1.now)) result (count_at bytes.now) }
{
    match bytes {
        [] => Err(ObjFault::Short),
        [count, rest @ ..] => {
            if *count <= MOST_FIELDS {
                Ok((*count, rest))
            } else {
                Err(ObjFault::TooLarge { count: *count })
            }
        }
    }
}

fn u16_of(bytes: &[u8]) -> Result<(u16, &[u8]), ObjFault>
    ensures { Gives (λ x. (x.0, x.1.now)) result (number_at ObjFault.Short w16 bytes.now) }
{
    if bytes.len() < 2 {
        return Err(ObjFault::Short);
    }
    let (front, rest) = bytes.split_at(2);
    Ok((BigEndian::read_u16(front), rest))
}

fn u32_of(bytes: &[u8]) -> Result<(u32, &[u8]), ObjFault>
    ensures { Gives (λ x. (x.0, x.1.now)) result (number_at ObjFault.Short w32 bytes.now) }
{
    if bytes.len() < 4 {
        return Err(ObjFault::Short);
    }
    let (front, rest) = bytes.split_at(4);
    Ok((BigEndian::read_u32(front), rest))
}
