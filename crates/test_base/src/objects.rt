//! The bytes of objects.

use object_codec::{ObjFault, put_obj, read_obj};
use std::alloc::Global;
use std::test::Fail;
use thor_value::{NoMemory, Obj, Oref, Text, Value, Values};

/// The object of class 0 and version 0 with one number, 5, as it is spelled.
const FIVE: &[u8] = &[0, 0, 0, 0, 0, 0, 1, 1, 0, 0, 0, 0, 0, 0, 0, 5];

/// An object with all kinds of values, as it is spelled.
const MIXED: &[u8] = &[
    1, 2, 0, 0, 0, 3, 3, 1, 255, 255, 255, 255, 255, 255, 255, 254, 2, 7, 0, 0, 255, 255, 11, 3,
];

const LAST: Oref = Oref {
    repo: 7,
    page: 65535,
    slot: 11,
};

/// The bytes of the second object.
fn spelled(alloc: Global) -> Result<Text, NoMemory> {
    let values = [Value::Int(-2), Value::Ref(LAST), Value::Null];
    let mixed = Obj {
        class: 258,
        ver: 3,
        fields: Values::from_slice(alloc, &values)?,
    };
    let mut out = Text::new(alloc);
    put_obj(&mixed, &mut out)?;
    Ok(out)
}

/// Bytes of objects, with their class, their version and how many fields they have.
const OBJECTS: &[(&[u8], u16, u32, usize)] = &[
    (FIVE, 0, 0, 1),
    (MIXED, 258, 3, 3),
    (&[255, 255, 255, 255, 255, 255, 0], 65535, 4294967295, 0),
    (&[0, 0, 0, 0, 0, 0, 1, 3], 0, 0, 1),
];

/// The class, the version and the number of fields of an object behind which more bytes stand, and its length.
fn read_of(alloc: Global, bytes: &[u8]) -> Result<(u16, u32, usize, usize), Fail> {
    let mut longer = Text::from_slice(alloc, bytes)?;
    longer.push(9)?;
    let (read, length) = read_obj(alloc, longer.as_slice())?;
    Ok((read.class, read.ver, read.fields.len(), length))
}

/// What is said of bytes that no object has.
fn fault_of(alloc: Global, bytes: &[u8]) -> Option<ObjFault> {
    match read_obj(alloc, bytes) {
        Ok(_) => None,
        Err(fault) => Some(fault),
    }
}

#[test]
fn objects_are_spelled_and_read(rt: HostRuntime) -> Result<(), Fail> {
    assert!(rt; spelled(rt.alloc())?.as_slice() == MIXED);
    for (bytes, class, ver, count) in OBJECTS {
        let read = read_of(rt.alloc(), bytes)?;
        assert!(rt; read == (*class, *ver, *count, bytes.len()));
        for len in 0..bytes.len() {
            let fault = fault_of(rt.alloc(), bytes.split_at(len).0);
            assert!(rt; fault == Some(ObjFault::Short));
        }
    }
    Ok(())
}

/// Bytes that no object has, each with what is said of them.
const NO_OBJECTS: &[(&[u8], ObjFault)] = &[
    (&[], ObjFault::Short),
    (&[0, 0, 0, 0, 0, 0, 33], ObjFault::TooLarge { count: 33 }),
    (
        &[0, 0, 0, 0, 0, 0, 255, 4],
        ObjFault::TooLarge { count: 255 },
    ),
    (&[0, 0, 0, 0, 0, 0, 2, 3], ObjFault::Short),
    (&[0, 0, 0, 0, 0, 0, 1, 4], ObjFault::Short),
    (&[0, 0, 0, 0, 0, 0, 1, 5], ObjFault::BadTag),
    (&[0, 0, 0, 0, 0, 0, 2, 3, 2, 8], ObjFault::BadTag),
    (&[0, 0, 0, 0, 0, 0, 2, 3, 1, 0], ObjFault::Short),
];

#[test]
fn bytes_that_are_no_object_are_refused(rt: HostRuntime) {
    for (bytes, want) in NO_OBJECTS {
        assert!(rt; fault_of(rt.alloc(), bytes) == Some(*want));
    }
}
