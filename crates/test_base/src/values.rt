//! Lists, boxes, maps and copies.

use std::alloc::Global;
use std::test::Fail;
use thor_value::{
    Answer, Boxed, Fault, NoMemory, Obj, Oref, OrefMap, Repos, Sequence, Text, Texts, TryCopy,
    Value, Writes,
};

const A: Oref = Oref {
    repo: 0,
    page: 0,
    slot: 0,
};

const B: Oref = Oref {
    repo: 0,
    page: 1,
    slot: 0,
};

const C: Oref = Oref {
    repo: 1,
    page: 0,
    slot: 0,
};

/// The numbers from 1 to 6.
fn grown(alloc: Global) -> Result<Repos, NoMemory> {
    let mut numbers: Repos = Sequence::new(alloc);
    numbers.push(2)?;
    numbers.insert(0, 1)?;
    numbers.extend_from_slice(&[3, 4])?;
    let more = Sequence::from_slice(alloc, &[5, 6])?;
    numbers.append(more)?;
    Ok(numbers)
}

/// The numbers behind a change of each kind, and what was taken out.
fn changed(mut numbers: Repos) -> (Repos, [u8; 3]) {
    let mut taken = [0; 3];
    if let Some(last) = numbers.pop() {
        taken[0] = last;
    }
    if numbers.len() > 2 {
        taken[1] = numbers.remove(1);
    }
    if numbers.len() > 2 {
        taken[2] = numbers.replace(1, 8);
    }
    if numbers.len() > 2 {
        numbers.set(0, 9);
    }
    numbers.truncate(3);
    (numbers, taken)
}

#[test]
fn a_sequence_grows_and_shrinks(rt: HostRuntime) -> Result<(), Fail> {
    let numbers = grown(rt.alloc())?;
    assert!(rt; numbers.as_slice() == [1, 2, 3, 4, 5, 6].as_slice());
    let (numbers, taken) = changed(numbers);
    assert!(rt; taken == [6, 2, 3]);
    assert!(rt; numbers.get(2) == Some(&4) && numbers.get(3).is_none() && !numbers.is_empty());
    let again = Sequence::from_vec(numbers.into_vec());
    assert!(rt; again.copy()?.as_slice() == [9, 8, 4].as_slice());
    Ok(())
}

#[test]
fn a_sequence_of_texts_is_copied_whole(rt: HostRuntime) -> Result<(), Fail> {
    let mut texts: Texts = Sequence::new(rt.alloc());
    texts.push(Text::from_slice(rt.alloc(), b"ab")?)?;
    texts.insert(0, Text::from_slice(rt.alloc(), b"")?)?;
    let copied = texts.copy()?;
    match copied.as_slice() {
        [first, second] => {
            assert!(rt; first.is_empty() && second.as_slice() == b"ab".as_slice());
        }
        _ => assert!(rt; false, "there are two"),
    }
    Ok(())
}

#[test]
fn a_box_holds_its_value(rt: HostRuntime) -> Result<(), Fail> {
    let boxed = Boxed::new(rt.alloc(), 5u64)?;
    let copied = boxed.copy()?;
    assert!(rt; *boxed.get() == 5);
    assert!(rt; copied.into_inner() == 5);
    Ok(())
}

/// A map of three names, of which the first one was given its value anew.
fn three_names(alloc: Global) -> Result<OrefMap<u64>, NoMemory> {
    let mut map = OrefMap::new(alloc);
    for (name, value) in [(C, 3u64), (A, 1), (B, 2), (A, 4)] {
        map.insert(name, value)?;
    }
    Ok(map)
}

#[test]
fn a_map_holds_a_value_for_each_name(rt: HostRuntime) -> Result<(), Fail> {
    let mut map = three_names(rt.alloc())?;
    assert!(rt; map.len() == 3);
    for (name, value) in [(B, Some(2)), (B, None)] {
        assert!(rt; map.remove(name) == value);
    }
    for (name, value) in [(A, Some(&4)), (B, None), (C, Some(&3))] {
        assert!(rt; map.get(name) == value && map.contains(name) == value.is_some());
    }
    assert!(rt; map.names(rt.alloc())?.as_slice() == [A, C].as_slice());
    assert!(rt; map.into_pairs(rt.alloc())?.as_slice() == [(A, 4), (C, 3)].as_slice());
    Ok(())
}

/// A name with an object of two fields.
fn write(alloc: Global) -> Result<(Oref, Obj), NoMemory> {
    let object = Obj {
        class: 2,
        ver: 1,
        fields: Sequence::from_slice(alloc, &[Value::Int(-1), Value::Ref(B)])?,
    };
    Ok((A, object))
}

#[test]
fn objects_are_copied(rt: HostRuntime) -> Result<(), Fail> {
    let mut writes: Writes = Sequence::new(rt.alloc());
    writes.push(write(rt.alloc())?)?;
    let copied = writes.copy()?;
    match copied.as_slice() {
        [(name, object)] => {
            assert!(rt; *name == A && object.class == 2 && object.ver == 1);
            assert!(rt; object.fields.as_slice() == [Value::Int(-1), Value::Ref(B)].as_slice());
        }
        _ => assert!(rt; false, "there is one"),
    }
    Ok(())
}

#[test]
fn answers_are_copied(rt: HostRuntime) -> Result<(), Fail> {
    let answer = Answer::Ints(Sequence::from_slice(rt.alloc(), &[7, -7])?);
    match answer.copy()? {
        Answer::Ints(ints) => assert!(rt; ints.as_slice() == [7, -7].as_slice()),
        Answer::Fault(_) => assert!(rt; false, "it has no fault"),
    }
    match Answer::Fault(Fault::Depth).copy()? {
        Answer::Ints(_ints) => assert!(rt; false, "it has a fault"),
        Answer::Fault(fault) => assert!(rt; fault == Fault::Depth),
    }
    Ok(())
}
