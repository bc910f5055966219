//! The bytes of values, names and timestamps, and the order of timestamps.

use std::alloc::Global;
use std::cmp::Ordering;
use std::test::Fail;
use thor_value::{
    NoMemory, Oref, ReadFault, Text, Ts, Value, Word, put_oref, put_ts, put_value, read_oref,
    read_ts, read_value,
};

const FIRST: Oref = Oref {
    repo: 0,
    page: 0,
    slot: 0,
};

const LAST: Oref = Oref {
    repo: 7,
    page: 65535,
    slot: 11,
};

/// Numbers, each as its value is spelled.
const NUMBERS: &[(i64, &[u8])] = &[
    (5, &[1, 0, 0, 0, 0, 0, 0, 0, 5]),
    (-2, &[1, 255, 255, 255, 255, 255, 255, 255, 254]),
    (-9223372036854775808, &[1, 128, 0, 0, 0, 0, 0, 0, 0]),
];

/// Names, each as the reference to it is spelled.
const NAMES: &[(Oref, &[u8])] = &[
    (FIRST, &[2, 0, 0, 0, 0, 0, 0]),
    (LAST, &[2, 7, 0, 0, 255, 255, 11]),
];

/// Texts, each as its value is spelled.
const TEXTS: &[(&[u8], &[u8])] = &[
    (b"", &[4, 0]),
    (b"ab", &[4, 2, 97, 98]),
    (b" !~", &[4, 3, 32, 33, 126]),
];

#[test]
fn texts_are_spelled_and_read(rt: HostRuntime) -> Result<(), Fail> {
    for (text, bytes) in TEXTS {
        let Some(word) = Word::new(text) else {
            return Err("it is a text".into());
        };
        let mut out = Text::new(rt.alloc());
        put_value(Value::Text(word), &mut out)?;
        assert!(rt; out.as_slice() == *bytes);
        assert!(rt; read_value(bytes) == Ok((Value::Text(word), bytes.len())));
        assert!(rt; word.bytes() == *text && usize::from(word.len()) == text.len());
        assert!(rt; (word == Word::empty()) == text.is_empty());
    }
    Ok(())
}

/// Texts of which no two are equal: they differ in length, in the first byte, and in the last of 32.
const DISTINCT: &[&[u8]] = &[
    b"",
    b"a",
    b"b",
    b"ab",
    b"12345678901234567890123456789012",
    b"12345678901234567890123456789013",
];

#[test]
fn texts_are_equal_where_their_bytes_are(rt: HostRuntime) -> Result<(), Fail> {
    for text in DISTINCT {
        for other in DISTINCT {
            let word = Word::new(text).ok_or("it is a text")?;
            let other_word = Word::new(other).ok_or("it is a text")?;
            assert!(rt; word.is(&other_word) == (*text == *other));
        }
    }
    Ok(())
}

/// Bytes that are no text, and those that begin no text's value or end too early, with the fault.
const NO_TEXTS: &[&[u8]] = &[
    &[31],
    &[127],
    &[34],
    &[97, 10],
    b"123456789012345678901234567890123",
];

const TEXT_FAULTS: &[(&[u8], ReadFault)] = &[
    (&[4], ReadFault::Short),
    (&[4, 2, 97], ReadFault::Short),
    (&[4, 32, 97, 98], ReadFault::Short),
    (&[4, 33, 97, 98], ReadFault::BadTag),
    (&[4, 2, 97, 34], ReadFault::BadTag),
    (&[4, 5, 97, 31], ReadFault::BadTag),
    (&[4, 1, 127], ReadFault::BadTag),
    (&[5], ReadFault::BadTag),
];

#[test]
fn what_is_no_text_is_told(rt: HostRuntime) {
    for bytes in NO_TEXTS {
        assert!(rt; Word::new(bytes).is_none());
    }
    for (bytes, fault) in TEXT_FAULTS {
        assert!(rt; read_value(bytes) == Err(*fault));
    }
}

/// Whether the value is read from its bytes with one more behind them, and from none of their beginnings.
fn is_read(alloc: Global, value: Value, bytes: &[u8]) -> Result<bool, NoMemory> {
    let mut longer = Text::from_slice(alloc, bytes)?;
    longer.push(9)?;
    let mut read = read_value(longer.as_slice()) == Ok((value, bytes.len()));
    for len in 0..bytes.len() {
        read = read && read_value(bytes.split_at(len).0) == Err(ReadFault::Short);
    }
    Ok(read)
}

#[test]
fn values_are_read(rt: HostRuntime) -> Result<(), Fail> {
    for (number, bytes) in NUMBERS {
        assert!(rt; is_read(rt.alloc(), Value::Int(*number), bytes)?);
    }
    for (name, bytes) in NAMES {
        assert!(rt; is_read(rt.alloc(), Value::Ref(*name), bytes)?);
    }
    assert!(rt; is_read(rt.alloc(), Value::Null, &[3])?);
    Ok(())
}

/// Some values, a timestamp and a name, one behind the other.
fn spelled(alloc: Global) -> Result<Text, NoMemory> {
    let mut out = Text::new(alloc);
    put_value(Value::Int(-2), &mut out)?;
    put_value(Value::Ref(LAST), &mut out)?;
    put_value(Value::Null, &mut out)?;
    let tx = Ts {
        time: 3,
        repo: 0,
        life: 1,
    };
    put_ts(tx, &mut out)?;
    let name = Oref {
        repo: 1,
        page: 258,
        slot: 2,
    };
    put_oref(name, &mut out)?;
    Ok(out)
}

const SPELLED: &[u8] = &[
    1, 255, 255, 255, 255, 255, 255, 255, 254, 2, 7, 0, 0, 255, 255, 11, 3, 0, 0, 0, 0, 0, 0, 0, 3,
    0, 0, 0, 0, 1, 1, 0, 0, 1, 2, 2,
];

/// Bytes that no value has, each with what is said of them.
const NO_VALUES: &[(&[u8], ReadFault)] = &[
    (&[], ReadFault::Short),
    (&[0], ReadFault::BadTag),
    (&[5], ReadFault::BadTag),
    (&[1, 0], ReadFault::Short),
    (&[2, 8], ReadFault::BadTag),
    (&[2, 7, 0, 1], ReadFault::BadTag),
    (&[2, 7, 1, 0, 0, 0, 0], ReadFault::BadTag),
    (&[2, 7, 0, 0, 0, 0, 12], ReadFault::BadTag),
    (&[2, 7, 0, 0, 0], ReadFault::Short),
    (&[255, 0], ReadFault::BadTag),
];

/// Bytes, and the time that is read from them and how long it is, or the fault.
const TIMES: &[(&[u8], Result<(Ts, usize), ReadFault>)] = &[
    (&[64], Err(ReadFault::BadTag)),
    (&[63, 0, 0, 0, 0, 0, 0, 0, 8], Err(ReadFault::BadTag)),
    (
        &[63, 0, 0, 0, 0, 0, 0, 0, 7, 1, 1, 1],
        Err(ReadFault::Short),
    ),
    (
        &[0, 0, 0, 0, 0, 0, 0, 3, 0, 0, 0, 0, 1, 9],
        Ok((
            Ts {
                time: 3,
                repo: 0,
                life: 1,
            },
            13,
        )),
    ),
];

#[test]
fn bytes_that_are_no_value_are_refused(rt: HostRuntime) {
    for (bytes, fault) in NO_VALUES {
        assert!(rt; read_value(bytes) == Err(*fault));
    }
}

#[test]
fn times_and_names_are_spelled_and_read(rt: HostRuntime) -> Result<(), Fail> {
    assert!(rt; spelled(rt.alloc())?.as_slice() == SPELLED);
    for (bytes, read) in TIMES {
        assert!(rt; read_ts(bytes) == *read);
    }
    assert!(rt; read_oref(&[0, 0, 1, 0, 0, 0]) == Err(ReadFault::BadTag));
    Ok(())
}

fn ts(time: u64, repo: u8, life: u32) -> Ts {
    Ts { time, repo, life }
}

#[test]
fn timestamps_compare_by_time_then_repository_then_life(rt: HostRuntime) {
    assert!(rt; ts(3, 0, 1).cmp(&ts(3, 0, 1)) == Ordering::Equal);
    assert!(rt; ts(2, 7, 9).cmp(&ts(3, 0, 1)) == Ordering::Less);
    assert!(rt; ts(3, 1, 1).cmp(&ts(3, 0, 9)) == Ordering::Greater);
    assert!(rt; ts(3, 1, 1).cmp(&ts(3, 1, 2)) == Ordering::Less);
}
