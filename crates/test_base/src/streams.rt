//! Sources and sinks in memory that fail at one call, read and written to the end.

use outside::{MemSink, MemSource, ReadAll, read_all, write_all};
use std::alloc::Global;
use std::test::Fail;
use thor_value::{Ints, NoMemory, Text, TryCopy};

/// `count` bytes that rise from 0 and begin anew behind 250.
fn rising(alloc: Global, count: usize) -> Result<Text, NoMemory> {
    let mut bytes = Text::new(alloc);
    for i in 0..count {
        bytes.push((i % 251) as u8)?;
    }
    Ok(bytes)
}

/// The list of one number, or the empty list for 0.
fn only(alloc: Global, number: i64) -> Result<Ints, NoMemory> {
    let mut numbers = Ints::new(alloc);
    if number != 0 {
        numbers.push(number)?;
    }
    Ok(numbers)
}

/// How many bytes, which call fails, the limit, and what is answered. A call gives 32 bytes.
const READS: &[(usize, i64, usize, Option<ReadAll>)] = &[
    (0, 0, 0, None),
    (1, 0, 0, Some(ReadAll::Over)),
    (100, 0, 100, None),
    (101, 0, 100, Some(ReadAll::Over)),
    (32, 0, 31, Some(ReadAll::Over)),
    (20, 1, 100, Some(ReadAll::Failed)),
    (20, 2, 100, Some(ReadAll::Failed)),
    (40, 3, 100, Some(ReadAll::Failed)),
    (40, 4, 100, None),
    (64, 2, 31, Some(ReadAll::Over)),
];

/// Whether so many bytes are read as they are, or what is answered, and the count of faults.
fn read(
    alloc: Global,
    count: usize,
    fails: i64,
    limit: usize,
) -> Result<(Option<ReadAll>, u64), NoMemory> {
    let bytes = rising(alloc, count)?;
    let mut source = MemSource::new(bytes.copy()?, only(alloc, fails)?);
    let answer = match read_all(alloc, &mut source, limit) {
        Ok(text) if text.as_slice() == bytes.as_slice() => None,
        Ok(_) => Some(ReadAll::NoMemory),
        Err(error) => Some(error),
    };
    Ok((answer, source.faults()))
}

#[test]
fn reads_to_the_end_or_says_why_not(rt: HostRuntime) -> Result<(), Fail> {
    for (count, fails, limit, want) in READS {
        let faults = if *want == Some(ReadAll::Failed) { 1 } else { 0 };
        assert!(rt; read(rt.alloc(), *count, *fails, *limit)? == (*want, faults));
    }
    Ok(())
}

/// The faults of a source with one byte that fails these calls, behind as many reads to the end and one more.
fn faults_behind(alloc: Global, fails: &[i64]) -> Result<u64, NoMemory> {
    let mut source = MemSource::new(rising(alloc, 1)?, Ints::from_slice(alloc, fails)?);
    for _ in 0..=fails.len() {
        let _ = read_all(alloc, &mut source, 1);
    }
    Ok(source.faults())
}

#[test]
fn each_fault_is_counted(rt: HostRuntime) -> Result<(), Fail> {
    for (fails, want) in FAULTS {
        assert!(rt; faults_behind(rt.alloc(), fails)? == *want);
    }
    Ok(())
}

/// Which calls fail, and how many faults are counted.
const FAULTS: &[(&[i64], u64)] = &[
    (&[], 0),
    (&[1], 1),
    (&[1, 2], 2),
    (&[1, 2, 3], 3),
    (&[2, 4], 2),
];

/// How many bytes, which call fails, and how many are taken. A call takes 32 bytes.
const WRITES: &[(usize, i64, usize)] = &[
    (0, 1, 0),
    (1, 0, 1),
    (100, 0, 100),
    (100, 1, 0),
    (100, 2, 32),
    (100, 4, 96),
    (100, 5, 100),
];

/// Whether so many bytes are written, whether the sink took so many of them, and the count of faults.
fn write(
    alloc: Global,
    count: usize,
    fails: i64,
    taken: usize,
) -> Result<(bool, bool, u64), NoMemory> {
    let bytes = rising(alloc, count)?;
    let mut sink = MemSink::new(only(alloc, fails)?);
    let wrote = write_all(&mut sink, bytes.as_slice()).is_ok();
    let front = sink.taken() == rising(alloc, taken)?.as_slice();
    Ok((wrote, front, sink.faults()))
}

#[test]
fn writes_all_or_a_front_of_it(rt: HostRuntime) -> Result<(), Fail> {
    for (count, fails, taken) in WRITES {
        let all = *taken == *count;
        let faults = if all { 0 } else { 1 };
        assert!(rt; write(rt.alloc(), *count, *fails, *taken)? == (all, true, faults));
    }
    Ok(())
}
