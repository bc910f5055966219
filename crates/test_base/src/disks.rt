//! Disks in memory with a stop, disks over files, and clocks.

ghost use Rattle.std.specs.Prelude.{◌<◌};

use disk_trait::{
    Call, Clock, Did, Disk, FARTHEST_END, FileParts, Fused, MemParts, Outage, Parts, SystemClock,
    TickClock,
};
use std::alloc::Global;
use std::fs;
use std::test::Fail;

/// What is done to a disk.
enum Act {
    /// Bytes are written at a place.
    Write(u64, &'static [u8]),
    Sync,
    /// It crashes, and leaves the image of a pick.
    Crash(u64),
    /// It is read from its beginning to its end, and has these bytes.
    Read(&'static [u8]),
    /// The stop is to fall in the last of so many calls on all disks; with 0 it is taken back.
    Arm(u32),
}

/// A disk, what is done to it, and whether this succeeds.
type Step = (u8, Act, bool);

/// What the third disk has at first, which calls fail, what is done in two parts, how many calls of the third disk
/// are recorded and how many of these as failed, and how often the stop fell.
type Row = (
    &'static [u8],
    &'static [(u8, u64)],
    &'static [Step],
    &'static [Step],
    (usize, usize),
    u64,
);

/// A synced disk.
const SYNCED: &[u8] = &[1, 2, 3, 4, 5, 6, 7, 8];

/// What is written to it: inside, over a part of that, and past the end with a gap.
const WRITES: &[Step] = &[
    (2, Act::Write(1, &[20, 30]), true),
    (2, Act::Write(2, &[31]), true),
    (2, Act::Write(10, &[100]), true),
];

/// What the disk has then.
const WRITTEN: &[u8] = &[1, 20, 31, 4, 5, 6, 7, 8, 0, 0, 100];

/// What two picks leave of it while this isn't synced.
const SECOND: &[u8] = &[1, 3, 4, 4, 5, 6, 7, 8, 10, 11, 12];

const GREATEST: &[u8] = &[1, 0, 1, 4, 5, 6, 7, 8, 7, 8, 9];

/// Four bytes are written one by one.
const FOUR: &[u8] = &[9, 9, 9, 9];

const ROWS: &[Row] = &[
    // Each pick leaves its image, which is synced: a second crash leaves it whatever the pick.
    (
        SYNCED,
        &[],
        WRITES,
        &[
            (2, Act::Crash(0), true),
            (2, Act::Read(SYNCED), true),
            (2, Act::Crash(5), true),
            (2, Act::Read(SYNCED), true),
        ],
        (9, 0),
        0,
    ),
    (
        SYNCED,
        &[],
        WRITES,
        &[
            (2, Act::Crash(1), true),
            (2, Act::Read(WRITTEN), true),
            (2, Act::Crash(5), true),
            (2, Act::Read(WRITTEN), true),
        ],
        (9, 0),
        0,
    ),
    (
        SYNCED,
        &[],
        WRITES,
        &[
            (2, Act::Crash(2), true),
            (2, Act::Read(SECOND), true),
            (2, Act::Crash(5), true),
            (2, Act::Read(SECOND), true),
        ],
        (9, 0),
        0,
    ),
    (
        SYNCED,
        &[],
        WRITES,
        &[
            (2, Act::Crash(u64::MAX), true),
            (2, Act::Read(GREATEST), true),
            (2, Act::Crash(5), true),
            (2, Act::Read(GREATEST), true),
        ],
        (9, 0),
        0,
    ),
    // A sync makes writes stay.
    (
        SYNCED,
        &[],
        WRITES,
        &[
            (2, Act::Sync, true),
            (2, Act::Write(0, &[9, 9, 9]), true),
            (2, Act::Crash(0), true),
            (2, Act::Read(WRITTEN), true),
        ],
        (8, 0),
        0,
    ),
    // Listed calls fail and change nothing.
    (
        &[1, 2],
        &[(2, 2), (0, 1)],
        &[
            (2, Act::Write(0, &[5]), true),
            (2, Act::Write(1, &[6]), false),
        ],
        &[
            (0, Act::Sync, false),
            (0, Act::Sync, true),
            (2, Act::Read(&[5, 2]), true),
        ],
        (4, 1),
        0,
    ),
    // A write that ends too far is refused.
    (
        &[1, 2],
        &[],
        &[
            (2, Act::Write(FARTHEST_END, &[1]), false),
            (2, Act::Write(u64::MAX, &[1]), false),
        ],
        &[(2, Act::Read(&[1, 2]), true)],
        (4, 2),
        0,
    ),
    // The stop falls in the last call, which is made, and in no other.
    (
        &[1, 2, 3, 4],
        &[],
        &[(2, Act::Arm(1), true)],
        &[
            (2, Act::Write(0, &[9]), false),
            (2, Act::Write(1, &[9]), true),
            (2, Act::Write(2, &[9]), true),
            (2, Act::Write(3, &[9]), true),
            (2, Act::Read(FOUR), true),
        ],
        (6, 0),
        1,
    ),
    (
        &[1, 2, 3, 4],
        &[],
        &[(2, Act::Arm(2), true)],
        &[
            (2, Act::Write(0, &[9]), true),
            (2, Act::Write(1, &[9]), false),
            (2, Act::Write(2, &[9]), true),
            (2, Act::Write(3, &[9]), true),
            (2, Act::Read(FOUR), true),
        ],
        (6, 0),
        1,
    ),
    (
        &[1, 2, 3, 4],
        &[],
        &[(2, Act::Arm(3), true)],
        &[
            (2, Act::Write(0, &[9]), true),
            (2, Act::Write(1, &[9]), true),
            (2, Act::Write(2, &[9]), false),
            (2, Act::Write(3, &[9]), true),
            (2, Act::Read(FOUR), true),
        ],
        (6, 0),
        1,
    ),
    // A stop that is taken back doesn't fall.
    (
        &[],
        &[],
        &[
            (0, Act::Arm(2), true),
            (0, Act::Sync, true),
            (0, Act::Arm(0), true),
        ],
        &[
            (1, Act::Sync, true),
            (2, Act::Crash(0), true),
            (2, Act::Read(&[]), true),
        ],
        (3, 0),
        0,
    ),
];

/// Disks of which the third one has these bytes, and whose listed calls fail.
fn parts(alloc: Global, pages: &[u8], fails: &[(u8, u64)]) -> Result<MemParts<TickClock>, Outage> {
    Ok(MemParts::new(
        Vec::new(alloc),
        Vec::new(alloc),
        Vec::from_slice(alloc, pages)?,
        Vec::from_slice(alloc, fails)?,
        TickClock::new(7),
    ))
}

/// Whether a disk has these bytes and no more.
fn reads<P: Parts>(
    alloc: Global,
    parts: &mut P,
    disk: Disk,
    wanted: &[u8],
) -> Result<bool, Outage> {
    let len = parts.len(disk)?;
    let Ok(len) = usize::try_from(len) else {
        return Err(Outage::NoMemory);
    };
    let mut bytes = vec![in alloc; 0u8; len]?;
    parts.read_at(disk, 0, &mut bytes)?;
    Ok(bytes.as_slice() == wanted)
}

fn disk_of(number: u8) -> Disk {
    match number {
        0 => Disk::Log0,
        1 => Disk::Log1,
        _ => Disk::Pages,
    }
}

fn arm<P>(fused: &mut Fused<P>, calls: u32) {
    if calls == 0 {
        fused.disarm();
    } else {
        fused.arm(calls);
    }
}

/// Does this to a disk. The answer is whether it succeeds.
fn succeeds<P: Parts>(
    alloc: Global,
    fused: &mut Fused<P>,
    disk: Disk,
    act: &Act,
) -> Result<bool, Outage> {
    let answer = match act {
        Act::Write(at, bytes) => fused.write_at(disk, *at, bytes),
        Act::Sync => fused.sync(disk),
        Act::Crash(pick) => fused.restart(disk, *pick),
        Act::Read(wanted) => match reads(alloc, fused, disk, wanted) {
            Ok(same) => return Ok(same),
            Err(outage) => Err(outage),
        },
        Act::Arm(calls) => Ok(arm(fused, *calls)),
    };
    match answer {
        Ok(()) => Ok(true),
        Err(Outage::Failed) => Ok(false),
        Err(outage) => Err(outage),
    }
}

/// Whether each step succeeds or fails as it says.
fn pass<P: Parts>(alloc: Global, fused: &mut Fused<P>, steps: &[Step]) -> Result<bool, Outage> {
    for (disk, act, wanted) in steps {
        if succeeds(alloc, fused, disk_of(*disk), act)? != *wanted {
            return Ok(false);
        }
    }
    Ok(true)
}

/// How many of these calls failed.
fn failed(calls: &[Call]) -> usize {
    let mut count = 0usize;
    for call in calls {
        if let Did::Failed = call.did {
            count = count.saturating_add(1);
        }
    }
    count
}

/// Whether the steps pass, and the stop fell so often; the clock begins at 7.
fn passes<P: Parts>(alloc: Global, fused: &mut Fused<P>, row: &Row) -> Result<bool, Outage> {
    let (_, _, first, second, _, fell) = row;
    let passed = pass(alloc, fused, first)? && pass(alloc, fused, second)?;
    Ok(passed && fused.fell() == *fell && fused.now() == 7)
}

/// Whether so many calls are recorded, and so many of them as failed.
fn has_recorded(parts: &MemParts<TickClock>, recorded: (usize, usize)) -> bool {
    let calls = parts.calls(Disk::Pages);
    (calls.len(), failed(calls)) == recorded
}

/// Whether a row comes out as it says.
fn holds(alloc: Global, row: &Row) -> Result<bool, Outage> {
    let mut fused = Fused::new(parts(alloc, row.0, row.1)?);
    match passes(alloc, &mut fused, row) {
        Ok(passed) => Ok(passed && has_recorded(&fused.inner(), row.4)),
        Err(outage) => Err(outage),
    }
}

/// How many rows come out as they say before one that doesn't.
fn held(alloc: Global) -> Result<usize, Outage> {
    let mut count = 0usize;
    for row in ROWS {
        if !holds(alloc, row)? {
            return Ok(count);
        }
        count = count.saturating_add(1);
    }
    Ok(count)
}

#[test]
fn disks_do_what_they_are_told(rt: HostRuntime) {
    assert!(rt; held(rt.alloc()) == Ok(ROWS.len()));
}

/// Whether a clock that begins one below the greatest number stays there.
fn ticks() -> bool {
    let mut clock = TickClock::new(u64::MAX - 1);
    clock.now() == u64::MAX - 1 && clock.now() == u64::MAX && clock.now() == u64::MAX
}

#[test]
fn clocks_count_or_tell_the_time(rt: HostRuntime) -> Result<(), Fail> {
    assert!(rt; ticks());
    let now = SystemClock::new(rt.clone()?).now();
    // 2020 and 2120.
    assert!(rt; now > 1_577_836_800_000 && now < 4_733_510_400_000);
    Ok(())
}

/// A new folder whose name ends so.
pub fn folder(rt: &HostRuntime, name: &str) -> Result<String, Fail> {
    let now = SystemClock::new(rt.clone()?).now();
    let folder = format!(in rt.alloc(); "/tmp/kilntaupe-{name}-{now}")?;
    fs::create_dir(rt, folder.as_str())?;
    Ok(folder)
}

/// Disks over files in a folder. The third file is given by its path there.
pub fn files(rt: &HostRuntime, folder: &str, pages: &str) -> Result<FileParts<TickClock>, Fail> {
    let log0 = format!(in rt.alloc(); "{folder}/log0")?;
    let log1 = format!(in rt.alloc(); "{folder}/log1")?;
    let pages = format!(in rt.alloc(); "{folder}/{pages}")?;
    Ok(FileParts::open(rt, &log0, &log1, &pages, TickClock::new(1)))
}

/// What the first of disks over files has at its end.
const LEFT: &[u8] = &[0, 0, 1, 2, 3, 4];

/// What is done to disks over files whose third one isn't there: a write with a gap, a write that ends too far, and
/// calls of the third.
const FILES: &[Step] = &[
    (0, Act::Write(2, &[1, 2, 3, 4]), true),
    (0, Act::Sync, true),
    (0, Act::Crash(3), true),
    (0, Act::Read(LEFT), true),
    (1, Act::Write(FARTHEST_END, &[1]), false),
    (2, Act::Read(&[]), false),
    (2, Act::Sync, false),
];

/// Whether the first of disks over files reads so at first, and they do what they are told.
fn files_hold(rt: &HostRuntime, folder: &str, first: &Step) -> Result<bool, Fail> {
    // A file in a folder that isn't there can't be opened.
    let mut fused = Fused::new(files(rt, folder, "none/pages")?);
    let (disk, act, wanted) = first;
    let first = succeeds(rt.alloc(), &mut fused, disk_of(*disk), act)? == *wanted;
    let passed = pass(rt.alloc(), &mut fused, FILES)?;
    let mut files = fused.inner();
    let mut past = [0u8; 3];
    let over = files.read_at(Disk::Log0, 4, &mut past) == Err(Outage::Failed);
    Ok(first && passed && over && files.now() == 1)
}

/// What the first of those disks reads when they are opened: nothing, and then what was left there.
const OPENED: &[Step] = &[(0, Act::Read(&[]), true), (0, Act::Read(LEFT), true)];

#[test]
fn files_are_written_and_opened_again(rt: HostRuntime) -> Result<(), Fail> {
    let folder = folder(&rt, "disk-trait")?;
    for first in OPENED {
        assert!(rt; files_hold(&rt, folder.as_str(), first)?);
    }
    fs::remove_dir_all(&rt, folder.as_str())?;
    Ok(())
}

/// What is done to the first of disks over files, and how many bytes its file has behind that, at least and at most. It is
/// longer than its disk only behind a write that came when the disk's first byte had been synced since the last restart.
const GROWING: &[(Step, u64, u64)] = &[
    ((0, Act::Sync, true), 0, 0),
    ((0, Act::Write(0, &[0]), true), 1, 1),
    ((0, Act::Write(1, &[1, 2]), true), 3, 3),
    ((0, Act::Sync, true), 3, 3),
    ((0, Act::Write(3, &[3]), true), 5, u64::MAX),
    ((0, Act::Read(&[0, 1, 2, 3]), true), 5, u64::MAX),
    ((0, Act::Crash(0), true), 4, 4),
    ((0, Act::Write(4, &[4]), true), 5, 5),
    ((0, Act::Sync, true), 5, 5),
    ((0, Act::Write(5, &[5]), true), 7, u64::MAX),
    ((0, Act::Read(&[0, 1, 2, 3, 4, 5]), true), 7, u64::MAX),
];

/// How many bytes the file of the first of disks over files has.
fn log_len(rt: &HostRuntime, folder: &str) -> Result<u64, Fail> {
    let log = format!(in rt.alloc(); "{folder}/log0")?;
    Ok(fs::metadata(rt, log.as_str())?.len())
}

/// Whether the file of the first of disks over files grows so. Then all three are let go.
fn log_grows(rt: &HostRuntime, folder: &str) -> Result<bool, Fail> {
    let mut fused = Fused::new(files(rt, folder, "pages")?);
    for ((disk, act, wanted), least, greatest) in GROWING {
        let same = succeeds(rt.alloc(), &mut fused, disk_of(*disk), act)? == *wanted;
        let len = log_len(rt, folder)?;
        if !same || len < *least || *greatest < len {
            return Ok(false);
        }
    }
    Ok(true)
}

#[test]
fn a_log_is_made_longer_behind_a_sync(rt: HostRuntime) -> Result<(), Fail> {
    let folder = folder(&rt, "log-grows")?;
    assert!(rt; log_grows(&rt, folder.as_str())?);
    assert!(rt; log_len(&rt, folder.as_str())? == 6);
    fs::remove_dir_all(&rt, folder.as_str())?;
    Ok(())
}
