//! Logs on disks whose calls fail or stop, and on files.

ghost use Rattle.std.specs.Prelude.{IfOk};
ghost use Rattle.disk_trait.specs.Disks.{IsSettled};
ghost use Rattle.disk_trait.specs.MemParts.{mem_disks};

use crate::disks::{files, folder};
use disk_trait::{Clock, Disk, Fused, MemParts, Outage, Parts, TickClock};
use log_frame::{Log, LogFault};
use std::alloc::Global;
use std::fs;
use std::test::Fail;

// The body of a record of the first life.
const LIFE: &[u8] = &[1, 0, 0, 0, 1];

// An open header of sequence 1 without a head.
const HEADER: &[u8] = &[1, 0, 0, 0, 0, 0, 0, 0, 1, 0, 0, 0, 0];

// The first record, of that body.
const FIRST: &[u8] = &[1, 0, 0, 0, 5, 1, 0, 0, 0, 1, 0];

fn parts(alloc: Global, log0: &[u8], fails: &[(u8, u64)]) -> Result<MemParts<TickClock>, Outage>
    ensures { IfOk result (λ parts. IsSettled (mem_disks ⟦<TickClock as Clock>⟧.greatest parts) 0) }
{
    Ok(MemParts::new(
        Vec::from_slice(alloc, log0)?,
        Vec::new(alloc),
        Vec::new(alloc),
        Vec::from_slice(alloc, fails)?,
        TickClock::new(1),
    ))
}

/// Formats disk 0 and adds a record.
fn grow<P: Parts>(alloc: Global, parts: &mut P) -> Result<(), LogFault>
    requires { IsSettled (P.disks parts.old) 0 }
{
    let mut log = Log::format(alloc, parts, Disk::Log0, 1, &[])?;
    log.append(parts, LIFE)
}

/// How many records disk 0 has.
fn count<P: Parts>(alloc: Global, parts: &mut P) -> Result<Option<usize>, LogFault> {
    match Log::open(alloc, parts, Disk::Log0)? {
        None => Ok(None),
        Some((_, _, records)) => Ok(Some(records.len())),
    }
}

/// Whether a disk has the header and the first record, behind eleven calls: len, then close, sync, write, sync, open,
/// sync; then the four calls of the append.
fn has_first(parts: &MemParts<TickClock>) -> bool {
    let (header, behind) = parts
        .bytes(Disk::Log0)
        .split_at(13.min(parts.bytes(Disk::Log0).len()));
    header == HEADER && behind == FIRST && parts.calls(Disk::Log0).len() == 11
}

#[test]
fn a_first_record_has_these_bytes(rt: HostRuntime) -> Result<(), Fail> {
    let mut parts = parts(rt.alloc(), &[], &[])?;
    grow(rt.alloc(), &mut parts)?;
    assert!(rt; has_first(&parts));
    Ok(())
}

const NO_ROOM: Result<Option<usize>, LogFault> = Err(LogFault::Damaged { place: 0 });

const CUT: Result<Option<usize>, LogFault> = Err(LogFault::Damaged { place: 13 });

/// Bytes behind the header, and what the disk opens as.
const BEHIND: &[(&[u8], Result<Option<usize>, LogFault>)] = &[
    (&[], NO_ROOM),
    (&[0], Ok(Some(0))),
    // A record cut in its body, its gate closed, torn, or open.
    (&[0, 0, 0, 0, 5, 1], Ok(Some(0))),
    (&[7, 0, 0, 0, 5, 1], Ok(Some(0))),
    (&[1, 0, 0, 0, 5, 1], CUT),
    // A whole record without a gate behind it.
    (&[1, 0, 0, 0, 1, 9], CUT),
    (&[1, 0, 0, 0, 1, 9, 0], Ok(Some(1))),
    (
        &[1, 0, 0, 0, 1, 9, 1, 0],
        Err(LogFault::Damaged { place: 19 }),
    ),
];

/// Whole disks, and what they open as.
const HEADERS: &[(&[u8], Result<Option<usize>, LogFault>)] = &[
    (&[], Ok(None)),
    (&[1], Ok(None)),
    (&[0, 0], Ok(None)),
    (&[1, 0], NO_ROOM),
    // A length past the end of the disk.
    (&[1, 0, 0, 0, 0, 0, 0, 0, 1, 0, 0, 0, 9, 5], NO_ROOM),
    (&[1, 0, 0, 0, 0, 0, 0, 0, 1, 0, 0, 0, 1, 5, 0], Ok(Some(0))),
];

/// Whether a disk with these bytes opens so.
fn opens(
    alloc: Global,
    front: &[u8],
    behind: &[u8],
    want: &Result<Option<usize>, LogFault>,
) -> Result<bool, Outage> {
    let mut bytes = Vec::from_slice(alloc, front)?;
    bytes.extend_from_slice(behind)?;
    let mut parts = parts(alloc, &bytes, &[])?;
    Ok(count(alloc, &mut parts) == *want)
}

/// How many of these, behind a front, open as they say before one that doesn't.
fn opened(
    alloc: Global,
    front: &[u8],
    rows: &[(&[u8], Result<Option<usize>, LogFault>)],
) -> Result<usize, Outage> {
    let mut count = 0usize;
    for (behind, want) in rows {
        if !opens(alloc, front, behind, want)? {
            return Ok(count);
        }
        count = count.saturating_add(1);
    }
    Ok(count)
}

#[test]
fn bytes_are_read_or_damaged(rt: HostRuntime) {
    assert!(rt; opened(rt.alloc(), HEADER, BEHIND) == Ok(BEHIND.len()));
    assert!(rt; opened(rt.alloc(), &[], HEADERS) == Ok(HEADERS.len()));
}

// Picks, calls of the append, and how many records each leaves where the call failed, or the stop fell in it.
// Pick 244 tears the gate at place 13 open.
const APPENDS: &[(u64, u32, usize, usize)] = &[
    (0, 8, 0, 0),
    (0, 9, 0, 0),
    (0, 10, 0, 0),
    (0, 11, 0, 1),
    (1, 8, 0, 0),
    (1, 9, 0, 0),
    (1, 10, 0, 1),
    (1, 11, 1, 1),
    (2, 8, 0, 0),
    (2, 9, 0, 0),
    (2, 10, 0, 0),
    (2, 11, 0, 1),
    (9, 8, 0, 0),
    (9, 9, 0, 0),
    (9, 10, 0, 0),
    (9, 11, 0, 1),
    (244, 8, 0, 0),
    (244, 9, 0, 0),
    (244, 10, 0, 1),
    (244, 11, 1, 1),
];

/// How many records a disk has on which a record can't be added, behind a restart; nothing where it can.
fn left<P: Parts>(alloc: Global, parts: &mut P, pick: u64) -> Option<Option<usize>>
    requires { IsSettled (P.disks parts.old) 0 }
{
    if grow(alloc, parts) != Err(LogFault::Failed) {
        return None;
    }
    parts.restart(Disk::Log0, pick).ok()?;
    count(alloc, parts).ok()
}

/// The same of a disk of which this call fails.
fn failed_append(alloc: Global, pick: u64, call: u32) -> Option<Option<usize>> {
    let mut parts = parts(alloc, &[], &[(0, u64::from(call))]).ok()?;
    left(alloc, &mut parts, pick)
}

/// The same where the stop falls in this call, once.
fn stopped_append(alloc: Global, pick: u64, call: u32) -> Option<Option<usize>> {
    let mut fused = Fused::new(parts(alloc, &[], &[]).ok()?);
    if call == 0 {
        return None;
    }
    fused.arm(call);
    let left = left(alloc, &mut fused, pick);
    if fused.fell() == 1 { left } else { None }
}

/// Whether each leaves what it says.
fn appends_hold(alloc: Global) -> bool {
    for (pick, call, failed, stopped) in APPENDS {
        if failed_append(alloc, *pick, *call) != Some(Some(*failed))
            || stopped_append(alloc, *pick, *call) != Some(Some(*stopped))
        {
            return false;
        }
    }
    true
}

#[test]
fn an_append_is_there_or_not(rt: HostRuntime) {
    assert!(rt; appends_hold(rt.alloc()));
}

// An old log with two records, of which the new one keeps none.
const OLD: &[u8] = &[
    1, 0, 0, 0, 0, 0, 0, 0, 9, 0, 0, 0, 0, 1, 0, 0, 0, 1, 7, 1, 0, 0, 0, 1, 8, 0,
];

// Picks, and how many records are left by the call that fails: len, read, close, sync, write, sync, open, sync.
const FORMATS: &[(u64, u64, Option<usize>)] = &[
    (0, 1, Some(2)),
    (0, 2, Some(2)),
    (0, 3, Some(2)),
    (0, 4, Some(2)),
    (0, 5, None),
    (0, 6, None),
    (0, 7, None),
    (0, 8, None),
    (1, 1, Some(2)),
    (1, 2, Some(2)),
    (1, 3, Some(2)),
    (1, 4, None),
    (1, 5, None),
    (1, 6, None),
    (1, 7, None),
    (1, 8, Some(0)),
];

/// How many records a disk has that can't be formatted anew, behind a restart; nothing where it can.
fn unformatted<P: Parts>(alloc: Global, parts: &mut P, pick: u64) -> Option<Option<usize>>
    requires { IsSettled (P.disks parts.old) 0 }
{
    if Log::format(alloc, parts, Disk::Log0, 10, &[]).is_ok() {
        return None;
    }
    parts.restart(Disk::Log0, pick).ok()?;
    count(alloc, parts).ok()
}

/// The same of a disk with the old log, of which this call fails.
fn failed_format(alloc: Global, pick: u64, call: u64) -> Option<Option<usize>> {
    let mut parts = parts(alloc, OLD, &[(0, call)]).ok()?;
    unformatted(alloc, &mut parts, pick)
}

/// Whether each leaves what it says.
fn formats_hold(alloc: Global) -> bool {
    for (pick, call, want) in FORMATS {
        if failed_format(alloc, *pick, *call) != Some(*want) {
            return false;
        }
    }
    true
}

#[test]
fn a_failed_format_leaves_the_old_log_or_none(rt: HostRuntime) {
    assert!(rt; formats_hold(rt.alloc()));
}

/// The sequence of a log, how many bytes its head has, how many records it has, and whether the first one is `LIFE`.
fn told<P: Parts>(
    alloc: Global,
    parts: &mut P,
) -> Result<Option<(u64, usize, usize, bool)>, LogFault> {
    match Log::open(alloc, parts, Disk::Log0)? {
        None => Ok(None),
        Some((log, head, records)) => {
            let first = match records.get(0) {
                Some(body) => body.as_slice() == LIFE,
                None => false,
            };
            Ok(Some((log.sequence(), head.len(), records.len(), first)))
        }
    }
}

/// Whether disks over files have no log, and a log with a record once it is written and they are opened again.
fn file_keeps_its_log(rt: &HostRuntime, folder: &str) -> Result<bool, Fail> {
    let mut first = files(rt, folder, "pages")?;
    if count(rt.alloc(), &mut first) != Ok(None) {
        return Ok(false);
    }
    grow(rt.alloc(), &mut first)?;
    let mut again = files(rt, folder, "pages")?;
    Ok(told(rt.alloc(), &mut again)? == Some((1, 0, 1, true)))
}

#[test]
fn a_real_file_keeps_its_log(rt: HostRuntime) -> Result<(), Fail> {
    let folder = folder(&rt, "log-frame")?;
    let kept = file_keeps_its_log(&rt, folder.as_str())?;
    fs::remove_dir_all(&rt, folder.as_str())?;
    assert!(rt; kept);
    Ok(())
}
