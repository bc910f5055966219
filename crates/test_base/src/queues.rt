//! Queues and requests in tables, each request with what stands against it.

use base_reasons::Reason;
use std::alloc::Global;
use std::test::Fail;
use thor_value::{NoMemory, Obj, Oref, Orefs, Ts, Values, Writes};
use validation_queue::{Queue, is_in_order};

/// A transaction as a table has it: its time, and the slots of the objects that it read and of those
/// that it wrote.
type Row = (u64, &'static [u8], &'static [u8]);

/// What stands against a request, by the time of the transaction and the slot of the object.
enum Stands {
    Nothing,
    Threshold(u64),
    Earlier(u64, u8),
    Later(u64, u8),
    Room,
}

/// The transactions in the queue, each with whether it is decided.
const MEMBERS: &[(Row, bool)] = &[
    ((20, &[1, 2], &[1]), true),
    ((30, &[3, 4, 5], &[4, 5]), false),
    ((40, &[5, 6], &[5]), false),
    ((50, &[6, 7, 8], &[8]), true),
    ((60, &[7], &[]), false),
    ((70, &[9, 10, 11], &[9]), true),
];

/// Requests, each with what stands against it beside these.
const REQUESTS: &[(Row, Stands)] = &[
    // the threshold is 10: at it, below it, above it
    ((10, &[], &[]), Stands::Threshold(10)),
    ((9, &[4], &[]), Stands::Threshold(10)),
    ((11, &[], &[]), Stands::Nothing),
    // a decided transaction below stands against nothing
    ((25, &[1], &[1]), Stands::Nothing),
    // an undecided one below stands against a read of what it wrote, and not of what it read
    ((35, &[3], &[3]), Stands::Nothing),
    ((35, &[4], &[]), Stands::Earlier(30, 4)),
    // the least transaction, then the least name
    ((45, &[5, 6], &[]), Stands::Earlier(30, 5)),
    ((45, &[4, 5], &[]), Stands::Earlier(30, 4)),
    // one above, decided or not: a read of what it wrote, or a write of what it read
    ((45, &[8], &[]), Stands::Later(50, 8)),
    ((45, &[6, 7], &[7]), Stands::Later(50, 7)),
    ((45, &[6, 7, 8], &[6, 7]), Stands::Later(50, 6)),
    ((55, &[7], &[7]), Stands::Later(60, 7)),
    ((55, &[7], &[]), Stands::Nothing),
    // names before a transaction's, among them and behind them
    ((45, &[1, 3, 6], &[1]), Stands::Nothing),
    ((45, &[1, 3, 5, 6], &[]), Stands::Earlier(30, 5)),
    // of a name that it read and one that it wrote the lesser is told
    ((65, &[9, 11], &[11]), Stands::Later(70, 9)),
    ((65, &[10, 11], &[10, 11]), Stands::Later(70, 10)),
    // an earlier one is told first
    ((45, &[4, 8], &[]), Stands::Earlier(30, 4)),
];

/// Times of upgrades, each with what stands against it beside the same transactions.
const UPGRADES: &[(u64, Stands)] = &[
    (11, Stands::Threshold(70)),
    (70, Stands::Threshold(70)),
    (71, Stands::Nothing),
];

fn ts(time: u64) -> Ts {
    Ts {
        time,
        repo: 0,
        life: 1,
    }
}

fn oref(slot: u8) -> Oref {
    Oref {
        repo: 0,
        page: 1,
        slot,
    }
}

fn expected(stands: &Stands) -> Result<(), Reason> {
    match stands {
        Stands::Nothing => Ok(()),
        Stands::Threshold(time) => Err(Reason::TooOld {
            threshold: ts(*time),
        }),
        Stands::Earlier(time, slot) => Err(Reason::Earlier {
            tx: ts(*time),
            oref: oref(*slot),
        }),
        Stands::Later(time, slot) => Err(Reason::Later {
            tx: ts(*time),
            oref: oref(*slot),
        }),
        Stands::Room => Err(Reason::Full { limit: 1_024 }),
    }
}

fn names(alloc: Global, slots: &[u8]) -> Result<Orefs, NoMemory> {
    let mut names = Orefs::new(alloc);
    for slot in slots {
        names.push(oref(*slot))?;
    }
    Ok(names)
}

fn writes(alloc: Global, slots: &[u8]) -> Result<Writes, NoMemory> {
    let mut writes = Writes::new(alloc);
    for slot in slots {
        let object = Obj {
            class: 0,
            ver: 0,
            fields: Values::new(alloc),
        };
        writes.push((oref(*slot), object))?;
    }
    Ok(writes)
}

/// Enters a transaction into a queue, and decides it where that is asked for. The answer is whether it could be
/// entered.
fn enter(
    queue: &mut Queue,
    tx: Ts,
    ros: &Orefs,
    writes: &Writes,
    decided: bool,
) -> Result<bool, NoMemory> {
    if !is_in_order(ros, writes) || queue.has(tx) || queue.len() >= 1_024 {
        return Ok(false);
    }
    queue.load(tx, false, ros, writes)?;
    if decided {
        queue.decide(tx, true);
    }
    Ok(true)
}

fn load(alloc: Global, queue: &mut Queue, row: &Row, decided: bool) -> Result<bool, NoMemory> {
    let (time, read, written) = *row;
    let ros = names(alloc, read)?;
    let writes = writes(alloc, written)?;
    enter(queue, ts(time), &ros, &writes, decided)
}

/// Whether this stands against a request, whose names are in order.
fn is_answered(
    queue: &Queue,
    tx: Ts,
    upgrade: bool,
    ros: &Orefs,
    writes: &Writes,
    stands: &Stands,
) -> bool {
    is_in_order(ros, writes) && queue.validate(tx, upgrade, ros, writes) == expected(stands)
}

fn meets(
    alloc: Global,
    queue: &Queue,
    row: &Row,
    upgrade: bool,
    stands: &Stands,
) -> Result<bool, NoMemory> {
    let (time, read, written) = *row;
    let ros = names(alloc, read)?;
    let writes = writes(alloc, written)?;
    Ok(is_answered(queue, ts(time), upgrade, &ros, &writes, stands))
}

/// Whether each of the transactions can be loaded.
fn all_load(alloc: Global, queue: &mut Queue) -> Result<bool, NoMemory> {
    for (row, decided) in MEMBERS {
        if !load(alloc, queue, row, *decided)? {
            return Ok(false);
        }
    }
    Ok(true)
}

/// How many requests and upgrades meet what stands against them, before one that doesn't.
fn met(alloc: Global, queue: &Queue) -> Result<usize, NoMemory> {
    let mut count = 0usize;
    for (row, stands) in REQUESTS {
        if !meets(alloc, queue, row, false, stands)? {
            return Ok(count);
        }
        count = count.saturating_add(1);
    }
    for (time, stands) in UPGRADES {
        if !meets(alloc, queue, &(*time, &[], &[]), true, stands)? {
            return Ok(count);
        }
        count = count.saturating_add(1);
    }
    Ok(count)
}

/// The first undecided transaction, what blocks an upgrade, and what blocks another request.
fn waits(queue: &Queue) -> (Option<Ts>, Option<Ts>, Option<Ts>) {
    (
        queue.undecided(),
        queue.blocking(true),
        queue.blocking(false),
    )
}

#[test]
fn requests_clash_with_the_queue(rt: HostRuntime) -> Result<(), Fail> {
    let mut queue = Queue::new(rt.alloc(), ts(10))?;
    assert!(rt; all_load(rt.alloc(), &mut queue)?);
    let count = met(rt.alloc(), &queue)?;
    assert!(rt;
        count == REQUESTS.len() + UPGRADES.len(),
        "behind {count} requests"
    );
    assert!(rt; waits(&queue) == (Some(ts(30)), Some(ts(30)), None));
    queue.clear(ts(80));
    assert!(rt; queue.threshold() == ts(80) && queue.undecided().is_none());
    Ok(())
}

/// Whether 1,024 undecided transactions can be loaded, from the time 1,000 on.
fn fills(alloc: Global, queue: &mut Queue) -> Result<bool, NoMemory> {
    for time in 1_000..2_024u64 {
        if !load(alloc, queue, &(time, &[], &[]), false)? {
            return Ok(false);
        }
    }
    Ok(true)
}

/// Adds a transaction against which nothing stands, as a decided one. The answer is whether nothing did.
fn add(queue: &mut Queue, tx: Ts, ros: &Orefs, writes: &Writes) -> Result<bool, NoMemory> {
    if !is_in_order(ros, writes)
        || queue.has(tx)
        || !queue.validate(tx, false, ros, writes).is_ok()
    {
        return Ok(false);
    }
    queue.add(tx, false, ros, writes, true)?;
    Ok(true)
}

/// A request, for which a full queue has room where a decided transaction may go.
const LAST: Row = (3_000, &[1], &[1]);

/// Whether the request is refused for want of room, and is added once a transaction is decided.
fn finds_room(alloc: Global, queue: &mut Queue) -> Result<bool, NoMemory> {
    let refused = meets(alloc, queue, &LAST, false, &Stands::Room)?;
    queue.decide(ts(1_500), true);
    let passes = meets(alloc, queue, &LAST, false, &Stands::Nothing)?;
    let ros = names(alloc, LAST.1)?;
    let writes = writes(alloc, LAST.2)?;
    if refused && passes {
        add(queue, ts(3_000), &ros, &writes)
    } else {
        Ok(false)
    }
}

#[test]
fn a_full_queue_lets_a_decided_one_go(rt: HostRuntime) -> Result<(), Fail> {
    let mut queue = Queue::new(rt.alloc(), ts(10))?;
    assert!(rt; fills(rt.alloc(), &mut queue)? && finds_room(rt.alloc(), &mut queue)?);
    assert!(rt; queue.len() == 1_024 && queue.threshold() == ts(1_500));
    assert!(rt; queue.has(ts(3_000)) && !queue.has(ts(1_500)));
    queue.decide(ts(1_000), false);
    assert!(rt; queue.undecided() == Some(ts(1_001)));
    Ok(())
}
