//! Reports of items that end in each way, many of which no run has today.

use base_reasons::Reason;
use class_defs::{Block, Upgrade};
use report_text::print_report;
use serial_model::{Cause, Did, Dids, Ended, Ends, ItemOutcome, What};
use std::alloc::Global;
use std::test::Fail;
use thor_value::{Answer, Fault, Ints, NoMemory, Oref, Orefs, Sequence, Text, Ts, Who};

/// How an item ended, as a table has it.
enum How {
    Done(u64, &'static [i64]),
    Upgraded(Ts, u32),
    Faulted(Fault),
    Refused(Cause),
    Unknown(u64),
}

/// An item as a table has it: its client and index, how often it was tried, and how it ended.
type Item = (u8, u32, u32, How);

/// An entry as a table has it: its time, client and index, the number of its upgrade, the objects that it created, and
/// what it printed.
type Entry = (u64, u8, u32, u32, &'static [Oref], &'static [i64]);

const FIRST: Oref = Oref {
    repo: 0,
    page: 1,
    slot: 0,
};

const LAST: Oref = Oref {
    repo: 0,
    page: 1,
    slot: 11,
};

const ZERO: Oref = Oref {
    repo: 0,
    page: 0,
    slot: 0,
};

const OTHER: Oref = Oref {
    repo: 1,
    page: 2,
    slot: 3,
};

const END: Oref = Oref {
    repo: 7,
    page: 65535,
    slot: 11,
};

const FAR: Oref = Oref {
    repo: 255,
    page: 4294967295,
    slot: 255,
};

const SECOND: Ts = Ts {
    time: 2,
    repo: 0,
    life: 1,
};

const SEVENTH: Ts = Ts {
    time: 7,
    repo: 0,
    life: 1,
};

const EIGHTH: Ts = Ts {
    time: 8,
    repo: 0,
    life: 1,
};

const NINTH: Ts = Ts {
    time: 9,
    repo: 0,
    life: 1,
};

const TENTH: Ts = Ts {
    time: 10,
    repo: 0,
    life: 1,
};

const LATE: Ts = Ts {
    time: 18446744073709551615,
    repo: 255,
    life: 4294967295,
};

fn ts(time: u64) -> Ts {
    Ts {
        time,
        repo: 0,
        life: 1,
    }
}

fn outcome(alloc: Global, how: &How) -> Result<ItemOutcome, NoMemory> {
    match how {
        How::Done(time, values) => Ok(ItemOutcome::Done {
            ts: ts(*time),
            answer: Ints::from_slice(alloc, values)?,
        }),
        How::Upgraded(ts, number) => Ok(ItemOutcome::Upgraded {
            ts: *ts,
            number: *number,
        }),
        How::Faulted(fault) => Ok(ItemOutcome::Faulted {
            ts: ts(3),
            fault: *fault,
        }),
        How::Refused(cause) => Ok(ItemOutcome::Refused { cause: *cause }),
        How::Unknown(time) => Ok(ItemOutcome::Unknown { tx: ts(*time) }),
    }
}

fn ends_of(alloc: Global, items: &[Item]) -> Result<Ends, NoMemory> {
    let mut ends = Ends::new(alloc);
    for (client, index, tries, how) in items {
        ends.push(Ended {
            who: Who {
                client: *client,
                index: *index,
            },
            tries: *tries,
            outcome: outcome(alloc, how)?,
        })?;
    }
    Ok(ends)
}

/// A transaction without statements, or an upgrade of no class where it has a number.
pub fn what(alloc: Global, number: u32) -> Result<What, NoMemory> {
    if number == 0 {
        return Ok(What::Tx(Block::new(alloc, Sequence::new(alloc))?));
    }
    Ok(What::Upgrade(Upgrade {
        line: 1,
        classes: Sequence::new(alloc),
    }))
}

fn history_of(alloc: Global, entries: &[Entry]) -> Result<Dids, NoMemory> {
    let mut history = Dids::new(alloc);
    for (time, client, index, number, fresh, printed) in entries {
        history.push(Did {
            ts: ts(*time),
            who: Who {
                client: *client,
                index: *index,
            },
            what: what(alloc, *number)?,
            number: *number,
            fresh: Orefs::from_slice(alloc, fresh)?,
            answer: Answer::Ints(Ints::from_slice(alloc, printed)?),
        })?;
    }
    Ok(history)
}

/// Items, a history, and their report.
const REPORTS: &[(&[Item], &[Entry], &[u8])] = &[
    (&[], &[], b"history\nend 0\n"),
    (
        &[
            (1, 1, 1, How::Done(1, &[])),
            (1, 2, 1, How::Upgraded(SECOND, 1)),
            (1, 3, 2, How::Done(5, &[70, -7, 0])),
            (2, 1, 4, How::Unknown(6)),
        ],
        &[
            (1, 1, 1, 0, &[FIRST, LAST], &[]),
            (2, 1, 2, 1, &[], &[]),
            (5, 1, 3, 0, &[], &[70, -7, 0]),
            (6, 2, 1, 0, &[ZERO], &[3]),
        ],
        b"1.1 Done 1.0.1 try 1 :\n1.2 Done 2.0.1 try 1 upgrade 1\n1.3 Done 5.0.1 try 2 : 70 -7 0\n2.1 Unknown 6.0.1\nhistory\n1.0.1 1.1 new 0.1.0 0.1.11 :\n2.0.1 1.2 upgrade 1\n5.0.1 1.3 : 70 -7 0\n6.0.1 2.1 new 0.0.0 : 3\nend 4\n",
    ),
    (
        &[
            (1, 1, 2, How::Faulted(Fault::NullCall)),
            (1, 2, 2, How::Faulted(Fault::Steps)),
            (1, 3, 2, How::Faulted(Fault::Depth)),
            (1, 4, 2, How::Faulted(Fault::Large)),
        ],
        &[],
        b"1.1 Faulted NullCall 3.0.1 try 2\n1.2 Faulted Steps 3.0.1 try 2\n1.3 Faulted Depth 3.0.1 try 2\n1.4 Faulted Large 3.0.1 try 2\nhistory\nend 0\n",
    ),
    (
        &[
            (
                2,
                1,
                1,
                How::Refused(Cause::Reason(Reason::Stale {
                    oref: ZERO,
                    place: 1,
                })),
            ),
            (
                2,
                2,
                1,
                How::Refused(Cause::Reason(Reason::Earlier {
                    tx: SEVENTH,
                    oref: OTHER,
                })),
            ),
            (
                2,
                3,
                1,
                How::Refused(Cause::Reason(Reason::Later {
                    tx: EIGHTH,
                    oref: OTHER,
                })),
            ),
            (
                2,
                4,
                1,
                How::Refused(Cause::Reason(Reason::TooOld { threshold: NINTH })),
            ),
            (2, 5, 1, How::Refused(Cause::Reason(Reason::Epoch { n: 3 }))),
            (
                2,
                6,
                1,
                How::Refused(Cause::Reason(Reason::Blocked { tx: TENTH })),
            ),
            (
                2,
                7,
                1,
                How::Refused(Cause::Reason(Reason::Gone { session: 4 })),
            ),
            (2, 8, 1, How::Refused(Cause::Missing { oref: END })),
            (2, 9, 1, How::Refused(Cause::Down { repo: 2 })),
            (
                2,
                10,
                1,
                How::Refused(Cause::Reason(Reason::Full { limit: 12 })),
            ),
            (2, 11, 1, How::Refused(Cause::Reason(Reason::ClockEnd))),
            (2, 12, 1, How::Refused(Cause::Calls)),
        ],
        &[],
        b"2.1 Refused Stale 0.0.0 1 try 1\n2.2 Refused Earlier 7.0.1 1.2.3 try 1\n2.3 Refused Later 8.0.1 1.2.3 try 1\n2.4 Refused TooOld 9.0.1 try 1\n2.5 Refused Epoch 3 try 1\n2.6 Refused Blocked 10.0.1 try 1\n2.7 Refused Gone 4 try 1\n2.8 Refused Missing 7.65535.11 try 1\n2.9 Refused Down 2 try 1\n2.10 Refused Full 12 try 1\n2.11 Refused ClockEnd try 1\n2.12 Refused Calls try 1\nhistory\nend 0\n",
    ),
    (
        &[
            (
                255,
                4294967295,
                4294967295,
                How::Done(10, &[-9223372036854775808, 9223372036854775807]),
            ),
            (
                64,
                1,
                1,
                How::Refused(Cause::Reason(Reason::Stale {
                    oref: FAR,
                    place: 18446744073709551615,
                })),
            ),
            (64, 2, 1, How::Upgraded(LATE, 4294967295)),
        ],
        &[],
        b"255.4294967295 Done 10.0.1 try 4294967295 : -9223372036854775808 9223372036854775807\n64.1 Refused Stale 255.4294967295.255 18446744073709551615 try 1\n64.2 Done 18446744073709551615.255.4294967295 try 1 upgrade 4294967295\nhistory\nend 0\n",
    ),
];

fn report_of(alloc: Global, ends: &Ends, entries: &[Entry]) -> Result<Text, NoMemory> {
    let history = history_of(alloc, entries)?;
    print_report(alloc, ends, &history)
}

/// Whether items and a history have this report.
fn have_report(
    alloc: Global,
    items: &[Item],
    entries: &[Entry],
    report: &[u8],
) -> Result<bool, NoMemory> {
    let ends = ends_of(alloc, items)?;
    match report_of(alloc, &ends, entries) {
        Ok(text) => Ok(text.as_slice() == report),
        Err(refused) => Err(refused),
    }
}

#[test]
fn items_and_histories_have_their_lines(rt: HostRuntime) -> Result<(), Fail> {
    for (items, entries, report) in REPORTS {
        assert!(rt; have_report(rt.alloc(), items, entries, report)?);
    }
    Ok(())
}
