//! Transactions in two phases: what is open, what is kept, and how each stands.

ghost use Rattle.std.specs.Prelude.{◌≡◌};

use log_entries::{Kind, Request};
use std::alloc::Global;
use thor_value::{Answer, Ints, NoMemory, Orefs, Repos, Ts, Who, Writes};
use two_phase::{Standing, Table};

const FIRST: Ts = Ts {
    time: 3,
    repo: 0,
    life: 1,
};

const SECOND: Ts = Ts {
    time: 5,
    repo: 0,
    life: 1,
};

const ALONE: Ts = Ts {
    time: 4,
    repo: 0,
    life: 1,
};

/// What is done to a transaction, or seen of it.
enum Step {
    Open(Ts),
    Keep(Ts),
    /// It commits alone for a client.
    Alone(u8, Ts),
    /// It is decided; whether it was open.
    Decide(Ts, bool, bool),
    /// It is finished; whether it was open.
    Finish(Ts, bool),
    Forget(Ts),
    Ask(Ts, Standing),
    /// The next open one behind a time.
    NextOpen(Option<Ts>, Option<Ts>),
    /// The next one behind a time whose decision is kept.
    NextKept(Option<Ts>, Option<Ts>),
    /// The next client with one that committed alone.
    NextAlone(Option<u8>, Option<(u8, Ts)>),
}

const KEPT: &[Step] = &[
    Step::Open(SECOND),
    Step::Alone(1, ALONE),
    Step::Ask(SECOND, Standing::Open),
    Step::Ask(ALONE, Standing::Committed),
    Step::Ask(FIRST, Standing::Aborted),
    Step::NextOpen(None, Some(SECOND)),
    Step::NextOpen(Some(SECOND), None),
    Step::Decide(FIRST, true, false),
    Step::Decide(SECOND, true, true),
    Step::Ask(SECOND, Standing::Committed),
    Step::Finish(SECOND, false),
    Step::NextKept(Some(FIRST), Some(SECOND)),
    Step::Forget(SECOND),
    Step::Ask(SECOND, Standing::Aborted),
    Step::NextAlone(None, Some((1, ALONE))),
    Step::NextAlone(Some(1), None),
];

const ABORTED: &[Step] = &[
    Step::Open(FIRST),
    Step::Keep(SECOND),
    Step::Decide(FIRST, false, true),
    Step::Ask(FIRST, Standing::Aborted),
    Step::NextKept(None, Some(SECOND)),
    Step::Open(ALONE),
    Step::Finish(ALONE, true),
    Step::Ask(ALONE, Standing::Aborted),
    // A decision is forgotten that is kept, and no other; what is open stays.
    Step::Keep(FIRST),
    Step::Forget(SECOND),
    Step::Ask(FIRST, Standing::Committed),
    Step::Open(ALONE),
    Step::Forget(ALONE),
    Step::Ask(ALONE, Standing::Open),
];

fn request(alloc: Global, tx: Ts) -> Request
    ensures { result.tx ≡ tx }
{
    Request {
        tx,
        who: Who {
            client: 1,
            index: 1,
        },
        session: 1,
        kind: Kind::App,
        epoch: 0,
        upto: 0,
        ros: Orefs::new(alloc),
        writes: Writes::new(alloc),
        fresh: Orefs::new(alloc),
        answer: Answer::Ints(Ints::new(alloc)),
        others: Repos::new(alloc),
    }
}

/// Opens a transaction, or keeps its decision, where the table doesn't know of it. The answer is whether it didn't.
fn enter(alloc: Global, table: &mut Table, tx: Ts, keep: bool) -> Result<bool, NoMemory> {
    if table.knows(tx) {
        return Ok(false);
    }
    if keep {
        table.keep(tx)?;
    } else {
        table.open(request(alloc, tx))?;
    }
    Ok(true)
}

/// Whether a request is handed back.
fn is_there(request: Option<Request>) -> bool {
    request.is_some()
}

/// The next open transaction.
fn next_open(table: &Table, after: Option<Ts>) -> Option<Ts> {
    match table.next_open(after) {
        Some(request) => Some(request.tx),
        None => None,
    }
}

/// Takes a step that changes a table. The answer is whether it comes out as it says.
fn holds(alloc: Global, table: &mut Table, step: &Step) -> Result<bool, NoMemory> {
    match step {
        Step::Open(tx) => return enter(alloc, table, *tx, false),
        Step::Keep(tx) => return enter(alloc, table, *tx, true),
        Step::Alone(client, tx) => table.alone(*client, *tx)?,
        Step::Decide(tx, commit, open) => return Ok(is_there(table.decide(*tx, *commit)) == *open),
        Step::Finish(tx, open) => return Ok(is_there(table.finish(*tx)) == *open),
        Step::Forget(tx) => table.forget(*tx),
        _ => return Ok(is_seen(table, step)),
    }
    Ok(true)
}

/// Whether what a step sees is as it says.
fn is_seen(table: &Table, step: &Step) -> bool {
    match step {
        Step::Ask(tx, standing) => table.ask(*tx) == *standing,
        Step::NextOpen(after, next) => next_open(table, *after) == *next,
        Step::NextKept(after, next) => table.next_kept(*after) == *next,
        Step::NextAlone(after, next) => table.next_alone(*after) == *next,
        _ => true,
    }
}

/// How many steps come out as they say before one that doesn't.
fn walk(alloc: Global, table: &mut Table, steps: &[Step]) -> Result<usize, NoMemory> {
    let mut count = 0usize;
    for step in steps {
        if !holds(alloc, table, step)? {
            return Ok(count);
        }
        count = count.saturating_add(1);
    }
    Ok(count)
}

fn held(alloc: Global, steps: &[Step]) -> Result<usize, NoMemory> {
    let mut table = Table::new(alloc)?;
    walk(alloc, &mut table, steps)
}

#[test]
fn transactions_are_open_then_kept_then_forgotten(rt: HostRuntime) {
    assert!(rt; held(rt.alloc(), KEPT) == Ok(KEPT.len()));
}

#[test]
fn aborted_and_finished_ones_leave(rt: HostRuntime) {
    assert!(rt; held(rt.alloc(), ABORTED) == Ok(ABORTED.len()));
}
