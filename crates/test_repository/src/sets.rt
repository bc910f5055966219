//! What a repository knows of its sessions' copies.

use cached_sets::Sets;
use std::alloc::Global;
use thor_value::{NoMemory, Obj, Oref, Orefs, Values, Writes};
use validation_queue::is_in_order;

const X: Oref = Oref {
    repo: 0,
    page: 7,
    slot: 1,
};

const Y: Oref = Oref {
    repo: 0,
    page: 8,
    slot: 1,
};

/// What is done to the sets, or seen of them. Each write is of X and Y, and so is each read.
enum Step {
    /// A session has a page.
    Cache(u32, u32),
    /// A session writes at a place.
    Touch(u32, u64),
    /// A session knows what was written below a place.
    Acknowledge(u32, u64),
    Drop(u32),
    /// The next object behind one of what is invalid for a session.
    Invalid(u32, Option<Oref>, Option<(Oref, u64)>),
    /// What is stale of what a session read, which knows what was written below a place.
    Stale(u32, u64, Option<(Oref, u64)>),
}

const STEPS: &[Step] = &[
    Step::Cache(1, 7),
    Step::Cache(2, 7),
    Step::Touch(1, 5),
    // The second session has x, the writer has no news of its own write, and nobody has y.
    Step::Invalid(2, None, Some((X, 5))),
    Step::Invalid(2, Some(X), None),
    Step::Invalid(1, None, None),
    Step::Stale(2, 5, Some((X, 5))),
    Step::Stale(2, 6, None),
    // A page that is cached behind the write.
    Step::Cache(2, 8),
    Step::Invalid(2, Some(X), None),
    Step::Touch(1, 6),
    Step::Invalid(2, Some(X), Some((Y, 6))),
    // Acknowledged at the place, it stays; one above, it leaves.
    Step::Acknowledge(2, 6),
    Step::Invalid(2, None, Some((X, 6))),
    Step::Acknowledge(2, 7),
    Step::Invalid(2, None, None),
    // The set is smaller than the request, which reads y alone of it.
    Step::Touch(2, 7),
    Step::Stale(1, 0, Some((X, 7))),
    Step::Drop(1),
    Step::Invalid(1, None, None),
    Step::Touch(2, 8),
    Step::Invalid(1, None, None),
    // Behind its end it has the pages alone that it has anew.
    Step::Cache(1, 8),
    Step::Touch(2, 9),
    Step::Invalid(1, None, Some((Y, 9))),
];

/// Writes of empty objects.
fn writes(alloc: Global) -> Result<Writes, NoMemory> {
    let mut writes = Writes::new(alloc);
    for name in [X, Y] {
        let object = Obj {
            class: 0,
            ver: 0,
            fields: Values::new(alloc),
        };
        writes.push((name, object))?;
    }
    Ok(writes)
}

/// What is stale of the names that a request read, where they are in order.
fn stale(
    sets: &Sets,
    session: u32,
    read: &Orefs,
    written: &Writes,
    upto: u64,
) -> Option<(Oref, u64)> {
    if is_in_order(read, written) {
        sets.stale(session, read, upto)
    } else {
        None
    }
}

/// Takes a step. The answer is whether it comes out as it says.
fn holds(sets: &mut Sets, read: &Orefs, written: &Writes, step: &Step) -> Result<bool, NoMemory> {
    match step {
        Step::Cache(session, page) => sets.cache(*session, *page)?,
        Step::Touch(session, place) => sets.touch(*session, written, *place)?,
        Step::Acknowledge(session, upto) => sets.acknowledge(*session, *upto),
        Step::Drop(session) => sets.drop_session(*session),
        Step::Invalid(session, after, next) => {
            return Ok(sets.invalid(*session, *after) == *next);
        }
        Step::Stale(session, upto, first) => {
            return Ok(stale(sets, *session, read, written, *upto) == *first);
        }
    }
    Ok(true)
}

/// How many steps come out as they say before one that doesn't.
fn walk(sets: &mut Sets, read: &Orefs, written: &Writes) -> Result<usize, NoMemory> {
    let mut count = 0usize;
    for step in STEPS {
        if !holds(sets, read, written, step)? {
            return Ok(count);
        }
        count = count.saturating_add(1);
    }
    Ok(count)
}

fn held_behind(alloc: Global, written: &Writes) -> Result<usize, NoMemory> {
    let read = Orefs::from_slice(alloc, &[X, Y])?;
    let mut sets = Sets::new(alloc)?;
    walk(&mut sets, &read, written)
}

fn held(alloc: Global) -> Result<usize, NoMemory> {
    let written = writes(alloc)?;
    held_behind(alloc, &written)
}

#[test]
fn a_write_is_seen_by_the_others_that_have_the_page(rt: HostRuntime) {
    assert!(rt; held(rt.alloc()) == Ok(STEPS.len()));
}

/// The place at which a session is told that it has too many, where it is told at each from 1 on and its client has
/// acknowledged those below `upto` once 4,096 are noted; 0 where it never is.
fn silent_at(alloc: Global, upto: u64) -> Result<u64, NoMemory> {
    let mut sets = Sets::new(alloc)?;
    for place in 1..10_000u64 {
        if sets.note(1, place)? {
            return Ok(place);
        }
        if place == 4_096 {
            sets.acknowledge(1, upto);
        }
    }
    Ok(0)
}

#[test]
fn a_session_may_leave_4096_places_unacknowledged(rt: HostRuntime) {
    assert!(rt; silent_at(rt.alloc(), 0) == Ok(4_097));
    assert!(rt; silent_at(rt.alloc(), 2) == Ok(4_098));
    assert!(rt; silent_at(rt.alloc(), 4_097) == Ok(8_193));
}
