//! The messages that wait for sessions.

use page_format::{Page, PageImage};
use session_outbox::{At, Message, Outbox, Verdict};
use std::alloc::Global;
use thor_value::{NoMemory, Orefs, Text, Ts};

/// A message without its text and its names, with its place.
enum Form {
    Grant(u64),
    Page(u64),
    Invalid(u64),
    Upgrade(u64),
}

/// What is done for a session.
enum Step {
    Push(u32, Form),
    /// A message is taken; its place.
    Take(u32, Option<u64>),
    Drop(u32),
}

const STEPS: &[Step] = &[
    Step::Take(1, None),
    Step::Push(1, Form::Grant(2)),
    Step::Push(2, Form::Page(3)),
    Step::Push(1, Form::Invalid(3)),
    Step::Push(2, Form::Upgrade(4)),
    Step::Take(2, Some(3)),
    Step::Take(1, Some(2)),
    Step::Take(1, Some(3)),
    Step::Take(1, None),
    Step::Push(1, Form::Grant(5)),
    Step::Take(1, Some(5)),
    Step::Drop(2),
    Step::Take(2, None),
];

fn message(alloc: Global, form: &Form) -> Result<Message, NoMemory> {
    Ok(match form {
        Form::Grant(place) => Message::Grant {
            page: 4,
            place: *place,
        },
        Form::Page(place) => Message::Page {
            page: 4,
            bytes: PageImage::new(Page::empty(alloc, 4)?),
            place: *place,
        },
        Form::Invalid(place) => Message::Invalid {
            orefs: Orefs::new(alloc),
            place: *place,
        },
        Form::Upgrade(place) => Message::Upgrade {
            number: 1,
            text: Text::new(alloc),
            place: *place,
        },
    })
}

/// The place of what is taken.
fn taken(outbox: &mut Outbox, session: u32) -> Option<u64> {
    match outbox.take(session) {
        Some(message) => Some(message.place()),
        None => None,
    }
}

/// Takes a step. The answer is whether it comes out as it says.
fn holds(alloc: Global, outbox: &mut Outbox, step: &Step) -> Result<bool, NoMemory> {
    match step {
        Step::Push(session, form) => outbox.push(*session, message(alloc, form)?)?,
        Step::Take(session, place) => return Ok(taken(outbox, *session) == *place),
        Step::Drop(session) => outbox.drop_session(*session),
    }
    Ok(true)
}

/// How many steps come out as they say before one that doesn't.
fn walk(alloc: Global, outbox: &mut Outbox) -> Result<usize, NoMemory> {
    let mut count = 0usize;
    for step in STEPS {
        if !holds(alloc, outbox, step)? {
            return Ok(count);
        }
        count = count.saturating_add(1);
    }
    Ok(count)
}

fn held(alloc: Global) -> Result<usize, NoMemory> {
    let mut outbox = Outbox::new(alloc)?;
    walk(alloc, &mut outbox)
}

#[test]
fn each_session_takes_its_messages_in_order(rt: HostRuntime) {
    assert!(rt; held(rt.alloc()) == Ok(STEPS.len()));
}

#[test]
fn verdicts_tell_what_they_are_made_of(rt: HostRuntime) {
    let tx = Ts {
        time: 7,
        repo: 0,
        life: 1,
    };
    let verdict = Verdict::new(tx, true);
    let at = At {
        repo: 0,
        session: 1,
    };
    assert!(rt; verdict.tx() == tx && verdict.commit() && at == at);
    assert!(rt; !Verdict::new(tx, false).commit());
}
