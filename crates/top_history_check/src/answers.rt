ghost use Rattle.std.specs.Prelude.{◌≡◌, ◌<◌, ◌^◌, [], Some, None, length, true};
ghost use Rattle.serial_model.specs.Outcomes.{AreAnswered, all_items};
ghost use Rattle.top_history_check.specs.Answered.{AreNext, AreTold, IsTold, Tells};
ghost use Rattle.top_history_check.specs.Lines.{ArePerformed};
ghost use Rattle.top_history_check.specs.Places as spec;
ghost use Rattle.top_history_check.specs.Places.{Finds};

use crate::assembling::Items;
use crate::places::Places;
use serial_model::{Did, Ended, ItemOutcome, What};
use thor_value::{Answer, Fault, Ints, Ts, Who};

fn is_ints(answer: &Answer, ints: &Ints) -> bool
    ensures { result ≡ true → answer.now ≡ Answer.Ints ints.now }
{
    match answer {
        Answer::Ints(found) => found.as_slice() == ints.as_slice(),
        Answer::Fault(_) => false,
    }
}

fn is_fault(answer: &Answer, fault: Fault) -> bool
    ensures { result ≡ true → answer.now ≡ Answer.Fault fault }
{
    match answer {
        Answer::Ints(_) => false,
        Answer::Fault(found) => *found == fault,
    }
}

/// Whether an entry is the one that an outcome says.
fn is_of(did: &Did, outcome: &ItemOutcome) -> bool
    ensures { result ≡ true → Tells (Some did.now) outcome.now }
{
    match outcome {
        ItemOutcome::Done { ts, answer } => did.ts == *ts
            && did.number == 0
            && is_ints(&did.answer, answer),
        ItemOutcome::Faulted { ts, fault } => did.ts == *ts
            && did.number == 0
            && is_fault(&did.answer, *fault),
        ItemOutcome::Upgraded { ts, number } => did.ts == *ts
            && did.number == *number
            && is_empty(&did.answer),
        ItemOutcome::Refused { .. } => false,
        ItemOutcome::Unknown { tx } => did.ts == *tx,
    }
}

fn is_empty(answer: &Answer) -> bool
    ensures { result ≡ true → answer.now ≡ Answer.Ints [] }
{
    match answer {
        Answer::Ints(found) => found.as_slice().is_empty(),
        Answer::Fault(_) => false,
    }
}

/// Whether an outcome says that there is no entry, or may be none.
fn wants_none(outcome: &ItemOutcome) -> bool
    ensures { result ≡ true → Tells None outcome.now }
{
    match outcome {
        ItemOutcome::Done { .. } | ItemOutcome::Faulted { .. } | ItemOutcome::Upgraded { .. } =>
            false,
        ItemOutcome::Refused { .. } | ItemOutcome::Unknown { .. } => true,
    }
}

/// Whether the entry of an item, where there is one, is what its outcome says.
fn is_told(history: &[Did], places: &Places, who: Who, ended: &Ended) -> bool
    ensures { result ≡ true → IsTold places.now history.now who.client who.index ended.now }
{
    if ended.who != who {
        return false;
    }
    match places.get(who) {
        Some(place) => match history.get(place) {
            Some(did) => is_of(did, &ended.outcome),
            None => wants_none(&ended.outcome),
        },
        None => wants_none(&ended.outcome),
    }
}

/// Whether these are the outcomes of a client's items, each as the history has it.
fn are_told(history: &[Did], places: &Places, client: u8, ends: &[Ended]) -> bool
    requires { length ends.now < 2 ^ 32 }
    ensures { result ≡ true → AreTold places.now history.now client 1 ends.now }
{
    for place in 0..ends.len() {
        let who = Who {
            client,
            index: place as u32 + 1,
        };
        if !is_told(history, places, who, &ends[place]) {
            return false;
        }
    }
    true
}

/// Whether the outcomes from a place on begin with those of a client's items, each as the history has it.
fn are_next(
    history: &[Did],
    places: &Places,
    client: u8,
    items: &[What],
    ends: &[Ended],
    used: usize,
) -> bool
    ensures { result ≡ true → AreNext places.now history.now client items.now ends.now used }
{
    if items.len() >= 4_294_967_295 || ends.len() < used || ends.len() - used < items.len() {
        return false;
    }
    let own = ends.split_at(used).1.split_at(items.len()).0;
    are_told(history, places, client, own)
}

/// Whether the outcomes are those of the items of all clients, in their order, each as the history has it.
pub fn are_answered(history: &[Did], places: &Places, clients: &[Items], ends: &[Ended]) -> bool
    requires performed { ArePerformed clients.now history.now }
    requires places { Finds places.now history.now }
    ensures { result ≡ true → AreAnswered history.now (all_items clients.now) ends.now }
{
    if clients.len() > 255 {
        return false;
    }
    let mut used = 0;
    for place in 0..clients.len() {
        let items = clients[place].as_slice();
        if !are_next(history, places, place as u8 + 1, items, ends, used) {
            return false;
        }
        used += items.len();
    }
    used == ends.len()
}
