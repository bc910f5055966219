//! The lines of the items, compared with the history.

ghost use Rattle.std.specs.Prelude.{◌≡◌, ◌<◌, ◌+◌, ◌↔◌, [], Some, None, IsTrue, length, slice_get};
ghost use Rattle.std.specs.Option.{option_copied};
ghost use Rattle.audit_check.specs.Items.{AreRightAll, AreRightOr, IsOf, IsRightBy, items_at};
ghost use Rattle.audit_check.specs.Lines.{FaultIs};
ghost use Rattle.audit_check.specs.Standings.{Stand};
ghost use Rattle.audit_check.specs.declared.disagreement.Disagreement.TheVariants as line;
ghost use Rattle.serial_model.specs.Outcomes.{all_items, items_from};
ghost use Rattle.top_history_check.specs.Answered.{Tells};
ghost use Rattle.top_history_check.specs.Lines.{ArePerformed};

use crate::disagreement::{AuditFault, Disagreement};
use crate::standing::Standing;
use crate::standings::Standings;
use serial_model::{Did, Ended, ItemOutcome, What};
use thor_value::{Answer, Fault, Ints, Who};
use top_history_check::Items;

/// The most clients that have numbers.
const CLIENTS: usize = 255;

/// The most items of a client that have numbers.
const ITEMS: usize = 4_294_967_294;

fn is_ints(answer: &Answer, ints: &Ints) -> bool
    ensures { IsTrue result ↔ (answer.now ≡ Answer.Ints ints.now) }
{
    match answer {
        Answer::Ints(found) => found.as_slice() == ints.as_slice(),
        Answer::Fault(_) => false,
    }
}

fn is_fault(answer: &Answer, fault: Fault) -> bool
    ensures { IsTrue result ↔ (answer.now ≡ Answer.Fault fault) }
{
    match answer {
        Answer::Ints(_) => false,
        Answer::Fault(found) => *found == fault,
    }
}

fn is_empty(answer: &Answer) -> bool
    ensures { IsTrue result ↔ (answer.now ≡ Answer.Ints []) }
{
    match answer {
        Answer::Ints(found) => found.is_empty(),
        Answer::Fault(_) => false,
    }
}

/// Whether an entry is the one that an outcome says.
fn is_of(did: &Did, outcome: &ItemOutcome) -> bool
    ensures { IsTrue result ↔ IsOf (Some did.now) outcome.now }
{
    match outcome {
        ItemOutcome::Done { ts, answer } => did.ts == *ts
            && did.number == 0
            && is_ints(&did.answer, answer),
        ItemOutcome::Faulted { ts, fault } => did.ts == *ts
            && did.number == 0
            && is_fault(&did.answer, *fault),
        ItemOutcome::Upgraded { ts, number } => did.ts == *ts
            && did.number == *number
            && is_empty(&did.answer)
            && 0 < *number,
        ItemOutcome::Refused { .. } => false,
        ItemOutcome::Unknown { tx } => did.ts == *tx,
    }
}

/// Whether an outcome says that there is no entry, or may be none.
fn wants_none(outcome: &ItemOutcome) -> bool
    ensures { IsTrue result ↔ Tells None outcome.now }
{
    match outcome {
        ItemOutcome::Done { .. } | ItemOutcome::Faulted { .. } | ItemOutcome::Upgraded { .. } =>
            false,
        ItemOutcome::Refused { .. } | ItemOutcome::Unknown { .. } => true,
    }
}

/// Whether a line is that of an item, and what the history has of the item is what the line says.
fn is_right(history: &[Did], standings: &Standings, who: Who, ended: &Ended) -> bool
    ensures { IsTrue result ↔ IsRightBy standings.now history.now who ended.now }
{
    if ended.who != who {
        return false;
    }
    match standings.get(who) {
        None => wants_none(&ended.outcome),
        Some(Standing::Once { place, in_order }) => match history.get(place) {
            Some(did) => in_order && is_of(did, &ended.outcome),
            None => false,
        },
        Some(Standing::Twice) => false,
    }
}

/// The items of a client, counted from 0.
fn items_at(clients: &[Items], client: usize) -> &[What]
    ensures { result.now ≡ items_at clients.now client }
{
    match clients.get(client) {
        Some(items) => items.as_slice(),
        None => &[],
    }
}

/// The line at a place, where there is one.
fn line_at(ended: &[Ended], place: usize) -> Option<&Ended>
    ensures { option_copied result ≡ slice_get ended.now place }
{
    ended.get(place)
}

/// The place of the first line that isn't right of those of a client's items; nothing where all are.
fn first_wrong_of(
    history: &[Did],
    standings: &Standings,
    clients: &[Items],
    client: usize,
    ended: &[Ended],
) -> Option<usize>
    requires performed { ArePerformed clients.now history.now }
    requires stand { Stand standings.now history.now }
    requires client { client < 255 }
    requires few { length (items_at clients.now client) < 4294967295 }
    ensures { AreRightOr history.now (items_from (client + 1) 1 (items_at clients.now client)) ended.now result }
{
    let items = items_at(clients, client);
    for place in 0..items.len() {
        let who = Who {
            client: client as u8 + 1,
            index: place as u32 + 1,
        };
        let line = match line_at(ended, place) {
            Some(line) => line,
            None => return Some(place),
        };
        if !is_right(history, standings, who, line) {
            return Some(place);
        }
    }
    None
}

/// The line of an item at a place, counted from 0 behind so many others.
fn item_at(others: usize, place: usize) -> AuditFault
    ensures { FaultIs (line.Item (others + place + 1)) result }
{
    let Some(at) = others.checked_add(place) else {
        return AuditFault::NoMemory;
    };
    match at.checked_add(1) {
        Some(index) => AuditFault::Disagrees(Disagreement::Item {
            index: index as u64,
        }),
        None => AuditFault::NoMemory,
    }
}

/// Whether the lines are those of the items of all clients, each right; else the first that isn't.
pub(crate) fn are_right(
    history: &[Did],
    standings: &Standings,
    clients: &[Items],
    ended: &[Ended],
) -> Result<(), AuditFault>
    requires performed { ArePerformed clients.now history.now }
    requires stand { Stand standings.now history.now }
    ensures { AreRightAll history.now (all_items clients.now) ended.now result }
{
    if CLIENTS < clients.len() {
        return Err(AuditFault::NoMemory);
    }
    let mut used = 0;
    for client in 0..clients.len() {
        let count = items_at(clients, client).len();
        if ITEMS < count {
            return Err(AuditFault::NoMemory);
        }
        let behind = ended.split_at(used).1;
        match first_wrong_of(history, standings, clients, client, behind) {
            Some(wrong) => return Err(item_at(used, wrong)),
            None => used += count,
        }
    }
    if used < ended.len() {
        return Err(item_at(used, 0));
    }
    Ok(())
}
