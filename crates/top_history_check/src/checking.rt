ghost use Rattle.std.specs.Prelude.{IfOk, IfSome, map, ◌≡◌, true};
ghost use Rattle.serial_model.specs.History.{IsLegal, after};
ghost use Rattle.serial_model.specs.Outcomes.{Answers, all_items};
ghost use Rattle.serial_model.specs.Replays.{AreMade};
ghost use Rattle.top_history_check.specs.Lines.{ArePerformed, line_of};
ghost use Rattle.thor_value.specs.FiniteMap.{IsSorted};

use crate::answers::are_answered;
use crate::assembling::{ClientItems, Items, Lines, history_of};
use crate::order::is_in_client_order;
use crate::places::places_of;
use class_defs::{Plain, Schemas};
use serial_model::{Did, Dids, Ended, Ends, ReplayError, replay};
use std::alloc::Global;
use thor_value::NoMemory;

/// Whether a history answers each item once, in its client's order.
#[tactic(auto, using(crate::proofs::Answering::all_answered))]
fn answers(
    alloc: Global,
    clients: &[Items],
    history: &[Did],
    ends: &[Ended],
) -> Result<bool, NoMemory>
    requires { ArePerformed clients.now history.now }
    ensures { IfOk result (λ is. is ≡ true → Answers history.now (all_items clients.now) ends.now) }
{
    let Some(places) = places_of(alloc, history)? else {
        return Ok(false);
    };
    if !are_answered(history, &places, clients, ends) {
        return Ok(false);
    }
    is_in_client_order(alloc, history)
}

/// A history that was checked.
#[derive(Drop)]
pub struct CheckedHistory {
    pub history: Dids,
    /// The store behind it.
    pub end: Plain,
}

/// The serial history that the lines tell, where it is one: it is legal from the store, and it answers the
/// items of the script as the outcomes say, each once and each client's in its order. `None` where it isn't.
pub fn checked_history(
    alloc: Global,
    schemas: &Schemas,
    store: &Plain,
    clients: &ClientItems,
    lines: Lines,
    ends: &Ends,
) -> Result<Option<CheckedHistory>, NoMemory>
    requires made { AreMade schemas.now }
    requires sorted { IsSorted store.now.objects }
    ensures legal { IfOk result (λ found. IfSome found (λ checked. IsLegal schemas.now checked.history store.now)) }
    ensures answers { IfOk result (λ found. IfSome found (λ checked. Answers checked.history (all_items clients.now) ends.now)) }
    ensures end { IfOk result (λ found. IfSome found (λ checked. checked.end ≡ after schemas.now checked.history store.now)) }
    // It is the history of these lines and of no others.
    ensures lines { IfOk result (λ found. IfSome found (λ checked. map line_of checked.history ≡ lines)) }
{
    let Some(history) = history_of(alloc, clients.as_slice(), lines)? else {
        return Ok(None);
    };
    if !answers(
        alloc,
        clients.as_slice(),
        history.as_slice(),
        ends.as_slice(),
    )? {
        return Ok(None);
    }
    match replay(alloc, &history, store, schemas) {
        Ok(end) => Ok(Some(CheckedHistory { history, end })),
        Err(ReplayError::NotLegal { index: _ }) => Ok(None),
        Err(ReplayError::NoMemory) => Err(NoMemory),
    }
}
