ghost use Rattle.std.specs.Prelude.{◌≡◌, Some, IfOk, IfSome, map, option_copied};
ghost use Rattle.top_history_check.specs.Lines.{ArePerformed, item_of, line_of};

use serial_model::{Did, Dids, What};
use std::alloc::Global;
use thor_value::{Answer, NoMemory, Orefs, Sequence, TryCopy, Ts, Who};

/// The items of a client, in order.
pub type Items = Sequence<What>;

/// The items of each client, in order.
pub type ClientItems = Sequence<Items>;

/// An entry of the serial history, without the item that it performed.
#[derive(Drop)]
pub struct Line {
    /// Its timestamp, which is also its name.
    pub ts: Ts,
    /// Whose item it is.
    pub who: Who,
    /// An upgrade's number, from 1; 0 for a transaction.
    pub number: u32,
    /// The names of the objects that it created, in the order in which it made them.
    pub fresh: Orefs,
    pub answer: Answer,
}

/// Such entries, in the order of the history.
pub type Lines = Sequence<Line>;

/// An item, by client and index; `None` where the script has no such item.
fn item_of(clients: &[Items], who: Who) -> Option<&What>
    ensures { option_copied result ≡ item_of clients.now who }
{
    let client = (who.client as usize).checked_sub(1)?;
    let index = (who.index as usize).checked_sub(1)?;
    clients.get(client)?.get(index)
}

/// A line with its item of the script; `None` where it is of no item.
fn performed(clients: &[Items], line: Line) -> Result<Option<Did>, NoMemory>
    ensures item { IfOk result (λ did. IfSome did (λ d. item_of clients.now d.who ≡ Some d.what)) }
    ensures line { IfOk result (λ did. IfSome did (λ d. line_of d ≡ line)) }
{
    let Some(what) = item_of(clients, line.who) else {
        return Ok(None);
    };
    Ok(Some(Did {
        ts: line.ts,
        who: line.who,
        what: what.copy()?,
        number: line.number,
        fresh: line.fresh,
        answer: line.answer,
    }))
}

/// The serial history that the lines tell, each with its item of the script. `None` where a line is of no
/// item.
pub fn history_of(alloc: Global, clients: &[Items], lines: Lines) -> Result<Option<Dids>, NoMemory>
    ensures performed { IfOk result (λ history. IfSome history (ArePerformed clients.now)) }
    ensures lines { IfOk result (λ history. IfSome history (λ h. map line_of h ≡ lines)) }
{
    let mut history = Dids::new(alloc);
    for line in lines.into_vec() {
        match performed(clients, line)? {
            Some(did) => history.push(did)?,
            None => return Ok(None),
        }
    }
    Ok(Some(history))
}
