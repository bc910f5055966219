//! The history that the lines of a report tell.

ghost use Rattle.std.specs.Prelude.{◌≡◌, IfOk, option_map};
ghost use Rattle.std.specs.Option.{option_copied};
ghost use Rattle.audit_check.specs.Agreement.{entry_of};
ghost use Rattle.audit_check.specs.Lines.{IsTold};
ghost use Rattle.top_history_check.specs.Lines.{item_of};

use report_parse::{Line, Lines};
use serial_model::{Did, Dids, What};
use std::alloc::Global;
use thor_value::{NoMemory, TryCopy, Who};
use top_history_check::Items;

/// An item, by client and index; `None` where the clients have no such item.
fn item_of(clients: &[Items], who: Who) -> Option<&What>
    ensures { option_copied result ≡ item_of clients.now who }
{
    let client = (who.client as usize).checked_sub(1)?;
    let index = (who.index as usize).checked_sub(1)?;
    clients.get(client)?.get(index)
}

/// The entry that a line tells; `None` where it names no item.
fn entry_of(clients: &[Items], line: Line) -> Result<Option<Did>, NoMemory>
    ensures { IfOk result (λ did. did ≡ option_map (entry_of line) (item_of clients.now line.who)) }
{
    let Some(what) = item_of(clients, line.who) else {
        return Ok(None);
    };
    Ok(Some(Did {
        ts: line.ts,
        who: line.who,
        what: what.copy()?,
        number: line.number,
        fresh: line.fresh,
        answer: line.answer,
    }))
}

/// The history that lines tell.
#[derive(Drop)]
pub(crate) struct LineHistory {
    /// Its entries, those before the first line that names no item.
    pub(crate) history: Dids,
    /// Whether each line names an item.
    pub(crate) is_whole: bool,
}

/// The history that lines tell, as far as they name items of the clients.
pub(crate) fn told(alloc: Global, clients: &[Items], lines: Lines) -> Result<LineHistory, NoMemory>
    ensures { IfOk result (λ told. IsTold clients.now lines told.history told.is_whole) }
{
    let mut history = Dids::new(alloc);
    for line in lines.into_vec() {
        match entry_of(clients, line)? {
            Some(did) => history.push(did)?,
            None => {
                return Ok(LineHistory {
                    history,
                    is_whole: false,
                });
            }
        }
    }
    Ok(LineHistory {
        history,
        is_whole: true,
    })
}
