//! What a run tells is a serial history of the script, and answers it.

ghost use Rattle.thor_value.specs.FiniteMap.{IsSorted};

use crate::faults::{Fault, Wrong};
use class_defs::Plain;
use serial_model::{Ended, Ends, ItemOutcome, are_made};
use simulation_setup::Begun;
use std::alloc::Global;
use thor_value::{NoMemory, TryCopy, Ts, Who};
use top_history_check::{Line, Lines, checked_history};

fn end_of(ends: &[Ended], who: Who) -> Option<&Ended> {
    for ended in ends {
        if ended.who == who {
            return Some(ended);
        }
    }
    None
}

/// The timestamp of an item's line; any other one where it has none.
fn time_of(lines: &[Line], who: Who) -> Ts {
    for line in lines {
        if line.who == who {
            return line.ts;
        }
    }
    Ts {
        time: 0,
        repo: 0,
        life: 0,
    }
}

/// How an item ended. Of one that hasn't it isn't known.
fn outcome_of(ends: &[Ended], lines: &[Line], who: Who) -> Result<Ended, NoMemory> {
    match end_of(ends, who) {
        Some(ended) => ended.copy(),
        None => Ok(Ended {
            who,
            tries: 1,
            outcome: ItemOutcome::Unknown {
                tx: time_of(lines, who),
            },
        }),
    }
}

/// How all items ended, those included that haven't.
fn all_ends(alloc: Global, begun: &Begun, ends: &Ends, lines: &Lines) -> Result<Ends, NoMemory> {
    let mut all = Ends::new(alloc);
    let mut client = 0u8;
    for items in begun.script.clients.as_slice() {
        client = client.saturating_add(1);
        let mut index = 0u32;
        for _ in items.as_slice() {
            index = index.saturating_add(1);
            let who = Who { client, index };
            all.push(outcome_of(ends.as_slice(), lines.as_slice(), who)?)?;
        }
    }
    Ok(all)
}

/// The store that the history of a run leaves, where it is a legal one from a store and answers the items.
pub(crate) fn store_behind(
    alloc: Global,
    begun: &Begun,
    store: &Plain,
    ends: Ends,
    lines: Lines,
) -> Result<Plain, Fault>
    requires { IsSorted store.now.objects }
{
    if !are_made(&begun.schemas) {
        return Err(Fault::Refused);
    }
    let ends = all_ends(alloc, begun, &ends, &lines)?;
    let clients = &begun.script.clients;
    match checked_history(alloc, &begun.schemas, store, clients, lines, &ends)? {
        Some(checked) => Ok(checked.end),
        None => Err(Fault::Wrong(Wrong::History)),
    }
}
