ghost use Rattle.std.specs.Prelude.{◌≡◌, ◌↔◌, IsTrue};
ghost use Rattle.thor_value.specs.FiniteMap.{IsSorted};
ghost use Rattle.serial_model.specs.Replays.{AreMade, IsAbove, Replays};

use crate::applying::apply;
use crate::entries::Dids;
use crate::viewing::{plain_of, view_of};
use class_defs::{Plain, Schemas};
use std::alloc::Global;
use std::error::Error;
use std::fmt;
use thor_value::{NoMemory, Ts};

/// Why a history is not replayed to its end.
#[derive(Clone, Copy, Debug, PartialEq, Eq)]
pub enum ReplayError {
    /// An entry, counted from 0, is the first that isn't legal on the store behind those before it.
    NotLegal { index: usize },
    /// Memory was not there.
    NoMemory,
}

impl From<NoMemory> for ReplayError {
    ghost use Rattle.serial_model.specs.declared.replaying.ReplayError.TheVariants as error;

    ghost from_gives = { λ _ made. made ≡ error.NoMemory };

    fn from(_refused: NoMemory) -> ReplayError {
        ReplayError::NoMemory
    }
}

impl fmt::Display for ReplayError {
    fn fmt<W: fmt::Write>(&self, f: &mut fmt::Formatter<W>) -> fmt::Result {
        match self {
            ReplayError::NotLegal { index } => write!(f, "entry {index} is not legal"),
            ReplayError::NoMemory => write!(f, "out of memory"),
        }
    }
}

impl Error for ReplayError {}

/// Whether a timestamp is above the one before it, where there is one.
fn is_above(before: Option<Ts>, ts: Ts) -> bool
    ensures { IsTrue result ↔ IsAbove before ts }
{
    match before {
        Some(before) => before.cmp(&ts).is_lt(),
        None => true,
    }
}

/// Applies the entries of a history to a store one by one, upgrades to all objects at once.
///
/// A plain program for what the protocols claim: the history is legal just where this gives a store, and that is
/// the store behind it. Else it gives the first entry that isn't legal.
pub fn replay(
    alloc: Global,
    history: &Dids,
    store: &Plain,
    schemas: &Schemas,
) -> Result<Plain, ReplayError>
    requires made { AreMade schemas.now }
    requires sorted { IsSorted store.now.objects }
    ensures { Replays schemas.now history.now store.now result }
{
    let mut view = view_of(alloc, store)?;
    let mut last = None;
    let entries = history.as_slice();
    for index in 0..entries.len() {
        let entry = &entries[index];
        if !is_above(last, entry.ts) {
            return Err(ReplayError::NotLegal { index });
        }
        if !apply(alloc, schemas, entry, &store.roots, &mut view)? {
            return Err(ReplayError::NotLegal { index });
        }
        last = Some(entry.ts);
    }
    Ok(plain_of(alloc, view.objects, view.epoch, &store.roots)?)
}
