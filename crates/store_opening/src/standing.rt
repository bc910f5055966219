//! The repositories of a store with their prepared transactions taken.

ghost use Rattle.std.specs.Prelude.{IfOk};
ghost use Rattle.store_opening.specs.Joined.{AreKept};
ghost use Rattle.store_opening.specs.Standing.{AreStanding};

use crate::joined::{Settled, settle_repository};
use repo_opening::{Read, number_at};
use std::alloc::Global;
use thor_value::NoMemory;

/// A repository with its prepared transactions taken.
#[derive(Drop)]
pub(crate) struct Stands<'a> {
    /// Its number.
    pub(crate) repo: u8,
    pub(crate) read: &'a Read<'a>,
    pub(crate) settled: Settled,
}

/// All repositories of a store, rising.
pub(crate) fn standing_of<'a>(
    alloc: Global,
    store: &'a [Read<'a>],
) -> Result<Vec<Stands<'a>>, NoMemory>
    requires { AreKept store.now }
    ensures { IfOk result (λ standing. AreStanding store.now standing.items) }
{
    let mut standing = Vec::new(alloc);
    for read in store {
        let repo = number_at(standing.len())?;
        let settled = settle_repository(alloc, store, read)?;
        standing.push(Stands {
            repo,
            read,
            settled,
        })?;
    }
    Ok(standing)
}
