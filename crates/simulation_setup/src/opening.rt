//! A store in memory is opened.

use crate::accepting::{Begun, MOST};
use crate::faults::Unbegun;
use class_defs::Setup;
use cluster_core::{Cluster, Plan, Start};
use disk_trait::{MemParts, TickClock};
use repo_opening::Unopened;
use script_check::roots_of;
use std::alloc::Global;
use std::marker::Brand;
use store_opening::{ClusterFault, Found};
use thor_value::{NoMemory, TryCopy, both};

/// The disks of repositories in memory.
pub type Disks = Vec<MemParts<TickClock>>;

/// Repositories in memory, with their clients.
pub type Store = Cluster<MemParts<TickClock>, Brand>;

/// Disks of so many repositories, all of them empty.
pub fn empty_disks(alloc: Global, repos: u8) -> Result<Disks, NoMemory> {
    let mut parts = Vec::new(alloc);
    for _ in 0..repos {
        parts.push(MemParts::new(
            Vec::new(alloc),
            Vec::new(alloc),
            Vec::new(alloc),
            Vec::new(alloc),
            TickClock::new(1),
        ))?;
    }
    Ok(parts)
}

/// What disks hold, where a repository buffers so many bytes of objects.
pub fn read_disks(
    alloc: Global,
    disks: Disks,
    mob: u32,
) -> Result<Found<MemParts<TickClock>>, Unopened> {
    match Found::read(alloc, disks, mob) {
        Ok(found) => Ok(found),
        Err(ClusterFault { parts, why }) => {
            drop(parts);
            Err(why)
        }
    }
}

/// With what a fresh store is opened.
pub fn setup_of(alloc: Global, begun: &Begun) -> Result<Start, Unbegun> {
    if begun.schemas.first.classes.len() > MOST {
        return Err(Unbegun::Refused);
    }
    let schema = begun.schemas.first.copy()?;
    let (schema, roots) = both(schema, roots_of(alloc, &begun.schemas.first))?;
    Ok(Start::Setup(Setup { schema, roots }))
}

/// What a run of a script's clients is asked for, where each item has so many tries, and a client holds so many pages.
pub fn plan_of(begun: &Begun, tries: u32, cache: u32, start: Start) -> Result<Plan, NoMemory> {
    let (start, clients) = both(start, begun.script.clients.copy())?;
    let (held, schemas) = both((start, clients), begun.schemas.copy())?;
    let (start, clients) = held;
    Ok(Plan {
        start,
        tries,
        cache,
        schemas,
        clients: clients.into_vec(),
    })
}

/// Opens what was found, with the clients of a plan.
pub fn open_store(
    alloc: Global,
    found: Found<MemParts<TickClock>>,
    plan: Plan,
) -> Result<Store, Unopened> {
    match Cluster::<MemParts<TickClock>, Brand>::open(alloc, found, plan) {
        Ok(store) => Ok(store),
        Err(ClusterFault { parts, why }) => {
            drop(parts);
            Err(why)
        }
    }
}
