//! The images that a crash leaves behind the last event.

use crate::beginning::Play;
use crate::disks::compare;
use crate::faults::{Fault, Wrong};
use crate::living::live_on;
use class_defs::Plain;
use disk_trait::{MemParts, Outage, TickClock, restart_all};
use simulation_events::Coverage;
use simulation_setup::{Disks, empty_disks, read_disks, setup_of};
use std::alloc::Global;
use thor_value::both;

/// Crashes the disks of a repository.
fn crash(disks: &mut MemParts<TickClock>, pick: u8) -> Result<(), Fault> {
    match restart_all(disks, u64::from(pick)) {
        Ok(()) => Ok(()),
        Err(Outage::Failed) => Err(Fault::Wrong(Wrong::Image)),
        Err(Outage::NoMemory) => Err(Fault::NoMemory),
    }
}

fn crash_all(disks: &mut [MemParts<TickClock>], pick: u8) -> Result<(), Fault> {
    for disk in disks {
        crash(disk, pick)?;
    }
    Ok(())
}

/// The disks as a crash behind the last event leaves them.
fn image(
    alloc: Global,
    play: &Play<'_>,
    pick: u8,
    coverage: &mut Coverage,
) -> Result<Disks, Fault> {
    let disks = empty_disks(alloc, play.options.repos)?;
    let found = read_disks(alloc, disks, play.options.mob)?;
    let (found, start) = both(found, setup_of(alloc, play.begun))?;
    let mut disks = live_on(alloc, play, start, found, coverage)?;
    let crashed = crash_all(&mut disks, pick);
    let (disks, _) = both(disks, crashed)?;
    Ok(disks)
}

/// A crash behind the last event leaves this store, with which the repositories came back from the same crash.
pub(crate) fn judge_image(
    alloc: Global,
    play: &Play<'_>,
    pick: u8,
    store: &Plain,
    coverage: &mut Coverage,
) -> Result<(), Fault> {
    let disks = image(alloc, play, pick, coverage)?;
    let found = read_disks(alloc, disks, play.options.mob)?;
    let compared = compare(alloc, &found, store, Wrong::Image);
    drop(found);
    compared
}
