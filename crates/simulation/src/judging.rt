//! A script is played and judged.

ghost use Rattle.thor_value.specs.FiniteMap.{IsSorted};

use crate::beginning::Play;
use crate::disks::{compare, stored};
use crate::faults::{Fault, Verdict, Wrong};
use crate::histories::store_behind;
use crate::images::judge_image;
use crate::living::{Lived, live};
use crate::owners::read_owners;
use class_defs::Plain;
use cluster_core::Start;
use disk_trait::{MemParts, TickClock};
use repo_trace::Traces;
use schedule::Event;
use serial_model::{Ended, ItemOutcome};
use simulation_events::Coverage;
use simulation_scripts::{Ending, Options};
use simulation_setup::{
    Begun, Disks, Unbegun, begin, empty_disks, first_store, read_disks, setup_of,
};
use std::alloc::Global;
use store_opening::Found;
use thor_value::{NoMemory, both};

/// What a life has come to: what its disks hold, whether all items are done, and the store behind it.
#[derive(Drop)]
struct Come {
    found: Found<MemParts<TickClock>>,
    store: Plain,
    is_finished: bool,
}

fn is_finished(ended: &Ended) -> bool {
    match &ended.outcome {
        ItemOutcome::Done { .. } | ItemOutcome::Upgraded { .. } | ItemOutcome::Faulted { .. } =>
            true,
        ItemOutcome::Refused { .. } | ItemOutcome::Unknown { .. } => false,
    }
}

fn are_finished(ends: &[Ended]) -> bool {
    for ended in ends {
        if !is_finished(ended) {
            return false;
        }
    }
    true
}

/// Judges a life from a store on: its history, and its disks.
fn judge_life(
    alloc: Global,
    play: &Play<'_>,
    store: &Plain,
    lived: Lived,
    coverage: &mut Coverage,
) -> Result<Come, Fault>
    requires { IsSorted store.now.objects }
{
    let Lived {
        disks,
        ends,
        lines,
        traces,
    } = lived;
    coverage.take_ends(ends.as_slice());
    let is_finished = are_finished(ends.as_slice());
    let after = store_behind(alloc, play.begun, store, ends, lines);
    let (traces, (disks, store)) = both(traces, both(disks, after))?;
    let read = check_owners(alloc, play, traces, &store);
    let found = read_back(alloc, play, disks, &store);
    let (store, found) = both(store, found)?;
    let ((store, found), ()) = both((store, found), read)?;
    Ok(Come {
        found,
        store,
        is_finished,
    })
}

/// Each transform to the epoch of the store that a life leaves has read the owners of its object.
fn check_owners(
    alloc: Global,
    play: &Play<'_>,
    traces: Traces,
    store: &Plain,
) -> Result<(), Fault> {
    if read_owners(alloc, &traces, &play.begun.schemas, store)? {
        Ok(())
    } else {
        Err(Fault::Wrong(Wrong::Owners))
    }
}

/// What disks hold, where it is this store.
fn read_back(
    alloc: Global,
    play: &Play<'_>,
    disks: Disks,
    store: &Plain,
) -> Result<Found<MemParts<TickClock>>, Fault> {
    let found = read_disks(alloc, disks, play.options.mob)?;
    let compared = compare(alloc, &found, store, Wrong::Store);
    let (found, _) = both(found, compared)?;
    Ok(found)
}

/// The first life of a store.
fn live_first(alloc: Global, play: &Play<'_>, coverage: &mut Coverage) -> Result<Lived, Fault> {
    let disks = empty_disks(alloc, play.options.repos)?;
    let found = read_disks(alloc, disks, play.options.mob)?;
    let (found, start) = both(found, setup_of(alloc, play.begun))?;
    live(alloc, play, start, found, coverage)
}

/// The first life of a store, judged.
fn first_life(alloc: Global, play: &Play<'_>, coverage: &mut Coverage) -> Result<Come, Fault> {
    let lived = live_first(alloc, play, coverage)?;
    match first_store(alloc, play.begun) {
        Ok(store) => judge_life(alloc, play, &store, lived, coverage),
        Err(why) => {
            drop(lived);
            Err(Fault::from(why))
        }
    }
}

/// A life behind another, judged. Whether all of its items are done.
fn next_life(
    alloc: Global,
    play: &Play<'_>,
    come: Come,
    coverage: &mut Coverage,
) -> Result<bool, Fault> {
    let Come { found, store, .. } = come;
    drop(store);
    match stored(alloc, &found) {
        Ok(store) => live_next(alloc, play, found, &store, coverage),
        Err(fault) => {
            drop(found);
            Err(fault)
        }
    }
}

/// A life from a store on that was found, judged. Whether all of its items are done.
fn live_next(
    alloc: Global,
    play: &Play<'_>,
    found: Found<MemParts<TickClock>>,
    store: &Plain,
    coverage: &mut Coverage,
) -> Result<bool, Fault>
    requires { IsSorted store.now.objects }
{
    let lived = live(alloc, play, Start::Stored, found, coverage)?;
    let come = judge_life(alloc, play, store, lived, coverage)?;
    Ok(let_go(come))
}

/// Lets go of what a life has come to. Whether all of its items are done.
fn let_go(come: Come) -> bool {
    let Come {
        found,
        store,
        is_finished,
    } = come;
    drop(found);
    drop(store);
    is_finished
}

/// The image of a crash behind the last event, judged.
fn judge_cut(
    alloc: Global,
    play: &Play<'_>,
    come: Come,
    pick: u8,
    coverage: &mut Coverage,
) -> Result<bool, Fault> {
    let judged = judge_image(alloc, play, pick, &come.store, coverage);
    let is_finished = let_go(come);
    judged?;
    Ok(is_finished)
}

/// Plays a script that is accepted, and judges it. Whether all of its items are done.
fn judge_play(alloc: Global, play: &Play<'_>, coverage: &mut Coverage) -> Result<bool, Fault> {
    let come = first_life(alloc, play, coverage)?;
    match play.options.ending {
        Ending::Drained | Ending::Checkpointed => Ok(let_go(come)),
        Ending::Again => next_life(alloc, play, come, coverage),
        Ending::Cut { pick } => judge_cut(alloc, play, come, pick, coverage),
    }
}

/// What a script is judged to be, by whether all of its items are done, or by what is wrong.
fn verdict_of(judged: Result<bool, Fault>) -> Result<Verdict, NoMemory> {
    match judged {
        Ok(is_finished) => Ok(Verdict::Right { is_finished }),
        Err(Fault::Refused) => Ok(Verdict::Refused),
        Err(Fault::Wrong(wrong)) => Ok(Verdict::Wrong(wrong)),
        Err(Fault::NoMemory) => Err(NoMemory),
    }
}

/// The script that a text is; nothing where it isn't accepted.
pub fn read_text(alloc: Global, text: &str, repos: u8) -> Result<Option<Begun>, NoMemory> {
    match begin(alloc, text.as_bytes(), repos) {
        Ok(begun) => Ok(Some(begun)),
        Err(Unbegun::Refused) => Ok(None),
        Err(Unbegun::NoMemory) => Err(NoMemory),
    }
}

/// Plays the clients of a script in memory, with these events, and judges what came of it. What came how often is
/// counted.
pub fn judge_events(
    alloc: Global,
    begun: &Begun,
    events: &[Event],
    options: &Options,
    coverage: &mut Coverage,
) -> Result<Verdict, NoMemory> {
    let play = Play {
        begun,
        events,
        options,
    };
    coverage.begin_run(events.len());
    verdict_of(judge_play(alloc, &play, coverage))
}

/// Plays a script in memory, and judges what came of it.
pub fn judge(
    alloc: Global,
    text: &str,
    options: &Options,
    coverage: &mut Coverage,
) -> Result<Verdict, NoMemory> {
    match read_text(alloc, text, options.repos)? {
        Some(begun) => judge_events(alloc, &begun, begun.events(), options, coverage),
        None => Ok(Verdict::Refused),
    }
}
