//! A store is opened, and events happen at it.

use crate::beginning::Play;
use crate::counts::{Size, is_bounded};
use crate::faults::{Fault, Wrong};
use crate::watching::Watch;
use cluster_core::{Finished, Ran, Start};
use disk_trait::{MemParts, TickClock};
use outside::OpenGate;
use repo_core::Repo;
use repo_site::Site;
use repo_trace::Traces;
use schedule::{Event, EventKind};
use serial_model::Ends;
use simulation_events::Coverage;
use simulation_scripts::{Ending, Options};
use simulation_setup::{Disks, Store, open_store, plan_of};
use std::alloc::Global;
use std::marker::Brand;
use store_opening::Found;
use thor_value::{NoMemory, both};
use top_history_check::Lines;

/// What is left of a life: the disks, how the items ended, what committed, and what happened at each repository.
#[derive(Drop)]
pub(crate) struct Lived {
    pub disks: Disks,
    pub ends: Ends,
    pub lines: Lines,
    pub traces: Traces,
}

/// Opens what was found, with the clients of the script.
fn open(
    alloc: Global,
    play: &Play<'_>,
    start: Start,
    found: Found<MemParts<TickClock>>,
) -> Result<Store, Fault> {
    let tries = u32::from(play.options.tries);
    let plan = plan_of(play.begun, tries, u32::from(play.options.cache), start);
    let (found, plan) = both(found, plan)?;
    Ok(open_store(alloc, found, plan)?)
}

/// Looks at the repositories as they begin.
fn begin_watch(alloc: Global, store: Store, play: &Play<'_>) -> Result<(Store, Watch), NoMemory> {
    let clients = play.begun.script.clients.len();
    let watch = Watch::new(alloc, usize::from(play.options.repos), clients);
    let (store, mut watch) = both(store, watch)?;
    watch.begin(store.sites());
    Ok((store, watch))
}

/// Looks at the repositories behind an event.
fn look(
    store: Store,
    watch: &mut Watch,
    kind: EventKind,
    coverage: &mut Coverage,
) -> Result<Store, NoMemory> {
    let looked = watch.behind(kind, store.sites(), coverage);
    let (store, _) = both(store, looked)?;
    Ok(store)
}

/// An event happens.
fn happen(
    store: Store,
    watch: &mut Watch,
    event: Event,
    coverage: &mut Coverage,
) -> Result<Store, NoMemory> {
    let mut store = store;
    watch.before(event.kind, coverage);
    let happened = store.event(event);
    let (store, _) = both(store, happened)?;
    look(store, watch, event.kind, coverage)
}

/// The events of the schedule happen.
fn happen_all(
    store: Store,
    watch: &mut Watch,
    events: &[Event],
    coverage: &mut Coverage,
) -> Result<Store, NoMemory> {
    let mut store = Ok(store);
    for event in events {
        store = match store {
            Ok(store) => happen(store, watch, *event, coverage),
            Err(NoMemory) => Err(NoMemory),
        };
    }
    store
}

/// All items end.
fn drain(store: Store, watch: &mut Watch, coverage: &mut Coverage) -> Result<Store, NoMemory> {
    let mut store = store;
    let drained = store.drain(&OpenGate);
    let (store, _) = both(store, drained)?;
    look(store, watch, EventKind::Unknown, coverage)
}

/// The same event happens at each repository.
fn at_each(
    store: Store,
    watch: &mut Watch,
    repos: u8,
    pick: Option<u32>,
    coverage: &mut Coverage,
) -> Result<Store, NoMemory> {
    let mut store = Ok(store);
    for place in 0..repos {
        let repo = u32::from(place);
        let kind = match pick {
            Some(pick) => EventKind::Restart { repo, pick },
            None => EventKind::Checkpoint { repo },
        };
        store = match store {
            Ok(store) => happen(store, watch, Event { line: 0, kind }, coverage),
            Err(NoMemory) => Err(NoMemory),
        };
    }
    store
}

/// What comes behind the last event.
fn end(
    store: Store,
    watch: &mut Watch,
    options: &Options,
    coverage: &mut Coverage,
) -> Result<Store, NoMemory> {
    match options.ending {
        Ending::Drained | Ending::Again => drain(store, watch, coverage),
        Ending::Checkpointed => {
            let store = drain(store, watch, coverage)?;
            at_each(store, watch, options.repos, None, coverage)
        }
        Ending::Cut { pick } => {
            at_each(store, watch, options.repos, Some(u32::from(pick)), coverage)
        }
    }
}

/// What is wrong with a repository at the end: it is down, or it keeps more than it may.
fn wrong_at(found: &Repo<MemParts<TickClock>>, repo: u8, mob: u32, size: Size) -> Option<Wrong> {
    if !found.is_up() {
        return Some(Wrong::Down { repo });
    }
    if found.mob_bytes() > mob {
        return Some(Wrong::Buffer { repo });
    }
    if !is_bounded(found, size) {
        return Some(Wrong::Counts { repo });
    }
    None
}

fn wrong_in(sites: &[Site<MemParts<TickClock>, Brand>], mob: u32, size: Size) -> Option<Wrong> {
    let mut repo = 0u8;
    for site in sites {
        if let Some(wrong) = wrong_at(site.repo(), repo, mob, size) {
            return Some(wrong);
        }
        repo = repo.saturating_add(1);
    }
    None
}

/// What is left of a run, where it was told.
fn lived_in(finished: Finished<MemParts<TickClock>>) -> Result<Lived, NoMemory> {
    let Finished { parts, ran } = finished;
    let (disks, ran) = both(parts, ran)?;
    let Ran {
        ends,
        lines,
        traces,
    } = ran;
    Ok(Lived {
        disks,
        ends,
        lines,
        traces,
    })
}

/// Ends a life. What is wrong with its repositories stands beside it.
fn close(store: Store, mob: u32, size: Size) -> (Option<Wrong>, Finished<MemParts<TickClock>>) {
    let wrong = wrong_in(store.sites(), mob, size);
    (wrong, store.finish())
}

/// Ends a life whose repositories are as they should be.
fn finish(store: Store, play: &Play<'_>) -> Result<Lived, Fault> {
    match close(store, play.options.mob, play.size()) {
        (None, finished) => Ok(lived_in(finished)?),
        (Some(wrong), finished) => {
            drop(finished);
            Err(Fault::Wrong(wrong))
        }
    }
}

/// Opens what was found, and has the events happen.
fn go(
    alloc: Global,
    play: &Play<'_>,
    start: Start,
    found: Found<MemParts<TickClock>>,
    coverage: &mut Coverage,
) -> Result<(Store, Watch), Fault> {
    let store = open(alloc, play, start, found)?;
    let (store, watch) = begin_watch(alloc, store, play)?;
    let mut watch = watch;
    let happened = happen_all(store, &mut watch, play.events, coverage);
    let (watch, store) = both(watch, happened)?;
    Ok((store, watch))
}

/// Opens what was found, has the events happen, and what comes behind them.
pub(crate) fn live(
    alloc: Global,
    play: &Play<'_>,
    start: Start,
    found: Found<MemParts<TickClock>>,
    coverage: &mut Coverage,
) -> Result<Lived, Fault> {
    let (store, watch) = go(alloc, play, start, found, coverage)?;
    let mut watch = watch;
    let ended = end(store, &mut watch, play.options, coverage);
    drop(watch);
    finish(ended?, play)
}

/// Opens what was found, has the events happen, and lets it go as it stands then. The disks.
pub(crate) fn live_on(
    alloc: Global,
    play: &Play<'_>,
    start: Start,
    found: Found<MemParts<TickClock>>,
    coverage: &mut Coverage,
) -> Result<Disks, Fault> {
    let (store, watch) = go(alloc, play, start, found, coverage)?;
    drop(watch);
    let Finished { parts, ran } = store.finish();
    drop(ran);
    Ok(parts)
}
