//! A script is played under a schedule.

ghost use Rattle.thor_value.specs.FiniteMap.{IsSorted};

use crate::faults::Fault;
use crate::watching::Watch;
use crate::words::Asked;
use class_defs::Plain;
use cluster_core::{Finished, Ran};
use front_end::Step;
use schedule::{Event, Events, check_events};
use script_parse::read_script;
use simulation_setup::{Begun, Store, empty_disks, open_store, plan_of, read_disks, setup_of};
use std::alloc::Global;
use std::mem;
use thor_value::{NoMemory, TryCopy, both};
use top_reply::{Form, Reply, Running, report};

/// How many clients a script has.
fn client_count(begun: &Begun) -> u8 {
    u8::try_from(begun.script.clients.len()).unwrap_or(u8::MAX)
}

/// The events of a line that begins with `schedule`.
fn read_events(alloc: Global, line: &[u8]) -> Result<Events, Fault> {
    let read = read_script(alloc, line)?;
    if read.setup.is_some() || !read.clients.is_empty() {
        return Err(Fault::Refused);
    }
    Ok(read.events.copy()?)
}

/// Has the script the schedule of a line. It is refused where an event isn't known, or names what isn't there.
pub(crate) fn take_schedule(
    alloc: Global,
    begun: &mut Begun,
    repos: u8,
    line: &[u8],
) -> Result<(), Fault> {
    let events = read_events(alloc, line)?;
    match check_events(&events, client_count(begun), repos) {
        Ok(()) => {
            drop(mem::replace(&mut begun.script.events, events));
            Ok(())
        }
        Err(_) => Err(Fault::Refused),
    }
}

/// Opens a fresh store for a script.
fn open(alloc: Global, begun: &Begun, asked: Asked) -> Result<Store, Fault> {
    let disks = empty_disks(alloc, asked.repos)?;
    let found = read_disks(alloc, disks, asked.mob)?;
    let (found, start) = both(found, setup_of(alloc, begun))?;
    let plan = plan_of(begun, asked.tries, asked.cache, start);
    let (found, plan) = both(found, plan)?;
    Ok(open_store(alloc, found, plan)?)
}

/// Each client takes one step. Whether one of them had items left.
fn round(store: &mut Store, watch: &mut Watch) -> Result<bool, NoMemory> {
    let mut moved = false;
    for place in 0..store.clients().len() {
        match store.step(place)? {
            Step::Moved => {
                moved = true;
                watch.look_after_step(place, store)?;
            }
            Step::Ended => {}
        }
    }
    Ok(moved)
}

/// The clients take steps in turn until no item is left.
fn rounds(store: &mut Store, watch: &mut Watch) -> Result<(), NoMemory> {
    for _ in 0..u32::MAX {
        if !round(store, watch)? {
            return Ok(());
        }
    }
    Err(NoMemory)
}

/// What comes after the last event, as `Cluster::drain` has it.
fn drain(store: &mut Store, watch: &mut Watch) -> Result<(), NoMemory> {
    store.bring_repositories_up()?;
    watch.look_after_word("up", store)?;
    rounds(store, watch)?;
    for place in 0..store.clients().len() {
        store.ask_last(place)?;
        watch.look_after_last(place, store)?;
    }
    Ok(())
}

/// The events happen, and all items end.
fn happen(store: &mut Store, events: &[Event], watch: &mut Watch) -> Result<(), NoMemory> {
    watch.look_after_word("open", store)?;
    for event in events {
        store.event(*event)?;
        watch.look_after_event(event.kind, store)?;
    }
    drain(store, watch)
}

/// A run under the schedule of a script, which begins with a fresh store.
fn run(alloc: Global, begun: &Begun, asked: Asked, watch: &mut Watch) -> Result<Ran, Fault> {
    let mut store = open(alloc, begun, asked)?;
    let happened = happen(&mut store, begun.events(), watch);
    let Finished { parts, ran } = store.finish();
    drop(parts);
    let (ran, ()) = both(ran?, happened)?;
    Ok(ran)
}

/// Plays a script under its schedule, in memory and from the store on with which it begins. The report, where the history
/// of the run passes its check.
pub(crate) fn play(
    alloc: Global,
    begun: &Begun,
    store: &Plain,
    asked: Asked,
    watch: &mut Watch,
) -> Result<Reply, Fault>
    requires { IsSorted store.now.objects }
{
    let Ran {
        ends,
        lines,
        traces,
    } = run(alloc, begun, asked, watch)?;
    drop(traces);
    let replied = report(
        alloc,
        Running::InTurn,
        Form::Report,
        &begun.schemas,
        store,
        &begun.script,
        lines,
        &ends,
    );
    drop(ends);
    Ok(replied?)
}
