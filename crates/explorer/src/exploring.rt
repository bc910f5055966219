//! Each schedule is played, and what came of it is written.

ghost use Rattle.thor_value.specs.FiniteMap.{IsSorted};

use crate::faults::Fault;
use crate::lines::{first_line, split};
use crate::playing::{play, take_schedule};
use crate::watching::Watch;
use crate::words::Asked;
use class_defs::Plain;
use outside::{Sink, write_all};
use simulation_setup::{Begun, begin, first_store};
use std::alloc::Global;
use thor_value::NoMemory;
use top_reply::{Reply, Status, status_of};

/// The digit of a status.
fn digit_of(status: Status) -> u8 {
    b'0'.saturating_add(status.code())
}

/// Puts a report on one line: where a line of it ends comes a `;`.
fn put_report(line: &mut Vec<u8>, report: &[u8]) -> Result<(), NoMemory> {
    line.push(b' ')?;
    for byte in report {
        line.push(if *byte == b'\n' { b';' } else { *byte })?;
    }
    Ok(())
}

/// Puts the line of a run: its status, and its report where it has one.
fn put_run(line: &mut Vec<u8>, played: &Result<Reply, Fault>) -> Result<(), NoMemory> {
    match played {
        Ok(reply) => {
            line.push(digit_of(status_of(reply)))?;
            if let Reply::Report { text, .. } = reply {
                put_report(line, text.as_slice())?;
            }
        }
        Err(fault) => line.push(digit_of(fault.status()))?,
    }
    line.push(b'\n')?;
    Ok(())
}

/// Plays under one schedule.
fn play_line(
    alloc: Global,
    asked: Asked,
    begun: &mut Begun,
    store: &Plain,
    line: &[u8],
    watch: &mut Watch,
) -> Result<Reply, Fault>
    requires { IsSorted store.now.objects }
{
    take_schedule(alloc, begun, asked.repos, line)?;
    play(alloc, begun, store, asked, watch)
}

/// What came of a schedule: what each event did, where that is asked for, and the line of the run.
fn told_of(
    alloc: Global,
    asked: Asked,
    begun: &mut Begun,
    store: &Plain,
    line: &[u8],
) -> Result<Vec<u8>, NoMemory>
    requires { IsSorted store.now.objects }
{
    let clients = begun.script.clients.len();
    let mut watch = Watch::new(alloc, asked.traces, usize::from(asked.repos), clients)?;
    let played = play_line(alloc, asked, begun, store, line, &mut watch);
    let mut told = watch.into_bytes()?;
    put_run(&mut told, &played)?;
    Ok(told)
}

/// Plays under each schedule, and writes what came of it.
fn explore_lines<K: Sink>(
    alloc: Global,
    sink: &mut K,
    asked: Asked,
    begun: &mut Begun,
    store: &Plain,
    schedules: &[u8],
) -> Result<(), Fault>
    requires { IsSorted store.now.objects }
{
    let mut rest = schedules;
    for _ in 0..schedules.len() {
        if rest.is_empty() {
            return Ok(());
        }
        let (line, others) = first_line(rest);
        let told = told_of(alloc, asked, begun, store, line)?;
        write_all(sink, told.as_slice())?;
        rest = others;
    }
    Ok(())
}

/// Plays a script under the schedules that come after it.
fn explore_text<K: Sink>(
    alloc: Global,
    sink: &mut K,
    asked: Asked,
    text: &[u8],
) -> Result<(), Fault> {
    let (script, schedules) = split(text);
    let mut begun = begin(alloc, script, asked.repos)?;
    match first_store(alloc, &begun) {
        Ok(store) => explore_lines(alloc, sink, asked, &mut begun, &store, schedules),
        Err(why) => Err(Fault::from(why)),
    }
}

/// Plays a script under the schedules that come after it, each on a line, and writes what came of each. The status.
pub(crate) fn explore<K: Sink>(alloc: Global, sink: &mut K, asked: Asked, text: &[u8]) -> Status {
    match explore_text(alloc, sink, asked, text) {
        Ok(()) => Status::Done,
        Err(fault) => fault.status(),
    }
}
