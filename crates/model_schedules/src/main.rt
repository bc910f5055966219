//! 10,000 random schedules of two clients over two plain repositories, with stops and restarts. Behind each, the commits of
//! the histories, in the order of their timestamps, print what the transactions print one after the other; each item has
//! one commit at most, and its outcome tells whether it has; a client's commits have the order of its items; no participant
//! was told another verdict than the coordinator's; a last client reads what the commits made; and each copy that a client
//! holds is right, or about to be called invalid.
#![tactic(auto)]

mod copies;
mod deeds;
mod draws;
mod judging;
mod playing;
mod world;

use crate::copies::all_fit;
use crate::deeds::{Deed, ROOTS, Values, draw_deed};
use crate::draws::Draws;
use crate::judging::{Commit, are_atomic, are_in_order, are_serial, commits_of, is_told};
use crate::playing::Counts;
use crate::world::{World, begin};
use model_repository::Site;
use serial_model::ItemOutcome;
use std::alloc::Global;
use std::process::ExitCode;
use thor_value::NoMemory;

/// How many schedules are played.
const SCHEDULES: u64 = 10_000;

/// How many clients there are, the last one included.
const CLIENTS: u8 = 3;

/// How many things happen in each.
const EVENTS: u64 = 40;

/// The deeds of two clients, and behind them those of the one that looks at the end.
fn draw_deeds(alloc: Global, draws: &mut Draws) -> Result<Vec<Vec<Deed>>, NoMemory> {
    let mut deeds = Vec::new(alloc);
    for _ in 0..2u8 {
        let mut items = Vec::new(alloc);
        for _ in 0..2u8 {
            items.push(draw_deed(draws))?;
        }
        deeds.push(items)?;
    }
    let mut last = Vec::new(alloc);
    last.push(Deed::Sum)?;
    deeds.push(last)?;
    Ok(deeds)
}

/// Counts how a client's items ended. It answers whether all of them are told right.
fn count_outcomes(world: &World, client: u8, commits: &[Commit], counts: &mut Counts) -> bool {
    let Some(front) = world.clients.get(usize::from(client)) else {
        return false;
    };
    let mut right = true;
    for ended in front.outcomes() {
        match &ended.outcome {
            ItemOutcome::Refused { .. } => counts.refused = counts.refused.wrapping_add(1),
            ItemOutcome::Unknown { .. } => counts.unknown = counts.unknown.wrapping_add(1),
            _ => counts.committed = counts.committed.wrapping_add(1),
        }
        right = right && is_told(commits, ended);
    }
    right
}

/// Whether each client's items are told right.
fn are_told(world: &World, commits: &[Commit], counts: &mut Counts) -> bool {
    let mut right = true;
    for client in 0..CLIENTS {
        right = count_outcomes(world, client, commits, counts) && right;
    }
    right
}

/// Whether no participant was told another verdict than the coordinator's.
fn are_all_atomic(sites: &[Site], commits: &[Commit]) -> bool {
    for site in sites {
        if !are_atomic(commits, site.items.as_slice()) {
            return false;
        }
    }
    true
}

/// Whether all is right behind a schedule with these commits.
fn judge_commits(
    alloc: Global,
    world: &World,
    deeds: &[Vec<Deed>],
    commits: &[Commit],
    counts: &mut Counts,
) -> Result<bool, NoMemory> {
    let told = are_told(world, commits, counts);
    let atomic = are_all_atomic(world.port.sites.as_slice(), commits);
    let mut values: Values = [0; ROOTS];
    let serial = are_serial(alloc, &mut values, deeds, commits)?;
    Ok(told && atomic && serial && are_in_order(commits))
}

/// Whether all is right behind a schedule.
fn judge(
    alloc: Global,
    world: &World,
    deeds: &[Vec<Deed>],
    counts: &mut Counts,
) -> Result<bool, NoMemory> {
    let commits = commits_of(alloc, world.port.sites.as_slice())?;
    judge_commits(alloc, world, deeds, commits.as_slice(), counts)
}

/// Plays a schedule to its end. It answers whether the clients have come to theirs.
fn run(world: &mut World, draws: &mut Draws, counts: &mut Counts) -> Result<bool, NoMemory> {
    for _ in 0..EVENTS {
        world.happen(draws, counts)?;
    }
    world.count_pending(counts);
    world.mend()?;
    world.finish_all(CLIENTS)
}

/// Plays a schedule. It answers whether all is right behind it.
fn play_in(
    alloc: Global,
    world: &mut World,
    draws: &mut Draws,
    deeds: &[Vec<Deed>],
    counts: &mut Counts,
) -> Result<bool, NoMemory> {
    let ended = run(world, draws, counts)?;
    let right = judge(alloc, world, deeds, counts)?;
    let fits = all_fit(alloc, world, counts)?;
    Ok(ended && right && fits)
}

fn play(alloc: Global, seed: u64, counts: &mut Counts) -> Result<bool, NoMemory> {
    let mut draws = Draws::new(seed);
    let deeds = draw_deeds(alloc, &mut draws)?;
    let mut world = begin(alloc, deeds.as_slice())?;
    play_in(alloc, &mut world, &mut draws, deeds.as_slice(), counts)
}

fn play_all(alloc: Global) -> Counts {
    let mut counts = Counts {
        schedules: 0,
        committed: 0,
        refused: 0,
        unknown: 0,
        stopped: 0,
        restarted: 0,
        copies: 0,
        wrong: 0,
    };
    for seed in 0..SCHEDULES {
        counts.schedules = counts.schedules.wrapping_add(1);
        match play(alloc, seed, &mut counts) {
            Ok(true) => {}
            Ok(false) | Err(NoMemory) => counts.wrong = counts.wrong.wrapping_add(1),
        }
    }
    counts
}

fn main(rt: HostRuntime) -> ExitCode {
    let counts = play_all(rt.alloc());
    let told = println!(rt;
        "{} schedules, {} wrong; items: {} committed, {} refused, {} unknown; {} entries pending at the end, {} restarts; {} copies compared",
        counts.schedules,
        counts.wrong,
        counts.committed,
        counts.refused,
        counts.unknown,
        counts.stopped,
        counts.restarted,
        counts.copies
    );
    if told.is_err() || counts.wrong != 0 {
        return ExitCode::FAILURE;
    }
    ExitCode::SUCCESS
}
