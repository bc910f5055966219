//! A script, drawn from a seed.

use crate::classes::classes;
use crate::clients::clients;
use crate::draws::Draws;
use crate::layout::Layout;
use crate::options::{Ending, Options};
use crate::phases::Phases;
use crate::pieces::Pieces;
use crate::roots::roots;
use crate::script::Script;
use crate::world::{Bounds, World, draw_world};
use std::alloc::Global;
use thor_value::NoMemory;

fn draw_tries(draws: &mut Draws) -> u8 {
    match draws.below(4) {
        0 => 1,
        1 => draws.within(2, 4),
        _ => 16,
    }
}

fn draw_cache(draws: &mut Draws) -> u16 {
    match draws.below(4) {
        0 => 1,
        1 => 2,
        _ => 64,
    }
}

fn draw_mob(draws: &mut Draws) -> u32 {
    match draws.below(40) {
        0 => 1,
        1 => 60,
        2 | 3 => 200,
        4 | 5 | 6 | 7 => 700,
        8 | 9 | 10 | 11 => 2_000,
        _ => 1_048_576,
    }
}

/// What a crash leaves: what was synced, all that was written, or torn bytes.
fn draw_pick(draws: &mut Draws) -> u8 {
    match draws.below(3) {
        0 => 0,
        1 => 1,
        _ => draws.within(2, 250),
    }
}

fn draw_ending(draws: &mut Draws, world: &World) -> Ending {
    match draws.below(10) {
        0 | 1 => Ending::Cut {
            pick: draw_pick(draws),
        },
        2 | 3 => Ending::Checkpointed,
        4 | 5 if world.upgrades == 0 => Ending::Again,
        _ => Ending::Drained,
    }
}

fn draw_options(draws: &mut Draws, world: &World) -> Options {
    Options {
        repos: world.repos,
        tries: draw_tries(draws),
        cache: draw_cache(draws),
        mob: draw_mob(draws),
        ending: draw_ending(draws, world),
    }
}

/// Puts the setup, the clients and the schedule.
fn put_all(
    pieces: &mut Pieces,
    draws: &mut Draws,
    world: &World,
    ending: Ending,
) -> Result<(), NoMemory> {
    let layout = Layout::first(world);
    let head = format!(in pieces.alloc; "setup")?;
    pieces.line(0, head)?;
    classes(pieces, world, &layout)?;
    roots(pieces, draws, world)?;
    clients(pieces, draws, world, &layout)?;
    let mut phases = Phases::drawn(pieces, draws, world)?;
    phases.schedule()?;
    if let Ending::Cut { .. } = ending {
        phases.stopping()?;
    }
    Ok(())
}

/// The script of a seed, within bounds. It is the same on every machine.
pub fn make(alloc: Global, seed: u64, bounds: &Bounds) -> Result<Script, NoMemory> {
    let mut draws = Draws::new(seed);
    let world = draw_world(&mut draws, bounds);
    let options = draw_options(&mut draws, &world);
    let mut pieces = Pieces::new(alloc);
    put_all(&mut pieces, &mut draws, &world, options.ending)?;
    Ok(Script {
        options,
        clients: world.clients,
        pieces: pieces.items,
    })
}
