//! The clients with their items.

use crate::draws::Draws;
use crate::layout::Layout;
use crate::pieces::Pieces;
use crate::statements::Statements;
use crate::upgrades::upgrade;
use crate::world::World;
use thor_value::NoMemory;

/// Puts a transaction.
fn transaction(pieces: &mut Pieces, draws: &mut Draws, world: &World) -> Result<(), NoMemory> {
    let head = format!(in pieces.alloc; "tx")?;
    pieces.block(1, head)?;
    let count = draws.within(1, world.statements);
    let mut statements = Statements {
        pieces,
        draws,
        world,
        locals: 0,
    };
    for _ in 0..count {
        statements.statement(2)?;
    }
    Ok(())
}

/// Puts a client with its items. The layout behind its upgrades.
fn client(
    pieces: &mut Pieces,
    draws: &mut Draws,
    world: &World,
    layout: Layout,
    upgrades: u8,
) -> Result<(), NoMemory> {
    pieces.client()?;
    let mut layout = layout;
    let mut left = upgrades;
    let count = draws.within(1, world.items).saturating_add(upgrades);
    for place in 0..count {
        let is_last = count.saturating_sub(place) <= left;
        if left > 0 && (is_last || draws.comes(40)) {
            layout = upgrade(pieces, draws, world, &layout)?;
            left = left.saturating_sub(1);
        } else {
            transaction(pieces, draws, world)?;
        }
    }
    Ok(())
}

/// Puts the clients.
pub(crate) fn clients(
    pieces: &mut Pieces,
    draws: &mut Draws,
    world: &World,
    layout: &Layout,
) -> Result<(), NoMemory> {
    for place in 0..world.clients {
        let number = place.saturating_add(1);
        let upgrades = if number == world.upgrader {
            world.upgrades
        } else {
            0
        };
        client(pieces, draws, world, *layout, upgrades)?;
    }
    Ok(())
}
