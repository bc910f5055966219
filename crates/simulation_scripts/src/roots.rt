//! The roots.

use crate::draws::Draws;
use crate::pieces::Pieces;
use crate::world::World;
use thor_value::NoMemory;

/// The repository of a root: by turns, or any.
fn place(draws: &mut Draws, world: &World, root: u8, in_turn: bool) -> u8 {
    if world.repos == 0 {
        return 0;
    }
    if in_turn {
        root % world.repos
    } else {
        draws.below(world.repos)
    }
}

/// Puts the roots.
pub(crate) fn roots(pieces: &mut Pieces, draws: &mut Draws, world: &World) -> Result<(), NoMemory> {
    let in_turn = draws.comes(70);
    for root in 0..world.roots {
        let at = place(draws, world, root, in_turn);
        let text = format!(in pieces.alloc; "root r{root} = new Box() at {at};")?;
        pieces.line(0, text)?;
    }
    Ok(())
}
