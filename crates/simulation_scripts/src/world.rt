//! How large a script is, and what its classes have.

use crate::draws::Draws;

/// The most that is drawn.
#[derive(Clone, Copy)]
pub struct Bounds {
    /// Repositories, 1 to 8.
    pub repos: u8,
    /// Clients, 1 to 8.
    pub clients: u8,
    /// Items of a client.
    pub items: u8,
}

/// How large a script is, and what its classes have.
#[derive(Clone, Copy)]
pub struct World {
    pub repos: u8,
    pub clients: u8,
    pub roots: u8,
    /// The most items of a client.
    pub items: u8,
    /// The most statements of a transaction.
    pub statements: u8,
    /// The client that has the upgrades, and how many there are.
    pub upgrader: u8,
    pub upgrades: u8,
    /// Whether boxes refer to boxes.
    pub links: bool,
    /// Whether a box has a second number.
    pub second: bool,
    /// Whether a box has a seal, which is a part.
    pub seals: bool,
    /// Whether a seal has wax, which is a part of a part.
    pub wax: bool,
    /// Whether a seal has a seal.
    pub nested: bool,
    /// Whether a seal refers to a box.
    pub points: bool,
    /// How many further numbers a box has.
    pub fills: u8,
    /// Whether boxes and seals have a text.
    pub labels: bool,
    /// How many further texts a box has.
    pub notes: u8,
    /// The kind of simple statements that comes most often, and how many times in a hundred.
    pub liked: u8,
    pub liking: u8,
}

fn draw_upgrades(draws: &mut Draws) -> u8 {
    if draws.comes(70) {
        0
    } else {
        draws.within(1, 3)
    }
}

fn draw_fills(draws: &mut Draws) -> u8 {
    match draws.below(10) {
        0 => draws.within(20, 26),
        1 | 2 => draws.within(1, 4),
        _ => 0,
    }
}

/// So many that an object has 32 fields at most, behind three upgrades too.
fn draw_notes(draws: &mut Draws, labels: bool, fills: u8) -> u8 {
    if labels && fills < 5 && draws.comes(30) {
        draws.within(1, 16)
    } else {
        0
    }
}

/// A number of few, often a small one.
fn draw_few(draws: &mut Draws, least: u8, often: u8, most: u8) -> u8 {
    let greatest = if draws.comes(80) {
        often.min(most)
    } else {
        most
    };
    draws.within(least.min(greatest), greatest)
}

/// A script in which few clients meet at few objects.
fn tight(draws: &mut Draws, bounds: &Bounds, world: World) -> World {
    let clients = draws.within(2, 3).min(bounds.clients);
    World {
        repos: bounds.repos.min(2),
        clients,
        roots: draws.within(2, 3),
        items: draws.within(2, 5).min(bounds.items),
        statements: draws.within(1, 2),
        upgrader: draws.within(1, clients),
        ..world
    }
}

/// A script of any size.
fn loose(draws: &mut Draws, bounds: &Bounds, world: World) -> World {
    let clients = draw_few(draws, 2, 3, bounds.clients);
    World {
        repos: draw_few(draws, 1, 3, bounds.repos),
        clients,
        roots: draw_few(draws, 2, 4, 14),
        items: draw_few(draws, 1, 4, bounds.items),
        statements: draw_few(draws, 1, 3, 6),
        upgrader: draws.within(1, clients),
        ..world
    }
}

/// A script's size, and what its classes have.
pub(crate) fn draw_world(draws: &mut Draws, bounds: &Bounds) -> World {
    let plain = draws.comes(40);
    let seals = !plain && draws.comes(60);
    let labels = draws.comes(if plain { 40 } else { 60 });
    let fills = if plain { 0 } else { draw_fills(draws) };
    let world = World {
        repos: 1,
        clients: 1,
        roots: 1,
        items: 1,
        statements: 1,
        upgrader: 1,
        upgrades: if plain { 0 } else { draw_upgrades(draws) },
        links: !plain && draws.comes(60),
        second: !plain && draws.comes(40),
        seals,
        wax: seals && draws.comes(50),
        nested: seals && draws.comes(40),
        points: seals && draws.comes(40),
        fills,
        labels,
        notes: draw_notes(draws, labels, fills),
        liked: if draws.comes(50) { 2 } else { draws.below(7) },
        liking: draws.within(0, 80),
    };
    if draws.comes(60) {
        tight(draws, bounds, world)
    } else {
        loose(draws, bounds, world)
    }
}
