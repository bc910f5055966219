//! Upgrades: fields are renamed, dropped, swapped, given other types, and computed from the old ones.

use crate::classes::{box_methods, seal_class_methods, wax_methods};
use crate::draws::Draws;
use crate::layout::Layout;
use crate::pieces::Pieces;
use crate::texts::draw_text;
use crate::world::World;
use std::alloc::Global;
use thor_value::NoMemory;

/// Which classes an upgrade names.
#[derive(Clone, Copy)]
struct Named {
    boxes: bool,
    seals: bool,
    wax: bool,
}

fn draw_named(draws: &mut Draws, world: &World) -> Named {
    let seals = world.seals && draws.comes(60);
    let wax = world.wax && draws.comes(60);
    Named {
        boxes: (!seals && !wax) || draws.comes(60),
        seals,
        wax,
    }
}

/// One turn more, or the names as they are.
fn turned(draws: &mut Draws, turns: u8) -> u8 {
    turns.saturating_add(if draws.comes(60) {
        draws.within(1, 3)
    } else {
        0
    })
}

fn draw_second(draws: &mut Draws, world: &World, has: bool) -> bool {
    world.second && draws.comes(if has { 70 } else { 50 })
}

fn draw_label(draws: &mut Draws, world: &World, has: bool) -> bool {
    world.labels && draws.comes(if has { 80 } else { 60 })
}

fn notes_behind(draws: &mut Draws, notes: u8) -> u8 {
    if draws.comes(30) { notes / 2 } else { notes }
}

fn fills_behind(draws: &mut Draws, fills: u8) -> u8 {
    match draws.below(4) {
        0 => fills / 2,
        1 => fills.saturating_add(2).min(26),
        _ => fills,
    }
}

/// The layout behind an upgrade.
fn layout_behind(draws: &mut Draws, world: &World, named: Named, old: &Layout) -> Layout {
    let mut layout = *old;
    if named.boxes {
        layout.boxes = turned(draws, old.boxes);
        layout.second = draw_second(draws, world, old.second);
        layout.fills = fills_behind(draws, old.fills);
        layout.label = draw_label(draws, world, old.label);
        layout.notes = notes_behind(draws, old.notes);
    }
    if named.seals {
        layout.seals = turned(draws, old.seals);
    }
    if named.wax {
        layout.wax = turned(draws, old.wax);
    }
    layout
}

/// The number of a part of a box, by its path, where the box may have it.
fn part_number(
    alloc: Global,
    draws: &mut Draws,
    world: &World,
    old: &Layout,
) -> Result<String, NoMemory> {
    let s = old.seal();
    let w = old.weight();
    let c = old.coat();
    let i = old.inner();
    let d = old.drops();
    let r = old.core();
    let text = match draws.below(5) {
        0 if world.wax => format!(in alloc; "old.{s}.{c}.{d}"),
        1 if world.wax => format!(in alloc; "old.{s}.{c}.{r}.{d} * 2"),
        2 if world.nested => format!(in alloc; "old.{s}.{i}.{w}"),
        3 if world.nested && world.wax => format!(in alloc; "old.{s}.{i}.{c}.{d}"),
        _ => format!(in alloc; "old.{s}.{w}"),
    };
    Ok(text?)
}

/// A box's number behind an upgrade.
fn number_value(
    alloc: Global,
    draws: &mut Draws,
    world: &World,
    old: &Layout,
) -> Result<String, NoMemory> {
    let n = old.number();
    let m = if old.second { old.second() } else { n };
    if world.seals && draws.comes(50) {
        let part = part_number(alloc, draws, world, old)?;
        return Ok(format!(in alloc; "old.{n} + {part}")?);
    }
    let text = match draws.below(5) {
        0 => format!(in alloc; "old.{n} + 1000"),
        1 => format!(in alloc; "old.{n} * 2 - old.{m}"),
        2 => format!(in alloc; "old.{m}"),
        3 => format!(in alloc; "-old.{n}"),
        _ => format!(in alloc; "old.{n}"),
    };
    Ok(text?)
}

/// Puts a field that is handed on or, seldom, dropped.
fn handed(
    pieces: &mut Pieces,
    draws: &mut Draws,
    kind: &str,
    new: char,
    old: char,
) -> Result<(), NoMemory> {
    let text = if draws.comes(10) {
        format!(in pieces.alloc; "{kind} {new} = null;")?
    } else {
        format!(in pieces.alloc; "{kind} {new} = old.{old};")?
    };
    pieces.line(3, text)
}

/// Puts a text that is handed on or, where there was none and at times, begins anew.
fn text_field(
    pieces: &mut Pieces,
    draws: &mut Draws,
    new: char,
    old: Option<char>,
) -> Result<(), NoMemory> {
    let word = draw_text(draws);
    let text = match old {
        Some(old) if draws.comes(80) => format!(in pieces.alloc; "text {new} = old.{old};")?,
        _ => format!(in pieces.alloc; "text {new} = \"{word}\";")?,
    };
    pieces.line(3, text)
}

/// Puts the texts of a box, the further ones some in each other's places, or in that of its own.
fn text_fields(
    pieces: &mut Pieces,
    draws: &mut Draws,
    new: &Layout,
    old: &Layout,
) -> Result<(), NoMemory> {
    let label = if old.label { Some(old.label()) } else { None };
    if new.label {
        text_field(pieces, draws, new.label(), label)?;
    }
    for place in 0..new.notes {
        let other = place ^ 1;
        let text = match label {
            _ if other < old.notes => format!(in pieces.alloc; "text g{place} = old.g{other};")?,
            Some(label) => format!(in pieces.alloc; "text g{place} = old.{label};")?,
            None => format!(in pieces.alloc; "text g{place} = \"none\";")?,
        };
        pieces.line(3, text)?;
    }
    Ok(())
}

/// Puts the further numbers of a box, some of them in each other's places.
fn fill_fields(pieces: &mut Pieces, new: &Layout, old: &Layout) -> Result<(), NoMemory> {
    for place in 0..new.fills {
        let other = place ^ 1;
        let text = if other < old.fills {
            format!(in pieces.alloc; "int f{place} = old.f{other};")?
        } else {
            format!(in pieces.alloc; "int f{place} = {place};")?
        };
        pieces.line(3, text)?;
    }
    Ok(())
}

/// The numbers of a box.
fn number_fields(
    pieces: &mut Pieces,
    draws: &mut Draws,
    world: &World,
    new: &Layout,
    old: &Layout,
) -> Result<(), NoMemory> {
    let value = number_value(pieces.alloc, draws, world, old)?;
    let name = new.number();
    let text = format!(in pieces.alloc; "int {name} = {value};")?;
    pieces.line(3, text)?;
    if new.second {
        let name = new.second();
        let from = if draws.comes(50) || !old.second {
            old.number()
        } else {
            old.second()
        };
        let text = format!(in pieces.alloc; "int {name} = old.{from};")?;
        pieces.line(3, text)?;
    }
    Ok(())
}

fn head(pieces: &mut Pieces, depth: u8, text: &str) -> Result<(), NoMemory> {
    let text = format!(in pieces.alloc; "{text}")?;
    pieces.block(depth, text)
}

/// The class of boxes behind an upgrade.
fn box_change(
    pieces: &mut Pieces,
    draws: &mut Draws,
    world: &World,
    new: &Layout,
    old: &Layout,
) -> Result<(), NoMemory> {
    head(pieces, 2, "class Box")?;
    if world.links && draws.comes(50) {
        handed(pieces, draws, "Box", new.next(), old.next())?;
        number_fields(pieces, draws, world, new, old)?;
    } else {
        number_fields(pieces, draws, world, new, old)?;
        if world.links {
            handed(pieces, draws, "Box", new.next(), old.next())?;
        }
    }
    if world.seals {
        handed(pieces, draws, "Seal", new.seal(), old.seal())?;
    }
    fill_fields(pieces, new, old)?;
    text_fields(pieces, draws, new, old)?;
    box_methods(pieces, 3, world, new)
}

/// A seal's number behind an upgrade.
fn weight_value(
    alloc: Global,
    draws: &mut Draws,
    world: &World,
    old: &Layout,
) -> Result<String, NoMemory> {
    let w = old.weight();
    let c = old.coat();
    let i = old.inner();
    let d = old.drops();
    let r = old.core();
    let text = match draws.below(6) {
        0 if world.wax => format!(in alloc; "old.{w} + old.{c}.{d}"),
        1 if world.wax => format!(in alloc; "old.{c}.{r}.{d} - old.{w}"),
        2 if world.nested => format!(in alloc; "old.{w} * 2 + old.{i}.{w}"),
        3 if world.nested && world.wax => format!(in alloc; "old.{w} + old.{i}.{c}.{d}"),
        4 => format!(in alloc; "old.{w} + 7"),
        _ => format!(in alloc; "old.{w}"),
    };
    Ok(text?)
}

/// The class of seals behind an upgrade.
fn seal_change(
    pieces: &mut Pieces,
    draws: &mut Draws,
    world: &World,
    new: &Layout,
    old: &Layout,
) -> Result<(), NoMemory> {
    head(pieces, 2, "class Seal")?;
    let value = weight_value(pieces.alloc, draws, world, old)?;
    let name = new.weight();
    let text = format!(in pieces.alloc; "int {name} = {value};")?;
    pieces.line(3, text)?;
    if world.wax {
        handed(pieces, draws, "Wax", new.coat(), old.coat())?;
    }
    if world.nested {
        handed(pieces, draws, "Seal", new.inner(), old.inner())?;
    }
    if world.points {
        handed(pieces, draws, "Box", new.target(), old.target())?;
    }
    if world.labels {
        text_field(pieces, draws, new.brand(), Some(old.brand()))?;
    }
    seal_class_methods(pieces, 3, world, new)
}

/// The class of wax behind an upgrade.
fn wax_change(
    pieces: &mut Pieces,
    draws: &mut Draws,
    new: &Layout,
    old: &Layout,
) -> Result<(), NoMemory> {
    head(pieces, 2, "class Wax")?;
    let name = new.drops();
    let d = old.drops();
    let r = old.core();
    let text = match draws.below(3) {
        0 => format!(in pieces.alloc; "int {name} = old.{d} + old.{r}.{d};")?,
        1 => format!(in pieces.alloc; "int {name} = old.{d} * 3;")?,
        _ => format!(in pieces.alloc; "int {name} = old.{d};")?,
    };
    pieces.line(3, text)?;
    handed(pieces, draws, "Wax", new.core(), r)?;
    wax_methods(pieces, 3, new)
}

/// Puts an upgrade. The layout behind it.
pub(crate) fn upgrade(
    pieces: &mut Pieces,
    draws: &mut Draws,
    world: &World,
    old: &Layout,
) -> Result<Layout, NoMemory> {
    let named = draw_named(draws, world);
    let new = layout_behind(draws, world, named, old);
    head(pieces, 1, "upgrade")?;
    if named.boxes {
        box_change(pieces, draws, world, &new, old)?;
    }
    if named.seals {
        seal_change(pieces, draws, world, &new, old)?;
    }
    if named.wax {
        wax_change(pieces, draws, &new, old)?;
    }
    Ok(new)
}
