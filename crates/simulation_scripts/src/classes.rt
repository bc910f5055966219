//! The classes: what they have, and what they do. What a method is called and takes is the same in all epochs.

use crate::layout::Layout;
use crate::pieces::Pieces;
use crate::world::World;
use thor_value::NoMemory;

/// Puts a method that stands here.
fn fixed(pieces: &mut Pieces, depth: u8, text: &str) -> Result<(), NoMemory> {
    let line = format!(in pieces.alloc; "{text}")?;
    pieces.line(depth, line)
}

/// The methods of a box that change its number.
fn number_methods(pieces: &mut Pieces, depth: u8, layout: &Layout) -> Result<(), NoMemory> {
    let n = layout.number();
    let alloc = pieces.alloc;
    let get = format!(in alloc; "method int get() {{ return this.{n}; }}")?;
    pieces.line(depth, get)?;
    let add = format!(in alloc;
        "method int add(int k) {{ this.{n} = this.{n} + k; return this.{n}; }}"
    )?;
    pieces.line(depth, add)?;
    let set = format!(in alloc; "method int set(int k) {{ this.{n} = k; return k; }}")?;
    pieces.line(depth, set)?;
    fixed(
        pieces,
        depth,
        "method int move(Box to, int k) { this.add(-k); to.add(k); return this.get(); }",
    )
}

/// The methods of a box that go by the box to which it refers.
fn link_methods(pieces: &mut Pieces, depth: u8, layout: &Layout) -> Result<(), NoMemory> {
    let next = layout.next();
    let alloc = pieces.alloc;
    let tie = format!(in alloc;
        "method int tie(Box to) {{ this.{next} = to; return this.get(); }}"
    )?;
    pieces.line(depth, tie)?;
    let rest = format!(in alloc; "method Box rest() {{ return this.{next}; }}")?;
    pieces.line(depth, rest)?;
    let sum = format!(in alloc;
        "method int sum(int d) {{ if (d < 1) {{ return this.get(); }} if (this.{next} == null) {{ return this.get(); }} return this.get() + this.{next}.sum(d - 1); }}"
    )?;
    pieces.line(depth, sum)?;
    let grow = format!(in alloc;
        "method int grow(int k) {{ var Box made = new Box(); made.set(k); made.tie(this.{next}); this.{next} = made; return this.get(); }}"
    )?;
    pieces.line(depth, grow)
}

/// The methods of a box that go by its second number, where it has it.
fn second_methods(pieces: &mut Pieces, depth: u8, layout: &Layout) -> Result<(), NoMemory> {
    let n = layout.number();
    let m = if layout.second { layout.second() } else { n };
    let alloc = pieces.alloc;
    let both = format!(in alloc; "method int both() {{ return this.{n} * 2 + this.{m}; }}")?;
    pieces.line(depth, both)?;
    let swap = format!(in alloc;
        "method int swap(int k) {{ var int t = this.{n}; this.{n} = this.{m} + k; this.{m} = t; return t; }}"
    )?;
    pieces.line(depth, swap)
}

/// The methods of a box that go by its seal.
fn seal_methods(
    pieces: &mut Pieces,
    depth: u8,
    world: &World,
    layout: &Layout,
) -> Result<(), NoMemory> {
    let s = layout.seal();
    let alloc = pieces.alloc;
    let press = format!(in alloc;
        "method int press(int k) {{ if (this.{s} == null) {{ this.{s} = new Seal(); }} return this.{s}.put(k); }}"
    )?;
    pieces.line(depth, press)?;
    let worth = format!(in alloc;
        "method int worth() {{ if (this.{s} == null) {{ return 0 - 1; }} return this.{s}.worth(); }}"
    )?;
    pieces.line(depth, worth)?;
    let drop = format!(in alloc; "method int unseal() {{ this.{s} = null; return this.get(); }}")?;
    pieces.line(depth, drop)?;
    if world.nested {
        let deepen = format!(in alloc;
            "method int deepen(int k) {{ if (this.{s} == null) {{ this.{s} = new Seal(); }} return this.{s}.deepen(k); }}"
        )?;
        pieces.line(depth, deepen)?;
    }
    if world.points {
        let point = format!(in alloc;
            "method int point(Box to) {{ if (this.{s} == null) {{ this.{s} = new Seal(); }} return this.{s}.point(to); }}"
        )?;
        pieces.line(depth, point)?;
        let pay = format!(in alloc;
            "method int pay(int k) {{ if (this.{s} == null) {{ return 0; }} return this.{s}.pay(k); }}"
        )?;
        pieces.line(depth, pay)?;
    }
    Ok(())
}

/// The methods of a box that go by its text.
fn label_methods(pieces: &mut Pieces, depth: u8, layout: &Layout) -> Result<(), NoMemory> {
    let l = layout.label();
    let alloc = pieces.alloc;
    let label = format!(in alloc; "method text label() {{ return this.{l}; }}")?;
    pieces.line(depth, label)?;
    let call = format!(in alloc;
        "method text call(text to) {{ var text was = this.{l}; this.{l} = to; return was; }}"
    )?;
    pieces.line(depth, call)?;
    let is = format!(in alloc; "method int is(text other) {{ return this.{l} == other; }}")?;
    pieces.line(depth, is)?;
    let advance = format!(in alloc;
        "method text advance() {{ if (this.{l} == \"new\") {{ this.{l} = \"paid\"; return this.{l}; }} if (this.{l} != \"sent\") {{ this.{l} = \"sent\"; return this.{l}; }} this.{l} = \"new\"; }}"
    )?;
    pieces.line(depth, advance)?;
    let trade = format!(in alloc;
        "method int trade(Box with) {{ this.{l} = with.call(this.{l}); return with.label() != this.{l}; }}"
    )?;
    pieces.line(depth, trade)
}

/// The same methods of a box without a text.
fn unlabeled_methods(pieces: &mut Pieces, depth: u8) -> Result<(), NoMemory> {
    fixed(pieces, depth, "method text label() { return \"none\"; }")?;
    fixed(pieces, depth, "method text call(text to) { return to; }")?;
    fixed(
        pieces,
        depth,
        "method int is(text other) { return other == \"none\"; }",
    )?;
    fixed(pieces, depth, "method text advance() { }")?;
    fixed(
        pieces,
        depth,
        "method int trade(Box with) { with.call(this.label()); return 0; }",
    )
}

/// What fills a box's further texts.
fn note_method(pieces: &mut Pieces, depth: u8, layout: &Layout) -> Result<(), NoMemory> {
    let alloc = pieces.alloc;
    let mut text = format!(in alloc; "method text fill(text with) {{")?;
    for place in 0..layout.notes {
        let more = format!(in alloc; " this.g{place} = with;")?;
        text.push_str(&more)?;
    }
    text.push_str(if layout.notes == 0 {
        " return with; }"
    } else {
        " return this.g0; }"
    })?;
    pieces.line(depth, text)
}

/// The methods of a box that go by its seal's text.
fn brand_methods(pieces: &mut Pieces, depth: u8, layout: &Layout) -> Result<(), NoMemory> {
    let s = layout.seal();
    let alloc = pieces.alloc;
    let brand = format!(in alloc;
        "method text brand(text to) {{ if (this.{s} == null) {{ this.{s} = new Seal(); }} return this.{s}.brand(to); }}"
    )?;
    pieces.line(depth, brand)?;
    let branded = format!(in alloc;
        "method text branded() {{ if (this.{s} == null) {{ return \"no seal\"; }} return this.{s}.branded(); }}"
    )?;
    pieces.line(depth, branded)
}

/// The methods of a box that go by texts.
fn text_methods(
    pieces: &mut Pieces,
    depth: u8,
    world: &World,
    layout: &Layout,
) -> Result<(), NoMemory> {
    if layout.label {
        label_methods(pieces, depth, layout)?;
    } else {
        unlabeled_methods(pieces, depth)?;
    }
    if world.notes > 0 {
        note_method(pieces, depth, layout)?;
    }
    if world.seals {
        brand_methods(pieces, depth, layout)?;
    }
    Ok(())
}

/// The methods of a box.
pub(crate) fn box_methods(
    pieces: &mut Pieces,
    depth: u8,
    world: &World,
    layout: &Layout,
) -> Result<(), NoMemory> {
    number_methods(pieces, depth, layout)?;
    if world.links {
        link_methods(pieces, depth, layout)?;
    }
    if world.second {
        second_methods(pieces, depth, layout)?;
    }
    if world.seals {
        seal_methods(pieces, depth, world, layout)?;
    }
    if world.labels {
        text_methods(pieces, depth, world, layout)?;
    }
    Ok(())
}

/// What a seal hands on to its wax, and what it takes of it.
fn put_method(
    pieces: &mut Pieces,
    depth: u8,
    world: &World,
    layout: &Layout,
) -> Result<(), NoMemory> {
    let w = layout.weight();
    let c = layout.coat();
    let put = if world.wax {
        format!(in pieces.alloc;
            "method int put(int k) {{ this.{w} = this.{w} + k; if (this.{c} == null) {{ this.{c} = new Wax(); }} this.{c}.put(k); return this.{w}; }}"
        )?
    } else {
        format!(in pieces.alloc;
            "method int put(int k) {{ this.{w} = this.{w} + k; return this.{w}; }}"
        )?
    };
    pieces.line(depth, put)
}

/// What a seal is worth, with its parts.
fn worth_method(
    pieces: &mut Pieces,
    depth: u8,
    world: &World,
    layout: &Layout,
) -> Result<(), NoMemory> {
    let w = layout.weight();
    let alloc = pieces.alloc;
    let mut text = format!(in alloc; "method int worth() {{ var int sum = this.{w};")?;
    if world.wax {
        let c = layout.coat();
        let more = format!(in alloc; " if (this.{c} != null) {{ sum = sum + this.{c}.worth(); }}")?;
        text.push_str(&more)?;
    }
    if world.nested {
        let i = layout.inner();
        let more = format!(in alloc; " if (this.{i} != null) {{ sum = sum + this.{i}.worth(); }}")?;
        text.push_str(&more)?;
    }
    text.push_str(" return sum; }")?;
    pieces.line(depth, text)
}

/// The methods of a seal.
pub(crate) fn seal_class_methods(
    pieces: &mut Pieces,
    depth: u8,
    world: &World,
    layout: &Layout,
) -> Result<(), NoMemory> {
    let alloc = pieces.alloc;
    put_method(pieces, depth, world, layout)?;
    worth_method(pieces, depth, world, layout)?;
    if world.nested {
        let i = layout.inner();
        let deepen = format!(in alloc;
            "method int deepen(int k) {{ if (this.{i} == null) {{ this.{i} = new Seal(); return this.{i}.put(k); }} return this.{i}.deepen(k); }}"
        )?;
        pieces.line(depth, deepen)?;
    }
    if world.points {
        let t = layout.target();
        let point = format!(in alloc;
            "method int point(Box to) {{ this.{t} = to; return this.worth(); }}"
        )?;
        pieces.line(depth, point)?;
        let pay = format!(in alloc;
            "method int pay(int k) {{ if (this.{t} == null) {{ return 0; }} return this.{t}.add(k); }}"
        )?;
        pieces.line(depth, pay)?;
    }
    if world.labels {
        branding_methods(pieces, depth, layout)?;
    }
    Ok(())
}

/// The methods of a seal that go by its text.
fn branding_methods(pieces: &mut Pieces, depth: u8, layout: &Layout) -> Result<(), NoMemory> {
    let b = layout.brand();
    let alloc = pieces.alloc;
    let brand = format!(in alloc;
        "method text brand(text to) {{ var text was = this.{b}; this.{b} = to; return was; }}"
    )?;
    pieces.line(depth, brand)?;
    let branded = format!(in alloc; "method text branded() {{ return this.{b}; }}")?;
    pieces.line(depth, branded)
}

/// The methods of wax.
pub(crate) fn wax_methods(pieces: &mut Pieces, depth: u8, layout: &Layout) -> Result<(), NoMemory> {
    let d = layout.drops();
    let c = layout.core();
    let alloc = pieces.alloc;
    let put = format!(in alloc;
        "method int put(int k) {{ this.{d} = this.{d} + k; if (k < 3) {{ if (this.{c} == null) {{ this.{c} = new Wax(); }} this.{c}.put(k + 2); }} return this.{d}; }}"
    )?;
    pieces.line(depth, put)?;
    let worth = format!(in alloc;
        "method int worth() {{ if (this.{c} == null) {{ return this.{d}; }} return this.{d} + this.{c}.worth(); }}"
    )?;
    pieces.line(depth, worth)
}

/// Puts a field.
fn field(pieces: &mut Pieces, kind: &str, name: char) -> Result<(), NoMemory> {
    let text = format!(in pieces.alloc; "{kind} {name};")?;
    pieces.line(1, text)
}

/// The class of boxes.
fn box_class(pieces: &mut Pieces, world: &World, layout: &Layout) -> Result<(), NoMemory> {
    let head = format!(in pieces.alloc; "free class Box")?;
    pieces.block(0, head)?;
    field(pieces, "int", layout.number())?;
    if world.second {
        field(pieces, "int", layout.second())?;
    }
    if world.links {
        field(pieces, "Box", layout.next())?;
    }
    if world.seals {
        field(pieces, "Seal", layout.seal())?;
    }
    if world.labels {
        field(pieces, "text", layout.label())?;
    }
    further_fields(pieces, layout)?;
    box_methods(pieces, 1, world, layout)
}

/// Puts the further numbers and texts of a box.
fn further_fields(pieces: &mut Pieces, layout: &Layout) -> Result<(), NoMemory> {
    for place in 0..layout.fills {
        let text = format!(in pieces.alloc; "int f{place};")?;
        pieces.line(1, text)?;
    }
    for place in 0..layout.notes {
        let text = format!(in pieces.alloc; "text g{place};")?;
        pieces.line(1, text)?;
    }
    Ok(())
}

/// The class of seals.
fn seal_class(pieces: &mut Pieces, world: &World, layout: &Layout) -> Result<(), NoMemory> {
    let head = format!(in pieces.alloc; "part class Seal")?;
    pieces.block(0, head)?;
    field(pieces, "int", layout.weight())?;
    if world.wax {
        field(pieces, "Wax", layout.coat())?;
    }
    if world.nested {
        field(pieces, "Seal", layout.inner())?;
    }
    if world.points {
        field(pieces, "Box", layout.target())?;
    }
    if world.labels {
        field(pieces, "text", layout.brand())?;
    }
    seal_class_methods(pieces, 1, world, layout)
}

/// The class of wax.
fn wax_class(pieces: &mut Pieces, layout: &Layout) -> Result<(), NoMemory> {
    let head = format!(in pieces.alloc; "part class Wax")?;
    pieces.block(0, head)?;
    field(pieces, "int", layout.drops())?;
    field(pieces, "Wax", layout.core())?;
    wax_methods(pieces, 1, layout)
}

/// The classes of a setup.
pub(crate) fn classes(pieces: &mut Pieces, world: &World, layout: &Layout) -> Result<(), NoMemory> {
    box_class(pieces, world, layout)?;
    if world.seals {
        seal_class(pieces, world, layout)?;
    }
    if world.wax {
        wax_class(pieces, layout)?;
    }
    Ok(())
}
