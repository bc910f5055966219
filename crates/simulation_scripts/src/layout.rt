//! How the fields of the classes are called in an epoch.

ghost use Rattle.std.specs.Prelude.{◌<◌, ◌≤◌};

use crate::world::World;

/// How the fields of the classes are called in an epoch. The five names of a class change places by turns.
#[derive(Clone, Copy)]
pub struct Layout {
    pub boxes: u8,
    pub seals: u8,
    pub wax: u8,
    /// Whether a box has its second number.
    pub second: bool,
    /// Whether a box has its text.
    pub label: bool,
    /// How many further numbers a box has.
    pub fills: u8,
    /// How many further texts.
    pub notes: u8,
}

impl Layout {
    /// That of the setup.
    pub fn first(world: &World) -> Layout {
        Layout {
            boxes: 0,
            seals: 0,
            wax: 0,
            second: world.second,
            label: world.labels,
            fills: world.fills,
            notes: world.notes,
        }
    }

    /// A box's number.
    pub fn number(&self) -> char {
        letter(b'p', self.boxes, 0)
    }

    /// Its second number.
    pub fn second(&self) -> char {
        letter(b'p', self.boxes, 1)
    }

    /// The box to which it refers.
    pub fn next(&self) -> char {
        letter(b'p', self.boxes, 2)
    }

    /// Its seal.
    pub fn seal(&self) -> char {
        letter(b'p', self.boxes, 3)
    }

    /// Its text.
    pub fn label(&self) -> char {
        letter(b'p', self.boxes, 4)
    }

    /// A seal's number.
    pub fn weight(&self) -> char {
        letter(b't', self.seals, 0)
    }

    /// Its wax.
    pub fn coat(&self) -> char {
        letter(b't', self.seals, 1)
    }

    /// The seal in it.
    pub fn inner(&self) -> char {
        letter(b't', self.seals, 2)
    }

    /// The box to which it refers.
    pub fn target(&self) -> char {
        letter(b't', self.seals, 3)
    }

    /// A seal's text.
    pub fn brand(&self) -> char {
        letter(b't', self.seals, 4)
    }

    /// The number of a piece of wax.
    pub fn drops(&self) -> char {
        letter(b'a', self.wax, 0)
    }

    /// The wax in it.
    pub fn core(&self) -> char {
        letter(b'a', self.wax, 1)
    }
}

/// One of five letters from one on, by turns.
fn letter(first: u8, turns: u8, role: u8) -> char
    requires { first ≤ 122 }
{
    let place = turns.wrapping_add(role) % 5;
    (first + place) as char
}
