//! The statements of transactions.

use crate::draws::Draws;
use crate::pieces::Pieces;
use crate::texts::draw_text;
use crate::world::World;
use thor_value::NoMemory;

/// What statements are made of, and how many locals there are.
#[derive(Drop)]
pub(crate) struct Statements<'a> {
    pub pieces: &'a mut Pieces,
    pub draws: &'a mut Draws,
    pub world: &'a World,
    pub locals: u8,
}

impl<'a> Statements<'a> {
    fn root(&mut self) -> u8 {
        self.draws.below(self.world.roots)
    }

    fn amount(&mut self) -> u8 {
        self.draws.below(99)
    }

    /// A local that has no name yet.
    fn local(&mut self) -> u8 {
        self.locals = self.locals.saturating_add(1);
        self.locals
    }

    /// The kind of a simple statement.
    fn kind(&mut self) -> u8 {
        if self.draws.comes(self.world.liking) {
            self.world.liked
        } else {
            self.draws.below(7)
        }
    }

    /// Puts a statement that reads a number or changes it.
    fn simple(&mut self, depth: u8) -> Result<(), NoMemory> {
        let a = self.root();
        let b = self.root();
        let k = self.amount();
        let alloc = self.pieces.alloc;
        let text = match self.kind() {
            0 => format!(in alloc; "print r{a}.get();")?,
            1 => format!(in alloc; "print r{a}.get() + r{b}.get();")?,
            2 | 3 => format!(in alloc; "print r{a}.move(r{b}, {k});")?,
            4 => format!(in alloc; "r{a}.set({k});")?,
            _ => format!(in alloc; "print r{a}.add({k});")?,
        };
        self.pieces.line(depth, text)
    }

    /// Puts a statement that goes by references, or makes objects.
    fn linking(&mut self, depth: u8) -> Result<(), NoMemory> {
        let a = self.root();
        let b = self.root();
        let k = self.amount();
        let alloc = self.pieces.alloc;
        let text = match self.draws.below(6) {
            0 => format!(in alloc; "print r{a}.tie(r{b});")?,
            1 => format!(in alloc; "print r{a}.sum({k});")?,
            2 | 3 => format!(in alloc; "print r{a}.grow({k});")?,
            4 => return self.made(depth, a, k),
            _ => return self.followed(depth, a, k),
        };
        self.pieces.line(depth, text)
    }

    /// Makes a box, and ties it to a root.
    fn made(&mut self, depth: u8, root: u8, amount: u8) -> Result<(), NoMemory> {
        let alloc = self.pieces.alloc;
        let x = self.local();
        let at = self.draws.below(self.world.repos);
        let made = format!(in alloc; "var Box x{x} = new Box() at {at};")?;
        self.pieces.line(depth, made)?;
        let set = format!(in alloc; "print x{x}.add({amount});")?;
        self.pieces.line(depth, set)?;
        let tied = format!(in alloc; "r{root}.tie(x{x});")?;
        self.pieces.line(depth, tied)
    }

    /// Goes to the box to which a root refers: sometimes without a look whether there is one.
    fn followed(&mut self, depth: u8, root: u8, amount: u8) -> Result<(), NoMemory> {
        let alloc = self.pieces.alloc;
        if self.draws.comes(10) {
            let text = format!(in alloc; "print r{root}.rest().add({amount});")?;
            return self.pieces.line(depth, text);
        }
        let x = self.local();
        let found = format!(in alloc; "var Box x{x} = r{root}.rest();")?;
        self.pieces.line(depth, found)?;
        let test = format!(in alloc; "if (x{x} != null)")?;
        self.pieces.block(depth, test)?;
        let text = format!(in alloc; "print x{x}.add({amount});")?;
        self.pieces.line(depth.saturating_add(1), text)
    }

    /// Puts a statement that goes by parts.
    fn sealing(&mut self, depth: u8) -> Result<(), NoMemory> {
        let a = self.root();
        let b = self.root();
        let k = self.amount();
        let alloc = self.pieces.alloc;
        let text = match self.draws.below(9) {
            0 | 1 => format!(in alloc; "print r{a}.press({k} - 40);")?,
            2 => format!(in alloc; "r{a}.unseal();")?,
            3 | 4 if self.world.nested => format!(in alloc; "print r{a}.deepen({k});")?,
            5 if self.world.points => format!(in alloc; "print r{a}.point(r{b});")?,
            6 if self.world.points => format!(in alloc; "print r{a}.pay({k});")?,
            _ => format!(in alloc; "print r{a}.worth();")?,
        };
        self.pieces.line(depth, text)
    }

    /// Puts a statement that goes by a second number.
    fn swapping(&mut self, depth: u8) -> Result<(), NoMemory> {
        let a = self.root();
        let k = self.amount();
        let alloc = self.pieces.alloc;
        let text = if self.draws.comes(50) {
            format!(in alloc; "print r{a}.both();")?
        } else {
            format!(in alloc; "print r{a}.swap({k});")?
        };
        self.pieces.line(depth, text)
    }

    /// Puts a statement that goes by texts.
    fn labelling(&mut self, depth: u8) -> Result<(), NoMemory> {
        let a = self.root();
        let b = self.root();
        let word = draw_text(self.draws);
        let alloc = self.pieces.alloc;
        let text = match self.draws.below(12) {
            0 => format!(in alloc; "print r{a}.label();")?,
            1 | 2 => format!(in alloc; "print r{a}.call(\"{word}\");")?,
            3 => format!(in alloc; "print r{a}.is(\"{word}\");")?,
            4 => format!(in alloc; "print r{a}.advance();")?,
            5 => format!(in alloc; "print r{a}.trade(r{b});")?,
            6 => format!(in alloc; "print r{a}.label() == r{b}.label();")?,
            7 | 8 if self.world.notes > 0 => format!(in alloc; "print r{a}.fill(\"{word}\");")?,
            9 if self.world.seals => format!(in alloc; "print r{a}.brand(\"{word}\");")?,
            10 if self.world.seals => format!(in alloc; "r{a}.call(r{b}.branded());")?,
            _ => return self.compared(depth, a, b, word),
        };
        self.pieces.line(depth, text)
    }

    /// Calls one root by the text of another, where that isn't this one.
    fn compared(&mut self, depth: u8, root: u8, other: u8, word: &str) -> Result<(), NoMemory> {
        let alloc = self.pieces.alloc;
        let x = self.local();
        let found = format!(in alloc; "var text x{x} = r{root}.label();")?;
        self.pieces.line(depth, found)?;
        let test = format!(in alloc; "if (x{x} != \"{word}\")")?;
        self.pieces.block(depth, test)?;
        let text = format!(in alloc; "print r{other}.call(x{x});")?;
        self.pieces.line(depth.saturating_add(1), text)
    }

    /// Puts a choice, or a repetition, of one statement or two.
    fn nested(&mut self, depth: u8) -> Result<(), NoMemory> {
        let a = self.root();
        let b = self.root();
        let alloc = self.pieces.alloc;
        let deeper = depth.saturating_add(1);
        if self.draws.comes(70) {
            let test = format!(in alloc; "if (r{a}.get() < r{b}.get())")?;
            self.pieces.block(depth, test)?;
            self.leaf(deeper)?;
            if self.draws.comes(50) {
                let other = format!(in alloc; "else")?;
                self.pieces.block(depth, other)?;
                self.leaf(deeper)?;
            }
            return Ok(());
        }
        self.repeated(depth)
    }

    /// Puts a repetition.
    fn repeated(&mut self, depth: u8) -> Result<(), NoMemory> {
        let alloc = self.pieces.alloc;
        let x = self.local();
        let times = self.draws.within(1, 5);
        let deeper = depth.saturating_add(1);
        let first = format!(in alloc; "var int x{x} = 0;")?;
        self.pieces.line(depth, first)?;
        let test = format!(in alloc; "while (x{x} < {times})")?;
        self.pieces.block(depth, test)?;
        let next = format!(in alloc; "x{x} = x{x} + 1;")?;
        self.pieces.line(deeper, next)?;
        self.leaf(deeper)
    }

    /// Puts a statement that has no others in it.
    fn leaf(&mut self, depth: u8) -> Result<(), NoMemory> {
        match self.draws.below(8) {
            0 | 1 if self.world.links => self.linking(depth),
            2 | 3 if self.world.seals => self.sealing(depth),
            4 if self.world.second => self.swapping(depth),
            5 | 6 if self.world.labels => self.labelling(depth),
            _ => self.simple(depth),
        }
    }

    /// Puts a statement.
    pub(crate) fn statement(&mut self, depth: u8) -> Result<(), NoMemory> {
        if self.draws.comes(12) {
            self.nested(depth)
        } else {
            self.leaf(depth)
        }
    }
}
