use crate::classes::Classes;
use crate::expressions::{At, Name};
use thor_value::{NoMemory, Sequence, TryCopy};

/// `root name = new class();`, as it is written.
#[derive(Debug, Drop)]
pub struct WrittenRoot {
    pub name: Name,
    pub class: Name,
    pub at: Option<At>,
}

pub type WrittenRoots = Sequence<WrittenRoot>;

/// What the section `setup` declares, as it is written.
#[derive(Debug, Drop)]
pub struct Declarations {
    pub classes: Classes,
    pub roots: WrittenRoots,
}

impl TryCopy for WrittenRoot {
    fn copy(&self) -> Result<WrittenRoot, NoMemory> {
        Ok(WrittenRoot {
            name: self.name.copy()?,
            class: self.class.copy()?,
            at: self.at,
        })
    }
}

impl TryCopy for Declarations {
    fn copy(&self) -> Result<Declarations, NoMemory> {
        Ok(Declarations {
            classes: self.classes.copy()?,
            roots: self.roots.copy()?,
        })
    }
}
