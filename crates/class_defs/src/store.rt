use crate::classes::Classes;
use crate::expressions::{At, Name};
use crate::upgrades::Upgrade;
use thor_value::{NoMemory, Oref, OrefMap, Sequence, Text, TryCopy, Values};

/// An object as a store has it: its class and its fields.
#[derive(Debug, Drop)]
pub struct Object {
    /// The number of its class.
    pub class: u16,
    /// Its fields, in the order of the class.
    pub fields: Values,
}

/// The objects of a store, by name.
pub type PlainObjects = OrefMap<Object>;

/// A named object from which every transaction begins.
#[derive(Debug, Drop)]
pub struct Root {
    pub name: Text,
    /// The number of its class.
    pub class: u16,
    pub oref: Oref,
}

/// Roots, in the order of the setup.
pub type Roots = Sequence<Root>;

/// A store: a finite map from names to objects, how many upgrades made it so, and the roots.
#[derive(Drop)]
pub struct Plain {
    pub objects: PlainObjects,
    pub epoch: u32,
    pub roots: Roots,
}

/// A root as the setup declares it.
#[derive(Debug, Drop)]
pub struct RootDeclaration {
    pub name: Name,
    pub class: Name,
    pub at: Option<At>,
    /// Its object's name: roots take the slots 0, 1, .. of the pages 0, 1, .. of their repository, twelve
    /// to a page, in the order of the text.
    pub oref: Oref,
}

pub type RootDeclarations = Sequence<RootDeclaration>;

/// Numbers of upgrades, or of epochs.
pub type Epochs = Sequence<u32>;

/// The classes of one epoch and the roots.
#[derive(Debug, Drop)]
pub struct Schema {
    pub classes: Classes,
    /// For each class the number of the last upgrade that names it, 0 where none does.
    pub upgraded: Epochs,
    pub roots: RootDeclarations,
}

/// An upgrade, and the schema of the epoch to which it leads.
#[derive(Debug, Drop)]
pub struct UpgradedSchema {
    pub upgrade: Upgrade,
    pub schema: Schema,
}

pub type UpgradedSchemas = Sequence<UpgradedSchema>;

/// The schemas of all epochs.
#[derive(Debug)]
pub struct Schemas {
    /// That of epoch 0.
    pub first: Schema,
    /// Those of the epochs 1, 2, .., each with the upgrade that leads to it.
    pub upgraded: UpgradedSchemas,
}

impl Drop for Schemas {
    fn drop(self) {
        let Schemas { first, upgraded } = self;
        drop(first);
        drop(upgraded);
    }
}

/// What a setup section declares.
#[derive(Debug, Drop)]
pub struct Setup {
    pub schema: Schema,
    pub roots: Roots,
}

impl TryCopy for Object {
    fn copy(&self) -> Result<Object, NoMemory> {
        Ok(Object {
            class: self.class,
            fields: self.fields.copy()?,
        })
    }
}

impl TryCopy for Root {
    fn copy(&self) -> Result<Root, NoMemory> {
        Ok(Root {
            name: self.name.copy()?,
            class: self.class,
            oref: self.oref,
        })
    }
}

impl TryCopy for RootDeclaration {
    fn copy(&self) -> Result<RootDeclaration, NoMemory> {
        Ok(RootDeclaration {
            name: self.name.copy()?,
            class: self.class.copy()?,
            at: self.at,
            oref: self.oref,
        })
    }
}

impl TryCopy for Schema {
    fn copy(&self) -> Result<Schema, NoMemory> {
        Ok(Schema {
            classes: self.classes.copy()?,
            upgraded: self.upgraded.copy()?,
            roots: self.roots.copy()?,
        })
    }
}

impl TryCopy for Setup {
    fn copy(&self) -> Result<Setup, NoMemory> {
        Ok(Setup {
            schema: self.schema.copy()?,
            roots: self.roots.copy()?,
        })
    }
}

impl TryCopy for UpgradedSchema {
    fn copy(&self) -> Result<UpgradedSchema, NoMemory> {
        Ok(UpgradedSchema {
            upgrade: self.upgrade.copy()?,
            schema: self.schema.copy()?,
        })
    }
}

impl TryCopy for Schemas {
    fn copy(&self) -> Result<Schemas, NoMemory> {
        Ok(Schemas {
            first: self.first.copy()?,
            upgraded: self.upgraded.copy()?,
        })
    }
}
