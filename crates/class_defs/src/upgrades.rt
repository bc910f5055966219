use crate::classes::Methods;
use crate::expressions::{Name, Operator, TypeName};
use crate::literals::Literal;
use thor_value::{NoMemory, Sequence, Shared, TryCopy, both};

/// Names in a row, as those of a path behind `old`.
pub type Names = Sequence<Name>;

/// The expression that gives a new field its value.
#[derive(Debug, Drop)]
pub enum Tf {
    Null {
        line: u32,
    },
    /// A number or a text.
    Literal {
        value: Literal,
        line: u32,
    },
    /// `old.name.name..`, with the line of `old`.
    Path {
        names: Names,
        line: u32,
    },
    Parens {
        inner: Shared<Tf>,
        line: u32,
    },
    Negate {
        operand: Shared<Tf>,
        line: u32,
    },
    Binary {
        operator: Operator,
        left: Shared<Tf>,
        right: Shared<Tf>,
        line: u32,
    },
}

#[derive(Debug, Drop)]
pub struct FieldUpgrade {
    pub type_name: TypeName,
    pub name: Name,
    pub value: Tf,
}

pub type FieldUpgrades = Sequence<FieldUpgrade>;

#[derive(Debug)]
pub struct ClassUpgrade {
    pub name: Name,
    pub fields: FieldUpgrades,
    pub methods: Methods,
}

impl Drop for ClassUpgrade {
    fn drop(self) {
        let ClassUpgrade {
            name,
            fields,
            methods,
        } = self;
        drop(name);
        drop(fields);
        drop(methods);
    }
}

pub type ClassUpgrades = Sequence<ClassUpgrade>;

/// A complete set of class upgrades, installed at one place of the serial history.
#[derive(Debug)]
pub struct Upgrade {
    /// The line of the word `upgrade`.
    pub line: u32,
    pub classes: ClassUpgrades,
}

impl Drop for Upgrade {
    fn drop(self) {
        let Upgrade { line, classes } = self;
        let _ = line;
        drop(classes);
    }
}

impl TryCopy for Tf {
    /// The copy shares its parts.
    fn copy(&self) -> Result<Tf, NoMemory> {
        match self {
            Tf::Null { line } => Ok(Tf::Null { line: *line }),
            Tf::Literal { value, line } => Ok(Tf::Literal {
                value: *value,
                line: *line,
            }),
            Tf::Path { names, line } => Ok(Tf::Path {
                names: names.copy()?,
                line: *line,
            }),
            Tf::Parens { inner, line } => Ok(Tf::Parens {
                inner: inner.share()?,
                line: *line,
            }),
            Tf::Negate { operand, line } => Ok(Tf::Negate {
                operand: operand.share()?,
                line: *line,
            }),
            Tf::Binary {
                operator,
                left,
                right,
                line,
            } => {
                let (left, right) = both(left.share()?, right.share())?;
                Ok(Tf::Binary {
                    operator: *operator,
                    left,
                    right,
                    line: *line,
                })
            }
        }
    }
}

impl TryCopy for FieldUpgrade {
    fn copy(&self) -> Result<FieldUpgrade, NoMemory> {
        Ok(FieldUpgrade {
            type_name: self.type_name.copy()?,
            name: self.name.copy()?,
            value: self.value.copy()?,
        })
    }
}

impl TryCopy for ClassUpgrade {
    fn copy(&self) -> Result<ClassUpgrade, NoMemory> {
        Ok(ClassUpgrade {
            name: self.name.copy()?,
            fields: self.fields.copy()?,
            methods: self.methods.copy()?,
        })
    }
}

impl TryCopy for Upgrade {
    fn copy(&self) -> Result<Upgrade, NoMemory> {
        Ok(Upgrade {
            line: self.line,
            classes: self.classes.copy()?,
        })
    }
}
