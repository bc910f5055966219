use crate::types::ExprType;
use thor_value::{NoMemory, Sequence, TryCopy, Word};

/// A rule of the language, by the word that the program prints for it: T1 to T9 are rules on classes, roots,
/// transactions and events, O1 to O7 rules on upgrades. The lesser of two is the one that comes first here.
#[derive(Clone, Copy, Debug, PartialEq, Eq)]
pub enum Rule {
    /// A name is declared once.
    T1,
    /// A name is declared where it is used.
    T2,
    /// Types agree, and a root isn't assigned.
    T3,
    /// A call has as many arguments as the method has parameters.
    T4,
    /// Roots, parameters, results and locals are of no part class.
    T5,
    /// An owned field is given only a new part or null, and its part isn't handed on.
    T6,
    /// A part doesn't hand itself on.
    T7,
    /// A part is made for an owned field alone; `at` names a repository that is there, in items alone.
    T8,
    /// An event of the schedule is one of those that there are, and names a client and a repository that are there.
    T9,
    /// A class that an upgrade names is there, and is named once.
    O1,
    /// A new int is made of numbers and of paths that end in an int.
    O2,
    /// A new reference to a free object is null or an old field of its class.
    O3,
    /// A path goes on through owned fields alone.
    O4,
    /// An owned field is handed over once.
    O5,
    /// A new owned field is null or an old field of its class.
    O6,
    /// What the upgrade doesn't name breaks no rule with it.
    O7,
}

/// A rule that is broken.
#[derive(Clone, Copy, Debug, PartialEq, Eq)]
pub struct RuleFault {
    /// The line of the name or symbol that breaks it, from 1.
    pub line: u32,
    pub rule: Rule,
}

/// Where an expression stands, as far as the rules on parts tell places apart.
#[derive(Clone, Copy, Debug, PartialEq, Eq)]
pub enum Position {
    /// As the receiver of a call.
    Receiver,
    /// On one side of `==` or `!=`, with the word `null` on the other.
    BesideNull,
    /// As the whole right side of an assignment to an owned field.
    IntoOwnedField,
    /// Anywhere else.
    Value,
}

/// A local or parameter in sight, with its declared type.
#[derive(Debug, Drop)]
pub struct NamedType {
    pub name: Word,
    pub kind: ExprType,
}

/// Locals and parameters in sight, in the order in which they were declared.
pub type NamedTypes = Sequence<NamedType>;

impl TryCopy for NamedType {
    fn copy(&self) -> Result<NamedType, NoMemory> {
        Ok(NamedType {
            name: self.name,
            kind: self.kind,
        })
    }
}
