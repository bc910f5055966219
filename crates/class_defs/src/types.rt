use thor_value::{NoMemory, TryCopy};

/// The type that an expression has.
#[derive(Clone, Copy, Debug, PartialEq, Eq)]
pub enum ExprType {
    /// A number.
    Int,
    /// A text.
    Text,
    /// The word `null`, which fits every free class.
    Null,
    /// A reference to objects of the class with this number.
    Class(u16),
    /// None can be told, because a rule is broken inside the expression.
    Untold,
}

impl TryCopy for ExprType {
    fn copy(&self) -> Result<ExprType, NoMemory> {
        Ok(*self)
    }
}
