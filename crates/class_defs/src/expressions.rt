use crate::literals::Literal;
use thor_value::{NoMemory, Sequence, Shared, TryCopy, Word, both};

/// A name as it stands in the text.
#[derive(Debug, Drop)]
pub struct Name {
    pub text: Word,
    /// The line on which it stands, from 1.
    pub line: u32,
}

/// The word that names a type.
#[derive(Debug, Drop)]
pub enum TypeName {
    Int { line: u32 },
    Class { name: Name },
}

/// Where a new object is to lie.
#[derive(Clone, Copy, Debug)]
pub struct At {
    /// The line of the word `at`.
    pub line: u32,
    /// The number of the repository, as written.
    pub number: u64,
    /// The line of the number.
    pub number_line: u32,
}

/// An operator between two expressions.
#[derive(Clone, Copy, Debug, PartialEq, Eq)]
pub enum Operator {
    Add,
    Subtract,
    Multiply,
    Equal,
    Unequal,
    Less,
}

/// An expression. Each node has the line of its own token: the literal, the name, the operator, the
/// opening parenthesis, the name of the called method, the class behind `new`.
#[derive(Debug, Drop)]
pub enum Expr {
    /// A number or a text.
    Literal {
        value: Literal,
        line: u32,
    },
    Null {
        line: u32,
    },
    This {
        line: u32,
    },
    /// `this.name`.
    Field {
        name: Name,
    },
    /// A local, a parameter or a root.
    Variable {
        name: Name,
    },
    New {
        class: Name,
        at: Option<At>,
    },
    Parens {
        inner: Shared<Expr>,
        line: u32,
    },
    Negate {
        operand: Shared<Expr>,
        line: u32,
    },
    Binary {
        operator: Operator,
        left: Shared<Expr>,
        right: Shared<Expr>,
        line: u32,
    },
    Call {
        receiver: Shared<Expr>,
        method: Name,
        arguments: Exprs,
    },
}

/// Expressions, as the arguments of a call. Who copies them shares them.
pub type Exprs = Shared<Sequence<Expr>>;

impl TryCopy for Name {
    fn copy(&self) -> Result<Name, NoMemory> {
        Ok(Name {
            text: self.text,
            line: self.line,
        })
    }
}

impl TryCopy for TypeName {
    fn copy(&self) -> Result<TypeName, NoMemory> {
        match self {
            TypeName::Int { line } => Ok(TypeName::Int { line: *line }),
            TypeName::Class { name } => Ok(TypeName::Class { name: name.copy()? }),
        }
    }
}

impl TryCopy for Expr {
    /// The copy shares its parts.
    fn copy(&self) -> Result<Expr, NoMemory> {
        match self {
            Expr::Literal { value, line } => Ok(Expr::Literal {
                value: *value,
                line: *line,
            }),
            Expr::Null { line } => Ok(Expr::Null { line: *line }),
            Expr::This { line } => Ok(Expr::This { line: *line }),
            Expr::Field { name } => Ok(Expr::Field { name: name.copy()? }),
            Expr::Variable { name } => Ok(Expr::Variable { name: name.copy()? }),
            Expr::New { class, at } => Ok(Expr::New {
                class: class.copy()?,
                at: *at,
            }),
            Expr::Parens { inner, line } => Ok(Expr::Parens {
                inner: inner.share()?,
                line: *line,
            }),
            Expr::Negate { operand, line } => Ok(Expr::Negate {
                operand: operand.share()?,
                line: *line,
            }),
            Expr::Binary {
                operator,
                left,
                right,
                line,
            } => {
                let (left, right) = both(left.share()?, right.share())?;
                Ok(Expr::Binary {
                    operator: *operator,
                    left,
                    right,
                    line: *line,
                })
            }
            Expr::Call {
                receiver,
                method,
                arguments,
            } => {
                let (receiver, method) = both(receiver.share()?, method.copy())?;
                let (called, arguments) = both((receiver, method), arguments.share())?;
                let (receiver, method) = called;
                Ok(Expr::Call {
                    receiver,
                    method,
                    arguments,
                })
            }
        }
    }
}
