use crate::expressions::{Expr, Name, TypeName};
use thor_value::{NoMemory, Sequence, Shared, TryCopy, both};

/// A statement of a method's body or of an item.
#[derive(Debug, Drop)]
pub enum Stmt {
    /// `var type name = value;`
    Var {
        type_name: TypeName,
        name: Name,
        /// The line of the `=`.
        line: u32,
        value: Expr,
    },
    /// `name = value;`
    Assign {
        name: Name,
        /// The line of the `=`.
        line: u32,
        value: Expr,
    },
    /// `this.field = value;`
    FieldAssign {
        field: Name,
        /// The line of the `=`.
        line: u32,
        value: Expr,
    },
    Return {
        value: Expr,
    },
    If {
        condition: Expr,
        then: Block,
    },
    IfElse {
        condition: Expr,
        then: Block,
        otherwise: Block,
    },
    While {
        condition: Expr,
        body: Block,
    },
    Print {
        value: Expr,
    },
    /// An expression whose value is given up.
    Evaluate {
        value: Expr,
    },
}

/// Statements, in their order.
pub type Stmts = Sequence<Stmt>;

/// Statements between braces; also a transaction's whole text. Who copies it shares it.
pub type Block = Shared<Stmts>;

/// Several blocks.
pub type Blocks = Sequence<Block>;

impl TryCopy for Stmt {
    /// The copy shares its parts.
    fn copy(&self) -> Result<Stmt, NoMemory> {
        match self {
            Stmt::Var {
                type_name,
                name,
                line,
                value,
            } => {
                let (type_name, name) = both(type_name.copy()?, name.copy())?;
                let (declared, value) = both((type_name, name), value.copy())?;
                let (type_name, name) = declared;
                Ok(Stmt::Var {
                    type_name,
                    name,
                    line: *line,
                    value,
                })
            }
            Stmt::Assign { name, line, value } => {
                let (name, value) = both(name.copy()?, value.copy())?;
                Ok(Stmt::Assign {
                    name,
                    line: *line,
                    value,
                })
            }
            Stmt::FieldAssign { field, line, value } => {
                let (field, value) = both(field.copy()?, value.copy())?;
                Ok(Stmt::FieldAssign {
                    field,
                    line: *line,
                    value,
                })
            }
            Stmt::Return { value } => Ok(Stmt::Return {
                value: value.copy()?,
            }),
            Stmt::If { condition, then } => {
                let (condition, then) = both(condition.copy()?, then.share())?;
                Ok(Stmt::If { condition, then })
            }
            Stmt::IfElse {
                condition,
                then,
                otherwise,
            } => {
                let (condition, then) = both(condition.copy()?, then.share())?;
                let (tested, otherwise) = both((condition, then), otherwise.share())?;
                let (condition, then) = tested;
                Ok(Stmt::IfElse {
                    condition,
                    then,
                    otherwise,
                })
            }
            Stmt::While { condition, body } => {
                let (condition, body) = both(condition.copy()?, body.share())?;
                Ok(Stmt::While { condition, body })
            }
            Stmt::Print { value } => Ok(Stmt::Print {
                value: value.copy()?,
            }),
            Stmt::Evaluate { value } => Ok(Stmt::Evaluate {
                value: value.copy()?,
            }),
        }
    }
}
