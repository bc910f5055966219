//! What the parser keeps beside the trees.

use class_defs::Expr;
use thor_value::Sequence;

/// An expression, and its height as a tree.
#[derive(Debug, Drop)]
pub struct Deep {
    pub expr: Expr,
    /// A leaf has 1.
    pub depth: u32,
}

/// Expressions, and the height of the highest.
#[derive(Debug, Drop)]
pub struct Arguments {
    pub exprs: Sequence<Expr>,
    pub depth: u32,
}

/// How tightly an expression holds together.
#[derive(Clone, Copy, Debug, PartialEq, Eq)]
pub enum Level {
    /// One comparison, or a sum.
    Comparison,
    /// Terms with `+` and `-` between them.
    Sum,
    /// Unary expressions with `*` between them.
    Term,
    /// A unary minus, or an expression without operators.
    Unary,
}

/// How much may still stand inside.
#[derive(Clone, Copy, Debug, PartialEq, Eq)]
pub struct Room {
    /// How many brackets may open inside one another.
    pub brackets: u32,
    /// How high the expression may be as a tree.
    pub depth: u32,
}

/// How an expression without operators begins.
#[derive(Clone, Copy, Debug, PartialEq, Eq)]
pub enum Start {
    Number,
    Quoted,
    Name,
    Null,
    This,
    New,
    Parens,
    /// No expression begins so.
    Other,
}

/// How a statement begins.
#[derive(Clone, Copy, Debug, PartialEq, Eq)]
pub enum StmtStart {
    Var,
    Return,
    If,
    While,
    Print,
    /// With an expression.
    Other,
}
