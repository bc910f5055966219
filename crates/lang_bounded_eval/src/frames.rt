//! What is left of an evaluation that goes by small steps: what is done next, and what waits behind it. The text is borrowed.

use class_defs::{At, Block, Expr, ExprType, Exprs, Flow, Locals, Operator, Receiver, Stmt};
use thor_value::{Oref, Value, Values, Word};

/// What is done next.
#[derive(Drop)]
pub enum Next<'a> {
    /// An expression is evaluated, where nodes at most `nested` deep may stand inside one another.
    Evaluate {
        nested: u32,
        expr: &'a Expr,
    },
    /// A statement is executed, where nodes at most `nested` deep may stand inside one another.
    Execute {
        nested: u32,
        stmt: &'a Stmt,
    },
    /// A new object is made.
    Create {
        class: &'a Word,
        at: Option<At>,
    },
    /// A call whose parts are evaluated begins.
    Enter {
        nested: u32,
        /// The number of the class of the receiver's type.
        class: u16,
        oref: Oref,
        method: &'a Word,
        arguments: Values,
    },
    /// What waits on the top is given this. A value counts as returned.
    Give {
        flow: Flow,
    },
}

/// What an open expression or statement does behind the part that it waits for. `nested` is how deep nodes may stand inside
/// one another in its further parts.
#[derive(Drop)]
pub enum Waiting<'a> {
    Negate,
    /// The right operand follows.
    Right {
        nested: u32,
        operator: Operator,
        right: &'a Expr,
    },
    /// The right operand is given.
    Combine {
        operator: Operator,
        left: Value,
    },
    /// The receiver of a call is given.
    Callee {
        nested: u32,
        /// The receiver's type.
        kind: ExprType,
        method: &'a Word,
        arguments: &'a Exprs,
    },
    /// An argument is given; these stand behind it.
    Arguments {
        nested: u32,
        kind: ExprType,
        target: Value,
        method: &'a Word,
        done: Values,
        rest: &'a [Expr],
    },
    /// A body ends, and the caller's state is given back.
    BodyEnd {
        depth: u32,
        this: Option<Receiver>,
        locals: Locals,
        /// The declared type of the result.
        result: ExprType,
    },
    Declare {
        kind: ExprType,
        name: &'a Word,
    },
    Assign {
        name: &'a Word,
    },
    FieldAssign {
        field: &'a Word,
    },
    Return,
    /// The condition of an `if` without `else` is given.
    Branch {
        nested: u32,
        then: &'a Block,
    },
    /// The condition of an `if` with `else` is given.
    Branches {
        nested: u32,
        then: &'a Block,
        otherwise: &'a Block,
    },
    Print,
    /// A value is given up.
    Discard,
    /// The statements of a block that are left.
    Rest {
        nested: u32,
        rest: &'a [Stmt],
    },
    /// A block ends, and its locals with it: so many are kept.
    BlockEnd {
        count: usize,
    },
    /// The condition of a loop is given; behind this test it may test so many times.
    Test {
        nested: u32,
        turns: u32,
        condition: &'a Expr,
        body: &'a Block,
    },
    /// The body of a loop has ended; it may test so many times again.
    Again {
        nested: u32,
        turns: u32,
        condition: &'a Expr,
        body: &'a Block,
    },
}

/// What a small step came to.
#[derive(Drop)]
pub enum Moved<'a> {
    /// This is done next.
    To { next: Next<'a> },
    /// Nothing is left to do.
    Ended { flow: Flow },
}
