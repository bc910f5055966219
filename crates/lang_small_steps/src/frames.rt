use crate::syntax::{SharedBlock, SharedExprs, SharedStmt};
use class_defs::{At, Expr, ExprType, Flow, Locals, Operator, Receiver};
use thor_value::{Oref, Value, Values, Word};

/// What is done next.
#[derive(Drop)]
pub enum Doing {
    /// An expression is evaluated, where nodes at most `nested` deep may stand inside one another.
    Evaluate {
        nested: u32,
        expr: Expr,
    },
    /// A statement is executed, where nodes at most `nested` deep may stand inside one another.
    Execute {
        nested: u32,
        stmt: SharedStmt,
    },
    /// A new object is made; a name may be needed.
    Create {
        class: Word,
        at: Option<At>,
    },
    /// A call whose parts are evaluated begins; its object may be needed.
    Enter {
        nested: u32,
        /// The number of the class of the receiver's type.
        class: u16,
        oref: Oref,
        method: Word,
        arguments: Values,
    },
    /// The frame on the top is given what it waits for. A value counts as returned.
    Give {
        flow: Flow,
    },
}

/// What an open expression or statement does behind the part that it waits for. `nested` is how deep nodes may
/// stand inside one another in its further parts.
#[derive(Drop)]
pub enum Frame {
    Negate,
    /// The right operand follows.
    Right {
        nested: u32,
        operator: Operator,
        right: Expr,
    },
    /// The right operand is given.
    Combine {
        operator: Operator,
        left: Value,
    },
    /// The receiver of a call is given.
    Callee {
        nested: u32,
        /// The receiver's type.
        kind: ExprType,
        method: Word,
        arguments: SharedExprs,
    },
    /// An argument is given; these stand behind it.
    Arguments {
        nested: u32,
        kind: ExprType,
        target: Value,
        method: Word,
        done: Values,
        rest: SharedExprs,
    },
    /// A body ends, and the caller's state is given back.
    BodyEnd {
        depth: u32,
        this: Option<Receiver>,
        locals: Locals,
        /// The declared type of the result.
        result: ExprType,
    },
    Declare {
        kind: ExprType,
        name: Word,
    },
    Assign {
        name: Word,
    },
    FieldAssign {
        field: Word,
    },
    Return,
    /// The condition of an `if` without `else` is given.
    Branch {
        nested: u32,
        then: SharedBlock,
    },
    /// The condition of an `if` with `else` is given.
    Branches {
        nested: u32,
        then: SharedBlock,
        otherwise: SharedBlock,
    },
    Print,
    /// A value is given up.
    Discard,
    /// The statements of a block that are left.
    Rest {
        nested: u32,
        rest: SharedBlock,
    },
    /// A block ends, and its locals with it: so many are kept.
    BlockEnd {
        count: usize,
    },
    /// The condition of a loop is given; behind this test it may test so many times.
    Test {
        nested: u32,
        turns: u32,
        condition: Expr,
        body: SharedBlock,
    },
    /// The body of a loop has ended; it may test so many times again.
    Again {
        nested: u32,
        turns: u32,
        condition: Expr,
        body: SharedBlock,
    },
}
