//! What waits where an evaluation by plain recursion can't go on. Each frame is made in a function of its own, so that a
//! caller that goes on has no room for it.

ghost use Rattle.std.specs.Prelude.{◌≡◌, [], ◌∷◌, map, Err, IfOk};
ghost use Rattle.class_defs.specs.declared.statements.Stmt.{out-Stmt};
ghost use Rattle.paused_eval.specs.Begins.{waiting_frame};
ghost use Rattle.paused_eval.specs.Direct.{IsLeft, IsLater, LaterBehind, Waits};

use crate::moves::waiting_frame;
use crate::unwound::{Frames, Unwound};
use class_defs::{At, Block, Expr, ExprType, Exprs, Flow, Locals, Operator, Receiver, Stmt, Stop};
use lang_small_steps::{Doing, Frame, SharedBlock, SharedExprs, SharedStmt};
use method_eval::{Halt, Program};
use std::alloc::Global;
use thor_value::{Boxed, Fault, NoMemory, Oref, TryCopy, Value, Values, Word, both};

/// Small steps go on from here.
fn later<T>(alloc: Global, doing: Doing) -> Result<T, Unwound>
    ensures { IsLater result doing }
{
    let doing = Boxed::new(alloc, doing)?;
    Err(Unwound::Later {
        doing,
        frames: Frames::new(alloc),
    })
}

/// An expression is evaluated by small steps.
pub fn evaluate_later(alloc: Global, nested: u32, expr: &Expr) -> Result<Value, Unwound>
    ensures { IsLater result (Doing.Evaluate nested expr.now) }
{
    let expr = expr.copy()?;
    later(alloc, Doing::Evaluate { nested, expr })
}

/// A statement is executed by small steps.
pub fn execute_later(alloc: Global, nested: u32, stmt: &Stmt) -> Result<Flow, Unwound>
    ensures { IsLater result (Doing.Execute nested stmt.now) }
{
    let stmt = SharedStmt::of(alloc, stmt)?;
    later(alloc, Doing::Execute { nested, stmt })
}

/// An object is made by a small step.
pub fn create_later(alloc: Global, class: &Word, at: Option<At>) -> Result<Value, Unwound>
    ensures { IsLater result (Doing.Create class.now at) }
{
    later(alloc, Doing::Create { class: *class, at })
}

pub fn faulted<T>(fault: Fault) -> Result<T, Unwound>
    ensures { result ≡ Err (Unwound.Faulted fault) }
{
    Err(Unwound::Faulted { fault })
}

/// One frame more waits behind it.
fn behind(unwound: Unwound, frame: Frame) -> Unwound
    ensures { Waits frame unwound result }
{
    match unwound {
        Unwound::Later { doing, mut frames } => match frames.push(frame) {
            Ok(()) => Unwound::Later { doing, frames },
            Err(NoMemory) => Unwound::NoMemory,
        },
        Unwound::Faulted { fault } => Unwound::Faulted { fault },
        Unwound::NoMemory => Unwound::NoMemory,
    }
}

/// The operand of a negation is left.
pub fn behind_negation(unwound: Unwound) -> Unwound
    ensures { Waits Frame.Negate unwound result }
{
    behind(unwound, Frame::Negate)
}

/// The right operand is left, behind the value of the left one.
pub fn behind_left(unwound: Unwound, operator: Operator, left: Value) -> Unwound
    ensures { Waits (Frame.Combine operator left) unwound result }
{
    behind(unwound, Frame::Combine { operator, left })
}

/// The left operand is left.
pub fn behind_right(unwound: Unwound, nested: u32, operator: Operator, right: &Expr) -> Unwound
    ensures { Waits (Frame.Right nested operator right.now) unwound result }
{
    match right.copy() {
        Ok(right) => behind(
            unwound,
            Frame::Right {
                nested,
                operator,
                right,
            },
        ),
        Err(NoMemory) => Unwound::NoMemory,
    }
}

/// The frame in which a call waits for its receiver.
fn callee_frame(
    nested: u32,
    kind: ExprType,
    method: &Word,
    arguments: &Exprs,
) -> Result<Frame, NoMemory>
    ensures { IfOk result (λ frame. frame ≡ Frame.Callee nested kind method.now arguments.now) }
{
    Ok(Frame::Callee {
        nested,
        kind,
        method: *method,
        arguments: SharedExprs::of(arguments)?,
    })
}

/// The receiver of a call is left.
pub fn behind_receiver(
    unwound: Unwound,
    nested: u32,
    kind: ExprType,
    method: &Word,
    arguments: &Exprs,
) -> Unwound
    ensures { Waits (Frame.Callee nested kind method.now arguments.now) unwound result }
{
    match callee_frame(nested, kind, method, arguments) {
        Ok(frame) => behind(unwound, frame),
        Err(NoMemory) => Unwound::NoMemory,
    }
}

/// An argument of a call is left, between those that are done and those that come.
pub fn behind_argument(
    unwound: Unwound,
    nested: u32,
    kind: ExprType,
    target: Value,
    method: &Word,
    done: Values,
    rest: SharedExprs,
) -> Unwound
    ensures { Waits (Frame.Arguments nested kind target method.now done rest) unwound result }
{
    behind(
        unwound,
        Frame::Arguments {
            nested,
            kind,
            target,
            method: *method,
            done,
            rest,
        },
    )
}

/// The statements of a body are left.
pub fn behind_body(
    unwound: Unwound,
    depth: u32,
    this: Option<Receiver>,
    locals: Locals,
    kind: ExprType,
) -> Unwound
    ensures { Waits (Frame.BodyEnd depth this locals kind) unwound result }
{
    behind(
        unwound,
        Frame::BodyEnd {
            depth,
            this,
            locals,
            result: kind,
        },
    )
}

/// The statements of a block are left, before which there were so many locals.
pub fn behind_block(unwound: Unwound, count: usize) -> Unwound
    ensures { Waits (Frame.BlockEnd count) unwound result }
{
    behind(unwound, Frame::BlockEnd { count })
}

/// A statement is left, and those that come.
pub fn behind_statement(unwound: Unwound, nested: u32, rest: SharedBlock) -> Unwound
    ensures { Waits (Frame.Rest nested rest) unwound result }
{
    behind(unwound, Frame::Rest { nested, rest })
}

/// The first part of a statement is left.
pub fn behind_first_part(
    program: &Program<'_>,
    unwound: Unwound,
    nested: u32,
    node: &Stmt,
) -> Unwound
    ensures { Waits (waiting_frame program.now.schema.now.classes nested (out-Stmt node.now)) unwound result }
{
    match waiting_frame(program, nested, node) {
        Ok(frame) => behind(unwound, frame),
        Err(NoMemory) => Unwound::NoMemory,
    }
}

/// A call is entered by a small step.
fn call_later(
    alloc: Global,
    nested: u32,
    class: u16,
    oref: Oref,
    method: &Word,
    arguments: Values,
) -> Result<Boxed<Doing>, NoMemory>
    ensures { IfOk result (λ doing. doing ≡ Doing.Enter nested class oref method.now arguments) }
{
    Boxed::new(
        alloc,
        Doing::Enter {
            nested,
            class,
            oref,
            method: *method,
            arguments,
        },
    )
}

/// What is left of a call whose object isn't at hand, or that is a fault.
pub fn not_entered(
    alloc: Global,
    halt: Halt,
    inner: u32,
    class: u16,
    oref: Oref,
    method: &Word,
    arguments: Values,
) -> Unwound
    ensures { IsLeft (Doing.Enter inner class oref method.now arguments) halt result }
{
    match halt {
        Halt::Stopped(Stop::Fault(fault)) => Unwound::Faulted { fault },
        Halt::Stopped(_) => match call_later(alloc, inner, class, oref, method, arguments) {
            Ok(doing) => Unwound::Later {
                doing,
                frames: Frames::new(alloc),
            },
            Err(NoMemory) => Unwound::NoMemory,
        },
        Halt::NoMemory => Unwound::NoMemory,
    }
}

/// The frame in which a loop waits for the end of its body.
fn again_frame(inner: u32, turns: u32, condition: &Expr, body: &Block) -> Result<Frame, NoMemory>
    ensures { IfOk result (λ frame. frame ≡ Frame.Again inner turns condition.now body.now) }
{
    let (condition, body) = both(condition.copy()?, SharedBlock::of(body))?;
    Ok(Frame::Again {
        nested: inner,
        turns,
        condition,
        body,
    })
}

/// The frame in which a loop waits for its condition.
fn test_frame(inner: u32, turns: u32, condition: &Expr, body: &Block) -> Result<Frame, NoMemory>
    ensures { IfOk result (λ frame. frame ≡ Frame.Test inner turns condition.now body.now) }
{
    let (condition, body) = both(condition.copy()?, SharedBlock::of(body))?;
    Ok(Frame::Test {
        nested: inner,
        turns,
        condition,
        body,
    })
}

/// Small steps go on from here, with one frame behind.
fn later_behind<T>(alloc: Global, doing: Doing, frame: Frame) -> Result<T, Unwound>
    ensures { LaterBehind result doing frame }
{
    let doing = Boxed::new(alloc, doing)?;
    let mut frames = Frames::new(alloc);
    frames.push(frame)?;
    Err(Unwound::Later { doing, frames })
}

/// The body of a loop is left.
pub fn behind_turn(
    unwound: Unwound,
    nested: u32,
    turns: u32,
    condition: &Expr,
    body: &Block,
) -> Unwound
    ensures { Waits (Frame.Again nested turns condition.now body.now) unwound result }
{
    match again_frame(nested, turns, condition, body) {
        Ok(frame) => behind(unwound, frame),
        Err(NoMemory) => Unwound::NoMemory,
    }
}

/// The condition of a loop is left.
pub fn behind_test(
    unwound: Unwound,
    nested: u32,
    turns: u32,
    condition: &Expr,
    body: &Block,
) -> Unwound
    ensures { Waits (Frame.Test nested turns condition.now body.now) unwound result }
{
    match test_frame(nested, turns, condition, body) {
        Ok(frame) => behind(unwound, frame),
        Err(NoMemory) => Unwound::NoMemory,
    }
}

/// The next test of a loop is taken by a small step.
pub fn test_later(
    alloc: Global,
    nested: u32,
    turns: u32,
    condition: &Expr,
    body: &Block,
) -> Result<Value, Unwound>
    ensures { LaterBehind result (Doing.Give Flow.Next) (Frame.Again nested turns condition.now body.now) }
{
    let frame = again_frame(nested, turns, condition, body)?;
    later_behind(alloc, Doing::Give { flow: Flow::Next }, frame)
}
