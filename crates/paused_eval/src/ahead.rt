//! What is evaluated at once, between small steps.

ghost use Rattle.std.specs.Prelude.{◌≡◌, ◌∷◌, ◌++◌, ℕ, List, OnOk};
ghost use Rattle.class_defs.specs.declared.statements.Stmt.{Stmt};
ghost use Rattle.method_eval.specs.Names.{Names};
ghost use Rattle.lang_small_steps.specs.Methods.{class_methods};
ghost use Rattle.paused_eval.specs.Copies.{Keeps, Tied, at_hand, whole_state};
ghost use Rattle.paused_eval.specs.Counted.{surplus};
ghost use Rattle.paused_eval.specs.Direct as spec;
ghost use Rattle.paused_eval.specs.Direct.{Resumes};
ghost use Rattle.paused_eval.specs.Does.{Holds};
ghost use Rattle.paused_eval.specs.Standing.{Runs, Went};
ghost use Rattle.thor_value.specs.declared.names.Oref.{Oref};

use crate::bodies::Bodies;
use crate::direct::{call, combine, value_of};
use crate::direct_statements::execute;
use crate::moves::given;
use crate::resting::rest_unless_returned;
use crate::small::resume;
use crate::unwound::{Frames, Unwound};
use class_defs::{Expr, Flow, Machine, Operator, Stop};
use client_cache::Cache;
use lang_small_steps::{Doing, Frame, RECURSION_LIMIT, SharedBlock, SharedStmt, Stack};
use method_eval::{Halt, Program};
use std::sync::ledger::Ledger;
use thor_value::{NoMemory, Oref, Value, Values, Word};

/// The frames that were left come onto the stack, the innermost on the top.
fn put_back(stack: &mut Stack<Frame>, left: Frames) -> Result<(), NoMemory>
    ensures { OnOk result (stack.new ≡ left ++ stack.old) }
{
    let mut frames = left;
    while let Some(frame) = frames.pop() {
        stack.push(frame)?;
    }
    Ok(())
}

/// A value counts as returned.
fn returned(came: Result<Value, Unwound>) -> Result<Flow, Unwound>
    ensures { result ≡ spec.returned came }
{
    match came {
        Ok(value) => Ok(Flow::Returned(value)),
        Err(unwound) => Err(unwound),
    }
}

/// What is done next behind an evaluation by plain recursion.
fn resumed(stack: &mut Stack<Frame>, came: Result<Flow, Unwound>) -> Result<Doing, Halt>
    ensures { Resumes came stack.old result stack.new }
{
    match came {
        Ok(flow) => Ok(Doing::Give { flow }),
        Err(Unwound::Later { doing, frames }) => {
            put_back(stack, frames)?;
            Ok(doing.into_inner())
        }
        Err(Unwound::Faulted { fault }) => Err(Halt::Stopped(Stop::Fault(fault))),
        Err(Unwound::NoMemory) => Err(Halt::NoMemory),
    }
}

/// An expression is evaluated by plain recursion as far as that goes.
fn evaluate_ahead<L: Ledger>(
    program: &Program<'_>,
    epoch: u32,
    cache: &mut Cache,
    machine: &mut Machine,
    bodies: &mut Bodies<'_, L>,
    stack: &mut Stack<Frame>,
    nested: u32,
    expr: Expr,
) -> Result<Doing, Halt>
    requires tied { Tied cache.old }
    requires known { bodies.old.methods.now ≡ class_methods program.now.schema.now.classes }
    ensures goes { (tx : List Stmt) → (given : List Oref) → (count : ℕ) → (n : Names)
        → Runs program.now.schema.now (at_hand program.now.schema.now cache.old) tx given count (record { doing = Doing.Evaluate nested expr; stack = stack.old }) (whole_state machine.old cache.old n)
        → Went program.now.schema.now (at_hand program.now.schema.now cache.old) tx given count result stack.new (whole_state machine.new cache.new n) }
    ensures tied { Holds result (Tied cache.new) }
    ensures kept { Holds result (Keeps cache.old cache.new) }
    ensures known { bodies.new.methods.now ≡ class_methods program.now.schema.now.classes }
    ensures work { Holds result (surplus bodies.new.work machine.new.steps ≡ surplus bodies.old.work machine.old.steps) }
{
    let came = value_of(
        program,
        epoch,
        cache,
        machine,
        bodies,
        RECURSION_LIMIT,
        nested,
        &expr,
    );
    drop(expr);
    resumed(stack, returned(came))
}

/// A statement is executed by plain recursion as far as that goes.
fn execute_ahead<L: Ledger>(
    program: &Program<'_>,
    epoch: u32,
    cache: &mut Cache,
    machine: &mut Machine,
    bodies: &mut Bodies<'_, L>,
    stack: &mut Stack<Frame>,
    nested: u32,
    stmt: SharedStmt,
) -> Result<Doing, Halt>
    requires tied { Tied cache.old }
    requires known { bodies.old.methods.now ≡ class_methods program.now.schema.now.classes }
    ensures goes { (tx : List Stmt) → (given : List Oref) → (count : ℕ) → (n : Names)
        → Runs program.now.schema.now (at_hand program.now.schema.now cache.old) tx given count (record { doing = Doing.Execute nested stmt; stack = stack.old }) (whole_state machine.old cache.old n)
        → Went program.now.schema.now (at_hand program.now.schema.now cache.old) tx given count result stack.new (whole_state machine.new cache.new n) }
    ensures tied { Holds result (Tied cache.new) }
    ensures kept { Holds result (Keeps cache.old cache.new) }
    ensures known { bodies.new.methods.now ≡ class_methods program.now.schema.now.classes }
    ensures work { Holds result (surplus bodies.new.work machine.new.steps ≡ surplus bodies.old.work machine.old.steps) }
{
    let came = execute(
        program,
        epoch,
        cache,
        machine,
        bodies,
        RECURSION_LIMIT,
        nested,
        stmt.get(),
    );
    drop(stmt);
    resumed(stack, came)
}

/// A call whose parts are evaluated goes by plain recursion as far as that goes.
fn enter_ahead<L: Ledger>(
    program: &Program<'_>,
    epoch: u32,
    cache: &mut Cache,
    machine: &mut Machine,
    bodies: &mut Bodies<'_, L>,
    stack: &mut Stack<Frame>,
    nested: u32,
    class: u16,
    oref: Oref,
    method: &Word,
    arguments: Values,
) -> Result<Doing, Halt>
    requires tied { Tied cache.old }
    requires known { bodies.old.methods.now ≡ class_methods program.now.schema.now.classes }
    ensures goes { (tx : List Stmt) → (given : List Oref) → (count : ℕ) → (n : Names)
        → Runs program.now.schema.now (at_hand program.now.schema.now cache.old) tx given count (record { doing = Doing.Enter nested class oref method.now arguments; stack = stack.old }) (whole_state machine.old cache.old n)
        → Went program.now.schema.now (at_hand program.now.schema.now cache.old) tx given count result stack.new (whole_state machine.new cache.new n) }
    ensures tied { Holds result (Tied cache.new) }
    ensures kept { Holds result (Keeps cache.old cache.new) }
    ensures known { bodies.new.methods.now ≡ class_methods program.now.schema.now.classes }
    ensures work { Holds result (surplus bodies.new.work machine.new.steps ≡ surplus bodies.old.work machine.old.steps) }
{
    let came = call(
        program,
        epoch,
        cache,
        machine,
        bodies,
        RECURSION_LIMIT,
        nested,
        class,
        oref,
        method,
        arguments,
    );
    resumed(stack, returned(came))
}

/// The statements that are left of a block are executed by plain recursion as far as that goes, where nothing was returned
/// before them.
fn rest_ahead<L: Ledger>(
    program: &Program<'_>,
    epoch: u32,
    cache: &mut Cache,
    machine: &mut Machine,
    bodies: &mut Bodies<'_, L>,
    stack: &mut Stack<Frame>,
    nested: u32,
    rest: SharedBlock,
    flow: Flow,
) -> Result<Doing, Halt>
    requires tied { Tied cache.old }
    requires known { bodies.old.methods.now ≡ class_methods program.now.schema.now.classes }
    ensures goes { (tx : List Stmt) → (given : List Oref) → (count : ℕ) → (n : Names)
        → Runs program.now.schema.now (at_hand program.now.schema.now cache.old) tx given count (record { doing = Doing.Give flow; stack = Frame.Rest nested rest ∷ stack.old }) (whole_state machine.old cache.old n)
        → Went program.now.schema.now (at_hand program.now.schema.now cache.old) tx given count result stack.new (whole_state machine.new cache.new n) }
    ensures tied { Holds result (Tied cache.new) }
    ensures kept { Holds result (Keeps cache.old cache.new) }
    ensures known { bodies.new.methods.now ≡ class_methods program.now.schema.now.classes }
    ensures work { Holds result (surplus bodies.new.work machine.new.steps ≡ surplus bodies.old.work machine.old.steps) }
{
    let came = rest_unless_returned(program, epoch, cache, machine, bodies, nested, rest, flow);
    resumed(stack, came)
}

/// A right operand is evaluated by plain recursion as far as that goes, behind what was given of the left one.
fn right_ahead<L: Ledger>(
    program: &Program<'_>,
    epoch: u32,
    cache: &mut Cache,
    machine: &mut Machine,
    bodies: &mut Bodies<'_, L>,
    stack: &mut Stack<Frame>,
    nested: u32,
    operator: Operator,
    right: Expr,
    flow: Flow,
) -> Result<Doing, Halt>
    requires tied { Tied cache.old }
    requires known { bodies.old.methods.now ≡ class_methods program.now.schema.now.classes }
    ensures goes { (tx : List Stmt) → (given : List Oref) → (count : ℕ) → (n : Names)
        → Runs program.now.schema.now (at_hand program.now.schema.now cache.old) tx given count (record { doing = Doing.Give flow; stack = Frame.Right nested operator right ∷ stack.old }) (whole_state machine.old cache.old n)
        → Went program.now.schema.now (at_hand program.now.schema.now cache.old) tx given count result stack.new (whole_state machine.new cache.new n) }
    ensures tied { Holds result (Tied cache.new) }
    ensures kept { Holds result (Keeps cache.old cache.new) }
    ensures known { bodies.new.methods.now ≡ class_methods program.now.schema.now.classes }
    ensures work { Holds result (surplus bodies.new.work machine.new.steps ≡ surplus bodies.old.work machine.old.steps) }
{
    let came = combine(
        program,
        epoch,
        cache,
        machine,
        bodies,
        RECURSION_LIMIT,
        nested,
        operator,
        given(flow),
        &right,
    );
    drop(right);
    resumed(stack, returned(came))
}

/// An expression, a statement or a call is evaluated by plain recursion as far as that goes.
fn part_ahead<L: Ledger>(
    program: &Program<'_>,
    epoch: u32,
    cache: &mut Cache,
    machine: &mut Machine,
    bodies: &mut Bodies<'_, L>,
    stack: &mut Stack<Frame>,
    doing: Doing,
) -> Result<Doing, Halt>
    requires tied { Tied cache.old }
    requires known { bodies.old.methods.now ≡ class_methods program.now.schema.now.classes }
    ensures goes { (tx : List Stmt) → (given : List Oref) → (count : ℕ) → (n : Names)
        → Runs program.now.schema.now (at_hand program.now.schema.now cache.old) tx given count (record { doing = doing; stack = stack.old }) (whole_state machine.old cache.old n)
        → Went program.now.schema.now (at_hand program.now.schema.now cache.old) tx given count result stack.new (whole_state machine.new cache.new n) }
    ensures tied { Holds result (Tied cache.new) }
    ensures kept { Holds result (Keeps cache.old cache.new) }
    ensures known { bodies.new.methods.now ≡ class_methods program.now.schema.now.classes }
    ensures work { Holds result (surplus bodies.new.work machine.new.steps ≡ surplus bodies.old.work machine.old.steps) }
{
    match doing {
        Doing::Evaluate { nested, expr } => {
            evaluate_ahead(program, epoch, cache, machine, bodies, stack, nested, expr)
        }
        Doing::Execute { nested, stmt } => {
            execute_ahead(program, epoch, cache, machine, bodies, stack, nested, stmt)
        }
        Doing::Enter {
            nested,
            class,
            oref,
            method,
            arguments,
        } => enter_ahead(
            program, epoch, cache, machine, bodies, stack, nested, class, oref, &method, arguments,
        ),
        Doing::Give { flow } => Ok(Doing::Give { flow }),
        Doing::Create { class, at } => Ok(Doing::Create { class, at }),
    }
}

/// The frame that was on the top is given what it waits for, and what it evaluates then goes by plain recursion as far as that
/// goes.
fn frame_ahead<L: Ledger>(
    program: &Program<'_>,
    epoch: u32,
    cache: &mut Cache,
    machine: &mut Machine,
    bodies: &mut Bodies<'_, L>,
    stack: &mut Stack<Frame>,
    frame: Frame,
    flow: Flow,
) -> Result<Doing, Halt>
    requires tied { Tied cache.old }
    requires known { bodies.old.methods.now ≡ class_methods program.now.schema.now.classes }
    ensures goes { (tx : List Stmt) → (given : List Oref) → (count : ℕ) → (n : Names)
        → Runs program.now.schema.now (at_hand program.now.schema.now cache.old) tx given count (record { doing = Doing.Give flow; stack = frame ∷ stack.old }) (whole_state machine.old cache.old n)
        → Went program.now.schema.now (at_hand program.now.schema.now cache.old) tx given count result stack.new (whole_state machine.new cache.new n) }
    ensures tied { Holds result (Tied cache.new) }
    ensures kept { Holds result (Keeps cache.old cache.new) }
    ensures known { bodies.new.methods.now ≡ class_methods program.now.schema.now.classes }
    ensures work { Holds result (surplus bodies.new.work machine.new.steps ≡ surplus bodies.old.work machine.old.steps) }
{
    let work = &mut bodies.work;
    match resume(program, epoch, cache, machine, work, stack, frame, flow) {
        Ok(doing) => part_ahead(program, epoch, cache, machine, bodies, stack, doing),
        Err(halt) => Err(halt),
    }
}

/// The frame on the top, where there is one, is given what it waits for.
fn give_once<L: Ledger>(
    program: &Program<'_>,
    epoch: u32,
    cache: &mut Cache,
    machine: &mut Machine,
    bodies: &mut Bodies<'_, L>,
    stack: &mut Stack<Frame>,
    flow: Flow,
) -> Result<Doing, Halt>
    requires tied { Tied cache.old }
    requires known { bodies.old.methods.now ≡ class_methods program.now.schema.now.classes }
    ensures goes { (tx : List Stmt) → (given : List Oref) → (count : ℕ) → (n : Names)
        → Runs program.now.schema.now (at_hand program.now.schema.now cache.old) tx given count (record { doing = Doing.Give flow; stack = stack.old }) (whole_state machine.old cache.old n)
        → Went program.now.schema.now (at_hand program.now.schema.now cache.old) tx given count result stack.new (whole_state machine.new cache.new n) }
    ensures tied { Holds result (Tied cache.new) }
    ensures kept { Holds result (Keeps cache.old cache.new) }
    ensures known { bodies.new.methods.now ≡ class_methods program.now.schema.now.classes }
    ensures work { Holds result (surplus bodies.new.work machine.new.steps ≡ surplus bodies.old.work machine.old.steps) }
{
    match stack.pop() {
        None => Ok(Doing::Give { flow }),
        Some(Frame::Rest { nested, rest }) => rest_ahead(
            program, epoch, cache, machine, bodies, stack, nested, rest, flow,
        ),
        Some(
            Frame::Right {
                nested,
                operator,
                right,
            },
        ) => right_ahead(
            program, epoch, cache, machine, bodies, stack, nested, operator, right, flow,
        ),
        Some(frame) => frame_ahead(program, epoch, cache, machine, bodies, stack, frame, flow),
    }
}

/// The frames from the top on are given what they wait for, as far as plain recursion goes in what they evaluate then.
fn give_ahead<L: Ledger>(
    program: &Program<'_>,
    epoch: u32,
    cache: &mut Cache,
    machine: &mut Machine,
    bodies: &mut Bodies<'_, L>,
    stack: &mut Stack<Frame>,
    flow: Flow,
) -> Result<Doing, Halt>
    requires tied { Tied cache.old }
    requires known { bodies.old.methods.now ≡ class_methods program.now.schema.now.classes }
    ensures goes { (tx : List Stmt) → (given : List Oref) → (count : ℕ) → (n : Names)
        → Runs program.now.schema.now (at_hand program.now.schema.now cache.old) tx given count (record { doing = Doing.Give flow; stack = stack.old }) (whole_state machine.old cache.old n)
        → Went program.now.schema.now (at_hand program.now.schema.now cache.old) tx given count result stack.new (whole_state machine.new cache.new n) }
    ensures tied { Holds result (Tied cache.new) }
    ensures kept { Holds result (Keeps cache.old cache.new) }
    ensures known { bodies.new.methods.now ≡ class_methods program.now.schema.now.classes }
    ensures work { Holds result (surplus bodies.new.work machine.new.steps ≡ surplus bodies.old.work machine.old.steps) }
{
    let mut next = flow;
    for _ in 0..usize::MAX {
        if stack.is_empty() {
            return Ok(Doing::Give { flow: next });
        }
        match give_once(program, epoch, cache, machine, bodies, stack, next) {
            Ok(Doing::Give { flow: then }) => next = then,
            Ok(doing) => return Ok(doing),
            Err(halt) => return Err(halt),
        }
    }
    Err(Halt::NoMemory)
}

/// What is done next behind all that plain recursion can do: an object or a name may be needed then, a node may be one too
/// many, or there is nothing more. It goes no deeper than `RECURSION_LIMIT` nodes, so the stack of the thread that it takes has
/// a bound, however deep a script is.
pub fn ahead<L: Ledger>(
    program: &Program<'_>,
    epoch: u32,
    cache: &mut Cache,
    machine: &mut Machine,
    bodies: &mut Bodies<'_, L>,
    stack: &mut Stack<Frame>,
    doing: Doing,
) -> Result<Doing, Halt>
    requires tied { Tied cache.old }
    requires known { bodies.old.methods.now ≡ class_methods program.now.schema.now.classes }
    ensures goes { (tx : List Stmt) → (given : List Oref) → (count : ℕ) → (n : Names)
        → Runs program.now.schema.now (at_hand program.now.schema.now cache.old) tx given count (record { doing = doing; stack = stack.old }) (whole_state machine.old cache.old n)
        → Went program.now.schema.now (at_hand program.now.schema.now cache.old) tx given count result stack.new (whole_state machine.new cache.new n) }
    ensures tied { Holds result (Tied cache.new) }
    ensures kept { Holds result (Keeps cache.old cache.new) }
    ensures known { bodies.new.methods.now ≡ class_methods program.now.schema.now.classes }
    ensures work { Holds result (surplus bodies.new.work machine.new.steps ≡ surplus bodies.old.work machine.old.steps) }
{
    match part_ahead(program, epoch, cache, machine, bodies, stack, doing) {
        Ok(Doing::Give { flow }) => {
            give_ahead(program, epoch, cache, machine, bodies, stack, flow)
        }
        Ok(doing) => Ok(doing),
        Err(halt) => Err(halt),
    }
}
