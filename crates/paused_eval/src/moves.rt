ghost use Rattle.std.specs.Prelude.{◌≡◌, ◌∷◌, [], List, Option, Ok, IfOk, OnOk};
ghost use Rattle.thor_value.specs.declared.names.Oref.{Oref};
ghost use Rattle.class_defs.specs.Steps as steps;
ghost use Rattle.class_defs.specs.Steps.{step};
ghost use Rattle.class_defs.specs.declared.expressions.Expr.{out-Expr};
ghost use Rattle.class_defs.specs.declared.statements.Stmt.{out-Stmt};
ghost use Rattle.class_defs.specs.declared.machine.Machine.{Machine};
ghost use Rattle.class_defs.specs.declared.store.Object.{Object};
ghost use Rattle.lang_small_steps.specs.Reaches.{over};
ghost use Rattle.lang_small_steps.specs.Resume as spec;
ghost use Rattle.lang_small_steps.specs.Resume.{ended, given};
ghost use Rattle.lang_small_steps.specs.declared.frames.Frame.{Frame};
ghost use Rattle.paused_eval.specs.Begins.{first_part, waiting_frame};
ghost use Rattle.paused_eval.specs.Counted.{surplus};
ghost use Rattle.paused_eval.specs.Does.{Holds, Moves, Stepped, tested};

use class_defs::{Expr, ExprType, Flow, Machine, STEP_LIMIT, Stmt, beginning};
use lang_small_steps::{Doing, Frame, SharedBlock, SharedExprs, Stack};
use method_eval::{Halt, Program, fault, holds, type_named};
use std::sync::ledger::Ledger;
use thor_value::{Fault, NoMemory, StepCount, TryCopy, Value, Values, Word, both};

/// The value that was given.
pub fn given(flow: Flow) -> Value
    ensures { result ≡ given flow }
{
    match flow {
        Flow::Returned(value) => value,
        Flow::Next => Value::Null,
    }
}

/// The result of a body with this declared type.
pub fn ended(kind: ExprType, flow: Flow) -> Value
    ensures { result ≡ ended kind flow }
{
    match flow {
        Flow::Returned(value) => value,
        Flow::Next => beginning(kind),
    }
}

/// Takes one step.
#[tactic(auto, using(crate::proofs::Counting::counted_step), unfolding(class_defs::specs::Steps::step))]
pub fn take_step<L: Ledger>(machine: &mut Machine, work: &mut StepCount<L>) -> Result<(), Halt>
    ensures step { Stepped result machine.old machine.new }
    ensures work { surplus work.new machine.new.steps ≡ surplus work.old machine.old.steps }
{
    if machine.steps < STEP_LIMIT {
        machine.steps += 1;
        work.tick();
        Ok(())
    } else {
        fault(Fault::Steps)
    }
}

/// A value is given to the frame on the top.
pub fn give(value: Value) -> Result<Doing, Halt>
    ensures { result ≡ Ok (Doing.Give (Flow.Returned value)) }
{
    Ok(Doing::Give {
        flow: Flow::Returned(value),
    })
}

/// The next statement follows.
pub fn pass() -> Result<Doing, Halt>
    ensures { result ≡ Ok (Doing.Give Flow.Next) }
{
    Ok(Doing::Give { flow: Flow::Next })
}

/// A part is evaluated, and the frame stands behind it.
pub fn evaluate_for(
    stack: &mut Stack<Frame>,
    frame: Frame,
    nested: u32,
    expr: Expr,
) -> Result<Doing, NoMemory>
    ensures doing { IfOk result (λ doing. doing ≡ Doing.Evaluate nested expr) }
    ensures stack { OnOk result (stack.new ≡ frame ∷ stack.old) }
{
    stack.push(frame)?;
    Ok(Doing::Evaluate { nested, expr })
}

/// A part of a node is evaluated.
pub fn go_into(inner: u32, part: &Expr) -> Result<Doing, NoMemory>
    ensures { IfOk result (λ doing. doing ≡ Doing.Evaluate inner part.now) }
{
    Ok(Doing::Evaluate {
        nested: inner,
        expr: part.copy()?,
    })
}

/// A part of a node is evaluated, and the frame stands behind it.
pub fn go_into_for(
    stack: &mut Stack<Frame>,
    frame: Frame,
    inner: u32,
    part: &Expr,
) -> Result<Doing, NoMemory>
    ensures doing { IfOk result (λ doing. doing ≡ Doing.Evaluate inner part.now) }
    ensures stack { OnOk result (stack.new ≡ frame ∷ stack.old) }
{
    stack.push(frame)?;
    go_into(inner, part)
}

/// The part of a statement that is evaluated first.
#[tactic(auto, using(crate::proofs::Nodes::stmt_nodes))]
pub fn first_part(node: &Stmt) -> &Expr
    ensures { result.now ≡ first_part (out-Stmt node.now) }
{
    match node {
        Stmt::Var { value, .. } => value,
        Stmt::Assign { value, .. } => value,
        Stmt::FieldAssign { value, .. } => value,
        Stmt::Return { value } => value,
        Stmt::If { condition, .. } => condition,
        Stmt::IfElse { condition, .. } => condition,
        Stmt::While { condition, .. } => condition,
        Stmt::Print { value } => value,
        Stmt::Evaluate { value } => value,
    }
}

/// The frame that waits for this part.
#[tactic(auto, using(crate::proofs::Nodes::stmt_nodes))]
pub fn waiting_frame(program: &Program<'_>, inner: u32, node: &Stmt) -> Result<Frame, NoMemory>
    ensures { IfOk result (λ frame. frame ≡ waiting_frame program.now.schema.now.classes inner (out-Stmt node.now)) }
{
    match node {
        Stmt::Var {
            type_name,
            name,
            ..
        } => Ok(Frame::Declare {
            kind: type_named(program, type_name),
            name: name.text,
        }),
        Stmt::Assign { name, .. } => Ok(Frame::Assign { name: name.text }),
        Stmt::FieldAssign { field, .. } => Ok(Frame::FieldAssign { field: field.text }),
        Stmt::Return { value: _ } => Ok(Frame::Return),
        Stmt::If { condition: _, then } => Ok(Frame::Branch {
            nested: inner,
            then: SharedBlock::of(then)?,
        }),
        Stmt::IfElse {
            condition: _,
            then,
            otherwise,
        } => Ok(Frame::Branches {
            nested: inner,
            then: SharedBlock::of(then)?,
            otherwise: SharedBlock::of(otherwise)?,
        }),
        Stmt::While { condition, body } => {
            let (condition, body) = both(condition.copy()?, SharedBlock::of(body))?;
            Ok(Frame::Test {
                nested: inner,
                turns: 100_000,
                condition,
                body,
            })
        }
        Stmt::Print { value: _ } => Ok(Frame::Print),
        Stmt::Evaluate { value: _ } => Ok(Frame::Discard),
    }
}

/// A statement begins, whose parts may be `inner` deep.
#[tactic(auto, using(crate::proofs::Beginning::begins_by), unfolding(class_defs::specs::Steps::step))]
pub fn begin<L: Ledger>(
    program: &Program<'_>,
    machine: &mut Machine,
    work: &mut StepCount<L>,
    stack: &mut Stack<Frame>,
    inner: u32,
    node: &Stmt,
) -> Result<Doing, Halt>
    ensures does { (f : Oref → Option Object) → Moves result stack.new machine.old machine.new (steps.◌>>◌ step (spec.begin (over program.now.schema.now f) inner (out-Stmt node.now) stack.old)) }
    ensures work { Holds result (surplus work.new machine.new.steps ≡ surplus work.old machine.old.steps) }
{
    take_step(machine, work)?;
    let frame = waiting_frame(program, inner, node)?;
    Ok(go_into_for(stack, frame, inner, first_part(node))?)
}

/// A block begins.
pub fn open_block(
    machine: &Machine,
    stack: &mut Stack<Frame>,
    inner: u32,
    block: SharedBlock,
) -> Result<Doing, Halt>
    ensures { Moves result stack.new machine.now machine.now (spec.open_block inner block stack.old) }
{
    stack.push(Frame::BlockEnd {
        count: machine.locals.len(),
    })?;
    stack.push(Frame::Rest {
        nested: inner,
        rest: block,
    })?;
    pass()
}

/// The parts of a call are there.
fn ready(
    inner: u32,
    kind: ExprType,
    target: Value,
    method: Word,
    arguments: Values,
) -> Result<Doing, Halt>
    ensures { (fs : List Frame) → (m : Machine) → Moves result fs m m (spec.ready inner kind target method arguments fs) }
{
    match (kind, target) {
        (ExprType::Class(class), Value::Ref(oref)) => Ok(Doing::Enter {
            nested: inner,
            class,
            oref,
            method,
            arguments,
        }),
        (_, _) => fault(Fault::NullCall),
    }
}

/// The next argument, or the call.
pub fn collect(
    stack: &mut Stack<Frame>,
    inner: u32,
    kind: ExprType,
    target: Value,
    method: Word,
    done: Values,
    rest: SharedExprs,
) -> Result<Doing, Halt>
    ensures { (m : Machine) → Moves result stack.new m m (spec.collect inner kind target method done rest stack.old) }
{
    match rest.split_first()? {
        None => ready(inner, kind, target, method, done),
        Some((expr, rest)) => {
            let frame = Frame::Arguments {
                nested: inner,
                kind,
                target,
                method,
                done,
                rest,
            };
            Ok(evaluate_for(stack, frame, inner, expr)?)
        }
    }
}

/// The next statement, or the end of the block.
pub fn go_on(
    stack: &mut Stack<Frame>,
    inner: u32,
    rest: SharedBlock,
    flow: Flow,
) -> Result<Doing, Halt>
    ensures { (m : Machine) → Moves result stack.new m m (spec.go_on inner rest flow stack.old) }
{
    match flow {
        Flow::Returned(value) => give(value),
        Flow::Next => match rest.split_first()? {
            None => pass(),
            Some((stmt, rest)) => {
                stack.push(Frame::Rest {
                    nested: inner,
                    rest,
                })?;
                Ok(Doing::Execute {
                    nested: inner,
                    stmt,
                })
            }
        },
    }
}

/// A condition is given: the body of the loop, or its end.
pub fn tested(
    machine: &Machine,
    stack: &mut Stack<Frame>,
    inner: u32,
    turns: u32,
    condition: Expr,
    body: SharedBlock,
    value: Value,
) -> Result<Doing, Halt>
    ensures { Moves result stack.new machine.now machine.now (tested inner turns condition body value stack.old) }
{
    if !holds(value) {
        return pass();
    }
    let block = body.share()?;
    stack.push(Frame::Again {
        nested: inner,
        turns,
        condition,
        body,
    })?;
    open_block(machine, stack, inner, block)
}

/// The body of a loop has ended: its next test, which takes a step.
#[tactic(auto, unfolding(class_defs::specs::Steps::step))]
pub fn turned<L: Ledger>(
    machine: &mut Machine,
    work: &mut StepCount<L>,
    stack: &mut Stack<Frame>,
    inner: u32,
    turns: u32,
    condition: Expr,
    body: SharedBlock,
    flow: Flow,
) -> Result<Doing, Halt>
    ensures does { Moves result stack.new machine.old machine.new (spec.turned inner turns condition body flow stack.old) }
    ensures work { Holds result (surplus work.new machine.new.steps ≡ surplus work.old machine.old.steps) }
{
    match flow {
        Flow::Returned(value) => give(value),
        Flow::Next => {
            if turns == 0 {
                return fault(Fault::Steps);
            }
            take_step(machine, work)?;
            let expr = condition.copy()?;
            let frame = Frame::Test {
                nested: inner,
                turns: turns - 1,
                condition,
                body,
            };
            Ok(evaluate_for(stack, frame, inner, expr)?)
        }
    }
}
