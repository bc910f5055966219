//! What waits on the top of the stack is given what it waits for.

ghost use Rattle.std.specs.Prelude.{◌≡◌, true, false, IfOk};
ghost use Rattle.class_defs.specs.declared.machine.Machine.{Machine};
ghost use Rattle.lang_bounded_eval.specs.SmallSteps.{Moves, frame_of, frames, in_block, in_statement, tested};
ghost use Rattle.method_eval.specs.Viewed.{reading};
ghost use Rattle.lang_small_steps.specs.Resume as spec;
ghost use Rattle.lang_small_steps.specs.Resume.{ended, given, taken};

use crate::beginning_steps::{evaluate_for, give, open_block, pass, ready};
use crate::frames::{Next, Waiting};
use class_defs::{
    Block, Expr, ExprType, Flow, Locals, Machine, Receiver, Stmt, beginning, combined, number,
    push_printed,
};
use lang_small_steps::Stack;
use method_eval::{Halt, World, assign_field, assign_local, declare, fault, holds, take_step};
use thor_value::{Fault, NoMemory, Value, Values, Word};

/// The value that was given.
pub fn given(flow: Flow) -> Value
    ensures { result ≡ given flow }
{
    match flow {
        Flow::Returned(value) => value,
        Flow::Next => Value::Null,
    }
}

/// The result of a body with this declared type.
fn ended(kind: ExprType, flow: Flow) -> Value
    ensures { result ≡ ended kind flow }
{
    match flow {
        Flow::Returned(value) => value,
        Flow::Next => beginning(kind),
    }
}

/// The arguments that were evaluated, with one more where one was given.
fn with_argument(done: Values, flow: Flow) -> Result<Values, NoMemory>
    ensures { IfOk result (λ values. values ≡ taken done flow) }
{
    let mut done = done;
    if let Flow::Returned(value) = flow {
        done.push(value)?;
    }
    Ok(done)
}

/// The next argument, or the call.
fn collect<'a>(
    stack: &mut Stack<Waiting<'a>>,
    inner: u32,
    kind: ExprType,
    target: Value,
    method: &'a Word,
    done: Values,
    rest: &'a [Expr],
) -> Result<Next<'a>, Halt>
    ensures { (m : Machine) → Moves result stack.new m (spec.collect inner kind target method.now done rest.now (frames stack.old) m) }
{
    match rest.split_first() {
        None => ready(inner, kind, target, method, done),
        Some((expr, rest)) => {
            let nested = inner;
            let waiting = Waiting::Arguments {
                nested,
                kind,
                target,
                method,
                done,
                rest,
            };
            evaluate_for(stack, waiting, inner, expr)
        }
    }
}

/// The next statement, or the end of the block.
fn go_on<'a>(
    stack: &mut Stack<Waiting<'a>>,
    inner: u32,
    rest: &'a [Stmt],
    flow: Flow,
) -> Result<Next<'a>, Halt>
    ensures { (m : Machine) → Moves result stack.new m (spec.go_on inner rest.now flow (frames stack.old) m) }
{
    match flow {
        Flow::Returned(value) => give(value),
        Flow::Next => match rest.split_first() {
            None => pass(),
            Some((stmt, rest)) => {
                let nested = inner;
                stack.push(Waiting::Rest { nested, rest })?;
                Ok(Next::Execute { nested, stmt })
            }
        },
    }
}

/// A condition is given: the body of the loop, or its end.
fn tested<'a>(
    machine: &Machine,
    stack: &mut Stack<Waiting<'a>>,
    inner: u32,
    turns: u32,
    condition: &'a Expr,
    body: &'a Block,
    value: Value,
) -> Result<Next<'a>, Halt>
    ensures { Moves result stack.new machine.now (tested inner turns condition.now body.now value (frames stack.old) machine.now) }
{
    if !holds(value) {
        return pass();
    }
    let nested = inner;
    stack.push(Waiting::Again {
        nested,
        turns,
        condition,
        body,
    })?;
    open_block(machine, stack, inner, body)
}

/// The body of a loop has ended: its next test, which takes a step.
#[tactic(auto, unfolding(class_defs::specs::Steps::step))]
fn turned<'a>(
    machine: &mut Machine,
    stack: &mut Stack<Waiting<'a>>,
    inner: u32,
    turns: u32,
    condition: &'a Expr,
    body: &'a Block,
    flow: Flow,
) -> Result<Next<'a>, Halt>
    ensures { Moves result stack.new machine.new (spec.turned inner turns condition.now body.now flow (frames stack.old) machine.old) }
{
    match flow {
        Flow::Returned(value) => give(value),
        Flow::Next => {
            if turns == 0 {
                return fault(Fault::Steps);
            }
            take_step(machine)?;
            let (nested, turns) = (inner, turns - 1);
            let waiting = Waiting::Test {
                nested,
                turns,
                condition,
                body,
            };
            evaluate_for(stack, waiting, inner, condition)
        }
    }
}

/// A body has ended: what held outside of it holds again.
fn leave_body(machine: &mut Machine, depth: u32, this: Option<Receiver>, locals: Locals)
    ensures { machine.new ≡ spec.outside depth this locals machine.old }
{
    machine.depth = depth;
    machine.this = this;
    machine.locals = locals;
}

fn in_block(waiting: &Waiting<'_>) -> bool
    ensures { result ≡ in_block waiting.now }
{
    matches!(
        waiting,
        Waiting::Rest { .. }
            | Waiting::BlockEnd { .. }
            | Waiting::Test { .. }
            | Waiting::Again { .. }
    )
}

fn in_statement(waiting: &Waiting<'_>) -> bool
    ensures { result ≡ in_statement waiting.now }
{
    matches!(
        waiting,
        Waiting::Declare { .. }
            | Waiting::Assign { .. }
            | Waiting::FieldAssign { .. }
            | Waiting::Return
            | Waiting::Branch { .. }
            | Waiting::Branches { .. }
            | Waiting::Print
            | Waiting::Discard
    )
}

/// What waits in a block or a loop.
fn pop_block<'a>(
    world: &World<'a>,
    machine: &mut Machine,
    stack: &mut Stack<Waiting<'a>>,
    waiting: Waiting<'a>,
    flow: Flow,
) -> Result<Next<'a>, Halt>
    requires { in_block waiting ≡ true }
    ensures { Moves result stack.new machine.new (spec.pop (reading world.now) (frame_of waiting.entry) flow (frames stack.old) machine.old) }
{
    let _alloc = world.program.alloc;
    match waiting {
        Waiting::Rest { nested, rest } => go_on(stack, nested, rest, flow),
        Waiting::BlockEnd { count } => {
            machine.locals.truncate(count);
            Ok(Next::Give { flow })
        }
        Waiting::Test {
            nested,
            turns,
            condition,
            body,
        } => { tested(machine, stack, nested, turns, condition, body, given(flow)) }
        Waiting::Again {
            nested,
            turns,
            condition,
            body,
        } => { turned(machine, stack, nested, turns, condition, body, flow) }
        _ => unreachable!(),
    }
}

/// A statement that waits for the value of its first part.
fn pop_statement<'a>(
    world: &World<'a>,
    machine: &mut Machine,
    stack: &mut Stack<Waiting<'a>>,
    waiting: Waiting<'a>,
    flow: Flow,
) -> Result<Next<'a>, Halt>
    requires { in_statement waiting ≡ true }
    ensures { Moves result stack.new machine.new (spec.pop (reading world.now) (frame_of waiting.entry) flow (frames stack.old) machine.old) }
{
    match waiting {
        Waiting::Declare { kind, name } => {
            declare(machine, kind, name, given(flow))?;
            pass()
        }
        Waiting::Assign { name } => {
            assign_local(&mut machine.locals, name, given(flow));
            pass()
        }
        Waiting::FieldAssign { field } => {
            assign_field(world, machine, field, given(flow))?;
            pass()
        }
        Waiting::Return => give(given(flow)),
        Waiting::Branch { nested, then } => {
            if holds(given(flow)) {
                open_block(machine, stack, nested, then)
            } else {
                pass()
            }
        }
        Waiting::Branches {
            nested,
            then,
            otherwise,
        } => {
            if holds(given(flow)) {
                open_block(machine, stack, nested, then)
            } else {
                open_block(machine, stack, nested, otherwise)
            }
        }
        Waiting::Print => {
            push_printed(given(flow), &mut machine.printed)?;
            pass()
        }
        Waiting::Discard => pass(),
        _ => unreachable!(),
    }
}

/// An expression that waits for the value of a part.
fn pop_value<'a>(
    world: &World<'a>,
    machine: &mut Machine,
    stack: &mut Stack<Waiting<'a>>,
    waiting: Waiting<'a>,
    flow: Flow,
) -> Result<Next<'a>, Halt>
    requires block { in_block waiting ≡ false }
    requires statement { in_statement waiting ≡ false }
    ensures { Moves result stack.new machine.new (spec.pop (reading world.now) (frame_of waiting.entry) flow (frames stack.old) machine.old) }
{
    match waiting {
        Waiting::Negate => give(Value::Int(0i64.wrapping_sub(number(given(flow))))),
        Waiting::Right {
            nested,
            operator,
            right,
        } => {
            let left = given(flow);
            evaluate_for(stack, Waiting::Combine { operator, left }, nested, right)
        }
        Waiting::Combine { operator, left } => give(combined(operator, left, given(flow))),
        Waiting::Callee {
            nested,
            kind,
            method,
            arguments,
        } => {
            let none = Values::new(world.program.alloc);
            let rest = arguments.as_slice();
            collect(stack, nested, kind, given(flow), method, none, rest)
        }
        Waiting::Arguments {
            nested,
            kind,
            target,
            method,
            done,
            rest,
        } => {
            let done = with_argument(done, flow)?;
            collect(stack, nested, kind, target, method, done, rest)
        }
        Waiting::BodyEnd {
            depth,
            this,
            locals,
            result,
        } => {
            leave_body(machine, depth, this, locals);
            give(ended(result, flow))
        }
        _ => unreachable!(),
    }
}

/// Gives what was on the top what it waits for.
pub fn pop<'a>(
    world: &World<'a>,
    machine: &mut Machine,
    stack: &mut Stack<Waiting<'a>>,
    waiting: Waiting<'a>,
    flow: Flow,
) -> Result<Next<'a>, Halt>
    ensures { Moves result stack.new machine.new (spec.pop (reading world.now) (frame_of waiting.entry) flow (frames stack.old) machine.old) }
{
    if in_block(&waiting) {
        return pop_block(world, machine, stack, waiting, flow);
    }
    if in_statement(&waiting) {
        return pop_statement(world, machine, stack, waiting, flow);
    }
    pop_value(world, machine, stack, waiting, flow)
}
