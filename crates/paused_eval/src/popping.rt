ghost use Rattle.std.specs.Prelude.{◌≡◌, true, false, Option, None, IfOk};
ghost use Rattle.std.specs.Option.{option_copied};
ghost use Rattle.thor_value.specs.declared.names.Oref.{Oref};
ghost use Rattle.class_defs.specs.declared.store.Object.{Object};
ghost use Rattle.lang_small_steps.specs.Reaches.{over};
ghost use Rattle.lang_small_steps.specs.Resume as spec;
ghost use Rattle.lang_small_steps.specs.Resume.{taken};
ghost use Rattle.paused_eval.specs.Counted.{surplus};
ghost use Rattle.paused_eval.specs.Does.{Holds, Moves, field_assigned, in_block, in_statement};

use crate::moves::{
    collect, ended, evaluate_for, give, given, go_on, open_block, pass, tested, turned,
};
use class_defs::{Flow, Locals, Machine, Receiver, combined, number, push_printed};
use lang_small_steps::{Doing, Frame, Stack};
use method_eval::{Halt, Program, assign_local, declare, holds};
use std::sync::ledger::Ledger;
use thor_value::{NoMemory, StepCount, Value, Values, Word};

/// The name of the field that a frame assigns.
pub fn field_assigned(frame: &Frame) -> Option<&Word>
    ensures { option_copied result ≡ field_assigned frame.now }
{
    match frame {
        Frame::FieldAssign { field } => Some(field),
        Frame::Negate => None,
        Frame::Right { .. } => None,
        Frame::Combine { .. } => None,
        Frame::Callee { .. } => None,
        Frame::Arguments { .. } => None,
        Frame::BodyEnd { .. } => None,
        Frame::Declare { .. } => None,
        Frame::Assign { .. } => None,
        Frame::Return => None,
        Frame::Branch { .. } => None,
        Frame::Branches { .. } => None,
        Frame::Print => None,
        Frame::Discard => None,
        Frame::Rest { .. } => None,
        Frame::BlockEnd { .. } => None,
        Frame::Test { .. } => None,
        Frame::Again { .. } => None,
    }
}

/// The arguments that were evaluated, with one more where one was given.
fn with_argument(done: Values, flow: Flow) -> Result<Values, NoMemory>
    ensures { IfOk result (λ values. values ≡ taken done flow) }
{
    let mut done = done;
    if let Flow::Returned(value) = flow {
        done.push(value)?;
    }
    Ok(done)
}

/// A body has ended: what held outside of it holds again.
pub fn leave_body(machine: &mut Machine, depth: u32, this: Option<Receiver>, locals: Locals)
    ensures { machine.new ≡ spec.outside depth this locals machine.old }
{
    machine.depth = depth;
    machine.this = this;
    machine.locals = locals;
}

/// Whether a frame is of a block or a loop.
fn in_block(frame: &Frame) -> bool
    ensures { result ≡ in_block frame.now }
{
    matches!(
        frame,
        Frame::Rest { .. } | Frame::BlockEnd { .. } | Frame::Test { .. } | Frame::Again { .. }
    )
}

/// Whether a frame waits for the first part of a statement.
fn in_statement(frame: &Frame) -> bool
    ensures { result ≡ in_statement frame.now }
{
    matches!(
        frame,
        Frame::Declare { .. }
            | Frame::Assign { .. }
            | Frame::FieldAssign { .. }
            | Frame::Return
            | Frame::Branch { .. }
            | Frame::Branches { .. }
            | Frame::Print
            | Frame::Discard
    )
}

/// Gives the frame of a block or a loop what it waits for.
fn pop_block<L: Ledger>(
    program: &Program<'_>,
    machine: &mut Machine,
    work: &mut StepCount<L>,
    stack: &mut Stack<Frame>,
    frame: Frame,
    flow: Flow,
) -> Result<Doing, Halt>
    requires { in_block frame ≡ true }
    ensures does { (f : Oref → Option Object) → Moves result stack.new machine.old machine.new (spec.pop (over program.now.schema.now f) frame flow stack.old) }
    ensures work { Holds result (surplus work.new machine.new.steps ≡ surplus work.old machine.old.steps) }
{
    let _alloc = program.alloc;
    match frame {
        Frame::Rest { nested, rest } => go_on(stack, nested, rest, flow),
        Frame::BlockEnd { count } => {
            machine.locals.truncate(count);
            Ok(Doing::Give { flow })
        }
        Frame::Test {
            nested,
            turns,
            condition,
            body,
        } => tested(machine, stack, nested, turns, condition, body, given(flow)),
        Frame::Again {
            nested,
            turns,
            condition,
            body,
        } => turned(machine, work, stack, nested, turns, condition, body, flow),
        _ => unreachable!(),
    }
}

/// Gives the frame of a statement the value of its first part. It assigns no field.
fn pop_statement(
    program: &Program<'_>,
    machine: &mut Machine,
    stack: &mut Stack<Frame>,
    frame: Frame,
    flow: Flow,
) -> Result<Doing, Halt>
    requires statement { in_statement frame ≡ true }
    requires no_field { field_assigned frame ≡ None }
    ensures does { (f : Oref → Option Object) → Moves result stack.new machine.old machine.new (spec.pop (over program.now.schema.now f) frame flow stack.old) }
    ensures steps { Holds result (machine.new.steps ≡ machine.old.steps) }
{
    let _alloc = program.alloc;
    match frame {
        Frame::Declare { kind, name } => {
            declare(machine, kind, &name, given(flow))?;
            pass()
        }
        Frame::Assign { name } => {
            assign_local(&mut machine.locals, &name, given(flow));
            pass()
        }
        Frame::Return => give(given(flow)),
        Frame::Branch { nested, then } => {
            if holds(given(flow)) {
                open_block(machine, stack, nested, then)
            } else {
                pass()
            }
        }
        Frame::Branches {
            nested,
            then,
            otherwise,
        } => {
            if holds(given(flow)) {
                open_block(machine, stack, nested, then)
            } else {
                open_block(machine, stack, nested, otherwise)
            }
        }
        Frame::Print => {
            push_printed(given(flow), &mut machine.printed)?;
            pass()
        }
        Frame::Discard => pass(),
        _ => unreachable!(),
    }
}

/// Gives the frame of an expression the value of a part.
fn pop_value(
    program: &Program<'_>,
    machine: &mut Machine,
    stack: &mut Stack<Frame>,
    frame: Frame,
    flow: Flow,
) -> Result<Doing, Halt>
    requires block { in_block frame ≡ false }
    requires statement { in_statement frame ≡ false }
    ensures does { (f : Oref → Option Object) → Moves result stack.new machine.old machine.new (spec.pop (over program.now.schema.now f) frame flow stack.old) }
    ensures steps { machine.new.steps ≡ machine.old.steps }
{
    match frame {
        Frame::Negate => give(Value::Int(0i64.wrapping_sub(number(given(flow))))),
        Frame::Right {
            nested,
            operator,
            right,
        } => {
            let frame = Frame::Combine {
                operator,
                left: given(flow),
            };
            Ok(evaluate_for(stack, frame, nested, right)?)
        }
        Frame::Combine { operator, left } => give(combined(operator, left, given(flow))),
        Frame::Callee {
            nested,
            kind,
            method,
            arguments,
        } => {
            let none = Values::new(program.alloc);
            collect(stack, nested, kind, given(flow), method, none, arguments)
        }
        Frame::Arguments {
            nested,
            kind,
            target,
            method,
            done,
            rest,
        } => {
            let done = with_argument(done, flow)?;
            collect(stack, nested, kind, target, method, done, rest)
        }
        Frame::BodyEnd {
            depth,
            this,
            locals,
            result,
        } => {
            leave_body(machine, depth, this, locals);
            give(ended(result, flow))
        }
        _ => unreachable!(),
    }
}

/// Gives the frame that was on the top what it waits for. It assigns no field.
pub fn pop<L: Ledger>(
    program: &Program<'_>,
    machine: &mut Machine,
    work: &mut StepCount<L>,
    stack: &mut Stack<Frame>,
    frame: Frame,
    flow: Flow,
) -> Result<Doing, Halt>
    requires { field_assigned frame ≡ None }
    ensures does { (f : Oref → Option Object) → Moves result stack.new machine.old machine.new (spec.pop (over program.now.schema.now f) frame flow stack.old) }
    ensures work { Holds result (surplus work.new machine.new.steps ≡ surplus work.old machine.old.steps) }
{
    if in_block(&frame) {
        return pop_block(program, machine, work, stack, frame, flow);
    }
    if in_statement(&frame) {
        return pop_statement(program, machine, stack, frame, flow);
    }
    pop_value(program, machine, stack, frame, flow)
}
