//! How expressions, statements, blocks and calls begin in small steps.

ghost use Rattle.std.specs.Prelude.{◌≡◌, ◌∷◌, ◌<◌, List, Some, Ok};
ghost use Rattle.class_defs.specs.Steps as steps;
ghost use Rattle.class_defs.specs.Steps.{step};
ghost use Rattle.class_defs.specs.declared.expressions.Expr.{out-Expr};
ghost use Rattle.class_defs.specs.declared.machine.Machine.{Machine};
ghost use Rattle.class_defs.specs.declared.statements.Stmt.{out-Stmt};
ghost use Rattle.lang_bounded_eval.specs.SmallSteps.{Moves, frame_of, frames};
ghost use Rattle.method_eval.specs.Viewed.{reading};
ghost use Rattle.lang_bounded_eval.specs.declared.frames.Waiting.{Waiting};
ghost use Rattle.lang_small_steps.specs.Resume as spec;
ghost use Rattle.lang_small_steps.specs.declared.frames.Doing.TheVariants as doing;

use crate::frames::{Next, Waiting};
use class_defs::{
    Block, DEPTH_LIMIT, Expr, ExprType, Flow, Machine, Method, Receiver, Stmt, literal_value,
};
use lang_small_steps::Stack;
use method_eval::{
    Halt, World, bound, fault, field_value, method_of, named_value, owners_at, take_step, touch,
    type_named, type_of,
};
use std::mem;
use thor_value::{Fault, Oref, Value, Values, Word};

/// A value is given to what waits on the top.
pub fn give<'a>(value: Value) -> Result<Next<'a>, Halt>
    ensures { result ≡ Ok (Next.Give (Flow.Returned value)) }
{
    Ok(Next::Give {
        flow: Flow::Returned(value),
    })
}

/// The next statement follows.
pub fn pass<'a>() -> Result<Next<'a>, Halt>
    ensures { result ≡ Ok (Next.Give Flow.Next) }
{
    Ok(Next::Give { flow: Flow::Next })
}

/// A part is evaluated, and this waits for it.
pub fn evaluate_for<'a>(
    stack: &mut Stack<Waiting<'a>>,
    waiting: Waiting<'a>,
    nested: u32,
    expr: &'a Expr,
) -> Result<Next<'a>, Halt>
    ensures { (m : Machine) → Moves result stack.new m (spec.next (doing.Evaluate nested expr.now) (frame_of waiting.entry ∷ frames stack.old) m) }
{
    stack.push(waiting)?;
    Ok(Next::Evaluate { nested, expr })
}

/// What a node does first, whose step is taken.
fn first_of_node<'a>(
    world: &World<'a>,
    machine: &Machine,
    stack: &mut Stack<Waiting<'a>>,
    inner: u32,
    expr: &'a Expr,
) -> Result<Next<'a>, Halt>
    ensures { Moves result stack.new machine.now (spec.start (reading world.now) inner (out-Expr expr.now) (frames stack.old) machine.now) }
{
    match expr {
        Expr::Literal { value, line: _ } => give(literal_value(*value)),
        Expr::Null { line: _ } => give(Value::Null),
        Expr::This { line: _ } => give(match &machine.this {
            Some(this) => Value::Ref(this.oref),
            None => Value::Null,
        }),
        Expr::Field { name } => give(field_value(world, machine, &name.text)),
        Expr::Variable { name } => give(named_value(&world.program, machine, &name.text)),
        Expr::New { class, at } => Ok(Next::Create {
            class: &class.text,
            at: *at,
        }),
        Expr::Parens {
            inner: part,
            line: _,
        } => Ok(Next::Evaluate {
            nested: inner,
            expr: part.get(),
        }),
        Expr::Negate { operand, line: _ } => {
            evaluate_for(stack, Waiting::Negate, inner, operand.get())
        }
        Expr::Binary {
            operator,
            left,
            right,
            line: _,
        } => {
            let (operator, right) = (*operator, right.get());
            let waiting = Waiting::Right {
                nested: inner,
                operator,
                right,
            };
            evaluate_for(stack, waiting, inner, left.get())
        }
        Expr::Call {
            receiver,
            method,
            arguments,
        } => {
            let kind = type_of(&world.program, machine, receiver.get());
            let method = &method.text;
            let waiting = Waiting::Callee {
                nested: inner,
                kind,
                method,
                arguments,
            };
            evaluate_for(stack, waiting, inner, receiver.get())
        }
    }
}

/// A node begins, whose parts may be `inner` deep.
#[tactic(auto, unfolding(class_defs::specs::Steps::step))]
pub fn start<'a>(
    world: &World<'a>,
    machine: &mut Machine,
    stack: &mut Stack<Waiting<'a>>,
    inner: u32,
    expr: &'a Expr,
) -> Result<Next<'a>, Halt>
    ensures { Moves result stack.new machine.new (steps.◌>>◌ step (spec.start (reading world.now) inner (out-Expr expr.now) (frames stack.old)) machine.old) }
{
    take_step(machine)?;
    first_of_node(world, machine, stack, inner, expr)
}

/// A statement begins, whose parts may be `inner` deep.
#[tactic(auto, unfolding(class_defs::specs::Steps::step))]
pub fn begin<'a>(
    world: &World<'a>,
    machine: &mut Machine,
    stack: &mut Stack<Waiting<'a>>,
    inner: u32,
    stmt: &'a Stmt,
) -> Result<Next<'a>, Halt>
    ensures { Moves result stack.new machine.new (steps.◌>>◌ step (spec.begin (reading world.now) inner (out-Stmt stmt.now) (frames stack.old)) machine.old) }
{
    take_step(machine)?;
    first_of_statement(world, machine, stack, inner, stmt)
}

/// What a statement does first, whose step is taken.
fn first_of_statement<'a>(
    world: &World<'a>,
    machine: &Machine,
    stack: &mut Stack<Waiting<'a>>,
    inner: u32,
    stmt: &'a Stmt,
) -> Result<Next<'a>, Halt>
    ensures { Moves result stack.new machine.now (spec.begin (reading world.now) inner (out-Stmt stmt.now) (frames stack.old) machine.now) }
{
    let _ = machine;
    match stmt {
        Stmt::Var {
            type_name,
            name,
            line: _,
            value,
        } => {
            let kind = type_named(&world.program, type_name);
            evaluate_for(
                stack,
                Waiting::Declare {
                    kind,
                    name: &name.text,
                },
                inner,
                value,
            )
        }
        Stmt::Assign {
            name,
            line: _,
            value,
        } => {
            let name = &name.text;
            evaluate_for(stack, Waiting::Assign { name }, inner, value)
        }
        Stmt::FieldAssign {
            field,
            line: _,
            value,
        } => {
            let field = &field.text;
            evaluate_for(stack, Waiting::FieldAssign { field }, inner, value)
        }
        Stmt::Return { value } => evaluate_for(stack, Waiting::Return, inner, value),
        Stmt::If { condition, then } => {
            evaluate_for(
                stack,
                Waiting::Branch {
                    nested: inner,
                    then,
                },
                inner,
                condition,
            )
        }
        Stmt::IfElse {
            condition,
            then,
            otherwise,
        } => {
            let waiting = Waiting::Branches {
                nested: inner,
                then,
                otherwise,
            };
            evaluate_for(stack, waiting, inner, condition)
        }
        Stmt::While { condition, body } => {
            let waiting = Waiting::Test {
                nested: inner,
                turns: 100_000,
                condition,
                body,
            };
            evaluate_for(stack, waiting, inner, condition)
        }
        Stmt::Print { value } => evaluate_for(stack, Waiting::Print, inner, value),
        Stmt::Evaluate { value } => evaluate_for(stack, Waiting::Discard, inner, value),
    }
}

/// A block begins.
pub fn open_block<'a>(
    machine: &Machine,
    stack: &mut Stack<Waiting<'a>>,
    inner: u32,
    block: &'a Block,
) -> Result<Next<'a>, Halt>
    ensures { Moves result stack.new machine.now (spec.open_block inner block.now (frames stack.old) machine.now) }
{
    let count = machine.locals.len();
    stack.push(Waiting::BlockEnd { count })?;
    stack.push(Waiting::Rest {
        nested: inner,
        rest: block.as_slice(),
    })?;
    pass()
}

/// A body begins, with `this` and its parameters.
fn open_body<'a>(
    world: &World<'a>,
    machine: &mut Machine,
    stack: &mut Stack<Waiting<'a>>,
    inner: u32,
    this: Receiver,
    method: &'a Method,
    arguments: &Values,
) -> Result<Next<'a>, Halt>
    requires { machine.old.depth < 64 }
    ensures { Moves result stack.new machine.new (spec.open_body (reading world.now) inner this (Some method.now) arguments.now (frames stack.old) machine.old) }
{
    let locals = bound(&world.program, &method.parameters, arguments)?;
    let result = type_named(&world.program, &method.result);
    let depth = machine.depth;
    let locals = mem::replace(&mut machine.locals, locals);
    let this = mem::replace(&mut machine.this, Some(this));
    machine.depth = depth + 1;
    stack.push(Waiting::BodyEnd {
        depth,
        this,
        locals,
        result,
    })?;
    open_block(machine, stack, inner, &method.body)
}

/// A call whose parts are evaluated begins.
#[tactic(auto, unfolding(class_defs::specs::Calls::owners_at))]
pub fn enter<'a>(
    world: &World<'a>,
    machine: &mut Machine,
    stack: &mut Stack<Waiting<'a>>,
    inner: u32,
    class: u16,
    oref: Oref,
    name: &'a Word,
    arguments: &Values,
) -> Result<Next<'a>, Halt>
    ensures { Moves result stack.new machine.new (spec.enters (reading world.now) inner class oref name.now arguments.now (frames stack.old) machine.old) }
{
    if machine.depth >= DEPTH_LIMIT {
        return fault(Fault::Depth);
    }
    let owners = owners_at(&world.program, class, oref, machine)?;
    let found = touch(world, machine, &owners, oref)?;
    if found != class {
        return fault(Fault::NullCall);
    }
    let this = Receiver {
        oref,
        class,
        owners,
    };
    match method_of(&world.program, class, name) {
        Some(method) => open_body(world, machine, stack, inner, this, method, arguments),
        None => fault(Fault::NullCall),
    }
}

/// The parts of a call are there.
pub fn ready<'a>(
    inner: u32,
    kind: ExprType,
    target: Value,
    method: &'a Word,
    arguments: Values,
) -> Result<Next<'a>, Halt>
    ensures { (fs : List Waiting) → (m : Machine) → Moves result fs m (spec.ready inner kind target method.now arguments (frames fs) m) }
{
    match (kind, target) {
        (ExprType::Class(class), Value::Ref(oref)) => Ok(Next::Enter {
            nested: inner,
            class,
            oref,
            method,
            arguments,
        }),
        (_, _) => fault(Fault::NullCall),
    }
}
