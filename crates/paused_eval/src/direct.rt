//! An evaluation by plain recursion, as far as the objects are at hand and there is room: `room` nodes more may be open inside
//! one another. Where it can't go on, each function that is left puts the frame that waits for its part behind those of the
//! parts inside. Objects are made in small steps.

ghost use Rattle.std.specs.Prelude.{◌≡◌, ◌<◌, map, None, IfOk};
ghost use Rattle.class_defs.specs.Types.{method_of};
ghost use Rattle.class_defs.specs.declared.expressions.Expr.{out-Expr};
ghost use Rattle.lang_small_steps.specs.Methods.{class_methods};
ghost use Rattle.lang_small_steps.specs.Reaches.{over};
ghost use Rattle.lang_small_steps.specs.Resume as small;
ghost use Rattle.lang_small_steps.specs.Typed.{IsTyped};
ghost use Rattle.paused_eval.specs.Copies.{Keeps, Tied, state};
ghost use Rattle.paused_eval.specs.Counted.{surplus};
ghost use Rattle.paused_eval.specs.Direct as spec;
ghost use Rattle.paused_eval.specs.Direct.{Directs, Lasts, directly, on};

use crate::bodies::{Bodies, method_in};
use crate::direct_statements::block;
use crate::moves::ended;
use crate::objects::{field_value, touch};
use crate::popping::leave_body;
use crate::unwound::Unwound;
use crate::waiting::{
    behind_argument, behind_body, behind_left, behind_negation, behind_receiver, behind_right,
    create_later, evaluate_later, faulted, not_entered,
};
use class_defs::{
    DEPTH_LIMIT, Expr, ExprType, Exprs, Machine, Operator, Receiver, STEP_LIMIT, combined,
    literal_value, number,
};
use client_cache::Cache;
use lang_small_steps::{SharedExprs, SharedMethod};
use method_eval::{Program, named_value, owners_at, type_of};
use std::mem;
use std::sync::ledger::Ledger;
use thor_value::{Fault, NoMemory, Oref, Value, Values, Word};

/// The value of an expression whose nodes may be `nested` deep. Where there is no `room` for one node more inside those that
/// are open, small steps go on.
#[cycle(direct)]
#[tactic(auto, using(crate::proofs::Directly::at_depth, crate::proofs::Directly::left_later, crate::proofs::Counting::counted_step))]
pub fn value_of<L: Ledger>(
    program: &Program<'_>,
    epoch: u32,
    cache: &mut Cache,
    machine: &mut Machine,
    bodies: &mut Bodies<'_, L>,
    room: u32,
    nested: u32,
    expr: &Expr,
) -> Result<Value, Unwound>
    requires tied { Tied cache.old }
    requires known { bodies.old.methods.now ≡ class_methods program.now.schema.now.classes }
    ensures does { Directs result (state machine.new cache.new) ((directly (on program.now.schema.now cache.old) room nested).value_of expr.now (state machine.old cache.old)) }
    ensures tied { Lasts result (Tied cache.new) }
    ensures kept { Lasts result (Keeps cache.old cache.new) }
    ensures known { bodies.new.methods.now ≡ class_methods program.now.schema.now.classes }
    ensures work { Lasts result (surplus bodies.new.work machine.new.steps ≡ surplus bodies.old.work machine.old.steps) }
{
    if room == 0 {
        return evaluate_later(program.alloc, nested, expr);
    }
    if nested == 0 || machine.steps >= STEP_LIMIT {
        return evaluate_later(program.alloc, nested, expr);
    }
    machine.steps += 1;
    bodies.work.tick();
    node(
        program,
        epoch,
        cache,
        machine,
        bodies,
        room - 1,
        nested - 1,
        expr,
    )
}

/// A node whose step is taken.
#[cycle(direct)]
#[tactic(auto, using(crate::proofs::Nodes::expr_nodes, crate::proofs::Directly::left_later))]
fn node<L: Ledger>(
    program: &Program<'_>,
    epoch: u32,
    cache: &mut Cache,
    machine: &mut Machine,
    bodies: &mut Bodies<'_, L>,
    room: u32,
    inner: u32,
    node: &Expr,
) -> Result<Value, Unwound>
    requires tied { Tied cache.old }
    requires known { bodies.old.methods.now ≡ class_methods program.now.schema.now.classes }
    ensures does { Directs result (state machine.new cache.new) (spec.node (on program.now.schema.now cache.old) inner (directly (on program.now.schema.now cache.old) room inner) (out-Expr node.now) (state machine.old cache.old)) }
    ensures tied { Lasts result (Tied cache.new) }
    ensures kept { Lasts result (Keeps cache.old cache.new) }
    ensures known { bodies.new.methods.now ≡ class_methods program.now.schema.now.classes }
    ensures work { Lasts result (surplus bodies.new.work machine.new.steps ≡ surplus bodies.old.work machine.old.steps) }
{
    match node {
        Expr::Literal { value, line: _ } => Ok(literal_value(*value)),
        Expr::Null { line: _ } => Ok(Value::Null),
        Expr::This { line: _ } => Ok(match &machine.this {
            Some(this) => Value::Ref(this.oref),
            None => Value::Null,
        }),
        Expr::Field { name } => Ok(field_value(program, cache, machine, &name.text)),
        Expr::Variable { name } => Ok(named_value(program, machine, &name.text)),
        Expr::New { class, at } => create_later(program.alloc, &class.text, *at),
        Expr::Parens { inner: inside, .. } => {
            value_of(
                program,
                epoch,
                cache,
                machine,
                bodies,
                room,
                inner,
                inside.get(),
            )
        }
        Expr::Negate { operand, .. } => {
            negate(
                program,
                epoch,
                cache,
                machine,
                bodies,
                room,
                inner,
                operand.get(),
            )
        }
        Expr::Binary {
            operator,
            left,
            right,
            ..
        } => binary(
            program,
            epoch,
            cache,
            machine,
            bodies,
            room,
            inner,
            *operator,
            left.get(),
            right.get(),
        ),
        Expr::Call {
            receiver,
            method,
            arguments,
        } => called(
            program,
            epoch,
            cache,
            machine,
            bodies,
            room,
            inner,
            receiver.get(),
            &method.text,
            arguments,
        ),
    }
}

#[cycle(direct)]
#[tactic(auto, using(crate::proofs::Directly::left_waiting))]
fn negate<L: Ledger>(
    program: &Program<'_>,
    epoch: u32,
    cache: &mut Cache,
    machine: &mut Machine,
    bodies: &mut Bodies<'_, L>,
    room: u32,
    inner: u32,
    operand: &Expr,
) -> Result<Value, Unwound>
    requires tied { Tied cache.old }
    requires known { bodies.old.methods.now ≡ class_methods program.now.schema.now.classes }
    ensures does { Directs result (state machine.new cache.new) (spec.negate (on program.now.schema.now cache.old) inner (directly (on program.now.schema.now cache.old) room inner) operand.now (state machine.old cache.old)) }
    ensures tied { Lasts result (Tied cache.new) }
    ensures kept { Lasts result (Keeps cache.old cache.new) }
    ensures known { bodies.new.methods.now ≡ class_methods program.now.schema.now.classes }
    ensures work { Lasts result (surplus bodies.new.work machine.new.steps ≡ surplus bodies.old.work machine.old.steps) }
{
    match value_of(program, epoch, cache, machine, bodies, room, inner, operand) {
        Ok(value) => Ok(Value::Int(0i64.wrapping_sub(number(value)))),
        Err(unwound) => Err(behind_negation(unwound)),
    }
}

/// The right operand, behind the value of the left one.
#[cycle(direct)]
#[tactic(auto, using(crate::proofs::Directly::left_waiting))]
pub fn combine<L: Ledger>(
    program: &Program<'_>,
    epoch: u32,
    cache: &mut Cache,
    machine: &mut Machine,
    bodies: &mut Bodies<'_, L>,
    room: u32,
    inner: u32,
    operator: Operator,
    first: Value,
    right: &Expr,
) -> Result<Value, Unwound>
    requires tied { Tied cache.old }
    requires known { bodies.old.methods.now ≡ class_methods program.now.schema.now.classes }
    ensures does { Directs result (state machine.new cache.new) (spec.combine (on program.now.schema.now cache.old) inner (directly (on program.now.schema.now cache.old) room inner) operator first right.now (state machine.old cache.old)) }
    ensures tied { Lasts result (Tied cache.new) }
    ensures kept { Lasts result (Keeps cache.old cache.new) }
    ensures known { bodies.new.methods.now ≡ class_methods program.now.schema.now.classes }
    ensures work { Lasts result (surplus bodies.new.work machine.new.steps ≡ surplus bodies.old.work machine.old.steps) }
{
    match value_of(program, epoch, cache, machine, bodies, room, inner, right) {
        Ok(second) => Ok(combined(operator, first, second)),
        Err(unwound) => Err(behind_left(unwound, operator, first)),
    }
}

#[cycle(direct)]
#[tactic(auto, using(crate::proofs::Directly::left_waiting, crate::proofs::Directly::same_world))]
fn binary<L: Ledger>(
    program: &Program<'_>,
    epoch: u32,
    cache: &mut Cache,
    machine: &mut Machine,
    bodies: &mut Bodies<'_, L>,
    room: u32,
    inner: u32,
    operator: Operator,
    left: &Expr,
    right: &Expr,
) -> Result<Value, Unwound>
    requires tied { Tied cache.old }
    requires known { bodies.old.methods.now ≡ class_methods program.now.schema.now.classes }
    ensures does { Directs result (state machine.new cache.new) (spec.binary (on program.now.schema.now cache.old) inner (directly (on program.now.schema.now cache.old) room inner) operator left.now right.now (state machine.old cache.old)) }
    ensures tied { Lasts result (Tied cache.new) }
    ensures kept { Lasts result (Keeps cache.old cache.new) }
    ensures known { bodies.new.methods.now ≡ class_methods program.now.schema.now.classes }
    ensures work { Lasts result (surplus bodies.new.work machine.new.steps ≡ surplus bodies.old.work machine.old.steps) }
{
    match value_of(program, epoch, cache, machine, bodies, room, inner, left) {
        Ok(first) => combine(
            program, epoch, cache, machine, bodies, room, inner, operator, first, right,
        ),
        Err(unwound) => Err(behind_right(unwound, inner, operator, right)),
    }
}

#[cycle(direct)]
#[tactic(auto, using(crate::proofs::Directly::left_waiting, crate::proofs::Directly::same_world))]
fn called<L: Ledger>(
    program: &Program<'_>,
    epoch: u32,
    cache: &mut Cache,
    machine: &mut Machine,
    bodies: &mut Bodies<'_, L>,
    room: u32,
    inner: u32,
    receiver: &Expr,
    method: &Word,
    arguments: &Exprs,
) -> Result<Value, Unwound>
    requires tied { Tied cache.old }
    requires known { bodies.old.methods.now ≡ class_methods program.now.schema.now.classes }
    ensures does { Directs result (state machine.new cache.new) (spec.called (on program.now.schema.now cache.old) inner (directly (on program.now.schema.now cache.old) room inner) receiver.now method.now arguments.now (state machine.old cache.old)) }
    ensures tied { Lasts result (Tied cache.new) }
    ensures kept { Lasts result (Keeps cache.old cache.new) }
    ensures known { bodies.new.methods.now ≡ class_methods program.now.schema.now.classes }
    ensures work { Lasts result (surplus bodies.new.work machine.new.steps ≡ surplus bodies.old.work machine.old.steps) }
{
    let kind = type_of(program, machine, receiver);
    match value_of(
        program, epoch, cache, machine, bodies, room, inner, receiver,
    ) {
        Ok(target) => {
            let none = Values::new(program.alloc);
            collect(
                program, epoch, cache, machine, bodies, room, inner, kind, target, method, none,
                arguments,
            )
        }
        Err(unwound) => Err(behind_receiver(unwound, inner, kind, method, arguments)),
    }
}

/// The arguments that are left, and then the call.
#[cycle(direct)]
#[tactic(auto, using(crate::proofs::Directly::left_waiting, crate::proofs::Directly::same_world))]
fn collect<L: Ledger>(
    program: &Program<'_>,
    epoch: u32,
    cache: &mut Cache,
    machine: &mut Machine,
    bodies: &mut Bodies<'_, L>,
    room: u32,
    inner: u32,
    kind: ExprType,
    target: Value,
    method: &Word,
    none: Values,
    arguments: &Exprs,
) -> Result<Value, Unwound>
    requires tied { Tied cache.old }
    requires known { bodies.old.methods.now ≡ class_methods program.now.schema.now.classes }
    ensures does { Directs result (state machine.new cache.new) (spec.collect (on program.now.schema.now cache.old) inner (directly (on program.now.schema.now cache.old) room inner) kind target method.now none arguments.now (state machine.old cache.old)) }
    ensures tied { Lasts result (Tied cache.new) }
    ensures kept { Lasts result (Keeps cache.old cache.new) }
    ensures known { bodies.new.methods.now ≡ class_methods program.now.schema.now.classes }
    ensures work { Lasts result (surplus bodies.new.work machine.new.steps ≡ surplus bodies.old.work machine.old.steps) }
{
    let mut done = none;
    for place in 0..usize::MAX {
        match SharedExprs::at(arguments, place) {
            None => {
                return ready(
                    program, epoch, cache, machine, bodies, room, inner, kind, target, method, done,
                );
            }
            Some(expr) => match value_of(
                program, epoch, cache, machine, bodies, room, inner, expr,
            ) {
                Ok(value) => done.push(value)?,
                Err(unwound) => {
                    let rest = SharedExprs::behind(arguments, place)?;
                    return Err(behind_argument(unwound, inner, kind, target, method, done, rest));
                }
            },
        }
    }
    Err(Unwound::NoMemory)
}

/// The parts of a call are there.
#[cycle(direct)]
fn ready<L: Ledger>(
    program: &Program<'_>,
    epoch: u32,
    cache: &mut Cache,
    machine: &mut Machine,
    bodies: &mut Bodies<'_, L>,
    room: u32,
    inner: u32,
    kind: ExprType,
    target: Value,
    method: &Word,
    arguments: Values,
) -> Result<Value, Unwound>
    requires tied { Tied cache.old }
    requires known { bodies.old.methods.now ≡ class_methods program.now.schema.now.classes }
    ensures does { Directs result (state machine.new cache.new) (spec.ready (on program.now.schema.now cache.old) inner (directly (on program.now.schema.now cache.old) room inner) kind target method.now arguments (state machine.old cache.old)) }
    ensures tied { Lasts result (Tied cache.new) }
    ensures kept { Lasts result (Keeps cache.old cache.new) }
    ensures known { bodies.new.methods.now ≡ class_methods program.now.schema.now.classes }
    ensures work { Lasts result (surplus bodies.new.work machine.new.steps ≡ surplus bodies.old.work machine.old.steps) }
{
    match (kind, target) {
        (ExprType::Class(class), Value::Ref(oref)) => call(
            program, epoch, cache, machine, bodies, room, inner, class, oref, method, arguments,
        ),
        (_, _) => faulted(Fault::NullCall),
    }
}

/// A call whose parts are evaluated.
#[cycle(direct)]
#[tactic(auto, using(crate::proofs::Directly::left_there, crate::proofs::Directly::same_world), unfolding(class_defs::specs::Calls::owners_at))]
pub fn call<L: Ledger>(
    program: &Program<'_>,
    epoch: u32,
    cache: &mut Cache,
    machine: &mut Machine,
    bodies: &mut Bodies<'_, L>,
    room: u32,
    inner: u32,
    class: u16,
    oref: Oref,
    method: &Word,
    arguments: Values,
) -> Result<Value, Unwound>
    requires tied { Tied cache.old }
    requires known { bodies.old.methods.now ≡ class_methods program.now.schema.now.classes }
    ensures does { Directs result (state machine.new cache.new) (spec.call (on program.now.schema.now cache.old) inner (directly (on program.now.schema.now cache.old) room inner) class oref method.now arguments (state machine.old cache.old)) }
    ensures tied { Lasts result (Tied cache.new) }
    ensures kept { Lasts result (Keeps cache.old cache.new) }
    ensures known { bodies.new.methods.now ≡ class_methods program.now.schema.now.classes }
    ensures work { Lasts result (surplus bodies.new.work machine.new.steps ≡ surplus bodies.old.work machine.old.steps) }
{
    if machine.depth >= DEPTH_LIMIT {
        return faulted(Fault::Depth);
    }
    let owners = owners_at(program, class, oref, machine)?;
    match touch(program, cache, machine, &owners, oref) {
        Ok(found) => {
            let this = Receiver {
                oref,
                class,
                owners,
            };
            enter(
                program, epoch, cache, machine, bodies, room, inner, found, this, method,
                &arguments,
            )
        }
        Err(halt) => Err(not_entered(program.alloc, halt, inner, class, oref, method, arguments)),
    }
}

/// A method is called whose object was read.
#[cycle(direct)]
fn enter<L: Ledger>(
    program: &Program<'_>,
    epoch: u32,
    cache: &mut Cache,
    machine: &mut Machine,
    bodies: &mut Bodies<'_, L>,
    room: u32,
    inner: u32,
    found: u16,
    this: Receiver,
    name: &Word,
    arguments: &Values,
) -> Result<Value, Unwound>
    requires tied { Tied cache.old }
    requires known { bodies.old.methods.now ≡ class_methods program.now.schema.now.classes }
    requires depth { machine.old.depth < 64 }
    ensures does { Directs result (state machine.new cache.new) (spec.enter_as (on program.now.schema.now cache.old) inner (directly (on program.now.schema.now cache.old) room inner) this found (method_of program.now.schema.now.classes this.class name.now) arguments.now (state machine.old cache.old)) }
    ensures tied { Lasts result (Tied cache.new) }
    ensures kept { Lasts result (Keeps cache.old cache.new) }
    ensures known { bodies.new.methods.now ≡ class_methods program.now.schema.now.classes }
    ensures work { Lasts result (surplus bodies.new.work machine.new.steps ≡ surplus bodies.old.work machine.old.steps) }
{
    if found != this.class {
        return faulted(Fault::NullCall);
    }
    match method_in(program, bodies, this.class, name) {
        Some(method) => run_body(
            program, epoch, cache, machine, bodies, room, inner, this, method, arguments,
        ),
        None => faulted(Fault::NullCall),
    }
}

/// What holds outside of a body.
#[derive(Drop)]
struct Outside {
    depth: u32,
    this: Option<Receiver>,
    locals: class_defs::Locals,
}

/// A body begins, with `this` and its parameters; what held outside of it is given back.
fn go_inside(
    program: &Program<'_>,
    machine: &mut Machine,
    this: Receiver,
    method: &SharedMethod,
    arguments: &Values,
) -> Result<Outside, NoMemory>
    requires depth { machine.old.depth < 64 }
    requires typed { IsTyped program.now.schema.now.classes method.now }
    ensures inside { IfOk result (λ outside. machine.new ≡ small.inside (over program.now.schema.now (λ x. None)) this method.now.method arguments.now machine.old) }
    ensures outside { IfOk result (λ outside. outside ≡ record { depth = machine.old.depth; this = machine.old.this; locals = machine.old.locals }) }
{
    let locals = method.bound(program.alloc, arguments)?;
    let depth = machine.depth;
    let locals = mem::replace(&mut machine.locals, locals);
    let caller = mem::replace(&mut machine.this, Some(this));
    machine.depth = depth + 1;
    Ok(Outside {
        depth,
        this: caller,
        locals,
    })
}

/// Runs a body, and then gives back what held outside of it.
#[cycle(direct)]
#[tactic(auto, using(crate::proofs::Directly::left_waiting, crate::proofs::Directly::same_world))]
fn run_body<L: Ledger>(
    program: &Program<'_>,
    epoch: u32,
    cache: &mut Cache,
    machine: &mut Machine,
    bodies: &mut Bodies<'_, L>,
    room: u32,
    inner: u32,
    this: Receiver,
    method: &SharedMethod,
    arguments: &Values,
) -> Result<Value, Unwound>
    requires tied { Tied cache.old }
    requires known { bodies.old.methods.now ≡ class_methods program.now.schema.now.classes }
    requires depth { machine.old.depth < 64 }
    requires typed { IsTyped program.now.schema.now.classes method.now }
    ensures does { Directs result (state machine.new cache.new) (spec.run_body (on program.now.schema.now cache.old) inner (directly (on program.now.schema.now cache.old) room inner) this method.now.method arguments.now (state machine.old cache.old)) }
    ensures tied { Lasts result (Tied cache.new) }
    ensures kept { Lasts result (Keeps cache.old cache.new) }
    ensures known { bodies.new.methods.now ≡ class_methods program.now.schema.now.classes }
    ensures work { Lasts result (surplus bodies.new.work machine.new.steps ≡ surplus bodies.old.work machine.old.steps) }
{
    let Outside {
        depth,
        this,
        locals,
    } = go_inside(program, machine, this, method, arguments)?;
    let kind = method.result();
    match block(
        program,
        epoch,
        cache,
        machine,
        bodies,
        room,
        inner,
        method.body(),
    ) {
        Ok(flow) => {
            leave_body(machine, depth, this, locals);
            Ok(ended(kind, flow))
        }
        Err(unwound) => Err(behind_body(unwound, depth, this, locals, kind)),
    }
}
