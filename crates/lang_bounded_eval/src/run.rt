ghost use Rattle.std.specs.Prelude.{◌<◌};
ghost use Rattle.method_eval.specs.Does.{Does};
ghost use Rattle.lang_bounded_eval.specs.Inner.{value_of, execute, block, expression, node, values_of, called, call_object, run_body, in_order, statement, repeat};
ghost use Rattle.method_eval.specs.Viewed.{reading};

use crate::limits::RECURSION_END;
use crate::small_steps::{execute_by_steps, value_by_steps};
use class_defs::{
    Block, DEPTH_LIMIT, Expr, ExprType, Exprs, Flow, Machine, Method, Receiver, Stmt, combined,
    literal_value, number, push_printed,
};
use method_eval::{
    Halt, World, assign_field, assign_local, bound, create, declare, fault, field_value, holds,
    method_of, named_value, owners_at, result_of, take_step, touch, type_named, type_of,
};
use std::mem;
use thor_value::{Fault, Oref, Value, Values, Word};

/// The value of an expression, where nodes at most `nested` deep may stand inside one another. Down to `RECURSION_END` they
/// are evaluated by plain recursion, and what stands deeper by small steps.
#[cycle(run)]
#[tactic(auto, using(crate::proofs::Depth::at_depth))]
pub fn value_of(
    world: &World<'_>,
    nested: u32,
    machine: &mut Machine,
    expr: &Expr,
) -> Result<Value, Halt>
    ensures { Does result machine.new (value_of (reading world.now) nested expr.now machine.old) }
{
    if nested <= RECURSION_END {
        return value_by_steps(world, nested, machine, expr);
    }
    expression(world, nested - 1, machine, expr)
}

/// One node of an expression, whose parts may be `inner` deep.
#[cycle(run)]
#[tactic(auto, unfolding(class_defs::specs::Expressions::expression))]
fn expression(
    world: &World<'_>,
    inner: u32,
    machine: &mut Machine,
    expr: &Expr,
) -> Result<Value, Halt>
    ensures { Does result machine.new (expression (reading world.now) inner expr.now machine.old) }
{
    take_step(machine)?;
    node(world, inner, machine, expr)
}

#[cycle(run)]
fn node(world: &World<'_>, inner: u32, machine: &mut Machine, expr: &Expr) -> Result<Value, Halt>
    ensures { Does result machine.new (node (reading world.now) inner expr.now machine.old) }
{
    match expr {
        Expr::Literal { value, line: _ } => Ok(literal_value(*value)),
        Expr::Null { line: _ } => Ok(Value::Null),
        Expr::This { line: _ } => Ok(match &machine.this {
            Some(this) => Value::Ref(this.oref),
            None => Value::Null,
        }),
        Expr::Field { name } => Ok(field_value(world, machine, &name.text)),
        Expr::Variable { name } => Ok(named_value(&world.program, machine, &name.text)),
        Expr::New { class, at } => create(world, machine, &class.text, *at),
        Expr::Parens {
            inner: part,
            line: _,
        } => value_of(world, inner, machine, part.get()),
        Expr::Negate { operand, line: _ } => {
            let value = value_of(world, inner, machine, operand.get())?;
            Ok(Value::Int(0i64.wrapping_sub(number(value))))
        }
        Expr::Binary {
            operator,
            left,
            right,
            line: _,
        } => {
            let first = value_of(world, inner, machine, left.get())?;
            let second = value_of(world, inner, machine, right.get())?;
            Ok(combined(*operator, first, second))
        }
        Expr::Call {
            receiver,
            method,
            arguments,
        } => called(
            world,
            inner,
            machine,
            receiver.get(),
            &method.text,
            arguments,
        ),
    }
}

/// The values of expressions, from left to right.
#[cycle(run)]
#[tactic(auto, unfolding(class_defs::specs::Expressions::values_of))]
fn values_of(
    world: &World<'_>,
    inner: u32,
    machine: &mut Machine,
    exprs: &Exprs,
) -> Result<Values, Halt>
    ensures { Does result machine.new (values_of (reading world.now) inner exprs.now machine.old) }
{
    let mut values = Values::new(world.program.alloc);
    for expr in exprs.as_slice() {
        values.push(value_of(world, inner, machine, expr)?)?;
    }
    Ok(values)
}

#[cycle(run)]
#[tactic(auto, unfolding(class_defs::specs::Calls::call))]
fn called(
    world: &World<'_>,
    inner: u32,
    machine: &mut Machine,
    receiver: &Expr,
    method: &Word,
    arguments: &Exprs,
) -> Result<Value, Halt>
    ensures { Does result machine.new (called (reading world.now) inner receiver.now method.now arguments.now machine.old) }
{
    let kind = type_of(&world.program, machine, receiver);
    let target = value_of(world, inner, machine, receiver)?;
    let values = values_of(world, inner, machine, arguments)?;
    match (kind, target) {
        (ExprType::Class(class), Value::Ref(oref)) => {
            call_object(world, inner, machine, class, oref, method, values)
        }
        (_, _) => fault(Fault::NullCall),
    }
}

#[cycle(run)]
#[tactic(auto, unfolding(class_defs::specs::Calls::call_object))]
fn call_object(
    world: &World<'_>,
    inner: u32,
    machine: &mut Machine,
    class: u16,
    oref: Oref,
    method: &Word,
    arguments: Values,
) -> Result<Value, Halt>
    ensures { Does result machine.new (call_object (reading world.now) inner class oref method.now arguments machine.old) }
{
    if machine.depth >= DEPTH_LIMIT {
        return fault(Fault::Depth);
    }
    let owners = owners_at(&world.program, class, oref, machine)?;
    let found = touch(world, machine, &owners, oref)?;
    if found != class {
        return fault(Fault::NullCall);
    }
    let this = Receiver {
        oref,
        class,
        owners,
    };
    match method_of(&world.program, class, method) {
        Some(method) => run_body(world, inner, machine, this, method, &arguments),
        None => fault(Fault::NullCall),
    }
}

/// Runs the body of a method with `this` and its parameters, and then gives the caller's back.
#[cycle(run)]
#[tactic(auto, unfolding(class_defs::specs::Calls::run_body))]
fn run_body(
    world: &World<'_>,
    inner: u32,
    machine: &mut Machine,
    this: Receiver,
    method: &Method,
    arguments: &Values,
) -> Result<Value, Halt>
    requires { machine.old.depth < 64 }
    ensures { Does result machine.new (run_body (reading world.now) inner this method.now arguments.now machine.old) }
{
    let locals = bound(&world.program, &method.parameters, arguments)?;
    let depth = machine.depth;
    let caller_locals = mem::replace(&mut machine.locals, locals);
    let caller = mem::replace(&mut machine.this, Some(this));
    machine.depth = depth + 1;
    let flow = block(world, inner, machine, &method.body)?;
    machine.depth = depth;
    machine.this = caller;
    machine.locals = caller_locals;
    Ok(result_of(&world.program, method, flow))
}

/// The statements of a block in order. A local ends with the block in which it was declared.
#[cycle(run)]
#[tactic(auto, unfolding(class_defs::specs::Statements::block_of))]
pub fn block(
    world: &World<'_>,
    inner: u32,
    machine: &mut Machine,
    stmts: &Block,
) -> Result<Flow, Halt>
    ensures { Does result machine.new (block (reading world.now) inner stmts.now machine.old) }
{
    let count = machine.locals.len();
    let flow = in_order(world, inner, machine, stmts.as_slice())?;
    machine.locals.truncate(count);
    Ok(flow)
}

#[cycle(run)]
fn in_order(
    world: &World<'_>,
    inner: u32,
    machine: &mut Machine,
    stmts: &[Stmt],
) -> Result<Flow, Halt>
    ensures { Does result machine.new (in_order (reading world.now) inner stmts.now machine.old) }
{
    for stmt in stmts {
        match execute(world, inner, machine, stmt)? {
            Flow::Next => {}
            Flow::Returned(value) => return Ok(Flow::Returned(value)),
        }
    }
    Ok(Flow::Next)
}

/// The execution of a statement, where nodes at most `nested` deep may stand inside one another, as above.
#[cycle(run)]
#[tactic(auto, using(crate::proofs::Depth::at_depth))]
fn execute(world: &World<'_>, nested: u32, machine: &mut Machine, stmt: &Stmt) -> Result<Flow, Halt>
    ensures { Does result machine.new (execute (reading world.now) nested stmt.now machine.old) }
{
    if nested <= RECURSION_END {
        return execute_by_steps(world, nested, machine, stmt);
    }
    statement(world, nested - 1, machine, stmt)
}

/// One statement, whose parts may be `inner` deep.
#[cycle(run)]
#[tactic(auto, unfolding(class_defs::specs::Statements::statement))]
fn statement(
    world: &World<'_>,
    inner: u32,
    machine: &mut Machine,
    stmt: &Stmt,
) -> Result<Flow, Halt>
    ensures { Does result machine.new (statement (reading world.now) inner stmt.now machine.old) }
{
    match stmt {
        Stmt::Var {
            type_name,
            name,
            line: _,
            value,
        } => {
            take_step(machine)?;
            let value = value_of(world, inner, machine, value)?;
            declare(
                machine,
                type_named(&world.program, type_name),
                &name.text,
                value,
            )?;
            Ok(Flow::Next)
        }
        Stmt::Assign {
            name,
            line: _,
            value,
        } => {
            take_step(machine)?;
            let value = value_of(world, inner, machine, value)?;
            assign_local(&mut machine.locals, &name.text, value);
            Ok(Flow::Next)
        }
        Stmt::FieldAssign {
            field,
            line: _,
            value,
        } => {
            take_step(machine)?;
            let value = value_of(world, inner, machine, value)?;
            assign_field(world, machine, &field.text, value)?;
            Ok(Flow::Next)
        }
        Stmt::Return { value } => {
            take_step(machine)?;
            let value = value_of(world, inner, machine, value)?;
            Ok(Flow::Returned(value))
        }
        Stmt::If { condition, then } => {
            take_step(machine)?;
            let value = value_of(world, inner, machine, condition)?;
            if holds(value) {
                block(world, inner, machine, then)
            } else {
                Ok(Flow::Next)
            }
        }
        Stmt::IfElse {
            condition,
            then,
            otherwise,
        } => {
            take_step(machine)?;
            let value = value_of(world, inner, machine, condition)?;
            if holds(value) {
                block(world, inner, machine, then)
            } else {
                block(world, inner, machine, otherwise)
            }
        }
        Stmt::While { condition, body } => repeat(world, inner, machine, condition, body),
        Stmt::Print { value } => {
            take_step(machine)?;
            let value = value_of(world, inner, machine, value)?;
            push_printed(value, &mut machine.printed)?;
            Ok(Flow::Next)
        }
        Stmt::Evaluate { value } => {
            take_step(machine)?;
            let _value = value_of(world, inner, machine, value)?;
            Ok(Flow::Next)
        }
    }
}

/// A loop. It takes a step for each test of its condition, so it can't test more often than there are
/// steps.
#[cycle(run)]
#[tactic(auto, using(crate::proofs::Depth::turns))]
fn repeat(
    world: &World<'_>,
    inner: u32,
    machine: &mut Machine,
    condition: &Expr,
    body: &Block,
) -> Result<Flow, Halt>
    ensures { Does result machine.new (repeat (reading world.now) inner 100001 condition.now body.now machine.old) }
{
    for _ in 0..100_001u32 {
        take_step(machine)?;
        let value = value_of(world, inner, machine, condition)?;
        if !holds(value) {
            return Ok(Flow::Next);
        }
        match block(world, inner, machine, body)? {
            Flow::Next => {}
            Flow::Returned(value) => return Ok(Flow::Returned(value)),
        }
    }
    fault(Fault::Steps)
}
