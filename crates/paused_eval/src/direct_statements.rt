//! Statements, blocks and loops by plain recursion, as far as the objects are at hand and there is room (`direct`).

ghost use Rattle.std.specs.Prelude.{◌≡◌, map};
ghost use Rattle.class_defs.specs.declared.statements.Stmt.{out-Stmt};
ghost use Rattle.lang_small_steps.specs.Methods.{class_methods};
ghost use Rattle.lang_small_steps.specs.declared.frames.Frame.TheVariants as frame;
ghost use Rattle.paused_eval.specs.Copies.{Keeps, Tied, state};
ghost use Rattle.paused_eval.specs.Counted.{surplus};
ghost use Rattle.paused_eval.specs.Direct as spec;
ghost use Rattle.paused_eval.specs.Direct.{Directs, Lasts, directly, on};

use crate::bodies::Bodies;
use crate::direct::value_of;
use crate::moves::first_part;
use crate::objects::assign_field;
use crate::unwound::Unwound;
use crate::waiting::{
    behind_block, behind_first_part, behind_statement, behind_test, behind_turn, execute_later,
    test_later,
};
use class_defs::{Block, Expr, Flow, Machine, STEP_LIMIT, Stmt, push_printed};
use client_cache::Cache;
use lang_small_steps::SharedBlock;
use method_eval::{Program, assign_local, declare, holds, type_named};
use std::sync::ledger::Ledger;
use thor_value::{NoMemory, Value};

/// The statements of a block in order. A local ends with the block in which it was declared.
#[cycle(direct)]
#[tactic(auto, using(crate::proofs::Directly::left_waiting, crate::proofs::Directly::same_world))]
pub fn block<L: Ledger>(
    program: &Program<'_>,
    epoch: u32,
    cache: &mut Cache,
    machine: &mut Machine,
    bodies: &mut Bodies<'_, L>,
    room: u32,
    inner: u32,
    stmts: &Block,
) -> Result<Flow, Unwound>
    requires tied { Tied cache.old }
    requires known { bodies.old.methods.now ≡ class_methods program.now.schema.now.classes }
    ensures does { Directs result (state machine.new cache.new) (spec.block (on program.now.schema.now cache.old) inner (directly (on program.now.schema.now cache.old) room inner) stmts.now (state machine.old cache.old)) }
    ensures tied { Lasts result (Tied cache.new) }
    ensures kept { Lasts result (Keeps cache.old cache.new) }
    ensures known { bodies.new.methods.now ≡ class_methods program.now.schema.now.classes }
    ensures work { Lasts result (surplus bodies.new.work machine.new.steps ≡ surplus bodies.old.work machine.old.steps) }
{
    let count = machine.locals.len();
    match in_order(program, epoch, cache, machine, bodies, room, inner, stmts) {
        Ok(flow) => {
            machine.locals.truncate(count);
            Ok(flow)
        }
        Err(unwound) => Err(behind_block(unwound, count)),
    }
}

/// Statements in order, until one returns.
#[cycle(direct)]
#[tactic(auto, using(crate::proofs::Directly::left_waiting, crate::proofs::Directly::same_world))]
fn in_order<L: Ledger>(
    program: &Program<'_>,
    epoch: u32,
    cache: &mut Cache,
    machine: &mut Machine,
    bodies: &mut Bodies<'_, L>,
    room: u32,
    inner: u32,
    stmts: &Block,
) -> Result<Flow, Unwound>
    requires tied { Tied cache.old }
    requires known { bodies.old.methods.now ≡ class_methods program.now.schema.now.classes }
    ensures does { Directs result (state machine.new cache.new) (spec.in_order (on program.now.schema.now cache.old) inner (directly (on program.now.schema.now cache.old) room inner) stmts.now (state machine.old cache.old)) }
    ensures tied { Lasts result (Tied cache.new) }
    ensures kept { Lasts result (Keeps cache.old cache.new) }
    ensures known { bodies.new.methods.now ≡ class_methods program.now.schema.now.classes }
    ensures work { Lasts result (surplus bodies.new.work machine.new.steps ≡ surplus bodies.old.work machine.old.steps) }
{
    for place in 0..usize::MAX {
        match SharedBlock::at(stmts, place) {
            None => return Ok(Flow::Next),
            Some(stmt) => match execute(program, epoch, cache, machine, bodies, room, inner, stmt) {
                Ok(Flow::Next) => {}
                Ok(Flow::Returned(value)) => return Ok(Flow::Returned(value)),
                Err(unwound) => {
                    let rest = SharedBlock::behind(stmts, place)?;
                    return Err(behind_statement(unwound, inner, rest));
                }
            },
        }
    }
    Err(Unwound::NoMemory)
}

/// A statement whose nodes may be `nested` deep. Where there is no `room` for it inside the nodes that are open, small steps
/// go on.
#[cycle(direct)]
#[tactic(auto, using(crate::proofs::Directly::at_depth, crate::proofs::Directly::left_later, crate::proofs::Counting::counted_step))]
pub fn execute<L: Ledger>(
    program: &Program<'_>,
    epoch: u32,
    cache: &mut Cache,
    machine: &mut Machine,
    bodies: &mut Bodies<'_, L>,
    room: u32,
    nested: u32,
    stmt: &Stmt,
) -> Result<Flow, Unwound>
    requires tied { Tied cache.old }
    requires known { bodies.old.methods.now ≡ class_methods program.now.schema.now.classes }
    ensures does { Directs result (state machine.new cache.new) ((directly (on program.now.schema.now cache.old) room nested).execute stmt.now (state machine.old cache.old)) }
    ensures tied { Lasts result (Tied cache.new) }
    ensures kept { Lasts result (Keeps cache.old cache.new) }
    ensures known { bodies.new.methods.now ≡ class_methods program.now.schema.now.classes }
    ensures work { Lasts result (surplus bodies.new.work machine.new.steps ≡ surplus bodies.old.work machine.old.steps) }
{
    if room == 0 {
        return execute_later(program.alloc, nested, stmt);
    }
    if nested == 0 || machine.steps >= STEP_LIMIT {
        return execute_later(program.alloc, nested, stmt);
    }
    machine.steps += 1;
    bodies.work.tick();
    statement(
        program,
        epoch,
        cache,
        machine,
        bodies,
        room - 1,
        nested - 1,
        stmt,
    )
}

/// A statement whose step is taken.
#[cycle(direct)]
#[tactic(auto, using(crate::proofs::Directly::left_waiting, crate::proofs::Directly::same_world))]
fn statement<L: Ledger>(
    program: &Program<'_>,
    epoch: u32,
    cache: &mut Cache,
    machine: &mut Machine,
    bodies: &mut Bodies<'_, L>,
    room: u32,
    inner: u32,
    node: &Stmt,
) -> Result<Flow, Unwound>
    requires tied { Tied cache.old }
    requires known { bodies.old.methods.now ≡ class_methods program.now.schema.now.classes }
    ensures does { Directs result (state machine.new cache.new) (spec.statement (on program.now.schema.now cache.old) inner (directly (on program.now.schema.now cache.old) room inner) (out-Stmt node.now) (state machine.old cache.old)) }
    ensures tied { Lasts result (Tied cache.new) }
    ensures kept { Lasts result (Keeps cache.old cache.new) }
    ensures known { bodies.new.methods.now ≡ class_methods program.now.schema.now.classes }
    ensures work { Lasts result (surplus bodies.new.work machine.new.steps ≡ surplus bodies.old.work machine.old.steps) }
{
    match value_of(
        program,
        epoch,
        cache,
        machine,
        bodies,
        room,
        inner,
        first_part(node),
    ) {
        Ok(value) => effect(
            program, epoch, cache, machine, bodies, room, inner, node, value,
        ),
        Err(unwound) => Err(behind_first_part(program, unwound, inner, node)),
    }
}

/// What a statement does with the value of its first part.
#[cycle(direct)]
#[tactic(auto, using(crate::proofs::Nodes::stmt_nodes))]
fn effect<L: Ledger>(
    program: &Program<'_>,
    epoch: u32,
    cache: &mut Cache,
    machine: &mut Machine,
    bodies: &mut Bodies<'_, L>,
    room: u32,
    inner: u32,
    node: &Stmt,
    value: Value,
) -> Result<Flow, Unwound>
    requires tied { Tied cache.old }
    requires known { bodies.old.methods.now ≡ class_methods program.now.schema.now.classes }
    ensures does { Directs result (state machine.new cache.new) (spec.effect (on program.now.schema.now cache.old) inner (directly (on program.now.schema.now cache.old) room inner) (out-Stmt node.now) value (state machine.old cache.old)) }
    ensures tied { Lasts result (Tied cache.new) }
    ensures kept { Lasts result (Keeps cache.old cache.new) }
    ensures known { bodies.new.methods.now ≡ class_methods program.now.schema.now.classes }
    ensures work { Lasts result (surplus bodies.new.work machine.new.steps ≡ surplus bodies.old.work machine.old.steps) }
{
    match node {
        Stmt::Var {
            type_name,
            name,
            ..
        } => {
            let kind = type_named(program, type_name);
            declare(machine, kind, &name.text, value)?;
            Ok(Flow::Next)
        }
        Stmt::Assign { name, .. } => {
            assign_local(&mut machine.locals, &name.text, value);
            Ok(Flow::Next)
        }
        Stmt::FieldAssign { field, .. } => {
            assign_field(program, epoch, cache, machine, &field.text, value)?;
            Ok(Flow::Next)
        }
        Stmt::Return { .. } => Ok(Flow::Returned(value)),
        Stmt::If { then, .. } => {
            if holds(value) {
                block(program, epoch, cache, machine, bodies, room, inner, then)
            } else {
                Ok(Flow::Next)
            }
        }
        Stmt::IfElse {
            then,
            otherwise,
            ..
        } => {
            if holds(value) {
                block(program, epoch, cache, machine, bodies, room, inner, then)
            } else {
                block(
                    program, epoch, cache, machine, bodies, room, inner, otherwise,
                )
            }
        }
        Stmt::While { condition, body } => {
            turns(
                program, epoch, cache, machine, bodies, room, inner, condition, body, value,
            )
        }
        Stmt::Print { .. } => {
            push_printed(value, &mut machine.printed)?;
            Ok(Flow::Next)
        }
        Stmt::Evaluate { .. } => Ok(Flow::Next),
    }
}

/// The body of a loop, whose condition holds.
#[cycle(direct)]
#[tactic(auto, using(crate::proofs::Directly::left_waiting))]
fn turn_body<L: Ledger>(
    program: &Program<'_>,
    epoch: u32,
    cache: &mut Cache,
    machine: &mut Machine,
    bodies: &mut Bodies<'_, L>,
    room: u32,
    inner: u32,
    turns: u32,
    condition: &Expr,
    body: &Block,
) -> Result<Flow, Unwound>
    requires tied { Tied cache.old }
    requires known { bodies.old.methods.now ≡ class_methods program.now.schema.now.classes }
    ensures does { Directs result (state machine.new cache.new) (spec.part (spec.block (on program.now.schema.now cache.old) inner (directly (on program.now.schema.now cache.old) room inner) body.now) (frame.Again inner turns condition.now body.now) spec.done (state machine.old cache.old)) }
    ensures tied { Lasts result (Tied cache.new) }
    ensures kept { Lasts result (Keeps cache.old cache.new) }
    ensures known { bodies.new.methods.now ≡ class_methods program.now.schema.now.classes }
    ensures work { Lasts result (surplus bodies.new.work machine.new.steps ≡ surplus bodies.old.work machine.old.steps) }
{
    match block(program, epoch, cache, machine, bodies, room, inner, body) {
        Ok(flow) => Ok(flow),
        Err(unwound) => Err(behind_turn(unwound, inner, turns, condition, body)),
    }
}

/// The next test of a loop, which takes a step.
#[cycle(direct)]
#[tactic(auto, using(crate::proofs::Directly::left_waiting, crate::proofs::Directly::at_turn, crate::proofs::Counting::counted_step))]
fn test_again<L: Ledger>(
    program: &Program<'_>,
    epoch: u32,
    cache: &mut Cache,
    machine: &mut Machine,
    bodies: &mut Bodies<'_, L>,
    room: u32,
    inner: u32,
    turns: u32,
    condition: &Expr,
    body: &Block,
) -> Result<Value, Unwound>
    requires tied { Tied cache.old }
    requires known { bodies.old.methods.now ≡ class_methods program.now.schema.now.classes }
    ensures does { Directs result (state machine.new cache.new) (spec.tests (on program.now.schema.now cache.old) inner (directly (on program.now.schema.now cache.old) room inner) turns condition.now body.now (state machine.old cache.old)) }
    ensures tied { Lasts result (Tied cache.new) }
    ensures kept { Lasts result (Keeps cache.old cache.new) }
    ensures known { bodies.new.methods.now ≡ class_methods program.now.schema.now.classes }
    ensures work { Lasts result (surplus bodies.new.work machine.new.steps ≡ surplus bodies.old.work machine.old.steps) }
{
    if turns == 0 || machine.steps >= STEP_LIMIT {
        return test_later(program.alloc, inner, turns, condition, body);
    }
    machine.steps += 1;
    bodies.work.tick();
    match value_of(
        program, epoch, cache, machine, bodies, room, inner, condition,
    ) {
        Ok(value) => Ok(value),
        Err(unwound) => Err(behind_test(unwound, inner, turns - 1, condition, body)),
    }
}

/// A loop whose first test has given this value.
#[cycle(direct)]
#[tactic(auto, using(crate::proofs::Directly::same_world))]
fn turns<L: Ledger>(
    program: &Program<'_>,
    epoch: u32,
    cache: &mut Cache,
    machine: &mut Machine,
    bodies: &mut Bodies<'_, L>,
    room: u32,
    inner: u32,
    condition: &Expr,
    body: &Block,
    tested: Value,
) -> Result<Flow, Unwound>
    requires tied { Tied cache.old }
    requires known { bodies.old.methods.now ≡ class_methods program.now.schema.now.classes }
    ensures does { Directs result (state machine.new cache.new) (spec.turn (on program.now.schema.now cache.old) inner (directly (on program.now.schema.now cache.old) room inner) 100000 condition.now body.now tested (state machine.old cache.old)) }
    ensures tied { Lasts result (Tied cache.new) }
    ensures kept { Lasts result (Keeps cache.old cache.new) }
    ensures known { bodies.new.methods.now ≡ class_methods program.now.schema.now.classes }
    ensures work { Lasts result (surplus bodies.new.work machine.new.steps ≡ surplus bodies.old.work machine.old.steps) }
{
    let mut value = tested;
    for count in 0..100_001u32 {
        if !holds(value) {
            return Ok(Flow::Next);
        }
        let turns = 100_000 - count;
        match turn_body(
            program, epoch, cache, machine, bodies, room, inner, turns, condition, body,
        )? {
            Flow::Next => {}
            Flow::Returned(value) => return Ok(Flow::Returned(value)),
        }
        match test_again(
            program, epoch, cache, machine, bodies, room, inner, turns, condition, body,
        ) {
            Ok(next) => value = next,
            Err(unwound) => return Err(unwound),
        }
    }
    Err(Unwound::NoMemory)
}
