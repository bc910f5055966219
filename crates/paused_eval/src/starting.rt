ghost use Rattle.std.specs.Prelude.{◌≡◌, ◌∷◌, map, Option, None, IfOk, OnOk};
ghost use Rattle.std.specs.Option.{option_copied};
ghost use Rattle.thor_value.specs.declared.names.Oref.{Oref};
ghost use Rattle.class_defs.specs.Steps as steps;
ghost use Rattle.class_defs.specs.Steps.{step};
ghost use Rattle.class_defs.specs.declared.expressions.Expr.{out-Expr};
ghost use Rattle.class_defs.specs.declared.store.Object.{Object};
ghost use Rattle.lang_small_steps.specs.Reaches.{over};
ghost use Rattle.lang_small_steps.specs.Resume as spec;
ghost use Rattle.paused_eval.specs.Counted.{surplus};
ghost use Rattle.paused_eval.specs.Does.{Holds, Moves, field_read};

use crate::moves::{give, go_into, go_into_for, take_step};
use class_defs::{At, Expr, ExprType, Exprs, Machine, Operator, literal_value};
use lang_small_steps::{Doing, Frame, SharedExprs, Stack};
use method_eval::{Halt, Program, named_value, type_of};
use std::sync::ledger::Ledger;
use thor_value::{NoMemory, StepCount, TryCopy, Value, Word};

/// The name of the field that a node reads.
#[tactic(auto, using(crate::proofs::Nodes::expr_nodes))]
pub fn field_read(node: &Expr) -> Option<&Word>
    ensures { option_copied result ≡ field_read (out-Expr node.now) }
{
    match node {
        Expr::Field { name } => Some(&name.text),
        Expr::Literal { value: _, line: _ } => None,
        Expr::Null { line: _ } => None,
        Expr::This { line: _ } => None,
        Expr::Variable { name: _ } => None,
        Expr::New { class: _, at: _ } => None,
        Expr::Parens { inner: _, line: _ } => None,
        Expr::Negate {
            operand: _,
            line: _,
        } => None,
        Expr::Binary {
            operator: _,
            left: _,
            right: _,
            line: _,
        } => None,
        Expr::Call {
            receiver: _,
            method: _,
            arguments: _,
        } => None,
    }
}

/// An object is to be made.
fn create(class: Word, at: Option<At>) -> Doing
    ensures { result ≡ Doing.Create class at }
{
    Doing::Create { class, at }
}

/// The operand of a sign is evaluated.
fn negate(stack: &mut Stack<Frame>, inner: u32, operand: &Expr) -> Result<Doing, NoMemory>
    ensures doing { IfOk result (λ doing. doing ≡ Doing.Evaluate inner operand.now) }
    ensures stack { OnOk result (stack.new ≡ Frame.Negate ∷ stack.old) }
{
    go_into_for(stack, Frame::Negate, inner, operand)
}

/// The left side of an operator is evaluated first.
fn combine(
    stack: &mut Stack<Frame>,
    inner: u32,
    operator: Operator,
    left: &Expr,
    right: &Expr,
) -> Result<Doing, NoMemory>
    ensures doing { IfOk result (λ doing. doing ≡ Doing.Evaluate inner left.now) }
    ensures stack { OnOk result (stack.new ≡ Frame.Right inner operator right.now ∷ stack.old) }
{
    let frame = Frame::Right {
        nested: inner,
        operator,
        right: right.copy()?,
    };
    go_into_for(stack, frame, inner, left)
}

/// The receiver of a call is evaluated first.
fn call(
    stack: &mut Stack<Frame>,
    inner: u32,
    kind: ExprType,
    receiver: &Expr,
    method: &Word,
    arguments: &Exprs,
) -> Result<Doing, NoMemory>
    ensures doing { IfOk result (λ doing. doing ≡ Doing.Evaluate inner receiver.now) }
    ensures stack { OnOk result (stack.new ≡ Frame.Callee inner kind method.now arguments.now ∷ stack.old) }
{
    let frame = Frame::Callee {
        nested: inner,
        kind,
        method: *method,
        arguments: SharedExprs::of(arguments)?,
    };
    go_into_for(stack, frame, inner, receiver)
}

/// What a node of an expression does first, whose step is taken. It isn't a field.
#[tactic(auto, using(crate::proofs::Nodes::expr_nodes))]
fn first(
    program: &Program<'_>,
    machine: &Machine,
    stack: &mut Stack<Frame>,
    inner: u32,
    node: &Expr,
) -> Result<Doing, Halt>
    requires { field_read (out-Expr node.now) ≡ None }
    ensures { (f : Oref → Option Object) → Moves result stack.new machine.now machine.now (spec.start (over program.now.schema.now f) inner (out-Expr node.now) stack.old) }
{
    match node {
        Expr::Literal { value, line: _ } => give(literal_value(*value)),
        Expr::Null { line: _ } => give(Value::Null),
        Expr::This { line: _ } => give(match &machine.this {
            Some(this) => Value::Ref(this.oref),
            None => Value::Null,
        }),
        Expr::Field { name: _ } => unreachable!(),
        Expr::Variable { name } => give(named_value(program, machine, &name.text)),
        Expr::New { class, at } => Ok(create(class.text, *at)),
        Expr::Parens {
            inner: part,
            line: _,
        } => Ok(go_into(inner, part.get())?),
        Expr::Negate { operand, line: _ } => Ok(negate(stack, inner, operand.get())?),
        Expr::Binary {
            operator,
            left,
            right,
            line: _,
        } => Ok(combine(stack, inner, *operator, left.get(), right.get())?),
        Expr::Call {
            receiver,
            method,
            arguments,
        } => {
            let kind = type_of(program, machine, receiver.get());
            Ok(call(stack, inner, kind, receiver.get(), &method.text, arguments)?)
        }
    }
}

/// A node of an expression begins, whose parts may be `inner` deep. It isn't a field.
#[tactic(auto, unfolding(class_defs::specs::Steps::step))]
pub fn start<L: Ledger>(
    program: &Program<'_>,
    machine: &mut Machine,
    work: &mut StepCount<L>,
    stack: &mut Stack<Frame>,
    inner: u32,
    node: &Expr,
) -> Result<Doing, Halt>
    requires { field_read (out-Expr node.now) ≡ None }
    ensures does { (f : Oref → Option Object) → Moves result stack.new machine.old machine.new (steps.◌>>◌ step (spec.start (over program.now.schema.now f) inner (out-Expr node.now) stack.old)) }
    ensures work { Holds result (surplus work.new machine.new.steps ≡ surplus work.old machine.old.steps) }
{
    take_step(machine, work)?;
    first(program, machine, stack, inner, node)
}
