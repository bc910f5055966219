//! An evaluation by small steps over a stack of its own, to its end. It takes the same of a thread's stack however deep the
//! text is, so plain recursion goes on so where it has no room.

ghost use Rattle.std.specs.Prelude.{◌≡◌, []};
ghost use Rattle.method_eval.specs.Does.{Does};
ghost use Rattle.lang_bounded_eval.specs.Inner.{execute, value_of};
ghost use Rattle.lang_bounded_eval.specs.SmallSteps.{Leaves, Moves, frames, left_of, moved_to};
ghost use Rattle.method_eval.specs.Viewed.{reading};
ghost use Rattle.lang_small_steps.specs.Resume.{move, rest_of};
ghost use Rattle.lang_small_steps.specs.declared.frames.Doing.TheVariants as doing;

use crate::beginning_steps::{begin, enter, give, start};
use crate::frames::{Moved, Next, Waiting};
use crate::giving::{given, pop};
use class_defs::{At, Expr, Flow, Machine, Stmt};
use lang_small_steps::Stack;
use method_eval::{Halt, World, create, fault};
use thor_value::{Fault, Value, Word};

/// More small steps than any run makes: each step pays for at most six.
const SMALL_STEPS: u32 = 700_000;

#[tactic(auto, using(lang_small_steps::proofs::Nested::nested))]
fn evaluate<'a>(
    world: &World<'a>,
    machine: &mut Machine,
    stack: &mut Stack<Waiting<'a>>,
    nested: u32,
    expr: &'a Expr,
) -> Result<Next<'a>, Halt>
    ensures { Moves result stack.new machine.new (move (reading world.now) (doing.Evaluate nested expr.now) (frames stack.old) machine.old) }
{
    if nested == 0 {
        return fault(Fault::Steps);
    }
    start(world, machine, stack, nested - 1, expr)
}

#[tactic(auto, using(lang_small_steps::proofs::Nested::nested))]
fn do_statement<'a>(
    world: &World<'a>,
    machine: &mut Machine,
    stack: &mut Stack<Waiting<'a>>,
    nested: u32,
    stmt: &'a Stmt,
) -> Result<Next<'a>, Halt>
    ensures { Moves result stack.new machine.new (move (reading world.now) (doing.Execute nested stmt.now) (frames stack.old) machine.old) }
{
    if nested == 0 {
        return fault(Fault::Steps);
    }
    begin(world, machine, stack, nested - 1, stmt)
}

/// A new object is made.
fn make<'a>(
    world: &World<'a>,
    machine: &mut Machine,
    stack: &Stack<Waiting<'a>>,
    class: &'a Word,
    at: Option<At>,
) -> Result<Next<'a>, Halt>
    ensures { Moves result stack.now machine.new (move (reading world.now) (doing.Create class.now at) (frames stack.now) machine.old) }
{
    let _ = stack;
    give(create(world, machine, class, at)?)
}

/// What is done next, behind a small step that takes no end.
fn moved<'a>(came: Result<Next<'a>, Halt>) -> Result<Moved<'a>, Halt>
    ensures { result ≡ moved_to came.entry }
{
    match came {
        Ok(next) => Ok(Moved::To { next }),
        Err(halt) => Err(halt),
    }
}

/// What waits on the top is given this, or nothing waits.
#[tactic(auto, using(crate::proofs::SmallSteps::handing))]
fn hand_on<'a>(
    world: &World<'a>,
    machine: &mut Machine,
    stack: &mut Stack<Waiting<'a>>,
    flow: Flow,
) -> Result<Moved<'a>, Halt>
    ensures { Leaves result stack.new machine.new (reading world.now) (left_of (Next.Give flow) stack.old) machine.old }
{
    match stack.pop() {
        None => Ok(Moved::Ended { flow }),
        Some(waiting) => moved(pop(world, machine, stack, waiting, flow)),
    }
}

/// One small step.
#[tactic(auto, using(crate::proofs::SmallSteps::takes))]
fn small<'a>(
    world: &World<'a>,
    machine: &mut Machine,
    stack: &mut Stack<Waiting<'a>>,
    next: Next<'a>,
) -> Result<Moved<'a>, Halt>
    ensures { Leaves result stack.new machine.new (reading world.now) (left_of next.entry stack.old) machine.old }
{
    match next {
        Next::Evaluate { nested, expr } => moved(evaluate(world, machine, stack, nested, expr)),
        Next::Execute { nested, stmt } => moved(do_statement(world, machine, stack, nested, stmt)),
        Next::Create { class, at } => moved(make(world, machine, stack, class, at)),
        Next::Enter {
            nested,
            class,
            oref,
            method,
            arguments,
        } => {
            let came = enter(
                world, machine, stack, nested, class, oref, method, &arguments,
            );
            moved(came)
        }
        Next::Give { flow } => hand_on(world, machine, stack, flow),
    }
}

/// Small steps to the end of what is left.
#[tactic(auto, using(crate::proofs::SmallSteps::running))]
fn run_out<'a>(world: &World<'a>, machine: &mut Machine, begun: Next<'a>) -> Result<Flow, Halt>
    ensures { Does result machine.new (rest_of (reading world.now) (left_of begun.entry []) machine.old) }
{
    let mut stack = Stack::new(world.program.alloc);
    let mut next = begun;
    for _ in 0..SMALL_STEPS {
        next = match small(world, machine, &mut stack, next)? {
            Moved::To { next: then } => then,
            Moved::Ended { flow } => return Ok(flow),
        };
    }
    fault(Fault::Steps)
}

/// The value of an expression, where nodes at most `nested` deep may stand inside one another.
#[tactic(auto, using(crate::proofs::SmallSteps::value_came))]
pub fn value_by_steps(
    world: &World<'_>,
    nested: u32,
    machine: &mut Machine,
    expr: &Expr,
) -> Result<Value, Halt>
    ensures { Does result machine.new (value_of (reading world.now) nested expr.now machine.old) }
{
    let flow = run_out(world, machine, Next::Evaluate { nested, expr })?;
    Ok(given(flow))
}

/// The execution of a statement, where nodes at most `nested` deep may stand inside one another.
#[tactic(auto, using(crate::proofs::SmallSteps::statement_came))]
pub fn execute_by_steps(
    world: &World<'_>,
    nested: u32,
    machine: &mut Machine,
    stmt: &Stmt,
) -> Result<Flow, Halt>
    ensures { Does result machine.new (execute (reading world.now) nested stmt.now machine.old) }
{
    run_out(world, machine, Next::Execute { nested, stmt })
}
