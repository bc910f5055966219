ghost use Rattle.std.specs.Prelude.{◌≡◌, List, Option};
ghost use Rattle.thor_value.specs.declared.names.Oref.{Oref};
ghost use Rattle.class_defs.specs.Steps as steps;
ghost use Rattle.class_defs.specs.Steps.{step};
ghost use Rattle.class_defs.specs.declared.expressions.Expr.TheOpen.{Expr-F};
ghost use Rattle.class_defs.specs.declared.store.Object.{Object};
ghost use Rattle.lang_small_steps.specs.Methods.{class_methods};
ghost use Rattle.lang_small_steps.specs.Reaches.{over};
ghost use Rattle.lang_small_steps.specs.Resume as spec;
ghost use Rattle.lang_small_steps.specs.Resume.{move};
ghost use Rattle.lang_small_steps.specs.declared.frames.Frame.{Frame};
ghost use Rattle.paused_eval.specs.Copies.{Keeps, Tied, at_hand, state, whole_state};
ghost use Rattle.paused_eval.specs.Counted.{surplus};
ghost use Rattle.paused_eval.specs.Does.{Holds, Moves, Stepped};
ghost use Rattle.paused_eval.specs.FromPages.{FromPages};
ghost use Rattle.paused_eval.specs.Standing.{Steps, moved_to};

use crate::bodies::Bodies;
use crate::entering::enter;
use crate::moved::Moved;
use crate::moves::{self, begin, give, pass, take_step};
use crate::objects::{assign_field, create, field_value};
use crate::popping::{field_assigned, pop};
use crate::starting::{field_read, start};
use class_defs::{At, Expr, Flow, Machine, Stop};
use client_cache::Cache;
use lang_small_steps::{Doing, Frame, SharedStmt, Stack};
use method_eval::{Halt, Names, Program, fault};
use std::sync::ledger::Ledger;
use thor_value::{Fault, Oref, StepCount, Values, Word};

/// Takes one step.
#[tactic(auto, using(crate::proofs::Lifting::lift_step))]
fn take_step_over<L: Ledger>(
    machine: &mut Machine,
    work: &mut StepCount<L>,
    cache: &Cache,
) -> Result<(), Halt>
    ensures step { Stepped result (state machine.old cache.now) (state machine.new cache.now) }
    ensures work { surplus work.new machine.new.steps ≡ surplus work.old machine.old.steps }
{
    let _ = cache;
    take_step(machine, work)
}

/// The value of a field of `this`.
#[tactic(auto, unfolding(class_defs::specs::Steps::step))]
fn field<L: Ledger>(
    program: &Program<'_>,
    cache: &mut Cache,
    machine: &mut Machine,
    work: &mut StepCount<L>,
    name: &Word,
) -> Result<Doing, Halt>
    requires tied { Tied cache.old }
    ensures does { (fs : List Frame) → Moves result fs (state machine.old cache.old) (state machine.new cache.new) (steps.◌>>◌ step (spec.start (over program.now.schema.now (at_hand program.now.schema.now cache.old)) 0 (Expr-F.Field (record { text = name.now; line = 0 })) fs)) }
    ensures tied { Holds result (Tied cache.new) }
    ensures kept { Holds result (Keeps cache.old cache.new) }
    ensures work { Holds result (surplus work.new machine.new.steps ≡ surplus work.old machine.old.steps) }
{
    take_step_over(machine, work, cache)?;
    give(field_value(program, cache, machine, name))
}

#[tactic(auto, using(crate::proofs::Lifting::lifts, lang_small_steps::proofs::Nested::nested))]
fn evaluate<L: Ledger>(
    program: &Program<'_>,
    cache: &mut Cache,
    machine: &mut Machine,
    work: &mut StepCount<L>,
    stack: &mut Stack<Frame>,
    nested: u32,
    expr: &Expr,
) -> Result<Doing, Halt>
    requires tied { Tied cache.old }
    ensures does { Moves result stack.new (state machine.old cache.old) (state machine.new cache.new) (move (over program.now.schema.now (at_hand program.now.schema.now cache.old)) (Doing.Evaluate nested expr.now) stack.old) }
    ensures tied { Holds result (Tied cache.new) }
    ensures kept { Holds result (Keeps cache.old cache.new) }
    ensures work { Holds result (surplus work.new machine.new.steps ≡ surplus work.old machine.old.steps) }
{
    if nested == 0 {
        return fault(Fault::Steps);
    }
    if let Some(name) = field_read(expr) {
        return field(program, cache, machine, work, name);
    }
    start(program, machine, work, stack, nested - 1, expr)
}

#[tactic(auto, using(lang_small_steps::proofs::Nested::nested))]
fn execute<L: Ledger>(
    program: &Program<'_>,
    machine: &mut Machine,
    work: &mut StepCount<L>,
    stack: &mut Stack<Frame>,
    nested: u32,
    stmt: &SharedStmt,
) -> Result<Doing, Halt>
    ensures does { (f : Oref → Option Object) → Moves result stack.new machine.old machine.new (move (over program.now.schema.now f) (Doing.Execute nested stmt.now) stack.old) }
    ensures work { Holds result (surplus work.new machine.new.steps ≡ surplus work.old machine.old.steps) }
{
    if nested == 0 {
        return fault(Fault::Steps);
    }
    begin(program, machine, work, stack, nested - 1, stmt.get())
}

/// A statement begins, wherever the objects lie that the run has written.
#[tactic(auto, using(crate::proofs::Lifting::lifts))]
fn execute_over<L: Ledger>(
    program: &Program<'_>,
    cache: &Cache,
    machine: &mut Machine,
    work: &mut StepCount<L>,
    stack: &mut Stack<Frame>,
    nested: u32,
    stmt: &SharedStmt,
) -> Result<Doing, Halt>
    ensures does { Moves result stack.new (state machine.old cache.now) (state machine.new cache.now) (move (over program.now.schema.now (at_hand program.now.schema.now cache.now)) (Doing.Execute nested stmt.now) stack.old) }
    ensures work { Holds result (surplus work.new machine.new.steps ≡ surplus work.old machine.old.steps) }
{
    let _ = cache;
    execute(program, machine, work, stack, nested, stmt)
}

/// A new object is made, where there is a name for it.
fn make(
    program: &Program<'_>,
    epoch: u32,
    cache: &mut Cache,
    names: &mut Names,
    machine: &mut Machine,
    class: Word,
    at: Option<At>,
) -> Result<Moved, Halt>
    requires tied { Tied cache.old }
    requires names { FromPages names.old }
    ensures does { (fs : List Frame) → Steps result (Doing.Create class at) fs (whole_state machine.old cache.old names.old) fs (whole_state machine.new cache.new names.new) (move (over program.now.schema.now (at_hand program.now.schema.now cache.old)) (Doing.Create class at) fs (whole_state machine.old cache.old names.old)) }
    ensures tied { Holds result (Tied cache.new) }
    ensures kept { Holds result (Keeps cache.old cache.new) }
    ensures names { FromPages names.new }
    ensures steps { machine.new.steps ≡ machine.old.steps }
{
    match create(program, epoch, cache, names, machine, &class, at) {
        Ok(value) => Ok(Moved::To {
            doing: Doing::Give {
                flow: Flow::Returned(value),
            },
        }),
        Err(Halt::Stopped(Stop::NeedName { repo })) => Ok(Moved::WaitsForName {
            doing: Doing::Create { class, at },
            repo,
        }),
        Err(halt) => Err(halt),
    }
}

/// A call begins, where its object is at hand.
fn call<L: Ledger>(
    program: &Program<'_>,
    cache: &mut Cache,
    machine: &mut Machine,
    bodies: &mut Bodies<'_, L>,
    stack: &mut Stack<Frame>,
    nested: u32,
    class: u16,
    oref: Oref,
    method: Word,
    arguments: Values,
) -> Result<Moved, Halt>
    requires tied { Tied cache.old }
    requires known { bodies.old.methods.now ≡ class_methods program.now.schema.now.classes }
    ensures does { Steps result (Doing.Enter nested class oref method arguments) stack.old (state machine.old cache.old) stack.new (state machine.new cache.new) (move (over program.now.schema.now (at_hand program.now.schema.now cache.old)) (Doing.Enter nested class oref method arguments) stack.old (state machine.old cache.old)) }
    ensures tied { Holds result (Tied cache.new) }
    ensures kept { Holds result (Keeps cache.old cache.new) }
    ensures known { bodies.new.methods.now ≡ class_methods program.now.schema.now.classes }
    ensures work { Holds result (surplus bodies.new.work machine.new.steps ≡ surplus bodies.old.work machine.old.steps) }
{
    match enter(
        program, cache, machine, bodies, stack, nested, class, oref, &method, &arguments,
    ) {
        Ok(doing) => Ok(Moved::To { doing }),
        Err(
            Halt::Stopped(
                Stop::Need {
                    oref: needed,
                    owners,
                },
            ),
        ) => Ok(Moved::Waits {
            doing: Doing::Enter {
                nested,
                class,
                oref,
                method,
                arguments,
            },
            oref: needed,
            owners,
        }),
        Err(halt) => Err(halt),
    }
}

/// A field of `this` is given its value.
fn assign(
    program: &Program<'_>,
    epoch: u32,
    cache: &mut Cache,
    machine: &mut Machine,
    name: &Word,
    flow: Flow,
) -> Result<Doing, Halt>
    requires tied { Tied cache.old }
    ensures does { (fs : List Frame) → Moves result fs (state machine.old cache.old) (state machine.new cache.new) (spec.pop (over program.now.schema.now (at_hand program.now.schema.now cache.old)) (Frame.FieldAssign name.now) flow fs) }
    ensures tied { Holds result (Tied cache.new) }
    ensures kept { Holds result (Keeps cache.old cache.new) }
    ensures steps { machine.new.steps ≡ machine.old.steps }
{
    assign_field(program, epoch, cache, machine, name, moves::given(flow))?;
    pass()
}

/// Gives the frame that was on the top what it waits for.
#[tactic(auto, using(crate::proofs::Lifting::lifts))]
pub fn resume<L: Ledger>(
    program: &Program<'_>,
    epoch: u32,
    cache: &mut Cache,
    machine: &mut Machine,
    work: &mut StepCount<L>,
    stack: &mut Stack<Frame>,
    frame: Frame,
    flow: Flow,
) -> Result<Doing, Halt>
    requires tied { Tied cache.old }
    ensures does { Moves result stack.new (state machine.old cache.old) (state machine.new cache.new) (spec.pop (over program.now.schema.now (at_hand program.now.schema.now cache.old)) frame flow stack.old) }
    ensures tied { Holds result (Tied cache.new) }
    ensures kept { Holds result (Keeps cache.old cache.new) }
    ensures work { Holds result (surplus work.new machine.new.steps ≡ surplus work.old machine.old.steps) }
{
    if let Some(field) = field_assigned(&frame) {
        let name = *field;
        drop(frame);
        return assign(program, epoch, cache, machine, &name, flow);
    }
    pop(program, machine, work, stack, frame, flow)
}

fn given<L: Ledger>(
    program: &Program<'_>,
    epoch: u32,
    cache: &mut Cache,
    machine: &mut Machine,
    work: &mut StepCount<L>,
    stack: &mut Stack<Frame>,
    flow: Flow,
) -> Result<Doing, Halt>
    requires tied { Tied cache.old }
    ensures does { Moves result stack.new (state machine.old cache.old) (state machine.new cache.new) (move (over program.now.schema.now (at_hand program.now.schema.now cache.old)) (Doing.Give flow) stack.old) }
    ensures tied { Holds result (Tied cache.new) }
    ensures kept { Holds result (Keeps cache.old cache.new) }
    ensures work { Holds result (surplus work.new machine.new.steps ≡ surplus work.old machine.old.steps) }
{
    match stack.pop() {
        None => Ok(Doing::Give { flow }),
        Some(frame) => resume(program, epoch, cache, machine, work, stack, frame, flow),
    }
}

/// Where no object and no name is needed, what is done next.
fn moved_to(came: Result<Doing, Halt>) -> Result<Moved, Halt>
    ensures { result ≡ moved_to came }
{
    match came {
        Ok(doing) => Ok(Moved::To { doing }),
        Err(halt) => Err(halt),
    }
}

/// One small step.
pub fn small<L: Ledger>(
    program: &Program<'_>,
    epoch: u32,
    cache: &mut Cache,
    names: &mut Names,
    machine: &mut Machine,
    bodies: &mut Bodies<'_, L>,
    stack: &mut Stack<Frame>,
    doing: Doing,
) -> Result<Moved, Halt>
    requires tied { Tied cache.old }
    requires names { FromPages names.old }
    requires known { bodies.old.methods.now ≡ class_methods program.now.schema.now.classes }
    ensures does { Steps result doing stack.old (whole_state machine.old cache.old names.old) stack.new (whole_state machine.new cache.new names.new) (move (over program.now.schema.now (at_hand program.now.schema.now cache.old)) doing stack.old (whole_state machine.old cache.old names.old)) }
    ensures tied { Holds result (Tied cache.new) }
    ensures kept { Holds result (Keeps cache.old cache.new) }
    ensures names { FromPages names.new }
    ensures known { bodies.new.methods.now ≡ class_methods program.now.schema.now.classes }
    ensures work { Holds result (surplus bodies.new.work machine.new.steps ≡ surplus bodies.old.work machine.old.steps) }
{
    match doing {
        Doing::Evaluate { nested, expr } => {
            let work = &mut bodies.work;
            moved_to(evaluate(program, cache, machine, work, stack, nested, &expr))
        }
        Doing::Execute { nested, stmt } => {
            let work = &mut bodies.work;
            moved_to(execute_over(program, cache, machine, work, stack, nested, &stmt))
        }
        Doing::Create { class, at } => make(program, epoch, cache, names, machine, class, at),
        Doing::Enter {
            nested,
            class,
            oref,
            method,
            arguments,
        } => call(
            program, cache, machine, bodies, stack, nested, class, oref, method, arguments,
        ),
        Doing::Give { flow } => {
            let work = &mut bodies.work;
            moved_to(given(program, epoch, cache, machine, work, stack, flow))
        }
    }
}
