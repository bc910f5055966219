ghost use Rattle.std.specs.Prelude.{◌≡◌, ◌<◌, Option, Some};
ghost use Rattle.thor_value.specs.declared.names.Oref.{Oref};
ghost use Rattle.class_defs.specs.declared.store.Object.{Object};
ghost use Rattle.lang_small_steps.specs.Methods.{class_methods};
ghost use Rattle.lang_small_steps.specs.Reaches.{over};
ghost use Rattle.lang_small_steps.specs.Resume as spec;
ghost use Rattle.lang_small_steps.specs.Typed.{IsTyped};
ghost use Rattle.class_defs.specs.Types.{method_of};
ghost use Rattle.paused_eval.specs.Copies.{Keeps, Tied, at_hand, state};
ghost use Rattle.paused_eval.specs.Counted.{surplus};
ghost use Rattle.paused_eval.specs.Does.{AtNeed, Goes, Holds, Moves};

use crate::bodies::{Bodies, method_in};
use crate::moves::open_block;
use crate::objects::touch;
use class_defs::{DEPTH_LIMIT, Machine, Receiver};
use client_cache::Cache;
use lang_small_steps::{Doing, Frame, SharedBlock, SharedMethod, Stack};
use method_eval::{Halt, Program, fault, owners_at};
use std::mem;
use std::sync::ledger::Ledger;
use thor_value::{Fault, Oref, Values, Word};

/// A body begins, with `this` and its parameters.
fn open_body(
    program: &Program<'_>,
    machine: &mut Machine,
    stack: &mut Stack<Frame>,
    inner: u32,
    this: Receiver,
    method: &SharedMethod,
    arguments: &Values,
) -> Result<Doing, Halt>
    requires depth { machine.old.depth < 64 }
    requires typed { IsTyped program.now.schema.now.classes method.now }
    ensures does { (f : Oref → Option Object) → Moves result stack.new machine.old machine.new (spec.open_body (over program.now.schema.now f) inner this (Some method.now.method) arguments.now stack.old) }
    ensures steps { machine.new.steps ≡ machine.old.steps }
{
    let locals = method.bound(program.alloc, arguments)?;
    let body = SharedBlock::of(method.body())?;
    let depth = machine.depth;
    let caller_locals = mem::replace(&mut machine.locals, locals);
    let caller = mem::replace(&mut machine.this, Some(this));
    machine.depth = depth + 1;
    stack.push(Frame::BodyEnd {
        depth,
        this: caller,
        locals: caller_locals,
        result: method.result(),
    })?;
    open_block(machine, stack, inner, body)
}

/// A method is called whose object was read.
fn open_method<L: Ledger>(
    program: &Program<'_>,
    machine: &mut Machine,
    bodies: &Bodies<'_, L>,
    stack: &mut Stack<Frame>,
    inner: u32,
    this: Receiver,
    name: &Word,
    arguments: &Values,
) -> Result<Doing, Halt>
    requires depth { machine.old.depth < 64 }
    requires known { bodies.now.methods.now ≡ class_methods program.now.schema.now.classes }
    ensures opens { (f : Oref → Option Object) → Moves result stack.new machine.old machine.new (spec.open_body (over program.now.schema.now f) inner this (method_of program.now.schema.now.classes this.class name.now) arguments.now stack.old) }
    ensures steps { machine.new.steps ≡ machine.old.steps }
{
    match method_in(program, bodies, this.class, name) {
        Some(method) => open_body(program, machine, stack, inner, this, method, arguments),
        None => fault(Fault::NullCall),
    }
}

/// A call whose parts are evaluated begins.
#[tactic(auto, using(crate::proofs::Lifting::lifts, crate::proofs::Lifting::never_needs), unfolding(class_defs::specs::Calls::owners_at))]
pub fn enter<L: Ledger>(
    program: &Program<'_>,
    cache: &mut Cache,
    machine: &mut Machine,
    bodies: &mut Bodies<'_, L>,
    stack: &mut Stack<Frame>,
    inner: u32,
    class: u16,
    oref: Oref,
    method: &Word,
    arguments: &Values,
) -> Result<Doing, Halt>
    requires tied { Tied cache.old }
    requires known { bodies.old.methods.now ≡ class_methods program.now.schema.now.classes }
    ensures does { Goes result stack.new (state machine.new cache.new) (spec.enters (over program.now.schema.now (at_hand program.now.schema.now cache.old)) inner class oref method.now arguments.now stack.old (state machine.old cache.old)) }
    ensures stays { AtNeed result ((state machine.new cache.new ≡ state machine.old cache.old) × (stack.new ≡ stack.old)) }
    ensures tied { Holds result (Tied cache.new) }
    ensures kept { Holds result (Keeps cache.old cache.new) }
    ensures known { bodies.new.methods.now ≡ class_methods program.now.schema.now.classes }
    ensures work { Holds result (surplus bodies.new.work machine.new.steps ≡ surplus bodies.old.work machine.old.steps) }
{
    if machine.depth >= DEPTH_LIMIT {
        return fault(Fault::Depth);
    }
    let owners = owners_at(program, class, oref, machine)?;
    let found = touch(program, cache, machine, &owners, oref)?;
    if found != class {
        return fault(Fault::NullCall);
    }
    let this = Receiver {
        oref,
        class,
        owners,
    };
    open_method(
        program, machine, bodies, stack, inner, this, method, arguments,
    )
}
