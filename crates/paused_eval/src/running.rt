ghost use Rattle.std.specs.Prelude.{◌≡◌, List, IfOk, OnOk};
ghost use Rattle.thor_value.specs.FiniteMap.{empty};
ghost use Rattle.thor_value.specs.declared.names.Oref.{Oref};
ghost use Rattle.class_defs.specs.declared.statements.Stmt.{Stmt};
ghost use Rattle.lang_small_steps.specs.Methods.{class_methods};
ghost use Rattle.paused_eval.specs.Copies.{Keeps, Tied, at_hand, state_with, whole_state};
ghost use Rattle.paused_eval.specs.Counted.{surplus};
ghost use Rattle.paused_eval.specs.FromPages.{FromPages};
ghost use Rattle.paused_eval.specs.Standing.{CameTo, IsFault, Stands, is_done};

use crate::ahead::ahead;
use crate::bodies::Bodies;
use crate::came::Came;
use crate::moved::Moved;
use crate::small::small;
use class_defs::{Flow, Machine, Stop};
use client_cache::Cache;
use lang_small_steps::{Doing, Frame, Stack};
use method_eval::{Halt, Names, Program};
use std::sync::ledger::Ledger;
use thor_value::{Fault, NoMemory};

/// More small steps than any run makes: each step pays for at most six.
const SMALL_STEPS: u32 = 700_000;

/// Whether nothing is left to do.
fn is_ended(stack: &Stack<Frame>, doing: &Doing) -> bool
    ensures { result ≡ is_done doing.now stack.now }
{
    match doing {
        Doing::Give { flow: _ } => stack.is_empty(),
        _ => false,
    }
}

/// How small steps came to an end that were halted.
fn faulted(halt: Halt) -> Result<Came, NoMemory>
    ensures { IfOk result (λ came. IsFault came halt) }
{
    match halt {
        Halt::Stopped(Stop::Fault(fault)) => Ok(Came::Faulted { fault }),
        _ => Err(NoMemory),
    }
}

/// As much as plain recursion can do, and small steps between, up to an end, a fault, or what isn't at hand.
fn run<L: Ledger>(
    program: &Program<'_>,
    epoch: u32,
    cache: &mut Cache,
    names: &mut Names,
    machine: &mut Machine,
    bodies: &mut Bodies<'_, L>,
    stack: &mut Stack<Frame>,
    begun: Doing,
) -> Result<(Came, Doing), NoMemory>
    requires tied { Tied cache.old }
    requires names { FromPages names.old }
    requires known { bodies.old.methods.now ≡ class_methods program.now.schema.now.classes }
    ensures answers { (tx : List Stmt) → (given : List Oref) → Stands program.now.schema.now (at_hand program.now.schema.now cache.old) tx given (record { doing = begun; stack = stack.old }) (whole_state machine.old cache.old names.old)
        → IfOk result (λ ran. CameTo program.now.schema.now (at_hand program.now.schema.now cache.old) tx given ran.0 (record { doing = ran.1; stack = stack.new }) (whole_state machine.new cache.new names.new)) }
    ensures tied { OnOk result (Tied cache.new) }
    ensures kept { OnOk result (Keeps cache.old cache.new) }
    ensures names { FromPages names.new }
    ensures known { bodies.new.methods.now ≡ class_methods program.now.schema.now.classes }
    ensures work { OnOk result (surplus bodies.new.work machine.new.steps ≡ surplus bodies.old.work machine.old.steps) }
{
    let mut doing = begun;
    for _ in 0..SMALL_STEPS {
        doing = match ahead(program, epoch, cache, machine, bodies, stack, doing) {
            Ok(then) => {
                if is_ended(stack, &then) {
                    return Ok((Came::Ended, then));
                }
                match small(program, epoch, cache, names, machine, bodies, stack, then) {
                    Ok(Moved::To { doing: next }) => next,
                    Ok(
                        Moved::Waits {
                            doing: same,
                            oref,
                            owners,
                        },
                    ) => return Ok((Came::Waits { oref, owners }, same)),
                    Ok(Moved::WaitsForName { doing: same, repo }) => {
                        return Ok((Came::WaitsForName { repo }, same));
                    }
                    Err(halt) => {
                        let came = faulted(halt)?;
                        return Ok((came, Doing::Give { flow: Flow::Next }));
                    }
                }
            }
            Err(halt) => {
                let came = faulted(halt)?;
                return Ok((came, Doing::Give { flow: Flow::Next }));
            }
        };
    }
    Ok((
        Came::Faulted {
            fault: Fault::Steps,
        },
        doing,
    ))
}

/// The same over a client's copies and names. After `NoMemory` what the try has written is given up.
#[tactic(auto, using(crate::proofs::Hands::none_written))]
pub fn run_over<L: Ledger>(
    program: &Program<'_>,
    epoch: u32,
    cache: &mut Cache,
    names: &mut Names,
    machine: &mut Machine,
    bodies: &mut Bodies<'_, L>,
    stack: &mut Stack<Frame>,
    begun_with: Doing,
) -> Result<(Came, Doing), NoMemory>
    requires tied { Tied cache.old }
    requires names { FromPages names.old }
    requires known { bodies.old.methods.now ≡ class_methods program.now.schema.now.classes }
    ensures answers { (tx : List Stmt) → (given : List Oref) → Stands program.now.schema.now (at_hand program.now.schema.now cache.old) tx given (record { doing = begun_with; stack = stack.old }) (state_with machine.old cache.old names.old)
        → IfOk result (λ ran. CameTo program.now.schema.now (at_hand program.now.schema.now cache.old) tx given ran.0 (record { doing = ran.1; stack = stack.new }) (state_with machine.new cache.new names.new)) }
    ensures tied { Tied cache.new }
    ensures kept { OnOk result (Keeps cache.old cache.new) }
    ensures names { FromPages names.new }
    ensures work { OnOk result (surplus bodies.new.work machine.new.steps ≡ surplus bodies.old.work machine.old.steps) }
{
    match run(
        program, epoch, cache, names, machine, bodies, stack, begun_with,
    ) {
        Ok(ended) => Ok(ended),
        Err(NoMemory) => {
            cache.undo();
            Err(NoMemory)
        }
    }
}
