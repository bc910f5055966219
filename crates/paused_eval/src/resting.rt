//! The statements that are left of a block, by plain recursion.

ghost use Rattle.std.specs.Prelude.{◌≡◌};
ghost use Rattle.lang_small_steps.specs.Methods.{class_methods};
ghost use Rattle.lang_small_steps.specs.declared.limits.TheConstants.{RECURSION_LIMIT};
ghost use Rattle.paused_eval.specs.Copies.{Keeps, Tied, state};
ghost use Rattle.paused_eval.specs.Counted.{surplus};
ghost use Rattle.paused_eval.specs.Direct as spec;
ghost use Rattle.paused_eval.specs.Direct.{Directs, Lasts, directly, on};

use crate::bodies::Bodies;
use crate::direct_statements::execute;
use crate::unwound::Unwound;
use crate::waiting::behind_statement;
use class_defs::{Flow, Machine};
use client_cache::Cache;
use lang_small_steps::{RECURSION_LIMIT, SharedBlock};
use method_eval::Program;
use std::sync::ledger::Ledger;

/// The statements that are left of a block, in order, until one returns.
#[tactic(auto, using(crate::proofs::Directly::left_waiting, crate::proofs::Directly::same_world))]
pub fn rest_in_order<L: Ledger>(
    program: &Program<'_>,
    epoch: u32,
    cache: &mut Cache,
    machine: &mut Machine,
    bodies: &mut Bodies<'_, L>,
    inner: u32,
    rest: SharedBlock,
) -> Result<Flow, Unwound>
    requires tied { Tied cache.old }
    requires known { bodies.old.methods.now ≡ class_methods program.now.schema.now.classes }
    ensures does { Directs result (state machine.new cache.new) (spec.in_order (on program.now.schema.now cache.old) inner (directly (on program.now.schema.now cache.old) RECURSION_LIMIT inner) rest (state machine.old cache.old)) }
    ensures tied { Lasts result (Tied cache.new) }
    ensures kept { Lasts result (Keeps cache.old cache.new) }
    ensures known { bodies.new.methods.now ≡ class_methods program.now.schema.now.classes }
    ensures work { Lasts result (surplus bodies.new.work machine.new.steps ≡ surplus bodies.old.work machine.old.steps) }
{
    let mut left = rest;
    for _ in 0..usize::MAX {
        match left.split_first()? {
            None => return Ok(Flow::Next),
            Some((stmt, behind)) => {
                let came = execute(
                    program,
                    epoch,
                    cache,
                    machine,
                    bodies,
                    RECURSION_LIMIT,
                    inner,
                    stmt.get(),
                );
                drop(stmt);
                match came {
                    Ok(Flow::Next) => left = behind,
                    Ok(Flow::Returned(value)) => return Ok(Flow::Returned(value)),
                    Err(unwound) => return Err(behind_statement(unwound, inner, behind)),
                }
            }
        }
    }
    Err(Unwound::NoMemory)
}

/// The same where nothing was returned before them.
pub fn rest_unless_returned<L: Ledger>(
    program: &Program<'_>,
    epoch: u32,
    cache: &mut Cache,
    machine: &mut Machine,
    bodies: &mut Bodies<'_, L>,
    inner: u32,
    rest: SharedBlock,
    flow: Flow,
) -> Result<Flow, Unwound>
    requires tied { Tied cache.old }
    requires known { bodies.old.methods.now ≡ class_methods program.now.schema.now.classes }
    ensures does { Directs result (state machine.new cache.new) (spec.unless flow (spec.in_order (on program.now.schema.now cache.old) inner (directly (on program.now.schema.now cache.old) RECURSION_LIMIT inner) rest) (state machine.old cache.old)) }
    ensures tied { Lasts result (Tied cache.new) }
    ensures kept { Lasts result (Keeps cache.old cache.new) }
    ensures known { bodies.new.methods.now ≡ class_methods program.now.schema.now.classes }
    ensures work { Lasts result (surplus bodies.new.work machine.new.steps ≡ surplus bodies.old.work machine.old.steps) }
{
    match flow {
        Flow::Returned(value) => {
            drop(rest);
            Ok(Flow::Returned(value))
        }
        Flow::Next => rest_in_order(program, epoch, cache, machine, bodies, inner, rest),
    }
}
