ghost use Rattle.std.specs.Prelude.{◌≡◌, ◌≤◌, List, length, IfOk, OnOk, ◌==◌};
ghost use Rattle.std.specs.Cmp.Lexicographic.{pointwise};
ghost use Rattle.std.specs.List.{list_any};
ghost use Rattle.thor_value.specs.Names.{same_oref};
ghost use Rattle.class_defs.specs.Run.{takes};
ghost use Rattle.class_defs.specs.declared.store.Root.{Root};
ghost use Rattle.method_eval.specs.Answers.{evaluation};
ghost use Rattle.method_eval.specs.Names.{listed};
ghost use Rattle.serial_model.specs.Replaying.{RanOn, Settles};
ghost use Rattle.serial_model.specs.Whole.{IsFirst, IsOfItsEpoch, NoneDue};

use crate::whole_maps::overwrite;
use class_defs::{Block, Schema};
use lang_bounded_eval::eval;
use method_eval::{Names, Ran, View};
use std::alloc::Global;
use std::mem;
use thor_value::{Answer, NoMemory, Orefs, Writes};

fn same_names(left: &Orefs, right: &Orefs) -> bool
    ensures { result ≡ pointwise same_oref left.now right.now }
{
    left.as_slice() == right.as_slice()
}

fn has_stand_in(names: &Orefs) -> bool
    ensures { result ≡ list_any (λ x. x.repo == 255) names.now }
{
    for name in names.as_slice() {
        if name.repo == 255 {
            return true;
        }
    }
    false
}

/// Whether created objects took just these names, in their order, of which none is a stand-in name.
fn takes(created: &Orefs, names: &Orefs) -> bool
    ensures { result ≡ takes created.now names.now }
{
    same_names(created, names) && !has_stand_in(names)
}

/// Takes over what an evaluation on a whole store gave, where its new objects took just these names.
fn settle(
    view: &mut View,
    names: &Orefs,
    answer: Answer,
    writes: Writes,
    fresh: &Orefs,
) -> Result<Option<Answer>, NoMemory>
    ensures { IfOk result (λ taken. Settles names.now fresh.now writes view.old answer taken view.new) }
{
    match answer {
        Answer::Ints(ints) => {
            if !takes(fresh, names) {
                return Ok(None);
            }
            overwrite(&mut view.objects, writes)?;
            Ok(Some(Answer::Ints(ints)))
        }
        Answer::Fault(fault) => {
            if names.is_empty() {
                Ok(Some(Answer::Fault(fault)))
            } else {
                Ok(None)
            }
        }
    }
}

/// Evaluates a transaction over a view where its new objects take listed names, and stand-in names behind them.
/// The view stays as it is.
fn eval_with(
    alloc: Global,
    tx: &Block,
    schema: &Schema,
    view: &mut View,
    names: &Orefs,
) -> Result<Ran, NoMemory>
    requires { length schema.now.classes ≤ 65536 }
    ensures ran { IfOk result (λ ran. ran ≡ evaluation tx.now schema.now (record view.old { names = listed names.now })) }
    ensures view { view.new ≡ view.old }
{
    let kept = mem::replace(&mut view.names, Names::listed(alloc, names)?);
    let ran = eval(alloc, tx, schema, view);
    view.names = kept;
    ran
}

/// Runs a transaction on the whole store that a view has, its new objects taking just these names. No object of the store is
/// due, as after eager upgrades.
///
/// Gives the answer where the run is defined, and leaves the store behind it in the view; else the store is as it was.
/// Objects that were written at the view's epoch stay so: what the run writes is of that epoch.
pub fn run_on_current(
    alloc: Global,
    tx: &Block,
    schema: &Schema,
    view: &mut View,
    names: &Orefs,
) -> Result<Option<Answer>, NoMemory>
    requires few { length schema.now.classes ≤ 65536 }
    requires current { NoneDue schema.now view.old }
    ensures ran { IfOk result (λ answer. (roots : List Root) → RanOn schema.now tx.now names.now roots view.old answer view.new) }
    ensures epoch { OnOk result (view.new.epoch ≡ view.old.epoch) }
    ensures names { OnOk result (view.new.names ≡ view.old.names) }
    ensures versions { IsOfItsEpoch view.old → OnOk result (IsOfItsEpoch view.new) }
{
    match eval_with(alloc, tx, schema, view, names)? {
        Ran::Done {
            answer,
            reads: _,
            writes,
            fresh,
        } => settle(view, names, answer, writes, &fresh),
        Ran::Need { oref: _, owners: _ } => Ok(None),
        Ran::NeedName { repo: _ } => Ok(None),
    }
}
