ghost use Rattle.std.specs.Prelude.{◌≡◌, ◌≤◌, [], length, IfOk};
ghost use Rattle.thor_value.specs.FiniteMap.{keys};
ghost use Rattle.class_defs.specs.Run.{begun, execute_all};
ghost use Rattle.class_defs.specs.Stored.{in_epoch};
ghost use Rattle.method_eval.specs.Answers.{evaluation, ran_at, stored_at};
ghost use Rattle.method_eval.specs.Does.{Does};
ghost use Rattle.method_eval.specs.Names.{supply};
ghost use Rattle.method_eval.specs.Viewed.{reading};

use crate::limits::NESTED_LIMIT;
use crate::run::block;
use class_defs::{Block, Flow, Machine, Object, Schema, Stop};
use method_eval::{Halt, Program, Ran, View, World};
use std::alloc::Global;
use thor_value::{
    Answer, Fault, Ints, NoMemory, Obj, Oref, OrefMap, OrefSet, Orefs, Sequence, Writes,
};

pub(crate) fn begun(alloc: Global, view: &View) -> Result<Machine, NoMemory>
    ensures { IfOk result (λ machine. machine ≡ begun (supply view.now.names).waiting (supply view.now.names).stand_in) }
{
    Ok(Machine {
        steps: 0,
        depth: 0,
        this: None,
        locals: Sequence::new(alloc),
        reads: OrefSet::new(alloc),
        writes: OrefMap::new(alloc),
        created: Orefs::new(alloc),
        printed: Ints::new(alloc),
        names: view.names.supply(alloc)?,
    })
}

/// A transaction's statements, from a state on.
#[tactic(auto, unfolding(class_defs::specs::Run::execute_all))]
pub(crate) fn execute_all(
    world: &World<'_>,
    machine: &mut Machine,
    tx: &Block,
) -> Result<Flow, Halt>
    ensures { Does result machine.new (execute_all (reading world.now) tx.now machine.old) }
{
    block(world, NESTED_LIMIT, machine, tx)
}

fn stored(epoch: u32, written: (Oref, Object)) -> (Oref, Obj)
    ensures { result ≡ (written.0, in_epoch epoch written.1) }
{
    let (oref, object) = written;
    let Object { class, fields } = object;
    (
        oref,
        Obj {
            class,
            ver: epoch,
            fields,
        },
    )
}

fn stored_at(alloc: Global, epoch: u32, written: OrefMap<Object>) -> Result<Writes, NoMemory>
    ensures { IfOk result (λ writes. writes ≡ stored_at epoch written.pairs) }
{
    let pairs = written.into_pairs(alloc)?.into_vec();
    let writes: Vec<(Oref, Obj)> = pairs
        .into_iter()
        .map(|written| stored(epoch, written))
        .collect(alloc)?;
    Ok(Sequence::from_vec(writes))
}

fn done(alloc: Global, epoch: u32, machine: Machine) -> Result<Ran, NoMemory>
    ensures { IfOk result (λ ran. ran ≡ Ran.Done (Answer.Ints machine.printed) (keys machine.reads) (stored_at epoch machine.writes.pairs) machine.created) }
{
    let Machine {
        steps: _,
        depth: _,
        this,
        locals,
        reads,
        writes,
        created,
        printed,
        names,
    } = machine;
    drop(this);
    drop(locals);
    drop(names);
    Ok(Ran::Done {
        answer: Answer::Ints(printed),
        reads: reads.into_names(),
        writes: stored_at(alloc, epoch, writes)?,
        fresh: created,
    })
}

/// The names that a run has read, rising.
fn names_read(machine: Machine) -> Orefs
    ensures { result ≡ keys machine.reads }
{
    let Machine {
        steps: _,
        depth: _,
        this,
        locals,
        reads,
        writes,
        created,
        printed,
        names,
    } = machine;
    drop(this);
    drop(locals);
    drop(writes);
    drop(created);
    drop(printed);
    drop(names);
    reads.into_names()
}

/// What a run gives that ended with a fault.
fn failed(alloc: Global, fault: Fault, machine: Machine) -> Result<Ran, NoMemory>
    ensures { IfOk result (λ ran. ran ≡ Ran.Done (Answer.Fault fault) (keys machine.reads) [] []) }
{
    Ok(Ran::Done {
        answer: Answer::Fault(fault),
        reads: names_read(machine),
        writes: Writes::new(alloc),
        fresh: Orefs::new(alloc),
    })
}

/// What a run gives that ended so.
fn ran_at(
    alloc: Global,
    epoch: u32,
    outcome: Result<Flow, Stop>,
    machine: Machine,
) -> Result<Ran, NoMemory>
    ensures { IfOk result (λ ran. ran ≡ ran_at epoch outcome machine) }
{
    match outcome {
        Ok(_) => done(alloc, epoch, machine),
        Err(Stop::Fault(fault)) => failed(alloc, fault, machine),
        Err(Stop::Need { oref, owners }) => {
            drop(machine);
            Ok(Ran::Need { oref, owners })
        }
        Err(Stop::NeedName { repo }) => {
            drop(machine);
            Ok(Ran::NeedName { repo })
        }
    }
}

/// Evaluates a transaction over a view: exactly as its run over the objects at hand that aren't due.
///
/// What it costs follows the steps of the run, and not the number of objects in the view.
#[tactic(auto, unfolding(method_eval::specs::Answers::evaluation))]
pub fn eval<'a>(
    alloc: Global,
    tx: &Block,
    schema: &'a Schema,
    view: &'a View,
) -> Result<Ran, NoMemory>
    requires { length schema.now.classes ≤ 65536 }
    ensures { IfOk result (λ ran. ran ≡ evaluation tx.now schema.now view.now) }
{
    let world = World {
        program: Program { alloc, schema },
        objects: &view.objects,
    };
    let mut machine = begun(alloc, view)?;
    match execute_all(&world, &mut machine, tx) {
        Ok(flow) => ran_at(alloc, view.epoch, Ok(flow), machine),
        Err(Halt::Stopped(stop)) => ran_at(alloc, view.epoch, Err(stop), machine),
        Err(Halt::NoMemory) => {
            drop(machine);
            Err(NoMemory)
        }
    }
}
