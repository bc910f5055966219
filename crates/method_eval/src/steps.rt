ghost use Rattle.std.specs.Prelude.{◌≡◌};
ghost use Rattle.class_defs.specs.Steps.{step};
ghost use Rattle.method_eval.specs.Does.{Does};

use crate::halt::Halt;
use class_defs::{Machine, STEP_LIMIT, Stop};
use thor_value::Fault;

/// Stops with a fault.
pub fn fault<T>(fault: Fault) -> Result<T, Halt>
    ensures { result ≡ Err (Halt.Stopped (Stop.Fault fault)) }
{
    Err(Halt::Stopped(Stop::Fault(fault)))
}

/// Takes one step.
#[tactic(auto, unfolding(class_defs::specs::Steps::step))]
pub fn take_step(machine: &mut Machine) -> Result<(), Halt>
    ensures { Does result machine.new (step machine.old) }
{
    if machine.steps < STEP_LIMIT {
        machine.steps += 1;
        Ok(())
    } else {
        fault(Fault::Steps)
    }
}
