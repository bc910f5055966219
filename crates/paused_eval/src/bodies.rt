ghost use Rattle.std.specs.Prelude.{◌≡◌, option_map, IfSome};
ghost use Rattle.std.specs.Option.{option_copied};
ghost use Rattle.class_defs.specs.Types.{method_of};
ghost use Rattle.lang_small_steps.specs.Methods.{class_methods};
ghost use Rattle.lang_small_steps.specs.Typed.{IsTyped};

use lang_small_steps::{ClassMethods, SharedMethod, shared_method};
use method_eval::Program;
use std::sync::ledger::Ledger;
use thor_value::{StepCount, Word};

/// The methods of a run's schema, whose bodies are shared, and the count of the nodes that it evaluates.
#[derive(Drop)]
pub struct Bodies<'a, L: Ledger> {
    pub methods: &'a ClassMethods,
    pub work: StepCount<L>,
}

/// The method with this name of the class with this number.
pub fn method_in<'a, L: Ledger>(
    program: &Program<'_>,
    bodies: &Bodies<'a, L>,
    class: u16,
    name: &Word,
) -> Option<&'a SharedMethod>
    requires known { bodies.now.methods.now ≡ class_methods program.now.schema.now.classes }
    ensures found { option_map (λ m. m.method) (option_copied result) ≡ method_of program.now.schema.now.classes class name.now }
    ensures typed { IfSome (option_copied result) (λ m. IsTyped program.now.schema.now.classes m) }
{
    let _alloc = program.alloc;
    shared_method(bodies.methods, class, name)
}
