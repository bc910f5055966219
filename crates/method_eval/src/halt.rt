ghost use Rattle.std.specs.Prelude.{◌≡◌};

use class_defs::Stop;
use thor_value::NoMemory;

/// Why an evaluation doesn't go on.
#[derive(Debug, Drop)]
pub enum Halt {
    Stopped(Stop),
    NoMemory,
}

impl From<NoMemory> for Halt {
    ghost use Rattle.method_eval.specs.declared.halt.Halt.TheVariants as halt;

    ghost from_gives = { λ _ made. made ≡ halt.NoMemory };

    fn from(_refused: NoMemory) -> Halt {
        Halt::NoMemory
    }
}
