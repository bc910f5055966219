ghost use Rattle.std.specs.Prelude.{◌≡◌};

use lang_small_steps::{Doing, Frame};
use thor_value::{Boxed, Fault, NoMemory, Sequence};

/// Frames, the innermost first.
pub type Frames = Sequence<Frame>;

/// Why an evaluation by plain recursion doesn't go on.
#[derive(Drop)]
pub enum Unwound {
    /// This is done next, in small steps, and the frames wait behind it. It lies in memory of its own, so that what comes
    /// of an evaluation is small.
    Later { doing: Boxed<Doing>, frames: Frames },
    Faulted { fault: Fault },
    NoMemory,
}

impl From<NoMemory> for Unwound {
    ghost use Rattle.paused_eval.specs.declared.unwound.Unwound.TheVariants as unwound;

    ghost from_gives = { λ _ made. made ≡ unwound.NoMemory };

    fn from(_refused: NoMemory) -> Unwound {
        Unwound::NoMemory
    }
}
