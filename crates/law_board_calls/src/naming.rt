use crate::calls::Call;
use crate::items::TraceItem;
use seen_board::Naming;
use std::marker::PhantomData;

/// What lies under the lock of a repository, and what its port asks of a call beside what is said
/// here: kinds, classes, granted pages and texts of a request.
pub trait Served {
    ghost use Rattle.std.specs.Prelude.{List, ℕ};
    ghost use Rattle.law_board_calls.specs.declared.calls.Call.{Call};
    ghost use Rattle.law_board_calls.specs.Justified.{StaysAsked};
    ghost use Rattle.spec_trace.specs.Trace.{Item};

    // The trace of the repository.
    ghost trace: { Self → List Item };

    // What the traces of all repositories have to show for the call.
    ghost asks: { (ℕ → List Item) → Call → Type 0 };

    // It is still shown when the traces have grown.
    ghost stays: { StaysAsked asks };
}

/// The items and calls of the system, for the board of history lengths.
pub struct CallNaming<S>(PhantomData<S>);

impl<S: Served> Naming for CallNaming<S> {
    type Item = TraceItem;

    type Kept = S;

    type Call = Call;

    ghost use Rattle.std.specs.Prelude.{map};
    ghost use Rattle.law_board_calls.specs.Items.{recorded};
    ghost use Rattle.law_board_calls.specs.Naming.{calls, calls_last};

    ghost items = { λ kept. map recorded (S.trace kept) };

    ghost meaning = { calls S.asks };

    ghost lasts = { calls_last S.asks S.stays };
}
