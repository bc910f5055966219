//! Decisions that were forgotten.

ghost use Rattle.spec_trace.specs.Calls.{forgets, is_forgotten};
ghost use Rattle.spec_trace.specs.Trace.{M};
ghost use Rattle.std.specs.Prelude.{◌≡◌};
ghost use Rattle.model_reading.specs.Items.{read, trace_of};

use crate::item::Item;
use spec_trace::Mark;
use thor_value::Ts;

fn forgets_by(mark: &Mark, tx: Ts) -> bool
    ensures { result ≡ forgets tx (M mark.now) }
{
    match mark {
        Mark::Forgot { tx: other } => tx.cmp(other).is_eq(),
        Mark::Connected { .. }
        | Mark::Fetched { .. }
        | Mark::Granted { .. }
        | Mark::Took { .. }
        | Mark::Drew { .. }
        | Mark::Refused { .. } => false,
    }
}

/// Whether an item forgets the decision to commit a transaction.
fn forgets(item: &Item, tx: Ts) -> bool
    ensures { result ≡ forgets tx (read item.now) }
{
    match item {
        Item::Entry { .. } => false,
        Item::Mark { mark } => forgets_by(mark, tx),
    }
}

/// Whether the decision to commit a transaction was forgotten.
pub fn is_forgotten(items: &[Item], tx: Ts) -> bool
    ensures { result ≡ is_forgotten (trace_of items.now) tx }
{
    for item in items {
        if forgets(item, tx) {
            return true;
        }
    }
    false
}
