ghost use Rattle.std.specs.Prelude.{◌≡◌, ◌<◌, []};
ghost use Rattle.seen_board.specs.Clauses.{knowledge};
ghost use Rattle.seen_board.specs.Steps.{IsCalm};

use crate::knowledge::View;
use crate::naming::Naming;
use atomic_table::Seat;

/// A copy of what an owner or a client had seen. It owns nothing, so it can neither grow nor send.
#[derive(Drop)]
pub struct Pass<N: Naming> {
    /// The seat.
    pub seat: Seat<N::Kept, View<N::Item, N::Call>>,
    ghost free: { seat.me.1 ≡ [] },
    ghost alone: { ((knowledge seat).items.owned ≡ []) × ((knowledge seat).calls.owned ≡ []) },
    ghost calm: { IsCalm seat.me.0 },
    ghost room: { 0 < seat.table_id.words },
}
