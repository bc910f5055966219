use crate::knowledge::View;
use crate::naming::Naming;
use atomic_table::TableRule;
use std::marker::PhantomData;

/// The rule of the board. Its key has the numbers of repositories and of clients.
pub struct BoardRule<N>(PhantomData<N>);

impl<S, N: Naming> TableRule<S, View<N::Item, N::Call>, (u8, u8)> for BoardRule<N> {
    ghost use Rattle.seen_board.specs.Rule.{Consistent, first_view};

    ghost holds = { λ key. Consistent N.meaning key.0 };

    ghost first = { λ key. first_view key.0 key.1 };
}
