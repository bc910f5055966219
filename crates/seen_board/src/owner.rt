ghost use Rattle.std.specs.Prelude.{◌≡◌, ◌≢◌, ℕ, ◌-◌, ◌<◌, ◌^◌, [], ◌∷◌, length};
ghost use Rattle.seen_board.specs.Clauses.{Added, IsCopy, Learnt, MayGrow, StillMay, history, knowledge};
ghost use Rattle.seen_board.specs.Knowledge.{Coherent};
ghost use Rattle.seen_board.specs.Steps.{IsCalm};

use crate::board::Board;
use crate::knowledge::View;
use crate::naming::Naming;
use crate::pass::Pass;
use crate::steps::{Copies, Grows};
use atomic_table::Seat;

/// The one seat that knows the whole history of its repository. It lies under the repository's
/// lock.
#[derive(Drop)]
pub struct Owner<N: Naming> {
    /// The repository, from 0.
    pub repo: u8,
    /// The seat.
    pub seat: Seat<N::Kept, View<N::Item, N::Call>>,
    count: u64,
    ghost free: { seat.me.1 ≡ [] },
    ghost owned: { (knowledge seat).items.owned ≡ repo ∷ [] },
    ghost calm: { IsCalm seat.me.0 },
    ghost room: { repo < seat.table_id.words },
    ghost counted: { count ≡ length (history seat repo) },
}

impl<N: Naming> Owner<N> {
    // The owner of a repository whose history is empty.
    pub(crate) fn of(repo: u8, seat: Seat<N::Kept, View<N::Item, N::Call>>) -> Owner<N>
        requires room { repo < seat.table_id.words }
        requires free { seat.me.1 ≡ [] }
        requires owned { (knowledge seat).items.owned ≡ repo ∷ [] }
        requires calm { IsCalm seat.me.0 }
        requires fresh { history seat repo ≡ [] }
        ensures { (result.repo ≡ repo) × (result.seat ≡ seat) }
    {
        Owner {
            repo,
            seat,
            count: 0,
        }
    }

    /// The next item of what is kept stands in the history, and the word counts it.
    ///
    /// The item needs no call, or its call was sent and makes it at this place; and where it shows a
    /// client, its call stands behind those that made that client's items before.
    pub fn grow(&mut self, board: &Board<N>, kept: &N::Kept)
        requires board { self.old.seat.table_id ≡ board.now.table.shared.table_id }
        requires room { length (history self.old.seat self.old.repo) < 2 ^ 64 - 1 }
        requires next { MayGrow N.meaning (N.items kept.now) (knowledge self.old.seat) self.old.repo }
        ensures same { (self.new.repo ≡ self.old.repo) × (self.new.seat.table_id ≡ self.old.seat.table_id) }
        ensures calls { (knowledge self.new.seat).calls ≡ (knowledge self.old.seat).calls }
        ensures others { (r : ℕ) → r ≢ self.old.repo → history self.new.seat r ≡ history self.old.seat r }
        ensures added { Added (N.items kept.now) (history self.old.seat self.old.repo) (history self.new.seat self.old.repo) }
        ensures coherent { Coherent N.meaning (knowledge self.new.seat) }
    {
        let word = usize::from(self.repo);
        let count = self.count;
        board
            .table
            .shared
            .compare_exchange_with::<Grows<N>>(&mut self.seat, word, count, count + 1, kept);
        self.count = count + 1;
    }

    /// A copy of what the owner has seen.
    pub fn note(&mut self, board: &Board<N>) -> Pass<N>
        requires { self.old.seat.table_id ≡ board.now.table.shared.table_id }
        ensures same { (self.new.repo ≡ self.old.repo) × (self.new.seat.table_id ≡ self.old.seat.table_id) × (knowledge self.new.seat ≡ knowledge self.old.seat) }
        ensures table { result.seat.table_id ≡ self.old.seat.table_id }
        ensures copy { IsCopy (knowledge self.old.seat) (knowledge result.seat) }
    {
        let seat = board.table.shared.split_seat::<Copies>(&mut self.seat);
        Pass { seat }
    }

    /// Takes in what a pass has seen. The owner's own history stays, and what might stand next in it
    /// still may.
    pub fn learn(&mut self, board: &Board<N>, other: Pass<N>)
        requires board { self.old.seat.table_id ≡ board.now.table.shared.table_id }
        requires other { other.seat.table_id ≡ board.now.table.shared.table_id }
        ensures same { (self.new.repo ≡ self.old.repo) × (self.new.seat.table_id ≡ self.old.seat.table_id) }
        ensures own { history self.new.seat self.old.repo ≡ history self.old.seat self.old.repo }
        ensures learnt { Learnt (knowledge self.old.seat) (knowledge other.seat) (knowledge self.new.seat) }
        ensures coherent { Coherent N.meaning (knowledge self.new.seat) }
        ensures may { StillMay N.meaning self.old.repo (knowledge self.old.seat) (knowledge self.new.seat) }
    {
        let Pass { seat } = other;
        board.take_in(&mut self.seat, seat);
    }
}
