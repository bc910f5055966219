ghost use Rattle.std.specs.Prelude.{◌≡◌, ◌<◌, ◌≤◌, [], length, IfOk};
ghost use Rattle.seen_board.specs.Clauses.{IsFresh, knowledge, looks};
ghost use Rattle.seen_board.specs.Knowledge.{Coherent, LiesIn, both};
ghost use Rattle.seen_board.specs.Rows.{EachOf};
ghost use Rattle.seen_board.specs.Rule.{first_view};
ghost use Rattle.seen_board.specs.Steps.{IsCalm};

use crate::client_pass::ClientPass;
use crate::knowledge::View;
use crate::making::{make_clients, make_owners};
use crate::naming::Naming;
use crate::owner::Owner;
use crate::rule::BoardRule;
use crate::steps::{Compares, Joins};
use atomic_table::{Seat, Table};
use std::alloc::Global;
use thor_value::NoMemory;

/// The greatest number of repositories.
pub(crate) const REPOS: usize = 8;

/// One word for each repository: the length of its history. Any thread may read and step with the
/// seats that it has; no lock is taken. A board is given up by `close` or by `discard`.
pub struct Board<N: Naming> {
    /// The words, and the rule that each step keeps.
    pub table: Table<N::Kept, View<N::Item, N::Call>, (u8, u8), BoardRule<N>, Global>,
    ghost counted: { table.shared.key.0 ≡ table.shared.table_id.words },
    ghost bare: { table.shared.table_id.slots ≡ 0 },
}

impl<N: Naming> Board<N> {
    /// A board for 1 to 8 repositories and for these clients, numbered from 0, with an owner for each
    /// repository and a pass for each client. All histories are empty and no call was sent.
    ///
    /// After `NoMemory` nothing is left.
    pub fn new(
        alloc: Global,
        repos: u8,
        clients: u8,
    ) -> Result<(Board<N>, Vec<Owner<N>>, Vec<ClientPass<N>>), NoMemory>
        requires { (0 < repos) × (repos ≤ 8) }
        ensures words { IfOk result (λ b. b.0.table.shared.table_id.words ≡ repos) }
        ensures counts { IfOk result (λ b. (length b.1.items ≡ repos) × (length b.2.items ≡ clients)) }
        ensures owners { IfOk result (λ b. EachOf (λ r o. (o.repo ≡ r) × IsFresh b.0.table.shared.table_id o.seat) b.1.items) }
        ensures clients { IfOk result (λ b. EachOf (λ k p. (p.client ≡ k) × IsFresh b.0.table.shared.table_id p.seat) b.2.items) }
    {
        let (board, mut chief) = Board::open(alloc, repos, clients)?;
        let Ok(passes) = make_clients(alloc, &board, &mut chief, clients, repos) else {
            board.discard();
            return Err(NoMemory);
        };
        let Ok(owners) = make_owners(alloc, &board, chief, repos) else {
            board.discard();
            return Err(NoMemory);
        };
        Ok((board, owners, passes))
    }

    // A board whose histories are empty, and the seat that owns all of them.
    fn open(
        alloc: Global,
        repos: u8,
        clients: u8,
    ) -> Result<(Board<N>, Seat<N::Kept, View<N::Item, N::Call>>), NoMemory>
        requires { repos ≤ 8 }
        ensures { IfOk result (λ b. (b.1.table_id ≡ b.0.table.shared.table_id) × (b.0.table.shared.table_id.words ≡ repos) × (b.1.me ≡ (first_view repos clients, []))) }
    {
        let zeros = [0u64; REPOS];
        let words = &zeros[..usize::from(repos)];
        let (table, seat) = Table::of_words(alloc, words, &(repos, clients))?;
        Ok((Board { table }, seat))
    }

    /// Gives the board up, and tells nothing.
    pub fn discard(self) {
        let Self { table } = self;
        table.close().free();
    }

    // What both own, and the longer of two lists, which both old lists begin.
    pub(crate) fn take_in(
        &self,
        seat: &mut Seat<N::Kept, View<N::Item, N::Call>>,
        other: Seat<N::Kept, View<N::Item, N::Call>>,
    )
        requires board { (seat.old.table_id ≡ self.now.table.shared.table_id) × (other.table_id ≡ self.now.table.shared.table_id) }
        requires free { other.me.1 ≡ [] }
        requires some { 0 < self.now.table.shared.table_id.words }
        ensures table { seat.new.table_id ≡ seat.old.table_id }
        ensures free { seat.new.me.1 ≡ seat.old.me.1 }
        ensures looks { looks seat.new ≡ looks seat.old }
        ensures knows { knowledge seat.new ≡ both (knowledge seat.old) (knowledge other) }
        ensures calm { IsCalm seat.new.me.0 }
        ensures mine { LiesIn (knowledge seat.old) (knowledge seat.new) }
        ensures theirs { LiesIn (knowledge other) (knowledge seat.new) }
        ensures coherent { Coherent N.meaning (knowledge seat.new) }
    {
        self.table.shared.join_seat::<Joins>(seat, other);
        self.table.shared.load::<Compares<N>>(seat, 0);
    }
}
