//! The end of a board: one seat takes over all the others, and the words are read off.

ghost use Rattle.std.specs.Prelude.{◌≡◌, ℕ, ◌<◌, ◌≤◌, true, length, slice_index};
ghost use mathlib.Core.List.{IsPrefix};
ghost use Rattle.seen_board.specs.Clauses.{calls_of, history, knowledge};
ghost use Rattle.seen_board.specs.Knowledge.{Coherent, LiesIn, at, owns};
ghost use Rattle.seen_board.specs.Rows.{EachOf};
ghost use Rattle.seen_board.specs.declared.knowledge.Knowledge.{Knowledge};

use crate::board::{Board, REPOS};
use crate::client_pass::ClientPass;
use crate::knowledge::View;
use crate::naming::Naming;
use crate::owner::Owner;
use atomic_table::Seat;

/// How long the history of each repository was at the end.
#[derive(Clone, Copy, Debug)]
pub struct Lengths {
    /// By repository. The numbers of repositories that the board didn't have are 0.
    pub words: [u64; 8],
}

impl<N: Naming> Board<N> {
    /// Ends the board, with all its owners and the passes of its clients in their order. It gives the
    /// length of each history.
    ///
    /// Whatever any of them has seen of a repository begins its owner's history, and what any has
    /// seen of a client's calls begins that client's own. The owners' histories and the clients' calls
    /// belong together.
    pub fn close(self, mut owners: Vec<Owner<N>>, passes: Vec<ClientPass<N>>) -> Lengths
        requires some { (0 < self.table.shared.table_id.words) × (self.table.shared.table_id.words ≤ 8) }
        requires count { length owners.items ≡ self.table.shared.table_id.words }
        requires owners { EachOf (λ r o. (o.repo ≡ r) × (o.seat.table_id ≡ self.table.shared.table_id)) owners.items }
        requires passes { EachOf (λ k p. (p.client ≡ k) × (p.seat.table_id ≡ self.table.shared.table_id)) passes.items }
        ensures lengths { EachOf (λ r o. slice_index result.words r ≡ length (history o.seat r)) owners.items }
        ensures owners { EachOf (λ _ a. EachOf (λ r o. IsPrefix (history a.seat r) (history o.seat r)) owners.items) owners.items }
        ensures passes { EachOf (λ _ a. EachOf (λ r o. IsPrefix (history a.seat r) (history o.seat r)) owners.items) passes.items }
        ensures calls { EachOf (λ _ a. EachOf (λ k p. IsPrefix (calls_of a.seat k) (calls_of p.seat k)) passes.items) passes.items }
        ensures owner_calls { EachOf (λ _ a. EachOf (λ k p. IsPrefix (calls_of a.seat k) (calls_of p.seat k)) passes.items) owners.items }
        ensures coherent { (h : Knowledge N.Item N.Call) × Coherent N.meaning h × EachOf (λ r o. at h.items r ≡ history o.seat r) owners.items × EachOf (λ k p. at h.calls k ≡ calls_of p.seat k) passes.items }
    {
        let Some(last) = owners.pop() else {
            unreachable!()
        };
        let chief = gather_owners(&self, last.seat, owners);
        let chief = gather_passes(&self, chief, passes);
        lengths_of(self, chief)
    }
}

// Takes over what the owners have.
fn gather_owners<N: Naming>(
    board: &Board<N>,
    mut chief: Seat<N::Kept, View<N::Item, N::Call>>,
    mut owners: Vec<Owner<N>>,
) -> Seat<N::Kept, View<N::Item, N::Call>>
    requires board { chief.table_id ≡ board.now.table.shared.table_id }
    requires some { 0 < board.now.table.shared.table_id.words }
    requires owners { EachOf (λ _ o. o.seat.table_id ≡ board.now.table.shared.table_id) owners.items }
    ensures table { result.table_id ≡ chief.table_id }
    ensures chief { LiesIn (knowledge chief) (knowledge result) }
    ensures owners { EachOf (λ _ o. LiesIn (knowledge o.seat) (knowledge result)) owners.items }
{
    while let Some(owner) = owners.pop() {
        board.take_in(&mut chief, owner.seat);
    }
    chief
}

// Takes over what the passes have.
fn gather_passes<N: Naming>(
    board: &Board<N>,
    mut chief: Seat<N::Kept, View<N::Item, N::Call>>,
    mut passes: Vec<ClientPass<N>>,
) -> Seat<N::Kept, View<N::Item, N::Call>>
    requires board { chief.table_id ≡ board.now.table.shared.table_id }
    requires some { 0 < board.now.table.shared.table_id.words }
    requires passes { EachOf (λ _ p. p.seat.table_id ≡ board.now.table.shared.table_id) passes.items }
    ensures table { result.table_id ≡ chief.table_id }
    ensures chief { LiesIn (knowledge chief) (knowledge result) }
    ensures passes { EachOf (λ _ p. LiesIn (knowledge p.seat) (knowledge result)) passes.items }
{
    while let Some(pass) = passes.pop() {
        board.take_in(&mut chief, pass.seat);
    }
    chief
}

// The words of the table, where one seat has all that there is.
fn lengths_of<N: Naming>(board: Board<N>, chief: Seat<N::Kept, View<N::Item, N::Call>>) -> Lengths
    requires some { board.table.shared.table_id.words ≤ 8 }
    requires board { chief.table_id ≡ board.table.shared.table_id }
    ensures lengths { (r : ℕ) → r < board.table.shared.table_id.words → owns (knowledge chief).items r ≡ true → slice_index result.words r ≡ length (history chief r) }
    ensures coherent { Coherent N.meaning (knowledge chief) }
{
    let Board { table } = board;
    let count = table.word_count();
    let closed = table.close_with(chief);
    let mut words = [0u64; REPOS];
    for repo in 0..count {
        words[repo] = closed.word(repo);
    }
    closed.free();
    Lengths { words }
}
