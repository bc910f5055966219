//! The steps that a client makes under the lock of a repository, before and after its call there.

ghost use Rattle.std.specs.Prelude.{◌≡◌, ℕ, ◌-◌, ◌<◌, ◌^◌, Some, [], ◌∷◌, ◌++◌, length, slice_get};
ghost use mathlib.Core.List.{IsPrefix};
ghost use Rattle.seen_board.specs.Clauses.{Added, MakesNext, StillMay, calls_of, history, knowledge, looks};
ghost use Rattle.seen_board.specs.Knowledge.{Coherent, MayAdd, histories, made_by};

use crate::board::Board;
use crate::client_pass::ClientPass;
use crate::naming::Naming;
use crate::owner::Owner;

impl<N: Naming> ClientPass<N> {
    /// The client sees the owner's history as it is, and the owner what the client has seen.
    ///
    /// The owner learns first: what a note of the owner shows is the owner's whole history only to a
    /// client whose own list begins that history.
    pub fn catch_up(&mut self, board: &Board<N>, owner: &mut Owner<N>)
        requires board { self.old.seat.table_id ≡ board.now.table.shared.table_id }
        requires owner { owner.old.seat.table_id ≡ board.now.table.shared.table_id }
        ensures same { (self.new.client ≡ self.old.client) × (self.new.seat.table_id ≡ self.old.seat.table_id) }
        ensures owner { (owner.new.repo ≡ owner.old.repo) × (owner.new.seat.table_id ≡ owner.old.seat.table_id) }
        ensures unchanged { history owner.new.seat owner.old.repo ≡ history owner.old.seat owner.old.repo }
        ensures history { history self.new.seat owner.old.repo ≡ history owner.old.seat owner.old.repo }
        ensures looks { looks self.new.seat ≡ looks self.old.seat }
        ensures mine { (r : ℕ) → IsPrefix (history self.old.seat r) (history self.new.seat r) }
        ensures shown { (r : ℕ) → IsPrefix (history owner.old.seat r) (history self.new.seat r) }
        ensures known { (r : ℕ) → IsPrefix (history self.old.seat r) (history owner.new.seat r) }
        ensures calls { calls_of self.new.seat self.old.client ≡ calls_of self.old.seat self.old.client }
        ensures owner_calls { IsPrefix (calls_of owner.new.seat self.old.client) (calls_of self.old.seat self.old.client) }
        ensures coherent { Coherent N.meaning (knowledge self.new.seat) }
        ensures may { StillMay N.meaning owner.old.repo (knowledge owner.old.seat) (knowledge owner.new.seat) }
    {
        let copy = self.split(board);
        owner.learn(board, copy);
        let note = owner.note(board);
        self.learn(board, note);
    }

    /// Sends a call, and the owner knows of it. It comes behind a `catch_up` under the same lock. An
    /// item that the call makes next may then stand next in the owner's history.
    pub fn tell(&mut self, board: &Board<N>, owner: &mut Owner<N>, call: &N::Call)
        requires board { self.old.seat.table_id ≡ board.now.table.shared.table_id }
        requires owner { owner.old.seat.table_id ≡ board.now.table.shared.table_id }
        requires seen { IsPrefix (calls_of owner.old.seat self.old.client) (calls_of self.old.seat self.old.client) }
        requires justified { N.meaning.justified (histories (knowledge self.old.seat)) call.now }
        ensures same { (self.new.client ≡ self.old.client) × (self.new.seat.table_id ≡ self.old.seat.table_id) }
        ensures looks { looks self.new.seat ≡ looks self.old.seat }
        ensures items { (knowledge self.new.seat).items ≡ (knowledge self.old.seat).items }
        ensures owner { (owner.new.repo ≡ owner.old.repo) × (owner.new.seat.table_id ≡ owner.old.seat.table_id) }
        ensures unchanged { history owner.new.seat owner.old.repo ≡ history owner.old.seat owner.old.repo }
        ensures sent { calls_of self.new.seat self.old.client ≡ calls_of self.old.seat self.old.client ++ call.now ∷ [] }
        ensures told { calls_of owner.new.seat self.old.client ≡ calls_of self.new.seat self.old.client }
        ensures known { (r : ℕ) → IsPrefix (history self.old.seat r) (history owner.new.seat r) }
        ensures coherent { Coherent N.meaning (knowledge owner.new.seat) }
        ensures may { StillMay N.meaning owner.old.repo (knowledge owner.old.seat) (knowledge owner.new.seat) }
        ensures next { (x : N.Item) → MakesNext N.meaning call.now self.old.client owner.old.repo (history owner.old.seat owner.old.repo) x → MayAdd N.meaning (knowledge owner.new.seat) owner.old.repo (made_by self.old.client (length (calls_of self.old.seat self.old.client)) x) }
    {
        self.send(board, call);
        let copy = self.split(board);
        owner.learn(board, copy);
    }

    /// Sends a call that has just put one item into what is kept, and the owner grows by that item.
    pub fn tell_and_grow(
        &mut self,
        board: &Board<N>,
        owner: &mut Owner<N>,
        kept: &N::Kept,
        call: &N::Call,
    )
        requires board { self.old.seat.table_id ≡ board.now.table.shared.table_id }
        requires owner { owner.old.seat.table_id ≡ board.now.table.shared.table_id }
        requires seen { IsPrefix (calls_of owner.old.seat self.old.client) (calls_of self.old.seat self.old.client) }
        requires justified { N.meaning.justified (histories (knowledge self.old.seat)) call.now }
        requires room { length (history owner.old.seat owner.old.repo) < 2 ^ 64 - 1 }
        requires made { (x : N.Item) × (slice_get (N.items kept.now) (length (history owner.old.seat owner.old.repo)) ≡ Some x) × MakesNext N.meaning call.now self.old.client owner.old.repo (history owner.old.seat owner.old.repo) x }
        ensures same { (self.new.client ≡ self.old.client) × (self.new.seat.table_id ≡ self.old.seat.table_id) }
        ensures looks { looks self.new.seat ≡ looks self.old.seat }
        ensures items { (knowledge self.new.seat).items ≡ (knowledge self.old.seat).items }
        ensures owner { (owner.new.repo ≡ owner.old.repo) × (owner.new.seat.table_id ≡ owner.old.seat.table_id) }
        ensures sent { calls_of self.new.seat self.old.client ≡ calls_of self.old.seat self.old.client ++ call.now ∷ [] }
        ensures added { Added (N.items kept.now) (history owner.old.seat owner.old.repo) (history owner.new.seat owner.old.repo) }
        ensures coherent { Coherent N.meaning (knowledge owner.new.seat) }
    {
        self.tell(board, owner, call);
        owner.grow(board, kept);
    }
}
