ghost use Rattle.std.specs.Prelude.{◌≡◌, ◌≢◌, ℕ, ◌<◌, ◌≤◌, Some, [], ◌∷◌, ◌++◌, length};
ghost use Rattle.seen_board.specs.Clauses.{IsCopy, Learnt, calls_of, history, knowledge, looks, reached};
ghost use Rattle.seen_board.specs.Knowledge.{Coherent, histories};
ghost use Rattle.seen_board.specs.Steps.{IsCalm, sent};

use crate::board::Board;
use crate::knowledge::View;
use crate::naming::Naming;
use crate::pass::Pass;
use crate::steps::{Copies, Meets, Picks, Sends};
use atomic_table::Seat;
use std::marker::Brand;

/// The one seat that knows all calls that its client sent. The client's thread has it.
#[derive(Drop)]
pub struct ClientPass<N: Naming> {
    /// The client, from 0.
    pub client: u8,
    /// The seat.
    pub seat: Seat<N::Kept, View<N::Item, N::Call>>,
    ghost free: { seat.me.1 ≡ [] },
    ghost owned: { (knowledge seat).calls.owned ≡ client ∷ [] },
    ghost calm: { IsCalm seat.me.0 },
    ghost room: { 0 < seat.table_id.words },
}

impl<N: Naming> ClientPass<N> {
    /// How long the history of a repository is: at least as long as this pass has seen it, and as
    /// long as it was found before. It may be growing meanwhile.
    pub fn meet(&mut self, board: &Board<N>, repo: u8) -> u64
        requires board { self.old.seat.table_id ≡ board.now.table.shared.table_id }
        requires repo { repo < board.now.table.shared.table_id.words }
        ensures same { (self.new.client ≡ self.old.client) × (self.new.seat.table_id ≡ self.old.seat.table_id) × (knowledge self.new.seat ≡ knowledge self.old.seat) }
        ensures at_least { length (history self.old.seat repo) ≤ result }
        ensures rises { reached self.old.seat repo ≤ result }
        ensures found { reached self.new.seat repo ≡ result }
        ensures others { (r : ℕ) → r ≢ repo → reached self.new.seat r ≡ reached self.old.seat r }
    {
        let word = usize::from(repo);
        board.table.shared.load::<Meets>(&mut self.seat, word)
    }

    /// A copy of what the client has seen. The copy can't send.
    pub fn split(&mut self, board: &Board<N>) -> Pass<N>
        requires { self.old.seat.table_id ≡ board.now.table.shared.table_id }
        ensures same { (self.new.client ≡ self.old.client) × (self.new.seat.table_id ≡ self.old.seat.table_id) × (knowledge self.new.seat ≡ knowledge self.old.seat) }
        ensures looks { looks self.new.seat ≡ looks self.old.seat }
        ensures table { result.seat.table_id ≡ self.old.seat.table_id }
        ensures copy { IsCopy (knowledge self.old.seat) (knowledge result.seat) }
    {
        let seat = board.table.shared.split_seat::<Copies>(&mut self.seat);
        Pass { seat }
    }

    /// Takes in what a pass has seen. The client's own calls stay: whatever anyone saw of them begins
    /// them.
    pub fn learn(&mut self, board: &Board<N>, other: Pass<N>)
        requires board { self.old.seat.table_id ≡ board.now.table.shared.table_id }
        requires other { other.seat.table_id ≡ board.now.table.shared.table_id }
        ensures same { (self.new.client ≡ self.old.client) × (self.new.seat.table_id ≡ self.old.seat.table_id) }
        ensures looks { looks self.new.seat ≡ looks self.old.seat }
        ensures own { calls_of self.new.seat self.old.client ≡ calls_of self.old.seat self.old.client }
        ensures learnt { Learnt (knowledge self.old.seat) (knowledge other.seat) (knowledge self.new.seat) }
        ensures coherent { Coherent N.meaning (knowledge self.new.seat) }
    {
        let Pass { seat } = other;
        board.take_in(&mut self.seat, seat);
    }

    /// Adds the call that the client has just made to those that it sent. What the pass has seen of
    /// the histories justifies it.
    pub fn send(&mut self, board: &Board<N>, call: &N::Call)
        requires board { self.old.seat.table_id ≡ board.now.table.shared.table_id }
        requires justified { N.meaning.justified (histories (knowledge self.old.seat)) call.now }
        ensures same { (self.new.client ≡ self.old.client) × (self.new.seat.table_id ≡ self.old.seat.table_id) }
        ensures looks { looks self.new.seat ≡ looks self.old.seat }
        ensures items { (knowledge self.new.seat).items ≡ (knowledge self.old.seat).items }
        ensures others { (k : ℕ) → k ≢ self.old.client → calls_of self.new.seat k ≡ calls_of self.old.seat k }
        ensures sent { calls_of self.new.seat self.old.client ≡ calls_of self.old.seat self.old.client ++ call.now ∷ [] }
        ensures coherent { Coherent N.meaning (knowledge self.new.seat) }
    {
        send_as::<N, Brand>(board, &mut self.seat, self.client, call);
    }
}

// The step of a send, for the client and the call that `J` picks.
fn send_as<N: Naming, J: Picks<N::Call>>(
    board: &Board<N>,
    seat: &mut Seat<N::Kept, View<N::Item, N::Call>>,
    client: u8,
    call: &N::Call,
)
    requires board { (seat.old.table_id ≡ board.now.table.shared.table_id) × (0 < board.now.table.shared.table_id.words) }
    requires picked { (J.client ≡ client) × (J.call ≡ Some call.now) }
    requires own { (knowledge seat.old).calls.owned ≡ client ∷ [] }
    requires calm { IsCalm seat.old.me.0 }
    requires justified { N.meaning.justified (histories (knowledge seat.old)) call.now }
    ensures table { seat.new.table_id ≡ seat.old.table_id }
    ensures sent { seat.new.me ≡ (sent seat.old.me.0 client call.now, seat.old.me.1) }
    ensures coherent { Coherent N.meaning (knowledge seat.new) }
{
    let _ = call;
    board.table.shared.load::<Sends<N, J>>(seat, 0);
}
