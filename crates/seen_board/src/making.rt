//! The seats of a new board. The first seat owns everything, and hands it over one by one.

ghost use Rattle.std.specs.Prelude.{◌≡◌, ◌+◌, ◌-◌, ◌<◌, [], ◌∷◌, length, IfOk};
ghost use Rattle.seen_board.specs.Clauses.{IsFresh};
ghost use Rattle.seen_board.specs.Rows.{EachOf, from};
ghost use Rattle.seen_board.specs.Rule.{newcomer};

use crate::board::Board;
use crate::client_pass::ClientPass;
use crate::knowledge::View;
use crate::naming::Naming;
use crate::owner::Owner;
use crate::steps::{MakesClient, MakesOwner};
use atomic_table::Seat;
use std::alloc::Global;
use thor_value::NoMemory;

// The pass of the first of the clients that a seat owns.
fn new_client<N: Naming>(
    board: &Board<N>,
    chief: &mut Seat<N::Kept, View<N::Item, N::Call>>,
    client: u8,
    clients: u8,
    repos: u8,
) -> ClientPass<N>
    requires board { (chief.old.table_id ≡ board.now.table.shared.table_id) × (0 < board.now.table.shared.table_id.words) }
    requires client { client < clients }
    requires chief { chief.old.me.0 ≡ newcomer (from repos 0) (from (clients - client) client) }
    ensures chief { (chief.new.table_id ≡ chief.old.table_id) × (chief.new.me.1 ≡ chief.old.me.1) × (chief.new.me.0 ≡ newcomer (from repos 0) (from (clients - (client + 1)) (client + 1))) }
    ensures client { (result.client ≡ client) × IsFresh board.now.table.shared.table_id result.seat }
{
    let _ = (repos, clients);
    let seat = board.table.shared.split_seat::<MakesClient>(chief);
    ClientPass { client, seat }
}

// The passes of all clients, in order.
pub(crate) fn make_clients<N: Naming>(
    alloc: Global,
    board: &Board<N>,
    chief: &mut Seat<N::Kept, View<N::Item, N::Call>>,
    clients: u8,
    repos: u8,
) -> Result<Vec<ClientPass<N>>, NoMemory>
    requires board { (chief.old.table_id ≡ board.now.table.shared.table_id) × (0 < board.now.table.shared.table_id.words) }
    requires chief { (chief.old.me.0 ≡ newcomer (from repos 0) (from clients 0)) × (chief.old.me.1 ≡ []) }
    ensures table { chief.new.table_id ≡ chief.old.table_id }
    ensures chief { IfOk result (λ _. (chief.new.me.0 ≡ newcomer (from repos 0) []) × (chief.new.me.1 ≡ [])) }
    ensures count { IfOk result (λ ps. length ps.items ≡ clients) }
    ensures clients { IfOk result (λ ps. EachOf (λ k p. (p.client ≡ k) × IsFresh board.now.table.shared.table_id p.seat) ps.items) }
{
    let mut passes = Vec::new(alloc);
    for client in 0..clients {
        passes.push(new_client(board, chief, client, clients, repos))?;
    }
    Ok(passes)
}

// The owner of the first of the repositories that a seat owns.
fn new_owner<N: Naming>(
    board: &Board<N>,
    chief: &mut Seat<N::Kept, View<N::Item, N::Call>>,
    repo: u8,
    repos: u8,
) -> Owner<N>
    requires board { (chief.old.table_id ≡ board.now.table.shared.table_id) × (repos ≡ board.now.table.shared.table_id.words) }
    requires repo { repo < repos }
    requires chief { chief.old.me.0 ≡ newcomer (from (repos - repo) repo) [] }
    ensures chief { (chief.new.table_id ≡ chief.old.table_id) × (chief.new.me.1 ≡ chief.old.me.1) × (chief.new.me.0 ≡ newcomer (from (repos - (repo + 1)) (repo + 1)) []) }
    ensures owner { (result.repo ≡ repo) × IsFresh board.now.table.shared.table_id result.seat }
{
    let _ = repos;
    let seat = board.table.shared.split_seat::<MakesOwner>(chief);
    Owner::of(repo, seat)
}

// The owner that is left, for the last repository.
fn last_owner<N: Naming>(seat: Seat<N::Kept, View<N::Item, N::Call>>, repo: u8) -> Owner<N>
    requires room { repo < seat.table_id.words }
    requires free { seat.me.1 ≡ [] }
    requires seat { seat.me.0 ≡ newcomer (repo ∷ []) [] }
    ensures { (result.repo ≡ repo) × IsFresh seat.table_id result.seat }
{
    Owner::of(repo, seat)
}

// The owners of all repositories, in order.
pub(crate) fn make_owners<N: Naming>(
    alloc: Global,
    board: &Board<N>,
    mut chief: Seat<N::Kept, View<N::Item, N::Call>>,
    repos: u8,
) -> Result<Vec<Owner<N>>, NoMemory>
    requires board { (chief.table_id ≡ board.now.table.shared.table_id) × (repos ≡ board.now.table.shared.table_id.words) }
    requires some { 0 < repos }
    requires chief { (chief.me.0 ≡ newcomer (from repos 0) []) × (chief.me.1 ≡ []) }
    ensures count { IfOk result (λ os. length os.items ≡ repos) }
    ensures owners { IfOk result (λ os. EachOf (λ r o. (o.repo ≡ r) × IsFresh board.now.table.shared.table_id o.seat) os.items) }
{
    let last = repos - 1;
    let mut owners = Vec::new(alloc);
    for repo in 0..last {
        owners.push(new_owner(board, &mut chief, repo, repos))?;
    }
    owners.push(last_owner(chief, last))?;
    Ok(owners)
}
