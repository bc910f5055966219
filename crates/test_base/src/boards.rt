//! Boards whose repositories and clients work in one thread and in several.

ghost use Rattle.std.specs.Prelude.{◌≡◌, ℕ, ◌+◌, ◌<◌, None, Some, [], ◌∷◌, ◌++◌, length, slice_get, slice_index, IfOk, OnOk};
ghost use Rattle.std.specs.Thread.{IsSync};
ghost use Rattle.seen_board.specs.Clauses.{IsFresh, history};
ghost use Rattle.seen_board.specs.Knowledge.{items_of};
ghost use Rattle.seen_board.specs.Rows.{EachOf};
ghost use Rattle.test_base.specs.Samples.{HasWorked, IsReady};

use crate::samples::{Log, Opened, Puts};
use seen_board::{Board, ClientPass, Lengths, Owner};
use std::alloc::Global;
use std::test::Fail;
use std::thread::{Threads, join};
use thor_value::NoMemory;

// One item more, of at most so many.
fn grow_one(board: &Board<Opened>, owner: &mut Owner<Opened>, most: u64)
    requires board { owner.old.seat.table_id ≡ board.now.table.shared.table_id }
    requires room { length (history owner.old.seat owner.old.repo) < most }
    ensures same { (owner.new.repo ≡ owner.old.repo) × (owner.new.seat.table_id ≡ owner.old.seat.table_id) }
    ensures length { length (history owner.new.seat owner.old.repo) ≡ length (history owner.old.seat owner.old.repo) + 1 }
{
    owner.grow(board, &most);
}

// Grows a fresh owner twice; its note shows the client both items.
fn show_two(board: &Board<Opened>, owner: &mut Owner<Opened>, pass: &mut ClientPass<Opened>)
    requires tables { (owner.old.seat.table_id ≡ board.now.table.shared.table_id) × (pass.old.seat.table_id ≡ board.now.table.shared.table_id) }
    requires fresh { (history owner.old.seat owner.old.repo ≡ []) × (history pass.old.seat owner.old.repo ≡ []) }
    ensures same { (owner.new.repo ≡ owner.old.repo) × (owner.new.seat.table_id ≡ owner.old.seat.table_id) × (pass.new.client ≡ pass.old.client) × (pass.new.seat.table_id ≡ pass.old.seat.table_id) }
    ensures grown { length (history owner.new.seat owner.old.repo) ≡ 2 }
    ensures shown { length (history pass.new.seat owner.old.repo) ≡ 2 }
{
    grow_one(board, owner, 2);
    grow_one(board, owner, 2);
    let note = owner.note(board);
    pass.learn(board, note);
}

// Two owners, in their order.
fn both_owners(
    mut owners: Vec<Owner<Opened>>,
    first: Owner<Opened>,
    second: Owner<Opened>,
) -> Result<Vec<Owner<Opened>>, NoMemory>
    requires { owners.items ≡ [] }
    ensures { IfOk result (λ os. os.items ≡ first ∷ second ∷ []) }
{
    owners.push(first)?;
    owners.push(second)?;
    Ok(owners)
}

// Two repositories and one client. It answers what the client met, and the lengths at the end.
fn two_repositories(alloc: Global) -> Result<(u64, u64, Lengths), NoMemory>
    ensures { IfOk result (λ day. (slice_index day.2.words 0 ≡ 2) × (slice_index day.2.words 1 ≡ 0)) }
{
    let (board, mut owners, mut passes) = Board::<Opened>::new(alloc, 2, 1)?;
    let (Some(second), Some(mut first), Some(mut pass)) = (owners.pop(), owners.pop(), passes.pop())
    else {
        unreachable!()
    };
    show_two(&board, &mut first, &mut pass);
    let met = (pass.meet(&board, 0), pass.meet(&board, 1));
    let (Ok(owners), Ok(())) = (both_owners(owners, first, second), passes.push(pass)) else {
        board.discard();
        return Err(NoMemory);
    };
    Ok((met.0, met.1, board.close(owners, passes)))
}

// One thread's rounds: its repository grows, it looks at another and learns its own owner's note.
fn work(
    board: &Board<Opened>,
    team: (Owner<Opened>, ClientPass<Opened>),
    rounds: u64,
) -> (Owner<Opened>, ClientPass<Opened>)
    requires some { 0 < board.now.table.shared.table_id.words }
    requires ready { IsReady board.now.table.shared.table_id team.0.repo team.0.seat team.1.seat }
    ensures same { (result.0.repo ≡ team.0.repo) × (result.1.client ≡ team.1.client) }
    ensures worked { HasWorked board.now.table.shared.table_id rounds team.0.repo result.0.seat result.1.seat }
{
    let (mut owner, mut pass) = team;
    for _ in 0..rounds {
        grow_one(board, &mut owner, rounds);
        pass.meet(board, 0);
        let note = owner.note(board);
        pass.learn(board, note);
    }
    (owner, pass)
}

// What one thread works with: the last owner and the last pass.
fn last_team(
    owners: &mut Vec<Owner<Opened>>,
    passes: &mut Vec<ClientPass<Opened>>,
) -> (Owner<Opened>, ClientPass<Opened>)
    requires some { 0 < length owners.old.items }
    requires counts { length owners.old.items ≡ length passes.old.items }
    ensures counts { length owners.old.items ≡ length owners.new.items + 1 }
    ensures owners { owners.old.items ≡ owners.new.items ++ result.0 ∷ [] }
    ensures passes { passes.old.items ≡ passes.new.items ++ result.1 ∷ [] }
{
    let (Some(owner), Some(pass)) = (owners.pop(), passes.pop()) else {
        unreachable!()
    };
    (owner, pass)
}

// Puts a team behind the others.
fn with_team(
    mut owners: Vec<Owner<Opened>>,
    mut passes: Vec<ClientPass<Opened>>,
    team: (Owner<Opened>, ClientPass<Opened>),
) -> Result<(Vec<Owner<Opened>>, Vec<ClientPass<Opened>>), NoMemory>
    ensures { IfOk result (λ all. (all.0.items ≡ owners.items ++ team.0 ∷ []) × (all.1.items ≡ passes.items ++ team.1 ∷ [])) }
{
    owners.push(team.0)?;
    passes.push(team.1)?;
    Ok((owners, passes))
}

// Two teams in threads of their own.
fn two_threads<R: Threads + Sync>(
    rt: &R,
    board: &Board<Opened>,
    one: (Owner<Opened>, ClientPass<Opened>),
    two: (Owner<Opened>, ClientPass<Opened>),
    rounds: u64,
) -> (
    (Owner<Opened>, ClientPass<Opened>),
    (Owner<Opened>, ClientPass<Opened>),
)
    requires some { 0 < board.now.table.shared.table_id.words }
    requires one { IsReady board.now.table.shared.table_id one.0.repo one.0.seat one.1.seat }
    requires two { IsReady board.now.table.shared.table_id two.0.repo two.0.seat two.1.seat }
    ensures same { (result.0.0.repo ≡ one.0.repo) × (result.0.1.client ≡ one.1.client) × (result.1.0.repo ≡ two.0.repo) × (result.1.1.client ≡ two.1.client) }
    ensures one { HasWorked board.now.table.shared.table_id rounds one.0.repo result.0.0.seat result.0.1.seat }
    ensures two { HasWorked board.now.table.shared.table_id rounds two.0.repo result.1.0.seat result.1.1.seat }
{
    join(
        rt,
        move || -> (Owner<Opened>, ClientPass<Opened>)
            requires { (0 < board.now.table.shared.table_id.words) × IsReady board.now.table.shared.table_id one.0.repo one.0.seat one.1.seat }
            ensures { (result.0.repo ≡ one.0.repo) × (result.1.client ≡ one.1.client) × HasWorked board.entry.now.table.shared.table_id rounds one.0.repo result.0.seat result.1.seat }
        { work(board, one, rounds) },
        move || -> (Owner<Opened>, ClientPass<Opened>)
            requires { (0 < board.now.table.shared.table_id.words) × IsReady board.now.table.shared.table_id two.0.repo two.0.seat two.1.seat }
            ensures { (result.0.repo ≡ two.0.repo) × (result.1.client ≡ two.1.client) × HasWorked board.entry.now.table.shared.table_id rounds two.0.repo result.0.seat result.1.seat }
        { work(board, two, rounds) },
    )
}

// Four threads work at once.
fn four_threads<R: Threads + Sync>(
    rt: &R,
    board: &Board<Opened>,
    mut owners: Vec<Owner<Opened>>,
    mut passes: Vec<ClientPass<Opened>>,
    rounds: u64,
) -> Result<(Vec<Owner<Opened>>, Vec<ClientPass<Opened>>), NoMemory>
    requires some { 0 < board.now.table.shared.table_id.words }
    requires counts { (length owners.items ≡ 4) × (length passes.items ≡ 4) }
    requires owners { EachOf (λ r o. (o.repo ≡ r) × IsFresh board.now.table.shared.table_id o.seat) owners.items }
    requires passes { EachOf (λ k p. (p.client ≡ k) × IsFresh board.now.table.shared.table_id p.seat) passes.items }
    ensures count { IfOk result (λ all. length all.0.items ≡ 4) }
    ensures owners { IfOk result (λ all. EachOf (λ r o. (o.repo ≡ r) × (o.seat.table_id ≡ board.now.table.shared.table_id) × (length (history o.seat r) ≡ rounds)) all.0.items) }
    ensures passes { IfOk result (λ all. EachOf (λ k p. (p.client ≡ k) × (p.seat.table_id ≡ board.now.table.shared.table_id)) all.1.items) }
{
    let d = last_team(&mut owners, &mut passes);
    let c = last_team(&mut owners, &mut passes);
    let b = last_team(&mut owners, &mut passes);
    let a = last_team(&mut owners, &mut passes);
    let ((a, b), (c, d)) = join(
        rt,
        move || -> (
            (Owner<Opened>, ClientPass<Opened>),
            (Owner<Opened>, ClientPass<Opened>),
        )
            requires { IsSync R.row × (0 < board.now.table.shared.table_id.words) × IsReady board.now.table.shared.table_id a.0.repo a.0.seat a.1.seat × IsReady board.now.table.shared.table_id b.0.repo b.0.seat b.1.seat }
            ensures { (result.0.0.repo ≡ a.0.repo) × (result.0.1.client ≡ a.1.client) × (result.1.0.repo ≡ b.0.repo) × (result.1.1.client ≡ b.1.client)
                × HasWorked board.entry.now.table.shared.table_id rounds a.0.repo result.0.0.seat result.0.1.seat × HasWorked board.entry.now.table.shared.table_id rounds b.0.repo result.1.0.seat result.1.1.seat }
        { two_threads(rt, board, a, b, rounds) },
        move || -> (
            (Owner<Opened>, ClientPass<Opened>),
            (Owner<Opened>, ClientPass<Opened>),
        )
            requires { IsSync R.row × (0 < board.now.table.shared.table_id.words) × IsReady board.now.table.shared.table_id c.0.repo c.0.seat c.1.seat × IsReady board.now.table.shared.table_id d.0.repo d.0.seat d.1.seat }
            ensures { (result.0.0.repo ≡ c.0.repo) × (result.0.1.client ≡ c.1.client) × (result.1.0.repo ≡ d.0.repo) × (result.1.1.client ≡ d.1.client)
                × HasWorked board.entry.now.table.shared.table_id rounds c.0.repo result.0.0.seat result.0.1.seat × HasWorked board.entry.now.table.shared.table_id rounds d.0.repo result.1.0.seat result.1.1.seat }
        { two_threads(rt, board, c, d, rounds) },
    );
    let (owners, passes) = with_team(owners, passes, a)?;
    let (owners, passes) = with_team(owners, passes, b)?;
    let (owners, passes) = with_team(owners, passes, c)?;
    let (owners, passes) = with_team(owners, passes, d)?;
    Ok((owners, passes))
}

// The lengths after so many rounds of four threads.
fn lengths_of_four<R: Threads + Sync>(
    rt: &R,
    alloc: Global,
    rounds: u64,
) -> Result<Lengths, NoMemory>
    ensures { IfOk result (λ lengths. (r : ℕ) → r < 4 → slice_index lengths.words r ≡ rounds) }
{
    let (board, owners, passes) = Board::<Opened>::new(alloc, 4, 4)?;
    let Ok((owners, passes)) = four_threads(rt, &board, owners, passes, rounds) else {
        board.discard();
        return Err(NoMemory);
    };
    Ok(board.close(owners, passes))
}

// The item of the opening.
fn open_log(board: &Board<Puts>, owner: &mut Owner<Puts>, log: &Log)
    requires board { owner.old.seat.table_id ≡ board.now.table.shared.table_id }
    requires fresh { (owner.old.repo ≡ 0) × (history owner.old.seat 0 ≡ []) }
    requires log { log.now.entries.items ≡ None ∷ [] }
    ensures same { (owner.new.repo ≡ 0) × (owner.new.seat.table_id ≡ owner.old.seat.table_id) }
    ensures whole { items_of (history owner.new.seat 0) ≡ log.now.entries.items }
{
    owner.grow(board, log);
}

// A client puts a number under the lock. After `NoMemory` nothing was put and no call was sent.
fn put(
    board: &Board<Puts>,
    owner: &mut Owner<Puts>,
    pass: &mut ClientPass<Puts>,
    log: &mut Log,
    number: u64,
) -> Result<(), NoMemory>
    requires tables { (owner.old.seat.table_id ≡ board.now.table.shared.table_id) × (pass.old.seat.table_id ≡ board.now.table.shared.table_id) }
    requires whole { (owner.old.repo ≡ 0) × (items_of (history owner.old.seat 0) ≡ log.old.entries.items) }
    requires opened { slice_get log.old.entries.items 0 ≡ Some None }
    ensures same { (owner.new.repo ≡ 0) × (owner.new.seat.table_id ≡ owner.old.seat.table_id) × (pass.new.client ≡ pass.old.client) × (pass.new.seat.table_id ≡ pass.old.seat.table_id) }
    ensures put { OnOk result (log.new.entries.items ≡ log.old.entries.items ++ Some (pass.old.client, number) ∷ []) }
    ensures whole { OnOk result (items_of (history owner.new.seat 0) ≡ log.new.entries.items) }
{
    let client = pass.client;
    let place = log.entries.len();
    pass.catch_up(board, owner);
    log.entries.push(Some((client, number)))?;
    pass.tell_and_grow(board, owner, log, &(client, place as u64, number));
    Ok(())
}

#[test]
fn two_repositories_and_one_client(rt: HostRuntime) -> Result<(), Fail> {
    let (first, second, lengths) = two_repositories(rt.alloc())?;
    assert_eq!(rt; (first, second), (2, 0));
    assert_eq!(rt; lengths.words, [2, 0, 0, 0, 0, 0, 0, 0]);
    Ok(())
}

#[test]
fn threads_grow_meet_and_learn(rt: HostRuntime) -> Result<(), Fail> {
    let lengths = lengths_of_four(&rt, rt.alloc(), 100_000)?;
    assert_eq!(rt;
        lengths.words,
        [100_000, 100_000, 100_000, 100_000, 0, 0, 0, 0]
    );
    Ok(())
}

#[test]
fn a_sent_call_makes_its_item(rt: HostRuntime) -> Result<(), Fail> {
    let alloc = rt.alloc();
    let mut log = Log {
        entries: vec![in alloc; None]?,
    };
    let (board, mut owners, mut passes) = Board::<Puts>::new(alloc, 1, 1)?;
    let (Some(mut owner), Some(mut pass)) = (owners.pop(), passes.pop()) else {
        unreachable!()
    };
    open_log(&board, &mut owner, &log);
    let done = put(&board, &mut owner, &mut pass, &mut log, 7);
    let length = pass.meet(&board, 0);
    board.discard();
    done?;
    assert_eq!(rt; log.entries.as_slice(), [None, Some((0, 7))].as_slice());
    assert_eq!(rt; length, 2);
    Ok(())
}
