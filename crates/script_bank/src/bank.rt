//! The script of the bank.

ghost use Rattle.std.specs.Prelude.{◌≡◌, ◌<◌, ◌++◌, ◌+◌, ◌*◌, ◌%◌, ◌-◌, ◌/◌, OnOk, IfOk, codes};
ghost use Rattle.std.specs.String.{string_bytes};
ghost use Rattle.script_bank.specs.Bank as spec;
ghost use Rattle.script_bank.specs.Bank.{draws_before, event_count, item_count, lines, state};

use crate::numbers::Numbers;
use std::alloc::Global;
use std::fmt::Write;
use thor_value::NoMemory;

const METHODS: &str =
    "method int get() { return this.n; } method int add(int k) { this.n = this.n + k; return this.n; } method int move(Acct to, int k) { this.n = this.n - k; to.add(k); return k; }";

/// The script of a bank over so many repositories, with 25 items a client and 200 events for each `n`.
///
/// Its roots are `a0` to `a15`, dealt out to the repositories in turn. All is the same at each call.
pub fn generate(alloc: Global, n: u16, repos: u8) -> Result<String, NoMemory>
    requires { 0 < repos }
    ensures { IfOk result (λ text. string_bytes text ≡ spec.script_text n repos) }
{
    let mut out = String::new(alloc);
    let mut numbers = Numbers {
        state: u64::from(n),
    };
    print_store(&mut out, repos)?;
    print_clients(&mut out, &mut numbers, n)?;
    out.push_str("schedule\n")?;
    print_events(&mut out, &mut numbers, n, repos)?;
    Ok(out)
}

/// Prints the setup.
#[tactic(auto, using(std::proofs::Common::append_assoc, crate::proofs::Lines::lines_next))]
fn print_store(out: &mut String, repos: u8) -> Result<(), NoMemory>
    requires { 0 < repos }
    ensures { OnOk result (string_bytes out.new ≡ string_bytes out.old ++ (codes "setup\n" ++ (spec.class_line ++ lines (spec.root_line repos) 16))) }
{
    write!(out, "setup\nfree class Acct {{ int n; {METHODS} }}\n")?;
    for i in 0..16u8 {
        print_root(out, i, repos)?;
    }
    Ok(())
}

#[tactic(auto, using(std::proofs::Common::append_assoc))]
fn print_root(out: &mut String, i: u8, repos: u8) -> Result<(), NoMemory>
    requires { 0 < repos }
    ensures { OnOk result (string_bytes out.new ≡ string_bytes out.old ++ spec.root_line repos i) }
{
    writeln!(out, "root a{i} = new Acct() at {};", i % repos)?;
    Ok(())
}

/// Prints the clients with their items.
#[tactic(auto, using(std::proofs::Common::append_assoc, crate::proofs::Lines::lines_next))]
fn print_clients(out: &mut String, numbers: &mut Numbers, n: u16) -> Result<(), NoMemory>
    requires { numbers.old.state ≡ n }
    ensures out { OnOk result (string_bytes out.new ≡ string_bytes out.old ++ lines (spec.client_text n) 4) }
    ensures numbers { OnOk result (numbers.new.state ≡ state n (event_count n)) }
{
    for client in 0..4u64 {
        print_client(out, numbers, n, client)?;
    }
    Ok(())
}

/// Prints a client, from 0 on, with its items.
#[tactic(auto, using(std::proofs::Common::append_assoc, crate::proofs::Lines::lines_next, crate::proofs::Lines::client_draws))]
fn print_client(
    out: &mut String,
    numbers: &mut Numbers,
    n: u16,
    client: u64,
) -> Result<(), NoMemory>
    requires client { client < 4 }
    requires numbers { numbers.old.state ≡ state n (draws_before n client 0) }
    ensures out { OnOk result (string_bytes out.new ≡ string_bytes out.old ++ spec.client_text n client) }
    ensures numbers { OnOk result (numbers.new.state ≡ state n (draws_before n (client + 1) 0)) }
{
    writeln!(out, "client {}", client + 1)?;
    for place in 0..25 * u64::from(n) {
        print_item(out, numbers, n, client, place)?;
    }
    Ok(())
}

/// Prints an item of a client, both from 0 on.
#[tactic(auto, using(crate::proofs::Lines::item_draws))]
fn print_item(
    out: &mut String,
    numbers: &mut Numbers,
    n: u16,
    client: u64,
    place: u64,
) -> Result<(), NoMemory>
    requires numbers { numbers.old.state ≡ state n (draws_before n client place) }
    ensures out { OnOk result (string_bytes out.new ≡ string_bytes out.old ++ spec.item_line n client place) }
    ensures numbers { OnOk result (numbers.new.state ≡ state n (draws_before n client (place + 1))) }
{
    let from = numbers.next() % 16;
    let to = numbers.next() % 16;
    if client == 0 && place == 12 * u64::from(n) {
        print_upgrade(out)
    } else {
        print_transaction(out, from, to, place % 9 + 1)
    }
}

#[tactic(auto, using(std::proofs::Common::append_assoc))]
fn print_upgrade(out: &mut String) -> Result<(), NoMemory>
    ensures { OnOk result (string_bytes out.new ≡ string_bytes out.old ++ spec.upgrade_line) }
{
    write!(
        out,
        "upgrade {{ class Acct {{ int n = old.n; int fee = 0; {METHODS} }} }}\n"
    )?;
    Ok(())
}

/// Prints a transfer, or an audit where both accounts are the same one.
#[tactic(auto, using(std::proofs::Common::append_assoc))]
fn print_transaction(out: &mut String, from: u64, to: u64, amount: u64) -> Result<(), NoMemory>
    ensures { OnOk result (string_bytes out.new ≡ string_bytes out.old ++ spec.transaction_line from to amount) }
{
    if from == to {
        return print_audit(out);
    }
    writeln!(out, "tx {{ a{from}.move(a{to}, {amount}); }}")?;
    Ok(())
}

#[tactic(auto, using(std::proofs::Common::append_assoc, crate::proofs::Lines::lines_next))]
fn print_audit(out: &mut String) -> Result<(), NoMemory>
    ensures { OnOk result (string_bytes out.new ≡ string_bytes out.old ++ spec.audit_line) }
{
    out.push_str("tx { print a0.get()")?;
    for i in 0..15u64 {
        print_balance(out, i + 1)?;
    }
    out.push_str("; }\n")?;
    Ok(())
}

#[tactic(auto, using(std::proofs::Common::append_assoc))]
fn print_balance(out: &mut String, i: u64) -> Result<(), NoMemory>
    ensures { OnOk result (string_bytes out.new ≡ string_bytes out.old ++ spec.balance i) }
{
    write!(out, " + a{i}.get()")?;
    Ok(())
}

/// Prints the events of the schedule.
#[tactic(auto, using(std::proofs::Common::append_assoc, crate::proofs::Lines::lines_next))]
fn print_events(out: &mut String, numbers: &mut Numbers, n: u16, repos: u8) -> Result<(), NoMemory>
    requires repos { 0 < repos }
    requires numbers { numbers.old.state ≡ state n (event_count n) }
    ensures { OnOk result (string_bytes out.new ≡ string_bytes out.old ++ lines (spec.event_line n repos) (event_count n)) }
{
    for event in 0..200 * u64::from(n) {
        print_event(out, numbers, n, repos, event)?;
    }
    Ok(())
}

/// Prints an event, from 0 on.
#[tactic(auto, using(std::proofs::Common::append_assoc))]
fn print_event(
    out: &mut String,
    numbers: &mut Numbers,
    n: u16,
    repos: u8,
    event: u64,
) -> Result<(), NoMemory>
    requires repos { 0 < repos }
    requires numbers { numbers.old.state ≡ state n (event_count n + (event - event / 50)) }
    ensures out { OnOk result (string_bytes out.new ≡ string_bytes out.old ++ spec.event_line n repos event) }
    ensures numbers { OnOk result (numbers.new.state ≡ state n (event_count n + ((event + 1) - (event + 1) / 50))) }
{
    if event % 500 == 499 {
        writeln!(out, "k{}", (event / 500) % u64::from(repos))?;
    } else if event % 50 == 49 {
        writeln!(out, "f{}", (event / 50) % u64::from(repos))?;
    } else {
        writeln!(out, "s{}", numbers.next() % 4 + 1)?;
    }
    Ok(())
}
