ghost use Rattle.std.specs.Prelude.{◌≡◌, ◌≤◌, ◌+◌, ◌^◌, length, IfOk, OnOk};
ghost use Rattle.std.specs.List.{flat_map};
ghost use Rattle.class_defs.specs.Applied.{next_number};
ghost use Rattle.class_defs.specs.Rules.{least, least_with};
ghost use Rattle.script_check.specs.Judging.{IsToldEvent, Judges, items_rules, script_rules, least_breach, what_rules};
ghost use Rattle.script_check.specs.Upgrading.{upgrades_of};

use crate::upgrading::upgrades_fault;
use class_defs::{Rule, RuleFault, Schema};
use method_check::{lesser, note_item, note_schema};
use schedule::{Events, check_events};
use script_parse::{ClientItems, Items, Refusal, Script};
use serial_model::What;
use std::alloc::Global;
use thor_value::NoMemory;

/// Notes what an item breaks; an upgrade is looked at behind all of them.
fn note_what(
    alloc: Global,
    schema: &Schema,
    what: &What,
    repos: u8,
    found: &mut Option<RuleFault>,
) -> Result<(), NoMemory>
    requires { length schema.now.classes ≤ 65536 }
    ensures { OnOk result (found.new ≡ least_with found.old (what_rules schema.now repos what.now)) }
{
    match what {
        What::Tx(block) => note_item(alloc, schema, block, repos, found),
        What::Upgrade(_) => Ok(()),
    }
}

/// Notes what the items of a client break.
fn note_items(
    alloc: Global,
    schema: &Schema,
    items: &[What],
    repos: u8,
    found: &mut Option<RuleFault>,
) -> Result<(), NoMemory>
    requires { length schema.now.classes ≤ 65536 }
    ensures { OnOk result (found.new ≡ least_with found.old (items_rules schema.now repos items.now)) }
{
    for item in items {
        note_what(alloc, schema, item, repos, found)?;
    }
    Ok(())
}

/// Notes what the items of the clients break.
pub(crate) fn note_clients(
    alloc: Global,
    schema: &Schema,
    clients: &[Items],
    repos: u8,
    found: &mut Option<RuleFault>,
) -> Result<(), NoMemory>
    requires { length schema.now.classes ≤ 65536 }
    ensures { OnOk result (found.new ≡ least_with found.old (flat_map (items_rules schema.now repos) clients.now)) }
{
    for client in clients {
        note_items(alloc, schema, client.as_slice(), repos, found)?;
    }
    Ok(())
}

/// The fault of the schema and the transactions that is told.
#[tactic(auto, using(method_check::proofs::Pieces::least_append))]
fn rule_fault(
    alloc: Global,
    schema: &Schema,
    clients: &ClientItems,
    repos: u8,
) -> Result<Option<RuleFault>, NoMemory>
    requires { length schema.now.classes ≤ 65536 }
    ensures { IfOk result (λ fault. fault ≡ least (script_rules schema.now repos clients.now)) }
{
    let mut found = None;
    note_schema(alloc, schema, repos, &mut found)?;
    note_clients(alloc, schema, clients.as_slice(), repos, &mut found)?;
    Ok(found)
}

/// The line of the event that is told.
fn event_fault(events: &Events, clients: u8, repos: u8) -> Option<u32>
    ensures { IsToldEvent clients repos events.now result }
{
    match check_events(events, clients, repos) {
        Ok(()) => None,
        Err(line) => Some(line),
    }
}

/// Of a fault that is told of the rules T1 to T8 and the line of an event that breaks T9, the fault that is told.
fn told(found: Option<RuleFault>, event: Option<u32>) -> Option<RuleFault>
    ensures { result ≡ least_breach found event }
{
    match event {
        None => found,
        Some(line) => lesser(
            found,
            RuleFault {
                line,
                rule: Rule::T9,
            },
        ),
    }
}

/// The refusal of a script that breaks a rule, under its schema and over so many repositories.
///
/// First it tells of the rules T1 to T9, and where these hold of the first upgrade that breaks a rule.
pub fn judge(
    alloc: Global,
    schema: &Schema,
    script: &Script,
    repos: u8,
) -> Result<Option<Refusal>, NoMemory>
    requires classes { length schema.now.classes ≤ 65536 }
    requires clients { length script.now.clients ≤ 64 }
    requires upgrades { next_number schema.now.upgraded + length (upgrades_of script.now.clients) ≤ 2 ^ 32 }
    ensures judged { IfOk result (Judges schema.now repos script.now) }
{
    let rule = rule_fault(alloc, schema, &script.clients, repos)?;
    let event = event_fault(&script.events, script.clients.len() as u8, repos);
    if let Some(fault) = told(rule, event) {
        return Ok(Some(Refusal::Rule(fault)));
    }
    match upgrades_fault(alloc, schema, repos, script.clients.as_slice())? {
        Some(fault) => Ok(Some(Refusal::Rule(fault))),
        None => Ok(None),
    }
}
