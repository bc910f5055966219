//! The audit of the report that stands behind a script.

ghost use Rattle.class_defs.specs.declared.declarations.Declarations.{Declarations};
ghost use Rattle.script_parse.specs.Script.{HasFew};
ghost use Rattle.serial_model.specs.Replays.{AreMade};
ghost use Rattle.std.specs.Prelude.{IfOk, Some, length, option_map, ◌≡◌, ◌≤◌};
ghost use Rattle.thor_value.specs.FiniteMap.{IsSorted};
ghost use Rattle.top_judging.specs.Audits.{RepliesAudit, RepliesAudited, RepliesParts, RepliesReport, RepliesSource};
ghost use Rattle.top_statement.specs.Audits.{audited_of, divider};
ghost use Rattle.top_statement.specs.Opening.{IsAccepted, first_schemas};
ghost use Rattle.top_statement.specs.Top.{IsWithinLimits, told_by};

use crate::judging::{UPGRADE_LIMIT, judged};
use crate::reading::{SCRIPT_LIMIT, read_bytes};
use crate::starting::first_schemas;
use audit_check::{AuditFault, Audited, audit};
use class_defs::Schemas;
use outside::{ReadAll, Source, read_all};
use report_parse::read_report;
use script_check::{opened_store, upgrade_count, with_upgrades};
use script_parse::{ClientItems, Refusal, Script};
use script_text::SyntaxError;
use serial_model::are_made;
use std::alloc::Global;
use std::mem;
use thor_value::NoMemory;
use top_reply::Reply;
use top_words::Plan;

/// The byte that divides a script and a report.
const DIVIDER: u8 = 30;

/// What is replied of the bytes of a report.
fn audit_report(alloc: Global, audited: &Audited, report: Option<&[u8]>) -> Result<Reply, NoMemory>
    requires made { AreMade audited.now.schemas }
    requires sorted { IsSorted audited.now.opened.objects }
    ensures { IfOk result (RepliesReport audited.now (option_map (λ bytes. bytes.now) report.entry)) }
{
    let Some(bytes) = report else {
        return Ok(Reply::NoReport { line: 1 });
    };
    match read_report(alloc, bytes) {
        Ok(report) => match audit(alloc, audited, report) {
            Ok(()) => Ok(Reply::Legal),
            Err(AuditFault::Disagrees(at)) => Ok(Reply::Disagrees { at }),
            Err(AuditFault::NoMemory) => Err(NoMemory),
        },
        Err(SyntaxError::Fault(fault)) => Ok(Reply::NoReport { line: fault.line }),
        Err(SyntaxError::NoMemory) => Err(NoMemory),
    }
}

/// The items of a script's clients.
fn clients_of(alloc: Global, script: Script) -> ClientItems
    ensures { result ≡ script.clients }
{
    let mut script = script;
    let clients = mem::replace(&mut script.clients, ClientItems::new(alloc));
    drop(script);
    clients
}

/// By what the report of a script is judged: the store that its setup opens, under the schemas behind its upgrades.
fn audited_of(alloc: Global, script: Script, base: Schemas) -> Result<Audited, NoMemory>
    requires { AreMade base }
    ensures audited { (setup : Declarations) → base ≡ first_schemas setup → IfOk result (λ audited. audited ≡ audited_of setup script) }
    ensures sorted { IfOk result (λ audited. IsSorted audited.opened.objects) }
{
    let opened = opened_store(alloc, &base.first)?;
    let schemas = with_upgrades(alloc, base, script.clients.as_slice())?;
    Ok(Audited {
        opened,
        schemas,
        clients: clients_of(alloc, script),
    })
}

/// What is replied of a report whose script breaks no rule.
fn audit_judged(
    alloc: Global,
    script: Script,
    base: Schemas,
    report: Option<&[u8]>,
) -> Result<Reply, NoMemory>
    requires { AreMade base }
    ensures { (setup : Declarations) → base ≡ first_schemas setup → IfOk result (RepliesReport (audited_of setup script) (option_map (λ bytes. bytes.now) report.entry)) }
{
    let audited = audited_of(alloc, script, base)?;
    if !are_made(&audited.schemas) {
        return Err(NoMemory);
    }
    audit_report(alloc, &audited, report)
}

/// What is replied of a script that is within the limits on clients and events, and of what stands behind it.
fn audit_script(
    alloc: Global,
    plan: &Plan,
    script: Script,
    report: Option<&[u8]>,
) -> Result<Reply, NoMemory>
    requires few { HasFew script.setup }
    requires clients { length script.clients ≤ 64 }
    requires events { length script.events ≤ 1000000 }
    ensures { IfOk result (RepliesAudit plan.now script (option_map (λ bytes. bytes.now) report.entry)) }
{
    if UPGRADE_LIMIT < upgrade_count(script.clients.as_slice()) {
        return Ok(Reply::Limit {
            limit: UPGRADE_LIMIT as u64,
        });
    }
    let Some(setup) = &script.setup else {
        return Ok(Reply::Refused {
            refusal: Refusal::Setup,
        });
    };
    let base = first_schemas(alloc, setup)?;
    match judged(alloc, plan, &script, base) {
        Ok(base) => audit_judged(alloc, script, base, report),
        Err(reply) => reply,
    }
}

/// What is replied of the bytes of a script, and of those behind it.
fn audit_parts(
    alloc: Global,
    plan: &Plan,
    script: &[u8],
    report: Option<&[u8]>,
) -> Result<Reply, NoMemory>
    ensures { IfOk result (RepliesParts plan.now script.now (option_map (λ bytes. bytes.now) report.entry)) }
{
    match read_bytes(alloc, script) {
        Ok(script) => audit_script(alloc, plan, script, report),
        Err(reply) => reply,
    }
}

/// Where the byte is that divides a script and a report.
fn divider(bytes: &[u8]) -> Option<usize>
    ensures { result ≡ divider bytes.now }
{
    bytes.iter().position(|byte| *byte == DIVIDER)
}

/// What is replied of all bytes.
fn audit_bytes(alloc: Global, plan: &Plan, bytes: &[u8]) -> Result<Reply, NoMemory>
    ensures { IfOk result (RepliesAudited plan.now bytes.now) }
{
    match divider(bytes) {
        Some(place) => {
            let script = bytes.split_at(place).0;
            let report = bytes.split_at(place + 1).1;
            audit_parts(alloc, plan, script, Some(report))
        }
        None => audit_parts(alloc, plan, bytes, None),
    }
}

/// What is replied to an audit of what the source gives.
pub(crate) fn audit_source<S: Source>(
    alloc: Global,
    plan: &Plan,
    source: &mut S,
) -> Result<Reply, NoMemory>
    ensures { IfOk result (RepliesSource plan.now (told_by S.left S.faults source.old) (told_by S.left S.faults source.new)) }
{
    match read_all(alloc, source, SCRIPT_LIMIT) {
        Ok(bytes) => audit_bytes(alloc, plan, bytes.as_slice()),
        Err(ReadAll::Failed) => Ok(Reply::SourceFault),
        Err(ReadAll::Over) => Ok(Reply::Limit {
            limit: SCRIPT_LIMIT as u64,
        }),
        Err(ReadAll::NoMemory) => Err(NoMemory),
    }
}
