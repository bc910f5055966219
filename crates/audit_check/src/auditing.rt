//! The audit of a report.

ghost use Rattle.std.specs.Prelude.{◌+◌, List, Ok, Err};
ghost use Rattle.audit_check.specs.Agreement.{Audits};
ghost use Rattle.audit_check.specs.Items.{AreRightAll};
ghost use Rattle.audit_check.specs.Lines.{FaultIs, IsLegalOr, IsTold};
ghost use Rattle.audit_check.specs.declared.disagreement.Disagreement.TheVariants as line;
ghost use Rattle.report_parse.specs.declared.report.Backup.{Backup};
ghost use Rattle.report_parse.specs.declared.report.Line.{Line};
ghost use Rattle.report_parse.specs.declared.report.Look.{Look};
ghost use Rattle.serial_model.specs.History.{IsLegal};
ghost use Rattle.serial_model.specs.Outcomes.{all_items};
ghost use Rattle.serial_model.specs.Replays.{AreMade};
ghost use Rattle.thor_value.specs.FiniteMap.{IsSorted};
ghost use Rattle.top_history_check.specs.Lines.{ArePerformed};

use crate::audited::Audited;
use crate::disagreement::{AuditFault, Disagreement};
use crate::items::are_right;
use crate::lines::{LineHistory, told};
use crate::standings::standings_of;
use report_parse::Report;
use serial_model::{Dids, Ends, ReplayError, replay};
use std::alloc::Global;

/// The line of the history at a place, counted from 0.
fn entry_at(place: usize) -> AuditFault
    ensures { FaultIs (line.Entry (place + 1)) result }
{
    match place.checked_add(1) {
        Some(index) => AuditFault::Disagrees(Disagreement::Entry {
            index: index as u64,
        }),
        None => AuditFault::NoMemory,
    }
}

/// Whether a history is legal from the script's store; else the first entry that isn't.
fn is_legal(alloc: Global, script: &Audited, history: &Dids) -> Result<(), AuditFault>
    requires made { AreMade script.now.schemas }
    requires sorted { IsSorted script.now.opened.objects }
    ensures { IsLegalOr script.now history.now result }
{
    match replay(alloc, history, &script.opened, &script.schemas) {
        Ok(end) => {
            drop(end);
            Ok(())
        }
        Err(ReplayError::NotLegal { index }) => Err(entry_at(index)),
        Err(ReplayError::NoMemory) => Err(AuditFault::NoMemory),
    }
}

/// Whether the lines of the items say what a history has of them; else the first that doesn't.
fn is_answered(
    alloc: Global,
    script: &Audited,
    history: &Dids,
    ended: &Ends,
) -> Result<(), AuditFault>
    requires { ArePerformed script.now.clients history.now }
    ensures { AreRightAll history.now (all_items script.now.clients) ended.now result }
{
    let standings = standings_of(alloc, history.as_slice())?;
    are_right(
        history.as_slice(),
        &standings,
        script.clients.as_slice(),
        ended.as_slice(),
    )
}

/// The audit of a report whose history is legal, as far as its lines name items.
fn audit_legal(
    alloc: Global,
    script: &Audited,
    told: &LineHistory,
    ended: &Ends,
) -> Result<(), AuditFault>
    requires performed { ArePerformed script.now.clients told.now.history }
    requires legal { IsLegal script.now.schemas told.now.history script.now.opened }
    ensures { (lines : List Line) (looks : List Look) (backups : List Backup) → IsTold script.now.clients lines told.now.history told.now.is_whole → Audits script.now (record { ended = ended.now; lines = lines; looks = looks; backups = backups }) result }
{
    if !told.is_whole {
        return Err(entry_at(told.history.len()));
    }
    is_answered(alloc, script, &told.history, ended)
}

/// The audit of a report whose history has been told from its lines.
fn audit_told(
    alloc: Global,
    script: &Audited,
    told: &LineHistory,
    ended: &Ends,
) -> Result<(), AuditFault>
    requires made { AreMade script.now.schemas }
    requires sorted { IsSorted script.now.opened.objects }
    requires performed { ArePerformed script.now.clients told.now.history }
    ensures { (lines : List Line) (looks : List Look) (backups : List Backup) → IsTold script.now.clients lines told.now.history told.now.is_whole → Audits script.now (record { ended = ended.now; lines = lines; looks = looks; backups = backups }) result }
{
    match is_legal(alloc, script, &told.history) {
        Ok(()) => audit_legal(alloc, script, told, ended),
        Err(fault) => Err(fault),
    }
}

/// Whether a report is true of a script: its lines tell one legal serial history of the script's items, which answers
/// each of them once, as its line says, and each client's in its order. Else the first line that isn't so: first the lines
/// of the history are judged, in their order, and then those of the items.
///
/// It takes time and memory in proportion to what the script's run takes on one thread. How often an item was tried, why it was
/// refused, and the lines behind the history are not judged.
pub fn audit(alloc: Global, script: &Audited, report: Report) -> Result<(), AuditFault>
    requires made { AreMade script.now.schemas }
    requires sorted { IsSorted script.now.opened.objects }
    ensures { Audits script.now report result }
{
    let Report {
        ended,
        lines,
        looks: _,
        backups: _,
    } = report;
    let told = told(alloc, script.clients.as_slice(), lines)?;
    audit_told(alloc, script, &told, &ended)
}
