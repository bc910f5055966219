//! The check of what a run tells, made before anything of it is written.

ghost use Rattle.std.specs.Prelude.{◌≡◌, IfOk, true};
ghost use Rattle.std.specs.List.{list_all, list_any};
ghost use Rattle.serial_model.specs.History.{IsLegal, after};
ghost use Rattle.class_defs.specs.declared.store.Plain.{Plain};
ghost use Rattle.top_reply.specs.Reports as spec;
ghost use Rattle.top_reply.specs.Replies.{run_reply};
ghost use Rattle.top_reply.specs.Reports.{IsReported, IsReportedWith, IsRunWith, TellsAs};
ghost use Rattle.thor_value.specs.FiniteMap.{IsSorted};

use crate::form::Form;
use crate::reply::Reply;
use crate::running::Running;
use crate::untold::Untold;
use base_reasons::Reason;
use class_defs::{Plain, Schemas};
use report_summary::{accounts_sum, print_summary};
use report_text::print_report;
use script_parse::{Items, Script};
use serial_model::{Cause, Ended, Ends, ItemOutcome, are_made};
use std::alloc::Global;
use std::mem;
use thor_value::{NoMemory, Text};
use top_history_check::{CheckedHistory, Lines, checked_history};

/// Whether an item was done or ended in a fault.
fn is_finished(ended: &Ended) -> bool
    ensures { result ≡ spec.is_finished ended.now }
{
    match ended.outcome {
        ItemOutcome::Done { .. } | ItemOutcome::Upgraded { .. } | ItemOutcome::Faulted { .. } =>
            true,
        ItemOutcome::Refused { .. } | ItemOutcome::Unknown { .. } => false,
    }
}

/// Whether all items were done or ended in a fault.
fn are_finished(ends: &[Ended]) -> bool
    ensures { result ≡ list_all spec.is_finished ends.now }
{
    for ended in ends {
        if !is_finished(ended) {
            return false;
        }
    }
    true
}

/// Whether a client has items.
fn is_busy(items: &Items) -> bool
    ensures { result ≡ spec.is_busy items.now }
{
    !items.is_empty()
}

/// Whether one of the clients has items.
fn are_busy(clients: &[Items]) -> bool
    ensures { result ≡ list_any spec.is_busy clients.now }
{
    for client in clients {
        if is_busy(client) {
            return true;
        }
    }
    false
}

/// Whether client 1 alone has items.
fn is_alone(clients: &[Items]) -> bool
    ensures { result ≡ spec.is_alone clients.now }
{
    match clients {
        [] => true,
        [_first, others @ ..] => !are_busy(others),
    }
}

/// Whether a script has a setup, one client with items, and no events.
fn runs_alone(script: &Script) -> bool
    ensures { result ≡ spec.runs_alone script.now }
{
    script.setup.is_some() && (is_alone(script.clients.as_slice()) && script.events.len() == 0)
}

/// Whether an item may be refused for this where no other client and no event is there: for a disk or for a limit.
fn can_come_alone(cause: &Cause) -> bool
    ensures { result ≡ spec.can_come_alone cause.now }
{
    match cause {
        Cause::Missing { .. }
        | Cause::Down { .. }
        | Cause::Reason(Reason::Full { .. } | Reason::ClockEnd)
        | Cause::Calls => true,
        Cause::Reason(
            Reason::Stale { .. }
            | Reason::Earlier { .. }
            | Reason::Later { .. }
            | Reason::TooOld { .. }
            | Reason::Epoch { .. }
            | Reason::Blocked { .. }
            | Reason::Gone { .. },
        ) => false,
    }
}

/// Whether an item that no other client hinders may have been tried so often, by the clock of a run on threads.
fn may_be_tried(running: Running, tries: u32) -> bool
    ensures { result ≡ spec.may_be_tried running tries }
{
    match running {
        Running::InTurn => tries == 1,
        Running::OnThreads => true,
    }
}

/// Whether an item ended as one that no other client hinders.
fn ends_at_once(running: Running, ended: &Ended) -> bool
    ensures { result ≡ spec.ends_at_once running ended.now }
{
    match &ended.outcome {
        ItemOutcome::Done { .. } | ItemOutcome::Upgraded { .. } | ItemOutcome::Faulted { .. } =>
            may_be_tried(running, ended.tries),
        ItemOutcome::Refused { cause } => can_come_alone(cause),
        ItemOutcome::Unknown { .. } => true,
    }
}

/// Whether all items ended so.
fn end_at_once(running: Running, ends: &[Ended]) -> bool
    ensures { result ≡ list_all (spec.ends_at_once running) ends.now }
{
    for ended in ends {
        if !ends_at_once(running, ended) {
            return false;
        }
    }
    true
}

/// Whether the items of a client that is alone ended at once.
fn is_unhindered(running: Running, script: &Script, ends: &[Ended]) -> bool
    ensures { result ≡ true → spec.runs_alone script.now ≡ true → list_all (spec.ends_at_once running) ends.now ≡ true }
{
    !runs_alone(script) || end_at_once(running, ends)
}

/// The text of a run whose history was checked.
fn run_text(
    alloc: Global,
    form: Form,
    schemas: &Schemas,
    ends: &Ends,
    checked: &CheckedHistory,
) -> Result<Text, NoMemory>
    ensures text { (store : Plain) → checked.now.end ≡ after schemas.now checked.now.history store → IfOk result (λ text. text ≡ spec.run_text form schemas.now store ends.now checked.now.history) }
    ensures tells { (store : Plain) → IsLegal schemas.now checked.now.history store → IfOk result (λ text. TellsAs form ends.now checked.now.history text) }
{
    match form {
        Form::Report => print_report(alloc, ends, &checked.history),
        Form::Summary => {
            let sum = accounts_sum(alloc, schemas, &checked.end)?;
            print_summary(alloc, ends, sum)
        }
    }
}

/// The text of a run, and whether all its items are finished.
#[derive(Drop)]
struct ToldRun {
    finished: bool,
    text: Text,
}

/// A run in a form, where its history is a serial one from the store and answers the items.
fn told_run(
    alloc: Global,
    running: Running,
    form: Form,
    schemas: &Schemas,
    store: &Plain,
    script: &Script,
    lines: Lines,
    ends: &Ends,
) -> Result<ToldRun, Untold>
    requires { IsSorted store.now.objects }
    ensures { IfOk result (λ run. IsRunWith lines running form schemas.now store.now script.now run.finished run.text) }
{
    if !are_made(schemas) || !is_unhindered(running, script, ends.as_slice()) {
        return Err(Untold::Unsound);
    }
    match checked_history(alloc, schemas, store, &script.clients, lines, ends)? {
        Some(checked) => {
            let text = run_text(alloc, form, schemas, ends, &checked);
            mem::forget(checked);
            Ok(ToldRun {
                finished: are_finished(ends.as_slice()),
                text: text?,
            })
        }
        None => Err(Untold::Unsound),
    }
}

/// The reply that tells a run in a form.
fn run_reply(form: Form, run: ToldRun) -> Reply
    ensures { result ≡ run_reply form run.finished run.text }
{
    let ToldRun { finished, text } = run;
    match form {
        Form::Report => Reply::Report { finished, text },
        Form::Summary => Reply::Summary { finished, text },
    }
}

/// What is replied of a run, where its history is a serial one from the store and answers the items. Where it isn't,
/// nothing is told: it is `Unsound`.
pub fn report(
    alloc: Global,
    running: Running,
    form: Form,
    schemas: &Schemas,
    store: &Plain,
    script: &Script,
    lines: Lines,
    ends: &Ends,
) -> Result<Reply, Untold>
    requires { IsSorted store.now.objects }
    ensures reported { IfOk result (IsReported running form schemas.now store.now script.now) }
    // Its history has these lines.
    ensures lines { IfOk result (IsReportedWith lines running form schemas.now store.now script.now) }
{
    let run = told_run(alloc, running, form, schemas, store, script, lines, ends)?;
    Ok(run_reply(form, run))
}
