//! What a plan asks for is begun: its script and its store are read. No run is made here.

ghost use Rattle.repo_opening.specs.Same.{AreSame};
ghost use Rattle.script_parse.specs.Script.{HasFew};
ghost use Rattle.std.specs.Prelude.{IfErr, IfOk, List, Ok, length, vec_len, ℕ, ◌≡◌, ◌≤◌};
ghost use Rattle.store_opening.specs.Failing.{AreCalled, FailsAt};
ghost use Rattle.store_opening.specs.Counts.{HasParts, parts_in};
ghost use Rattle.store_opening.specs.Reading.{ReadAll};
ghost use Rattle.thor_top.specs.Stages.{Foretells, IsAwaited, IsAwaitedBy, IsForStore, IsPlayed};
ghost use Rattle.top_judging.specs.Stages.{IsJudged, RepliesUnsettled};
ghost use Rattle.top_reply.specs.declared.reply.Reply.TheVariants.{DiskFault};
ghost use Rattle.top_reply.specs.declared.reply.Reply.{Reply as AReply};
ghost use Rattle.top_statement.specs.Opening.{IsStoredBy};
ghost use Rattle.top_statement.specs.Kept.{WritesNothing};
ghost use Rattle.top_statement.specs.Telling.{TellsNoRun};
ghost use Rattle.top_statement.specs.Top.{IsForOthers, IsHanded, RepliesTo, Says, form_of, told_by};

use crate::opening::{FoundRun, run_on};
use disk_trait::Parts;
use outside::Source;
use script_parse::Script;
use std::alloc::Global;
use top_judging::{Judged, find, script_of};
use top_reply::{Form, Reply};
use top_statement::{Answered, are_parts_of, unplayed, untouched};
use top_words::{Command, Plan};

/// How a command tells a run, where it makes one.
fn form_of(command: Command) -> Option<Form>
    ensures { result ≡ form_of command }
{
    match command {
        Command::Check => None,
        Command::Play => Some(Form::Report),
        Command::Run => Some(Form::Report),
        Command::Gen { n: _ } => Some(Form::Summary),
        Command::Audit => None,
    }
}

/// The reply to a check of a script that breaks no rule.
fn checked<P: Parts>(alloc: Global, plan: &Plan, script: &Script, judged: Judged<P>) -> Answered<P>
    requires command { plan.now.command ≡ Command.Check }
    requires judged { IsJudged plan.now script.now judged.found.store judged.base }
    ensures reply { (given : List P) → IsStoredBy (ReadAll P.disks given) judged.found.store → IfOk result.reply (RepliesTo (ReadAll P.disks given) plan.now script.now) }
    ensures untold { TellsNoRun result.reply }
    ensures never { (repo : ℕ) → result.reply ≡ Ok (DiskFault repo) → ⊥ }
    ensures parts { vec_len result.parts ≡ parts_in judged.found }
    ensures same { (given : List P) → HasParts P.disks given judged.found → AreSame P.disks given result.parts.items }
{
    let Judged { base, found } = judged;
    drop(base);
    unplayed(alloc, Ok(Reply::Accepted), found.into_parts())
}

/// The run that a command asks for, on the store that was found. Else the reply, with the parts.
fn begin_judged<P: Parts>(
    alloc: Global,
    plan: &Plan,
    script: Script,
    judged: Judged<P>,
) -> Result<FoundRun<P>, Answered<P>>
    requires judged { IsJudged plan.now script judged.found.store judged.base }
    requires store { IsForStore plan.now.command }
    ensures foretells { (given : List P) → IsStoredBy (ReadAll P.disks given) judged.found.store → IfOk result (λ run. Foretells (RepliesTo (ReadAll P.disks given) plan.now script) run.expected) }
    ensures awaited { (given : List P) → IsStoredBy (ReadAll P.disks given) judged.found.store → IfOk result (λ run. IsAwaited (ReadAll P.disks given) plan.now script run.expected) }
    ensures played { IfOk result (λ run. IsPlayed plan.now.command) }
    ensures found { IfOk result (λ run. run.found ≡ judged.found) }
    ensures reply { (given : List P) → IsStoredBy (ReadAll P.disks given) judged.found.store → IfErr result (λ a. IfOk a.reply (RepliesTo (ReadAll P.disks given) plan.now script)) }
    ensures untold { IfErr result (λ a. TellsNoRun a.reply) }
    ensures parts { IfErr result (λ a. vec_len a.parts ≡ parts_in judged.found) }
    ensures never { (repo : ℕ) → IfErr result (λ a. a.reply ≡ Ok (DiskFault repo) → ⊥) }
    ensures kept { (given : List P) → HasParts P.disks given judged.found → IfErr result (λ a. WritesNothing plan.now.command a.reply → AreSame P.disks given a.parts.items) }
{
    match form_of(plan.command) {
        Some(form) => run_on(alloc, plan, form, script, judged),
        None => {
            let answered = checked(alloc, plan, &script, judged);
            drop(script);
            Err(answered)
        }
    }
}

/// Begins what a plan asks for with a script that was read.
fn begin_script<P: Parts>(
    alloc: Global,
    plan: &Plan,
    script: Script,
    parts: Vec<P>,
) -> Result<FoundRun<P>, Answered<P>>
    requires store { IsForStore plan.now.command }
    requires few { HasFew script.setup }
    requires clients { length script.clients ≤ 64 }
    requires events { length script.events ≤ 1000000 }
    ensures foretells { IfOk result (λ run. Foretells (RepliesTo (ReadAll P.disks parts.items) plan.now script) run.expected) }
    ensures awaited { IfOk result (λ run. IsAwaited (ReadAll P.disks parts.items) plan.now script run.expected) }
    ensures played { IfOk result (λ run. IsPlayed plan.now.command) }
    ensures count { IfOk result (λ run. parts_in run.found ≡ vec_len parts) }
    ensures found { IfOk result (λ run. HasParts P.disks parts.items run.found) }
    ensures called { IfOk result (λ run. AreCalled P.disks parts.items run.found.places.items) }
    ensures failed { (repo : ℕ) → IfErr result (λ a. a.reply ≡ Ok (DiskFault repo) → FailsAt P.disks parts.items a.parts.items repo) }
    ensures reply { IfErr result (λ a. IfOk a.reply (RepliesTo (ReadAll P.disks parts.items) plan.now script)) }
    ensures untold { IfErr result (λ a. TellsNoRun a.reply) }
    ensures parts { IfErr result (λ a. vec_len a.parts ≡ vec_len parts) }
    ensures kept { IfErr result (λ a. WritesNothing plan.now.command a.reply → AreSame P.disks parts.items a.parts.items) }
{
    match find(alloc, plan, &script, parts) {
        Ok(judged) => begin_judged(alloc, plan, script, judged),
        Err(answered) => {
            drop(script);
            Err(answered)
        }
    }
}

/// Begins what a plan asks for, on the parts: the store was found for the script's run. Else the reply, with the parts:
/// where words, script or store are refused, and behind a check or an audit, their disks are as they were.
pub(crate) fn begin<S: Source, P: Parts>(
    alloc: Global,
    plan: &Plan,
    source: &mut S,
    parts: Vec<P>,
) -> Result<FoundRun<P>, Answered<P>>
    ensures foretells { IfOk result (λ run. Foretells (Says (ReadAll P.disks parts.items) (IsHanded plan.now (vec_len parts)) (IsForOthers plan.now (vec_len parts)) (told_by S.left S.faults source.old) (told_by S.left S.faults source.new)) run.expected) }
    ensures awaited { IfOk result (λ run. IsAwaitedBy (ReadAll P.disks parts.items) (IsHanded plan.now (vec_len parts)) (told_by S.left S.faults source.old) (told_by S.left S.faults source.new) run.expected) }
    ensures fails { IfOk result (λ run. (r : AReply) → RepliesUnsettled r → Says (ReadAll P.disks parts.items) (IsHanded plan.now (vec_len parts)) (IsForOthers plan.now (vec_len parts)) (told_by S.left S.faults source.old) (told_by S.left S.faults source.new) r) }
    ensures played { IfOk result (λ run. IsPlayed plan.now.command) }
    ensures count { IfOk result (λ run. parts_in run.found ≡ vec_len parts) }
    ensures found { IfOk result (λ run. HasParts P.disks parts.items run.found) }
    ensures called { IfOk result (λ run. AreCalled P.disks parts.items run.found.places.items) }
    ensures failed { (repo : ℕ) → IfErr result (λ a. a.reply ≡ Ok (DiskFault repo) → FailsAt P.disks parts.items a.parts.items repo) }
    ensures reply { IfErr result (λ a. IfOk a.reply (Says (ReadAll P.disks parts.items) (IsHanded plan.now (vec_len parts)) (IsForOthers plan.now (vec_len parts)) (told_by S.left S.faults source.old) (told_by S.left S.faults source.new))) }
    ensures untold { IfErr result (λ a. TellsNoRun a.reply) }
    ensures parts { IfErr result (λ a. vec_len a.parts ≡ vec_len parts) }
    ensures kept { IfErr result (λ a. WritesNothing plan.now.command a.reply → AreSame P.disks parts.items a.parts.items) }
{
    if !are_parts_of(plan, parts.as_slice()) {
        return Err(untouched(alloc, Ok(Reply::Words), parts));
    }
    match script_of(alloc, plan, source) {
        Ok(script) => begin_script(alloc, plan, script, parts),
        Err(reply) => Err(untouched(alloc, reply, parts)),
    }
}
