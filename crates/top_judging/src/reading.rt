//! The script that a plan asks for: that of the source, or a generated one.

ghost use Rattle.script_bank.specs.Bank.{script_text};
ghost use Rattle.std.specs.Prelude.{IfErr, IfOk, IfSome, None, length, ◌≡◌, ◌≤◌};
ghost use Rattle.std.specs.String.{string_bytes};
ghost use Rattle.top_judging.specs.Origins.{IsScriptFor, RepliesUnreadFor};
ghost use Rattle.top_judging.specs.Stages.{IsRead, IsReadFrom, RepliesOver, RepliesText, RepliesUnread};
ghost use Rattle.top_statement.specs.Top.{IsOverScript, origin_of, told_by};

use crate::auditing::audit_source;
use outside::{ReadAll, Source, read_all};
use script_bank::generate;
use script_parse::{ReadError, Script, read_script};
use std::alloc::Global;
use thor_value::NoMemory;
use top_reply::Reply;
use top_words::{Command, Plan};

/// The most bytes that a script may have.
pub const SCRIPT_LIMIT: usize = 8_388_608;

/// The most clients that a script may have.
const CLIENT_LIMIT: usize = 64;

/// The most events that a schedule may have.
const EVENT_LIMIT: usize = 1_000_000;

/// The limit on clients or events that a script passes.
fn script_limit(script: &Script) -> Option<u64>
    ensures passed { IfSome result (λ limit. IsOverScript script.now limit) }
    ensures clients { result ≡ None → length script.now.clients ≤ 64 }
    ensures events { result ≡ None → length script.now.events ≤ 1000000 }
{
    if CLIENT_LIMIT < script.clients.len() {
        return Some(CLIENT_LIMIT as u64);
    }
    if EVENT_LIMIT < script.events.len() {
        return Some(EVENT_LIMIT as u64);
    }
    None
}

/// A script that passes no limit of its own; else the reply.
fn within_limits(script: Script) -> Result<Script, Result<Reply, NoMemory>>
    ensures script { IfOk result (λ within. within ≡ script) }
    ensures clients { IfOk result (λ within. length within.clients ≤ 64) }
    ensures events { IfOk result (λ within. length within.events ≤ 1000000) }
    ensures reply { IfErr result (λ reply. IfOk reply (RepliesOver script)) }
{
    match script_limit(&script) {
        Some(limit) => {
            drop(script);
            Err(Ok(Reply::Limit { limit }))
        }
        None => Ok(script),
    }
}

/// The script that bytes are; else the reply.
pub(crate) fn read_bytes(alloc: Global, bytes: &[u8]) -> Result<Script, Result<Reply, NoMemory>>
    ensures script { IfOk result (IsRead bytes.now) }
    ensures reply { IfErr result (λ reply. IfOk reply (RepliesText bytes.now)) }
{
    match read_script(alloc, bytes) {
        Ok(script) => within_limits(script),
        Err(ReadError::Refused(refusal)) => Err(Ok(Reply::Refused { refusal })),
        Err(ReadError::NoMemory) => Err(Err(NoMemory)),
    }
}

/// The script that the source gives; else the reply.
fn read_source<S: Source>(alloc: Global, source: &mut S) -> Result<Script, Result<Reply, NoMemory>>
    ensures script { IfOk result (IsReadFrom (told_by S.left S.faults source.old) (told_by S.left S.faults source.new)) }
    ensures reply { IfErr result (λ reply. IfOk reply (RepliesUnread (told_by S.left S.faults source.old) (told_by S.left S.faults source.new))) }
{
    match read_all(alloc, source, SCRIPT_LIMIT) {
        Ok(bytes) => read_bytes(alloc, bytes.as_slice()),
        Err(ReadAll::Failed) => Err(Ok(Reply::SourceFault)),
        Err(ReadAll::Over) => Err(Ok(Reply::Limit {
            limit: SCRIPT_LIMIT as u64,
        })),
        Err(ReadAll::NoMemory) => Err(Err(NoMemory)),
    }
}

/// The generated text of a number over so many repositories, of which there is at least one.
fn generated(alloc: Global, n: u16, repos: u8) -> Result<String, NoMemory>
    ensures { IfOk result (λ text. string_bytes text ≡ script_text n repos) }
{
    if repos == 0 {
        return Err(NoMemory);
    }
    generate(alloc, n, repos)
}

/// The generated script of a number; else the reply.
fn generated_script(alloc: Global, n: u16, repos: u8) -> Result<Script, Result<Reply, NoMemory>>
    ensures script { IfOk result (IsRead (script_text n repos)) }
    ensures reply { IfErr result (λ reply. IfOk reply (RepliesText (script_text n repos))) }
{
    match generated(alloc, n, repos) {
        Ok(text) => read_bytes(alloc, text.as_bytes()),
        Err(NoMemory) => Err(Err(NoMemory)),
    }
}

/// The script that a plan asks for; else the reply. An audit runs no script, so it has a reply.
pub fn script_of<S: Source>(
    alloc: Global,
    plan: &Plan,
    source: &mut S,
) -> Result<Script, Result<Reply, NoMemory>>
    ensures script { IfOk result (IsScriptFor (origin_of plan.now.command) plan.now.repos (told_by S.left S.faults source.old) (told_by S.left S.faults source.new)) }
    ensures reply { IfErr result (λ reply. IfOk reply (RepliesUnreadFor (origin_of plan.now.command) plan.now (told_by S.left S.faults source.old) (told_by S.left S.faults source.new))) }
{
    match plan.command {
        Command::Check | Command::Play | Command::Run => read_source(alloc, source),
        Command::Gen { n } => generated_script(alloc, n, plan.repos),
        Command::Audit => Err(audit_source(alloc, plan, source)),
    }
}
