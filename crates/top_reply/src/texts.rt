//! The status of a reply, and the texts that are made of numbers.

ghost use Rattle.std.specs.Prelude.{◌≡◌, IfOk};
ghost use Rattle.top_reply.specs.Replies.{status_of, status_of_run};
ghost use Rattle.top_reply.specs.Texts.{damaged_text, disagreement_text, disk_text, limit_text, no_report_text};

use crate::reply::Reply;
use crate::status::Status;
use audit_check::Disagreement;
use std::alloc::Global;
use std::fmt::Write;
use thor_value::{NoMemory, Text};

/// The status of a run, by whether all items are finished.
fn status_of_run(finished: bool) -> Status
    ensures { result ≡ status_of_run finished }
{
    if finished {
        Status::Done
    } else {
        Status::Unfinished
    }
}

/// The status with which the program ends that wrote this reply.
pub fn status_of(reply: &Reply) -> Status
    ensures { result ≡ status_of reply.now }
{
    match reply {
        Reply::Report { finished, .. } => status_of_run(*finished),
        Reply::Summary { finished, .. } => status_of_run(*finished),
        Reply::Accepted => Status::Done,
        Reply::Refused { .. } => Status::Script,
        Reply::Limit { .. } => Status::Limit,
        Reply::DiskFault { .. } => Status::DiskFault,
        Reply::Damaged { .. } => Status::Damaged,
        Reply::Words => Status::Words,
        Reply::SourceFault => Status::SourceFault,
        Reply::Legal => Status::Done,
        Reply::Disagrees { .. } => Status::Disagrees,
        Reply::NoReport { .. } => Status::Report,
    }
}

/// The text where a limit is passed.
#[tactic(auto, using(std::proofs::Common::append_assoc))]
pub fn limit_text(alloc: Global, limit: u64) -> Result<Text, NoMemory>
    ensures { IfOk result (λ text. text ≡ limit_text limit) }
{
    let mut out = String::new(alloc);
    write!(out, "limit {limit}\n")?;
    Ok(Text::from_vec(out.into_bytes()))
}

/// The text where a repository's disk failed.
#[tactic(auto, using(std::proofs::Common::append_assoc))]
pub fn disk_text(alloc: Global, repo: u8) -> Result<Text, NoMemory>
    ensures { IfOk result (λ text. text ≡ disk_text repo) }
{
    let mut out = String::new(alloc);
    write!(out, "disk {repo}\n")?;
    Ok(Text::from_vec(out.into_bytes()))
}

/// The text where a disk has bytes that are no store's.
#[tactic(auto, using(std::proofs::Common::append_assoc))]
pub fn damaged_text(alloc: Global, repo: u8, disk: u8, place: u64) -> Result<Text, NoMemory>
    ensures { IfOk result (λ text. text ≡ damaged_text repo disk place) }
{
    let mut out = String::new(alloc);
    write!(out, "damaged {repo} {disk} {place}\n")?;
    Ok(Text::from_vec(out.into_bytes()))
}

/// The text where a report isn't true of its script.
#[tactic(auto, using(std::proofs::Common::append_assoc))]
pub fn disagreement_text(alloc: Global, at: Disagreement) -> Result<Text, NoMemory>
    ensures { IfOk result (λ text. text ≡ disagreement_text at) }
{
    let mut out = String::new(alloc);
    match at {
        Disagreement::Entry { index } => write!(out, "entry {index}\n")?,
        Disagreement::Item { index } => write!(out, "item {index}\n")?,
    }
    Ok(Text::from_vec(out.into_bytes()))
}

/// The text where what should be a report is none.
#[tactic(auto, using(std::proofs::Common::append_assoc))]
pub fn no_report_text(alloc: Global, line: u32) -> Result<Text, NoMemory>
    ensures { IfOk result (λ text. text ≡ no_report_text line) }
{
    let mut out = String::new(alloc);
    write!(out, "report {line}\n")?;
    Ok(Text::from_vec(out.into_bytes()))
}
