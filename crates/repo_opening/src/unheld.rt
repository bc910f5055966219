//! The pages of a repository whose log can't be taken into memory.

ghost use Rattle.commit_log.specs.Opening.{log_of};
ghost use Rattle.disk_trait.specs.AllDisks.{AllSettled, GoesOn, ReadsAs};
ghost use Rattle.disk_trait.specs.Disks.{Rose, WhereTold};
ghost use Rattle.log_codec.specs.Checkpoint.{state_format};
ghost use Rattle.log_codec.specs.Format.{value_of};
ghost use Rattle.log_codec.specs.Grammar.{BodyFits};
ghost use Rattle.recovery.specs.Paged.{AreObjectPages, Stays};
ghost use Rattle.repo_opening.specs.Same.{Same};
ghost use Rattle.repo_opening.specs.Unsound.{Failing, HasPages, IsNoPage, LacksPage, said_pages, said_sides, side_put, sides_behind, sides_in};
ghost use Rattle.repo_opening.specs.declared.unopened.Unopened.TheVariants.{Damaged, Failed};
ghost use Rattle.std.specs.List.{fold};
ghost use Rattle.std.specs.Option.{option_and_then, option_map};
ghost use Rattle.std.specs.Prelude.{IfOk, IsErrOf, List, OnOk, Some, ◌≡◌, ℕ};

use crate::pages::read_pages;
use crate::unopened::Unopened;
use commit_log::{CommitLog, FindFault, open_logs};
use disk_trait::Parts;
use log_codec::{Body, BodyFault, read_body, read_state};
use log_frame::Records;
use page_format::{Sides, StoreFormat};
use std::alloc::Global;
use thor_value::{NoMemory, OrefMap, Text, TryCopy};

/// The end of the sequences that a log can have.
const SEQUENCE_END: u64 = 4_611_686_018_427_387_904;

/// Reads the pages that the log that counts says to be installed, whether it can be taken into memory or not. `Damaged` tells of the
/// first of them that isn't one. Where no log counts, or its sequence, its checkpoint or a body is none, nothing is read.
pub(crate) fn check_pages<P: Parts>(alloc: Global, parts: &mut P, repo: u8) -> Result<(), Unopened>
    requires { AllSettled (P.disks parts.old) }
    ensures settled { AllSettled (P.disks parts.new) }
    ensures same { Same (P.disks parts.old) (P.disks parts.new) }
    ensures goes { GoesOn (P.disks parts.old) (P.disks parts.new) }
    ensures pages { (images : ℕ → List ℕ) → ReadsAs (P.disks parts.old) images → OnOk result (HasPages repo (images 2) (said_pages images)) }
    ensures damaged { (images : ℕ → List ℕ) (r d place : ℕ) → ReadsAs (P.disks parts.old) images → IsErrOf result (Damaged r d place) → (r ≡ repo) × (d ≡ 2) × LacksPage repo (images 2) place (said_pages images) }
    ensures failed { (r : ℕ) → IsErrOf result (Failed r) → (r ≡ repo) × Failing (P.disks parts.old) (P.disks parts.new) }
{
    match open_logs(alloc, parts) {
        Ok(found) => check_found(alloc, parts, repo, found),
        Err(
            FindFault::Damaged {
                disk: _disk,
                place: _place,
            },
        ) => Ok(()),
        Err(FindFault::Failed { disk: _disk }) => Err(Unopened::Failed { repo }),
        Err(FindFault::NoMemory) => Err(Unopened::NoMemory),
    }
}

/// Reads the pages that a log says to be installed.
fn check_found<P: Parts>(
    alloc: Global,
    parts: &mut P,
    repo: u8,
    found: Option<(CommitLog, Text, Records)>,
) -> Result<(), Unopened>
    ensures stays { Stays (P.disks parts.old) (P.disks parts.new) }
    ensures pages { WhereTold (P.disks parts.old) 2 (λ disk. OnOk result (HasPages repo disk (option_and_then (λ f. said_sides (log_of f)) found))) }
    ensures damaged { (r d place : ℕ) → IsErrOf result (Damaged r d place) → (r ≡ repo) × (d ≡ 2) × WhereTold (P.disks parts.old) 2 (λ disk. LacksPage repo disk place (option_and_then (λ f. said_sides (log_of f)) found)) }
    ensures failed { (r : ℕ) → IsErrOf result (Failed r) → (r ≡ repo) × Rose ((P.disks parts.old).faults 2) ((P.disks parts.new).faults 2) }
{
    let said = said_by(alloc, found)?;
    check_said(alloc, parts, repo, said)
}

/// Reads pages, where some are said to be installed.
#[tactic(auto, using(recovery::proofs::Moving::stays_none))]
fn check_said<P: Parts>(
    alloc: Global,
    parts: &mut P,
    repo: u8,
    said: Option<(StoreFormat, Sides)>,
) -> Result<(), Unopened>
    ensures stays { Stays (P.disks parts.old) (P.disks parts.new) }
    ensures pages { WhereTold (P.disks parts.old) 2 (λ disk. OnOk result (HasPages repo disk said)) }
    ensures damaged { (r d place : ℕ) → IsErrOf result (Damaged r d place) → (r ≡ repo) × (d ≡ 2) × WhereTold (P.disks parts.old) 2 (λ disk. LacksPage repo disk place said) }
    ensures failed { (r : ℕ) → IsErrOf result (Failed r) → (r ≡ repo) × Rose ((P.disks parts.old).faults 2) ((P.disks parts.new).faults 2) }
{
    match said {
        None => Ok(()),
        Some((format, sides)) => check_sides(alloc, parts, repo, format, &sides),
    }
}

/// Reads these pages.
fn check_sides<P: Parts>(
    alloc: Global,
    parts: &mut P,
    repo: u8,
    format: StoreFormat,
    sides: &Sides,
) -> Result<(), Unopened>
    ensures stays { Stays (P.disks parts.old) (P.disks parts.new) }
    ensures pages { WhereTold (P.disks parts.old) 2 (λ disk. OnOk result (AreObjectPages format repo sides.now disk)) }
    ensures damaged { (r d place : ℕ) → IsErrOf result (Damaged r d place) → (r ≡ repo) × (d ≡ 2) × WhereTold (P.disks parts.old) 2 (λ disk. IsNoPage format repo disk sides.now place) }
    ensures failed { (r : ℕ) → IsErrOf result (Failed r) → (r ≡ repo) × Rose ((P.disks parts.old).faults 2) ((P.disks parts.new).faults 2) }
{
    let mut objects = OrefMap::new(alloc);
    match read_pages(alloc, parts, format, repo, sides, &mut objects) {
        Ok(_) => Ok(()),
        Err(fault) => Err(fault),
    }
}

/// What a log that was found says of installed pages.
fn said_by(
    alloc: Global,
    found: Option<(CommitLog, Text, Records)>,
) -> Result<Option<(StoreFormat, Sides)>, NoMemory>
    ensures { IfOk result (λ said. said ≡ option_and_then (λ f. said_sides (log_of f)) found) }
{
    match found {
        None => Ok(None),
        Some((log, head, records)) => said_in(alloc, &log, &head, &records),
    }
}

/// What a log says of installed pages, where its sequence is one that a log can have.
fn said_in(
    alloc: Global,
    log: &CommitLog,
    head: &Text,
    records: &Records,
) -> Result<Option<(StoreFormat, Sides)>, NoMemory>
    ensures { IfOk result (λ said. said ≡ said_sides (log_of (log.now, head.now, records.now))) }
{
    if log.sequence() < SEQUENCE_END {
        sides_in(alloc, head, records)
    } else {
        Ok(None)
    }
}

/// What a checkpoint, with the records behind it, says of installed pages.
fn sides_in(
    alloc: Global,
    head: &Text,
    records: &Records,
) -> Result<Option<(StoreFormat, Sides)>, NoMemory>
    ensures { IfOk result (λ said. said ≡ option_and_then (sides_in records.now) (value_of state_format head.now)) }
{
    match read_state(alloc, head.as_slice()) {
        Ok(state) => {
            let format = state.format;
            let installed = state.installed.copy();
            drop(state);
            let sides = with_records(alloc, installed?, records.as_slice())?;
            Ok(with_format(format, sides))
        }
        Err(BodyFault::NotOne) => Ok(None),
        Err(BodyFault::NoMemory) => Err(NoMemory),
    }
}

fn with_format(format: StoreFormat, sides: Option<Sides>) -> Option<(StoreFormat, Sides)>
    ensures { result ≡ option_map (λ s. (format, s)) sides }
{
    Some((format, sides?))
}

/// The sides in use behind records; none where the body of one is none.
fn with_records(
    alloc: Global,
    installed: Sides,
    records: &[Text],
) -> Result<Option<Sides>, NoMemory>
    ensures { IfOk result (λ sides. sides ≡ fold sides_behind (Some installed) records.now) }
{
    let mut sides = Some(installed);
    for spelled in records {
        sides = with_record(alloc, sides, spelled)?;
    }
    Ok(sides)
}

/// The sides in use behind one record more.
fn with_record(
    alloc: Global,
    before: Option<Sides>,
    spelled: &Text,
) -> Result<Option<Sides>, NoMemory>
    ensures { IfOk result (λ sides. sides ≡ sides_behind before spelled.now) }
{
    let Some(mut sides) = before else {
        return Ok(None);
    };
    match read_body(alloc, spelled.as_slice()) {
        Ok(body) => {
            put_body(&mut sides, &body)?;
            Ok(Some(sides))
        }
        Err(BodyFault::NotOne) => Ok(None),
        Err(BodyFault::NoMemory) => Err(NoMemory),
    }
}

/// Puts a side in use, where the body of a record says so.
fn put_body(sides: &mut Sides, body: &Body) -> Result<(), NoMemory>
    requires { BodyFits body.now }
    ensures { OnOk result (sides.new ≡ side_put sides.old body.now) }
{
    match body {
        Body::Entry(_) => Ok(()),
        Body::Installed { page, side } => sides.put(*page, *side),
    }
}
