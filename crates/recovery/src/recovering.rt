ghost use Rattle.std.specs.List.{AllByRecursion, fold};
ghost use Rattle.std.specs.Option.{IfSome, IsSome, option_and_then, option_map};
ghost use Rattle.std.specs.Prelude.{◌≡◌, ◌<◌, ◌^◌, ◌≤◌, ◌⊎◌, Err, IfOk, IsErrOf, List, None, Ok, OnOk, Some, false, map, ℕ, ◌||◌};
ghost use Rattle.disk_trait.specs.AllDisks.{AllSettled, LeavesAll, MayLeaveAll, NoFault, ReadsAs, SameContent};
ghost use Rattle.disk_trait.specs.Disks.{Disks, Rose};
ghost use Rattle.log_entries.specs.declared.entry.Entry.{Entry as AnyEntry};
ghost use Rattle.repo_state.specs.Entering.{can_enter};
ghost use Rattle.repo_state.specs.Keeps.{IsUnread, Keeps};
ghost use Rattle.repo_state.specs.Said.{said};
ghost use Rattle.repo_state.specs.declared.fault.HoldFault.TheVariants.{Unfit};
ghost use Rattle.log_codec.specs.Checkpoint.{StateFits};
ghost use Rattle.log_codec.specs.Grammar.{BodyFits};
ghost use Rattle.log_codec.specs.declared.body.Body.TheVariants.{Entry as AnEntry};
ghost use Rattle.log_codec.specs.declared.state.State.{State as AState};
ghost use Rattle.log_frame.specs.Log.{Stands};
ghost use Rattle.page_store.specs.Sides.{ReachesSides};
ghost use Rattle.page_store.specs.Store.{Agrees};
ghost use Rattle.recovery.specs.Damage.{CantPut, Counted, Fault, IsBroken, IsDamaged, put_on};
ghost use Rattle.page_format.specs.declared.format.StoreFormat.TheVariants.{Two};
ghost use Rattle.recovery.specs.Found.{IsRecovered, recorded};
ghost use Rattle.recovery.specs.Reopening.{prepares_kept, reopened, reopens, reopens_in};
ghost use Rattle.recovery.specs.declared.fault.RecoverFault.TheVariants.{Damaged, Failed, NoMemory as OutOfMemory};
ghost use Rattle.commit_log.specs.Holds.{Holds};
ghost use Rattle.commit_log.specs.Opening.{IsFresh, IsTorn, log_of};
ghost use Rattle.commit_log.specs.Recovered.{in_format, next, stands, state_in, whole};

use crate::bodies::{first_gate, read_bodies, read_head};
use crate::fault::{RecoverFault, found_fault};
use crate::recovered::Recovered;
use commit_log::{CommitLog, open_logs};
use disk_trait::Parts;
use log_codec::{Body, State};
use log_entries::Entry;
use log_frame::Records;
use page_format::StoreFormat;
use repo_state::{HeldState, HoldFault};
use std::alloc::Global;
use thor_value::{Sequence, Text};

/// The end of the sequences that a log can have.
const SEQUENCE_END: u64 = 4_611_686_018_427_387_904;

/// Reads a repository from its logs; `None` where neither log disk has an open header. The disks stay as
/// they were.
///
/// `Damaged` tells where the disks have no bytes of a repository, and stand for no state: a log's place as
/// `open_logs` tells it, a record's gate where its body is none, and 0 where a sequence or a checkpoint is none,
/// or where a record can't stand in a log: it writes under a name of another repository.
pub fn recover<P: Parts>(
    alloc: Global,
    parts: &mut P,
    mob_limit: u32,
) -> Result<Option<Recovered>, RecoverFault>
    requires { AllSettled (P.disks parts.old) }
    ensures any_moment { LeavesAll (P.disks parts.old) (P.disks parts.new) (MayLeaveAll (P.disks parts.old) (P.disks parts.old).time) }
    ensures settled { AllSettled (P.disks parts.new) }
    ensures content { SameContent (P.disks parts.old) (P.disks parts.new) }
    ensures keeps { IfOk result (λ found. IfSome found (λ r. Keeps r.state)) }
    ensures limit { IfOk result (λ found. IfSome found (λ r. r.state.objects.mob.limit ≡ mob_limit)) }
    ensures pages { IfOk result (λ found. IfSome found (λ r. (disk : List ℕ) → ReachesSides r.state.objects.pages.sides disk → Agrees r.state.objects.pages disk)) }
    ensures holds { IfOk result (λ found. IfSome found (λ r. Holds (P.disks parts.new) r.log (recorded r))) }
    ensures found { (images : ℕ → List ℕ) → ReadsAs (P.disks parts.old) images → IfOk result (λ found. stands images ≡ option_map recorded found) }
    ensures reopens { (images : ℕ → List ℕ) → ReadsAs (P.disks parts.old) images → IfOk result (λ found. IfSome found (λ r. r.reopens ≡ reopens images)) }
    ensures fresh { (images : ℕ → List ℕ) → ReadsAs (P.disks parts.old) images → result ≡ Ok None → IsFresh images }
    ensures damaged { (images : ℕ → List ℕ) (d place : ℕ) → ReadsAs (P.disks parts.old) images → IsErrOf result (Damaged d place) → IsDamaged images d place }
    ensures lost { (images : ℕ → List ℕ) (d place : ℕ) → ReadsAs (P.disks parts.old) images → IsErrOf result (Damaged d place) → stands images ≡ None }
    ensures failed { (d : ℕ) → IsErrOf result (Failed d) → Rose ((P.disks parts.old).faults d) ((P.disks parts.new).faults d) }
    ensures disk { (d : ℕ) → IsErrOf result (Failed d) → d < 2 }
    ensures steady { OnOk result (NoFault (P.disks parts.old) (P.disks parts.new)) }
    ensures wanting { IsErrOf result OutOfMemory → NoFault (P.disks parts.old) (P.disks parts.new) }
    ensures harmed { (d place : ℕ) → IsErrOf result (Damaged d place) → NoFault (P.disks parts.old) (P.disks parts.new) }
{
    match open_logs(alloc, parts) {
        Ok(found) => replay_found(alloc, found, mob_limit),
        Err(fault) => Err(found_fault(fault)),
    }
}

// What was found, with its state.
fn replay_found(
    alloc: Global,
    found: Option<(CommitLog, Text, Records)>,
    mob_limit: u32,
) -> Result<Option<Recovered>, RecoverFault>
    ensures recovered { IfOk result (IsRecovered found) }
    ensures limit { IfOk result (λ answer. IfSome answer (λ r. r.state.objects.mob.limit ≡ mob_limit)) }
    ensures damaged { (d place : ℕ) → IsErrOf result (Damaged d place) → IfSome found (λ f. (d ≡ f.0.disk) × Fault (log_of f) place) }
    ensures damaged_some { (d place : ℕ) → IsErrOf result (Damaged d place) → IsSome found }
    ensures failed { (d : ℕ) → IsErrOf result (Failed d) → ⊥ }
{
    match found {
        None => Ok(None),
        Some((log, head, records)) => {
            let replayed = replay(alloc, &log, &head, &records, mob_limit)?;
            let (state, format, count, reopens) = replayed;
            Ok(Some(Recovered {
                state,
                log,
                format,
                count,
                reopens,
            }))
        }
    }
}

// The state of a log's checkpoint and its records, with the checkpoint's format and count, and whether a record prepares
// what is decided.
fn replay(
    alloc: Global,
    log: &CommitLog,
    head: &Text,
    records: &Records,
    mob_limit: u32,
) -> Result<(HeldState, StoreFormat, u64, bool), RecoverFault>
    ensures state { IfOk result (λ r. state_in (log_of (log.now, head.now, records.now)) ≡ Some (in_format r.1 (said r.0))) }
    ensures keeps { IfOk result (λ r. Keeps r.0) }
    ensures unread { IfOk result (λ r. IsUnread r.0.objects.pages) }
    ensures limit { IfOk result (λ r. r.0.objects.mob.limit ≡ mob_limit) }
    ensures count { IfOk result (λ r. Counted head.now r.2) }
    ensures reopens { IfOk result (λ r. r.3 ≡ reopens_in (log_of (log.now, head.now, records.now))) }
    ensures damaged { (d place : ℕ) → IsErrOf result (Damaged d place) → (d ≡ log.now.disk) × Fault (log_of (log.now, head.now, records.now)) place }
    ensures failed { (d : ℕ) → IsErrOf result (Failed d) → ⊥ }
{
    let disk = disk_of(log)?;
    let state = read_head(alloc, disk, head)?;
    let format = state.format;
    let count = state.count;
    let first = first_gate(head);
    let bodies = read_bodies(alloc, disk, first, records.as_slice())?;
    let mut reopens = false;
    let held = hold_on(alloc, disk, state, &bodies, mob_limit, &mut reopens)?;
    Ok((held, format, count, reopens))
}

// The disk of a log whose sequence is one that a log can have.
fn disk_of(log: &CommitLog) -> Result<u8, RecoverFault>
    ensures disk { IfOk result (λ disk. disk ≡ log.now.disk) }
    ensures small { OnOk result (log.now.sequence < 2 ^ 62) }
    ensures damaged { (d place : ℕ) → IsErrOf result (Damaged d place) → (d ≡ log.now.disk) × (place ≡ 0) × (2 ^ 62 ≤ log.now.sequence) }
    ensures failed { (d : ℕ) → IsErrOf result (Failed d) → ⊥ }
{
    let disk = log.disk();
    if log.sequence() < SEQUENCE_END {
        Ok(disk)
    } else {
        Err(RecoverFault::Damaged { disk, place: 0 })
    }
}

// A checkpoint's state with all bodies behind it, where the checkpoint stands on this disk.
fn hold_on(
    alloc: Global,
    disk: u8,
    state: State,
    bodies: &Sequence<Body>,
    mob_limit: u32,
    reopens: &mut bool,
) -> Result<HeldState, RecoverFault>
    requires fits { StateFits state }
    requires fit { AllByRecursion BodyFits bodies.now }
    ensures keeps { IfOk result Keeps }
    ensures unread { IfOk result (λ held. IsUnread held.objects.pages) }
    ensures limit { IfOk result (λ held. held.objects.mob.limit ≡ mob_limit) }
    ensures said { IfOk result (λ held. fold put_on (whole (in_format Two state)) bodies.now ≡ Some (said held)) }
    ensures reopens { OnOk result (reopens.new ≡ (reopens.old || reopened (whole (in_format Two state)) (map Some bodies.now))) }
    ensures damaged { (d place : ℕ) → IsErrOf result (Damaged d place) → (d ≡ disk) × (place ≡ 0) × (IsBroken (in_format Two state) ⊎ CantPut (whole (in_format Two state)) bodies.now) }
    ensures failed { (d : ℕ) → IsErrOf result (Failed d) → ⊥ }
{
    match hold(alloc, state, bodies, mob_limit, reopens) {
        Ok(held) => Ok(held),
        Err(HoldFault::Unfit) => Err(RecoverFault::Damaged { disk, place: 0 }),
        Err(HoldFault::NoMemory) => Err(RecoverFault::NoMemory),
    }
}

// A checkpoint's state with all bodies behind it.
fn hold(
    alloc: Global,
    state: State,
    bodies: &Sequence<Body>,
    mob_limit: u32,
    reopens: &mut bool,
) -> Result<HeldState, HoldFault>
    requires fits { StateFits state }
    requires fit { AllByRecursion BodyFits bodies.now }
    ensures keeps { IfOk result Keeps }
    ensures unread { IfOk result (λ held. IsUnread held.objects.pages) }
    ensures limit { IfOk result (λ held. held.objects.mob.limit ≡ mob_limit) }
    ensures said { IfOk result (λ held. fold put_on (whole (in_format Two state)) bodies.now ≡ Some (said held)) }
    ensures reopens { OnOk result (reopens.new ≡ (reopens.old || reopened (whole (in_format Two state)) (map Some bodies.now))) }
    ensures unfit { result ≡ Err Unfit → IsBroken (in_format Two state) ⊎ CantPut (whole (in_format Two state)) bodies.now }
{
    let mut held = HeldState::of(alloc, state, mob_limit)?;
    put_all(&mut held, bodies.as_slice(), reopens)?;
    Ok(held)
}

// Puts records behind a state, and tells whether one prepares what is decided.
fn put_all(held: &mut HeldState, bodies: &[Body], reopens: &mut bool) -> Result<(), HoldFault>
    requires fit { AllByRecursion BodyFits bodies.now }
    requires keeps { Keeps held.old }
    requires unread { IsUnread held.old.objects.pages }
    ensures keeps { OnOk result (Keeps held.new) }
    ensures unread { OnOk result (IsUnread held.new.objects.pages) }
    ensures limit { OnOk result (held.new.objects.mob.limit ≡ held.old.objects.mob.limit) }
    ensures said { OnOk result (fold put_on (Some (said held.old)) bodies.now ≡ Some (said held.new)) }
    ensures reopens { OnOk result (reopens.new ≡ (reopens.old || reopened (Some (said held.old)) (map Some bodies.now))) }
    ensures unfit { result ≡ Err Unfit → CantPut (Some (said held.old)) bodies.now }
{
    for body in bodies {
        *reopens |= put_next(held, body)?;
    }
    Ok(())
}

// Puts one record behind a state, and tells whether it prepares what is decided.
fn put_next(held: &mut HeldState, body: &Body) -> Result<bool, HoldFault>
    requires fits { BodyFits body.now }
    requires keeps { Keeps held.old }
    requires unread { IsUnread held.old.objects.pages }
    ensures keeps { OnOk result (Keeps held.new) }
    ensures unread { OnOk result (IsUnread held.new.objects.pages) }
    ensures limit { OnOk result (held.new.objects.mob.limit ≡ held.old.objects.mob.limit) }
    ensures said { OnOk result (next (said held.old) body.now ≡ Some (said held.new)) }
    ensures reopens { IfOk result (λ prepares. prepares ≡ prepares_kept (said held.old) body.now) }
    ensures unfit { result ≡ Err Unfit → (entry : AnyEntry) × (body.now ≡ AnEntry entry) × (can_enter held.old entry ≡ false) }
{
    let prepares = prepares_kept(held, body);
    put_behind(held, body)?;
    Ok(prepares)
}

// Whether a record prepares a transaction on which a decision is kept.
#[tactic(auto, using(crate::proofs::Reopened::kept_said))]
fn prepares_kept(held: &HeldState, body: &Body) -> bool
    requires { Keeps held.now }
    ensures { result ≡ prepares_kept (said held.now) body.now }
{
    match body {
        Body::Entry(Entry::Prepared { request }) => held.table().keeps(request.tx),
        Body::Entry(_) | Body::Installed { .. } => false,
    }
}

// Puts one record behind a state.
#[tactic(auto, using(repo_state::proofs::Limits::entered_limit, crate::proofs::Replayed::next_is))]
fn put_behind(held: &mut HeldState, body: &Body) -> Result<(), HoldFault>
    requires fits { BodyFits body.now }
    requires keeps { Keeps held.old }
    requires unread { IsUnread held.old.objects.pages }
    ensures keeps { OnOk result (Keeps held.new) }
    ensures unread { OnOk result (IsUnread held.new.objects.pages) }
    ensures limit { OnOk result (held.new.objects.mob.limit ≡ held.old.objects.mob.limit) }
    ensures said { OnOk result (next (said held.old) body.now ≡ Some (said held.new)) }
    ensures unfit { result ≡ Err Unfit → (entry : AnyEntry) × (body.now ≡ AnEntry entry) × (can_enter held.old entry ≡ false) }
{
    match body {
        Body::Entry(entry) => {
            if !held.takes(entry) {
                return Err(HoldFault::Unfit);
            }
            held.enter(entry)?;
        }
        Body::Installed { page, side } => held.installed(*page, *side)?,
    }
    Ok(())
}
