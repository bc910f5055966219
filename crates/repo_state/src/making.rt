//! A checkpoint's state taken into memory.

ghost use Rattle.std.specs.List.{AllByRecursion, fold, list_all};
ghost use Rattle.std.specs.List.Sorted.{IsStrictlySortedBy};
ghost use Rattle.std.specs.Map.{keys_of};
ghost use Rattle.std.specs.Option.{is_some};
ghost use Rattle.std.specs.Ordering.{nat_cmp};
ghost use Rattle.std.specs.Prelude.{◌≡◌, Err, List, [], map, not, IfOk, IsTrue, None, OnOk, ℕ};
ghost use Rattle.log_entries.specs.RequestForm.{RequestFits, WriteFits};
ghost use Rattle.log_entries.specs.declared.request.Request.{Request as ARequest};
ghost use Rattle.commit_log.specs.Recovered.{are_of, buffered, request_at};
ghost use Rattle.repo_state.specs.Keeps.{IsUnread, TableFits};
ghost use Rattle.repo_state.specs.Making.{AlonesTo, IsTableOf, KeepsTo, OpensTo};
ghost use Rattle.repo_state.specs.declared.fault.HoldFault.TheVariants.{Unfit};
ghost use Rattle.log_codec.specs.Checkpoint.{StampFits, client_of, tx_of};
ghost use Rattle.mob_buffer.specs.Buffer.{AreDistinct, AreOf};
ghost use Rattle.thor_value.specs.Names.{ts_cmp};
ghost use Rattle.thor_value.specs.Spelling.{TsFits};
ghost use Rattle.thor_value.specs.declared.names.Ts.{Ts as ATs};
ghost use Rattle.two_phase.specs.Contents.{Contents};
ghost use Rattle.two_phase.specs.Lists.{kept_decisions, open_requests};

use crate::fault::HoldFault;
use crate::spelling::copy_of;
use crate::writes::are_of;
use log_codec::{Alones, Requests};
use mob_buffer::Mob;
use mob_flusher::ObjectStore;
use page_format::Sides;
use page_store::PageStore;
use std::alloc::Global;
use thor_value::{NoMemory, Stamps, Writes, both};
use two_phase::Table;

/// A table of these transactions. `Unfit` where one is both prepared and kept, or a prepared one writes
/// under a name of another repository.
pub(crate) fn table_of(
    alloc: Global,
    repo: u8,
    prepared: Requests,
    kept: Stamps,
    alone: Alones,
) -> Result<Table, HoldFault>
    requires prepared { AllByRecursion RequestFits prepared }
    requires prepared_rise { IsStrictlySortedBy ts_cmp (map tx_of prepared) }
    requires kept { AllByRecursion TsFits kept }
    requires kept_rise { IsStrictlySortedBy ts_cmp kept }
    requires alone { AllByRecursion StampFits alone }
    requires alone_rise { IsStrictlySortedBy nat_cmp (map client_of alone) }
    ensures made { IfOk result (IsTableOf repo prepared kept alone) }
    ensures unfit { result ≡ Err Unfit → (c : Contents) → TableFits repo c → open_requests c ≡ prepared → kept_decisions c ≡ kept → ⊥ }
    ensures broken { result ≡ Err Unfit → IsTrue (list_all (λ q. are_of repo q.writes) prepared) → IsTrue (list_all (λ t. not (is_some (request_at prepared t))) kept) → ⊥ }
{
    let mut table = Table::new(alloc)?;
    open_all(&mut table, repo, prepared)?;
    keep_all(&mut table, repo, kept)?;
    put_all(&mut table, repo, alone)?;
    Ok(table)
}

// Opens requests.
fn open_all(table: &mut Table, repo: u8, prepared: Requests) -> Result<(), HoldFault>
    requires to { OpensTo repo prepared table.old prepared }
    requires rise { IsStrictlySortedBy ts_cmp (map tx_of prepared) }
    ensures all { OnOk result (OpensTo repo prepared table.new []) }
    ensures unfit { result ≡ Err Unfit → (c : Contents) → TableFits repo c → open_requests c ≡ prepared → ⊥ }
    ensures broken { result ≡ Err Unfit → IsTrue (list_all (λ q. are_of repo q.writes) prepared) → ⊥ }
{
    for request in prepared.into_vec() {
        if !are_of(repo, request.writes.as_slice()) {
            return Err(HoldFault::Unfit);
        }
        table.open(request)?;
    }
    Ok(())
}

// Keeps decisions to commit.
fn keep_all(table: &mut Table, repo: u8, kept: Stamps) -> Result<(), HoldFault>
    requires rise { IsStrictlySortedBy ts_cmp kept }
    ensures all { (prepared : List ARequest) → KeepsTo repo prepared kept table.old kept → OnOk result (KeepsTo repo prepared kept table.new []) }
    ensures unfit { (prepared : List ARequest) → KeepsTo repo prepared kept table.old kept → result ≡ Err Unfit → (c : Contents) → TableFits repo c → open_requests c ≡ prepared → kept_decisions c ≡ kept → ⊥ }
    ensures broken { (prepared : List ARequest) → KeepsTo repo prepared kept table.old kept → result ≡ Err Unfit → IsTrue (list_all (λ t. not (is_some (request_at prepared t))) kept) → ⊥ }
{
    for tx in kept.into_vec() {
        if table.knows(tx) {
            return Err(HoldFault::Unfit);
        }
        table.keep(tx)?;
    }
    Ok(())
}

// Puts the last single commits.
fn put_all(table: &mut Table, repo: u8, alone: Alones) -> Result<(), HoldFault>
    requires rise { IsStrictlySortedBy nat_cmp (map client_of alone) }
    ensures all { (prepared : List ARequest) (decisions : List ATs) → AlonesTo repo prepared decisions alone table.old alone → OnOk result (AlonesTo repo prepared decisions alone table.new []) }
    ensures unfit { result ≡ Err Unfit → ⊥ }
{
    for (client, tx) in alone.into_vec() {
        table.alone(client, tx)?;
    }
    Ok(())
}

/// The objects of a buffer, in its order, over installed pages. `Unfit` where a name is of another
/// repository.
pub(crate) fn objects_of(
    alloc: Global,
    repo: u8,
    installed: &Sides,
    mob: Writes,
    mob_limit: u32,
) -> Result<ObjectStore, HoldFault>
    requires fit { AllByRecursion WriteFits mob }
    requires distinct { AreDistinct mob }
    ensures sides { IfOk result (λ objects. objects.pages.sides ≡ installed.now) }
    ensures unread { IfOk result (λ objects. IsUnread objects.pages) }
    ensures limit { IfOk result (λ objects. objects.mob.limit ≡ mob_limit) }
    ensures mob { IfOk result (λ objects. objects.mob.objects ≡ mob) }
    ensures one_repo { IfOk result (λ objects. AreOf repo objects.mob.objects) }
    ensures unfit { result ≡ Err Unfit → AreOf repo mob → ⊥ }
    ensures broken { result ≡ Err Unfit → IsTrue (are_of repo mob) → ⊥ }
{
    if !are_of(repo, mob.as_slice()) {
        return Err(HoldFault::Unfit);
    }
    let pages = PageStore::new(alloc, installed)?;
    let buffer = buffer_of(alloc, repo, mob, mob_limit)?;
    Ok(ObjectStore::new(alloc, pages, buffer))
}

/// The objects of a buffer that has older ones and then takes newer ones: each newer one stands in the place of the one under its
/// name, or behind the last.
#[tactic(auto, using(crate::proofs::Buffers::put_all_is))]
pub fn merged(alloc: Global, repo: u8, older: Writes, newer: &Writes) -> Result<Writes, NoMemory>
    requires older { AreOf repo older }
    requires distinct { AreDistinct older }
    requires newer { AreOf repo newer.now }
    ensures merged { IfOk result (λ objects. objects ≡ fold buffered older newer.now) }
    ensures distinct { IfOk result AreDistinct }
{
    let mut buffer = buffer_of(alloc, repo, older, u32::MAX)?;
    let loaded = buffer.load_all(newer);
    let (buffer, _) = both(buffer, loaded)?;
    let objects = copy_of(alloc, &buffer);
    drop(buffer);
    objects
}

// A buffer of these objects, in their order.
fn buffer_of(alloc: Global, repo: u8, mob: Writes, mob_limit: u32) -> Result<Mob, NoMemory>
    requires one_repo { AreOf repo mob }
    requires distinct { AreDistinct mob }
    ensures { IfOk result (λ buffer. buffer ≡ record { limit = mob_limit; objects = mob }) }
{
    let mut buffer = Mob::new(alloc, mob_limit)?;
    for (name, object) in mob.into_vec() {
        buffer.load(name, object)?;
    }
    Ok(buffer)
}
