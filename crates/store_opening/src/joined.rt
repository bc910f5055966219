//! The objects of all repositories as one map, with what transactions left prepared come to.

ghost use Rattle.std.specs.List.{filter, fold};
ghost use Rattle.std.specs.Prelude.{IfOk, OnOk, Some, [], map, slice_get, ◌++◌, ◌∷◌, ◌≡◌};
ghost use Rattle.store_opening.specs.Joined.{AreKept, IsKept, read_states, state_of};
ghost use Rattle.store_opening.specs.OpenedStore.{committing, is_committed, keeps_decision, joined, upgrades_of, with_repository};
ghost use Rattle.store_opening.specs.Fitting.{threshold_of};
ghost use Rattle.commit_log.specs.Recovered.{texts_after, threshold_after};
ghost use Rattle.thor_value.specs.FiniteMap.{overwrite};

use log_entries::{Kind, Request};
use mob_buffer::Mob;
use repo_opening::Read;
use repo_state::later_of;
use std::alloc::Global;
use thor_value::{NoMemory, Obj, OrefMap, Text, Texts, TryCopy, Ts, both};

/// What a repository comes to once its prepared transactions are taken as their coordinators decided.
#[derive(Drop)]
pub(crate) struct Settled {
    /// The texts of its upgrades.
    pub(crate) upgrades: Texts,
    /// The greatest timestamp of a transaction that committed there.
    pub(crate) threshold: Ts,
}

/// Whether a repository keeps the decision to commit a transaction.
pub(crate) fn keeps(read: &Read<'_>, tx: Ts) -> bool
    requires { IsKept read.now }
    ensures { result ≡ keeps_decision (Some (state_of read.now)) tx }
{
    read.recovered.state.table().keeps(tx)
}

/// Whether the coordinator of a transaction keeps the decision to commit it.
pub(crate) fn is_committed(store: &[Read<'_>], tx: Ts) -> bool
    requires { AreKept store.now }
    ensures { result ≡ is_committed (read_states store.now) tx }
{
    match store.get(usize::from(tx.repo)) {
        Some(coordinator) => keeps(coordinator, tx),
        None => false,
    }
}

/// The prepared requests of a repository that commit, by rising timestamp.
pub(crate) fn committing<'a>(
    alloc: Global,
    store: &[Read<'_>],
    read: &Read<'a>,
) -> Result<Vec<&'a Request>, NoMemory>
    requires store { AreKept store.now }
    requires read { IsKept read.now }
    ensures { IfOk result (λ requests. map (λ q. q.now) requests.items ≡ committing (read_states store.now) (state_of read.now)) }
{
    let mut requests = Vec::new(alloc);
    let mut after = None;
    for _ in 0..u64::MAX {
        let Some(request) = read.recovered.state.table().next_open(after) else {
            return Ok(requests);
        };
        after = Some(request.tx);
        push_committing(store, request, &mut requests)?;
    }
    Err(NoMemory)
}

/// Puts a request behind others, where it commits.
fn push_committing<'a>(
    store: &[Read<'_>],
    request: &'a Request,
    requests: &mut Vec<&'a Request>,
) -> Result<(), NoMemory>
    requires { AreKept store.now }
    ensures { OnOk result (map (λ q. q.now) requests.new.items ≡ map (λ q. q.now) requests.old.items ++ filter (λ q. is_committed (read_states store.now) q.tx) (request.now ∷ [])) }
{
    if is_committed(store, request.tx) {
        requests.push(request)?;
    }
    Ok(())
}

/// A repository with its prepared transactions taken.
pub(crate) fn settle_repository(
    alloc: Global,
    store: &[Read<'_>],
    read: &Read<'_>,
) -> Result<Settled, NoMemory>
    requires store { AreKept store.now }
    requires read { IsKept read.now }
    ensures upgrades { IfOk result (λ settled. settled.upgrades ≡ upgrades_of (read_states store.now) (state_of read.now)) }
    ensures threshold { IfOk result (λ settled. settled.threshold ≡ threshold_of (read_states store.now) (state_of read.now)) }
{
    let state = &read.recovered.state;
    let mut settled = Settled {
        upgrades: state.upgrades().copy()?,
        threshold: state.threshold(),
    };
    let requests = committing(alloc, store, read)?;
    commit_all(&mut settled, requests.as_slice())?;
    Ok(settled)
}

fn commit_all(settled: &mut Settled, requests: &[&Request]) -> Result<(), NoMemory>
    ensures threshold { OnOk result (settled.new.threshold ≡ fold (λ threshold q. threshold_after threshold q.kind q.tx) settled.old.threshold (map (λ q. q.now) requests.now)) }
    ensures upgrades { OnOk result (settled.new.upgrades ≡ fold (λ texts q. texts_after texts q.kind) settled.old.upgrades (map (λ q. q.now) requests.now)) }
{
    for request in requests {
        commit(settled, request)?;
    }
    Ok(())
}

fn commit(settled: &mut Settled, request: &Request) -> Result<(), NoMemory>
    ensures threshold { OnOk result (settled.new.threshold ≡ threshold_after settled.old.threshold request.now.kind request.now.tx) }
    ensures upgrades { OnOk result (settled.new.upgrades ≡ texts_after settled.old.upgrades request.now.kind) }
{
    match &request.kind {
        Kind::App | Kind::Transform => {
            settled.threshold = later_of(settled.threshold, request.tx);
            Ok(())
        }
        Kind::Upgrade { text } => {
            settled.threshold = request.tx;
            settled.upgrades.push(copy_of(text)?)
        }
    }
}

fn copy_of(text: &Text) -> Result<Text, NoMemory>
    ensures { IfOk result (λ copy. copy ≡ text.now) }
{
    text.copy()
}

/// The objects of all repositories, over those of their pages.
pub(crate) fn joined(
    alloc: Global,
    store: &[Read<'_>],
    paged: OrefMap<Obj>,
) -> Result<OrefMap<Obj>, NoMemory>
    requires { AreKept store.now }
    ensures { IfOk result (λ objects. objects ≡ joined (read_states store.now) paged) }
{
    let mut objects = paged;
    let taken = take_all(alloc, store, &mut objects);
    let (objects, _) = both(objects, taken)?;
    Ok(objects)
}

fn take_all(alloc: Global, store: &[Read<'_>], objects: &mut OrefMap<Obj>) -> Result<(), NoMemory>
    requires { AreKept store.now }
    ensures { OnOk result (objects.new ≡ joined (read_states store.now) objects.old) }
{
    for read in store {
        take_repository(alloc, store, read, objects)?;
    }
    Ok(())
}

/// Puts what stands over the pages of a repository into a map.
fn take_repository(
    alloc: Global,
    store: &[Read<'_>],
    read: &Read<'_>,
    objects: &mut OrefMap<Obj>,
) -> Result<(), NoMemory>
    requires store { AreKept store.now }
    requires read { IsKept read.now }
    ensures { OnOk result (objects.new ≡ with_repository (read_states store.now) objects.old (state_of read.now)) }
{
    take_buffer(read.recovered.state.objects().mob(), objects)?;
    let requests = committing(alloc, store, read)?;
    take_requests(requests.as_slice(), objects)
}

fn take_buffer(buffer: &Mob, objects: &mut OrefMap<Obj>) -> Result<(), NoMemory>
    ensures { OnOk result (objects.new ≡ overwrite objects.old buffer.now.objects) }
{
    for (oref, obj) in buffer.iter() {
        objects.insert(*oref, obj.copy()?)?;
    }
    Ok(())
}

fn take_requests(requests: &[&Request], objects: &mut OrefMap<Obj>) -> Result<(), NoMemory>
    ensures { OnOk result (objects.new ≡ fold (λ n q. overwrite n q.writes) objects.old (map (λ q. q.now) requests.now)) }
{
    for request in requests {
        take_writes(request, objects)?;
    }
    Ok(())
}

fn take_writes(request: &Request, objects: &mut OrefMap<Obj>) -> Result<(), NoMemory>
    ensures { OnOk result (objects.new ≡ overwrite objects.old request.now.writes) }
{
    for write in request.writes.as_slice() {
        objects.insert(write.0, write.1.copy()?)?;
    }
    Ok(())
}
