//! A store's parts, read and checked.

ghost use Rattle.repo_opening.specs.Recovered.{Finds};
ghost use Rattle.repo_opening.specs.Same.{Same};
ghost use Rattle.disk_trait.specs.AllDisks.{GoesOn};
ghost use Rattle.repo_opening.specs.Unsound.{Failing};
ghost use Rattle.store_opening.specs.Failing.{AreCalled, FailsAt, FailsIn};
ghost use Rattle.store_opening.specs.Seated.{AreSeated, FindsFresh, IsFreshOn, IsSeated, disks_at};
ghost use Rattle.commit_log.specs.Opening.{IsFresh};
ghost use Rattle.std.specs.Option.{IfSome};
ghost use Rattle.disk_trait.specs.AllDisks.{ReadsAs};
ghost use Rattle.repo_opening.specs.Paged.{PutsStored};
ghost use Rattle.repo_opening.specs.declared.unopened.Unopened.TheVariants.{Damaged, Failed};
ghost use Rattle.std.specs.Prelude.{IfErr, IfOk, IsErrOf, IsOk, List, Ok, OnOk, length, true, vec_capacity, vec_len, ◌≡◌, ◌≤◌, ◌⊎◌, ℕ};
ghost use Rattle.store_opening.specs.Unsound.{BehindOpen, HaveLogs, IsCheckpoint, IsNoRepository, IsNoStore, Represents};
ghost use Rattle.store_opening.specs.Joined.{AreKept, read_states};
ghost use Rattle.store_opening.specs.Limits.{AnyHas, HasCountAbove, HasLifeAbove, PlaceHas};
ghost use Rattle.store_opening.specs.OpenedStore.{roots_of};
ghost use Rattle.store_opening.specs.Fitting.{IsMisfit};
ghost use Rattle.store_opening.specs.declared.misfit.Misfit.TheVariants.{Of};
ghost use Rattle.store_opening.specs.Reading.{AreSpelledIn, FitIn, IsFreshIn, IsOpened, IsOpenedIn, IsStored, IsStoredIn, PutsAll, ReadAll, StandFor, epochs_in, schemas_in};
ghost use Rattle.std.specs.Option.{option_copied};
ghost use Rattle.thor_value.specs.FiniteMap.{IsSorted, empty};

use crate::closed::{Closed, give_back};
use crate::eager::eager;
use crate::fault::ClusterFault;
use crate::fit::check_store;
use crate::misfit::Misfit;
use class_defs::{Plain, Roots, Schemas};
use disk_trait::Parts;
use method_eval::{Names, View};
use recovery::Recovered;
use repo_opening::{Known, Read, Settled, Unopened, number_at, read_repository};
use std::alloc::Global;
use thor_value::{NoMemory, Obj, OrefMap, TryCopy, both};

/// What the disks of a store hold.
#[derive(Drop)]
enum Store {
    /// Repository 0 isn't open, so the store is to be formatted.
    Fresh,
    /// Every repository is open, and they fit together.
    Open(OpenStore),
}

/// A store that can be opened.
#[derive(Drop)]
struct OpenStore {
    /// The schemas of all epochs up to the store's.
    schemas: Schemas,
    /// The objects of all repositories, as they are stored.
    stored: View,
    /// The roots, as repository 0 has them.
    roots: Roots,
}

/// A store's parts, read and checked. What their disks hold is as it was.
#[derive(Drop)]
pub struct Found<P: Parts> {
    /// What was found of each repository, in their order.
    places: Vec<Closed<P>>,
    /// An empty vector with room for the parts, into which they go at the end.
    spare: Vec<P>,
    /// How many bytes the buffer of a repository may have.
    mob: u32,
    store: Store,
    ghost empty: { vec_len spare ≡ 0 },
    ghost room: { vec_len places ≤ vec_capacity spare },
}

impl<P: Parts> Found<P> {
    ghost use Rattle.store_opening.specs.Counts.{HasParts, parts_in};
    ghost use Rattle.repo_opening.specs.Same.{AreSame};

    /// Reads and checks every repository, rising, with all its installed pages, and then whether they fit
    /// together. Its disks are synced before they are read, so that what was read outlives a crash. The buffer
    /// of a repository is to be full at `mob` bytes, 1 to 16,777,216.
    #[tactic(auto, using(crate::proofs::Places::gives_all, repo_opening::proofs::Syncing::same_all))]
    pub fn read(alloc: Global, parts: Vec<P>, mob: u32) -> Result<Found<P>, ClusterFault<P>>
        ensures ok { IfOk result (λ found. parts_in found ≡ vec_len parts) }
        ensures err { IfErr result (λ fault. vec_len fault.parts ≡ vec_len parts) }
        ensures found { IfOk result (HasParts P.disks parts.items) }
        ensures unread { IfErr result (λ fault. AreSame P.disks parts.items fault.parts.items) }
        ensures stored { (images : List (ℕ → List ℕ)) → ReadAll P.disks parts.items images → IfOk result (λ found. IsStoredIn images found.store) }
        ensures spelled { (images : List (ℕ → List ℕ)) → ReadAll P.disks parts.items images → IfOk result (λ found. AreSpelledIn images found.store) }
        ensures fit { (images : List (ℕ → List ℕ)) → ReadAll P.disks parts.items images → IfOk result (λ found. FitIn images found.store) }
        ensures damaged { (images : List (ℕ → List ℕ)) (r d place : ℕ) → ReadAll P.disks parts.items images → IfErr result (λ fault. fault.why ≡ Damaged r d place → IsNoStore images r d place) }
        ensures called { IfOk result (λ found. AreCalled P.disks parts.items found.places.items) }
        ensures failed { (r : ℕ) → IfErr result (λ fault. fault.why ≡ Failed r → FailsAt P.disks parts.items fault.parts.items r) }
    {
        let Ok(spare) = Vec::with_capacity(alloc, parts.len()) else {
            return Err(unread(parts));
        };
        let Ok(places) = Vec::with_capacity(alloc, parts.len()) else {
            return Err(unread(parts));
        };
        let mut objects = OrefMap::new(alloc);
        let (places, read) = read_all(alloc, parts, places, mob, &mut objects);
        match store_of(alloc, places.as_slice(), objects, read) {
            Ok(store) => Ok(Found {
                places,
                spare,
                mob,
                store,
            }),
            Err(why) => Err(ClusterFault {
                parts: give_back(places, spare),
                why,
            }),
        }
    }

    /// How many repositories there are.
    pub fn repos(&self) -> usize
        ensures { result ≡ parts_in self.now }
    {
        self.places.len()
    }

    /// The schemas of all epochs up to the store's; nothing where it is fresh.
    pub fn schemas(&self) -> Option<&Schemas>
        ensures { option_copied result ≡ schemas_in self.now.store }
    {
        match &self.store {
            Store::Fresh => None,
            Store::Open(store) => Some(&store.schemas),
        }
    }

    /// How many upgrades the store has installed.
    pub fn epoch(&self) -> usize
        ensures { result ≡ epochs_in self.now.store }
    {
        match &self.store {
            Store::Fresh => 0,
            Store::Open(store) => store.schemas.upgraded.len(),
        }
    }

    /// Whether a repository has a greater life than this, on the disks.
    pub fn has_life_above(&self, limit: u32) -> bool
        ensures { result ≡ true → (given : List P) (images : List (ℕ → List ℕ)) → HasParts P.disks given self.now → ReadAll P.disks given images → AnyHas (HasLifeAbove limit) images }
    {
        is_life_above(self.places.as_slice(), limit)
    }

    /// Whether a log that counts has a greater sequence than this, or a repository's history more entries.
    pub fn has_count_above(&self, limit: u64) -> bool
        ensures { result ≡ true → (given : List P) (images : List (ℕ → List ℕ)) → HasParts P.disks given self.now → ReadAll P.disks given images → AnyHas (HasCountAbove limit) images }
    {
        is_count_above(self.places.as_slice(), limit)
    }

    /// The store as it is opened, each object brought up to its epoch; nothing where it is fresh.
    pub fn opened(&self, alloc: Global) -> Result<Option<Plain>, NoMemory>
        ensures sorted { IfOk result (λ store. IfSome store (λ s. IsSorted s.objects)) }
        ensures opened { (images : List (ℕ → List ℕ)) → IsStoredIn images self.now.store → IfOk result (IsOpenedIn images self.now.store) }
    {
        match &self.store {
            Store::Fresh => Ok(None),
            Store::Open(store) => Ok(Some(opened(alloc, store)?)),
        }
    }

    /// The parts, as they were handed in.
    #[tactic(auto, using(crate::proofs::Places::gives_all))]
    pub fn into_parts(self) -> Vec<P>
        ensures count { vec_len result ≡ parts_in self }
        ensures parts { (given : List P) → HasParts P.disks given self → AreSame P.disks given result.items }
    {
        let Found {
            places,
            spare,
            store,
            ..
        } = self;
        drop(store);
        give_back(places, spare)
    }

    /// What an opening takes: the repositories, in their order; an empty vector with room for their parts; how many
    /// bytes a buffer may have; and how many upgrades the store has installed, nothing where it is fresh.
    pub fn into_repositories(self) -> (Vec<Closed<P>>, Vec<P>, u32, Option<usize>)
        ensures count { vec_len result.0 ≡ parts_in self }
        ensures places { result.0.items ≡ self.places.items }
        ensures mob { result.2 ≡ self.mob }
        ensures empty { vec_len result.1 ≡ 0 }
        ensures room { vec_len result.0 ≤ vec_capacity result.1 }
    {
        let Found {
            places,
            spare,
            mob,
            store,
            ..
        } = self;
        (places, spare, mob, epochs_in(store))
    }
}

/// How many upgrades a store has installed that is open.
fn epochs_in(store: Store) -> Option<usize> {
    match store {
        Store::Fresh => None,
        Store::Open(open) => {
            let epochs = open.schemas.upgraded.len();
            drop(open);
            Some(epochs)
        }
    }
}

/// Each object of a store brought up to its epoch.
fn opened(alloc: Global, store: &OpenStore) -> Result<Plain, NoMemory>
    ensures sorted { IfOk result (λ opened. IsSorted opened.objects) }
    ensures opened { (images : List (ℕ → List ℕ)) → IsStored images store.now → IfOk result (IsOpened images store.now.schemas) }
{
    eager(alloc, &store.stored, &store.schemas, &store.roots)
}

/// Whether a repository has a greater life than this.
fn has_life_above<P: Parts>(place: &Closed<P>, limit: u32) -> bool
    ensures { result ≡ true → PlaceHas P.disks place.now (HasLifeAbove limit) }
{
    match place {
        Closed::Known(known) => limit < known.recovered().state.life(),
        Closed::Parts(_) | Closed::Fresh(_) => false,
    }
}

/// Whether one of the repositories has.
fn is_life_above<P: Parts>(places: &[Closed<P>], limit: u32) -> bool
    ensures { result ≡ true → (parts : List P) (images : List (ℕ → List ℕ)) → AreSeated P.disks parts places.now → ReadAll P.disks parts images → AnyHas (HasLifeAbove limit) images }
{
    for place in places {
        if has_life_above(place, limit) {
            return true;
        }
    }
    false
}

/// Whether a repository's log has a greater sequence than this, or its history more entries.
fn has_count_above<P: Parts>(place: &Closed<P>, limit: u64) -> bool
    ensures { result ≡ true → PlaceHas P.disks place.now (HasCountAbove limit) }
{
    match place {
        Closed::Known(known) => counts_above(known, limit),
        Closed::Parts(_) | Closed::Fresh(_) => false,
    }
}

/// Whether the log that was recovered has a greater sequence than this, or the history more entries.
fn counts_above<P: Parts>(known: &Known<P>, limit: u64) -> bool
    ensures { result ≡ true → (part : P) (images : ℕ → List ℕ) → Same (P.disks part) (P.disks known.now.parts) → ReadsAs (P.disks part) images → HasCountAbove limit images }
{
    let recovered = known.recovered();
    limit < recovered.log.sequence() || limit < recovered.state.count()
}

/// Whether one of the repositories has.
fn is_count_above<P: Parts>(places: &[Closed<P>], limit: u64) -> bool
    ensures { result ≡ true → (parts : List P) (images : List (ℕ → List ℕ)) → AreSeated P.disks parts places.now → ReadAll P.disks parts images → AnyHas (HasCountAbove limit) images }
{
    for place in places {
        if has_count_above(place, limit) {
            return true;
        }
    }
    false
}

/// Parts that weren't read for want of memory.
fn unread<P>(parts: Vec<P>) -> ClusterFault<P>
    ensures parts { result.parts ≡ parts }
    ensures damaged { (r d place : ℕ) → result.why ≡ Damaged r d place → ⊥ }
    ensures failed { (r : ℕ) → result.why ≡ Failed r → ⊥ }
{
    ClusterFault {
        parts,
        why: Unopened::NoMemory,
    }
}

/// Reads the repositories, rising, into places for which there is room: all of them, also beside a fresh
/// repository 0. Behind one that can't be read the others aren't.
#[tactic(auto, using(crate::proofs::Places::zip_more, crate::proofs::Places::next_one, crate::proofs::Places::none_in, crate::proofs::Holding::puts_start))]
fn read_all<P: Parts>(
    alloc: Global,
    parts: Vec<P>,
    places: Vec<Closed<P>>,
    mob: u32,
    objects: &mut OrefMap<Obj>,
) -> (Vec<Closed<P>>, Result<(), Unopened>)
    requires empty { vec_len places ≡ 0 }
    requires room { vec_len parts ≤ vec_capacity places }
    ensures count { vec_len result.0 ≡ vec_len parts }
    ensures seated { AreSeated P.disks parts.items result.0.items }
    ensures put { (images : List (ℕ → List ℕ)) → ReadAll P.disks parts.items images → OnOk result.1 (PutsAll images objects.old objects.new) }
    ensures damaged { (images : List (ℕ → List ℕ)) (r d place : ℕ) → ReadAll P.disks parts.items images → IsErrOf result.1 (Damaged r d place) → IsNoStore images r d place }
    ensures called { AreCalled P.disks parts.items result.0.items }
    ensures failed { (r : ℕ) → IsErrOf result.1 (Failed r) → FailsIn P.disks parts.items result.0.items r }
{
    let repos = parts.len();
    let mut places = places;
    let mut read = Ok(());
    for part in parts {
        let found = read_next(alloc, read, part, places.as_slice(), repos, mob, objects);
        places.push_reserved(found.0);
        read = found.1;
    }
    (places, read)
}

/// Reads the repository behind others, where all of them were read.
#[tactic(auto, using(disk_trait::proofs::Several::goes_none))]
fn read_next<P: Parts>(
    alloc: Global,
    before: Result<(), Unopened>,
    part: P,
    places: &[Closed<P>],
    repos: usize,
    mob: u32,
    objects: &mut OrefMap<Obj>,
) -> (Closed<P>, Result<(), Unopened>)
    ensures seated { IsSeated P.disks part result.0 }
    ensures put { (images : ℕ → List ℕ) → ReadsAs (P.disks part) images → OnOk result.1 (IsOk before × PutsStored images objects.old objects.new) }
    ensures damaged { (image : ℕ → List ℕ) (r d place : ℕ) → ReadsAs (P.disks part) image → IsErrOf result.1 (Damaged r d place) → IsErrOf before (Damaged r d place) ⊎ ((r ≡ length places.now) × IsNoRepository P.disks places.now repos image r d place) }
    ensures goes { GoesOn (P.disks part) (disks_at P.disks result.0) }
    ensures failed { (r : ℕ) → IsErrOf result.1 (Failed r) → IsErrOf before (Failed r) ⊎ ((r ≡ length places.now) × Failing (P.disks part) (disks_at P.disks result.0)) }
{
    match before {
        Ok(()) => read_behind(alloc, part, places, repos, mob, objects),
        Err(why) => (Closed::Parts(part), Err(why)),
    }
}

/// Reads the repository behind those that were read.
#[tactic(auto, using(disk_trait::proofs::Several::goes_none))]
fn read_behind<P: Parts>(
    alloc: Global,
    part: P,
    places: &[Closed<P>],
    repos: usize,
    mob: u32,
    objects: &mut OrefMap<Obj>,
) -> (Closed<P>, Result<(), Unopened>)
    ensures seated { IsSeated P.disks part result.0 }
    ensures put { (images : ℕ → List ℕ) → ReadsAs (P.disks part) images → OnOk result.1 (PutsStored images objects.old objects.new) }
    ensures damaged { (image : ℕ → List ℕ) (r d place : ℕ) → ReadsAs (P.disks part) image → IsErrOf result.1 (Damaged r d place) → (r ≡ length places.now) × IsNoRepository P.disks places.now repos image r d place }
    ensures goes { GoesOn (P.disks part) (disks_at P.disks result.0) }
    ensures failed { (r : ℕ) → IsErrOf result.1 (Failed r) → (r ≡ length places.now) × Failing (P.disks part) (disks_at P.disks result.0) }
{
    let (Ok(repo), Ok(repos)) = (number_at(places.len()), number_at(repos)) else {
        return (Closed::Parts(part), Err(Unopened::NoMemory));
    };
    let mut part = part;
    match read_repository(alloc, &mut part, repo, repos, mob, objects) {
        Ok(found) => placed(part, repo, found, places),
        Err(why) => (Closed::Parts(part), Err(why)),
    }
}

/// What was found of a repository, at its place. Where repository 0 is open, each has to be.
fn placed<P: Parts>(
    part: P,
    repo: u8,
    found: Option<(Recovered, u32)>,
    places: &[Closed<P>],
) -> (Closed<P>, Result<(), Unopened>)
    requires found { Finds (P.disks part) found }
    requires fresh { FindsFresh (P.disks part) found }
    ensures seated { (given : P) → Same (P.disks given) (P.disks part) → IsSeated P.disks given result.0 }
    ensures damaged { (r d place : ℕ) → IsErrOf result.1 (Damaged r d place) → (r ≡ repo) × (d ≡ 0) × (place ≡ 0) × IsFreshOn (P.disks part) × BehindOpen P.disks places.now }
    ensures goes { GoesOn (P.disks part) (disks_at P.disks result.0) }
    ensures failed { (r : ℕ) → IsErrOf result.1 (Failed r) → ⊥ }
{
    match found {
        Some((recovered, behind)) => (Closed::Known(Known::new(part, recovered, behind)), Ok(())),
        None => (
            Closed::Fresh(Settled::new(part)),
            may_be_fresh(repo, places),
        ),
    }
}

/// Whether a repository may be fresh behind those that were read: not where repository 0 is open.
fn may_be_fresh<P: Parts>(repo: u8, places: &[Closed<P>]) -> Result<(), Unopened>
    ensures damaged { (r d place : ℕ) → IsErrOf result (Damaged r d place) → (r ≡ repo) × (d ≡ 0) × (place ≡ 0) × BehindOpen P.disks places.now }
    ensures failed { (r : ℕ) → IsErrOf result (Failed r) → ⊥ }
{
    if begins_open(places) {
        return Err(Unopened::Damaged {
            repo,
            disk: 0,
            place: 0,
        });
    }
    Ok(())
}

/// Whether a repository is open.
fn is_open<P: Parts>(place: &Closed<P>) -> bool
    ensures { result ≡ true → (part : P) (image : ℕ → List ℕ) → IsSeated P.disks part place.now → ReadsAs (P.disks part) image → Represents image }
{
    match place.read() {
        Some(_read) => true,
        None => false,
    }
}

/// Whether repository 0 is open.
fn begins_open<P: Parts>(places: &[Closed<P>]) -> bool
    ensures { result ≡ true → BehindOpen P.disks places.now }
{
    match places.split_first() {
        Some((first, _others)) => is_open(first),
        None => false,
    }
}

/// Whether a repository is fresh.
fn is_fresh<P: Parts>(place: &Closed<P>) -> bool
    ensures { result ≡ true → (part : P) (image : ℕ → List ℕ) → IsSeated P.disks part place.now → ReadsAs (P.disks part) image → IsFresh image }
{
    match place {
        Closed::Fresh(_) => true,
        Closed::Parts(_) | Closed::Known(_) => false,
    }
}

/// Whether repository 0 is fresh.
fn begins_fresh<P: Parts>(places: &[Closed<P>]) -> bool
    ensures { result ≡ true → (parts : List P) (images : List (ℕ → List ℕ)) → AreSeated P.disks parts places.now → ReadAll P.disks parts images → IsFreshIn images }
{
    match places.split_first() {
        Some((first, _others)) => is_fresh(first),
        None => true,
    }
}

/// What the disks of a store hold, where all of them were read. Behind an open repository 0 no other is fresh then.
fn store_of<P: Parts>(
    alloc: Global,
    places: &[Closed<P>],
    objects: OrefMap<Obj>,
    read: Result<(), Unopened>,
) -> Result<Store, Unopened>
    ensures stored { (parts : List P) (images : List (ℕ → List ℕ)) → AreSeated P.disks parts places.now → ReadAll P.disks parts images → OnOk read (PutsAll images empty objects) → IfOk result (IsStoredIn images) }
    ensures spelled { (parts : List P) (images : List (ℕ → List ℕ)) → AreSeated P.disks parts places.now → ReadAll P.disks parts images → IfOk result (AreSpelledIn images) }
    ensures fit { (parts : List P) (images : List (ℕ → List ℕ)) → AreSeated P.disks parts places.now → ReadAll P.disks parts images → OnOk read (PutsAll images empty objects) → IfOk result (FitIn images) }
    ensures damaged { (parts : List P) (images : List (ℕ → List ℕ)) (r d place : ℕ) → AreSeated P.disks parts places.now → ReadAll P.disks parts images → OnOk read (PutsAll images empty objects) → (IsErrOf read (Damaged r d place) → IsNoStore images r d place) → IsErrOf result (Damaged r d place) → IsNoStore images r d place }
    ensures failed { (r : ℕ) → IsErrOf result (Failed r) → IsErrOf read (Failed r) }
{
    let (objects, _) = both(objects, read)?;
    if begins_fresh(places) {
        drop(objects);
        return Ok(Store::Fresh);
    }
    let (objects, reads) = both(objects, reads_of(alloc, places))?;
    match reads {
        Some(reads) => open_store(alloc, reads.as_slice(), objects),
        None => {
            drop(objects);
            Err(Unopened::NoMemory)
        }
    }
}

/// What was read of the repositories of a store, where each of them is open.
fn reads_of<P: Parts>(
    alloc: Global,
    places: &[Closed<P>],
) -> Result<Option<Vec<Read<'_>>>, NoMemory>
    ensures kept { IfOk result (λ found. IfSome found (λ reads. AreKept reads.items)) }
    ensures stand { (parts : List P) (images : List (ℕ → List ℕ)) → AreSeated P.disks parts places.now → ReadAll P.disks parts images → IfOk result (λ found. IfSome found (λ reads. StandFor images (read_states reads.items))) }
    ensures logs { (parts : List P) (images : List (ℕ → List ℕ)) → AreSeated P.disks parts places.now → ReadAll P.disks parts images → IfOk result (λ found. IfSome found (λ reads. HaveLogs images reads.items)) }
{
    let mut reads = Vec::new(alloc);
    for place in places {
        match place.read() {
            Some(read) => reads.push(read)?,
            None => return Ok(None),
        }
    }
    Ok(Some(reads))
}

/// A store whose repositories are open, where they fit together.
fn open_store(alloc: Global, reads: &[Read<'_>], paged: OrefMap<Obj>) -> Result<Store, Unopened>
    requires { AreKept reads.now }
    ensures stored { (images : List (ℕ → List ℕ)) → StandFor images (read_states reads.now) → PutsAll images empty paged → IfOk result (IsStoredIn images) }
    ensures spelled { (images : List (ℕ → List ℕ)) → StandFor images (read_states reads.now) → IfOk result (AreSpelledIn images) }
    ensures fit { (images : List (ℕ → List ℕ)) → StandFor images (read_states reads.now) → PutsAll images empty paged → IfOk result (FitIn images) }
    ensures damaged { (r d place : ℕ) → IsErrOf result (Damaged r d place) → IsCheckpoint reads.now r d place × IsMisfit (read_states reads.now) paged r }
    ensures failed { (r : ℕ) → IsErrOf result (Failed r) → ⊥ }
{
    let (paged, roots) = both(paged, roots_of(reads))?;
    let fit = fitted(reads, check_store(alloc, reads, paged));
    let (roots, checked) = both(roots, fit)?;
    let (schemas, objects) = checked;
    let Ok(epoch) = u32::try_from(schemas.upgraded.len()) else {
        drop(schemas);
        drop(objects);
        drop(roots);
        return Err(Unopened::NoMemory);
    };
    let stored = View {
        objects,
        names: Names::new(alloc),
        epoch,
    };
    Ok(Store::Open(OpenStore {
        schemas,
        stored,
        roots,
    }))
}

/// What was checked of a store, or which place is told where its repositories don't fit together.
fn fitted<T: Drop>(reads: &[Read<'_>], checked: Result<T, Misfit>) -> Result<T, Unopened>
    ensures ok { IfOk result (λ found. checked ≡ Ok found) }
    ensures damaged { (r d place : ℕ) → IsErrOf result (Damaged r d place) → IsCheckpoint reads.now r d place × IsErrOf checked (Of r) }
    ensures failed { (r : ℕ) → IsErrOf result (Failed r) → ⊥ }
{
    match checked {
        Ok(found) => Ok(found),
        Err(misfit) => Err(told(reads, misfit)),
    }
}

/// What is told where a store wasn't found to fit.
fn told(reads: &[Read<'_>], misfit: Misfit) -> Unopened
    ensures damaged { (r d place : ℕ) → result ≡ Damaged r d place → IsCheckpoint reads.now r d place × (misfit ≡ Of r) }
    ensures failed { (r : ℕ) → result ≡ Failed r → ⊥ }
{
    match misfit {
        Misfit::Of { repo } => misfit_at(reads, repo),
        Misfit::NoMemory => Unopened::NoMemory,
    }
}

/// What is told where a repository doesn't fit: the place of its checkpoint. Of one that the store hasn't, it is byte 0 of disk 0.
fn misfit_at(reads: &[Read<'_>], repo: u8) -> Unopened
    ensures damaged { (r d place : ℕ) → result ≡ Damaged r d place → IsCheckpoint reads.now r d place × (r ≡ repo) }
    ensures failed { (r : ℕ) → result ≡ Failed r → ⊥ }
{
    match reads.get(usize::from(repo)) {
        Some(read) => read.damaged(repo),
        None => Unopened::Damaged {
            repo,
            disk: 0,
            place: 0,
        },
    }
}

/// The roots, as repository 0 has them.
fn roots_of(reads: &[Read<'_>]) -> Result<Roots, NoMemory>
    ensures { IfOk result (λ roots. roots ≡ roots_of (read_states reads.now)) }
{
    match reads.first() {
        Some(read) => read.recovered.state.roots().copy(),
        None => Err(NoMemory),
    }
}
