//! A store is opened: formatted, or begun with a Life, and then settled.

ghost use Rattle.cluster_core.specs.Counts.{parts_of, schemas_of};
ghost use Rattle.cluster_core.specs.Failing.{FailedOn, HasFailedOn, NoneFellIn, NoneFellOn, faults_at, faults_in, faults_on};
ghost use Rattle.cluster_core.specs.Seated.{AreBegun, AreRecovered, AreSeated, Begins, BeginsOver, IsBegun, IsBegunBy, IsFound, IsFoundIn, IsNew, IsRecoveredAt, IsSeatedAt};
ghost use Rattle.repo_opening.specs.Recovered.{IsRecovered};
ghost use Rattle.cluster_port.specs.Failing.{NoneFell};
ghost use Rattle.cluster_port.specs.Sited.{BeginsNew};
ghost use Rattle.recovery.specs.declared.fault.RecoverFault.TheVariants.{Failed as DiskFailed};
ghost use Rattle.repo_opening.specs.declared.unopened.Unopened.TheVariants.{Failed};
ghost use Rattle.store_opening.specs.Failing.{AreCalled, FailsAt};
ghost use Rattle.std.specs.Prelude.{IfErr, IfOk, IsErrOf, IsOk, IsTrue, List, OnOk, vec_capacity, vec_len, ℕ, ◌<◌, ◌≡◌, ◌≤◌, ◌⊎◌};
ghost use Rattle.store_opening.specs.Counts.{parts_in};

use crate::cluster::Cluster;
use crate::plan::{Plan, Start};
use crate::seat::{Seat, give_back, sites_of};
use crate::settling::settle_all;
use class_defs::{Schemas, Setup};
use cluster_port::{Opening, Site};
use disk_trait::Parts;
use front_end::{FrontEnd, Items, Opened};
use recovery::{RecoverFault, migrate};
use repo_opening::{Known, Unopened, number_at};
use std::alloc::Global;
use store_opening::{Closed, ClusterFault, Found};
use thor_value::{NoMemory, both};

impl<P: Parts, O: Opening> Cluster<P, O> {
    /// Opens what was found, with the clients of a plan.
    ///
    /// A fresh store is formatted, repositories 1 and up first; otherwise each repository, where it is of the older format, is
    /// moved into the newer one, and begins a life. Then
    /// each transaction that was left prepared is settled by its coordinator. Before all repositories were read
    /// and checked nothing is written. Want of memory, too, where the plan's start isn't that of the store, or a
    /// number of the plan isn't in its range.
    pub fn open(
        alloc: Global,
        found: Found<P>,
        plan: Plan,
    ) -> Result<Cluster<P, O>, ClusterFault<P>>
        // The run is what was found.
        requires { BeginsOver O.run found plan.start }
        ensures ok { IfOk result (λ cluster. parts_of cluster ≡ parts_in found) }
        ensures schemas { IfOk result (λ cluster. schemas_of cluster ≡ plan.schemas) }
        ensures err { IfErr result (λ fault. vec_len fault.parts ≡ parts_in found) }
        ensures found { IfOk result (λ _. IsFoundIn P.disks found plan.start) }
        ensures failed { (given : List P) → AreCalled P.disks given found.places.items → IfErr result (λ fault. (r : ℕ) → fault.why ≡ Failed r → FailsAt P.disks given fault.parts.items r) }
    {
        let Ok(seats) = Vec::with_capacity(alloc, found.repos()) else {
            return Err(without_room(found, plan));
        };
        let Ok(sites) = Vec::with_capacity(alloc, found.repos()) else {
            drop(seats);
            return Err(without_room(found, plan));
        };
        open_found(alloc, found, plan, seats, sites)
    }
}

/// What was found isn't opened, since there is no memory for it.
fn without_room<P: Parts>(found: Found<P>, plan: Plan) -> ClusterFault<P>
    ensures count { vec_len result.parts ≡ parts_in found }
    ensures failed { (r : ℕ) → result.why ≡ Failed r → ⊥ }
{
    drop(plan);
    ClusterFault {
        parts: found.into_parts(),
        why: Unopened::NoMemory,
    }
}

/// Opens what was found, with room for its repositories.
fn open_found<P: Parts, O: Opening>(
    alloc: Global,
    found: Found<P>,
    plan: Plan,
    seats: Vec<Seat<P, O>>,
    sites: Vec<Site<P, O>>,
) -> Result<Cluster<P, O>, ClusterFault<P>>
    requires begins { BeginsOver O.run found plan.start }
    requires empty { vec_len seats ≡ 0 }
    requires room { parts_in found ≤ vec_capacity seats }
    requires none { vec_len sites ≡ 0 }
    requires space { parts_in found ≤ vec_capacity sites }
    ensures ok { IfOk result (λ cluster. parts_of cluster ≡ parts_in found) }
    ensures schemas { IfOk result (λ cluster. schemas_of cluster ≡ plan.schemas) }
    ensures err { IfErr result (λ fault. vec_len fault.parts ≡ parts_in found) }
    ensures found { IfOk result (λ _. IsFoundIn P.disks found plan.start) }
    ensures failed { (given : List P) → AreCalled P.disks given found.places.items → IfErr result (λ fault. (r : ℕ) → fault.why ≡ Failed r → FailsAt P.disks given fault.parts.items r) }
{
    let (places, spare, mob, stored) = found.into_repositories();
    let Plan {
        start,
        tries,
        cache,
        schemas,
        clients,
    } = plan;
    let (seats, opened) = open_seats(alloc, places, seats, stored, start, mob);
    match told_to(alloc, seats.len(), opened, schemas, clients, tries, cache) {
        Ok((opened, clients)) => seated(alloc, seats, sites, clients, opened, spare),
        Err(why) => Err(ClusterFault {
            parts: give_back(seats, spare),
            why,
        }),
    }
}

/// A store whose repositories were opened, with its clients, and with room for repositories and for their parts.
fn seated<P: Parts, O: Opening>(
    alloc: Global,
    seats: Vec<Seat<P, O>>,
    room: Vec<Site<P, O>>,
    clients: Vec<FrontEnd>,
    opened: Opened,
    spare: Vec<P>,
) -> Result<Cluster<P, O>, ClusterFault<P>>
    requires seated { AreSeated 0 seats.items }
    requires none { vec_len room ≡ 0 }
    requires space { vec_len seats ≤ vec_capacity room }
    requires empty { vec_len spare ≡ 0 }
    requires parts { vec_len seats ≤ vec_capacity spare }
    ensures ok { IfOk result (λ cluster. parts_of cluster ≡ vec_len seats) }
    ensures schemas { IfOk result (λ cluster. schemas_of cluster ≡ opened.schemas) }
    ensures err { IfErr result (λ fault. vec_len fault.parts ≡ vec_len seats) }
    ensures failed { (given : List P) → NoneFellOn P.disks (faults_in P.disks) given seats.items → IfErr result (λ fault. (r : ℕ) → fault.why ≡ Failed r → FailsAt P.disks given fault.parts.items r) }
{
    match sites_of(seats, room) {
        Ok(sites) => settled(Cluster {
            alloc,
            sites,
            clients,
            opened,
            spare,
        }),
        Err(seats) => {
            drop(clients);
            drop(opened);
            Err(ClusterFault {
                parts: give_back(seats, spare),
                why: Unopened::NoMemory,
            })
        }
    }
}

/// A store whose prepared transactions are settled.
fn settled<P: Parts, O: Opening>(cluster: Cluster<P, O>) -> Result<Cluster<P, O>, ClusterFault<P>>
    ensures ok { IfOk result (λ settled. parts_of settled ≡ parts_of cluster) }
    ensures schemas { IfOk result (λ settled. schemas_of settled ≡ schemas_of cluster) }
    ensures err { IfErr result (λ fault. vec_len fault.parts ≡ parts_of cluster) }
    ensures failed { (given : List P) → NoneFellIn P.disks given cluster.sites.items → IfErr result (λ fault. (r : ℕ) → fault.why ≡ Failed r → FailsAt P.disks given fault.parts.items r) }
{
    let mut cluster = cluster;
    match settle_all(&mut cluster.sites) {
        Ok(()) => Ok(cluster),
        Err(why) => Err(cluster.give_back(why)),
    }
}

/// The clients, and what they are told of the store: so many repositories, epochs that were installed, and these schemas.
fn told_to(
    alloc: Global,
    repos: usize,
    opened: Result<usize, Unopened>,
    schemas: Schemas,
    clients: Vec<Items>,
    tries: u32,
    cache: u32,
) -> Result<(Opened, Vec<FrontEnd>), Unopened>
    ensures schemas { IfOk result (λ told. told.0.schemas ≡ schemas) }
    ensures opened { OnOk result (IsOk opened) }
    ensures failed { (r : ℕ) → IsErrOf result (Failed r) → IsErrOf opened (Failed r) }
{
    let (held, epochs) = both((clients, schemas), opened)?;
    let ((clients, schemas), (repos, epoch)) = both(held, numbers_of(repos, epochs))?;
    let (clients, opened) = both(clients, Opened::new(alloc, repos, epoch, schemas))?;
    Ok(both(opened, make_clients(alloc, clients, tries, cache))?)
}

/// How many repositories and how many epochs there are. There is no memory for more than numbers can tell.
fn numbers_of(repos: usize, epochs: usize) -> Result<(u8, u32), NoMemory> {
    match u32::try_from(epochs) {
        Ok(epoch) => Ok((number_at(repos)?, epoch)),
        Err(_) => Err(NoMemory),
    }
}

/// Opens every repository, into seats for which there is room: as it is stored, where the store was found with so many upgrades,
/// else by formatting it. The answer is how many upgrades the store has installed.
fn open_seats<P: Parts, O: Opening>(
    alloc: Global,
    places: Vec<Closed<P>>,
    room: Vec<Seat<P, O>>,
    stored: Option<usize>,
    start: Start,
    mob: u32,
) -> (Vec<Seat<P, O>>, Result<usize, Unopened>)
    requires begins { Begins O.run places.items mob start }
    requires empty { vec_len room ≡ 0 }
    requires room { vec_len places ≤ vec_capacity room }
    ensures count { vec_len result.0 ≡ vec_len places }
    ensures seated { AreSeated 0 result.0.items }
    ensures found { OnOk result.1 (IsFound P.disks places.items start) }
    ensures fell { OnOk result.1 (NoneFellOn P.disks (faults_at P.disks) places.items result.0.items) }
    ensures failed { (r : ℕ) → IsErrOf result.1 (Failed r) → FailedOn P.disks (faults_at P.disks) places.items result.0.items r }
{
    match start {
        Start::Stored => open_stored(alloc, places, room, stored),
        Start::Setup(setup) => {
            let (seats, formatted) = format_found(alloc, places, room, stored, &setup, mob);
            drop(setup);
            (seats, formatted)
        }
    }
}

/// Opens every repository as it is stored.
fn open_stored<P: Parts, O: Opening>(
    alloc: Global,
    places: Vec<Closed<P>>,
    room: Vec<Seat<P, O>>,
    stored: Option<usize>,
) -> (Vec<Seat<P, O>>, Result<usize, Unopened>)
    requires begun { AreBegun O.run (vec_len places) 0 places.items }
    requires empty { vec_len room ≡ 0 }
    requires room { vec_len places ≤ vec_capacity room }
    ensures count { vec_len result.0 ≡ vec_len places }
    ensures seated { AreSeated 0 result.0.items }
    ensures recovered { OnOk result.1 (AreRecovered P.disks places.items) }
    ensures fell { OnOk result.1 (NoneFellOn P.disks (faults_at P.disks) places.items result.0.items) }
    ensures failed { (r : ℕ) → IsErrOf result.1 (Failed r) → FailedOn P.disks (faults_at P.disks) places.items result.0.items r }
{
    match stored {
        Some(epochs) => {
            let (seats, opened) = open_all(alloc, places, room);
            (seats, with(opened, epochs))
        }
        None => (seat_closed(places, room), Err(Unopened::NoMemory)),
    }
}

/// How many upgrades a store has installed whose repositories were opened.
fn with(opened: Result<(), Unopened>, epochs: usize) -> Result<usize, Unopened>
    ensures opened { OnOk result (IsOk opened) }
    ensures failed { (r : ℕ) → IsErrOf result (Failed r) → IsErrOf opened (Failed r) }
{
    match opened {
        Ok(()) => Ok(epochs),
        Err(why) => Err(why),
    }
}

/// What was found, in seats for which there is room.
fn seat_closed<P: Parts, O: Opening>(
    places: Vec<Closed<P>>,
    room: Vec<Seat<P, O>>,
) -> Vec<Seat<P, O>>
    requires empty { vec_len room ≡ 0 }
    requires room { vec_len places ≤ vec_capacity room }
    ensures count { vec_len result ≡ vec_len places }
    ensures seated { AreSeated 0 result.items }
    ensures fell { NoneFellOn P.disks (faults_at P.disks) places.items result.items }
{
    let mut seats = room;
    for closed in places {
        seats.push_reserved(Seat::Closed(closed));
    }
    seats
}

/// Opens every repository of a store, rising, each by itself. Behind one that can't be opened the others aren't.
fn open_all<P: Parts, O: Opening>(
    alloc: Global,
    places: Vec<Closed<P>>,
    room: Vec<Seat<P, O>>,
) -> (Vec<Seat<P, O>>, Result<(), Unopened>)
    requires begun { AreBegun O.run (vec_len places) 0 places.items }
    requires empty { vec_len room ≡ 0 }
    requires room { vec_len places ≤ vec_capacity room }
    ensures count { vec_len result.0 ≡ vec_len places }
    ensures seated { AreSeated 0 result.0.items }
    ensures recovered { OnOk result.1 (AreRecovered P.disks places.items) }
    ensures fell { OnOk result.1 (NoneFellOn P.disks (faults_at P.disks) places.items result.0.items) }
    ensures failed { (r : ℕ) → IsErrOf result.1 (Failed r) → FailedOn P.disks (faults_at P.disks) places.items result.0.items r }
{
    let repos = places.len();
    let mut done = room;
    let mut opened = Ok(());
    for closed in places {
        let place = done.len();
        let (seat, next) = open_behind(alloc, opened, closed, place, repos);
        done.push_reserved(seat);
        opened = next;
    }
    (done, opened)
}

/// Opens the repository at a place, of so many, where those before it were opened.
fn open_behind<P: Parts, O: Opening>(
    alloc: Global,
    before: Result<(), Unopened>,
    closed: Closed<P>,
    place: usize,
    repos: usize,
) -> (Seat<P, O>, Result<(), Unopened>)
    requires { IsBegun O.run repos place closed }
    ensures seated { IsSeatedAt place result.0 }
    ensures before { OnOk result.1 (IsOk before) }
    ensures recovered { OnOk result.1 (IsRecoveredAt P.disks closed) }
    ensures fell { OnOk result.1 (NoneFell (faults_at P.disks closed) (faults_on P.disks result.0)) }
    ensures failed { (r : ℕ) → IsErrOf result.1 (Failed r) → IsErrOf before (Failed r) ⊎ ((r ≡ place) × HasFailedOn P.disks (faults_at P.disks closed) result.0) }
{
    match before {
        Ok(()) => open_next(alloc, closed, place, repos),
        Err(why) => (Seat::Closed(closed), Err(why)),
    }
}

/// Opens the repository at a place, of so many.
fn open_next<P: Parts, O: Opening>(
    alloc: Global,
    closed: Closed<P>,
    place: usize,
    repos: usize,
) -> (Seat<P, O>, Result<(), Unopened>)
    requires { IsBegun O.run repos place closed }
    ensures seated { IsSeatedAt place result.0 }
    ensures recovered { OnOk result.1 (IsRecoveredAt P.disks closed) }
    ensures fell { OnOk result.1 (NoneFell (faults_at P.disks closed) (faults_on P.disks result.0)) }
    ensures failed { (r : ℕ) → IsErrOf result.1 (Failed r) → (r ≡ place) × HasFailedOn P.disks (faults_at P.disks closed) result.0 }
{
    match (number_at(place), number_at(repos)) {
        (Ok(number), Ok(count)) => open_numbered(alloc, closed, number, count),
        _ => (Seat::Closed(closed), Err(Unopened::NoMemory)),
    }
}

/// Opens the repository of a number, of so many.
fn open_numbered<P: Parts, O: Opening>(
    alloc: Global,
    closed: Closed<P>,
    number: u8,
    repos: u8,
) -> (Seat<P, O>, Result<(), Unopened>)
    requires { IsBegun O.run repos number closed }
    ensures seated { IsSeatedAt number result.0 }
    ensures recovered { OnOk result.1 (IsRecoveredAt P.disks closed) }
    ensures fell { OnOk result.1 (NoneFell (faults_at P.disks closed) (faults_on P.disks result.0)) }
    ensures failed { (r : ℕ) → IsErrOf result.1 (Failed r) → (r ≡ number) × HasFailedOn P.disks (faults_at P.disks closed) result.0 }
{
    match closed {
        Closed::Known(known) => open_known(alloc, known, number, repos),
        closed => (Seat::Closed(closed), Err(Unopened::NoMemory)),
    }
}

/// Opens the repository of a number, of so many, that was recovered: one of the older format is moved into the newer one first.
#[tactic(auto, using(crate::proofs::Recovered::recovered_says))]
fn open_known<P: Parts, O: Opening>(
    alloc: Global,
    known: Known<P>,
    number: u8,
    repos: u8,
) -> (Seat<P, O>, Result<(), Unopened>)
    requires { IsBegunBy O.run repos number known.recovered.state }
    ensures seated { IsSeatedAt number result.0 }
    ensures recovered { IsRecovered (P.disks known.parts) known.recovered }
    ensures fell { OnOk result.1 (NoneFell (faults_in P.disks known.parts) (faults_on P.disks result.0)) }
    ensures failed { (r : ℕ) → IsErrOf result.1 (Failed r) → (r ≡ number) × HasFailedOn P.disks (faults_in P.disks known.parts) result.0 }
{
    let (mut parts, recovered) = known.into_recovered();
    match migrate(alloc, &mut parts, recovered) {
        Ok(recovered) => Seat::of(number, Site::open(alloc, parts, recovered, number, repos)),
        Err(fault) => (
            Seat::Closed(Closed::Parts(parts)),
            Err(unmoved(number, fault)),
        ),
    }
}

/// What is told of a repository that couldn't be moved into the newer format. It has three disks, and no other fails.
fn unmoved(number: u8, fault: RecoverFault) -> Unopened
    ensures { (r : ℕ) → result ≡ Failed r → (r ≡ number) × ((d : ℕ) × ((d < 3) × (fault ≡ DiskFailed d))) }
{
    match fault {
        RecoverFault::Failed { disk } => failed_on(number, disk),
        RecoverFault::Damaged { disk, place } => Unopened::Damaged {
            repo: number,
            disk,
            place,
        },
        RecoverFault::NoMemory => Unopened::NoMemory,
    }
}

/// What is told of a repository of which this disk failed.
fn failed_on(number: u8, disk: u8) -> Unopened
    ensures { (r : ℕ) → result ≡ Failed r → (r ≡ number) × (disk < 3) }
{
    if disk < 3 {
        return Unopened::Failed { repo: number };
    }
    Unopened::NoMemory
}

/// Formats every repository of a store that was found fresh.
#[tactic(auto, using(crate::proofs::Seating::on_always))]
fn format_found<P: Parts, O: Opening>(
    alloc: Global,
    places: Vec<Closed<P>>,
    room: Vec<Seat<P, O>>,
    stored: Option<usize>,
    setup: &Setup,
    mob: u32,
) -> (Vec<Seat<P, O>>, Result<usize, Unopened>)
    requires begins { (n : ℕ) → BeginsNew O.run n (vec_len places) setup.now mob }
    requires empty { vec_len room ≡ 0 }
    requires room { vec_len places ≤ vec_capacity room }
    ensures count { vec_len result.0 ≡ vec_len places }
    ensures seated { AreSeated 0 result.0.items }
    ensures new { OnOk result.1 (IsNew places.items) }
    ensures fell { OnOk result.1 (NoneFellOn P.disks (faults_at P.disks) places.items result.0.items) }
    ensures failed { (r : ℕ) → IsErrOf result.1 (Failed r) → FailedOn P.disks (faults_at P.disks) places.items result.0.items r }
{
    if !is_new(stored, places.as_slice()) {
        return (seat_closed(places, room), Err(Unopened::NoMemory));
    }
    let (seats, formatted) = format_all(alloc, seat_closed(places, room), setup, mob);
    (seats, with(formatted, 0))
}

/// Whether a store is new that was found with so many upgrades or none: the repository 0 is fresh.
fn is_new<P: Parts>(stored: Option<usize>, places: &[Closed<P>]) -> bool
    ensures { IsTrue result → IsNew places.now }
{
    if stored.is_some() {
        return false;
    }
    match places.split_first() {
        Some((Closed::Fresh(_), _)) | None => true,
        Some(_) => false,
    }
}

/// Formats every repository of a store, rising, 0 last.
fn format_all<P: Parts, O: Opening>(
    alloc: Global,
    seats: Vec<Seat<P, O>>,
    setup: &Setup,
    mob: u32,
) -> (Vec<Seat<P, O>>, Result<(), Unopened>)
    requires begins { (n : ℕ) → BeginsNew O.run n (vec_len seats) setup.now mob }
    requires seated { AreSeated 0 seats.items }
    ensures count { vec_len result.0 ≡ vec_len seats }
    ensures seated { AreSeated 0 result.0.items }
    ensures fell { OnOk result.1 (NoneFellOn P.disks (faults_on P.disks) seats.items result.0.items) }
    ensures failed { (r : ℕ) → IsErrOf result.1 (Failed r) → FailedOn P.disks (faults_on P.disks) seats.items result.0.items r }
{
    let count = seats.len();
    let (seats, others) = format_from(alloc, seats, 1, count, setup, mob);
    format_last(alloc, seats, others, setup, mob)
}

/// Formats repository 0, where the others were formatted.
fn format_last<P: Parts, O: Opening>(
    alloc: Global,
    seats: Vec<Seat<P, O>>,
    others: Result<(), Unopened>,
    setup: &Setup,
    mob: u32,
) -> (Vec<Seat<P, O>>, Result<(), Unopened>)
    requires begins { (n : ℕ) → BeginsNew O.run n (vec_len seats) setup.now mob }
    requires seated { AreSeated 0 seats.items }
    ensures count { vec_len result.0 ≡ vec_len seats }
    ensures seated { AreSeated 0 result.0.items }
    ensures others { OnOk result.1 (IsOk others) }
    ensures fell { OnOk result.1 (NoneFellOn P.disks (faults_on P.disks) seats.items result.0.items) }
    ensures failed { (r : ℕ) → IsErrOf result.1 (Failed r) → (IsErrOf others (Failed r) × (result.0.items ≡ seats.items)) ⊎ (IsOk others × FailedOn P.disks (faults_on P.disks) seats.items result.0.items r) }
{
    match others {
        Ok(()) => format_from(alloc, seats, 0, 1, setup, mob),
        Err(why) => (seats, Err(why)),
    }
}

/// Formats the repositories from one place up to another. Behind one that can't be formatted the others aren't.
fn format_from<P: Parts, O: Opening>(
    alloc: Global,
    seats: Vec<Seat<P, O>>,
    from: usize,
    to: usize,
    setup: &Setup,
    mob: u32,
) -> (Vec<Seat<P, O>>, Result<(), Unopened>)
    requires begins { (n : ℕ) → BeginsNew O.run n (vec_len seats) setup.now mob }
    requires seated { AreSeated 0 seats.items }
    ensures count { vec_len result.0 ≡ vec_len seats }
    ensures seated { AreSeated 0 result.0.items }
    ensures fell { OnOk result.1 (NoneFellOn P.disks (faults_on P.disks) seats.items result.0.items) }
    ensures failed { (r : ℕ) → IsErrOf result.1 (Failed r) → FailedOn P.disks (faults_on P.disks) seats.items result.0.items r }
{
    let repos = seats.len();
    let Ok(mut done) = Vec::with_capacity(alloc, repos) else {
        return (seats, Err(Unopened::NoMemory));
    };
    let mut formatted = Ok(());
    for seat in seats {
        let place = done.len();
        let named = from <= place && place < to;
        let (seat, next) = format_behind(alloc, formatted, named, seat, place, repos, setup, mob);
        done.push_reserved(seat);
        formatted = next;
    }
    (done, formatted)
}

/// Formats the repository at a place where it is to be formatted, and those before it were.
fn format_behind<P: Parts, O: Opening>(
    alloc: Global,
    before: Result<(), Unopened>,
    named: bool,
    seat: Seat<P, O>,
    place: usize,
    repos: usize,
    setup: &Setup,
    mob: u32,
) -> (Seat<P, O>, Result<(), Unopened>)
    requires begins { BeginsNew O.run place repos setup.now mob }
    requires seated { IsSeatedAt place seat }
    ensures seated { IsSeatedAt place result.0 }
    ensures before { OnOk result.1 (IsOk before) }
    ensures fell { OnOk result.1 (NoneFell (faults_on P.disks seat) (faults_on P.disks result.0)) }
    ensures failed { (r : ℕ) → IsErrOf result.1 (Failed r) → IsErrOf before (Failed r) ⊎ ((r ≡ place) × HasFailedOn P.disks (faults_on P.disks seat) result.0) }
{
    match before {
        Ok(()) if named => format_next(alloc, seat, place, repos, setup, mob),
        before => (seat, before),
    }
}

/// Formats the repository at a place, of so many.
fn format_next<P: Parts, O: Opening>(
    alloc: Global,
    seat: Seat<P, O>,
    place: usize,
    repos: usize,
    setup: &Setup,
    mob: u32,
) -> (Seat<P, O>, Result<(), Unopened>)
    requires begins { BeginsNew O.run place repos setup.now mob }
    requires seated { IsSeatedAt place seat }
    ensures seated { IsSeatedAt place result.0 }
    ensures fell { OnOk result.1 (NoneFell (faults_on P.disks seat) (faults_on P.disks result.0)) }
    ensures failed { (r : ℕ) → IsErrOf result.1 (Failed r) → (r ≡ place) × HasFailedOn P.disks (faults_on P.disks seat) result.0 }
{
    match (number_at(place), number_at(repos)) {
        (Ok(number), Ok(count)) => format_numbered(alloc, seat, number, count, setup, mob),
        _ => (seat, Err(Unopened::NoMemory)),
    }
}

/// Formats the repository of a number, of so many.
fn format_numbered<P: Parts, O: Opening>(
    alloc: Global,
    seat: Seat<P, O>,
    number: u8,
    repos: u8,
    setup: &Setup,
    mob: u32,
) -> (Seat<P, O>, Result<(), Unopened>)
    requires begins { BeginsNew O.run number repos setup.now mob }
    requires seated { IsSeatedAt number seat }
    ensures seated { IsSeatedAt number result.0 }
    ensures fell { OnOk result.1 (NoneFell (faults_on P.disks seat) (faults_on P.disks result.0)) }
    ensures failed { (r : ℕ) → IsErrOf result.1 (Failed r) → (r ≡ number) × HasFailedOn P.disks (faults_on P.disks seat) result.0 }
{
    match seat {
        Seat::Closed(closed) => format_closed(alloc, closed, number, repos, setup, mob),
        open => (open, Err(Unopened::NoMemory)),
    }
}

/// Formats the disks of the repository of a number, of so many.
fn format_closed<P: Parts, O: Opening>(
    alloc: Global,
    closed: Closed<P>,
    number: u8,
    repos: u8,
    setup: &Setup,
    mob: u32,
) -> (Seat<P, O>, Result<(), Unopened>)
    requires { BeginsNew O.run number repos setup.now mob }
    ensures seated { IsSeatedAt number result.0 }
    ensures fell { OnOk result.1 (NoneFell (faults_at P.disks closed) (faults_on P.disks result.0)) }
    ensures failed { (r : ℕ) → IsErrOf result.1 (Failed r) → (r ≡ number) × HasFailedOn P.disks (faults_at P.disks closed) result.0 }
{
    match closed.into_settled() {
        Ok(settled) => Seat::of(
            number,
            Site::format(alloc, settled.into_parts(), number, repos, setup, mob),
        ),
        Err(closed) => (Seat::Closed(closed), Err(Unopened::NoMemory)),
    }
}

/// The clients 1, 2, .., each with its items.
fn make_clients(
    alloc: Global,
    clients: Vec<Items>,
    tries: u32,
    cache: u32,
) -> Result<Vec<FrontEnd>, NoMemory> {
    let mut made = Ok(Vec::new(alloc));
    for items in clients {
        made = with_client(alloc, made, items, tries, cache);
    }
    made
}

/// The clients with one more.
fn with_client(
    alloc: Global,
    made: Result<Vec<FrontEnd>, NoMemory>,
    items: Items,
    tries: u32,
    cache: u32,
) -> Result<Vec<FrontEnd>, NoMemory> {
    let (items, made) = both(items, made)?;
    let client = make_client(alloc, made.len(), items, tries, cache);
    let (mut made, client) = both(made, client)?;
    let pushed = made.push(client);
    let (made, _) = both(made, pushed)?;
    Ok(made)
}

/// The client behind so many others. There is no memory for one whose numbers aren't in their ranges.
fn make_client(
    alloc: Global,
    others: usize,
    items: Items,
    tries: u32,
    cache: u32,
) -> Result<FrontEnd, NoMemory> {
    let (items, others) = both(items, number_at(others))?;
    if cache == 0 || u32::try_from(items.len()).is_err() {
        drop(items);
        return Err(NoMemory);
    }
    FrontEnd::new(alloc, others.saturating_add(1), items, tries, cache)
}
