//! A repository's place in a store.

ghost use Rattle.cluster_core.specs.Failing.{GivesPart, HasFailedOn, IsSite, faults_on};
ghost use Rattle.cluster_core.specs.Seated.{AreOpen, AreSeated, IsOpen, IsSeatedAt};
ghost use Rattle.cluster_port.specs.Failing.{HasFailed, NoneFell};
ghost use Rattle.repo_core.specs.Shown.{faults_of};
ghost use Rattle.repo_core.specs.declared.OpenCause.TheVariants.{Failed as DiskFailed};
ghost use Rattle.repo_opening.specs.declared.unopened.Unopened.TheVariants.{Failed};
ghost use Rattle.std.specs.List.{AllZip};
ghost use Rattle.cluster_port.specs.Lent.{AreInPlace};
ghost use Rattle.cluster_port.specs.Sited.{Sited};
ghost use Rattle.std.specs.Prelude.{IfErr, IfOk, IsErrOf, IsTrue, OnOk, vec_capacity, vec_len, ℕ, ◌≡◌, ◌≤◌};

use cluster_port::{Opening, Site};
use disk_trait::Parts;
use repo_core::{OpenCause, OpenFault};
use repo_opening::Unopened;
use store_opening::Closed;

/// The number of the disk of pages.
const PAGES: u8 = 2;

/// What stands at a repository's place, while a store is opened and while its repositories are apart from it.
#[derive(Drop)]
pub enum Seat<P: Parts, O: Opening> {
    /// What was found of it, or its parts as they came back from an opening that failed.
    Closed(Closed<P>),
    /// The repository, opened.
    Open(Site<P, O>),
}

impl<P: Parts, O: Opening> Seat<P, O> {
    /// The parts.
    pub(crate) fn into_parts(self) -> P
        ensures { GivesPart self result }
    {
        match self {
            Seat::Closed(closed) => closed.into_parts(),
            Seat::Open(site) => {
                let (parts, trace) = site.close();
                drop(trace);
                parts
            }
        }
    }

    /// A repository of this number that was opened, or the parts over which it wasn't.
    pub(crate) fn of(
        repo: u8,
        opened: Result<Site<P, O>, OpenFault<P>>,
    ) -> (Seat<P, O>, Result<(), Unopened>)
        requires { IfOk opened (λ site. site.number ≡ repo) }
        ensures seated { IsSeatedAt repo result.0 }
        ensures fell { (before : ℕ → ℕ) → IfOk opened (λ site. NoneFell before (faults_of site.shown)) → OnOk result.1 (NoneFell before (faults_on P.disks result.0)) }
        ensures failed { (before : ℕ → ℕ) (r : ℕ) → IfErr opened (λ fault. fault.cause ≡ DiskFailed → HasFailed before (P.disks fault.parts).faults) → IsErrOf result.1 (Failed r) → (r ≡ repo) × HasFailedOn P.disks before result.0 }
    {
        match opened {
            Ok(site) => (Seat::Open(site), Ok(())),
            Err(OpenFault { parts, cause }) => {
                (Seat::Closed(Closed::Parts(parts)), Err(why(repo, cause)))
            }
        }
    }

    /// Whether it is open.
    fn is_open(&self) -> bool
        ensures { IsTrue result → IsOpen self.now }
    {
        match self {
            Seat::Open(_) => true,
            Seat::Closed(_) => false,
        }
    }
}

/// What is told of a repository that wasn't opened.
fn why(repo: u8, cause: OpenCause) -> Unopened
    ensures { (r : ℕ) → result ≡ Failed r → (r ≡ repo) × (cause ≡ DiskFailed) }
{
    match cause {
        OpenCause::Failed => Unopened::Failed { repo },
        OpenCause::Changed => Unopened::Damaged {
            repo,
            disk: PAGES,
            place: 0,
        },
        OpenCause::NoMemory => Unopened::NoMemory,
    }
}

/// The parts of all repositories, put into a vector that is empty and has room for them.
pub(crate) fn give_back<P: Parts, O: Opening>(seats: Vec<Seat<P, O>>, spare: Vec<P>) -> Vec<P>
    requires empty { vec_len spare ≡ 0 }
    requires room { vec_len seats ≤ vec_capacity spare }
    ensures count { vec_len result ≡ vec_len seats }
    ensures gives { AllZip GivesPart seats.items result.items }
{
    let mut parts = spare;
    for seat in seats {
        parts.push_reserved(seat.into_parts());
    }
    parts
}

/// Whether all are open.
fn are_open<P: Parts, O: Opening>(seats: &[Seat<P, O>]) -> bool
    ensures { IsTrue result → AreOpen seats.now }
{
    for seat in seats {
        if !seat.is_open() {
            return false;
        }
    }
    true
}

/// The repositories of seats that are all open, put into a vector that is empty and has room for them; else the seats.
pub(crate) fn sites_of<P: Parts, O: Opening>(
    seats: Vec<Seat<P, O>>,
    room: Vec<Site<P, O>>,
) -> Result<Vec<Site<P, O>>, Vec<Seat<P, O>>>
    requires empty { vec_len room ≡ 0 }
    requires room { vec_len seats ≤ vec_capacity room }
    requires seated { AreSeated 0 seats.items }
    ensures count { IfOk result (λ sites. vec_len sites ≡ vec_len seats) }
    ensures placed { IfOk result (λ sites. AreInPlace sites.items) }
    ensures same { IfOk result (λ sites. AllZip IsSite seats.items sites.items) }
    ensures err { IfErr result (λ left. vec_len left ≡ vec_len seats) }
{
    if are_open(seats.as_slice()) {
        Ok(take_all(seats, room))
    } else {
        drop(room);
        Err(seats)
    }
}

/// The repositories of seats that are all open.
fn take_all<P: Parts, O: Opening>(seats: Vec<Seat<P, O>>, room: Vec<Site<P, O>>) -> Vec<Site<P, O>>
    requires empty { vec_len room ≡ 0 }
    requires room { vec_len seats ≤ vec_capacity room }
    requires seated { AreSeated 0 seats.items }
    requires open { AreOpen seats.items }
    ensures count { vec_len result ≡ vec_len seats }
    ensures placed { AreInPlace result.items }
    ensures same { AllZip IsSite seats.items result.items }
{
    let mut sites = room;
    for seat in seats {
        let place = sites.len();
        sites.push_reserved(take(seat, place));
    }
    sites
}

/// The repository of a seat that is open, at its place.
fn take<P: Parts, O: Opening>(seat: Seat<P, O>, place: usize) -> Site<P, O>
    requires seated { IsSeatedAt place seat }
    requires open { IsOpen seat }
    ensures number { result.number ≡ place }
    ensures same { IsSite seat result }
{
    let _ = place;
    match seat {
        Seat::Open(site) => site,
        Seat::Closed(_) => unreachable!(),
    }
}

/// Seats of repositories that are open, in a vector that is empty and has room for them.
pub(crate) fn seat_all<P: Parts, O: Opening>(
    sites: Vec<Site<P, O>>,
    room: Vec<Seat<P, O>>,
) -> Vec<Seat<P, O>>
    requires empty { vec_len room ≡ 0 }
    requires room { vec_len sites ≤ vec_capacity room }
    ensures { vec_len result ≡ vec_len sites }
{
    let mut seats = room;
    for site in sites {
        seats.push_reserved(Seat::Open(site));
    }
    seats
}
