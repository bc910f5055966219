//! The events of the repositories of a run that are no client's, each at its place. Where there is no repository nothing is done.

ghost use Rattle.cluster_port.specs.Happening.{HappenedAt, IsStopped};
ghost use Rattle.cluster_port.specs.Lent.{AreInPlace};
ghost use Rattle.repo_refusals.specs.declared.refusal.Refusal.TheVariants.{NoMemory as IsNoMemory};
ghost use Rattle.repo_site.specs.Happening.{ComesBack, Flushes, GoesOn};
ghost use Rattle.std.specs.Prelude.{IsErrOf, vec_len, ◌≡◌, ◌⊎◌};

use disk_trait::Parts;
use repo_refusals::Refusal;
use repo_site::{Opening, Site};

/// What an event was answered, without what it gave.
fn done<T: Drop>(answer: Result<T, Refusal>) -> Result<(), Refusal> {
    match answer {
        Ok(_) => Ok(()),
        Err(refusal) => Err(refusal),
    }
}

/// Flushes the page of the oldest buffered object.
pub fn flush<P: Parts, O: Opening>(sites: &mut Vec<Site<P, O>>, place: usize) -> Result<(), Refusal>
    requires { AreInPlace sites.old.items }
    ensures placed { AreInPlace sites.new.items }
    ensures count { vec_len sites.new ≡ vec_len sites.old }
    ensures does { HappenedAt Flushes place sites.old.items sites.new.items }
{
    match sites.get_mut(place) {
        Some(site) => done(site.flush()),
        None => Ok(()),
    }
}

/// Makes a checkpoint.
pub fn checkpoint<P: Parts, O: Opening>(
    sites: &mut Vec<Site<P, O>>,
    place: usize,
) -> Result<(), Refusal>
    requires { AreInPlace sites.old.items }
    ensures placed { AreInPlace sites.new.items }
    ensures count { vec_len sites.new ≡ vec_len sites.old }
{
    match sites.get_mut(place) {
        Some(site) => site.checkpoint(),
        None => Ok(()),
    }
}

/// Takes one that is up down behind so many disk calls.
pub fn stop<P: Parts, O: Opening>(sites: &mut Vec<Site<P, O>>, place: usize, calls: u32)
    requires { AreInPlace sites.old.items }
    ensures placed { AreInPlace sites.new.items }
    ensures count { vec_len sites.new ≡ vec_len sites.old }
    ensures does { HappenedAt (IsStopped calls) place sites.old.items sites.new.items }
{
    match sites.get_mut(place) {
        Some(site) => stop_site(site, calls),
        None => {}
    }
}

fn stop_site<P: Parts, O: Opening>(site: &mut Site<P, O>, calls: u32)
    ensures number { site.new.number ≡ site.old.number }
    ensures does { IsStopped calls site.old.shown site.new.shown }
{
    if site.is_up() {
        site.stop_after(calls);
    }
}

/// Restarts it, with the images of its disks that a pick chooses.
pub fn restart<P: Parts, O: Opening>(
    sites: &mut Vec<Site<P, O>>,
    place: usize,
    pick: u64,
) -> Result<(), Refusal>
    requires { AreInPlace sites.old.items }
    ensures placed { AreInPlace sites.new.items }
    ensures count { vec_len sites.new ≡ vec_len sites.old }
    ensures does { HappenedAt GoesOn place sites.old.items sites.new.items }
    ensures comes { IsErrOf result IsNoMemory ⊎ HappenedAt ComesBack place sites.old.items sites.new.items }
{
    match sites.get_mut(place) {
        Some(site) => site.restart(pick),
        None => Ok(()),
    }
}

/// Takes back a stop that hasn't fallen.
pub fn disarm<P: Parts, O: Opening>(sites: &mut Vec<Site<P, O>>, place: usize)
    requires { AreInPlace sites.old.items }
    ensures placed { AreInPlace sites.new.items }
    ensures count { vec_len sites.new ≡ vec_len sites.old }
{
    match sites.get_mut(place) {
        Some(site) => site.disarm(),
        None => {}
    }
}

/// Restarts one that is down.
pub fn bring_up<P: Parts, O: Opening>(
    sites: &mut Vec<Site<P, O>>,
    place: usize,
) -> Result<(), Refusal>
    requires { AreInPlace sites.old.items }
    ensures placed { AreInPlace sites.new.items }
    ensures count { vec_len sites.new ≡ vec_len sites.old }
{
    match sites.get_mut(place) {
        Some(site) => bring_site_up(site),
        None => Ok(()),
    }
}

fn bring_site_up<P: Parts, O: Opening>(site: &mut Site<P, O>) -> Result<(), Refusal>
    ensures { site.new.number ≡ site.old.number }
{
    if site.is_up() {
        return Ok(());
    }
    site.restart(0)
}
