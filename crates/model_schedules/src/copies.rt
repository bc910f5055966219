//! Whether the copies that clients hold fit what stands in the repositories.

use crate::deeds::ROOTS;
use crate::playing::Counts;
use crate::world::World;
use client_state::Held;
use model_reading::{Opening, Reading};
use model_repository::Site;
use session_outbox::At;
use std::alloc::Global;
use thor_value::{NoMemory, Obj, Oref};

/// Where the roots stand: their repositories hold them on page 0, in the order of the setup.
const NAMES: [Oref; ROOTS] = [
    Oref {
        repo: 0,
        page: 0,
        slot: 0,
    },
    Oref {
        repo: 1,
        page: 0,
        slot: 0,
    },
    Oref {
        repo: 0,
        page: 0,
        slot: 1,
    },
];

fn is_same(copy: &Obj, stands: &Obj) -> bool {
    copy.class == stands.class
        && copy.ver == stands.ver
        && copy.fields.as_slice() == stands.fields.as_slice()
}

/// Whether a copy is what stands there, or its object is in the session's invalid set at a place that the client doesn't
/// know.
fn is_right_or_stale(reading: &Reading, at: At, upto: u64, oref: Oref, copy: &Obj) -> bool {
    if let Some(stands) = reading.object(oref) {
        if is_same(copy, stands) {
            return true;
        }
    }
    match reading.invalid_place(at.session, oref) {
        Some(place) => upto <= place,
        None => false,
    }
}

/// How a client's copy of an object compares with what its repository's trace tells.
#[derive(Clone, Copy)]
enum Compared {
    /// There is no copy, or its session isn't live.
    None,
    /// It is right, or its object is about to be called invalid.
    Fits,
    /// It is neither.
    Wrong,
}

/// How a client's copy compares, in its session.
fn compare_in_session(
    alloc: Global,
    held: &Held,
    opening: &Opening,
    site: &Site,
    at: At,
    oref: Oref,
) -> Result<Compared, NoMemory> {
    let Some(copy) = held.copy_of(oref)? else {
        return Ok(Compared::None);
    };
    let reading = Reading::of(alloc, opening, at.session, site.items.as_slice())?;
    if !reading.is_live() {
        return Ok(Compared::None);
    }
    if is_right_or_stale(&reading, at, held.upto(at.repo), oref, &copy) {
        return Ok(Compared::Fits);
    }
    Ok(Compared::Wrong)
}

/// How what a client holds of an object compares: without a session it holds none.
fn compare(alloc: Global, world: &World, held: &Held, oref: Oref) -> Result<Compared, NoMemory> {
    let repo = usize::from(oref.repo);
    let opening = world.port.reader.openings.get(repo);
    let site = world.port.sites.get(repo);
    match (held.at(oref.repo), opening, site) {
        (Some(at), Some(opening), Some(site)) => {
            compare_in_session(alloc, held, opening, site, at, oref)
        }
        (None, _, _) => Ok(if held.holds(oref) {
            Compared::Wrong
        } else {
            Compared::None
        }),
        _ => Ok(Compared::Wrong),
    }
}

/// Whether a client's copies fit. It counts those that were compared.
fn client_fits(
    alloc: Global,
    world: &World,
    held: &Held,
    counts: &mut Counts,
) -> Result<bool, NoMemory> {
    let mut fits = true;
    for name in NAMES {
        match compare(alloc, world, held, name)? {
            Compared::None => {}
            Compared::Fits => counts.copies = counts.copies.wrapping_add(1),
            Compared::Wrong => fits = false,
        }
    }
    Ok(fits)
}

/// Whether all copies that the clients hold fit. No client has a try that is under way.
pub(crate) fn all_fit(alloc: Global, world: &World, counts: &mut Counts) -> Result<bool, NoMemory> {
    let mut fits = true;
    for front in world.clients.as_slice() {
        fits = client_fits(alloc, world, front.held(), counts)? && fits;
    }
    Ok(fits)
}
