//! What one transaction has against a request.

ghost use Rattle.std.specs.Map.{keys_of};
ghost use Rattle.std.specs.Prelude.{◌≡◌};
ghost use Rattle.model_reading.specs.Against.{first_meeting, first_read};
ghost use Rattle.model_reading.specs.Tables.{names_in};
ghost use Rattle.repo_refusals.specs.Refusals.{blocks, comes_earlier, comes_later, names_of, reads_from, writes_over};

use crate::names::{Names, has_read, has_written, is_before, is_upgrade};
use crate::window::Member;
use base_reasons::Reason;
use log_entries::Request;
use repo_refusals::Refusal;
use thor_value::{Oref, Ts};

/// Whether it has to be decided first.
pub(crate) fn blocks(request: &Request, tx: Ts, member: &Member) -> Option<Refusal>
    ensures { result ≡ blocks request.now (tx, member.now) }
{
    if !member.is_decided() && (is_upgrade(request) || is_upgrade(member.request())) {
        return Some(Refusal::Reason(Reason::Blocked { tx }));
    }
    None
}

fn reads_from(request: &Request, other: &Request, oref: Oref) -> bool
    ensures { result ≡ reads_from request.now other.now oref }
{
    has_read(request, oref) && has_written(other, oref)
}

fn writes_over(request: &Request, other: &Request, oref: Oref) -> bool
    ensures { result ≡ writes_over request.now other.now oref }
{
    has_written(request, oref) && has_read(other, oref)
}

/// The first of some names that a request read and another wrote.
fn first_read(names: &Names, request: &Request, other: &Request) -> Option<Oref>
    ensures { result ≡ first_read request.now other.now (keys_of names.now.entries) }
{
    for name in names.keys() {
        if reads_from(request, other, *name) {
            return Some(*name);
        }
    }
    None
}

/// The first of some names that a request read and another wrote, or the other way round.
fn first_meeting(names: &Names, request: &Request, other: &Request) -> Option<Oref>
    ensures { result ≡ first_meeting request.now other.now (keys_of names.now.entries) }
{
    for name in names.keys() {
        if reads_from(request, other, *name) || writes_over(request, other, *name) {
            return Some(*name);
        }
    }
    None
}

/// Whether a request read, of these names, what an undecided transaction below it wrote.
pub(crate) fn comes_earlier(
    names: &Names,
    request: &Request,
    tx: Ts,
    member: &Member,
) -> Option<Refusal>
    requires { names_in names.now ≡ names_of request.now }
    ensures { result ≡ comes_earlier request.now (tx, member.now) }
{
    if member.is_decided() || !is_before(tx, request.tx) {
        return None;
    }
    match first_read(names, request, member.request()) {
        Some(oref) => Some(Refusal::Reason(Reason::Earlier { tx, oref })),
        None => None,
    }
}

/// Whether a request meets, at one of these names, a transaction above it.
pub(crate) fn comes_later(
    names: &Names,
    request: &Request,
    tx: Ts,
    member: &Member,
) -> Option<Refusal>
    requires { names_in names.now ≡ names_of request.now }
    ensures { result ≡ comes_later request.now (tx, member.now) }
{
    if !is_before(request.tx, tx) {
        return None;
    }
    match first_meeting(names, request, member.request()) {
        Some(oref) => Some(Refusal::Reason(Reason::Later { tx, oref })),
        None => None,
    }
}
