//! Of what a request speaks, tested.

ghost use Rattle.repo_site.specs.Testing.{SpeaksOf};
ghost use Rattle.std.specs.List.{AllByRecursion};
ghost use Rattle.std.specs.Prelude.{IsTrue, ◌≡◌};

use log_entries::Request;
use thor_value::{Obj, Oref};

/// Whether a request speaks of a repository's objects, and writes them with its epoch as version.
pub(crate) fn speaks_of(number: u8, request: &Request) -> bool
    ensures { IsTrue result → SpeaksOf number request.now }
{
    are_of(number, request.ros.as_slice()) && have_version(request.epoch, request.writes.as_slice())
}

/// Whether all names are a repository's.
fn are_of(number: u8, names: &[Oref]) -> bool
    ensures { IsTrue result → AllByRecursion (λ x. x.repo ≡ number) names.now }
{
    for name in names {
        if name.repo != number {
            return false;
        }
    }
    true
}

/// Whether all objects that are written have a version.
fn have_version(epoch: u32, writes: &[(Oref, Obj)]) -> bool
    ensures { IsTrue result → AllByRecursion (λ w. w.1.ver ≡ epoch) writes.now }
{
    for write in writes {
        if write.1.ver != epoch {
            return false;
        }
    }
    true
}
