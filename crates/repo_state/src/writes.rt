//! Objects under their names.

ghost use Rattle.std.specs.List.{AllByRecursion, fold};
ghost use Rattle.std.specs.Prelude.{◌≡◌};
ghost use Rattle.log_entries.specs.RequestForm.{WriteFits};
ghost use Rattle.commit_log.specs.Recovered.{are_of, page_above};
ghost use Rattle.thor_value.specs.Names.{later_of};

use std::cmp::Ordering;
use thor_value::{Obj, Oref, Ts};

/// Whether all names are of one repository.
pub(crate) fn are_of(repo: u8, writes: &[(Oref, Obj)]) -> bool
    ensures { result ≡ are_of repo writes.now }
{
    for write in writes {
        if write.0.repo != repo {
            return false;
        }
    }
    true
}

/// The page behind the last one on which there are names, where that is above a page.
pub(crate) fn page_behind(page: u32, writes: &[(Oref, Obj)]) -> u32
    requires { AllByRecursion WriteFits writes.now }
    ensures { result ≡ fold page_above page writes.now }
{
    let mut behind = page;
    for write in writes {
        behind = behind.max(write.0.page + 1);
    }
    behind
}

/// The later of two timestamps.
pub fn later_of(t: Ts, u: Ts) -> Ts
    ensures { result ≡ later_of t u }
{
    match t.cmp(&u) {
        Ordering::Greater => t,
        Ordering::Less | Ordering::Equal => u,
    }
}
