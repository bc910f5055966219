//! A repository's place in a store that isn't open.

ghost use Rattle.std.specs.List.{AllZip};
ghost use Rattle.std.specs.Prelude.{vec_capacity, vec_len, ◌≡◌, ◌≤◌};
ghost use Rattle.disk_trait.specs.AllDisks.{ReadsAs};
ghost use Rattle.commit_log.specs.Recovered.{stands};
ghost use Rattle.std.specs.Prelude.{IfOk, IfSome, List, Some, ℕ};
ghost use Rattle.store_opening.specs.Joined.{IsKept, state_of};
ghost use Rattle.store_opening.specs.Seated.{Gives, HasPart, IsSeated};
ghost use Rattle.store_opening.specs.Unsound.{IsLogOn};

use disk_trait::Parts;
use repo_opening::{Known, Read, Settled};

/// What stands at a repository's place before its store is open.
#[derive(Drop)]
pub enum Closed<P: Parts> {
    /// Its parts, as they came, or as they came back from an opening that failed.
    Parts(P),
    /// The parts of a fresh repository.
    Fresh(Settled<P>),
    /// What was recovered.
    Known(Known<P>),
}

impl<P: Parts> Closed<P> {
    /// The parts.
    pub fn into_parts(self) -> P
        ensures gives { Gives P.disks self result }
        ensures part { HasPart self result }
    {
        match self {
            Closed::Parts(parts) => parts,
            Closed::Fresh(settled) => settled.into_parts(),
            Closed::Known(known) => known.into_parts(),
        }
    }

    /// Its parts, to be formatted; the place itself where its disks weren't read.
    pub fn into_settled(self) -> Result<Settled<P>, Closed<P>>
        ensures part { IfOk result (HasPart self) }
    {
        match self {
            Closed::Fresh(settled) => Ok(settled),
            Closed::Known(known) => Ok(known.into_settled()),
            other => Err(other),
        }
    }

    /// What was recovered.
    pub(crate) fn read(&self) -> Option<Read<'_>>
        ensures kept { IfSome result IsKept }
        ensures stands { (part : P) (images : ℕ → List ℕ) → IsSeated P.disks part self.now → ReadsAs (P.disks part) images → IfSome result (λ read. stands images ≡ Some (state_of read)) }
        ensures log { (part : P) (images : ℕ → List ℕ) → IsSeated P.disks part self.now → ReadsAs (P.disks part) images → IfSome result (λ read. IsLogOn images read.recovered.now.log.disk) }
    {
        match self {
            Closed::Known(known) => Some(known.read()),
            Closed::Parts(_) | Closed::Fresh(_) => None,
        }
    }
}

/// The parts of all repositories, put into a vector that is empty and has room for them.
#[tactic(auto, using(crate::proofs::Places::zip_more, crate::proofs::Places::next_one, crate::proofs::Places::none_in))]
pub fn give_back<P: Parts>(places: Vec<Closed<P>>, spare: Vec<P>) -> Vec<P>
    requires empty { vec_len spare ≡ 0 }
    requires room { vec_len places ≤ vec_capacity spare }
    ensures count { vec_len result ≡ vec_len places }
    ensures gives { AllZip (Gives P.disks) places.items result.items }
    ensures parts { AllZip HasPart places.items result.items }
{
    let mut parts = spare;
    for place in places {
        parts.push_reserved(place.into_parts());
    }
    parts
}
