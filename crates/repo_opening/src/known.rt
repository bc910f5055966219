//! A repository as an opening has recovered it.

ghost use Rattle.repo_opening.specs.Recovered.{IsRecovered};
ghost use Rattle.std.specs.Prelude.{◌≡◌};

use crate::repository::Read;
use crate::settled::Settled;
use disk_trait::Parts;
use recovery::Recovered;
use std::marker::Model;

/// A repository as its logs tell it, with its parts: what was recovered is what its disks stand for.
pub struct Known<P: Parts> {
    parts: P,
    recovered: Recovered,
    /// The page behind the last installed one that has objects.
    behind: u32,
}

impl<P: Parts> Model for Known<P> {
    ghost use Rattle.repo_opening.specs.Recovered.{IsRecovered, Kept};

    ghost Value = { Kept P };

    ghost view = { λ k. record { parts = k.parts; recovered = k.recovered } };

    ghost invariant = { λ k. IsRecovered (P.disks k.parts) k.recovered };
}

impl<P: Parts> Drop for Known<P> {
    fn drop(self) {
        let Known {
            parts,
            recovered,
            behind: _,
        } = self;
        drop(recovered);
        drop(parts);
    }
}

impl<P: Parts> Known<P> {
    /// What was recovered from these parts.
    pub fn new(parts: P, recovered: Recovered, behind: u32) -> Known<P>
        requires { IsRecovered (P.disks parts) recovered }
        ensures parts { result.parts ≡ parts }
        ensures recovered { result.recovered ≡ recovered }
    {
        Known {
            parts,
            recovered,
            behind,
        }
    }

    /// What was recovered.
    pub fn recovered(&self) -> &Recovered
        ensures { IsRecovered (P.disks self.now.parts) result.now }
    {
        &self.recovered
    }

    /// What was read.
    pub fn read(&self) -> Read<'_>
        ensures { IsRecovered (P.disks self.now.parts) result.recovered.now }
    {
        Read {
            recovered: &self.recovered,
            behind: self.behind,
        }
    }

    /// The parts.
    pub fn into_parts(self) -> P
        ensures { result ≡ self.parts }
    {
        let Known {
            parts,
            recovered,
            behind: _,
        } = self;
        drop(recovered);
        parts
    }

    /// The parts, to be formatted.
    pub fn into_settled(self) -> Settled<P>
        ensures { result ≡ self.parts }
    {
        let Known {
            parts,
            recovered,
            behind: _,
        } = self;
        drop(recovered);
        Settled::new(parts)
    }

    /// The parts, with what was recovered from them.
    pub fn into_recovered(self) -> (P, Recovered)
        ensures parts { result.0 ≡ self.parts }
        ensures same { result.1 ≡ self.recovered }
        ensures recovered { IsRecovered (P.disks result.0) result.1 }
    {
        let Known {
            parts,
            recovered,
            behind: _,
        } = self;
        (parts, recovered)
    }
}
