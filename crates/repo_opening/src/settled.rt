//! The disks of a repository that is to be formatted.

ghost use Rattle.disk_trait.specs.AllDisks.{AllSettled};
ghost use Rattle.std.specs.Prelude.{◌≡◌};

use disk_trait::Parts;
use std::marker::Model;

/// The parts of a repository whose disks are settled: a crash leaves of them what a read gives.
pub struct Settled<P: Parts> {
    parts: P,
}

impl<P: Parts> Model for Settled<P> {
    ghost use Rattle.disk_trait.specs.AllDisks.{AllSettled};

    ghost Value = { P };

    ghost view = { λ s. s.parts };

    ghost invariant = { λ s. AllSettled (P.disks s.parts) };
}

impl<P: Parts> Drop for Settled<P> {
    fn drop(self) {
        let Settled { parts } = self;
        drop(parts);
    }
}

impl<P: Parts> Settled<P> {
    /// Parts whose disks are settled.
    pub fn new(parts: P) -> Settled<P>
        requires { AllSettled (P.disks parts) }
        ensures { result ≡ parts }
    {
        Settled { parts }
    }

    /// The parts.
    pub fn into_parts(self) -> P
        ensures parts { result ≡ self }
        ensures settled { AllSettled (P.disks result) }
    {
        let Settled { parts } = self;
        parts
    }
}
