//! How a transaction stands at a repository.

ghost use Rattle.std.specs.Prelude.{◌≡◌};
ghost use Rattle.spec_history.specs.History.{is_open};
ghost use Rattle.model_reading.specs.Fates.{fate_of};

use log_entries::Request;
use std::marker::Model;

/// What became of a transaction.
#[derive(Clone, Copy)]
pub(crate) enum Fate {
    /// It is undecided.
    Open,
    /// Its writes count from this place on.
    Committed { at: u64 },
    /// It counts for nothing.
    Aborted,
}

/// How a transaction stands: the place of its request, the request, and what became of it.
#[derive(Drop)]
pub(crate) struct Standing {
    place: u64,
    request: Request,
    fate: Fate,
}

impl Model for Standing {
    ghost use Rattle.spec_history.specs.History.{Known};
    ghost use Rattle.model_reading.specs.Fates.{fate_of};

    ghost Value = { Known };

    ghost view = { λ s. record { place = s.place; request = s.request; fate = fate_of s.fate } };
}

impl Standing {
    pub(crate) fn new(place: u64, request: Request, fate: Fate) -> Standing
        ensures { result ≡ record { place = place; request = request; fate = fate_of fate } }
    {
        Standing {
            place,
            request,
            fate,
        }
    }

    /// The place of its request.
    pub(crate) fn place(&self) -> u64
        ensures { result ≡ self.now.place }
    {
        self.place
    }

    pub(crate) fn request(&self) -> &Request
        ensures { result.now ≡ self.now.request }
    {
        &self.request
    }

    /// Whether it is undecided, but for a Life.
    pub(crate) fn is_open(&self) -> bool
        ensures { result ≡ is_open self.now.fate }
    {
        match self.fate {
            Fate::Open => true,
            Fate::Committed { .. } | Fate::Aborted => false,
        }
    }
}
