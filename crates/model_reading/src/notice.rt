//! The messages of a session, without their bytes.

ghost use Rattle.model_reading.specs.Notices.{notice_of};
ghost use Rattle.std.specs.Prelude.{◌≡◌};

use std::marker::Model;
use thor_value::Orefs;

/// What a message says.
#[derive(Drop)]
pub enum Says {
    /// A page, and the place at which it was read.
    Page { page: u32, place: u64 },
    /// A new page, and the place at which it was granted.
    Grant { page: u32, place: u64 },
    /// Objects that were written, and the place of the commit.
    Invalid { names: Orefs, place: u64 },
    /// The number of an upgrade, and the place of its commit.
    Upgrade { number: u32, place: u64 },
}

/// A message, without its bytes.
#[derive(Drop)]
pub struct Notice {
    says: Says,
}

impl Model for Notice {
    ghost use Rattle.spec_trace.specs.Session.{Notice as ANotice};
    ghost use Rattle.model_reading.specs.Notices.{notice_of};

    ghost Value = { ANotice };

    ghost view = { λ n. notice_of n.says };
}

impl Notice {
    pub(crate) fn new(says: Says) -> Notice
        ensures { result ≡ notice_of says }
    {
        Notice { says }
    }

    pub fn says(&self) -> &Says
        ensures { notice_of result.now ≡ self.now }
    {
        &self.says
    }
}
