ghost use Rattle.session_outbox.specs.Messages.{place_of};
ghost use Rattle.std.specs.Prelude.{◌≡◌};

use page_format::PageImage;
use thor_value::{Orefs, Text};

/// What waits in an outbox for a client (Liskov and others, SIGMOD 1996; places are this project's).
///
/// A place counts the entries of the repository's history. A message moves from where it was made to the
/// client: its bytes are kept once.
#[derive(Debug, Drop)]
pub enum Message {
    /// A page that was asked for.
    Page {
        /// Its number.
        page: u32,
        /// Its bytes.
        bytes: PageImage,
        /// How many entries there were when it was read.
        place: u64,
    },
    /// A new page, for objects that the client makes.
    Grant {
        /// Its number.
        page: u32,
        /// How many entries there were when it was granted.
        place: u64,
    },
    /// Objects that another session wrote, of pages that this one may have.
    Invalid {
        /// Their names, rising.
        orefs: Orefs,
        /// The place of the commit.
        place: u64,
    },
    /// An upgrade of classes was installed.
    Upgrade {
        /// Its number, from 1.
        number: u32,
        /// Its printed text.
        text: Text,
        /// The place of its commit.
        place: u64,
    },
}

impl Message {
    /// Its place.
    pub fn place(&self) -> u64
        ensures { result ≡ place_of self.now }
    {
        match self {
            Message::Page { place, .. } => *place,
            Message::Grant { place, .. } => *place,
            Message::Invalid { place, .. } => *place,
            Message::Upgrade { place, .. } => *place,
        }
    }
}
