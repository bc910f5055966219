//! What a repository is after a crash.

use class_defs::Roots;
use log_entries::Request;
use page_format::{Sides, StoreFormat};
use thor_value::{Sequence, Stamps, Text, Texts, Ts, Writes};

/// Requests.
pub type Requests = Sequence<Request>;

/// Clients, each with a timestamp.
pub type Alones = Sequence<(u8, Ts)>;

/// The state for which a log stands, as a checkpoint spells it.
#[derive(Debug, Drop)]
pub struct State {
    /// The format of the store: of its pages, and of this checkpoint.
    pub format: StoreFormat,
    /// The repository's number.
    pub repo: u8,
    /// How many repositories the store has.
    pub repos: u8,
    /// How often it was opened or restarted.
    pub life: u32,
    /// How many entries its history has, over all lives; below 2^62.
    pub count: u64,
    /// The greatest timestamp of a transaction that committed here, or the zero timestamp.
    pub threshold: Ts,
    /// The pages below this number may have objects; at most 65,536.
    pub next_page: u32,
    /// The text of the classes at epoch 0.
    pub classes: Text,
    /// The roots, in the order of the setup.
    pub roots: Roots,
    /// The texts of the installed upgrades. Their number is the epoch.
    pub upgrades: Texts,
    /// The installed pages, each with the side that is in use.
    pub installed: Sides,
    /// The buffered objects that stand on no installed side yet, in the order of their first change.
    pub mob: Writes,
    /// The requests that are prepared and not decided, by rising timestamp.
    pub prepared: Requests,
    /// The decisions to commit that are kept for other participants, rising.
    pub kept: Stamps,
    /// For each client its last transaction that committed here alone, clients rising.
    pub alone: Alones,
}
