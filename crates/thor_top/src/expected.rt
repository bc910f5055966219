//! What a run is compared with before it is told.

use script_parse::Script;
use top_judging::OpenedStore;
use top_reply::{Form, Running};

/// What a run's history is checked against, and how the run is told.
#[derive(Drop)]
pub struct Expected {
    pub running: Running,
    pub form: Form,
    /// Whose items are answered.
    pub script: Script,
    pub opened: OpenedStore,
}
