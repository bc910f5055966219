use thor_value::{Fault, Oref, Orefs};

/// How small steps came to an end.
#[derive(Drop)]
pub enum Came {
    Ended,
    Faulted { fault: Fault },
    Waits { oref: Oref, owners: Orefs },
    WaitsForName { repo: u8 },
}
