use thor_value::Oref;

/// A session that may have an object which another one has written: a mark in its invalid set, by which it can be taken back.
#[derive(Clone, Copy)]
pub struct Marked {
    /// The session.
    pub session: u32,
    /// The object.
    pub oref: Oref,
    /// The place that the object had in the set before, if it was there.
    pub before: Option<u64>,
}
