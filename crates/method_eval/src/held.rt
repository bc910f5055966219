use thor_value::Oref;

/// A name that was granted and isn't spent.
#[derive(Clone, Copy, Debug, PartialEq, Eq)]
pub struct Held {
    pub oref: Oref,
    /// Whether it was given to a new object since names were last spent.
    pub given: bool,
}
