/// Where a block stands.
#[derive(Clone, Copy, Debug, PartialEq, Eq)]
pub enum Place {
    /// It is a method's body: `this` and `return` may stand in it, and no `print`.
    Method,
    /// It is an item's: `print` may stand in it, and neither `this` nor `return`.
    Item,
}
