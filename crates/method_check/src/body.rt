ghost use Rattle.std.specs.Prelude.{◌≤◌, length};

use class_defs::{ExprType, Schema};

/// What is in sight in a whole body, its locals aside.
#[derive(Clone, Copy)]
pub struct Body<'a> {
    pub schema: &'a Schema,
    /// How many repositories there are.
    pub repos: u8,
    /// The class of `this`; nothing in an item.
    pub this: Option<u16>,
    /// The type that a `return` gives.
    pub result: ExprType,
    ghost few_classes: { length schema.now.classes ≤ 65536 },
}
