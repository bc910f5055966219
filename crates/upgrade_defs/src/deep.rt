//! What the parser keeps beside the trees.

use class_defs::Tf;

/// The expression of a new field, and its height as a tree.
#[derive(Debug, Drop)]
pub struct Deep {
    pub value: Tf,
    /// A leaf has 1.
    pub depth: u32,
}
