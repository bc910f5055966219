ghost use Rattle.std.specs.Prelude.{◌≤◌, length};

use class_defs::Schema;
use std::alloc::Global;
use thor_value::{Obj, OrefMap};

/// What an evaluation knows of the program.
#[derive(Clone, Copy)]
pub struct Program<'a> {
    pub alloc: Global,
    pub schema: &'a Schema,
    ghost few_classes: { length schema.now.classes ≤ 65536 },
}

/// What an evaluation reads.
#[derive(Clone, Copy)]
pub struct World<'a> {
    pub program: Program<'a>,
    pub objects: &'a OrefMap<Obj>,
}
