use class_defs::Schemas;
use std::alloc::Global;
use thor_value::{Obj, OrefMap};

/// What the values of objects in earlier epochs are told from: the schemas of all epochs, and objects as they are
/// stored.
#[derive(Clone, Copy)]
pub struct Past<'a> {
    pub alloc: Global,
    pub schemas: &'a Schemas,
    pub objects: &'a OrefMap<Obj>,
}
