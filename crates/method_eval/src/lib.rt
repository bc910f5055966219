//! What a transaction's evaluation does over the objects at hand, part by part.
#![tactic(auto)]

mod calls;
mod halt;
mod held;
mod locals;
mod marks;
mod names;
mod names_laws;
mod objects;
mod steps;
mod types;
mod view;
mod world;

pub use calls::{bound, owners_at, result_of};
pub use halt::Halt;
pub use held::Held;
pub use locals::{assign_local, declare, holds};
pub use names::Names;
pub use names_laws::{names_are_given_as_they_are_taken, names_are_given_once};
pub use objects::{
    assign_field, class_found, create, field_at, field_named, field_value, is_known, last_upgrade,
    named_value, new_object, repo_for, set_field, touch,
};
pub use steps::{fault, take_step};
pub use types::{field_type, method_of, name_type, result_type, type_named, type_of};
pub use view::{Ran, View};
pub use world::{Program, World};
