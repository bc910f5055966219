//! What an upgrade makes of one object, over the objects as they were, and which upgrades a stored object lacks.
#![tactic(auto)]

mod epochs;
mod field_values;
mod transforming;

pub use epochs::{classes_at, level, next_of, schema_at};
pub use field_values::{field_behind, object_behind};
pub use transforming::{transformed, upgrade_of};
