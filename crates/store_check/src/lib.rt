//! Whether what is stored is a store: the schemas that its texts spell, and whether its objects fit them.
#![tactic(auto)]

mod fitting;
mod kinds;
mod laws;
mod naming;
mod schemas;
mod ways;

pub use fitting::{Fitting, fits};
pub use laws::maps_fit_by_names;
pub use schemas::{Texts, is_lawful, schemas_of};
