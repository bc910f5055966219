//! A whole script, read from its bytes into trees; or the line at which the text stops being one.
#![tactic(auto)]

mod error;
mod reading;
mod refusal;
mod script;
mod script_laws;

pub use error::ReadError;
pub use reading::read_script;
pub use refusal::{Refusal, refusal_text};
pub use script::{ClientItems, Items, Script};
pub use script_laws::{scripts_are_read_in_one_way, the_first_fault_of_a_script_is_told};
