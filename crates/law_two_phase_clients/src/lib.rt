//! That clients over several repositories keep to two-phase commit. It is definitions and laws.
#![tactic(auto)]

mod coordinating;
mod forgetting;
mod handing;
mod leaving;
mod stamping;
mod trying;

pub use coordinating::coordinators_are_asked;
pub use forgetting::forgotten_verdicts_were_taken;
pub use handing::verdicts_are_handed_on_as_told;
pub use leaving::later_shares_were_written;
pub use stamping::timestamps_go_out_once;
pub use trying::tries_keep_to_two_phase_commit;
