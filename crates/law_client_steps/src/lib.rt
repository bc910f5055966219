//! That a client fits what it has seen of its repositories behind each of its steps, whatever others do between. It is
//! definitions and laws.
#![tactic(auto)]

mod learnt;
mod lost;
mod one_repository;
mod quiet;
mod reads;
mod runs;
mod single_parts;
mod steps;

pub use learnt::what_is_learnt_stays;
pub use lost::lost_sessions_stay_lost;
pub use one_repository::{a_run_over_one_repository, clients_of_one_repository_fit};
pub use quiet::{handed_on_is_settled, links_stay_quiet};
pub use reads::accepted_reads_stand;
pub use runs::{new_clients_fit_wholly, running_clients_fit};
pub use single_parts::clients_of_single_parts_fit;
pub use steps::moving_clients_fit;
