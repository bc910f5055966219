//! The board: for each repository one atomic word with the length of its history, and seats whose
//! knowledge of the histories, and of the calls that clients sent, is proved to be true. Threads
//! that hold no lock together can so join what each of them saw.
#![tactic(auto)]

mod board;
mod client_pass;
mod closing;
mod knowledge;
mod locked;
mod making;
mod naming;
mod owner;
mod pass;
mod rule;
mod steps;

pub use board::Board;
pub use client_pass::ClientPass;
pub use closing::Lengths;
pub use knowledge::{Family, Knowledge, Made, Maker, View};
pub use naming::Naming;
pub use owner::Owner;
pub use pass::Pass;
pub use rule::BoardRule;
