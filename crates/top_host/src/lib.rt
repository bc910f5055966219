//! What the program has of its machine, below the top call: the folder and the files of a store, clocks, and what is told to a person
//! on standard error.
#![tactic(auto)]

mod advice;
mod clocks;
mod descriptors;
mod folder;
mod noting;
mod parts;
mod progress;
mod read_only;
mod standing;
mod store_files;
mod telling;
mod wrong_word;

pub use advice::{Behind, NO_MEMORY, advise, advise_behind};
pub use clocks::{Clocks, Counting, Machine};
pub use folder::{Entry, Folder, enter};
pub use noting::{Noted, NotingSink};
pub use parts::{closed, memory};
pub use progress::Progress;
pub use store_files::{RepoFiles, look, remove_made};
pub use telling::{opened, tell_files, tell_lost, tell_number};
pub use wrong_word::fault_of;
