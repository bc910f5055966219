//! A client of repositories: it runs the items of a script, one after the other, by calls of a port.
#![tactic(auto)]

mod aborting;
mod asking;
mod awaiting;
mod catching_up;
mod client;
mod committing;
mod evaluating;
mod front_end;
mod going_on;
mod handing_on;
mod helping;
mod joining;
mod messages;
mod outcomes;
mod rule;
mod transforming;
mod tries;

pub use client_items::{Items, Opened};
pub use front_end::{FrontEnd, Step};
