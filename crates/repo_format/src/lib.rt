//! A fresh repository is formatted.
#![tactic(auto)]

mod checked;
mod formatting;
mod headers;
mod objects;
mod pages;
mod state;

pub use formatting::format;
