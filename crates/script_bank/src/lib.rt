//! A script that shows the store under load: a bank with transfers, audits and an upgrade.
#![tactic(auto)]

mod bank;
mod numbers;

pub use bank::generate;
