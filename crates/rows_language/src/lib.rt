//! Worked rows of the rules, of runs, of upgrades and of lazy maps, computed on the definitions.
#![tactic(auto)]

mod lazy_examples;
mod need_rows;
mod rule_rows;
mod run_rows;
mod text_rows;
mod upgrade_rows;
