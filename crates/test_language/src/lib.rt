//! Tests of the crates of the language, of its evaluation and of its reports: what no clause says and no case of
//! `checks` shows, and the worked rows of definitions.
#![tactic(auto)]

#[cfg(test)]
mod bringing;
#[cfg(test)]
mod cases;
#[cfg(test)]
mod copies;
#[cfg(test)]
mod event_rows;
#[cfg(test)]
mod names;
#[cfg(test)]
mod part_rows;
#[cfg(test)]
mod printing;
#[cfg(test)]
mod reading;
#[cfg(test)]
mod replays;
#[cfg(test)]
mod reports;
#[cfg(test)]
mod token_rows;
