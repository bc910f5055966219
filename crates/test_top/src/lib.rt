//! Tests of the top call: what no clause says and no case of `checks` shows.
#![tactic(auto)]

#[cfg(test)]
mod at_once;
#[cfg(test)]
mod running;
