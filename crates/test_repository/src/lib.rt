//! Tests of what a repository is made of.
#![tactic(auto)]

#[cfg(test)]
mod bodies;
#[cfg(test)]
mod buffers;
#[cfg(test)]
mod links;
#[cfg(test)]
mod messages;
#[cfg(test)]
mod objects;
#[cfg(test)]
mod pages;
#[cfg(test)]
mod sets;
#[cfg(test)]
mod transactions;
