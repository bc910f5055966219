//! Tests of the crates below the language: what no clause says, and each call once with ample memory.
#![tactic(auto)]

#[cfg(test)]
mod boards;
#[cfg(test)]
mod bytes;
#[cfg(test)]
mod copies;
#[cfg(test)]
mod counts;
#[cfg(test)]
mod disks;
#[cfg(test)]
mod logs;
#[cfg(test)]
mod objects;
#[cfg(test)]
mod pages;
#[cfg(test)]
mod queues;
#[cfg(test)]
mod samples;
#[cfg(test)]
mod streams;
#[cfg(test)]
mod values;
