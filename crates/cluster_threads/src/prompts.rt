//! Prompts to flush a repository.

use crossbeam_channel::{Receiver, Sender, unbounded};
use std::alloc::Global;
use thor_value::NoMemory;

/// Tells that the buffer of a repository is over half full.
#[derive(Drop)]
pub(crate) struct Prompt;

/// The ends of the channels of the repositories, in their order.
#[derive(Drop)]
pub(crate) struct Channels {
    pub(crate) senders: Vec<Sender<Prompt>>,
    pub(crate) receivers: Vec<Receiver<Prompt>>,
}

/// A channel for each of so many repositories.
pub(crate) fn make_channels(alloc: Global, repos: usize) -> Result<Channels, NoMemory> {
    let mut senders = Vec::with_capacity(alloc, repos)?;
    let mut receivers = Vec::with_capacity(alloc, repos)?;
    for _ in 0..repos {
        let (sender, receiver) = unbounded(alloc)?;
        senders.push(sender)?;
        receivers.push(receiver)?;
    }
    Ok(Channels { senders, receivers })
}

/// Another sender of each channel.
pub(crate) fn others(
    alloc: Global,
    senders: &[Sender<Prompt>],
) -> Result<Vec<Sender<Prompt>>, NoMemory> {
    let mut others = Vec::with_capacity(alloc, senders.len())?;
    for sender in senders {
        others.push(sender.clone()?)?;
    }
    Ok(others)
}
