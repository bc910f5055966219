//! What the tests of the top call share: a script that is run on repositories in memory.

use disk_trait::{MemParts, TickClock};
use outside::{Gate, MemSink, MemSource};
use std::alloc::Global;
use std::sync::Wait;
use std::thread::Threads;
use thor_top::{Status, StoreParts, thor};
use thor_value::{Ints, NoMemory, Text, Texts};

/// What is run: the words, the script, and on how many repositories.
pub struct Asked<'a> {
    pub words: &'a [&'a [u8]],
    pub script: &'a [u8],
    pub repos: u8,
}

/// Repositories in memory, all of them empty.
fn empty(alloc: Global, repos: u8) -> Result<Vec<MemParts<TickClock>>, NoMemory> {
    let mut parts = Vec::new(alloc);
    for _ in 0..repos {
        parts.push(MemParts::new(
            Vec::new(alloc),
            Vec::new(alloc),
            Vec::new(alloc),
            Vec::new(alloc),
            TickClock::new(1),
        ))?;
    }
    Ok(parts)
}

fn texts(alloc: Global, words: &[&[u8]]) -> Result<Texts, NoMemory> {
    let mut texts = Texts::new(alloc);
    for word in words {
        texts.push(Text::from_slice(alloc, word)?)?;
    }
    Ok(texts)
}

/// Runs the program through a gate. The answer is its status.
pub fn run<R: Threads + Wait + Sync, G: Gate + Sync>(
    rt: &R,
    alloc: Global,
    gate: &G,
    asked: &Asked<'_>,
) -> Result<Status, NoMemory> {
    let words = texts(alloc, asked.words)?;
    let script = Text::from_slice(alloc, asked.script)?;
    let mut source = MemSource::new(script, Ints::new(alloc));
    let mut sink = MemSink::new(Ints::new(alloc));
    let parts = StoreParts {
        repositories: empty(alloc, asked.repos)?,
    };
    let outcome = thor(
        rt,
        alloc,
        words.as_slice(),
        &mut source,
        &mut sink,
        parts,
        gate,
    );
    Ok(outcome.status)
}
