//! What the words of the program ask for.

use std::alloc::Global;
use thor_value::Text;
use top_words::{Command, Plan, WordsFault, read_words};

/// What is asked for.
#[derive(Clone, Copy)]
pub(crate) struct Asked {
    /// Whether it is told of each event what it did.
    pub traces: bool,
    /// How many repositories there are, 1 to 8.
    pub repos: u8,
    /// How many times an item is tried, 1 to 100.
    pub tries: u32,
    /// How many pages a client holds between tries, 1 to 4,096.
    pub cache: u32,
    /// How many bytes of objects a repository buffers, 1 to 16,777,216.
    pub mob: u32,
}

/// What a plan asks for, which is to play in memory.
fn asked_by(plan: &Plan, traces: bool) -> Option<Asked> {
    match (plan.command, &plan.store) {
        (Command::Play, None) => Some(Asked {
            traces,
            repos: plan.repos,
            tries: u32::from(plan.tries),
            cache: plan.cache,
            mob: plan.mob,
        }),
        (_, _) => None,
    }
}

/// What words ask for that are those of the program `kilntaupe` for `play`.
fn read_plan(alloc: Global, words: &[Text], traces: bool) -> Result<Asked, WordsFault> {
    let plan = read_words(alloc, words)?;
    match asked_by(&plan, traces) {
        Some(asked) => Ok(asked),
        None => Err(WordsFault::Words),
    }
}

/// What the words behind the program's name ask for: those of `play`, after `--trace` where it is told what each event did.
pub(crate) fn read_asked(alloc: Global, words: &[Text]) -> Result<Asked, WordsFault> {
    match words.split_first() {
        Some((first, rest)) => {
            if first.as_slice() == b"--trace".as_slice() {
                read_plan(alloc, rest, true)
            } else {
                read_plan(alloc, words, false)
            }
        }
        None => Err(WordsFault::Words),
    }
}
