//! Plays a script in memory under many schedules, and tells what came of each.
#![tactic(auto)]

mod exploring;
mod faults;
mod lines;
mod playing;
mod printing;
mod watching;
mod words;

use crate::exploring::explore;
use crate::words::{Asked, read_asked};
use outside::{ReadAll, StdSink, StdSource, read_all};
use std::env;
use std::process::ExitCode;
use thor_value::{NoMemory, Text, Texts};
use top_reply::Status;
use top_words::WordsFault;

/// The most bytes of a script and its schedules.
const LIMIT: usize = 8_388_608;

/// The words behind the program's name; none where one of them isn't UTF-8.
fn given_words(rt: HostRuntime) -> Result<Option<Texts>, NoMemory> {
    let Ok(given) = env::args(&rt) else {
        return Ok(None);
    };
    let mut words = Texts::new(rt.alloc());
    for word in given.skip(1) {
        words.push(Text::from_slice(rt.alloc(), word.as_bytes())?)?;
    }
    Ok(Some(words))
}

/// What is asked for.
fn asked_of(rt: HostRuntime) -> Result<Asked, WordsFault> {
    match given_words(rt)? {
        Some(words) => read_asked(rt.alloc(), words.as_slice()),
        None => Err(WordsFault::Words),
    }
}

/// Plays what standard input has.
fn play_given(rt: HostRuntime, asked: Asked) -> Status {
    let mut source = StdSource::new(rt.stdin());
    match read_all(rt.alloc(), &mut source, LIMIT) {
        Ok(text) => {
            let mut sink = StdSink::new(rt.stdout());
            explore(rt.alloc(), &mut sink, asked, text.as_slice())
        }
        Err(ReadAll::Failed) => Status::SourceFault,
        Err(ReadAll::Over) => Status::Limit,
        Err(ReadAll::NoMemory) => Status::NoMemory,
    }
}

fn main(rt: HostRuntime) -> ExitCode {
    let status = match asked_of(rt) {
        Ok(asked) => play_given(rt, asked),
        Err(WordsFault::Words) => Status::Words,
        Err(WordsFault::NoMemory) => Status::NoMemory,
    };
    ExitCode::from(status.code())
}
