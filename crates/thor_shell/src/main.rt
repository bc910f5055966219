//! The program: its words are the command, standard input is the script, and the report goes to
//! standard output. The exit status is that of the top call. What a person should do next, where there is
//! something, is one line on standard error. `--help` and `--version`, which are no words of a command, are
//! answered here.
#![tactic(auto)]

mod help;
mod performing;
mod stored;

use crate::help::{HELP, VERSION};
use crate::performing::{Ended, perform};
use crate::stored::perform_stored;
use outside::{StdSink, write_all};
use std::io::ErrorKind;
use std::process::ExitCode;
use std::sync::Wait;
use std::thread::Threads;
use std::{env, mem};
use thor_top::Status;
use thor_value::{NoMemory, Text, Texts};
use top_host::{Clocks, Counting, Machine, NO_MEMORY, advise, fault_of, memory};
use top_words::{Command, Plan, WordsFault, read_words};

fn main(rt: HostRuntime) -> ExitCode {
    let status = match answer(rt, &rt) {
        Ok(status) => status,
        Err(NoMemory) => {
            advise(rt, NO_MEMORY);
            Status::NoMemory
        }
    };
    ExitCode::from(status.code())
}

/// Answers the words behind the program's name.
fn answer<R: Threads + Wait + Sync>(rt: HostRuntime, threads: &R) -> Result<Status, NoMemory> {
    match words(rt)? {
        Some(words) => answer_to(rt, threads, &words),
        None => {
            let none = Texts::new(rt.alloc());
            let status = perform_in_memory(rt, threads, &none, 1, &Counting)?;
            advise(rt, "a word isn't UTF-8 text (--help tells more)");
            Ok(status)
        }
    }
}

/// Tells what was asked about the program, or does what the words ask for.
fn answer_to<R: Threads + Wait + Sync>(
    rt: HostRuntime,
    threads: &R,
    words: &Texts,
) -> Result<Status, NoMemory> {
    if has(words, b"--help") {
        return Ok(tell(rt, HELP));
    }
    if has(words, b"--version") {
        return Ok(tell(rt, VERSION));
    }
    match read_words(rt.alloc(), words.as_slice()) {
        Ok(plan) => match plan.command {
            Command::Run => perform_on(rt, threads, words, &plan, &Machine { rt }),
            _ => perform_on(rt, threads, words, &plan, &Counting),
        },
        Err(WordsFault::Words) => {
            let status = perform_in_memory(rt, threads, words, 1, &Counting)?;
            if let Ok(advice) = fault_of(rt.alloc(), words.as_slice()) {
                advise(rt, &advice);
            }
            Ok(status)
        }
        Err(WordsFault::NoMemory) => Err(NoMemory),
    }
}

/// Does what the words ask for, with these clocks.
fn perform_on<R: Threads + Wait + Sync, C: Clocks>(
    rt: HostRuntime,
    threads: &R,
    words: &Texts,
    plan: &Plan,
    clocks: &C,
) -> Result<Status, NoMemory> {
    match &plan.store {
        Some(folder) => perform_stored(rt, threads, words, plan, folder, clocks),
        None => perform_in_memory(rt, threads, words, plan.repos, clocks),
    }
}

/// Whether one of the words is this.
fn has(words: &Texts, wanted: &[u8]) -> bool {
    words
        .as_slice()
        .iter()
        .any(|word| word.as_slice() == wanted)
}

/// Writes a text to standard output.
fn tell(rt: HostRuntime, text: &str) -> Status {
    match write_all(&mut StdSink::new(rt.stdout()), text.as_bytes()) {
        Ok(()) => Status::Done,
        Err(_) => Status::SinkFault,
    }
}

/// The same on repositories in memory. These are left to the system.
fn perform_in_memory<R: Threads + Wait + Sync, C: Clocks>(
    rt: HostRuntime,
    threads: &R,
    words: &Texts,
    repos: u8,
    clocks: &C,
) -> Result<Status, NoMemory> {
    let Ended { status, parts, .. } = perform(
        rt,
        threads,
        words,
        memory(rt.alloc(), repos, clocks)?,
    );
    mem::forget(parts);
    Ok(status)
}

/// The words behind the program's name; nothing where one of them isn't UTF-8.
fn words(rt: HostRuntime) -> Result<Option<Texts>, NoMemory> {
    let given = match env::args(&rt) {
        Ok(given) => given,
        Err(error) => match error.kind() {
            ErrorKind::InvalidData => return Ok(None),
            _ => return Err(NoMemory),
        },
    };
    let mut words = Texts::new(rt.alloc());
    for word in given.skip(1) {
        words.push(Text::from_slice(rt.alloc(), word.as_bytes())?)?;
    }
    Ok(Some(words))
}
