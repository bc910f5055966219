//! Scripts and schedules are drawn from a seed, played in memory, and judged. The first that is wrong is shrunk and
//! told.
#![tactic(auto)]

mod beginning;
mod counts;
mod disks;
mod faults;
mod histories;
mod images;
mod judging;
mod living;
mod owners;
mod running;
mod same;
mod telling;
mod watching;

use crate::running::{Ran, run_all};
use crate::telling::{tell_ran, tell_usage};
use outside::{StdSource, read_all};
use simulation_scripts::{Asked, read_words};
use std::env;
use std::process::ExitCode;
use thor_value::{NoMemory, Text, Texts};

/// The most bytes of a script.
const LIMIT: usize = 8_388_608;

/// The words behind the program's name; none where one of them isn't UTF-8.
fn given_words(rt: HostRuntime) -> Result<Option<Texts>, NoMemory> {
    let Ok(given) = env::args(&rt) else {
        return Ok(None);
    };
    let mut words = Texts::new(rt.alloc());
    for word in given.skip(1) {
        words.push(Text::from_slice(rt.alloc(), word.as_bytes())?)?;
    }
    Ok(Some(words))
}

/// What is asked for; nothing where the words are none of the program's.
fn asked(rt: HostRuntime) -> Result<Option<Asked>, NoMemory> {
    match given_words(rt)? {
        Some(words) => Ok(read_words(words.as_slice())),
        None => Ok(None),
    }
}

/// The script of one's own, where it is asked for.
fn own_text(rt: HostRuntime, asked: &Asked) -> Option<Text> {
    if !asked.is_own {
        return Some(Text::new(rt.alloc()));
    }
    let mut source = StdSource::new(rt.stdin());
    read_all(rt.alloc(), &mut source, LIMIT).ok()
}

fn run(rt: HostRuntime, asked: &Asked) -> Option<Ran> {
    let text = own_text(rt, asked)?;
    match run_all(rt.alloc(), asked, text.as_slice()) {
        Ok(ran) => ran,
        Err(NoMemory) => None,
    }
}

fn main(rt: HostRuntime) -> ExitCode {
    let Ok(Some(asked)) = asked(rt) else {
        tell_usage(rt);
        return ExitCode::from(2);
    };
    match run(rt, &asked) {
        Some(ran) => {
            if tell_ran(rt, &asked, &ran) {
                ExitCode::SUCCESS
            } else {
                ExitCode::FAILURE
            }
        }
        None => ExitCode::from(3),
    }
}
