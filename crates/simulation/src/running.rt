//! The runs.

use crate::faults::Verdict;
use crate::judging::{judge, judge_events, read_text};
use simulation_events::{Coverage, events_of, own_script};
use simulation_scripts::{Asked, Draws, Script, Trial, make, make_trouble, print, shrink};
use simulation_setup::Begun;
use std::alloc::Global;
use thor_value::{NoMemory, both};

/// A script at which something is wrong.
#[derive(Drop)]
pub struct Found {
    /// The number of the run.
    pub run: u64,
    pub verdict: Verdict,
    /// The script, shrunk.
    pub text: String,
}

/// What the runs have come to.
#[derive(Drop)]
pub struct Ran {
    pub runs: u64,
    /// Of how many all items were done.
    pub finished: u64,
    pub coverage: Coverage,
    /// The first script at which something is wrong.
    pub found: Option<Found>,
}

/// The seed of a run.
fn seed_of(seed: u64, run: u64) -> u64 {
    let mut draws = Draws::new(seed);
    let mut mixed = Draws::new(draws.number() ^ run);
    mixed.number()
}

/// What is wrong, if anything.
fn is_wrong(verdict: Verdict) -> bool {
    match verdict {
        Verdict::Wrong(_) => true,
        Verdict::Right { .. } | Verdict::Refused => false,
    }
}

fn is_right(verdict: Verdict) -> bool {
    match verdict {
        Verdict::Right { .. } => true,
        Verdict::Wrong(_) | Verdict::Refused => false,
    }
}

/// A trial by playing: what came how often is counted for nobody.
#[derive(Drop)]
struct Playing {
    alloc: Global,
    coverage: Coverage,
}

impl Trial for Playing {
    fn is_wrong(&mut self, script: &Script) -> Result<bool, NoMemory> {
        let text = print(self.alloc, script)?;
        let verdict = judge(self.alloc, &text, &script.options, &mut self.coverage)?;
        Ok(is_wrong(verdict))
    }
}

/// The script at which something is wrong, shrunk where that is asked for.
fn shrunk(
    alloc: Global,
    asked: &Asked,
    run: u64,
    script: Script,
    verdict: Verdict,
) -> Result<Found, NoMemory> {
    let mut script = script;
    if asked.shrinks && is_wrong(verdict) {
        let mut trial = Playing {
            alloc,
            coverage: Coverage::new(alloc)?,
        };
        shrink(alloc, &mut script, &mut trial)?;
    }
    Ok(Found {
        run,
        verdict,
        text: print(alloc, &script)?,
    })
}

/// How often a script is played, each time with more trouble in its schedule, at most.
const TROUBLES: u8 = 6;

/// Judges a script, and then with trouble in its schedule, up to the first time at which something is wrong.
fn judge_troubled(
    alloc: Global,
    script: &mut Script,
    draws: &mut Draws,
    ran: &mut Ran,
) -> Result<Verdict, NoMemory> {
    let text = print(alloc, script)?;
    match read_text(alloc, &text, script.options.repos)? {
        Some(begun) => judge_begun(alloc, script, &begun, draws, ran),
        None => Ok(Verdict::Refused),
    }
}

fn judge_begun(
    alloc: Global,
    script: &mut Script,
    begun: &Begun,
    draws: &mut Draws,
    ran: &mut Ran,
) -> Result<Verdict, NoMemory> {
    let mut verdict = Verdict::Refused;
    for _ in 0..draws.within(1, TROUBLES) {
        let events = events_of(alloc, &script.pieces)?;
        verdict = judge_events(alloc, begun, &events, &script.options, &mut ran.coverage)?;
        ran.runs = ran.runs.saturating_add(1);
        if !is_right(verdict) || !make_trouble(alloc, script, draws, ran.coverage.log())? {
            return Ok(verdict);
        }
    }
    Ok(verdict)
}

/// The script of a run: drawn, or read.
fn script_of(
    alloc: Global,
    asked: &Asked,
    own: &[u8],
    seed: u64,
) -> Result<Option<Script>, NoMemory> {
    if asked.is_own {
        own_script(alloc, own, asked.options)
    } else {
        Ok(Some(make(alloc, seed, &asked.bounds)?))
    }
}

/// A script, judged, and some with more trouble in its schedule. Whether there was a script.
fn run(
    alloc: Global,
    asked: &Asked,
    own: &[u8],
    number: u64,
    ran: &mut Ran,
) -> Result<bool, NoMemory> {
    let seed = seed_of(asked.seed, number);
    let Some(script) = script_of(alloc, asked, own, seed)? else {
        return Ok(false);
    };
    run_script(alloc, asked, seed, number, script, ran)?;
    Ok(true)
}

fn run_script(
    alloc: Global,
    asked: &Asked,
    seed: u64,
    number: u64,
    script: Script,
    ran: &mut Ran,
) -> Result<(), NoMemory> {
    let mut script = script;
    let mut draws = Draws::new(seed.wrapping_add(1));
    let verdict = judge_troubled(alloc, &mut script, &mut draws, ran)?;
    match verdict {
        Verdict::Right { is_finished } => {
            if is_finished {
                ran.finished = ran.finished.saturating_add(1);
            }
            if asked.scripts {
                ran.found = Some(shrunk(alloc, asked, number, script, verdict)?);
            }
        }
        Verdict::Refused | Verdict::Wrong(_) => {
            ran.found = Some(shrunk(alloc, asked, number, script, verdict)?);
        }
    }
    Ok(())
}

/// The runs that are asked for, up to the first at which something is wrong. Whether there were scripts.
fn run_from(alloc: Global, asked: &Asked, own: &[u8], ran: &mut Ran) -> Result<bool, NoMemory> {
    for place in 0..asked.count {
        if !run(alloc, asked, own, asked.from.wrapping_add(place), ran)? {
            return Ok(false);
        }
        if ran.found.is_some() {
            return Ok(true);
        }
    }
    Ok(true)
}

/// All runs that are asked for, up to the first at which something is wrong. Nothing where what was read is no script.
pub fn run_all(alloc: Global, asked: &Asked, own: &[u8]) -> Result<Option<Ran>, NoMemory> {
    let mut ran = Ran {
        runs: 0,
        finished: 0,
        coverage: Coverage::new(alloc)?,
        found: None,
    };
    let went = run_from(alloc, asked, own, &mut ran);
    let (ran, went) = both(ran, went)?;
    if went {
        return Ok(Some(ran));
    }
    drop(ran);
    Ok(None)
}
