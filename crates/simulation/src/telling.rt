//! What the program tells.

use crate::faults::{Verdict, Wrong};
use crate::running::{Found, Ran};
use simulation_events::{Coverage, DEEDS, EVENTS, deed_word, event_word};
use simulation_scripts::Asked;
use std::io;

/// What the words are.
pub fn tell_usage(rt: HostRuntime) {
    let _ = eprintln!(rt;
        "simulation SEED COUNT [--from RUN] [--repos N] [--clients N] [--items N] [--shrink yes|no] [--tables yes|no] [--scripts yes|no]"
    );
}

fn word_of(wrong: Wrong) -> &'static str {
    match wrong {
        Wrong::History => "the history doesn't pass its check",
        Wrong::Down { .. } => "a repository doesn't come back",
        Wrong::Opening => "the store can't be opened",
        Wrong::Store => "the disks hold another store than the history leaves",
        Wrong::Image => "a crash leaves another store than a restart finds",
        Wrong::Owners => "a transform hasn't read the owners of its object",
        Wrong::Buffer { .. } => "a repository buffers too much",
        Wrong::Counts { .. } => "a repository keeps too many sessions, transactions or messages",
    }
}

fn verdict_word(verdict: Verdict) -> &'static str {
    match verdict {
        Verdict::Right { .. } => "right",
        Verdict::Refused => "the script isn't accepted",
        Verdict::Wrong(wrong) => word_of(wrong),
    }
}

/// Tells the script that was found.
fn tell_found(rt: HostRuntime, asked: &Asked, found: &Found) -> io::Result<()> {
    let word = verdict_word(found.verdict);
    let run = found.run;
    let seed = asked.seed;
    println!(rt; "// seed {seed}, run {run}: {word}")?;
    let text = found.text.as_str();
    print!(rt; "{text}")
}

/// Tells how many runs there were, and how items ended.
fn tell_totals(rt: HostRuntime, ran: &Ran) -> io::Result<()> {
    let runs = ran.runs;
    let finished = ran.finished;
    let totals = ran.coverage.totals;
    println!(rt;
        "{runs} runs, {finished} with all items done; {} events; {} items: {} done, {} faulted, {} upgrades, {} refused, {} unknown",
        totals.events,
        totals.items,
        totals.done,
        totals.faulted,
        totals.upgraded,
        totals.refused,
        totals.unknown
    )
}

fn tell_causes(rt: HostRuntime, coverage: &Coverage) -> io::Result<()> {
    println!(rt; "refused items")?;
    for deed in 0..DEEDS {
        let count = coverage.refused(deed);
        if count > 0 {
            let word = deed_word(deed);
            println!(rt; "  {word} {count}")?;
        }
    }
    Ok(())
}

/// Tells the counts of a kind of events.
fn tell_row(rt: HostRuntime, coverage: &Coverage, event: usize, behind: bool) -> io::Result<()> {
    let word = event_word(event);
    print!(rt; "  {word}:")?;
    for deed in 0..DEEDS {
        let count = if behind {
            coverage.behind(event, deed)
        } else {
            coverage.came(event, deed)
        };
        if count > 0 {
            let word = deed_word(deed);
            print!(rt; " {word} {count}")?;
        }
    }
    println!(rt; "")
}

fn tell_tables(rt: HostRuntime, coverage: &Coverage) -> io::Result<()> {
    tell_causes(rt, coverage)?;
    println!(rt; "what events came to")?;
    for event in 0..EVENTS {
        tell_row(rt, coverage, event, false)?;
    }
    println!(rt; "what the client's last step had come to before events")?;
    for event in 0..EVENTS {
        tell_row(rt, coverage, event, true)?;
    }
    Ok(())
}

fn tell_all(rt: HostRuntime, asked: &Asked, ran: &Ran) -> io::Result<()> {
    if let Some(found) = &ran.found {
        tell_found(rt, asked, found)?;
    }
    tell_totals(rt, ran)?;
    if asked.tables {
        tell_tables(rt, &ran.coverage)?;
    }
    Ok(())
}

/// Tells what the runs have come to. Whether that could be told, and nothing is wrong.
pub fn tell_ran(rt: HostRuntime, asked: &Asked, ran: &Ran) -> bool {
    let told = tell_all(rt, asked, ran);
    told.is_ok() && (ran.found.is_none() || asked.scripts)
}
